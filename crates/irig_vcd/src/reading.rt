//! What was read after the declarations: the changes of the wire.

ghost use Rattle.std.specs.Prelude.{◌≡◌, ◌≤◌, ◌^◌, ℕ, List, None, Err, IfOk, OnOk};
ghost use Rattle.irig_vcd.specs.{Code.Journals.Holds, Code.Reached.IsOn, Code.Scanned.HasScanned};
ghost use Rattle.irig_vcd.specs.{Code.Scanned.StandsAt, Code.Trace.IsKept, Code.Trace.KeepsEdges};
ghost use Rattle.irig_vcd.specs.{Extent.most_pulses, Extent.short, Level.HasEdge, Level.Change};
ghost use Rattle.irig_vcd.specs.Scan.{Scan, scan_ended, scan_words, start};
ghost use Rattle.irig_vcd.specs.{declared.fault.VcdFault.TheVariants.OutOfMemory};

use crate::changes::follow;
use crate::extent::Extent;
use crate::fault::VcdFault;
use crate::journals::Journals;
use crate::pending::{Pending, closed};
use crate::time::{Clock, micros};
use crate::token::Tokens;
use crate::trace::Trace;
use crate::unit::Unit;
use crate::window::moved;
use irig_recording::Edges;
use std::alloc::Global;

/// What was read so far: the last time, the edges and the level, the journals, and what is open.
#[derive(Drop)]
pub struct Reading {
    pub clock: Clock,
    pub trace: Trace,
    pub journals: Journals,
    pub pending: Pending,
}

/// What a dump says after its declarations. `end` is the length that is kept, in microseconds.
#[derive(Drop)]
pub struct Body {
    pub end: u64,
    pub edges: Edges,
    pub journals: Journals,
}

impl Reading {
    /// A reading that has read nothing yet: the time is 0.
    pub fn new(alloc: Global, extent: Extent) -> Reading
        ensures start { (unit : ℕ) → StandsAt unit start result }
        ensures time { (unit : ℕ) → IsOn unit result.trace result.clock }
        ensures extent { result.trace.extent ≡ extent }
    {
        Reading {
            clock: Clock { whole: 0, rest: 0 },
            trace: Trace::new(alloc, extent),
            journals: Journals::new(),
            pending: Pending::Nothing,
        }
    }

    /// Reads tokens that come after the others. A fault is one of the dump whatever comes later.
    pub fn read(&mut self, tokens: &mut Tokens, unit: Unit, code: &[u8]) -> Result<(), VcdFault>
        requires time { IsOn unit self.old.trace self.old.clock }
        ensures time { OnOk result (IsOn unit self.new.trace self.new.clock) }
        ensures scans { (s : Scan) → StandsAt unit s self.old
            → HasScanned code.now unit s tokens.old result self.new }
        ensures extent { self.new.trace.extent ≡ self.old.trace.extent }
    {
        self.clock = follow(
            tokens,
            unit,
            code,
            self.clock,
            &mut self.trace,
            &mut self.journals,
            &mut self.pending,
        )?;
        Ok(())
    }

    /// What was read, if nothing comes after it. `BadToken` if a value without its code is open,
    /// `Unclosed` if a comment is; an edge too many is no error here, as the caller tests for it.
    pub fn finish(self, unit: Unit) -> Result<Body, VcdFault>
        requires time { IsOn unit self.trace self.clock }
        ensures exact { (s : Scan) → StandsAt unit s self
            → KeepsEdges self.trace.extent result (scan_ended unit (s, None)) }
        ensures journals { IfOk result (λ x. (s : Scan) → StandsAt unit s self
            → Holds s.journals x.journals) }
        ensures kept { IfOk result (λ x. (changes : List Change)
            × IsKept (most_pulses self.trace.extent) changes x.end x.edges) }
        ensures short { IfOk result (λ x. x.end ≤ 2 ^ 40) }
        ensures same { IfOk result (λ x. x.journals ≡ self.journals) }
        ensures memory { result ≡ Err OutOfMemory → (s : Scan)
            → StandsAt unit s self → HasEdge s.changes }
    {
        match closed(self.pending) {
            Ok(()) => {}
            Err(fault) => return Err(fault),
        }
        let last = micros(unit, self.clock);
        let journals = self.journals;
        let end = moved(self.trace.extent.window, last);
        let edges = self.trace.finish(last)?;
        Ok(Body {
            end,
            edges,
            journals,
        })
    }
}

/// Reads all that is after the declarations of a dump in memory, of at most 2^22 pulses.
pub fn read_body(
    alloc: Global,
    tokens: &mut Tokens,
    unit: Unit,
    code: &[u8],
) -> Result<Body, VcdFault>
    ensures exact { KeepsEdges (short None) result
        (scan_ended unit (scan_words code.now unit start tokens.old)) }
    ensures journals { IfOk result
        (λ x. Holds (scan_words code.now unit start tokens.old).0.journals x.journals) }
    ensures whole { OnOk result ((scan_words code.now unit start tokens.old).1 ≡ None) }
    ensures short { IfOk result (λ x. x.end ≤ 2 ^ 40) }
    ensures memory { result ≡ Err OutOfMemory
        → HasEdge (scan_words code.now unit start tokens.old).0.changes }
{
    let mut reading = Reading::new(alloc, Extent::short(None));
    match reading.read(tokens, unit, code) {
        Ok(()) => reading.finish(unit),
        Err(fault) => Err(fault),
    }
}
