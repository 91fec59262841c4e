//! How far a dump that comes in parts is read.

ghost use Rattle.std.specs.Prelude.{◌≡◌, ◌≤◌, ◌<◌, ◌+◌, ◌*◌, ◌++◌, ◌^◌, List, Some, None, Ok, Err};
ghost use Rattle.std.specs.Prelude.{IfOk, IfErr, OnErr, OnOk, false, length, take};
ghost use Rattle.std.specs.Prelude.{drop, vec_capacity, vec_len};
ghost use Rattle.irig_vcd.specs.Code.DumpReader.{HasReadWords, IsReady, Stage, StopsAt};
ghost use Rattle.irig_vcd.specs.Words.{Word, words_from, words_of};
ghost use Rattle.irig_vcd.specs.{Answer.bytes_of, Answer.name_of, Code.Gathered.part_at};
ghost use Rattle.irig_vcd.specs.{Code.Gathered.so_far, Code.Journals.place_view, Code.Reached.IsOn};
ghost use Rattle.irig_vcd.specs.{Declarations.declarations_of, declared.fault.VcdFault.VcdFault};

use crate::fault::VcdFault;
use crate::reading::Reading;
use crate::stages::{begin, go_on};
use crate::unit::Unit;
use std::alloc::AllocError;

/// What was read of a dump; there is no `unit` until the declarations are read as a whole. `gone`
/// counts the bytes that were read and let go, `held` are those after them, `wanted` is how many
/// are enough to be read, and `journal` are the bytes of the first journal that are gone.
#[derive(Drop)]
pub struct Progress {
    pub wire: Option<Vec<u8>>,
    pub unit: Option<Unit>,
    pub code: Vec<u8>,
    pub reading: Reading,
    pub gone: usize,
    pub held: Vec<u8>,
    pub wanted: usize,
    pub journal: Vec<u8>,
}

impl Progress {
    /// Reads the first `whole` of the bytes that are held: the declarations, if there is no unit
    /// yet, and changes. `Ok(Err(fault))`: nothing is read, as the declarations have a fault, which
    /// more bytes may change. `Err`: a fault that stays, or memory ran out.
    pub fn read_to(&mut self, whole: usize) -> Result<Result<Unit, VcdFault>, VcdFault>
        requires within { whole ≤ vec_len self.old.held }
        requires ready { IsReady self.old.unit self.old.reading }
        requires short { self.old.gone + vec_len self.old.held ≤ 2 ^ 48 }
        ensures kept { IfOk result (λ _. (self.new.held ≡ self.old.held)
            × (self.new.gone ≡ self.old.gone) × (self.new.wire ≡ self.old.wire)
            × (self.new.journal ≡ self.old.journal) × (self.new.wanted ≡ self.old.wanted)
            × IsReady self.new.unit self.new.reading) }
        ensures extent { self.new.reading.trace.extent ≡ self.old.reading.trace.extent }
        ensures time { IfOk result (λ read. IfOk read
            (λ unit. IsOn unit self.new.reading.trace self.new.reading.clock)) }
        ensures unit { IfOk result (λ read. IfOk read (λ unit. self.new.unit ≡ Some unit)) }
        ensures read { IfOk result (λ read. IfOk read (λ unit. (words : List Word)
            → Stage (bytes_of self.old.wire) words self.old.unit self.old.code.items
            self.old.reading → (self.old.unit ≡ None → self.old.gone ≡ 0)
            → HasReadWords (bytes_of self.old.wire)
            (words ++ words_from self.old.gone false (take whole self.old.held.items)) unit
            self.new.code.items self.new.reading)) }
        ensures early { IfOk result (λ read. IfErr read (λ e. (self.old.unit ≡ None)
            × (declarations_of (bytes_of self.old.wire)
            (words_of (take whole self.old.held.items)) ≡ Err e)
            × (self.new.unit ≡ self.old.unit) × (self.new.code ≡ self.old.code)
            × (self.new.reading ≡ self.old.reading))) }
        ensures heading { self.old.unit ≡ None → (e : VcdFault)
            → declarations_of (bytes_of self.old.wire) (words_of (take whole self.old.held.items))
            ≡ Err e → result ≡ Ok (Err e) }
        ensures fault { IfErr result (λ e. (words : List Word)
            → Stage (bytes_of self.old.wire) words self.old.unit self.old.code.items
            self.old.reading → (self.old.unit ≡ None → self.old.gone ≡ 0)
            → StopsAt self.old.unit self.old.code (bytes_of self.old.wire)
            (words ++ words_from self.old.gone false (take whole self.old.held.items)) e) }
    {
        match self.unit {
            Some(unit) => {
                let part = &self.held[..whole];
                let code = self.code.as_slice();
                match go_on(unit, code, &mut self.reading, part, self.gone) {
                    Ok(()) => Ok(Ok(unit)),
                    Err(fault) => Err(fault),
                }
            }
            None => {
                let part = &self.held[..whole];
                let wire = name_slice(&self.wire);
                match begin(wire, &mut self.code, &mut self.reading, part) {
                    Ok(Ok(unit)) => {
                        self.unit = Some(unit);
                        Ok(Ok(unit))
                    }
                    other => other,
                }
            }
        }
    }

    /// Adds to `journal` what the first `whole` held bytes, which were read just now, have of it.
    pub fn gather(&mut self, whole: usize) -> Result<(), AllocError>
        requires within { whole ≤ vec_len self.old.held }
        requires short { self.old.gone + vec_len self.old.held ≤ 2 ^ 48 }
        ensures bytes { OnOk result (self.new.journal.items ≡ self.old.journal.items
            ++ part_at (so_far (place_view self.old.reading.journals.first)
            self.old.reading.pending (self.old.gone + whole)) self.old.gone
            (take whole self.old.held.items)) }
        ensures full { OnErr result (vec_capacity self.old.journal < vec_len self.old.journal
            + length (part_at (so_far (place_view self.old.reading.journals.first)
            self.old.reading.pending (self.old.gone + whole)) self.old.gone
            (take whole self.old.held.items))) }
        ensures within { OnOk result (vec_len self.new.journal ≤ vec_len self.old.journal + whole) }
        ensures rest { (self.new.wire ≡ self.old.wire) × (self.new.unit ≡ self.old.unit)
            × (self.new.code ≡ self.old.code) × (self.new.reading ≡ self.old.reading)
            × (self.new.gone ≡ self.old.gone) × (self.new.held ≡ self.old.held)
            × (self.new.wanted ≡ self.old.wanted) }
    {
        let first = self
            .reading
            .journals
            .so_far(self.reading.pending, self.gone + whole);
        match first {
            None => Ok(()),
            Some(place) => {
                let read = &self.held[..whole];
                self.journal
                    .extend_from_slice(place.within(read, self.gone))
            }
        }
    }

    /// Lets `count` bytes go. What stays is read again: so only when there are twice as many bytes.
    pub fn let_go(&mut self, count: usize)
        requires within { count ≤ vec_len self.old.held }
        requires short { self.old.gone + vec_len self.old.held ≤ 2 ^ 48 }
        ensures held { self.new.held.items ≡ drop count self.old.held.items }
        ensures gone { self.new.gone ≡ self.old.gone + count }
        ensures rest { (self.new.wire ≡ self.old.wire) × (self.new.unit ≡ self.old.unit)
            × (self.new.code ≡ self.old.code) × (self.new.reading ≡ self.old.reading)
            × (self.new.journal ≡ self.old.journal) }
        ensures length { self.new.gone + vec_len self.new.held
            ≡ self.old.gone + vec_len self.old.held }
        ensures wanted { self.new.wanted ≡ 2 * vec_len self.new.held }
    {
        drop_front(&mut self.held, count);
        self.gone += count;
        self.wanted = 2 * self.held.len();
    }
}

/// The wire's name as a slice of the `Vec` that keeps it.
fn name_slice(wire: &Option<Vec<u8>>) -> Option<&[u8]>
    ensures { name_of result ≡ bytes_of wire.now }
{
    match wire {
        None => None,
        Some(name) => Some(name.as_slice()),
    }
}

/// Removes the first `count` bytes; the others move to the front.
fn drop_front(bytes: &mut Vec<u8>, count: usize)
    requires { count ≤ vec_len bytes.old }
    ensures { bytes.new.items ≡ drop count bytes.old.items }
{
    let left = bytes.len() - count;
    bytes.copy_within(count.., 0);
    bytes.truncate(left);
}
