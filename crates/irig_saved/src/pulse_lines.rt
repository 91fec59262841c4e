//! The lines of the pulses that a splice inserts, given in parts.

ghost use Rattle.std.specs.Prelude.{◌≡◌, ◌≤◌, ◌<◌, ◌++◌, [], IfOk, OnOk, false, true, vec_len};
ghost use Rattle.irig_saved.specs.{Lines.text_of, SavedText.pulse_lines, SavedText.put_of};

use crate::change_writer::put_pulse;
use crate::pulses::Pulses;
use crate::single::Single;
use std::alloc::AllocError;
use std::marker::Model;

/// A line for each pulse from index `next` on, from 0; none if the change is no splice.
#[derive(Drop)]
pub(crate) struct PulseLines<'s> {
    pulses: Option<&'s Pulses>,
    next: usize,
}

impl<'s> Model for PulseLines<'s> {
    ghost use Rattle.std.specs.Prelude.{List, ℕ};
    ghost use Rattle.irig_saved.specs.LinesLeft.{pulses_left};

    ghost Value = { List ℕ };

    ghost view = { λ p. pulses_left p.pulses p.next };
}

impl<'s> PulseLines<'s> {
    /// No lines.
    pub(crate) fn none() -> PulseLines<'s>
        ensures { result ≡ [] }
    {
        PulseLines {
            pulses: None,
            next: 0,
        }
    }

    /// A line for each pulse that a splice inserts.
    pub(crate) fn of(single: &'s Single) -> PulseLines<'s>
        ensures { result ≡ text_of (pulse_lines (put_of single.now)) }
    {
        match single {
            Single::Splice { put, .. } => PulseLines {
                pulses: Some(put),
                next: 0,
            },
            _ => PulseLines::none(),
        }
    }

    /// Adds whole lines to a block until it has `enough` bytes (`false`) or no line is left
    /// (`true`).
    pub(crate) fn fill(&mut self, block: &mut Vec<u8>, enough: usize) -> Result<bool, AllocError>
        ensures bytes { OnOk result (block.new.items ++ self.new ≡ block.old.items ++ self.old) }
        ensures end { IfOk result (λ ended. ended ≡ true → self.new ≡ []) }
        ensures room { IfOk result (λ ended. ended ≡ true → vec_len block.new < enough) }
        ensures full { IfOk result (λ ended. ended ≡ false → enough ≤ vec_len block.new) }
    {
        let Some(pulses) = self.pulses else {
            return Ok(block.len() < enough);
        };
        let len = pulses.len();
        for place in self.next..len {
            if block.len() >= enough {
                self.next = place;
                return Ok(false);
            }
            match put_pulse(block, pulses.get(place)) {
                Ok(()) => {}
                Err(fault) => return Err(fault),
            }
        }
        self.next = len;
        Ok(block.len() < enough)
    }
}
