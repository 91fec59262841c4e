//! The lines of a change, given in parts.

ghost use Rattle.std.specs.Prelude.{◌≡◌, ◌≤◌, ◌<◌, ◌++◌, [], IfOk, OnOk, false, true, vec_len};
ghost use Rattle.irig_saved.specs.{Lines.text_of, SavedText.single_lines};

use crate::change_writer::put_single;
use crate::pulse_lines::PulseLines;
use crate::single::Single;
use std::alloc::AllocError;
use std::marker::Model;

/// Lines that are still to be given; `first` is the change if its first line is one of them.
#[derive(Drop)]
pub struct SingleLines<'s> {
    first: Option<&'s Single>,
    pulses: PulseLines<'s>,
}

impl<'s> Model for SingleLines<'s> {
    ghost use Rattle.std.specs.Prelude.{◌++◌, List, ℕ};
    ghost use Rattle.irig_saved.specs.LinesLeft.{first_left};

    ghost Value = { List ℕ };

    ghost view = { λ s. first_left s.first ++ s.pulses };
}

impl<'s> SingleLines<'s> {
    /// No lines.
    pub fn none() -> SingleLines<'s>
        ensures { result ≡ [] }
    {
        SingleLines {
            first: None,
            pulses: PulseLines::none(),
        }
    }

    /// All lines of a change that is no group.
    pub fn of(single: &'s Single) -> SingleLines<'s>
        ensures { result ≡ text_of (single_lines single.now) }
    {
        SingleLines {
            first: Some(single),
            pulses: PulseLines::of(single),
        }
    }

    /// As `fill` of `PulseLines`, but the first line of a change is added even to a full block. It
    /// has at most 96 bytes: `shift`, three numbers of 20 bytes, 26 letters, 4 spaces, a newline.
    pub fn fill(&mut self, block: &mut Vec<u8>, enough: usize) -> Result<bool, AllocError>
        ensures bytes { OnOk result (block.new.items ++ self.new ≡ block.old.items ++ self.old) }
        ensures end { IfOk result (λ ended. ended ≡ true → self.new ≡ []) }
        ensures room { IfOk result (λ ended. ended ≡ true → vec_len block.new < enough) }
        ensures full { IfOk result (λ ended. ended ≡ false → enough ≤ vec_len block.new) }
    {
        if let Some(single) = self.first {
            match put_single(block, single) {
                Ok(()) => {}
                Err(fault) => return Err(fault),
            }
            self.first = None;
        }
        self.pulses.fill(block, enough)
    }
}
