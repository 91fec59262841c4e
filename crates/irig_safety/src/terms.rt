//! By what repairs are judged besides the recording.

ghost use Rattle.std.specs.Prelude.{◌≡◌, OnOk};
ghost use Rattle.irig_safety.specs.Terms.{with_more, without_others};

use crate::odd::Odd;
use crate::shown::Shown;
use std::alloc::{AllocError, Global};
use std::marker::Model;

#[derive(Drop)]
pub struct Terms {
    /// Whether a frame that read well may be at another time than in the recording.
    pub moved: bool,
    /// Of other recordings of the same code.
    pub others: Vec<Shown>,
    /// Frames of these in which no pulse of a control function is odd.
    pub even: Vec<Shown>,
}

impl Model for Terms {
    ghost use Rattle.irig_safety.specs.Terms.{TermsView};

    ghost Value = { TermsView };

    ghost view = { λ t. record {
      moved = t.moved;
      others = t.others.items;
      even = t.even.items;
    } };
}

impl Terms {
    /// Without other recordings.
    pub fn new(alloc: Global, moved: bool) -> Terms
        ensures { result ≡ without_others moved }
    {
        Terms {
            moved,
            others: Vec::new(alloc),
            even: Vec::new(alloc),
        }
    }

    /// Adds frames of another recording, and those without odd pulses (`even`). If memory runs out,
    /// some may be added.
    pub fn add(&mut self, others: &[Shown], even: &[Shown]) -> Result<(), AllocError>
        ensures { OnOk result (self.new ≡ with_more others.now even.now self.old) }
    {
        self.others.extend_from_slice(others)?;
        self.even.extend_from_slice(even)?;
        Ok(())
    }
}

/// What is known of control functions besides the frames of the recording.
#[derive(Drop)]
pub struct Others {
    pub frames: Vec<Shown>,
    pub even: Vec<Shown>,
    /// Of this recording.
    pub odd: Vec<Odd>,
}

impl Model for Others {
    ghost use Rattle.irig_safety.specs.Terms.{OthersView};

    ghost Value = { OthersView };

    ghost view = { λ o. record {
      frames = o.frames.items;
      even = o.even.items;
      odd = o.odd.items;
    } };
}
