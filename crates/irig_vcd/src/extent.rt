//! How much of a dump is kept.

ghost use Rattle.std.specs.Prelude.{◌≡◌, ◌≤◌, ◌^◌};
ghost use Rattle.irig_vcd.specs.Extent.{long, most_pulses, short};

use crate::window::Window;
use irig_recording::{LONG_PULSES_LIMIT, PULSES_LIMIT};

/// What is kept of a dump: a window of it, or all of it if there is none; and how many pulses.
#[derive(Clone, Copy)]
pub struct Extent {
    pub window: Option<Window>,
    /// At most 2^26 pulses are kept, of a recording that is only read; else 2^22, to be edited.
    pub is_long: bool,
}

impl Extent {
    /// A window of a dump, or all of it, with at most 2^22 pulses, as a track has that is edited.
    pub fn short(window: Option<Window>) -> Extent
        ensures { result ≡ short window }
    {
        Extent {
            window,
            is_long: false,
        }
    }

    /// A window of a dump, or all of it, with at most 2^26 pulses.
    pub fn long(window: Option<Window>) -> Extent
        ensures { result ≡ long window }
    {
        Extent {
            window,
            is_long: true,
        }
    }

    #[inline(always)]
    pub fn most_pulses(self) -> usize
        ensures value { result ≡ most_pulses self }
        ensures limit { result ≤ 2 ^ 26 }
    {
        if self.is_long {
            LONG_PULSES_LIMIT
        } else {
            PULSES_LIMIT
        }
    }
}
