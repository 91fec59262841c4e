//! A window of a dump: the part of it that is kept.

ghost use Rattle.std.specs.Prelude.{◌≡◌};
ghost use Rattle.irig_vcd.specs.Window.{moved};

/// From the microsecond `from` of the dump up to the microsecond `to`, which is not in it.
#[derive(Clone, Copy)]
pub struct Window {
    pub from: u64,
    pub to: u64,
}

/// The microsecond of a window, from 0 at its begin, that a time of the dump falls on: for a time
/// before the window its begin, for one after it its end.
#[inline(always)]
pub fn moved(window: Option<Window>, time: u64) -> u64
    ensures { result ≡ moved window time }
{
    match window {
        None => time,
        Some(window) => time.min(window.to).saturating_sub(window.from),
    }
}
