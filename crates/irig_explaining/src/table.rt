//! What damage costs, in sixteenths of a nat: sixteen times minus the natural logarithm of how
//! likely it is.

ghost use Rattle.irig_explaining.specs.Damage.{DamageCosts};

/// Parts of a microsecond: intervals, and what is compared with them, are in these.
pub(crate) const PART: u64 = 256;

/// A rise that is no element: a pulse at a random moment with a random width.
pub const SKIP: u32 = 128;

/// The first pulse too many in an element: a glitch comes alone.
pub(crate) const EXTRA: u64 = 32;

/// Each of the others: noise comes in numbers.
pub(crate) const MORE: u64 = 8;

/// An interval of the wire at the other level: the longer it is, the rarer.
pub(crate) const TURNED: u64 = 96;

/// A rise that is late or early, at most: a large deviation is one event.
pub(crate) const OFF_LINE: u64 = 80;

/// The same of a step in time and of a jump, at most: after these a rise can be anywhere. If they
/// paid nothing for it, a jump would be cheaper than going on to a rise that is a little late.
pub(crate) const TREMBLE: u64 = 48;

/// Elements without a rise, whatever their number: a hole is an event.
pub(crate) const MISSING: u64 = 72;

/// An element that looks like nothing: noise.
pub(crate) const NOTHING: u64 = 112;

/// A pulse that does not end in its element.
pub(crate) const NO_FALL: u64 = 96;

/// Another width, at once: another class.
pub(crate) const WIDTH: u64 = 48;

/// Another width, for each interval: a slicer that is off.
pub(crate) const WIDTH_MORE: u64 = 128;

/// Another width, at most.
pub(crate) const WIDTH_MOST: u64 = 96;

/// A bit that is one: most are zero.
pub(crate) const ONE: u64 = 10;

/// The time steps, the element number goes on: a recorder stops.
pub(crate) const STEP: u64 = 192;

/// The element number jumps: a part is cut out, or there twice.
pub(crate) const JUMP: u64 = 256;

/// Elements that look like nothing: no step over five of them and five rises costs less.
pub(crate) const FAR: u64 = 5 * NOTHING;

/// A step that there is not, and more than any other one.
pub(crate) const CANNOT: u64 = 16_777_216;

/// Sixteen times the natural logarithms of 1 (the second one) to 15.
pub(crate) const LOGARITHMS: [u64; 16] = [
    0, 0, 11, 18, 22, 26, 29, 31, 33, 35, 37, 38, 40, 41, 42, 43,
];

/// How many distances before a rise, and after it, its interval is the middle of.
pub(crate) const HALF: usize = 15;

/// The window of a recording, in rises.
pub(crate) const WINDOW: usize = 64;

/// What damage costs, in numbers: the definitions have the names of the constants alone.
pub fn costs_are_these()
    ensures { DamageCosts }
{}
