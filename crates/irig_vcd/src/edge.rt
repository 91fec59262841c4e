//! An edge as most dumps write it: the line of a time, and the line of a level, as `#120` and `1!`.

ghost use Rattle.std.specs.Prelude.{◌≡◌, ◌≤◌, ◌+◌, ◌∷◌, [], true, length, slice_index, IfSome};
ghost use Rattle.irig_vcd.specs.Code.Along.{TakesEdge};
ghost use Rattle.irig_vcd.specs.{Words.is_code};

use crate::lanes::lanes_end;
use crate::time::{Clock, cut};
use crate::unit::Unit;

/// The time of an edge, and the place after its two lines.
#[derive(Clone, Copy)]
pub struct Edge {
    pub time: Clock,
    pub end: usize,
}

/// A newline, this value, this code and a newline, compared as one number, which is fast.
#[inline(always)]
fn is_line(source: &[u8], at: usize, value: u8, code: u8) -> bool
    requires { at + 4 ≤ length source.now }
    ensures { result ≡ true
        → (slice_index source.now at ≡ 10)
        × (slice_index source.now (at + 1) ≡ value)
        × (slice_index source.now (at + 2) ≡ code)
        × (slice_index source.now (at + 3) ≡ 10) }
{
    let stands = u32::from_le_bytes([source[at], source[at + 1], source[at + 2], source[at + 3]]);
    let line = u32::from_le_bytes([b'\n', value, code, b'\n']);
    stands == line
}

/// The edge at the place `at`; `None` also if its time has no digits or more than 15. It has at
/// most 20 bytes, and `lanes_end` reads 16 on each side of the first digit.
#[inline(always)]
pub fn edge_at(source: &[u8], at: usize, high: bool, code: u8, unit: Unit) -> Option<Edge>
    requires back { 16 ≤ at }
    requires room { at + 32 ≤ length source.now }
    requires dark { is_code (code ∷ []) ≡ true }
    ensures { IfSome result (λ e. TakesEdge source.now at high code unit e) }
{
    if source[at] != b'#' {
        return None;
    }
    let (end, number) = lanes_end(source, at + 1);
    if end == at + 1 {
        return None;
    }
    let value = if high { b'1' } else { b'0' };
    if !is_line(source, end, value, code) {
        return None;
    }
    let (whole, rest) = cut(unit.digits_below(), number);
    Some(Edge {
        time: Clock { whole, rest },
        end: end + 4,
    })
}
