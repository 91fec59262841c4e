//! How a proposed script is cut into repairs.

ghost use Rattle.std.specs.Prelude.{◌<◌, ◌≤◌, ◌-◌, drop, length, take};
ghost use Rattle.irig_guarding.specs.{Repair.texts, Cutting.IsCutBefore};

use crate::commands::{begins, closes};
use crate::line::Line;

/// The place, from 0, after the last line of the repair that begins at the place `at`. If the line
/// there is a `begin`, the repair is a group: up to the first line that closes it (`closes`), or
/// all lines that are left if none does.
pub fn repair_end(lines: &[Line<'_>], at: usize) -> usize
    requires { at < length lines.now }
    ensures more { at < result }
    ensures within { result ≤ length lines.now }
    ensures cut { IsCutBefore (texts (take (result - at) (drop at lines.now)))
        (texts (drop result lines.now)) }
{
    if !begins(&lines[at]) {
        return at + 1;
    }
    for place in at + 1..lines.len() {
        if closes(&lines[place]) {
            return place + 1;
        }
    }
    lines.len()
}
