//! Where a part of a dump may end.

ghost use Rattle.std.specs.Prelude.{◌≡◌, ◌≤◌, true, false, not, length, drop, take};
ghost use Rattle.std.specs.List.{list_all};
ghost use Rattle.irig_vcd.specs.{Code.Joins.ends_inside, Words.is_space};

use crate::token::is_space;

/// How many bytes there are up to and with the last white space, so that no word is cut.
pub fn whole_len(bytes: &[u8]) -> usize
    ensures within { result ≤ length bytes.now }
    ensures outside { ends_inside false (take result bytes.now) ≡ false }
    ensures dark { list_all (λ b. not (is_space b)) (drop result bytes.now) ≡ true }
{
    let mut at = bytes.len();
    while at > 0 && !is_space(bytes[at - 1]) {
        at -= 1;
    }
    at
}
