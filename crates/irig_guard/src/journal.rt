//! The journal that a session is opened with.

ghost use Rattle.std.specs.Prelude.{◌≡◌, ◌≤◌, ◌^◌, IfSome, length};
ghost use Rattle.irig_files.specs.Reads.{most_bytes};
ghost use Rattle.irig_vcd.specs.Answer.{bytes_of};
ghost use Rattle.irig_guard.specs.Windows.{used_journal};

use irig_vcd::Window;

/// None in a window: the steps of a journal are those of the whole recording.
pub fn used_journal(window: Option<Window>, journal: Option<Vec<u8>>) -> Option<Vec<u8>>
    requires { IfSome journal (λ text. length text.items ≤ most_bytes window) }
    ensures used { bytes_of result ≡ used_journal window (bytes_of journal) }
    ensures few { IfSome result (λ text. length text.items ≤ 2 ^ 28) }
{
    match window {
        None => journal,
        Some(_) => None,
    }
}
