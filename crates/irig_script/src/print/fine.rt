//! Whether a frame is fine.

ghost use Rattle.std.specs.Prelude.{◌≡◌};
ghost use Rattle.irig_script.specs.Print.Fine.{is_fine, is_none_fine};

use irig_codes::Note;
use irig_edit::Session;
use irig_index::Verdict;

/// Whether a session has no frame that is fine.
pub fn is_none_fine(session: &Session) -> bool
    ensures { result ≡ is_none_fine session.now.state }
{
    for index in 0..session.frames() {
        if is_fine(&session.frame(index + 1).verdict) {
            return false;
        }
    }
    true
}

/// Whether a frame is read, and nothing wrong is noted of it.
fn is_fine(verdict: &Verdict) -> bool
    ensures { result ≡ is_fine verdict.now }
{
    matches!(verdict, Verdict::Read(_, Note::Fine))
}
