//! What a single name is.

ghost use Rattle.std.specs.Prelude.{◌↔◌, IsTrue};
ghost use Rattle.irig_disk.specs.Name.{IsName};

use std::path::Path;

/// Whether a path is a single name: not empty, without `/`, neither `.` nor `..`.
pub fn is_name(name: &str) -> bool
    ensures { IsTrue result ↔ IsName name.now }
{
    // The last part is the whole path only if the path has no other part and no `/`.
    match Path::new(name).file_name() {
        Some(last) => last == name,
        None => false,
    }
}
