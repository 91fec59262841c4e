//! The memory of a write.

ghost use Rattle.std.specs.Prelude.{◌≡◌, ◌≤◌, ◌+◌, [], IfOk, string_capacity};
ghost use Rattle.std.specs.{Path.path_buf_cap, Vec.vec_capacity};
ghost use Rattle.irig_text.specs.declared.block.TheConstants.{ENOUGH};

use irig_text::new_block;
use std::alloc::{AllocError, Global};
use std::path::PathBuf;

/// Bytes of a path or a name: a folder and the text of a link have at most 4,095 each, with a
/// slash.
const NAME: usize = 8192;

/// What a write needs memory for. It is made once, so no write asks for more.
#[derive(Drop)]
pub struct Room {
    /// The parts of a text wait here.
    pub block: Vec<u8>,
    /// The path of the file that is written.
    pub target: PathBuf,
    /// The name of a new file, but for its number.
    pub stem: String,
    pub name: String,
}

impl Room {
    /// Room for any number of writes. The last part added to a block may go past 64 KiB (`ENOUGH`),
    /// by at most 2,048 bytes.
    pub fn new(alloc: Global) -> Result<Room, AllocError>
        ensures empty { IfOk result (λ room. room.block.items ≡ []) }
        ensures block { IfOk result (λ room. ENOUGH + 2048 ≤ vec_capacity room.block) }
        ensures target { IfOk result (λ room. 4_095 + 1 + 4_095 ≤ path_buf_cap room.target) }
        ensures stem { IfOk result (λ room. 255 ≤ string_capacity room.stem) }
        ensures name { IfOk result (λ room. 255 ≤ string_capacity room.name) }
    {
        Ok(Room {
            block: new_block(alloc)?,
            target: PathBuf::with_capacity(alloc, NAME)?,
            stem: String::with_capacity(alloc, NAME)?,
            name: String::with_capacity(alloc, NAME)?,
        })
    }
}
