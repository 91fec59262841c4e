//! A text that is given in parts: no part is kept, so a text of any size needs one block.
#![tactic(auto)]

mod block;
mod bytes;
mod collect;
mod shelf;
mod text;

pub use block::{ENOUGH, new_block};
pub use bytes::Bytes;
pub use collect::whole;
pub use shelf::{Shelf, ShelfFault};
pub use text::Text;
