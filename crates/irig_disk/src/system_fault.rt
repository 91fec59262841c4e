//! Why a call of the system failed.

use std::io;

#[derive(Drop)]
pub struct SystemFault(pub io::Error);
