//! Why another recording cannot be used.

use irig_files::DumpFileFault;
use irig_vcd::VcdFault;

/// Why another recording cannot be used.
#[derive(Clone, Copy)]
pub enum OtherFault {
    /// Its file is no dump that can be read, or memory ran out.
    File(DumpFileFault),
    /// The dump in it is no recording, or was not opened.
    Dump(VcdFault),
}
