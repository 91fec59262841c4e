//! Reads the track of a wire from the dump at a path.

ghost use Rattle.std.specs.Prelude.{◌≡◌, IfErr, IfOk};
ghost use Rattle.irig_vcd.specs.Answer.{name_of};
ghost use Rattle.irig_files.specs.Reads.{IsReadIn};
ghost use Rattle.irig_vcd.specs.Extent.{long};
ghost use Rattle.irig_files.specs.Tracks.{IsTrackBy, IsTrackOf, IsUnread, name_in};

use crate::disk::Disk;
use crate::dump_file::DumpFileFault;
use crate::intake::{Parts, shorter};
use irig_recording::{LongRecording, Recording};
use irig_vcd::{Extent, VcdFault, Window};
use std::alloc::Global;
use thiserror::Error;

/// Why a track was not read.
#[derive(Clone, Copy, Debug, Error)]
pub enum TrackFault {
    /// The file of the dump was not read.
    #[error("{0}")]
    File(DumpFileFault),
    /// The file is no dump of such a wire.
    #[error("{0}")]
    Dump(VcdFault),
}

/// The track of a wire in the dump at a path, or in a window of it, with up to 2^22 pulses.
pub fn read_track<D: Disk>(
    alloc: Global,
    disk: &D,
    path: &str,
    wire: Option<&str>,
    window: Option<Window>,
) -> Result<Recording, TrackFault>
    ensures { IsTrackOf window (D.held disk.now path.now) (D.unread disk.now path.now)
        (name_in wire.entry) result }
{
    match read_in_window(alloc, disk, path, wire, window) {
        Ok(Ok((recording, _))) => Ok(recording),
        Ok(Err(fault)) => Err(TrackFault::Dump(fault)),
        Err(fault) => Err(TrackFault::File(fault)),
    }
}

/// The same with up to 2^26 pulses; the dump may have up to 2^47 bytes.
pub fn read_long_track<D: Disk>(
    alloc: Global,
    disk: &D,
    path: &str,
    wire: Option<&str>,
    window: Option<Window>,
) -> Result<LongRecording, TrackFault>
    ensures { IsTrackBy (long window) (D.held disk.now path.now) (D.unread disk.now path.now)
        (name_in wire.entry) result }
{
    match disk.read_extent(alloc, path, bytes_of(wire), Extent::long(window)) {
        Ok(Ok((recording, _))) => Ok(recording),
        Ok(Err(fault)) => Err(TrackFault::Dump(fault)),
        Err(fault) => Err(TrackFault::File(fault)),
    }
}

/// What the dump at a path says of a wire, if need be in a window; a journal is that of the whole
/// dump.
pub fn read_in_window<D: Disk>(
    alloc: Global,
    disk: &D,
    path: &str,
    wire: Option<&str>,
    window: Option<Window>,
) -> Result<Result<Parts, VcdFault>, DumpFileFault>
    ensures read { IfOk result
        (IsReadIn window (D.held disk.now path.now) (name_in wire.entry)) }
    ensures unread { IfErr result
        (IsUnread window (D.held disk.now path.now) (D.unread disk.now path.now)) }
{
    match disk.read_extent(alloc, path, bytes_of(wire), Extent::short(window)) {
        Ok(read) => Ok(shorter(read)),
        Err(fault) => Err(fault),
    }
}

fn bytes_of<'a>(wire: Option<&'a str>) -> Option<&'a [u8]>
    ensures { name_of result ≡ name_in wire.entry }
{
    match wire {
        Some(name) => Some(name.as_bytes()),
        None => None,
    }
}
