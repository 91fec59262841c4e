//! A script whose witness keeps what it sees, over files in memory.

ghost use Rattle.std.specs.Prelude.{◌≤◌, ◌^◌, IfSome, length};

use crate::scripts::helpers::TWO_PULSES;
use crate::scripts::stopped_disks::left;
use crate::scripts::stops::INVERTED;
use crate::sights::Sights;
use crate::watching::{new_files, watch, watch_anew};
use irig_codes::{Format, Kind};
use irig_files::Room;
use irig_script::{Screen, Status};
use std::alloc::Global;

/// Two pulses in format G 2. The clause is for `watch`.
fn opening(alloc: Global) -> Option<(Vec<u8>, Format)>
    ensures { IfSome result (λ opened. length opened.0.items ≤ 2 ^ 28) }
{
    let format = Format::new(Kind::G, 2).ok()?;
    let dump = Vec::from_slice(alloc, TWO_PULSES).ok()?;
    Some((dump, format))
}

/// The text that is left is that of the last write, 163 bytes.
fn is_right(alloc: Global, room: &mut Room) -> bool {
    let Some((dump, format)) = opening(alloc) else {
        return false;
    };
    let mut files = new_files(alloc);
    let mut script = INVERTED.script;
    let mut out = Vec::new(alloc);
    let mut screen = Screen::new(&mut out, Sights::new());
    let outcome = watch(
        alloc,
        dump,
        format,
        &mut script,
        &mut screen,
        &mut files,
        room,
    );
    outcome == Ok(Status::AllAccepted)
        && out.as_slice() == INVERTED.printed
        && left(alloc, files.system().calls()) == Some(163)
}

fn is_right_anew(alloc: Global, room: &mut Room) -> bool {
    let Some((dump, format)) = opening(alloc) else {
        return false;
    };
    let mut script = INVERTED.script;
    let (_, files, outcome) = watch_anew(alloc, dump, format, &mut script, room);
    outcome == Ok(Status::AllAccepted) && left(alloc, files.system().calls()) == Some(163)
}

// If memory runs out for the room, nothing is tested.
#[test]
fn a_watched_script_prints_and_writes_the_same(rt: HostRuntime) {
    let Ok(mut room) = Room::new(rt.alloc()) else {
        return;
    };
    assert!(rt; is_right(rt.alloc(), &mut room));
    assert!(rt; is_right_anew(rt.alloc(), &mut room));
}
