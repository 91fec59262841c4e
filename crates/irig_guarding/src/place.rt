//! Where a command of a repair changes the pulses of a session, so that what is known of other
//! pulses can be kept.

ghost use Rattle.std.specs.Prelude.{◌≡◌, ℕ, ℤ, IfSome, length};
ghost use Rattle.irig_codes.specs.declared.width.Element.{Element as SomeElement};
ghost use Rattle.irig_edit.specs.Edits.Regenerated.{rising_before};
ghost use Rattle.irig_guarding.specs.Known.{Became};
ghost use Rattle.irig_lines.specs.declared.time.Time.{Time as SomeTime};
ghost use Rattle.irig_moment.specs.Moment.{MomentView};
ghost use Rattle.irig_script.specs.Obey.Machine.{Machine};
ghost use Rattle.irig_script.specs.Obey.Obeying.{Obeys};
ghost use Rattle.irig_script.specs.declared.print.reply.Reply.TheVariants.{Silent};

use irig_edit::Session;
use irig_lines::{Address, Command, Range, Time};
use irig_script::{ends, number_at, time};

/// Where pulses become others: how many pulses are before them (`at`), and how many come instead
/// (`come`).
#[derive(Clone, Copy)]
pub struct Place {
    pub at: usize,
    pub come: u128,
}

/// Where a command changes the pulses if it is obeyed, by the function below for its kind. `None`
/// if that is not known: of `invert`, which adds or removes an edge at each of two times, and of
/// commands that edit no pulses, as `mark`.
pub fn place_of(session: &Session, command: &Command) -> Option<Place>
    ensures { (new : Machine) → Obeys command.now session.now Silent new
        → IfSome result (λ p. Became p.at p.come session.now.state.pulses new.state.pulses) }
{
    match command {
        Command::Delete(range) => Some(place_of_delete(session, range)),
        Command::Shift(range, _) => Some(place_of_shift(session, range)),
        Command::Join(range) => Some(place_of_join(session, range)),
        Command::Split(address, _, _) => Some(place_of_split(session, address)),
        Command::Force(address, _) => Some(place_of_force(session, address)),
        Command::Insert(_, to) => Some(place_of_insert(session, to)),
        Command::Regen(start, frames, _, _) => Some(place_of_regen(session, start, *frames)),
        _ => None,
    }
}

/// The place of pulses that are removed, from the first of a range on: none come instead.
fn place_of_delete(session: &Session, range: &Range) -> Place
    ensures { (new : Machine) → Obeys (Command.Delete range.now) session.now Silent new
        → Became result.at result.come session.now.state.pulses new.state.pulses }
{
    let (first, _) = ends(session, range);
    Place {
        at: first.saturating_sub(1),
        come: 0,
    }
}

/// The place of pulses that move: as many come as go, those from `first` to `last`, both included.
fn place_of_shift(session: &Session, range: &Range) -> Place
    ensures { (by : ℤ) (new : Machine) → Obeys (Command.Shift range.now by) session.now Silent new
        → Became result.at result.come session.now.state.pulses new.state.pulses }
{
    let (first, last) = ends(session, range);
    let (from, to) = (first as u128, last as u128);
    Place {
        at: first.saturating_sub(1),
        come: (to + 1).saturating_sub(from),
    }
}

/// The place of pulses that become one, from the first of a range on: one comes instead.
fn place_of_join(session: &Session, range: &Range) -> Place
    ensures { (new : Machine) → Obeys (Command.Join range.now) session.now Silent new
        → Became result.at result.come session.now.state.pulses new.state.pulses }
{
    let (first, _) = ends(session, range);
    Place {
        at: first.saturating_sub(1),
        come: 1,
    }
}

/// The place of a pulse that becomes two: these come instead of it.
fn place_of_split(session: &Session, address: &Address) -> Place
    ensures { (from to : SomeTime) (new : Machine)
        → Obeys (Command.Split address.now from to) session.now Silent new
        → Became result.at result.come session.now.state.pulses new.state.pulses }
{
    Place {
        at: number_at(session, address).saturating_sub(1),
        come: 2,
    }
}

/// The place of a pulse that gets another width: it goes, and one comes instead.
fn place_of_force(session: &Session, address: &Address) -> Place
    ensures { (element : SomeElement) (new : Machine)
        → Obeys (Command.Force address.now element) session.now Silent new
        → Became result.at result.come session.now.state.pulses new.state.pulses }
{
    Place {
        at: number_at(session, address).saturating_sub(1),
        come: 1,
    }
}

/// The place of a pulse that is inserted and ends at `to`: one comes, and none goes.
fn place_of_insert(session: &Session, to: &Time) -> Place
    ensures { (from : SomeTime) (new : Machine)
        → Obeys (Command.Insert from to.now) session.now Silent new
        → Became result.at result.come session.now.state.pulses new.state.pulses }
{
    Place {
        at: session.find(time(session, to)),
        come: 1,
    }
}

/// The place of frames that are generated from `start` on. The pulses that rise before `start` stay
/// before them (`rising_before`).
fn place_of_regen(session: &Session, start: &Time, frames: u64) -> Place
    ensures { (moment : MomentView) (control : ℕ) (new : Machine)
        → Obeys (Command.Regen start.now frames moment control) session.now Silent new
        → Became result.at result.come session.now.state.pulses new.state.pulses }
{
    Place {
        at: rising_before(session, time(session, start)),
        come: 100 * u128::from(frames),
    }
}

/// How many pulses rise before a time, in microseconds; 0 at time 0.
fn rising_before(session: &Session, time: u64) -> usize
    ensures { result ≡ length (rising_before time session.now.state.pulses) }
{
    if time == 0 { 0 } else { session.find(time - 1) }
}
