//! What the digits of a printed time show of it, and when it is true.

ghost use Rattle.irig_stamps.specs.Printed.{CalendarTells, OrdinalTells, SecondsTell};
ghost use Rattle.irig_stamps.specs.TrueLines.{PrintedTimesAreTrue};

use irig_timed::times_are_near;

/// Does nothing: its contract is a theorem on two times of a track that are printed alike.
pub fn digits_tell_times()
    ensures ordinal { OrdinalTells }
    ensures calendar { CalendarTells }
    ensures seconds { SecondsTell }
{}

/// Does nothing, too: a time that is printed before a line is true, as near as it can be off.
pub fn printed_times_are_true()
    ensures words { PrintedTimesAreTrue }
{
    times_are_near();
}
