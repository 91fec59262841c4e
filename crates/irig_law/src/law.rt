//! When the law of time gives true times.

ghost use Rattle.irig_law.specs.{Holes.HolesAreBounded, Theorem.TimesAreTrue};
ghost use Rattle.irig_law.specs.{Truth.HopsAreTrue, Truth.NamesAreSent, Theorem.BeginTimesAreTrue};
ghost use Rattle.irig_law.specs.Theorem.{EndTimesAreTrue, EventfulTimesAreTrue, QuietTimesAreTrue};

/// Does nothing. Its contract is what holds of each recording.
///
/// - A hop over pulses that are missing is as many elements as were sent (`hops`).
/// - So the names by a frame's clock are what was sent, as far as the recorder lost nothing
///   (`names`).
/// - So each time that is printed where a pulse rises is the true one: that of the fields of the
///   frame that was sent then, and of its element. Between two believed frames without an event
///   (`quiet`) and with one (`eventful`), after the last one (`end`) and before the first one
///   (`begin`); so each of a whole recording (`points`).
/// - In a hole the code that passed is within its bounds, if the clock ran at the rate but for one
///   event at most (`holes`).
pub fn times_are_true()
    ensures hops { HopsAreTrue }
    ensures names { NamesAreSent }
    ensures quiet { QuietTimesAreTrue }
    ensures eventful { EventfulTimesAreTrue }
    ensures end { EndTimesAreTrue }
    ensures begin { BeginTimesAreTrue }
    ensures points { TimesAreTrue }
    ensures holes { HolesAreBounded }
{}
