//! When the time of a moment is true, and why it has none.

ghost use Rattle.irig_timed.specs.Knowns.{NoneIffWhy, OneWhy};
ghost use Rattle.irig_timed.specs.{NearTimes.TimesAreNear, TrueMoments.MomentsAreNear};
ghost use Rattle.irig_timed.specs.Truths.{MomentsAreTrue};

use irig_law::times_are_true;

/// Does nothing. Its contract is what holds of the time of each moment of each recording, if what
/// happened to it is one of the stories.
pub fn moments_are_true()
    ensures moments { MomentsAreTrue }
{
    // For the proof alone: its contract has the laws of irig_law.
    times_are_true();
}

/// Does nothing, too. Its contract is what holds of each time as it is printed.
pub fn times_are_near()
    ensures near { TimesAreNear }
    ensures moments { MomentsAreNear }
{
    moments_are_true();
}

/// Does nothing, too: each moment has one reason at most, and has one if and only if it has no
/// time.
pub fn reasons_are_exact()
    ensures one { OneWhy }
    ensures none { NoneIffWhy }
{}
