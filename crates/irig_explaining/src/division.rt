//! Divisions, which take longer than all else that a step costs.

ghost use Rattle.std.specs.Prelude.{◌≡◌, ◌/◌, ◌%◌, ◌<◌};

/// A quotient: most are 0.
pub(crate) fn quotient(number: u64, by: u64) -> u64
    requires { 0 < by }
    ensures { result ≡ number / by }
{
    if number < by {
        return 0;
    }
    number / by
}

/// What a division leaves: most numbers are less than what they are divided by.
pub(crate) fn rest(number: u64, by: u64) -> u64
    requires { 0 < by }
    ensures { result ≡ number % by }
{
    if number < by {
        return number;
    }
    number % by
}
