//! What a pulse means by its width, with one comparison for each question.

ghost use Rattle.std.specs.Prelude.{◌≡◌, true, unwrap_or};
ghost use Rattle.irig_codes.specs.declared.width.Element.TheVariants.{Zero};
ghost use Rattle.irig_codes.specs.{Reading.counts, Width.HasTwentieths, Width.class_in};
ghost use Rattle.irig_index.specs.Marker.{is_digit, is_position};

/// From 13 twentieths of the interval to below 19.
#[inline(always)]
pub fn is_position(interval: u64, width: u64) -> bool
    requires { HasTwentieths interval }
    ensures { result ≡ is_position (class_in interval width) }
{
    let twentieth = interval / 20;
    width.wrapping_sub(13 * twentieth) < 6 * twentieth
}

/// A Zero or a One: from 1 twentieth of the interval to below 13.
#[inline(always)]
pub fn is_digit(interval: u64, width: u64) -> bool
    requires { HasTwentieths interval }
    ensures { result ≡ is_digit (class_in interval width) }
{
    let twentieth = interval / 20;
    // A width below the lower bound wraps, so one comparison tests both bounds.
    width.wrapping_sub(twentieth) < 12 * twentieth
}

/// From 7 twentieths of the interval on; the width has to be that of a digit.
#[inline(always)]
pub fn is_one(interval: u64, width: u64) -> bool
    requires interval { HasTwentieths interval }
    requires digit { is_digit (class_in interval width) ≡ true }
    ensures { result ≡ counts (unwrap_or (class_in interval width) Zero) }
{
    7 * (interval / 20) <= width
}
