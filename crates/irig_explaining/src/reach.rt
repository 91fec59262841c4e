//! The elements to which a step goes on.

ghost use Rattle.std.specs.Prelude.{◌≡◌, ◌^◌, ◌≤◌};
ghost use Rattle.irig_explaining.specs.Reached.{IsReach, ahead_at, count, led, reached, round};

/// The elements to which a step goes on from a claim, or from which it leads to one. They count
/// round a frame, so what is said here is right but for whole frames.
#[derive(Clone, Copy)]
pub struct Reach {
    /// How many elements a frame has. If it has none, all are reached.
    pub size: u64,
    /// Whether the claim is the later one.
    pub turned: bool,
    /// How many elements element 0 is ahead of the claim, or after it.
    pub origin: u64,
    /// How many elements the clock says less, in whole frames.
    pub turn: u64,
    /// How many elements more, or fewer, than the clock says a step can go over.
    pub spare: u64,
}

impl Reach {
    /// All elements.
    pub fn all() -> Reach
        ensures size { result.size ≡ 0 }
        ensures fits { IsReach result }
    {
        Reach {
            size: 0,
            turned: false,
            origin: 0,
            turn: 0,
            spare: 0,
        }
    }

    /// How many numbers its elements have, of the first ones.
    pub fn count(self, states: usize) -> usize
        requires fits { IsReach self }
        requires few { states ≤ 2 ^ 32 }
        ensures { result ≡ count self states }
    {
        2 * self.spare as usize + 2 + states.saturating_sub(self.size as usize)
    }

    /// The element of a number: those near what the clock says, one further, and all that no frame
    /// has.
    pub fn element(self, number: usize) -> usize
        requires fits { IsReach self }
        requires few { number ≤ 2 ^ 33 }
        ensures { result ≡ reached self number }
    {
        let near = 2 * self.spare as usize + 1;
        if near < number {
            return self.size as usize + (number - near - 1);
        }
        if number == near {
            return self.led(if self.size <= 1 { 0 } else { 1 }) as usize;
        }
        self.led(self.ahead_at(number as u64)) as usize
    }

    /// How many elements a step goes on by a number.
    fn ahead_at(self, number: u64) -> u64
        requires fits { IsReach self }
        requires few { number ≤ 2 ^ 33 }
        ensures { result ≡ ahead_at self number }
    {
        let more = round(self.size, (number + self.size).saturating_sub(self.spare));
        round(self.size, more + (self.size - self.turn))
    }

    /// The element to which a step goes on that many elements, or from which it does.
    fn led(self, ahead: u64) -> u64
        requires fits { IsReach self }
        requires few { ahead ≤ 2 ^ 34 }
        ensures { result ≡ led self ahead }
    {
        if self.turned {
            return round(self.size, self.origin.saturating_sub(ahead));
        }
        round(self.size, ahead + self.size.saturating_sub(self.origin))
    }
}

/// A number round a frame of some elements, once at most.
fn round(size: u64, number: u64) -> u64
    ensures { result ≡ round size number }
{
    if number < size {
        return number;
    }
    number - size
}
