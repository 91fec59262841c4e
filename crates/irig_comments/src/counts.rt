//! How many frames of two recordings are fine, and how many came, went and changed.

ghost use Rattle.std.specs.Prelude.{◌≡◌, ◌<◌, ◌+◌, ◌++◌, ◌^◌, OnOk, cond, codes, decimal};
ghost use Rattle.irig_comments.specs.Counts.{counts_between, counts_text, end_text};
ghost use Rattle.irig_comments.specs.Counts.{is_alone, is_both};

use crate::changes::Changes;
use crate::framed::Framed;
use crate::sides::Sides;
use irig_difference::put_number;
use std::alloc::AllocError;

/// The numbers of frames on the last line.
#[derive(Clone, Copy)]
pub struct Counts {
    /// Fine frames of the recording before.
    pub fine_before: usize,
    /// Fine frames of the recording after.
    pub fine_after: usize,
    /// Frames that only the recording after has at their place.
    pub made: usize,
    /// Frames that only the recording before has at their place.
    pub lost: usize,
    /// Frames that both have at one place, with another report.
    pub changed: usize,
}

impl Counts {
    pub fn between(before: &Framed, after: &Framed) -> Counts
        ensures { result ≡ counts_between before.now after.now }
    {
        let mut counts = Counts {
            fine_before: before.fine(),
            fine_after: after.fine(),
            made: 0,
            lost: 0,
            changed: 0,
        };
        let mut left = Changes::between(before, after);
        while let Some(sides) = left.next() {
            counts.add(&sides);
        }
        counts
    }

    /// Adds one for a place at which the two sides differ. `room`: two recordings have far fewer
    /// places than 2^32, so no sum overflows.
    fn add(&mut self, sides: &Sides)
        requires room { (self.old.made < 2 ^ 32) × (self.old.lost < 2 ^ 32)
            × (self.old.changed < 2 ^ 32) }
        ensures fine_before { self.new.fine_before ≡ self.old.fine_before }
        ensures fine_after { self.new.fine_after ≡ self.old.fine_after }
        ensures made { self.new.made
            ≡ cond (is_alone sides.now.after sides.now.before) 1 0 + self.old.made }
        ensures lost { self.new.lost
            ≡ cond (is_alone sides.now.before sides.now.after) 1 0 + self.old.lost }
        ensures changed { self.new.changed
            ≡ cond (is_both sides.now.before sides.now.after) 1 0 + self.old.changed }
    {
        match (sides.before, sides.after) {
            (None, None) => {}
            (None, Some(_)) => self.made += 1,
            (Some(_), None) => self.lost += 1,
            (Some(_), Some(_)) => self.changed += 1,
        }
    }
}

/// Writes the last line, as in `# frames: 9 fine before, 8 fine after, 0 made, 1 lost, 2 changed`.
/// Each call writes the text of the number before it, and then the next number.
pub(crate) fn put_counts(block: &mut Vec<u8>, counts: &Counts) -> Result<(), AllocError>
    ensures { OnOk result (block.new.items ≡ block.old.items ++ counts_text counts.now) }
{
    put_count(block, b"# frames:", counts.fine_before)?;
    put_count(block, b" fine before,", counts.fine_after)?;
    put_count(block, b" fine after,", counts.made)?;
    put_count(block, b" made,", counts.lost)?;
    put_count(block, b" lost,", counts.changed)?;
    block.extend_from_slice(end_of(counts))
}

/// The end of the last line; what to do next, if no frame is fine, before or after.
fn end_of(counts: &Counts) -> &'static [u8]
    ensures { result.now ≡ end_text counts.now }
{
    if counts.fine_before == 0 && counts.fine_after == 0 {
        b" changed; format or expression can be wrong, irig_what FILE says more\n"
    } else {
        b" changed\n"
    }
}

/// Writes a text, a space and a number in decimal; `put_number` writes the space.
fn put_count(block: &mut Vec<u8>, text: &[u8], count: usize) -> Result<(), AllocError>
    ensures { OnOk result
        (block.new.items ≡ block.old.items ++ (text.now ++ codes " " ++ decimal count)) }
{
    block.extend_from_slice(text)?;
    put_number(block, count as u64)
}
