//! The stretches without a time that are found so far.

ghost use Rattle.std.specs.Prelude.{◌≡◌, ◌≤◌, ◌+◌, ◌-◌, ◌^◌, ◌++◌, [], List, None, IfOk, OnOk};
ghost use Rattle.std.specs.Prelude.{length, min};
ghost use Rattle.irig_stamps.specs.declared.stretch.Stretch.{Stretch};
ghost use Rattle.irig_stamps.specs.Joined.{number_of, touches, with_more};
ghost use Rattle.irig_stamps.specs.HoleRows.{hole_row, json_end, json_row, json_span, plain_end};
ghost use Rattle.irig_stamps.specs.{HoleRows.plain_row, HoleRows.plain_span, HoleRows.rows};
ghost use Rattle.irig_stamps.specs.{HoleTexts.IsShown};

use crate::stamp::why_word;
use crate::stretch::Stretch;
use crate::text::put_number;
use irig_times::Why;
use std::alloc::{AllocError, Global};

/// The rows of the stretches that are found, and the last one, which can become longer.
#[derive(Drop)]
pub struct Pending {
    text: Vec<u8>,
    last: Option<Stretch>,
    untimed: u64,
    count: u64,
}

impl Pending {
    pub fn new(alloc: Global) -> Pending
        ensures text { result.text.items ≡ [] }
        ensures last { result.last ≡ None }
        ensures untimed { result.untimed ≡ 0 }
        ensures count { result.count ≡ 0 }
    {
        Pending {
            text: Vec::new(alloc),
            last: None,
            untimed: 0,
            count: 0,
        }
    }

    /// Adds a stretch, which is not before the last one.
    pub fn add(&mut self, json: bool, comma: Option<u8>, next: Stretch) -> Result<(), AllocError>
        requires order { next.begin ≤ next.end }
        ensures shown { OnOk result ((stretches : List Stretch)
            → IsShown json comma self.old.last self.old.text.items stretches
            → IsShown json comma self.new.last self.new.text.items (with_more stretches next)) }
        ensures untimed { OnOk result (self.new.untimed
            ≡ min (self.old.untimed + (next.end - next.begin)) (2 ^ 64 - 1)) }
        ensures count { OnOk result ((stretches : List Stretch)
            → IsShown json comma self.old.last self.old.text.items stretches
            → self.old.count ≡ min (length stretches) (2 ^ 64 - 1)
            → self.new.count ≡ min (length (with_more stretches next)) (2 ^ 64 - 1)) }
    {
        self.untimed = self.untimed.saturating_add(next.end - next.begin);
        let Some(last) = self.last else {
            self.last = Some(next);
            self.count = 1;
            return Ok(());
        };
        if touches(&last, &next) {
            self.last = Some(Stretch {
                end: next.end,
                ..last
            });
            return Ok(());
        }
        put_row(&mut self.text, json, comma, &last)?;
        self.last = Some(next);
        self.count = self.count.saturating_add(1);
        Ok(())
    }

    /// The rows of all stretches, how many microseconds these have, and how many they are.
    pub fn finish(self, json: bool, comma: Option<u8>) -> Result<(Vec<u8>, u64, u64), AllocError>
        ensures rows { IfOk result (λ ended. (stretches : List Stretch)
            → IsShown json comma self.last self.text.items stretches
            → ended.0.items ≡ rows json comma stretches) }
        ensures untimed { IfOk result (λ ended. ended.1 ≡ self.untimed) }
        ensures count { IfOk result (λ ended. ended.2 ≡ self.count) }
    {
        let mut text = self.text;
        if let Some(last) = self.last {
            put_row(&mut text, json, comma, &last)?;
        }
        Ok((text, self.untimed, self.count))
    }
}

fn touches(last: &Stretch, next: &Stretch) -> bool
    ensures { result ≡ touches last.now next.now }
{
    last.end == next.begin && number_of(last.why) == number_of(next.why)
}

fn number_of(why: Why) -> u8
    ensures { result ≡ number_of why }
{
    match why {
        Why::Before => 0,
        Why::After => 1,
        Why::Hole => 2,
        Why::Step => 3,
        Why::Unbelieved => 4,
    }
}

fn put_row(
    text: &mut Vec<u8>,
    json: bool,
    comma: Option<u8>,
    stretch: &Stretch,
) -> Result<(), AllocError>
    ensures { OnOk result
        (text.new.items ≡ text.old.items ++ hole_row json comma stretch.now) }
{
    if json {
        put_json(text, stretch)
    } else {
        put_plain(text, comma.unwrap_or(b'\t'), stretch)
    }
}

fn put_plain(text: &mut Vec<u8>, comma: u8, stretch: &Stretch) -> Result<(), AllocError>
    ensures { OnOk result (text.new.items ≡ text.old.items ++ plain_row comma stretch.now) }
{
    put_plain_span(text, comma, stretch)?;
    put_plain_end(text, comma, stretch)
}

fn put_plain_span(text: &mut Vec<u8>, comma: u8, stretch: &Stretch) -> Result<(), AllocError>
    ensures { OnOk result (text.new.items ≡ text.old.items ++ plain_span comma stretch.now) }
{
    put_number(text, stretch.begin)?;
    text.extend_from_slice(&[comma])?;
    put_number(text, stretch.end)?;
    text.extend_from_slice(&[comma])
}

fn put_plain_end(text: &mut Vec<u8>, comma: u8, stretch: &Stretch) -> Result<(), AllocError>
    ensures { OnOk result (text.new.items ≡ text.old.items ++ plain_end comma stretch.now) }
{
    put_number(text, stretch.end.saturating_sub(stretch.begin))?;
    text.extend_from_slice(&[comma])?;
    text.extend_from_slice(why_word(stretch.why))?;
    text.extend_from_slice(b"\n")
}

fn put_json(text: &mut Vec<u8>, stretch: &Stretch) -> Result<(), AllocError>
    ensures { OnOk result (text.new.items ≡ text.old.items ++ json_row stretch.now) }
{
    put_json_span(text, stretch)?;
    put_json_end(text, stretch)
}

fn put_json_span(text: &mut Vec<u8>, stretch: &Stretch) -> Result<(), AllocError>
    ensures { OnOk result (text.new.items ≡ text.old.items ++ json_span stretch.now) }
{
    text.extend_from_slice(b"{\"begin\":")?;
    put_number(text, stretch.begin)?;
    text.extend_from_slice(b",\"end\":")?;
    put_number(text, stretch.end)
}

fn put_json_end(text: &mut Vec<u8>, stretch: &Stretch) -> Result<(), AllocError>
    ensures { OnOk result (text.new.items ≡ text.old.items ++ json_end stretch.now) }
{
    text.extend_from_slice(b",\"why\":\"")?;
    text.extend_from_slice(why_word(stretch.why))?;
    text.extend_from_slice(b"\"}\n")
}
