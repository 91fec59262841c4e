//! An index that counts the looks at its records.

ghost use Rattle.std.specs.Prelude.{◌≡◌, ◌<◌, ◌≤◌, ◌^◌, ℕ, length, slice_get, Some};
ghost use Rattle.irig_track.specs.Looks.{counted};
ghost use Rattle.irig_times.specs.FrameLooks.{LookedAtFrames, MarkersRise, PartedAt, frames_view};

use irig_index::{Index, Record};
use std::marker::Model;

/// Shows the frames of a track, and counts how often a record was looked at. Only `record` and
/// `find` reach the records, so the looks bound the work.
#[derive(Drop)]
pub struct FrameLens<'a> {
    index: &'a Index,
    // How many more looks can be counted. To count down to 0 is cheaper than up to 2^64 - 1.
    left: u64,
}

impl<'a> Model for FrameLens<'a> {
    ghost use Rattle.std.specs.Prelude.{◌-◌, ◌^◌};
    ghost use Rattle.irig_times.specs.FrameLooks.{FramesView, frames_view};

    ghost Value = { FramesView };

    ghost view = { λ l. frames_view l.index.now.records (2 ^ 64 - 1 - l.left) };
}

impl<'a> FrameLens<'a> {
    pub fn new(index: &'a Index) -> FrameLens<'a>
        ensures { result ≡ frames_view index.now.records 0 }
    {
        FrameLens {
            index,
            left: u64::MAX,
        }
    }

    /// No look is counted.
    pub fn len(&self) -> usize
        ensures { result ≡ length self.now.records }
    {
        self.index.len()
    }

    /// The record at place `k`, from 0, counted as a look.
    pub fn record(&mut self, k: usize) -> Record
        requires { k < length self.old.records }
        ensures value { slice_get self.old.records k ≡ Some result }
        ensures counted { self.new ≡ frames_view self.old.records (counted self.old.looks 1) }
    {
        self.left = self.left.saturating_sub(1);
        self.index.record(k)
    }

    /// How many records have a marker up to the pulse `number`, from 0.
    pub fn find(&mut self, number: usize) -> usize
        requires { MarkersRise self.old.records }
        ensures parted { PartedAt self.old.records number result }
        ensures within { result ≤ length self.old.records }
        ensures same { self.new.records ≡ self.old.records }
        ensures looked { (digits : ℕ) → length self.old.records < 2 ^ digits →
            LookedAtFrames self.old self.new digits }
    {
        let mut low = 0;
        let mut high = self.len();
        while low < high {
            let middle = low + (high - low) / 2;
            if self.record(middle).marker <= number {
                low = middle + 1;
            } else {
                high = middle;
            }
        }
        low
    }

    /// How many looks there were. The count stays at 2^64 - 1 once it is there.
    pub fn looks(&self) -> u64
        ensures { result ≡ self.now.looks }
    {
        u64::MAX - self.left
    }
}
