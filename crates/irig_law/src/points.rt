//! What is known of the elements of pulses that follow one another.

ghost use Rattle.std.specs.Prelude.{◌≡◌, ◌↔◌, ◌<◌, ◌^◌, [], Some};

use crate::point::Point;
use std::alloc::Global;

/// What is known of the element of each pulse from one on; of the others, nothing.
#[derive(Drop)]
pub struct Points {
    /// The number of the first one, from 0.
    pub from: usize,
    pub list: Vec<Option<Point>>,
}

impl Points {
    ghost use Rattle.irig_law.specs.Points.{Knows, points_end};
    ghost use Rattle.irig_law.specs.declared.point.Point.{Point};

    /// Of no pulse.
    pub fn none(alloc: Global) -> Points
        ensures from { result.from ≡ 0 }
        ensures list { result.list.items ≡ [] }
    {
        Points {
            from: 0,
            list: Vec::new(alloc),
        }
    }

    /// One more than the number of the last one.
    pub fn end(&self) -> usize
        requires { points_end self.now < 2 ^ 64 }
        ensures { result ≡ points_end self.now }
    {
        self.from + self.list.len()
    }

    /// The element of a pulse, if it is known.
    pub fn at(&self, number: usize) -> Option<Point>
        ensures { (x : Point) → (result ≡ Some x) ↔ Knows self.now number x }
    {
        if number < self.from {
            return None;
        }
        let place = number - self.from;
        if place < self.list.len() {
            self.list[place]
        } else {
            None
        }
    }
}
