//! A format as what its frames say of time.

ghost use Rattle.std.specs.Prelude.{◌≡◌, ◌*◌, ◌^◌, ◌<◌, ◌≤◌, MatchOption, length};
ghost use Rattle.irig_candidates.specs.Bits.{cost_of, is_bit, is_one, price, value_cost};
ghost use Rattle.irig_candidates.specs.Bits.{value_price};
ghost use Rattle.irig_candidates.specs.Rows.{carried_at, field_of};
ghost use Rattle.irig_candidates.specs.Times.{day_of, inserted_of, is_inserted, is_time, minute_of};
ghost use Rattle.irig_candidates.specs.Times.{second_of, since, time_of, year_of};
ghost use Rattle.irig_candidates.specs.{Far.far};

use crate::bit::Bit;
use crate::calendar;
use crate::row::{Field, Row, carried, value};
use irig_codes::Format;
use std::marker::Model;

/// A format, with what each element of its frames carries of the time.
#[derive(Clone, Copy)]
pub struct Code {
    format: Format,
    rows: [Option<Row>; 100],
}

impl Model for Code {
    ghost use Rattle.std.specs.Prelude.{◌≡◌};
    ghost use Rattle.std.proofs.Common.{ap, sym};
    ghost use Rattle.irig_codes.specs.Format.{FormatView};
    ghost use Rattle.irig_candidates.specs.Rows.{rows_of_code};

    ghost Value = { FormatView };

    ghost view = { λ c. c.format };

    ghost invariant = { λ c. c.rows ≡ rows_of_code c.format };

    ghost inverse = { λ f. record { format = f; rows = rows_of_code f } };

    ghost inverse_ok = { λ c h. ap (λ r. record { format = c.format; rows = r }) (sym h) };
}

impl Code {
    pub fn new(format: Format) -> Code
        ensures { result ≡ format }
    {
        let mut rows = [None; 100];
        for element in 0..100 {
            rows[element] = carried(format, element);
        }
        Code { format, rows }
    }

    pub fn format(&self) -> Format
        ensures { result ≡ self.now }
    {
        self.format
    }

    /// What an element carries of the time, from 0.
    fn row(&self, element: usize) -> Option<Row>
        ensures { result ≡ carried_at self.now element }
    {
        if element < 100 {
            self.rows[element]
        } else {
            None
        }
    }

    /// Whether an element, from 0, is a bit of the time.
    pub fn is_bit(&self, element: usize) -> bool
        ensures { result ≡ is_bit self.now element }
    {
        self.row(element).is_some()
    }

    /// Whether an element of the frame of a time is a one that says it.
    pub fn is_one(&self, time: u64, element: usize) -> bool
        ensures { result ≡ is_one self.now time element }
    {
        match self.row(element) {
            None => false,
            Some(row) => row.is_one(value(&calendar::fields(self.format, time), row.field)),
        }
    }

    /// What it costs by bits of a stretch that frame 0 has a time.
    pub fn cost(&self, base: u64, bits: &[Bit]) -> u64
        requires { length bits.now ≤ 2 ^ 30 }
        ensures value { result ≡ cost_of self.now base bits.now }
        ensures small { result ≤ 2 ^ 32 * length bits.now }
    {
        let mut total = 0;
        for bit in bits {
            total += self.price(base, bit);
        }
        total
    }

    /// The same, if it is less than that.
    pub fn cost_below(&self, base: u64, bits: &[Bit], most: u64) -> Option<u64>
        requires { length bits.now ≤ 2 ^ 30 }
        ensures { MatchOption result (most ≤ cost_of self.now base bits.now)
            (λ cost. (cost ≡ cost_of self.now base bits.now) × (cost < most)) }
    {
        let mut total = 0;
        for bit in bits {
            if most <= total {
                return None;
            }
            total += self.price(base, bit);
        }
        if total < most { Some(total) } else { None }
    }

    fn price(&self, base: u64, bit: &Bit) -> u64
        ensures value { result ≡ price bit.now
            (is_one self.now (time_of self.now.kind base bit.now.frame) bit.now.element) }
        ensures small { result < 2 ^ 32 }
    {
        let time = self.time(base, bit.frame);
        bit.price(self.is_one(time, bit.element as usize))
    }

    /// What a value of a field costs, by the bits of a frame.
    pub fn value_cost(&self, field: Field, value: u32, bits: &[Bit]) -> u64
        requires { length bits.now ≤ 2 ^ 30 }
        ensures value { result ≡ value_cost self.now (field_of field) value bits.now }
        ensures small { result ≤ 2 ^ 32 * length bits.now }
    {
        let mut total = 0;
        for bit in bits {
            total += self.value_price(field, value, bit);
        }
        total
    }

    fn value_price(&self, field: Field, value: u32, bit: &Bit) -> u64
        ensures value { result ≡ value_price self.now (field_of field) value bit.now }
        ensures small { result < 2 ^ 32 }
    {
        match self.row(bit.element as usize) {
            None => 0,
            Some(row) => row.price(field, value, bit),
        }
    }

    /// Whether a frame can have a time.
    pub fn is_time(&self, time: u64) -> bool
        ensures { result ≡ is_time self.now.kind time }
    {
        calendar::is_time(self.format.kind(), time)
    }

    /// Whether a time lies in a second 60.
    pub fn is_inserted(&self, time: u64) -> bool
        ensures { result ≡ is_inserted self.now.kind time }
    {
        calendar::is_inserted(self.format.kind(), time)
    }

    /// The time of a frame of a stretch, by that of frame 0, its base.
    pub fn time(&self, base: u64, frame: u64) -> u64
        ensures value { result ≡ time_of self.now.kind base frame }
        ensures small { result < 2 ^ 34 }
    {
        calendar::time(self.format.kind(), base, frame)
    }

    /// The hundredths of a second from the begin of the year to a frame of a stretch.
    pub fn since(&self, base: u64, frame: u64) -> u64
        ensures value { result ≡ since self.now.kind (time_of self.now.kind base frame) }
        ensures small { result < 3162240000 }
    {
        calendar::since(self.format.kind(), self.time(base, frame))
    }

    /// How far a time is from those that can come some frames after another. Frames count with
    /// both: 1 is that of the other time itself.
    pub fn far(&self, time: u64, count: u64, other: u64) -> u64
        ensures value { result ≡ far self.now.kind time count other }
        ensures small { result < 2 ^ 32 }
    {
        calendar::far(self.format.kind(), time, count, other)
    }

    /// How many frames a second has; none in format E.
    pub fn second(&self) -> u64
        ensures value { result ≡ second_of self.now.kind }
        ensures small { result ≤ 100 }
    {
        calendar::second(self.format.kind())
    }

    /// How many frames a minute has.
    pub fn minute(&self) -> u64
        ensures value { result ≡ minute_of self.now.kind }
        ensures least { 6 ≤ result }
        ensures most { result ≤ 6000 }
    {
        calendar::minute(self.format.kind())
    }

    /// How many frames a day has.
    pub fn day(&self) -> u64
        ensures value { result ≡ day_of self.now.kind }
        ensures least { 8640 ≤ result }
        ensures most { result ≤ 8640000 }
    {
        calendar::day(self.format.kind())
    }

    /// How many frames a year of 366 days has.
    pub fn year(&self) -> u64
        ensures value { result ≡ year_of self.now.kind }
        ensures least { 1 ≤ result }
        ensures most { result ≤ 3162240000 }
    {
        calendar::year(self.format.kind())
    }

    /// How much later the times of a second 60 are than those of the second before it.
    pub fn inserted(&self) -> u64
        ensures value { result ≡ inserted_of self.now.kind }
        ensures most { result ≤ 6324480000 }
    {
        calendar::inserted(self.format.kind())
    }
}
