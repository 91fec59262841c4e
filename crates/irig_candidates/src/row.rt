//! What an element carries of the time: a weight in a field.

ghost use Rattle.std.specs.Prelude.{◌≡◌, ◌/◌, ◌%◌, ◌^◌, ◌<◌, ◌==◌};
ghost use Rattle.std.specs.Prelude.{if◌then◌else◌};
ghost use Rattle.irig_codes.specs.{Encoding.bit_of, Encoding.unit_of, Fields.number_in};
ghost use Rattle.irig_candidates.specs.{Bits.price};
ghost use Rattle.irig_candidates.specs.Rows.{alone, field_of, row_at, row_in, same};

use crate::bit::Bit;
use irig_codes::{Element, Fields, Format, decode};

/// A field of the time.
#[derive(Clone, Copy)]
pub enum Field {
    Hundredths,
    Seconds,
    Minutes,
    Hours,
    Days,
    Sbs,
}

#[derive(Clone, Copy)]
pub struct Row {
    pub field: Field,
    pub weight: u32,
}

/// What an element carries, by the fields of a frame in which it alone is One.
#[tactic(auto, unfolding(crate::specs::Rows::row_at))]
pub fn carried(format: Format, element: usize) -> Option<Row>
    requires { element < 100 }
    ensures { result ≡ row_at format element }
{
    let (fields, _) = decode(format, &alone(element));
    row_in(&fields)
}

fn alone(element: usize) -> [Element; 100]
    requires { element < 100 }
    ensures { result ≡ alone element }
{
    let mut frame = [Element::Zero; 100];
    frame[element] = Element::One;
    frame
}

fn weighing(field: Field, weight: u32) -> Option<Row>
    ensures { result ≡ Some (record { field = field; weight = weight }) }
{
    Some(Row { field, weight })
}

fn row_in(fields: &Fields) -> Option<Row>
    ensures { result ≡ row_in fields.now }
{
    let hundredths = fields.hundredths.unwrap_or(0);
    let sbs = fields.sbs.unwrap_or(0);
    if hundredths > 0 {
        weighing(Field::Hundredths, hundredths)
    } else if fields.seconds > 0 {
        weighing(Field::Seconds, fields.seconds)
    } else if fields.minutes > 0 {
        weighing(Field::Minutes, fields.minutes)
    } else if fields.hours > 0 {
        weighing(Field::Hours, fields.hours)
    } else if fields.days > 0 {
        weighing(Field::Days, fields.days)
    } else if sbs > 0 {
        weighing(Field::Sbs, sbs)
    } else {
        None
    }
}

/// The value of a field; 0 if the format has none.
pub fn value(fields: &Fields, field: Field) -> u32
    ensures { result ≡ number_in fields.now (field_of field) }
{
    match field {
        Field::Hundredths => fields.hundredths.unwrap_or(0),
        Field::Seconds => fields.seconds,
        Field::Minutes => fields.minutes,
        Field::Hours => fields.hours,
        Field::Days => fields.days,
        Field::Sbs => fields.sbs.unwrap_or(0),
    }
}

/// The unit of the decimal digit that a weight belongs to.
fn unit(weight: u32) -> u32
    ensures { result ≡ unit_of weight }
{
    if weight < 10 {
        1
    } else if weight < 100 {
        10
    } else {
        100
    }
}

impl Row {
    pub fn is_of(self, field: Field) -> bool
        ensures { result ≡ same self.field field }
    {
        matches!(
            (self.field, field),
            (Field::Hundredths, Field::Hundredths)
                | (Field::Seconds, Field::Seconds)
                | (Field::Minutes, Field::Minutes)
                | (Field::Hours, Field::Hours)
                | (Field::Days, Field::Days)
                | (Field::Sbs, Field::Sbs)
        )
    }

    /// Whether an element is a one that carries this, in a frame with a value of the field.
    pub fn is_one(self, value: u32) -> bool
        requires { 0 < self.weight }
        ensures { result ≡ (bit_of (field_of self.field) self.weight value == 1) }
    {
        match self.field {
            Field::Sbs => value / self.weight % 2 == 1,
            _ => decimal_bit(self.weight, value),
        }
    }

    /// What a bit costs that carries this, if a field has a value; 0 if it carries another field.
    pub fn price(self, field: Field, value: u32, bit: &Bit) -> u64
        requires { 0 < self.weight }
        ensures value { result ≡ (if same self.field field then price bit.now
            (bit_of (field_of self.field) self.weight value == 1) else 0) }
        ensures small { result < 2 ^ 32 }
    {
        if self.is_of(field) {
            bit.price(self.is_one(value))
        } else {
            0
        }
    }
}

/// The same in a field of decimal digits.
fn decimal_bit(weight: u32, value: u32) -> bool
    requires { 0 < weight }
    ensures { result ≡ (value / unit_of weight % 10 / (weight / unit_of weight) % 2 == 1) }
{
    let unit = unit(weight);
    value / unit % 10 / (weight / unit) % 2 == 1
}
