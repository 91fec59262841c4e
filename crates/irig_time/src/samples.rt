//! How the lines that a recorder wrote, its samples, are read, and how a time is written: by the
//! values of the options.

ghost use Rattle.std.specs.Prelude.{◌≡◌, ◌≤◌, ◌<◌, ◌^◌, IfErr, IfOk, IfSome, Some, codes, true};
ghost use Rattle.irig_time.specs.Faults.{HasFault};
ghost use Rattle.irig_time.specs.Samples.{HasColumns, HasDates, HasWithin, IsColumn, IsComma};
ghost use Rattle.irig_time.specs.Samples.{is_column_name, names_column};
ghost use Rattle.irig_time.specs.Values.{whole_between};
ghost use Rattle.irig_words.specs.Formats.{text_or};
ghost use Rattle.irig_time.specs.declared.chosen.OptionFault.TheVariants.{Comma};

use crate::chosen::OptionFault;
use crate::raw_values::RawValues;
use crate::units::places_named;
use crate::values::{comma_named, form_named, offset_named, whole_between};
use irig_stamps::{Form, Picos, whole};
use irig_words::text_or;

/// The last column that a number can name, from 1: this project's own limit.
const COLUMN_LIMIT: u128 = 65_536;

const HEADER_LIMIT: u128 = 4_294_967_296;

const WITHIN_LIMIT: u128 = 4_294_967_296;

/// The century of years of two digits, if no year is given: 2000 to 2099.
const CENTURY: u32 = 20;

const YEAR_FIRST: u128 = 1_000;

/// The last year: a track can reach into the next one, which has four digits, too.
const YEAR_LIMIT: u128 = 9_998;

/// Where the recorder's time is in a line, and what it means.
#[derive(Clone, Copy)]
pub struct Columns<'a> {
    /// Its unit is 10^`places` picoseconds.
    pub places: usize,
    /// Its value at the start of the track, in picoseconds from the recorder's zero.
    pub offset: Picos,
    /// The column of a line that it is in.
    pub column: Column<'a>,
    /// The byte that parts columns; `None` is white space.
    pub comma: Option<u8>,
}

/// A column of a line: by its number, or by its name, if it has to be looked up in the header.
#[derive(Clone, Copy)]
pub struct Column<'a> {
    /// Its number, from 0.
    pub number: usize,
    /// Its name, if it is given by that.
    pub named: Option<&'a [u8]>,
}

/// Where the recorder's time is in a line, and what it means, by four options: `--unit`,
/// microseconds if it is not given; `--offset`, 0; `--column`, the first; and `--comma`, white
/// space.
pub fn columns_of<'a>(raw: &RawValues<'a>) -> Result<Columns<'a>, OptionFault>
    ensures columns { IfOk result (λ c. HasColumns raw.now c.places c.offset c.column c.comma) }
    ensures sound { IfOk result (λ c. c.offset.size ≤ 2 ^ 119) }
    ensures named { IfOk result (λ c.
        IfSome c.column.named (λ n. names_column raw.now ≡ true)) }
    ensures fault { IfErr result (HasFault raw.now) }
{
    let Some(places) = places_named(text_or(raw.unit, "us")) else {
        return Err(OptionFault::Unit);
    };
    let Some(offset) = offset_named(places, text_or(raw.offset, "0")) else {
        return Err(OptionFault::Offset);
    };
    let column = column_of(raw)?;
    let Ok(comma) = comma_of(raw) else {
        return Err(OptionFault::Comma);
    };
    Ok(Columns {
        places,
        offset,
        column,
        comma,
    })
}

fn column_of<'a>(raw: &RawValues<'a>) -> Result<Column<'a>, OptionFault>
    ensures column { IfOk result (IsColumn raw.now) }
    ensures named { IfOk result (λ c. IfSome c.named (λ n. names_column raw.now ≡ true)) }
    ensures fault { IfErr result (HasFault raw.now) }
{
    let text = text_or(raw.column, "1");
    if is_column_name(text) {
        return Ok(Column {
            number: 0,
            named: Some(text),
        });
    }
    let Some(number) = whole_between(1, COLUMN_LIMIT, text) else {
        return Err(OptionFault::Column);
    };
    Ok(Column {
        number: (number - 1) as usize,
        named: None,
    })
}

#[tactic(auto, using(crate::proofs::Headed::some_capped))]
fn is_column_name(text: &[u8]) -> bool
    ensures { result ≡ is_column_name text.now }
{
    !text.is_empty() && whole(text).is_none()
}

pub fn header_of(raw: &RawValues<'_>, named: Option<&[u8]>) -> Result<u64, OptionFault>
    requires { IfSome named (λ n. names_column raw.now ≡ true) }
    ensures header { IfOk result (λ header.
        whole_between 0 4294967296 (text_or raw.now.header (codes "0")) ≡ Some header) }
    ensures headed { IfOk result (λ header. IfSome named.entry (λ n. 0 < header)) }
    ensures sound { IfOk result (λ header. header < 2 ^ 64) }
    ensures fault { IfErr result (HasFault raw.now) }
{
    let Some(header) = whole_between(0, HEADER_LIMIT, text_or(raw.header, "0")) else {
        return Err(OptionFault::Header);
    };
    let Some(_) = named else {
        return Ok(header as u64);
    };
    if header == 0 {
        return Err(OptionFault::Headless);
    }
    Ok(header as u64)
}

/// The byte that parts columns (`--comma`); `Ok(None)` if it is not given: then white space does.
fn comma_of(raw: &RawValues<'_>) -> Result<Option<u8>, OptionFault>
    ensures comma { IfOk result (IsComma raw.now) }
    ensures fault { IfErr result (λ fault. HasFault raw.now Comma) }
{
    let Some(text) = raw.comma else {
        return Ok(None);
    };
    match comma_named(text.as_bytes()) {
        Some(comma) => Ok(Some(comma)),
        None => Err(OptionFault::Comma),
    }
}

/// By how many microseconds a time can be off that is printed (`--within`), if that is given.
pub fn within_of(raw: &RawValues<'_>) -> Result<Option<u64>, OptionFault>
    ensures within { IfOk result (HasWithin raw.now) }
    ensures fault { IfErr result (HasFault raw.now) }
{
    let Some(text) = raw.within else {
        return Ok(None);
    };
    match whole_between(0, WITHIN_LIMIT, text.as_bytes()) {
        Some(within) => Ok(Some(within as u64)),
        None => Err(OptionFault::Within),
    }
}

/// How a time is written, and what completes its year.
#[derive(Clone, Copy)]
pub struct Dates {
    /// The century of years of two digits.
    pub century: u32,
    /// The year of the first fine frame, if it is given.
    pub year: Option<u32>,
    /// Whether as a day of the year, a date, or seconds.
    pub form: Form,
}

/// How a time is written (`--form`, `ordinal` if it is not given), and its year (`--year`).
pub fn dates_of(raw: &RawValues<'_>) -> Result<Dates, OptionFault>
    ensures dates { IfOk result (λ d. HasDates raw.now d.century d.year d.form) }
    ensures sound { IfOk result (λ d. (d.century ≤ 99) × IfSome d.year (λ y. y ≤ 9998)) }
    ensures fault { IfErr result (HasFault raw.now) }
{
    let Some(form) = form_named(text_or(raw.form, "ordinal")) else {
        return Err(OptionFault::Form);
    };
    let Some(text) = raw.year else {
        return Ok(Dates {
            century: CENTURY,
            year: None,
            form,
        });
    };
    let Some(year) = whole_between(YEAR_FIRST, YEAR_LIMIT, text.as_bytes()) else {
        return Err(OptionFault::Year);
    };
    let year = year as u32;
    Ok(Dates {
        century: year / 100,
        year: Some(year),
        form,
    })
}
