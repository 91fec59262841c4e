//! What the values of a command line mean.

ghost use Rattle.std.specs.Prelude.{◌≡◌, IfErr, IfOk, false};
ghost use Rattle.irig_time.specs.Chosen.{HasSettings, IsChosen, IsSound, lacks_year};
ghost use Rattle.irig_time.specs.Wants.{has_line_option, is_json_alone, is_not_of_holes};
ghost use Rattle.irig_time.specs.Wants.{is_not_of_table, task, task_of};
ghost use Rattle.irig_time.specs.Faults.{HasFault};

use crate::chosen::{Chosen, OptionFault};
use crate::naming::name_of;
use crate::raw_values::RawValues;
use crate::samples::{columns_of, dates_of, header_of, within_of};
use crate::task::Task;
use irig_codes::Format;
use irig_stamps::{Form, Settings};
use irig_words::{format_named, window_named};

/// What the values of a command line ask for.
pub fn chosen_of<'a>(raw: &RawValues<'a>) -> Result<Chosen<'a>, OptionFault>
    ensures chosen { IfOk result (IsChosen raw.now) }
    ensures sound { IfOk result (λ c. IsSound c.settings) }
    ensures fault { IfErr result (HasFault raw.now) }
{
    let window = match window_named(raw.part.from, raw.part.to) {
        Ok(window) => window,
        Err(fault) => return Err(OptionFault::Window(fault)),
    };
    let format = match format_named(raw.part.format, raw.part.expression) {
        Ok(format) => format,
        Err(fault) => return Err(OptionFault::Format(fault)),
    };
    let settings = settings_of(raw)?;
    if lacks_year(format, &settings) {
        return Err(OptionFault::NoYear);
    }
    let task = task_of(raw)?;
    Ok(Chosen {
        track: raw.track,
        wire: raw.part.wire,
        window,
        format,
        out: raw.out,
        settings,
        task,
        quiet: raw.quiet,
    })
}

fn task_of(raw: &RawValues<'_>) -> Result<Task, OptionFault>
    ensures task { IfOk result (λ t. t ≡ task_of raw.now) }
    ensures alone { IfOk result (λ _. is_not_of_table raw.now ≡ false) }
    ensures holes { IfOk result (λ _. is_not_of_holes raw.now ≡ false) }
    ensures json { IfOk result (λ _. is_json_alone raw.now ≡ false) }
    ensures fault { IfErr result (HasFault raw.now) }
{
    if is_not_of_table(raw) {
        return Err(OptionFault::Table);
    }
    if is_not_of_holes(raw) {
        return Err(OptionFault::Holes);
    }
    if is_json_alone(raw) {
        return Err(OptionFault::Json);
    }
    Ok(task(raw.table, raw.holes, raw.json))
}

fn task(table: bool, holes: bool, json: bool) -> Task
    ensures { result ≡ task table holes json }
{
    if table {
        Task::Table
    } else if holes {
        Task::Holes(json)
    } else {
        Task::Lines
    }
}

fn is_not_of_table(raw: &RawValues<'_>) -> bool
    ensures { result ≡ is_not_of_table raw.now }
{
    raw.table && has_line_option(raw)
}

fn is_not_of_holes(raw: &RawValues<'_>) -> bool
    ensures { result ≡ is_not_of_holes raw.now }
{
    raw.holes && (raw.table || has_line_option(raw))
}

fn is_json_alone(raw: &RawValues<'_>) -> bool
    ensures { result ≡ is_json_alone raw.now }
{
    raw.json && !raw.holes
}

/// Whether an option is given that says how lines are read or printed, so that no list can be asked
/// for. A name needs a header, which is one.
fn has_line_option(raw: &RawValues<'_>) -> bool
    ensures { result ≡ has_line_option raw.now }
{
    raw.unit.is_some()
        || raw.offset.is_some()
        || raw.column.is_some()
        || raw.header.is_some()
        || raw.why
        || raw.bound
        || raw.within.is_some()
}

/// How lines are read and get their times: the settings for irig_stamps.
fn settings_of<'a>(raw: &RawValues<'a>) -> Result<Settings<'a>, OptionFault>
    ensures settings { IfOk result (HasSettings raw.now) }
    ensures sound { IfOk result IsSound }
    ensures fault { IfErr result (HasFault raw.now) }
{
    let columns = columns_of(raw)?;
    let dates = dates_of(raw)?;
    let header = header_of(raw, columns.column.named)?;
    let name = name_of(raw, columns.comma, header)?;
    let within = within_of(raw)?;
    Ok(Settings {
        places: columns.places,
        offset: columns.offset.size,
        early: columns.offset.negative,
        column: columns.column.number,
        named: columns.column.named,
        comma: columns.comma,
        header,
        name,
        century: dates.century,
        year: dates.year,
        first_day: 0,
        micros: 0,
        alone: raw.alone,
        why: raw.why,
        bound: raw.bound,
        within,
        form: dates.form,
    })
}

fn lacks_year(format: Format, settings: &Settings<'_>) -> bool
    ensures { result ≡ lacks_year format settings.now }
{
    matches!(settings.form, Form::Calendar) && settings.year.is_none() && format.expression() < 4
}
