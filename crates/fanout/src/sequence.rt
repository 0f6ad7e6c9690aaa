//! The row of numbers that a sequence says (field reference, `Sequence`).

ghost use Rattle.std.specs.Prelude.{◌≡◌, ◌≤◌, IfOk, pos};
ghost use Rattle.serde_json.specs.Data.{string};
ghost use Rattle.base_types.specs.Limits.{most_items};
ghost use Rattle.fanout.specs.Faults.{Tells};
ghost use Rattle.fanout.specs.Inside.Rows.{row_of, number_from, IsNear};
ghost use Rattle.fanout.specs.Sequences.{whole_or, row_to, row_said, format_or, numbers, written};
ghost use Rattle.fanout.specs.Items.{number_items, sequence_items as sequence_found};
ghost use Rattle.fanout.specs.Inside.Shapes.{parts_of_shape};

use crate::format::{Format, read_format, write_number};
use crate::numbers::read_whole;
use crate::{FanRefused, Items};
use base_types::limits::MOST_ITEMS;
use base_types::{Memory, Text};
use serde_json::Value;
use std::alloc::Global;
use wf_manifest::Json;

// So many numbers from a first one on, each one more than the one before it, or one less.
#[derive(Clone, Copy)]
pub(crate) struct Row {
    pub count: u64,
    pub down: bool,
    pub first: i64,
}

// The row of `count` and `start`, or of `start` and `end`.
pub(crate) fn read_row(
    count: &Option<Text>,
    start: &Option<Text>,
    end: &Option<Text>,
) -> Result<Row, FanRefused>
    ensures told { Tells row_of result (row_said count.now start.now end.now) }
    ensures near { IfOk result (λ row. IsNear row.first) }
{
    let Some(count) = count else {
        let first = read_or_zero(start)?;
        let last = read_or_zero(end)?;
        return Ok(row_between(first, last));
    };
    let count = read_whole(count.as_str())?;
    let first = read_or_zero(start)?;
    if count < 0 {
        return Err(FanRefused::BadNumber);
    }
    Ok(Row {
        count: count as u64,
        down: false,
        first,
    })
}

fn read_or_zero(text: &Option<Text>) -> Result<i64, FanRefused>
    ensures told { Tells (λ z. z) result (whole_or (pos 0) text.now) }
    ensures near { IfOk result IsNear }
{
    match text {
        Some(text) => read_whole(text.as_str()),
        None => Ok(0),
    }
}

// From one number to another, both counted.
fn row_between(first: i64, last: i64) -> Row
    requires first_near { IsNear first }
    requires last_near { IsNear last }
    ensures row { row_of result ≡ row_to first last }
    ensures first { result.first ≡ first }
{
    Row {
        count: last.abs_diff(first) + 1,
        down: last < first,
        first,
    }
}

// The items of a sequence, each a number as its format writes it.
pub(crate) fn sequence_items(
    alloc: Global,
    count: &Option<Text>,
    start: &Option<Text>,
    end: &Option<Text>,
    format: &Option<Text>,
) -> Result<Items, FanRefused>
    ensures { Tells (λ items. items) result
        (sequence_found count.now start.now end.now format.now) }
{
    let row = read_row(count, start, end)?;
    let format = format_or_plain(alloc, format)?;
    if row.count > MOST_ITEMS as u64 {
        return Err(FanRefused::TooManyItems);
    }
    Ok(write_row(alloc, &format, &row)?)
}

fn format_or_plain(alloc: Global, format: &Option<Text>) -> Result<Format, FanRefused>
    ensures { Tells parts_of_shape result (format_or format.now) }
{
    match format {
        Some(format) => read_format(alloc, format.as_str()),
        None => read_format(alloc, "%d"),
    }
}

fn write_row(alloc: Global, format: &Format, row: &Row) -> Result<Items, Memory>
    requires near { IsNear row.now.first }
    requires few { row.now.count ≤ most_items }
    ensures { IfOk result (λ items.
        items ≡ number_items (parts_of_shape format.now, numbers (row_of row.now))) }
{
    let mut items = Items::with_capacity(alloc, row.count as usize)?;
    for place in 0..row.count {
        items.push(row_item(format, row, place)?)?;
    }
    Ok(items)
}

fn row_item(format: &Format, row: &Row, place: u64) -> Result<Json, Memory>
    requires near { IsNear row.now.first }
    requires few { place ≤ most_items }
    ensures { IfOk result (λ item. item ≡ string
        (written (parts_of_shape format.now) (number_from row.now.down row.now.first place))) }
{
    number_item(format, number_at(row.first, row.down, place))
}

fn number_item(format: &Format, number: i64) -> Result<Json, Memory>
    ensures { IfOk result (λ item. item ≡ string (written (parts_of_shape format.now) number)) }
{
    let text = write_number(format, number)?;
    Ok(Json::new(Value::String(text.into_string()?)))
}

fn number_at(first: i64, down: bool, place: u64) -> i64
    requires near { IsNear first }
    requires few { place ≤ most_items }
    ensures { result ≡ number_from down first place }
{
    if down {
        first - place as i64
    } else {
        first + place as i64
    }
}
