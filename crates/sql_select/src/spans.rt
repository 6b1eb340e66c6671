//! Spans of primary keys.

ghost use Rattle.std.specs.Prelude.{◌≡◌, ◌++◌, IfOk, OnOk};
ghost use Rattle.sql_select.specs.Spans.{is_before, is_beyond, place_of, side_of, start_of, value_at};

use std::alloc::{AllocError, Global};
use std::cmp::Ordering;
use tuple_codec::{Row, Value, copy_row, copy_value};

/// One end of a span.
#[derive(Drop)]
pub enum End {
    Open,
    /// The value lies in the span.
    With(Value),
    /// The value lies outside.
    Without(Value),
}

/// The primary keys that begin with these cells, and whose next cell, if they have one, lies between the ends.
#[derive(Drop)]
pub struct KeySpan {
    pub fixed: Row,
    pub low: End,
    pub high: End,
}

/// Whether a value lies before the low end.
fn is_before(low: &End, value: &Value) -> bool
    ensures { result ≡ is_before low.now value.now }
{
    match low {
        End::Open => false,
        End::With(low) => value.compare(low).is_lt(),
        End::Without(low) => !low.compare(value).is_lt(),
    }
}

/// Whether a value lies beyond the high end.
fn is_beyond(high: &End, value: &Value) -> bool
    ensures { result ≡ is_beyond high.now value.now }
{
    match high {
        End::Open => false,
        End::With(high) => high.compare(value).is_lt(),
        End::Without(high) => !value.compare(high).is_lt(),
    }
}

fn side_of(low: &End, high: &End, value: &Value) -> Ordering
    ensures { result ≡ side_of low.now high.now value.now }
{
    if is_before(low, value) {
        Ordering::Less
    } else if is_beyond(high, value) {
        Ordering::Greater
    } else {
        Ordering::Equal
    }
}

/// Where a key stands: before a span, in it, or behind it.
pub(crate) fn place_of(fixed: &[Value], low: &End, high: &End, key: &[Value]) -> Ordering
    ensures { result ≡ place_of fixed.now low.now high.now key.now }
{
    match fixed {
        [] => match key {
            [] => Ordering::Equal,
            [value, ..] => side_of(low, high, value),
        },
        [cell, cells @ ..] => match key {
            [] => Ordering::Less,
            [value, values @ ..] => value.compare(cell).then(place_of(cells, low, high, values)),
        },
    }
}

fn push_value(alloc: Global, end: &End, cells: &mut Row) -> Result<(), AllocError>
    ensures { OnOk result (cells.new ≡ cells.old ++ value_at end.now) }
{
    match end {
        End::Open => {}
        End::With(value) | End::Without(value) => cells.push(copy_value(alloc, value)?)?,
    }
    Ok(())
}

/// The cells that no key of the span comes before.
pub(crate) fn start_of(alloc: Global, span: &KeySpan) -> Result<Row, AllocError>
    ensures { IfOk result (λ cells. cells ≡ start_of span.now) }
{
    let mut cells = copy_row(alloc, span.fixed.as_slice())?;
    push_value(alloc, &span.low, &mut cells)?;
    Ok(cells)
}
