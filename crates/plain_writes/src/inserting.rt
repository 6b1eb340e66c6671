//! The rows that an INSERT brings.

ghost use Rattle.std.specs.Prelude.{◌≡◌, ◌==◌, [], IfOk, IfSome, Ok, Some, map, true};
ghost use Rattle.std.specs.List.{enumerate_from, list_all, position, range_with_len};
ghost use Rattle.tuple_codec.specs.Limits.{is_type};
ghost use Rattle.expr_eval.specs.Binding.{and_then, bound};
ghost use Rattle.plain_sql.specs.Gives.{Gives, GivesBy};
ghost use Rattle.plain_sql.specs.Lists.{each};
ghost use Rattle.plain_writes.specs.Seen.{bound_string, given_seen};
ghost use Rattle.plain_writes.specs.Writes.{cell_said, entry_at, entry_said, named_place, new_cell, new_row, places_named, said_by, said_if, tuple_said};

use crate::assigning::{assigned, standard};
use crate::columns::column_place;
use crate::limits::is_large;
use expr_eval::BoundExpr;
use plain_sql::{Refused, ask, bound};
use schema_model::{Column, Schema};
use smallvec::SmallVec;
use sql_ast::{Expr, InsertCell, Literal, Tuple};
use sql_values::{Kind, may_assign};
use std::alloc::{AllocError, Global};
use tuple_codec::{Row, Sequence, Text, Value};

/// What a tuple says of a column.
#[derive(Drop)]
pub enum Given<'a> {
    /// Nothing, or DEFAULT.
    Standard,
    /// A string, where it stands in the statement.
    Text(&'a Text),
    Value(BoundExpr),
}

/// The string that an expression is, if it is one.
fn string_in(expr: &Expr) -> Option<&Text>
    ensures { IfSome result (λ text. bound [] expr.now ≡ Ok (bound_string text.now)) }
{
    match expr {
        Expr::Literal(Literal::Text(text)) => Some(text),
        _ => None,
    }
}

#[tactic(auto, unfolding(plain_sql::specs::Plans::meaning))]
fn string_said<'a>(column: &Column, text: &'a Text) -> Result<Given<'a>, Refused>
    ensures { GivesBy given_seen result (said_if column.now (bound_string text.now)) }
{
    if may_assign(&Kind::Text, &column.kind) {
        Ok(Given::Text(text))
    } else {
        Err(Refused::By(9001))
    }
}

fn said_if<'a>(column: &Column, value: BoundExpr) -> Result<Given<'a>, Refused>
    ensures { GivesBy given_seen result (said_if column.now value) }
{
    if may_assign(&value.kind, &column.kind) {
        Ok(Given::Value(value))
    } else {
        Err(Refused::By(9001))
    }
}

fn expr_said<'a>(alloc: Global, column: &Column, expr: &'a Expr) -> Result<Given<'a>, Refused>
    ensures { GivesBy given_seen result (and_then (bound [] expr.now) (said_if column.now)) }
{
    match string_in(expr) {
        Some(text) => string_said(column, text),
        None => said_if(column, bound(alloc, &[], expr)?),
    }
}

fn said_by<'a>(alloc: Global, column: &Column, entry: &'a InsertCell) -> Result<Given<'a>, Refused>
    ensures { GivesBy given_seen result (said_by column.now entry.now) }
{
    match entry {
        InsertCell::Default => Ok(Given::Standard),
        InsertCell::Value(expr) => expr_said(alloc, column, expr),
    }
}

fn entry_said<'a>(
    alloc: Global,
    schema: &Schema,
    entry: &'a InsertCell,
    place: usize,
) -> Result<Given<'a>, Refused>
    ensures { GivesBy given_seen result (entry_said schema.now entry.now place) }
{
    match schema.columns.as_slice().get(place) {
        Some(column) => said_by(alloc, column, entry),
        None => Err(Refused::By(1054)),
    }
}

fn entry_at<'a>(
    alloc: Global,
    schema: &Schema,
    places: &[usize],
    at: usize,
    entry: &'a InsertCell,
) -> Result<Given<'a>, Refused>
    ensures { GivesBy given_seen result (entry_at schema.now places.now (at, entry.now)) }
{
    match places.get(at) {
        Some(place) => entry_said(alloc, schema, entry, *place),
        None => Err(Refused::By(1136)),
    }
}

/// What a tuple says of the columns at these places, up to the first refusal.
pub fn tuple_said<'a>(
    alloc: Global,
    schema: &Schema,
    places: &[usize],
    tuple: &'a Tuple,
) -> Result<Sequence<Given<'a>>, Refused>
    ensures { GivesBy (map given_seen) result (tuple_said schema.now places.now tuple.now) }
{
    let entries = tuple.as_slice();
    if entries.len() != places.len() {
        return Err(Refused::By(1136));
    }
    let mut said = Sequence::new(alloc);
    for (at, entry) in entries.iter().enumerate() {
        said.push(entry_at(alloc, schema, places, at, entry)?)?;
    }
    Ok(said)
}

/// What each tuple says, up to the first refusal.
pub fn tuples_said<'a>(
    alloc: Global,
    schema: &Schema,
    places: &[usize],
    tuples: &'a [Tuple],
) -> Result<Sequence<Sequence<Given<'a>>>, Refused>
    ensures { GivesBy (map (map given_seen)) result (each (tuple_said schema.now places.now) tuples.now) }
{
    let mut all = Sequence::new(alloc);
    for tuple in tuples {
        all.push(tuple_said(alloc, schema, places, tuple)?)?;
    }
    Ok(all)
}

fn named_place(schema: &Schema, name: &[u8]) -> Result<usize, Refused>
    ensures { Gives result (named_place schema.now name.now) }
{
    match column_place(schema, name) {
        Some(place) => Ok(place),
        None => Err(Refused::By(1054)),
    }
}

/// Places of columns. Those of a small table need no memory of their own.
pub type Places = SmallVec<usize, 8>;

fn places_of_names(alloc: Global, schema: &Schema, names: &[Text]) -> Result<Places, Refused>
    ensures { GivesBy (λ places. places.items) result (each (named_place schema.now) names.now) }
{
    let mut places = SmallVec::new(alloc);
    for name in names {
        places.push(named_place(schema, name.as_slice())?)?;
    }
    Ok(places)
}

fn all_places(alloc: Global, count: usize) -> Result<Places, AllocError>
    ensures { IfOk result (λ places. places.items ≡ range_with_len 0 count) }
{
    let mut places = SmallVec::new(alloc);
    for place in 0..count {
        places.push(place)?;
    }
    Ok(places)
}

/// The columns that an INSERT names, by their places; all, in their order, where it names none.
pub fn places_named(
    alloc: Global,
    schema: &Schema,
    columns: &Option<Sequence<Text>>,
) -> Result<Places, Refused>
    ensures { GivesBy (λ places. places.items) result (places_named schema.now columns.now) }
{
    match columns {
        Some(names) => places_of_names(alloc, schema, names.as_slice()),
        None => Ok(all_places(alloc, schema.columns.as_slice().len())?),
    }
}

#[tactic(auto, unfolding(plain_sql::specs::Answers::given))]
fn cell_given(alloc: Global, column: &Column, given: &Given<'_>) -> Result<Value, Refused>
    requires { is_type column.now.kind ≡ true }
    ensures { Gives result (cell_said column.now (Some (given_seen given.now))) }
{
    match given {
        Given::Standard => standard(alloc, column),
        Given::Text(text) => {
            let copy = Text::from_slice(alloc, text.as_slice())?;
            assigned(&Kind::Text, column, Value::Text(copy))
        }
        Given::Value(bound) => {
            let value = ask(alloc, bound, &Sequence::new(alloc))?;
            assigned(&bound.kind, column, value)
        }
    }
}

/// Which of a tuple's values is about the column at a place.
fn value_of(places: &[usize], place: usize) -> Option<usize>
    ensures { result ≡ position (λ other. other == place) places.now }
{
    places.iter().position(|other| *other == place)
}

#[tactic(auto, using(crate::proofs::PlaceLemmas::given_at))]
fn new_cell(
    alloc: Global,
    places: &[usize],
    said: &[Given<'_>],
    place: usize,
    column: &Column,
) -> Result<Value, Refused>
    requires { is_type column.now.kind ≡ true }
    ensures { Gives result (new_cell places.now (map given_seen said.now) (place, column.now)) }
{
    match value_of(places, place) {
        Some(at) => match said.get(at) {
            Some(given) => cell_given(alloc, column, given),
            None => standard(alloc, column),
        },
        None => standard(alloc, column),
    }
}

/// A row's cells in the table's order of columns, up to the first refusal.
fn new_cells(
    alloc: Global,
    schema: &Schema,
    places: &[usize],
    said: &[Given<'_>],
) -> Result<Row, Refused>
    requires { list_all (λ column. is_type column.kind) schema.now.columns ≡ true }
    ensures { Gives result (each (new_cell places.now (map given_seen said.now)) (enumerate_from 0 schema.now.columns)) }
{
    let mut cells = Sequence::new(alloc);
    let columns = schema.columns.as_slice();
    for (place, column) in columns.iter().enumerate() {
        cells.push(new_cell(alloc, places, said, place, column)?)?;
    }
    Ok(cells)
}

/// A row with its cells, unless it is longer than it may be.
pub fn new_row(
    alloc: Global,
    schema: &Schema,
    places: &[usize],
    said: &[Given<'_>],
) -> Result<Row, Refused>
    requires { list_all (λ column. is_type column.kind) schema.now.columns ≡ true }
    ensures { Gives result (new_row schema.now places.now (map given_seen said.now)) }
{
    let row = new_cells(alloc, schema, places, said)?;
    if is_large(schema, row.as_slice()) {
        return Err(Refused::By(9010));
    }
    Ok(row)
}

/// The rows that an INSERT brings, up to the first refusal.
pub fn new_rows(
    alloc: Global,
    schema: &Schema,
    places: &[usize],
    said: &[Sequence<Given<'_>>],
) -> Result<Sequence<Row>, Refused>
    requires { list_all (λ column. is_type column.kind) schema.now.columns ≡ true }
    ensures { Gives result (each (new_row schema.now places.now) (map (map given_seen) said.now)) }
{
    let mut rows = Sequence::new(alloc);
    for one in said {
        rows.push(new_row(alloc, schema, places, one.as_slice())?)?;
    }
    Ok(rows)
}
