//! INSERT, UPDATE and DELETE outside the language, and expressions out of their place.

ghost use Rattle.std.specs.Prelude.{◌≡◌};
ghost use Rattle.std.specs.List.{list_any};
ghost use Rattle.std.specs.Str.{bytes_eq};
ghost use Rattle.sql_rules.specs.Names.{in_given, repeats_by, repeats};
ghost use Rattle.sql_rules.specs.Writes.{delete_outside, entry_outside, insert_outside, is_below, is_list_of_entries, is_misplaced, is_misplaced_if, update_outside};

use crate::names::{is_kept_by_system, repeats_name};
use sql_ast::{Assignment, Delete, Expr, Insert, InsertCell, Tuple, Update};
use sql_text::{Feature, has_feature};
use tuple_codec::{Sequence, Text};

/// Whether an expression has a part that only a SELECT's items may have.
pub fn is_out_of_place(expr: &Expr) -> bool
    ensures { result ≡ is_misplaced expr.now }
{
    has_feature(expr, Feature::Aggregate) || has_feature(expr, Feature::SessionWord)
}

/// The same of a condition that may be left out, which is never out of place then.
pub fn is_given_out_of_place(expr: &Option<Expr>) -> bool
    ensures { result ≡ is_misplaced_if expr.now }
{
    match expr {
        Some(expr) => is_out_of_place(expr),
        None => false,
    }
}

/// Whether an INSERT is refused 9013: for a table of the system, a column named twice, or a value out of place.
pub fn is_outside_insert(insert: &Insert) -> bool
    ensures { result ≡ insert_outside insert.now }
{
    is_kept_by_system(&insert.table)
        || repeats_given(&insert.columns)
        || some_tuple_is_outside(insert.tuples.as_slice())
}

fn repeats_given(columns: &Option<Sequence<Text>>) -> bool
    ensures { result ≡ in_given repeats columns.now }
{
    match columns {
        Some(columns) => repeats_name(columns.as_slice()),
        None => false,
    }
}

fn some_tuple_is_outside(tuples: &[Tuple]) -> bool
    ensures { result ≡ list_any (λ tuple. list_any entry_outside tuple) tuples.now }
{
    tuples
        .iter()
        .any(|tuple| some_entry_is_outside(tuple.as_slice()))
}

fn some_entry_is_outside(entries: &[InsertCell]) -> bool
    ensures { result ≡ list_any entry_outside entries.now }
{
    entries.iter().any(is_outside_entry)
}

fn is_outside_entry(entry: &InsertCell) -> bool
    ensures { result ≡ entry_outside entry.now }
{
    match entry {
        InsertCell::Value(value) => is_out_of_place(value),
        InsertCell::Default => false,
    }
}

/// Whether an UPDATE is refused 9013: for a table of the system, a column assigned twice, or a value or condition out of place.
pub fn is_outside_update(update: &Update) -> bool
    ensures { result ≡ update_outside update.now }
{
    is_kept_by_system(&update.table)
        || repeats_column(update.assignments.as_slice())
        || some_value_is_out_of_place(update.assignments.as_slice())
        || is_given_out_of_place(&update.filter)
}

fn repeats_column(assignments: &[Assignment]) -> bool
    ensures { result ≡ repeats_by (λ assignment. assignment.column) assignments.now }
{
    for (at, assignment) in assignments.iter().enumerate() {
        if assigns(&assignments[at + 1..], &assignment.column) {
            return true;
        }
    }
    false
}

fn assigns(assignments: &[Assignment], column: &Text) -> bool
    ensures { result ≡ list_any (λ assignment. bytes_eq column.now assignment.column) assignments.now }
{
    assignments
        .iter()
        .any(|assignment| column.is(assignment.column.as_slice()))
}

fn some_value_is_out_of_place(assignments: &[Assignment]) -> bool
    ensures { result ≡ list_any (λ assignment. is_misplaced assignment.value) assignments.now }
{
    assignments
        .iter()
        .any(|assignment| is_out_of_place(&assignment.value))
}

/// Whether a DELETE is refused 9013: for a table of the system that is no list of conflicts or violations, or a condition out of place.
pub fn is_outside_delete(delete: &Delete) -> bool
    ensures { result ≡ delete_outside delete.now }
{
    is_kept_by_system(&delete.table) && !holds_entries(&delete.table)
        || is_given_out_of_place(&delete.filter)
}

/// Whether a name is that of a table's conflicts or of its recorded violations.
fn holds_entries(name: &Text) -> bool
    ensures { result ≡ is_list_of_entries name.now }
{
    goes_on_behind(name, b"dolt_conflicts_") || goes_on_behind(name, b"dolt_constraint_violations_")
}

fn goes_on_behind(name: &Text, front: &[u8]) -> bool
    ensures { result ≡ is_below front.now name.now }
{
    let name = name.as_slice();
    name.starts_with(front) && name.len() > front.len()
}
