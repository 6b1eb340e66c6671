//! What two sides of a row come to: a row, no row, or a conflict.

ghost use Rattle.std.specs.Prelude.{◌≡◌, IfOk};
ghost use Rattle.std.specs.Option.{option_copied};
ghost use Rattle.tuple_codec.specs.RowRule.{by_cells, cells3, row3};
ghost use Rattle.cell_merge.specs.Outcomes.{HasPushed, row_in};

use crate::decisions::{Decision, decide_row, merged_cell};
use std::alloc::{AllocError, Global};
use tuple_codec::{Row, Value, copy_row, copy_value};

/// What two sides come to.
#[derive(Drop, PartialEq, Eq)]
pub enum RowOutcome {
    Absent,
    Row(Row),
    Conflict,
}

/// Merges by the row rule. Which side's cells were taken, [`decide_row`] tells.
pub fn merge_row(
    alloc: Global,
    base: Option<&Row>,
    ours: Option<&Row>,
    theirs: Option<&Row>,
) -> Result<RowOutcome, AllocError>
    ensures { IfOk result (λ outcome. row_in outcome ≡ row3 (option_copied base.entry) (option_copied ours.entry) (option_copied theirs.entry)) }
{
    match decide_row(base, ours, theirs) {
        Decision::Ours => whole_row(alloc, ours),
        Decision::Theirs => whole_row(alloc, theirs),
        Decision::Cells => merge_present(alloc, base, ours, theirs),
        Decision::Conflict => Ok(RowOutcome::Conflict),
    }
}

/// A copy of one side's row, or its absence.
fn whole_row(alloc: Global, row: Option<&Row>) -> Result<RowOutcome, AllocError>
    ensures { IfOk result (λ outcome. row_in outcome ≡ Some (option_copied row.entry)) }
{
    match row {
        Some(row) => Ok(RowOutcome::Row(copy_row(alloc, row.as_slice())?)),
        None => Ok(RowOutcome::Absent),
    }
}

fn merge_present(
    alloc: Global,
    base: Option<&Row>,
    ours: Option<&Row>,
    theirs: Option<&Row>,
) -> Result<RowOutcome, AllocError>
    ensures { IfOk result (λ outcome. row_in outcome ≡ by_cells (option_copied base.entry) (option_copied ours.entry) (option_copied theirs.entry)) }
{
    match (base, ours, theirs) {
        (Some(base), Some(ours), Some(theirs)) => {
            merge_cells(alloc, base.as_slice(), ours.as_slice(), theirs.as_slice())
        }
        _ => Ok(RowOutcome::Conflict),
    }
}

fn merge_cells(
    alloc: Global,
    base: &[Value],
    ours: &[Value],
    theirs: &[Value],
) -> Result<RowOutcome, AllocError>
    ensures { IfOk result (λ outcome. row_in outcome ≡ by_cells (Some base.now) (Some ours.now) (Some theirs.now)) }
{
    let mut row = Row::new(alloc);
    if push_merged(alloc, &mut row, base, ours, theirs)? {
        Ok(RowOutcome::Row(row))
    } else {
        Ok(RowOutcome::Conflict)
    }
}

/// Adds the cells up to the first that doesn't merge, and tells whether there was none.
fn push_merged(
    alloc: Global,
    row: &mut Row,
    base: &[Value],
    ours: &[Value],
    theirs: &[Value],
) -> Result<bool, AllocError>
    ensures { IfOk result (λ all. HasPushed all row.old row.new (cells3 base.now ours.now theirs.now)) }
{
    match base {
        [] => match (ours, theirs) {
            ([], []) => Ok(true),
            _ => Ok(false),
        },
        [base, bases @ ..] => match (ours, theirs) {
            ([ours, others @ ..], [theirs, rest @ ..]) => {
                match merged_cell(base, ours, theirs) {
                    Some(cell) => row.push(copy_value(alloc, cell)?)?,
                    None => return Ok(false),
                }
                push_merged(alloc, row, bases, others, rest)
            }
            _ => Ok(false),
        },
    }
}
