//! What becomes of a row that two sides may have changed, by whole rows first and then cell by cell.

ghost use Rattle.std.specs.Prelude.{◌≡◌, is_some};
ghost use Rattle.std.specs.Option.{option_copied};
ghost use Rattle.tuple_codec.specs.Rows.{same_cells, same_value};
ghost use Rattle.tuple_codec.specs.RowRule.{cells3, same_option, three_way};
ghost use Rattle.cell_merge.specs.Decisions.{KeepsRule, by_rows, of_cells};

use tuple_codec::{Row, Value, same_cells, same_value};

/// What becomes of a row, or of its absence.
#[derive(Clone, Copy, PartialEq, Eq)]
pub enum Decision {
    /// Ours stands.
    Ours,
    /// Theirs stands.
    Theirs,
    /// All three are present, and their cells merge.
    Cells,
    /// Both changed it otherwise. Ours is to be kept, and the conflict told.
    Conflict,
}

/// Decides by the row rule: whole rows first, absence counting as a row, and then cell by cell. Rows with different
/// numbers of cells, which no table has, never merge.
#[tactic(auto, unfolding(tuple_codec::specs::RowRule::row3))]
pub fn decide_row(base: Option<&Row>, ours: Option<&Row>, theirs: Option<&Row>) -> Decision
    ensures exact { result ≡ by_rows (option_copied base.entry) (option_copied ours.entry) (option_copied theirs.entry) }
    ensures rule { KeepsRule result (option_copied base.entry) (option_copied ours.entry) (option_copied theirs.entry) }
{
    if same_row(theirs, base) {
        Decision::Ours
    } else if same_row(ours, base) {
        Decision::Theirs
    } else if same_row(ours, theirs) {
        Decision::Ours
    } else {
        decide_cells(base, ours, theirs)
    }
}

fn same_row(a: Option<&Row>, b: Option<&Row>) -> bool
    ensures { result ≡ same_option same_cells (option_copied a.entry) (option_copied b.entry) }
{
    match (a, b) {
        (None, None) => true,
        (Some(a), Some(b)) => same_cells(a.as_slice(), b.as_slice()),
        _ => false,
    }
}

fn decide_cells(base: Option<&Row>, ours: Option<&Row>, theirs: Option<&Row>) -> Decision
    ensures { result ≡ of_cells (option_copied base.entry) (option_copied ours.entry) (option_copied theirs.entry) }
{
    match (base, ours, theirs) {
        (Some(base), Some(ours), Some(theirs))
            if cells_merge(base.as_slice(), ours.as_slice(), theirs.as_slice()) => {
            Decision::Cells
        }
        _ => Decision::Conflict,
    }
}

/// Whether each cell merges.
fn cells_merge(base: &[Value], ours: &[Value], theirs: &[Value]) -> bool
    ensures { result ≡ is_some (cells3 base.now ours.now theirs.now) }
{
    match base {
        [] => match (ours, theirs) {
            ([], []) => true,
            _ => false,
        },
        [base, bases @ ..] => match (ours, theirs) {
            ([ours, others @ ..], [theirs, rest @ ..]) => {
                merged_cell(base, ours, theirs).is_some() && cells_merge(bases, others, rest)
            }
            _ => false,
        },
    }
}

/// The cell that stands, if one does.
pub(crate) fn merged_cell<'a>(
    base: &'a Value,
    ours: &'a Value,
    theirs: &'a Value,
) -> Option<&'a Value>
    ensures { option_copied result ≡ three_way same_value base.now ours.now theirs.now }
{
    if same_value(theirs, base) {
        Some(ours)
    } else if same_value(ours, base) {
        Some(theirs)
    } else if same_value(ours, theirs) {
        Some(ours)
    } else {
        None
    }
}
