//! The entries of a table's lists: what each shows, and the key by which it can be taken out.

ghost use Rattle.std.specs.Prelude.{◌≡◌, IfOk};
ghost use Rattle.system_tables.specs.Entries.{rows_of};

use std::alloc::{AllocError, Global};
use tuple_codec::{Blob, Row, Sequence};

/// Which of a table's lists.
#[derive(Clone, Copy, PartialEq, Eq)]
pub enum Listed {
    Conflicts,
    Violations,
}

/// An entry of one of a table's lists.
#[derive(Drop)]
pub struct ListEntry {
    /// The key of its item in the list's tree.
    pub key: Blob,
    /// The row that shows it.
    pub row: Row,
}

pub(crate) fn rows_of(
    alloc: Global,
    entries: Sequence<ListEntry>,
) -> Result<Sequence<Row>, AllocError>
    ensures { IfOk result (λ rows. rows ≡ rows_of entries) }
{
    let mut rows = Sequence::new(alloc);
    for entry in entries.into_vec() {
        rows.push(entry.row)?;
    }
    Ok(rows)
}
