//! The list of a database's tables, with one more or one less.

ghost use Rattle.std.specs.Prelude.{◌≡◌, ◌≤◌, IfOk, length};
ghost use Rattle.std.specs.Ordering.{is_lt};
ghost use Rattle.tuple_codec.specs.Edits.{order};
ghost use Rattle.sql_write.specs.Listing.{count_before, placed, without};

use std::alloc::{AllocError, Global};
use table_root::TableEntry;

fn comes_before(name: &[u8], other: &[u8]) -> bool
    ensures { result ≡ is_lt (order name.now other.now) }
{
    name.cmp(other).is_lt()
}

/// How many stand before the first of a greater name. There are few tables, so the calls don't go deep.
fn count_before(name: &[u8], tables: &[TableEntry]) -> usize
    ensures is { result ≡ count_before name.now tables.now }
    ensures at_most { result ≤ length tables.now }
{
    match tables {
        [] => 0,
        [first, rest @ ..] => {
            if comes_before(name, first.name.as_slice()) {
                0
            } else {
                1 + count_before(name, rest)
            }
        }
    }
}

/// The list with a table more, in its place by name: before the first of a greater name. One of the same name stays before it.
pub fn placed(mut tables: Vec<TableEntry>, new: TableEntry) -> Result<Vec<TableEntry>, AllocError>
    ensures { IfOk result (λ made. made.items ≡ placed new tables.items) }
{
    let at = count_before(new.name.as_slice(), tables.as_slice());
    tables.insert(at, new)?;
    Ok(tables)
}

/// The list without the tables of a name. A name that none has is no fault.
pub fn without(
    alloc: Global,
    tables: Vec<TableEntry>,
    name: &[u8],
) -> Result<Vec<TableEntry>, AllocError>
    ensures { IfOk result (λ left. left.items ≡ without name.now tables.items) }
{
    let mut left = Vec::new(alloc);
    for named in tables {
        if named.name.as_slice() != name {
            left.push(named)?;
        }
    }
    Ok(left)
}
