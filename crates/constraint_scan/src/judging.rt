//! The refusal of a statement, by the rows that it changed.

ghost use Rattle.std.specs.Prelude.{◌≡◌, IfOk};
ghost use Rattle.schema_model.specs.PlainTables.{PlainDatabase, PlainTable};
ghost use Rattle.chunk_store.specs.Drafts.{chunks_of};
ghost use Rattle.plain_writes.specs.Violations.{first_violation};
ghost use Rattle.plain_writes.specs.CheckTexts.{checks};
ghost use Rattle.table_root.specs.Standing.{AreThere, CanRead, IsReadAt, IsTableAt};
ghost use Rattle.violation_lists.specs.Scanning.{constrained_beside, has_constraints, has_constraints_beside, is_constrained};

use crate::changing::told_by_pairs;
use crate::laws::{law_of_changes, law_of_refusals};
use crate::pairing::read_pairs;
use chunk_store::Draft;
use plain_writes::first_violation as first_of_tables;
use schema_model::Schema;
use std::alloc::{AllocError, Global};
use table_root::{TableEntry, law_of_databases, law_of_tables, read_database, read_table};
use tuple_codec::{Address, Digester};
use violation_lists::{CanonicalChecks, is_constrained, read_tables};

/// Whether the table at an address has a constraint beside NOT NULL.
fn is_table_constrained<D: Digester>(
    alloc: Global,
    draft: &Draft<D>,
    address: &Address,
) -> Result<bool, AllocError>
    requires { (contents : PlainTable) × IsTableAt D.address (chunks_of draft.now.chunks) address.now.0 contents }
    ensures { (contents : PlainTable) → IsTableAt D.address (chunks_of draft.now.chunks) address.now.0 contents
        → IfOk result (λ found. found ≡ is_constrained contents.schema) }
{
    law_of_tables();
    let table = read_table(alloc, draft, address)?;
    Ok(is_constrained(&table.schema))
}

/// Whether one of these tables has one. Those behind it aren't read. There are few tables, so the calls don't go deep.
fn is_any_constrained<D: Digester>(
    alloc: Global,
    draft: &Draft<D>,
    entries: &[TableEntry],
) -> Result<bool, AllocError>
    requires { (database : PlainDatabase) × AreThere D.address (chunks_of draft.now.chunks) database entries.now }
    ensures { (database : PlainDatabase) → AreThere D.address (chunks_of draft.now.chunks) database entries.now
        → IfOk result (λ found. found ≡ has_constraints database) }
{
    let [first, rest @ ..] = entries else {
        return Ok(false);
    };
    let found = is_table_constrained(alloc, draft, &first.table)?;
    if found {
        return Ok(true);
    }
    is_any_constrained(alloc, draft, rest)
}

/// Whether a table has one. That of this name isn't read: it has this schema.
fn is_one_constrained<D: Digester>(
    alloc: Global,
    draft: &Draft<D>,
    entry: &TableEntry,
    name: &[u8],
    schema: &Schema,
) -> Result<bool, AllocError>
    requires { (contents : PlainTable) × IsTableAt D.address (chunks_of draft.now.chunks) entry.now.table.0 contents }
    ensures { (contents : PlainTable) → IsTableAt D.address (chunks_of draft.now.chunks) entry.now.table.0 contents
        → IfOk result (λ found. found ≡ constrained_beside name.now schema.now entry.now.name contents.schema) }
{
    if entry.name.is(name) {
        return Ok(is_constrained(schema));
    }
    is_table_constrained(alloc, draft, &entry.table)
}

/// Whether some table of a database has a constraint beside NOT NULL, once the table of this name has this schema: that table isn't read, nor are
/// those behind the first that has one. There are few tables, so the calls don't go deep.
pub fn is_constrained_beside<D: Digester>(
    alloc: Global,
    draft: &Draft<D>,
    entries: &[TableEntry],
    name: &[u8],
    schema: &Schema,
) -> Result<bool, AllocError>
    requires { (database : PlainDatabase) × AreThere D.address (chunks_of draft.now.chunks) database entries.now }
    ensures { (database : PlainDatabase) → AreThere D.address (chunks_of draft.now.chunks) database entries.now
        → IfOk result (λ found. found ≡ has_constraints_beside name.now schema.now database) }
{
    let [first, rest @ ..] = entries else {
        return Ok(false);
    };
    let found = is_one_constrained(alloc, draft, first, name, schema)?;
    if found {
        return Ok(true);
    }
    is_constrained_beside(alloc, draft, rest, name, schema)
}

/// Whether some table of the database at an address has a constraint beside NOT NULL. No row is read.
fn is_database_constrained<D: Digester>(
    alloc: Global,
    draft: &Draft<D>,
    database: &Address,
) -> Result<bool, AllocError>
    requires { CanRead D.address (chunks_of draft.now.chunks) database.now.0 }
    ensures { (contents : PlainDatabase) → IsReadAt D.address (chunks_of draft.now.chunks) database.now.0 contents
        → IfOk result (λ found. found ≡ has_constraints contents) }
{
    law_of_databases();
    let entries = read_database(alloc, draft, database)?;
    is_any_constrained(alloc, draft, entries.as_slice())
}

/// The refusal by all rows of both databases.
fn judged<D: Digester>(
    alloc: Global,
    draft: &Draft<D>,
    old: &Address,
    new: &Address,
) -> Result<Option<u16>, AllocError>
    requires old { CanRead D.address (chunks_of draft.now.chunks) old.now.0 }
    requires new { CanRead D.address (chunks_of draft.now.chunks) new.now.0 }
    ensures { (before after : PlainDatabase) → IsReadAt D.address (chunks_of draft.now.chunks) old.now.0 before → IsReadAt D.address (chunks_of draft.now.chunks) new.now.0 after
        → IfOk result (λ number. number ≡ first_violation checks before after) }
{
    law_of_refusals();
    let before = read_tables(alloc, draft, old)?;
    let after = read_tables(alloc, draft, new)?;
    first_of_tables::<CanonicalChecks>(alloc, before.as_slice(), after.as_slice())
}

/// The refusal by the rows that changed, where the databases have the same names and schemas, and else by all rows.
fn told<D: Digester>(
    alloc: Global,
    draft: &Draft<D>,
    old: &Address,
    new: &Address,
) -> Result<Option<u16>, AllocError>
    requires old { CanRead D.address (chunks_of draft.now.chunks) old.now.0 }
    requires new { CanRead D.address (chunks_of draft.now.chunks) new.now.0 }
    ensures { (before after : PlainDatabase) → IsReadAt D.address (chunks_of draft.now.chunks) old.now.0 before → IsReadAt D.address (chunks_of draft.now.chunks) new.now.0 after
        → IfOk result (λ number. number ≡ first_violation checks before after) }
{
    law_of_changes();
    match read_pairs(alloc, draft, old, new)? {
        Some(pairs) => told_by_pairs(alloc, draft, pairs.as_slice()),
        None => judged(alloc, draft, old, new),
    }
}

/// The refusal of a statement that turns the one database into the other: 1062, 3819, 1452 or 1451 by the first of these that the
/// violations which it brings have, or none where it brings none. NULL in a NOT NULL column is no refusal here: such rows are refused where a row
/// takes NULL.
///
/// Where both databases have the same names and schemas of tables, the rows that changed are judged alone. Else both are read whole,
/// but where no table of the new one has a unique index, a CHECK or a foreign key.
pub fn first_violation<D: Digester>(
    alloc: Global,
    draft: &Draft<D>,
    old: &Address,
    new: &Address,
) -> Result<Option<u16>, AllocError>
    requires old { CanRead D.address (chunks_of draft.now.chunks) old.now.0 }
    requires new { CanRead D.address (chunks_of draft.now.chunks) new.now.0 }
    ensures { (before after : PlainDatabase) → IsReadAt D.address (chunks_of draft.now.chunks) old.now.0 before → IsReadAt D.address (chunks_of draft.now.chunks) new.now.0 after
        → IfOk result (λ number. number ≡ first_violation checks before after) }
{
    law_of_databases();
    law_of_refusals();
    if old == new {
        return Ok(None);
    }
    if is_database_constrained(alloc, draft, new)? {
        told(alloc, draft, old, new)
    } else {
        Ok(None)
    }
}

/// The same refusal, where it is known whether some table of the new database has a constraint beside NOT NULL.
pub fn first_violation_if<D: Digester>(
    alloc: Global,
    draft: &Draft<D>,
    old: &Address,
    new: &Address,
    constrained: bool,
) -> Result<Option<u16>, AllocError>
    requires old { CanRead D.address (chunks_of draft.now.chunks) old.now.0 }
    requires new { (after : PlainDatabase) × IsReadAt D.address (chunks_of draft.now.chunks) new.now.0 after × (constrained ≡ has_constraints after) }
    ensures { (before after : PlainDatabase) → IsReadAt D.address (chunks_of draft.now.chunks) old.now.0 before → IsReadAt D.address (chunks_of draft.now.chunks) new.now.0 after
        → IfOk result (λ number. number ≡ first_violation checks before after) }
{
    law_of_databases();
    law_of_refusals();
    if old == new {
        return Ok(None);
    }
    if constrained {
        told(alloc, draft, old, new)
    } else {
        Ok(None)
    }
}
