//! The refusal of a statement, told by the rows that it changed.

ghost use Rattle.std.specs.Prelude.{◌≡◌, ◌&&◌, ℕ, List, Ok, IfOk};
ghost use Rattle.std.specs.List.{list_any};
ghost use Rattle.std.specs.Option.{option_map};
ghost use Rattle.tuple_codec.specs.Rows.{key_of, same_cells};
ghost use Rattle.schema_model.specs.PlainTables.{NamedTable, PlainDatabase, PlainTable};
ghost use Rattle.chunk_store.specs.Chunks.{Chunks};
ghost use Rattle.chunk_store.specs.Drafts.{chunks_of};
ghost use Rattle.plain_sql.specs.Plans.{meaning};
ghost use Rattle.plain_writes.specs.CheckTexts.{checks};
ghost use Rattle.plain_writes.specs.Violations.{breaks_check, is_false, parent_keys, same_types, types_at};
ghost use Rattle.table_root.specs.Standing.{IsTableOf};
ghost use Rattle.constraint_scan.specs.Changed.{is_failed, is_missed, is_missed_row, is_orphan, is_orphan_by, is_repeated, repeats_by};
ghost use Rattle.constraint_scan.specs.Pairs.{ArePairs, HavePairs, IsPair, come_of, deserts, some_come, some_deserts, told_by_pairs};

use crate::cells::{is_whole, places_of, types_at, widened};
use crate::pairing::{Pair, rows_that_came};
use crate::seeking::{has_child, has_parent_key, is_repeated};
use chunk_store::Draft;
use expr_eval::BoundExpr;
use plain_sql::{Refused, ask, cells_at};
use plain_writes::{check_of, own_scope, same_types};
use schema_model::{CheckDef, ForeignKey, Schema};
use std::alloc::{AllocError, Global};
use table_root::StoredTable;
use tuple_codec::{Digester, Row, Value, key_of};
use violation_lists::CanonicalChecks;

/// Whether the table that a foreign key names is there and has this key. There are few tables, so the calls don't go deep.
fn leads_to<D: Digester>(
    alloc: Global,
    draft: &Draft<D>,
    pairs: &[Pair],
    schema: &Schema,
    foreign: &ForeignKey,
    key: &Row,
) -> Result<bool, AllocError>
    requires { HavePairs D.address (chunks_of draft.now.chunks) pairs.now }
    ensures { (before after : PlainDatabase) → ArePairs D.address (chunks_of draft.now.chunks) pairs.now before after
        → IfOk result (λ found. found ≡ list_any (same_cells key.now) (parent_keys after schema.now foreign.now)) }
{
    let [first, rest @ ..] = pairs else {
        return Ok(false);
    };
    let found = first.name.is(foreign.parent.as_slice());
    if found {
        return has_parent_key(alloc, draft, &first.new, schema, foreign, key);
    }
    leads_to(alloc, draft, rest, schema, foreign, key)
}

/// Whether a row has a whole key that leads to no parent.
fn is_orphan_by<D: Digester>(
    alloc: Global,
    draft: &Draft<D>,
    pairs: &[Pair],
    schema: &Schema,
    foreign: &ForeignKey,
    row: &[Value],
) -> Result<bool, AllocError>
    requires { HavePairs D.address (chunks_of draft.now.chunks) pairs.now }
    ensures { (before after : PlainDatabase) → ArePairs D.address (chunks_of draft.now.chunks) pairs.now before after
        → IfOk result (λ found. found ≡ is_orphan_by after schema.now row.now foreign.now) }
{
    let key = key_of(alloc, foreign.columns.as_slice(), row)?;
    if is_whole(key.as_slice()) {
        let found = leads_to(alloc, draft, pairs, schema, foreign, &key)?;
        Ok(!found)
    } else {
        Ok(false)
    }
}

/// The same by any of these foreign keys.
fn is_orphan_by_any<D: Digester>(
    alloc: Global,
    draft: &Draft<D>,
    pairs: &[Pair],
    schema: &Schema,
    keys: &[ForeignKey],
    row: &[Value],
) -> Result<bool, AllocError>
    requires { HavePairs D.address (chunks_of draft.now.chunks) pairs.now }
    ensures { (before after : PlainDatabase) → ArePairs D.address (chunks_of draft.now.chunks) pairs.now before after
        → IfOk result (λ found. found ≡ list_any (is_orphan_by after schema.now row.now) keys.now) }
{
    let [first, rest @ ..] = keys else {
        return Ok(false);
    };
    let found = is_orphan_by(alloc, draft, pairs, schema, first, row)?;
    if found {
        return Ok(true);
    }
    is_orphan_by_any(alloc, draft, pairs, schema, rest, row)
}

/// Whether some row of these is an orphan by some foreign key.
fn has_orphan<D: Digester>(
    alloc: Global,
    draft: &Draft<D>,
    pairs: &[Pair],
    schema: &Schema,
    rows: &[Row],
) -> Result<bool, AllocError>
    requires { HavePairs D.address (chunks_of draft.now.chunks) pairs.now }
    ensures { (before after : PlainDatabase) → ArePairs D.address (chunks_of draft.now.chunks) pairs.now before after
        → IfOk result (λ found. found ≡ list_any (λ row. list_any (is_orphan_by after schema.now row) schema.now.foreign) rows.now) }
{
    let keys = schema.foreign.as_slice();
    for row in rows {
        if is_orphan_by_any(alloc, draft, pairs, schema, keys, row.as_slice())? {
            return Ok(true);
        }
    }
    Ok(false)
}

/// Whether some row that came to one of these tables is an orphan.
fn some_orphan<D: Digester>(
    alloc: Global,
    draft: &Draft<D>,
    pairs: &[Pair],
    tables: &[Pair],
) -> Result<bool, AllocError>
    requires pairs { HavePairs D.address (chunks_of draft.now.chunks) pairs.now }
    requires tables { HavePairs D.address (chunks_of draft.now.chunks) tables.now }
    ensures { (before after old new : PlainDatabase) → ArePairs D.address (chunks_of draft.now.chunks) pairs.now before after
        → ArePairs D.address (chunks_of draft.now.chunks) tables.now old new → IfOk result (λ found. found ≡ some_come (is_orphan after) old new) }
{
    let [first, rest @ ..] = tables else {
        return Ok(false);
    };
    let found = has_orphan(
        alloc,
        draft,
        pairs,
        &first.new.schema,
        first.come.as_slice(),
    )?;
    if found {
        return Ok(true);
    }
    some_orphan(alloc, draft, pairs, rest)
}

/// Whether a row breaks some unique index of its table.
fn is_repeated_by_any<D: Digester>(
    alloc: Global,
    draft: &Draft<D>,
    table: &StoredTable,
    row: &[Value],
) -> Result<bool, AllocError>
    requires { (contents : PlainTable) × IsTableOf D.address (chunks_of draft.now.chunks) table.now contents }
    ensures { (contents : PlainTable) → IsTableOf D.address (chunks_of draft.now.chunks) table.now contents
        → IfOk result (λ found. found ≡ list_any (repeats_by contents row.now) contents.schema.indexes) }
{
    let indexes = table.schema.indexes.as_slice();
    for (place, index) in indexes.iter().enumerate() {
        if index.unique && is_repeated(alloc, draft, table, place, row)? {
            return Ok(true);
        }
    }
    Ok(false)
}

/// Whether some row of these breaks a unique index of the table.
fn has_repeated<D: Digester>(
    alloc: Global,
    draft: &Draft<D>,
    table: &StoredTable,
    rows: &[Row],
) -> Result<bool, AllocError>
    requires { (contents : PlainTable) × IsTableOf D.address (chunks_of draft.now.chunks) table.now contents }
    ensures { (contents : PlainTable) → IsTableOf D.address (chunks_of draft.now.chunks) table.now contents
        → IfOk result (λ found. found ≡ list_any (λ row. list_any (repeats_by contents row) contents.schema.indexes) rows.now) }
{
    for row in rows {
        if is_repeated_by_any(alloc, draft, table, row.as_slice())? {
            return Ok(true);
        }
    }
    Ok(false)
}

/// Whether some row that came to one of these tables breaks a unique index.
fn some_repeated<D: Digester>(
    alloc: Global,
    draft: &Draft<D>,
    tables: &[Pair],
) -> Result<bool, AllocError>
    requires { HavePairs D.address (chunks_of draft.now.chunks) tables.now }
    ensures { (old new : PlainDatabase) → ArePairs D.address (chunks_of draft.now.chunks) tables.now old new → IfOk result (λ found. found ≡ some_come is_repeated old new) }
{
    let [first, rest @ ..] = tables else {
        return Ok(false);
    };
    let found = has_repeated(alloc, draft, &first.new, first.come.as_slice())?;
    if found {
        return Ok(true);
    }
    some_repeated(alloc, draft, rest)
}

fn is_false(value: &Value) -> bool
    ensures { result ≡ is_false (Ok value.now) }
{
    match value {
        Value::Bool(bit) => !*bit,
        _ => false,
    }
}

/// Whether a row breaks a CHECK: the condition is false there; out of range isn't false.
fn breaks_check(alloc: Global, check: &Option<BoundExpr>, row: &Row) -> Result<bool, AllocError>
    ensures { IfOk result (λ breaks. breaks ≡ breaks_check (option_map meaning check.now) row.now) }
{
    match check {
        Some(check) => match ask(alloc, check, row) {
            Ok(value) => Ok(is_false(&value)),
            Err(Refused::Memory) => Err(AllocError),
            Err(Refused::By(_)) => Ok(false),
        },
        None => Ok(false),
    }
}

/// Whether some row of these breaks a CHECK.
fn has_failed(alloc: Global, check: &Option<BoundExpr>, rows: &[Row]) -> Result<bool, AllocError>
    ensures { IfOk result (λ found. found ≡ list_any (breaks_check (option_map meaning check.now)) rows.now) }
{
    for row in rows {
        if breaks_check(alloc, check, row)? {
            return Ok(true);
        }
    }
    Ok(false)
}

/// The same by a CHECK's text.
fn has_failed_by(
    alloc: Global,
    name: &[u8],
    schema: &Schema,
    rows: &[Row],
    check: &CheckDef,
) -> Result<bool, AllocError>
    ensures { IfOk result (λ found. found ≡ list_any (breaks_check (checks name.now schema.now check.now.text)) rows.now) }
{
    let scope = own_scope(alloc, name, schema)?;
    let said = check_of::<CanonicalChecks>(alloc, scope.as_slice(), check.text.as_slice())?;
    has_failed(alloc, &said, rows)
}

/// The same by any CHECK of these.
fn has_failed_by_any(
    alloc: Global,
    name: &[u8],
    schema: &Schema,
    rows: &[Row],
    all: &[CheckDef],
) -> Result<bool, AllocError>
    ensures { IfOk result (λ found. found ≡ list_any (λ check. list_any (breaks_check (checks name.now schema.now check.text)) rows.now) all.now) }
{
    let [first, rest @ ..] = all else {
        return Ok(false);
    };
    let found = has_failed_by(alloc, name, schema, rows, first)?;
    if found {
        return Ok(true);
    }
    has_failed_by_any(alloc, name, schema, rows, rest)
}

/// The same by any CHECK of the table. No text is read where there is no row.
fn has_failed_in(
    alloc: Global,
    name: &[u8],
    schema: &Schema,
    rows: &[Row],
) -> Result<bool, AllocError>
    ensures { IfOk result (λ found. found ≡ list_any (λ row. list_any (λ check. breaks_check (checks name.now schema.now check.text) row) schema.now.checks) rows.now) }
{
    match rows {
        [] => Ok(false),
        [_, ..] => has_failed_by_any(alloc, name, schema, rows, schema.checks.as_slice()),
    }
}

/// Whether some row that came to one of these tables breaks a CHECK.
fn some_failed(alloc: Global, tables: &[Pair]) -> Result<bool, AllocError>
    ensures { (address : List ℕ → List ℕ) (chunks : Chunks) (old new : PlainDatabase) → ArePairs address chunks tables.now old new
        → IfOk result (λ found. found ≡ some_come (is_failed checks) old new) }
{
    let [first, rest @ ..] = tables else {
        return Ok(false);
    };
    let found = has_failed_in(
        alloc,
        first.name.as_slice(),
        &first.new.schema,
        first.come.as_slice(),
    )?;
    if found {
        return Ok(true);
    }
    some_failed(alloc, rest)
}

/// Whether this key has gone from the parent, and a row of the child has it.
fn is_missed<D: Digester>(
    alloc: Global,
    draft: &Draft<D>,
    pairs: &[Pair],
    child: &StoredTable,
    foreign: &ForeignKey,
    key: &Row,
) -> Result<bool, AllocError>
    requires pairs { HavePairs D.address (chunks_of draft.now.chunks) pairs.now }
    requires child { (contents : PlainTable) × IsTableOf D.address (chunks_of draft.now.chunks) child.now contents }
    ensures { (before after : PlainDatabase) (contents : PlainTable) → ArePairs D.address (chunks_of draft.now.chunks) pairs.now before after
        → IsTableOf D.address (chunks_of draft.now.chunks) child.now contents → IfOk result (λ found. found ≡ is_missed after contents foreign.now key.now) }
{
    if !is_whole(key.as_slice()) {
        return Ok(false);
    }
    if leads_to(alloc, draft, pairs, &child.schema, foreign, key)? {
        return Ok(false);
    }
    has_child(alloc, draft, child, foreign, key.as_slice())
}

/// Whether the columns of the parent at these places have the types of the foreign key's own.
fn are_typed(
    alloc: Global,
    parent: &Schema,
    places: &[usize],
    schema: &Schema,
    foreign: &ForeignKey,
) -> Result<bool, AllocError>
    ensures { IfOk result (λ found. found ≡ same_types (types_at parent.now places.now) (types_at schema.now foreign.now.columns)) }
{
    let own = widened(alloc, foreign.columns.as_slice())?;
    let types = types_at(alloc, schema, own.as_slice())?;
    let parent_types = types_at(alloc, parent, places)?;
    Ok(same_types(parent_types.as_slice(), types.as_slice()))
}

/// The same of the key of a row of the parent, which stands at these places.
fn is_missed_at<D: Digester>(
    alloc: Global,
    draft: &Draft<D>,
    pairs: &[Pair],
    child: &StoredTable,
    foreign: &ForeignKey,
    parent: &Schema,
    places: &[usize],
    row: &[Value],
) -> Result<bool, AllocError>
    requires pairs { HavePairs D.address (chunks_of draft.now.chunks) pairs.now }
    requires child { (contents : PlainTable) × IsTableOf D.address (chunks_of draft.now.chunks) child.now contents }
    ensures { (before after : PlainDatabase) (contents : PlainTable) → ArePairs D.address (chunks_of draft.now.chunks) pairs.now before after
        → IsTableOf D.address (chunks_of draft.now.chunks) child.now contents
        → IfOk result (λ found. found ≡ (same_types (types_at parent.now places.now) (types_at contents.schema foreign.now.columns) && is_missed after contents foreign.now (key_of places.now row.now))) }
{
    if are_typed(alloc, parent, places, &child.schema, foreign)? {
        let key = cells_at(alloc, places, row)?;
        is_missed(alloc, draft, pairs, child, foreign, &key)
    } else {
        Ok(false)
    }
}

/// Whether a row of the parent was the last with its key, and a row of the child has it.
fn is_missed_row<D: Digester>(
    alloc: Global,
    draft: &Draft<D>,
    pairs: &[Pair],
    child: &StoredTable,
    foreign: &ForeignKey,
    parent: &Schema,
    row: &[Value],
) -> Result<bool, AllocError>
    requires pairs { HavePairs D.address (chunks_of draft.now.chunks) pairs.now }
    requires child { (contents : PlainTable) × IsTableOf D.address (chunks_of draft.now.chunks) child.now contents }
    ensures { (before after : PlainDatabase) (contents table : PlainTable) → ArePairs D.address (chunks_of draft.now.chunks) pairs.now before after
        → IsTableOf D.address (chunks_of draft.now.chunks) child.now contents → table.schema ≡ parent.now → IfOk result (λ found. found ≡ is_missed_row after contents foreign.now table row.now) }
{
    match places_of(alloc, parent, foreign.parent_columns.as_slice())? {
        Some(places) => is_missed_at(
            alloc,
            draft,
            pairs,
            child,
            foreign,
            parent,
            places.as_slice(),
            row,
        ),
        None => Ok(false),
    }
}

/// The same of some row of these.
fn has_missed<D: Digester>(
    alloc: Global,
    draft: &Draft<D>,
    pairs: &[Pair],
    child: &StoredTable,
    foreign: &ForeignKey,
    parent: &Schema,
    rows: &[Row],
) -> Result<bool, AllocError>
    requires pairs { HavePairs D.address (chunks_of draft.now.chunks) pairs.now }
    requires child { (contents : PlainTable) × IsTableOf D.address (chunks_of draft.now.chunks) child.now contents }
    ensures { (before after : PlainDatabase) (contents table : PlainTable) → ArePairs D.address (chunks_of draft.now.chunks) pairs.now before after
        → IsTableOf D.address (chunks_of draft.now.chunks) child.now contents → table.schema ≡ parent.now
        → IfOk result (λ found. found ≡ list_any (is_missed_row after contents foreign.now table) rows.now) }
{
    for row in rows {
        if is_missed_row(alloc, draft, pairs, child, foreign, parent, row.as_slice())? {
            return Ok(true);
        }
    }
    Ok(false)
}

/// The same of some row that the parent hasn't just so any more.
fn deserts<D: Digester>(
    alloc: Global,
    draft: &Draft<D>,
    pairs: &[Pair],
    child: &StoredTable,
    foreign: &ForeignKey,
    parent: &Pair,
) -> Result<bool, AllocError>
    requires pairs { HavePairs D.address (chunks_of draft.now.chunks) pairs.now }
    requires child { (contents : PlainTable) × IsTableOf D.address (chunks_of draft.now.chunks) child.now contents }
    requires parent { (b : NamedTable) × (a : NamedTable) × IsPair D.address (chunks_of draft.now.chunks) parent.now b a }
    ensures { (before after : PlainDatabase) (contents : PlainTable) (b a : NamedTable) → ArePairs D.address (chunks_of draft.now.chunks) pairs.now before after
        → IsTableOf D.address (chunks_of draft.now.chunks) child.now contents → IsPair D.address (chunks_of draft.now.chunks) parent.now b a
        → IfOk result (λ found. found ≡ list_any (is_missed_row after contents foreign.now a.table) (come_of a.table.rows b.table.rows)) }
{
    let schema = &parent.new.schema;
    let rows = rows_that_came(alloc, draft, schema, &parent.new.rows, &parent.old)?;
    has_missed(alloc, draft, pairs, child, foreign, schema, rows.as_slice())
}

/// The same of the parent among these tables.
fn deserts_in<D: Digester>(
    alloc: Global,
    draft: &Draft<D>,
    pairs: &[Pair],
    child: &StoredTable,
    foreign: &ForeignKey,
    tables: &[Pair],
) -> Result<bool, AllocError>
    requires pairs { HavePairs D.address (chunks_of draft.now.chunks) pairs.now }
    requires child { (contents : PlainTable) × IsTableOf D.address (chunks_of draft.now.chunks) child.now contents }
    requires tables { HavePairs D.address (chunks_of draft.now.chunks) tables.now }
    ensures { (before after old new : PlainDatabase) (contents : PlainTable) → ArePairs D.address (chunks_of draft.now.chunks) pairs.now before after
        → IsTableOf D.address (chunks_of draft.now.chunks) child.now contents → ArePairs D.address (chunks_of draft.now.chunks) tables.now old new
        → IfOk result (λ found. found ≡ deserts after contents foreign.now old new) }
{
    let [first, rest @ ..] = tables else {
        return Ok(false);
    };
    let found = first.name.is(foreign.parent.as_slice());
    if found {
        return deserts(alloc, draft, pairs, child, foreign, first);
    }
    deserts_in(alloc, draft, pairs, child, foreign, rest)
}

/// The same by any foreign key of these.
fn deserts_by_any<D: Digester>(
    alloc: Global,
    draft: &Draft<D>,
    pairs: &[Pair],
    child: &StoredTable,
    keys: &[ForeignKey],
) -> Result<bool, AllocError>
    requires pairs { HavePairs D.address (chunks_of draft.now.chunks) pairs.now }
    requires child { (contents : PlainTable) × IsTableOf D.address (chunks_of draft.now.chunks) child.now contents }
    ensures { (before after : PlainDatabase) (contents : PlainTable) → ArePairs D.address (chunks_of draft.now.chunks) pairs.now before after
        → IsTableOf D.address (chunks_of draft.now.chunks) child.now contents
        → IfOk result (λ found. found ≡ list_any (λ foreign. deserts after contents foreign before after) keys.now) }
{
    let [first, rest @ ..] = keys else {
        return Ok(false);
    };
    let found = deserts_in(alloc, draft, pairs, child, first, pairs)?;
    if found {
        return Ok(true);
    }
    deserts_by_any(alloc, draft, pairs, child, rest)
}

/// Whether some row of one of these tables leads to no parent any more.
fn some_deserts<D: Digester>(
    alloc: Global,
    draft: &Draft<D>,
    pairs: &[Pair],
    tables: &[Pair],
) -> Result<bool, AllocError>
    requires pairs { HavePairs D.address (chunks_of draft.now.chunks) pairs.now }
    requires tables { HavePairs D.address (chunks_of draft.now.chunks) tables.now }
    ensures { (before after old new : PlainDatabase) → ArePairs D.address (chunks_of draft.now.chunks) pairs.now before after
        → ArePairs D.address (chunks_of draft.now.chunks) tables.now old new → IfOk result (λ found. found ≡ some_deserts before after new) }
{
    let [first, rest @ ..] = tables else {
        return Ok(false);
    };
    let found = deserts_by_any(
        alloc,
        draft,
        pairs,
        &first.new,
        first.new.schema.foreign.as_slice(),
    )?;
    if found {
        return Ok(true);
    }
    some_deserts(alloc, draft, pairs, rest)
}

/// The refusal of a statement that leaves names and schemas as they are: changed rows alone are judged.
pub(crate) fn told_by_pairs<D: Digester>(
    alloc: Global,
    draft: &Draft<D>,
    pairs: &[Pair],
) -> Result<Option<u16>, AllocError>
    requires { HavePairs D.address (chunks_of draft.now.chunks) pairs.now }
    ensures { (before after : PlainDatabase) → ArePairs D.address (chunks_of draft.now.chunks) pairs.now before after
        → IfOk result (λ number. number ≡ told_by_pairs checks before after) }
{
    if some_repeated(alloc, draft, pairs)? {
        return Ok(Some(1062));
    }
    if some_failed(alloc, pairs)? {
        return Ok(Some(3819));
    }
    if some_orphan(alloc, draft, pairs, pairs)? {
        return Ok(Some(1452));
    }
    if some_deserts(alloc, draft, pairs, pairs)? {
        return Ok(Some(1451));
    }
    Ok(None)
}
