//! The tables of two databases side by side, with the rows that came.

ghost use Rattle.std.specs.Prelude.{◌≡◌, ◌++◌, [], ◌∷◌, true, List, IfOk, IfSome};
ghost use Rattle.std.specs.List.{list_all};
ghost use Rattle.tuple_codec.specs.Rows.{Cells};
ghost use Rattle.schema_model.specs.PlainTables.{NamedTable, PlainDatabase, PlainTable, is_row};
ghost use Rattle.schema_model.specs.Schemas.{is_schema};
ghost use Rattle.chunk_store.specs.Drafts.{chunks_of};
ghost use Rattle.table_root.specs.Standing.{AreThere, CanRead, IsReadAt, IsTableAt, IsTableOf};
ghost use Rattle.table_root.specs.Rows.{AreRowsAt, HasRowsAt};
ghost use Rattle.constraint_scan.specs.Pairs.{ArePairs, HasRoot, IsPair, come_of, come_pairs, row_pairs};
ghost use Rattle.violation_lists.specs.Recording.{IsEntryOf};

use chunk_store::Draft;
use pair_walk::{ReadCount, changes};
use schema_model::{Schema, is_same_schema, law_of_sameness};
use std::alloc::{AllocError, Global};
use table_root::{
    StoredTable, TableEntry, law_of_databases, law_of_row_items, law_of_tables, read_database,
    read_table, row_of,
};
use tuple_codec::{Address, Digester, ItemChange, Row, Sequence, Text};

/// A table that both databases have, with one schema.
#[derive(Drop)]
pub struct Pair {
    pub name: Text,
    /// The root of the old rows.
    pub old: Address,
    pub new: StoredTable,
    /// The rows that the old table hasn't just so.
    pub come: Sequence<Row>,
}

/// The rows that changes bring.
fn rows_of_changes(
    alloc: Global,
    schema: &Schema,
    list: &[ItemChange],
) -> Result<Sequence<Row>, AllocError>
    requires schema { is_schema schema.now ≡ true }
    requires rows { (rows : List Cells) × (list_all (is_row schema.now) rows ≡ true) × (come_pairs list.now ≡ row_pairs schema.now rows) }
    ensures { (rows : List Cells) → list_all (is_row schema.now) rows ≡ true → come_pairs list.now ≡ row_pairs schema.now rows → IfOk result (λ read. read ≡ rows) }
{
    let mut rows = Sequence::new(alloc);
    for change in list {
        if let Some(value) = &change.new {
            let row = row_of(alloc, schema, change.key.as_slice(), value.as_slice())?;
            rows.push(row)?;
        }
    }
    Ok(rows)
}

/// The rows of the second tree that the first hasn't just so. What both trees share isn't read.
pub(crate) fn rows_that_came<D: Digester>(
    alloc: Global,
    draft: &Draft<D>,
    schema: &Schema,
    old: &Address,
    new: &Address,
) -> Result<Sequence<Row>, AllocError>
    requires schema { is_schema schema.now ≡ true }
    requires old { HasRowsAt D.address (chunks_of draft.now.chunks) old.now.0 schema.now }
    requires new { HasRowsAt D.address (chunks_of draft.now.chunks) new.now.0 schema.now }
    ensures { (before after : List Cells) → AreRowsAt D.address (chunks_of draft.now.chunks) old.now.0 schema.now before
        → AreRowsAt D.address (chunks_of draft.now.chunks) new.now.0 schema.now after → IfOk result (λ rows. rows ≡ come_of before after) }
{
    law_of_row_items();
    let mut reads = ReadCount::new();
    let list = changes(alloc, draft, old, new, &mut reads)?;
    rows_of_changes(alloc, schema, list.as_slice())
}

/// The root of a table's rows, if it has this schema.
fn rows_root<D: Digester>(
    alloc: Global,
    draft: &Draft<D>,
    address: &Address,
    schema: &Schema,
) -> Result<Option<Address>, AllocError>
    requires { (contents : PlainTable) × IsTableAt D.address (chunks_of draft.now.chunks) address.now.0 contents }
    ensures { (contents : PlainTable) → IsTableAt D.address (chunks_of draft.now.chunks) address.now.0 contents
        → IfOk result (λ found. IfSome found (λ root. HasRoot D.address (chunks_of draft.now.chunks) root.0 schema.now contents)) }
{
    law_of_tables();
    law_of_sameness();
    let table = read_table(alloc, draft, address)?;
    let same = is_same_schema(&table.schema, schema);
    if same { Ok(Some(table.rows)) } else { Ok(None) }
}

/// A table whose old rows have this root.
fn pair_of<D: Digester>(
    alloc: Global,
    draft: &Draft<D>,
    name: &[u8],
    old: Address,
    new: StoredTable,
) -> Result<Pair, AllocError>
    requires old { HasRowsAt D.address (chunks_of draft.now.chunks) old.0 new.schema }
    requires new { (contents : PlainTable) × IsTableOf D.address (chunks_of draft.now.chunks) new contents }
    ensures { (before : List Cells) (after : PlainTable) → AreRowsAt D.address (chunks_of draft.now.chunks) old.0 new.schema before → IsTableOf D.address (chunks_of draft.now.chunks) new after
        → IfOk result (λ pair. pair ≡ record { name = name.now; old = old; new = new; come = come_of before after.rows }) }
{
    let come = rows_that_came(alloc, draft, &new.schema, &old, &new.rows)?;
    let name = Text::from_slice(alloc, name)?;
    Ok(Pair {
        name,
        old,
        new,
        come,
    })
}

/// The tables of two entries of one name; none where their schemas differ.
fn paired_tables<D: Digester>(
    alloc: Global,
    draft: &Draft<D>,
    old: &TableEntry,
    new: &TableEntry,
) -> Result<Option<Pair>, AllocError>
    requires old { (contents : PlainTable) × IsTableAt D.address (chunks_of draft.now.chunks) old.now.table.0 contents }
    requires new { (contents : PlainTable) × IsTableAt D.address (chunks_of draft.now.chunks) new.now.table.0 contents }
    ensures { (before after : NamedTable) → old.now.name ≡ new.now.name → IsEntryOf D.address (chunks_of draft.now.chunks) old.now before → IsEntryOf D.address (chunks_of draft.now.chunks) new.now after
        → IfOk result (λ found. IfSome found (λ pair. IsPair D.address (chunks_of draft.now.chunks) pair before after)) }
{
    law_of_tables();
    let after = read_table(alloc, draft, &new.table)?;
    match rows_root(alloc, draft, &old.table, &after.schema)? {
        Some(root) => {
            let pair = pair_of(alloc, draft, new.name.as_slice(), root, after)?;
            Ok(Some(pair))
        }
        None => Ok(None),
    }
}

/// The tables of two entries; none where their names or schemas differ.
fn paired<D: Digester>(
    alloc: Global,
    draft: &Draft<D>,
    old: &TableEntry,
    new: &TableEntry,
) -> Result<Option<Pair>, AllocError>
    requires old { (contents : PlainTable) × IsTableAt D.address (chunks_of draft.now.chunks) old.now.table.0 contents }
    requires new { (contents : PlainTable) × IsTableAt D.address (chunks_of draft.now.chunks) new.now.table.0 contents }
    ensures { (before after : NamedTable) → IsEntryOf D.address (chunks_of draft.now.chunks) old.now before → IsEntryOf D.address (chunks_of draft.now.chunks) new.now after
        → IfOk result (λ found. IfSome found (λ pair. IsPair D.address (chunks_of draft.now.chunks) pair before after)) }
{
    let same = old.name.is(new.name.as_slice());
    if same {
        paired_tables(alloc, draft, old, new)
    } else {
        Ok(None)
    }
}

/// Adds the tables of two entries, and says whether their names and schemas are the same.
fn push_paired<D: Digester>(
    alloc: Global,
    draft: &Draft<D>,
    old: &TableEntry,
    new: &TableEntry,
    pairs: &mut Sequence<Pair>,
) -> Result<bool, AllocError>
    requires old { (contents : PlainTable) × IsTableAt D.address (chunks_of draft.now.chunks) old.now.table.0 contents }
    requires new { (contents : PlainTable) × IsTableAt D.address (chunks_of draft.now.chunks) new.now.table.0 contents }
    ensures { (done made : PlainDatabase) (before after : NamedTable) → ArePairs D.address (chunks_of draft.now.chunks) pairs.old done made
        → IsEntryOf D.address (chunks_of draft.now.chunks) old.now before → IsEntryOf D.address (chunks_of draft.now.chunks) new.now after
        → IfOk result (λ same. same ≡ true → ArePairs D.address (chunks_of draft.now.chunks) pairs.new (done ++ before ∷ []) (made ++ after ∷ [])) }
{
    match paired(alloc, draft, old, new)? {
        Some(pair) => {
            pairs.push(pair)?;
            Ok(true)
        }
        None => Ok(false),
    }
}

/// Adds the tables of these entries, and says whether all names and schemas are the same. There are few tables, so the calls don't go
/// deep.
fn push_pairs<D: Digester>(
    alloc: Global,
    draft: &Draft<D>,
    olds: &[TableEntry],
    news: &[TableEntry],
    pairs: &mut Sequence<Pair>,
) -> Result<bool, AllocError>
    requires olds { (database : PlainDatabase) × AreThere D.address (chunks_of draft.now.chunks) database olds.now }
    requires news { (database : PlainDatabase) × AreThere D.address (chunks_of draft.now.chunks) database news.now }
    ensures { (done made before after : PlainDatabase) → ArePairs D.address (chunks_of draft.now.chunks) pairs.old done made
        → AreThere D.address (chunks_of draft.now.chunks) before olds.now → AreThere D.address (chunks_of draft.now.chunks) after news.now
        → IfOk result (λ same. same ≡ true → ArePairs D.address (chunks_of draft.now.chunks) pairs.new (done ++ before) (made ++ after)) }
{
    match olds {
        [] => Ok(news.is_empty()),
        [old, olds @ ..] => match news {
            [] => Ok(false),
            [new, news @ ..] => {
                if push_paired(alloc, draft, old, new, pairs)? {
                    push_pairs(alloc, draft, olds, news, pairs)
                } else {
                    Ok(false)
                }
            }
        },
    }
}

/// The tables of two databases side by side; none where names or schemas differ.
pub(crate) fn read_pairs<D: Digester>(
    alloc: Global,
    draft: &Draft<D>,
    old: &Address,
    new: &Address,
) -> Result<Option<Sequence<Pair>>, AllocError>
    requires old { CanRead D.address (chunks_of draft.now.chunks) old.now.0 }
    requires new { CanRead D.address (chunks_of draft.now.chunks) new.now.0 }
    ensures { (before after : PlainDatabase) → IsReadAt D.address (chunks_of draft.now.chunks) old.now.0 before → IsReadAt D.address (chunks_of draft.now.chunks) new.now.0 after
        → IfOk result (λ found. IfSome found (λ pairs. ArePairs D.address (chunks_of draft.now.chunks) pairs before after)) }
{
    law_of_databases();
    let olds = read_database(alloc, draft, old)?;
    let news = read_database(alloc, draft, new)?;
    let mut pairs = Sequence::new(alloc);
    if push_pairs(alloc, draft, olds.as_slice(), news.as_slice(), &mut pairs)? {
        Ok(Some(pairs))
    } else {
        Ok(None)
    }
}
