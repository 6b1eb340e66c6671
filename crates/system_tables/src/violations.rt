//! The recorded violations of a table as rows: the kind, the row that breaks the constraint, and the constraint's name.

ghost use Rattle.std.specs.Prelude.{◌≡◌, ◌++◌, ◌∷◌, [], ℕ, IfOk, List, true};
ghost use Rattle.chunk_store.specs.Drafts.{chunks_of};
ghost use Rattle.conflict_tables.specs.Conflicts.{IsSomeTable};
ghost use Rattle.plain_sessions.specs.SystemTables as plain;
ghost use Rattle.schema_model.specs.PlainTables.{PlainTable, Violation};
ghost use Rattle.schema_model.specs.Schemas.{is_schema};
ghost use Rattle.table_root.specs.Standing.{IsTableOf};
ghost use Rattle.tuple_codec.specs.KeyBytes.{key_bytes};
ghost use Rattle.tuple_codec.specs.Limits.{are_types};
ghost use Rattle.tuple_codec.specs.Rows.{Cells};
ghost use Rattle.tuple_codec.specs.declared.values.Value.TheVariants as cell;
ghost use Rattle.system_tables.specs.Entries.{HasListed, HasListedKey, IsListed, IsListedKey, entries_of, listed_types, violation_entry};
ghost use Rattle.system_tables.specs.declared.entries.Listed.TheVariants as listed;

use crate::cells::{copy_bytes, push_cells};
use crate::entries::ListEntry;
use chunk_store::Draft;
use prolly_tree::scan_from;
use schema_model::Schema;
use std::alloc::{AllocError, Global};
use table_root::{StoredTable, row_of};
use tuple_codec::{
    Digester, Row, Sequence, SqlType, Text, Value, cell_at, decode_key, key_cell_size,
    keys_are_one_spelling, same_cells_are_one,
};

/// The types of a violation's key behind its kind: the constraint's name, and the table's primary key.
fn listed_types(alloc: Global, schema: &Schema) -> Result<Vec<SqlType>, AllocError>
    requires { is_schema schema.now ≡ true }
    ensures { IfOk result (λ types. types.items ≡ listed_types schema.now) }
{
    let columns = schema.columns.as_slice();
    let mut types = Vec::new(alloc);
    types.push(SqlType::Varchar(255))?;
    for position in schema.key.as_slice() {
        types.push(columns[usize::from(*position)].kind)?;
    }
    Ok(types)
}

fn kind_words(kind: u8) -> &'static [u8]
    ensures { result.now ≡ plain.kind_text kind }
{
    match kind {
        1 => b"foreign key",
        2 => b"unique index",
        3 => b"check constraint",
        _ => b"not null",
    }
}

/// The constraint's name in front of a key, as a cell.
fn name_before(alloc: Global, types: &[SqlType], bytes: &[u8]) -> Result<Value, AllocError>
    requires types { are_types types.now ≡ true }
    requires key { HasListedKey types.now bytes.now }
    ensures { (name : List ℕ) (key : Cells) → IsListedKey types.now bytes.now name key → IfOk result (λ value. value ≡ cell.Text name) }
{
    keys_are_one_spelling();
    match decode_key(alloc, types, bytes)? {
        Some(cells) => cell_at(alloc, cells.as_slice(), 0),
        None => unreachable!(),
    }
}

/// What stands behind a name's cell.
fn behind<'a>(name: &Value, bytes: &'a [u8]) -> &'a [u8]
    requires { (key : Cells) × (key_bytes (name.now ∷ key) ≡ bytes.now) }
    ensures { (key : Cells) → key_bytes (name.now ∷ key) ≡ bytes.now → result.now ≡ key_bytes key }
{
    &bytes[key_cell_size(name) as usize..]
}

/// The row that shows a violation of this kind, whose name and key these bytes are.
fn shown_row(alloc: Global, kind: u8, name: Value, cells: &[Value]) -> Result<Row, AllocError>
    ensures { IfOk result (λ row. row ≡ cell.Text (plain.kind_text kind) ∷ (cells.now ++ name ∷ [])) }
{
    let mut row = Row::new(alloc);
    row.push(Value::Text(Text::from_slice(alloc, kind_words(kind))?))?;
    push_cells(alloc, cells, &mut row)?;
    row.push(name)?;
    Ok(row)
}

/// The row that shows a violation, by the bytes behind the kind and those of the row.
fn violation_row(
    alloc: Global,
    schema: &Schema,
    types: &[SqlType],
    kind: u8,
    rest: &[u8],
    value: &[u8],
) -> Result<Row, AllocError>
    requires schema { is_schema schema.now ≡ true }
    requires types { types.now ≡ listed_types schema.now }
    requires listed { HasListed schema.now (kind ∷ rest.now) value.now }
    ensures { (violation : Violation) → IsListed schema.now (kind ∷ rest.now) value.now violation → IfOk result (λ row. row ≡ plain.violation_row violation) }
{
    same_cells_are_one();
    let name = name_before(alloc, types, rest)?;
    let cells = row_of(alloc, schema, behind(&name, rest), value)?;
    shown_row(alloc, kind, name, cells.as_slice())
}

/// The violation that an item keeps.
fn violation_entry(
    alloc: Global,
    schema: &Schema,
    types: &[SqlType],
    key: &[u8],
    value: &[u8],
) -> Result<ListEntry, AllocError>
    requires schema { is_schema schema.now ≡ true }
    requires types { types.now ≡ listed_types schema.now }
    requires listed { HasListed schema.now key.now value.now }
    ensures { (violation : Violation) → IsListed schema.now key.now value.now violation → IfOk result (λ made. made ≡ violation_entry schema.now violation) }
{
    match key {
        [kind, rest @ ..] => {
            let row = violation_row(alloc, schema, types, *kind, rest, value)?;
            Ok(ListEntry {
                key: copy_bytes(alloc, key)?,
                row,
            })
        }
        [] => unreachable!(),
    }
}

/// The violations that the table has recorded, by kind, constraint and key.
pub(crate) fn violation_entries<D: Digester>(
    alloc: Global,
    draft: &Draft<D>,
    table: &StoredTable,
) -> Result<Sequence<ListEntry>, AllocError>
    requires { IsSomeTable D.address (chunks_of draft.now.chunks) table.now }
    ensures { (contents : PlainTable) → IsTableOf D.address (chunks_of draft.now.chunks) table.now contents
        → IfOk result (λ entries. entries ≡ entries_of listed.Violations contents) }
{
    let types = listed_types(alloc, &table.schema)?;
    let mut entries = Sequence::new(alloc);
    let mut scan = scan_from(alloc, draft, &table.violations, &[])?;
    'items: while let Some((key, value)) = scan.next() {
        entries.push(violation_entry(alloc, &table.schema, types.as_slice(), key, value)?)?;
    }
    Ok(entries)
}
