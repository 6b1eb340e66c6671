//! Tables written into drafts, and read back.

ghost use Rattle.std.specs.Prelude.{◌≡◌, ◌<◌, ◌≤◌, ◌-◌, ◌^◌, ◌++◌, [], ◌∷◌, true, drop, length, take, OnOk, OnErr, IfOk, IfErr};
ghost use Rattle.std.specs.Int.{w32, to_be_bytes};
ghost use Rattle.std.specs.List.{flat_map};
ghost use Rattle.tuple_codec.specs.Fronts.{Gives};
ghost use Rattle.schema_model.specs.Limits.{is_within_limits};
ghost use Rattle.schema_model.specs.Schemas.{is_schema};
ghost use Rattle.chunk_store.specs.Drafts.{Grows, Puts, chunks_of};
ghost use Rattle.chunk_store.specs.Kinds.{is_table};
ghost use Rattle.table_root.specs.Finds.{Finds};
ghost use Rattle.table_root.specs.Reading.{schema_text, table_of};
ghost use Rattle.table_root.specs.Spellings.{Reads};
ghost use Rattle.table_root.specs.Tables.{HasRoots, HasTable, IsStoredTable, IsTableFound, IsTableIn, recorded_roots, written_table};

use crate::fields::{after_kind, four_at, push_address};
use crate::parts::push_addresses;
use crate::records::{RecordedRoots, StoredTable};
use chunk_store::{Draft, PutFault, law_of_growth};
use schema_model::{
    FormBytes, Schema, address_at, items_at, law_of_schemas, push_schema, read_schema, schema_size,
};
use smallvec::SmallVec;
use std::alloc::{AllocError, Global};
use tuple_codec::{Address, Digester, Unread, bytes_at};

/// Puts the table's written form into the draft: the address is the table's.
pub fn write_table<D: Digester>(
    alloc: Global,
    draft: &mut Draft<D>,
    table: &StoredTable,
) -> Result<Address, PutFault>
    requires schema { is_schema table.now.schema ≡ true }
    requires limits { is_within_limits table.now.schema ≡ true }
    requires count { length table.now.indexes ≡ length table.now.schema.indexes }
    ensures puts { Puts D.address (written_table table.now) draft.old draft.new result }
    ensures found { IfOk result (λ address. IsTableFound (chunks_of draft.new.chunks) address.0 table.now) }
    ensures grows { Grows is_table draft.old draft.new }
{
    law_of_growth();
    let bytes = table_bytes(alloc, table)?;
    draft.put(bytes.as_slice())
}

/// The table's written form.
fn table_bytes(alloc: Global, table: &StoredTable) -> Result<FormBytes, AllocError>
    requires schema { is_schema table.now.schema ≡ true }
    requires limits { is_within_limits table.now.schema ≡ true }
    requires count { length table.now.indexes ≡ length table.now.schema.indexes }
    ensures bytes { IfOk result (λ bytes. bytes.items ≡ written_table table.now) }
    ensures table { OnOk result (IsStoredTable table.now) }
    ensures size { IfOk result (λ bytes. length bytes.items ≤ 65536) }
{
    let size = schema_size(&table.schema) as u32;
    let roots = table.indexes.as_slice().len().saturating_add(3);
    let room = (size as usize)
        .saturating_add(5)
        .saturating_add(roots.saturating_mul(20));
    let mut out = SmallVec::with_capacity(alloc, room)?;
    push_size(&mut out, size)?;
    push_schema(&mut out, &table.schema)?;
    push_roots(&mut out, table)?;
    Ok(out)
}

/// Writes the kind of the chunk, and how many bytes the schema has behind it.
fn push_size(out: &mut FormBytes, size: u32) -> Result<(), AllocError>
    ensures { OnOk result (out.new.items ≡ out.old.items ++ 3 ∷ to_be_bytes w32 size) }
{
    out.push(3)?;
    out.extend_from_slice(&size.to_be_bytes())
}

/// Writes the table's roots.
fn push_roots(out: &mut FormBytes, table: &StoredTable) -> Result<(), AllocError>
    ensures bytes { OnOk result (out.new.items ≡ out.old.items ++ (table.now.rows.0 ++ (flat_map (λ index. index.0) table.now.indexes ++ (table.now.conflicts.0 ++ table.now.violations.0)))) }
    ensures roots { OnOk result (HasRoots table.now) }
{
    push_address(out, &table.rows)?;
    push_addresses(out, table.indexes.as_slice())?;
    push_address(out, &table.conflicts)?;
    push_address(out, &table.violations)
}

/// The table whose written form is found at the address.
pub fn read_table<D: Digester>(
    alloc: Global,
    draft: &Draft<D>,
    address: &Address,
) -> Result<StoredTable, AllocError>
    requires { HasTable (chunks_of draft.now.chunks) address.now.0 }
    ensures { IfOk result (λ table. IsTableFound (chunks_of draft.now.chunks) address.now.0 table) }
{
    let Some(bytes) = draft.get(address) else {
        unreachable!()
    };
    match read_table_bytes(alloc, bytes)? {
        Some(table) => Ok(table),
        None => unreachable!(),
    }
}

/// The table that has these bytes, all of them, or None where none has them: for whoever reads bytes of unknown origin.
pub fn read_table_bytes(alloc: Global, bytes: &[u8]) -> Result<Option<StoredTable>, AllocError>
    ensures { IfOk result (λ table. Reads (IsTableIn bytes.now) table) }
{
    match table_in(alloc, bytes) {
        Ok(table) => Ok(Some(table)),
        Err(Unread::Malformed) => Ok(None),
        Err(Unread::Memory) => Err(AllocError),
    }
}

/// The roots of what the table has recorded whose written form is found at the address. They stand at its end, so it takes no memory.
pub fn recorded_roots<D: Digester>(draft: &Draft<D>, address: &Address) -> RecordedRoots
    requires { HasTable (chunks_of draft.now.chunks) address.now.0 }
    ensures { (table : StoredTable) → IsTableFound (chunks_of draft.now.chunks) address.now.0 table → result ≡ recorded_roots table }
{
    let Some(bytes) = draft.get(address) else {
        unreachable!()
    };
    roots_at_end(bytes)
}

/// The last two addresses of bytes.
fn roots_at_end(bytes: &[u8]) -> RecordedRoots
    requires { 40 ≤ length bytes.now }
    ensures conflicts { result.conflicts.0 ≡ drop (length bytes.now - 40) (take (length bytes.now - 20) bytes.now) }
    ensures violations { result.violations.0 ≡ drop (length bytes.now - 20) bytes.now }
{
    let (rest, violations) = bytes.split_at(bytes.len() - 20);
    let (_, conflicts) = rest.split_at(rest.len() - 20);
    RecordedRoots {
        conflicts: Address::from_slice(conflicts),
        violations: Address::from_slice(violations),
    }
}

/// The table of these bytes, all of them.
fn table_in(alloc: Global, bytes: &[u8]) -> Result<StoredTable, Unread>
    ensures { Finds (IsTableIn bytes.now) result }
{
    law_of_schemas();
    let (text, roots) = schema_text(bytes)?;
    match read_schema(alloc, text)? {
        Some(schema) => table_of(alloc, schema, roots),
        None => Err(Unread::Malformed),
    }
}

/// The bytes of a table's schema, and those after them.
#[tactic(auto, unfolding(crate::specs::Reading::schema_text))]
fn schema_text(bytes: &[u8]) -> Result<(&[u8], &[u8]), Unread>
    ensures { Gives (λ x. (x.0.now, x.1.now)) result (schema_text bytes.now) }
{
    let rest = after_kind(3, bytes)?;
    let (size, rest) = four_at(rest)?;
    bytes_at(size as usize, rest)
}

/// The table of this schema whose roots these are, without any bytes after them.
#[tactic(auto, unfolding(crate::specs::Reading::table_of))]
fn table_of(alloc: Global, schema: Schema, bytes: &[u8]) -> Result<StoredTable, Unread>
    ensures { Gives (λ table. table) result (table_of schema bytes.now) }
{
    let (rows, rest) = address_at(bytes)?;
    let (indexes, rest) = items_at(alloc, schema.indexes.as_slice().len(), rest)?;
    let (conflicts, rest) = address_at(rest)?;
    let (violations, rest) = address_at(rest)?;
    if rest.is_empty() {
        Ok(StoredTable {
            schema,
            rows,
            indexes,
            conflicts,
            violations,
        })
    } else {
        Err(Unread::Malformed)
    }
}
