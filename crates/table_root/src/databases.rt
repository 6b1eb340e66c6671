//! Databases written into drafts, and read back.

ghost use Rattle.std.specs.Prelude.{◌≡◌, ◌<◌, ◌≤◌, ◌++◌, [], ◌∷◌, true, List, length, MatchOption, OnOk, OnErr, IfOk, IfErr, IfSome};
ghost use Rattle.std.specs.Int.{w16, to_be_bytes};
ghost use Rattle.std.specs.List.{list_all};
ghost use Rattle.std.specs.Option.{option_map};
ghost use Rattle.std.specs.Ordering.{is_lt, nat_cmp};
ghost use Rattle.std.specs.Cmp.Lexicographic.{slice_cmp};
ghost use Rattle.tuple_codec.specs.Fronts.{Gives};
ghost use Rattle.chunk_store.specs.Drafts.{Grows, Puts, chunks_of};
ghost use Rattle.chunk_store.specs.Kinds.{is_database};
ghost use Rattle.table_root.specs.Databases.{AreListed, HasDatabase, IsDatabaseFound, IsDatabaseIn, IsFirstListed, IsStoredDatabase, has_short_name, names_rise, written_database};
ghost use Rattle.table_root.specs.Reading.{database_of};
ghost use Rattle.table_root.specs.Spellings.{Reads};

use crate::fields::{after_kind, two_at};
use crate::parts::push_tables;
use crate::records::TableEntry;
use chunk_store::{Draft, PutFault, law_of_growth};
use schema_model::{FormBytes, items_at};
use smallvec::SmallVec;
use std::alloc::{AllocError, Global};
use tuple_codec::{Address, Digester, Unread};

/// Puts the database's written form into the draft: the address is the database's.
pub fn write_database<D: Digester>(
    alloc: Global,
    draft: &mut Draft<D>,
    tables: &[TableEntry],
) -> Result<Address, PutFault>
    requires few { length tables.now ≤ 256 }
    requires names { list_all has_short_name tables.now ≡ true }
    requires rise { names_rise tables.now ≡ true }
    ensures puts { Puts D.address (written_database tables.now) draft.old draft.new result }
    ensures found { IfOk result (λ address. IsDatabaseFound (chunks_of draft.new.chunks) address.0 tables.now) }
    ensures grows { Grows is_database draft.old draft.new }
{
    law_of_growth();
    let bytes = database_bytes(alloc, tables)?;
    draft.put(bytes.as_slice())
}

/// The database's written form.
fn database_bytes(alloc: Global, tables: &[TableEntry]) -> Result<FormBytes, AllocError>
    requires few { length tables.now ≤ 256 }
    requires names { list_all has_short_name tables.now ≡ true }
    requires rise { names_rise tables.now ≡ true }
    ensures bytes { IfOk result (λ bytes. bytes.items ≡ written_database tables.now) }
    ensures database { OnOk result (IsStoredDatabase tables.now) }
    ensures size { IfOk result (λ bytes. length bytes.items ≤ 65536) }
{
    let mut out = SmallVec::with_capacity(alloc, room_for(tables))?;
    push_count(&mut out, tables)?;
    push_tables(&mut out, tables)?;
    Ok(out)
}

/// How many bytes the database's written form has.
fn room_for(tables: &[TableEntry]) -> usize {
    let mut room = 3_usize;
    for named in tables {
        let name = named.name.as_slice();
        room = room.saturating_add(name.len()).saturating_add(21);
    }
    room
}

/// Writes the kind of the chunk, and how many tables there are.
fn push_count(out: &mut FormBytes, tables: &[TableEntry]) -> Result<(), AllocError>
    requires { length tables.now ≤ 256 }
    ensures { OnOk result (out.new.items ≡ out.old.items ++ 4 ∷ to_be_bytes w16 (length tables.now)) }
{
    let count = tables.len() as u16;
    out.push(4)?;
    out.extend_from_slice(&count.to_be_bytes())
}

/// The database whose written form is found at the address.
pub fn read_database<D: Digester>(
    alloc: Global,
    draft: &Draft<D>,
    address: &Address,
) -> Result<Vec<TableEntry>, AllocError>
    requires { HasDatabase (chunks_of draft.now.chunks) address.now.0 }
    ensures { IfOk result (λ tables. IsDatabaseFound (chunks_of draft.now.chunks) address.now.0 tables.items) }
{
    let Some(bytes) = draft.get(address) else {
        unreachable!()
    };
    match read_database_bytes(alloc, bytes)? {
        Some(tables) => Ok(tables),
        None => unreachable!(),
    }
}

/// The tables of the database that has these bytes, all of them, or None where none has them: for whoever reads bytes of unknown origin.
pub fn read_database_bytes(
    alloc: Global,
    bytes: &[u8],
) -> Result<Option<Vec<TableEntry>>, AllocError>
    ensures { IfOk result (λ found. Reads (IsDatabaseIn bytes.now) (option_map (λ tables. tables.items) found)) }
{
    match database_of(alloc, bytes) {
        Ok(tables) => Ok(Some(tables)),
        Err(Unread::Malformed) => Ok(None),
        Err(Unread::Memory) => Err(AllocError),
    }
}

/// The database of these bytes, all of them.
#[tactic(auto, unfolding(crate::specs::Reading::database_of))]
fn database_of(alloc: Global, bytes: &[u8]) -> Result<Vec<TableEntry>, Unread>
    ensures { Gives (λ tables. tables.items) result (database_of bytes.now) }
{
    let rest = after_kind(4, bytes)?;
    let (count, rest) = two_at(rest)?;
    let (tables, rest) = items_at(alloc, usize::from(count), rest)?;
    if rest.is_empty() && names_rise(tables.as_slice()) {
        Ok(tables.into_vec())
    } else {
        Err(Unread::Malformed)
    }
}

/// Whether each name comes strictly before the next.
fn names_rise(tables: &[TableEntry]) -> bool
    ensures { result ≡ names_rise tables.now }
{
    let mut left = tables;
    'tables: while let [named, rest @ ..] = left {
        if let [next, ..] = rest {
            if !comes_before(named, next) {
                return false;
            }
        }
        left = rest;
    }
    true
}

fn comes_before(some: &TableEntry, other: &TableEntry) -> bool
    ensures { result ≡ is_lt (slice_cmp nat_cmp some.now.name other.now.name) }
{
    some.name.as_slice().cmp(other.name.as_slice()).is_lt()
}

/// The bytes of the tables in the database whose written form is found at the address, one after another. They are read in place, by
/// [`first_listed`].
pub fn listed_tables<'a, D: Digester>(draft: &'a Draft<D>, address: &Address) -> &'a [u8]
    requires { HasDatabase (chunks_of draft.now.chunks) address.now.0 }
    ensures { (tables : List TableEntry) → IsDatabaseFound (chunks_of draft.now.chunks) address.now.0 tables → AreListed result.now tables }
{
    let Some(bytes) = draft.get(address) else {
        unreachable!()
    };
    let (_, tables) = bytes.split_at(3);
    tables
}

/// The address of the first of these tables, and the bytes of the others; None where there is none.
pub fn first_listed(tables: &[u8]) -> Option<(Address, &[u8])>
    requires { (entries : List TableEntry) × AreListed tables.now entries }
    ensures is { (entries : List TableEntry) → AreListed tables.now entries → MatchOption result (entries ≡ []) (λ first. IsFirstListed first.0 first.1.now entries) }
    ensures shorter { IfSome result (λ first. length first.1.now < length tables.now) }
{
    match tables.split_first() {
        None => None,
        Some((size, rest)) => {
            let (_, behind) = rest.split_at(usize::from(*size));
            let (table, others) = behind.split_at(20);
            Some((Address::from_slice(table), others))
        }
    }
}
