//! Databases with a table more or a table less.

ghost use Rattle.std.specs.Prelude.{◌≡◌, ◌++◌, IfOk, OnOk, map};
ghost use Rattle.std.specs.Ordering.{is_lt, nat_cmp};
ghost use Rattle.std.specs.Cmp.Lexicographic.{slice_cmp};
ghost use Rattle.plain_writes.specs.Seen.{effect_seen, named_seen};
ghost use Rattle.plain_schemas.specs.Effects.{changed_to, is_there, placed_in, with_table, without_table};

use plain_writes::{Effect, NamedTable, Table, copy_named};
use schema_model::Schema;
use std::alloc::{AllocError, Global};
use tuple_codec::{Sequence, Text};

/// Whether a table of this name is there.
pub fn is_there(database: &[NamedTable], name: &[u8]) -> bool
    ensures { result ≡ is_there (map named_seen database.now) name.now }
{
    match database {
        [] => false,
        [first, rest @ ..] => first.name.is(name) || is_there(rest, name),
    }
}

fn push_copies(
    alloc: Global,
    tables: &mut Sequence<NamedTable>,
    database: &[NamedTable],
) -> Result<(), AllocError>
    ensures { OnOk result (map named_seen tables.new ≡ map named_seen tables.old ++ map named_seen database.now) }
{
    for named in database {
        tables.push(copy_named(alloc, named)?)?;
    }
    Ok(())
}

/// What a statement does that changes nothing.
pub fn unchanged(alloc: Global, database: &[NamedTable]) -> Result<Effect, AllocError>
    ensures { IfOk result (λ effect. effect_seen effect ≡ changed_to (map named_seen database.now)) }
{
    let mut tables = Sequence::new(alloc);
    push_copies(alloc, &mut tables, database)?;
    Ok(Effect {
        database: tables,
        count: None,
    })
}

fn comes_before(name: &[u8], other: &[u8]) -> bool
    ensures { result ≡ is_lt (slice_cmp nat_cmp name.now other.now) }
{
    name.cmp(other).is_lt()
}

fn push_placed(
    alloc: Global,
    tables: &mut Sequence<NamedTable>,
    new: NamedTable,
    database: &[NamedTable],
) -> Result<(), AllocError>
    ensures { OnOk result (map named_seen tables.new ≡ map named_seen tables.old ++ placed_in (named_seen new) (map named_seen database.now)) }
{
    match database {
        [] => tables.push(new),
        [first, rest @ ..] => {
            if comes_before(new.name.as_slice(), first.name.as_slice()) {
                tables.push(new)?;
                push_copies(alloc, tables, database)
            } else {
                tables.push(copy_named(alloc, first)?)?;
                push_placed(alloc, tables, new, rest)
            }
        }
    }
}

/// The database with an empty table of this schema, in its place by name.
pub fn with_table(
    alloc: Global,
    database: &[NamedTable],
    name: &[u8],
    schema: Schema,
) -> Result<Sequence<NamedTable>, AllocError>
    ensures { IfOk result (λ tables. map named_seen tables ≡ with_table (map named_seen database.now) name.now schema) }
{
    let new = NamedTable {
        name: Text::from_slice(alloc, name)?,
        table: Table {
            schema,
            rows: Sequence::new(alloc),
            conflicts: Sequence::new(alloc),
            violations: Sequence::new(alloc),
        },
    };
    let mut tables = Sequence::new(alloc);
    push_placed(alloc, &mut tables, new, database)?;
    Ok(tables)
}

/// The database without the table of this name.
pub fn without_table(
    alloc: Global,
    name: &[u8],
    database: &[NamedTable],
) -> Result<Sequence<NamedTable>, AllocError>
    ensures { IfOk result (λ tables. map named_seen tables ≡ without_table name.now (map named_seen database.now)) }
{
    let mut tables = Sequence::new(alloc);
    for named in database {
        if !named.name.is(name) {
            tables.push(copy_named(alloc, named)?)?;
        }
    }
    Ok(tables)
}
