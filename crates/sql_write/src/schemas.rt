//! What CREATE, DROP and ALTER find in the schemas of a database.

ghost use Rattle.std.specs.Prelude.{◌≡◌, map};
ghost use Rattle.plain_sql.specs.Gives.{Gives};
ghost use Rattle.plain_writes.specs.Seen.{named_seen};
ghost use Rattle.plain_schemas.specs.Effects.{is_there};
ghost use Rattle.sql_write.specs.Skeletons.{SchemasSuffice, schema_created, table_goes};

use plain_schemas::{create_effect, drop_effect};
use plain_sql::Refused;
use plain_writes::{NamedTable, copy_schema, table_in};
use schema_model::Schema;
use sql_ast::{CreateTable, DropTable};
use std::alloc::Global;

/// CREATE, DROP and ALTER look at the schemas of a database, and ALTER at the rows of its own table. For proofs: call it where one
/// needs it. It does nothing.
pub(crate) fn schemas_suffice()
    ensures { SchemasSuffice }
{}

/// Whether a table of this name is there. There are few tables, so the calls don't go deep.
fn is_there(database: &[NamedTable], name: &[u8]) -> bool
    ensures { result ≡ is_there (map named_seen database.now) name.now }
{
    match database {
        [] => false,
        [first, rest @ ..] => first.name.is(name) || is_there(rest, name),
    }
}

/// Whether a table goes, or the first refusal.
pub(crate) fn table_goes(
    alloc: Global,
    database: &[NamedTable],
    statement: &DropTable,
) -> Result<bool, Refused>
    ensures { Gives result (table_goes (map named_seen database.now) statement.now) }
{
    drop_effect(alloc, database, statement)?;
    Ok(is_there(database, statement.table.as_slice()))
}

/// The schema of the table that comes, none where one of its name may stand already, or the first refusal.
pub(crate) fn schema_created(
    alloc: Global,
    database: &[NamedTable],
    create: &CreateTable,
) -> Result<Option<Schema>, Refused>
    ensures { Gives result (schema_created (map named_seen database.now) create.now) }
{
    let name = create.table.as_slice();
    let effect = create_effect(alloc, database, create)?;
    if is_there(database, name) {
        return Ok(None);
    }
    match table_in(effect.database.as_slice(), name) {
        Some(table) => Ok(Some(copy_schema(alloc, &table.schema)?)),
        None => unreachable!(),
    }
}
