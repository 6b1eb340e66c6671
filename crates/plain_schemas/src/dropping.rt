//! DROP TABLE.

ghost use Rattle.std.specs.Prelude.{◌≡◌, bytes_eq, map};
ghost use Rattle.std.specs.List.{list_any};
ghost use Rattle.plain_sql.specs.Gives.{GivesBy};
ghost use Rattle.plain_writes.specs.Seen.{effect_seen, named_seen};
ghost use Rattle.plain_schemas.specs.Effects.{drop_effect, is_child};

use crate::databases::{is_there, unchanged, without_table};
use plain_sql::Refused;
use plain_writes::{Effect, NamedTable};
use schema_model::ForeignKey;
use sql_ast::DropTable;
use std::alloc::Global;

/// Whether one of these foreign keys is to the table of this name.
fn some_refers(foreign: &[ForeignKey], name: &[u8]) -> bool
    ensures { result ≡ list_any (λ key. bytes_eq key.parent name.now) foreign.now }
{
    foreign.iter().any(|key| key.parent.is(name))
}

fn is_child(name: &[u8], named: &NamedTable) -> bool
    ensures { result ≡ is_child name.now (named_seen named.now) }
{
    !named.name.is(name) && some_refers(named.table.schema.foreign.as_slice(), name)
}

fn has_child(name: &[u8], database: &[NamedTable]) -> bool
    ensures { result ≡ list_any (is_child name.now) (map named_seen database.now) }
{
    match database {
        [] => false,
        [first, rest @ ..] => is_child(name, first) || has_child(name, rest),
    }
}

/// What DROP TABLE makes of a database, or its first refusal. The whole database is copied.
pub fn drop_effect(
    alloc: Global,
    database: &[NamedTable],
    statement: &DropTable,
) -> Result<Effect, Refused>
    ensures { GivesBy effect_seen result (drop_effect (map named_seen database.now) statement.now) }
{
    let name = statement.table.as_slice();
    if !is_there(database, name) {
        return if statement.if_exists {
            Ok(unchanged(alloc, database)?)
        } else {
            Err(Refused::By(1146))
        };
    }
    if has_child(name, database) {
        return Err(Refused::By(1451));
    }
    Ok(Effect {
        database: without_table(alloc, name, database)?,
        count: None,
    })
}
