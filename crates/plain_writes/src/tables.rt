//! A database as code keeps it.

ghost use Rattle.std.specs.Prelude.{◌≡◌, map};
ghost use Rattle.std.specs.Option.{option_map};
ghost use Rattle.plain_writes.specs.Seen.{named_seen, table_seen};
ghost use Rattle.plain_writes.specs.Violations.{table_in};

use crate::breaking::Broken;
use schema_model::Schema;
use tuple_codec::{Row, Sequence, Text};

/// A key at which a merge found no row: what base, ours and theirs have there.
#[derive(Drop)]
pub struct Dispute {
    pub key: Row,
    pub base: Option<Row>,
    pub ours: Option<Row>,
    pub theirs: Option<Row>,
}

/// A table with its rows by rising key, and what a merge left open.
#[derive(Drop)]
pub struct Table {
    pub schema: Schema,
    pub rows: Sequence<Row>,
    pub conflicts: Sequence<Dispute>,
    pub violations: Sequence<Broken>,
}

/// A table by its name. A database is a list of these by rising name.
#[derive(Drop)]
pub struct NamedTable {
    pub name: Text,
    pub table: Table,
}

/// The table of this name.
pub fn table_in<'a>(database: &'a [NamedTable], name: &[u8]) -> Option<&'a Table>
    ensures { table_in (map named_seen database.now) name.now ≡ option_map (λ table. table_seen table.now) result }
{
    match database {
        [] => None,
        [first, rest @ ..] => {
            if first.name.is(name) {
                Some(&first.table)
            } else {
                table_in(rest, name)
            }
        }
    }
}
