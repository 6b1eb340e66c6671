//! Laws of merges, for the crates above: call one where a proof needs it. None does anything.

ghost use Rattle.table_merge.specs.Laws.{MergedSchemasFollow, MergesAreTables};

use schema_model::law_of_sameness;

/// What schemas merge to is a schema, and a side's row, as it stands on it, is a row of it with the same primary key.
pub fn law_of_merged_schemas()
    ensures { MergedSchemasFollow }
{
    law_of_sameness();
}

/// What tables merge to is a table: its rows and its conflicts fit the merged schema, and their keys rise.
pub fn law_of_merged_tables()
    ensures { MergesAreTables }
{
    law_of_sameness();
}
