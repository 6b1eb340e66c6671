//! Laws, for proofs above: call one where a proof needs it. None does anything.

ghost use Rattle.table_root.specs.Spellings.{HaveOneSpelling};
ghost use Rattle.table_root.specs.Standing.{DatabasesStand, TableValuesStand, TablesStand};

use schema_model::law_of_schemas;

/// Two tables, databases or branch records with the same bytes are one.
pub fn law_of_written_forms()
    ensures { HaveOneSpelling }
{
    law_of_schemas();
}

/// Where an address stands for a plain table, the table found there has the roots of its lists; and it stands for one.
pub fn law_of_tables()
    ensures tables { TablesStand }
    ensures values { TableValuesStand }
{
    law_of_schemas();
}

/// Where an address stands for a plain database, the database found there names its tables; and it stands for one.
pub fn law_of_databases()
    ensures { DatabasesStand }
{
    law_of_schemas();
}
