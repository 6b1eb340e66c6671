//! Laws, for proofs here and above. None does anything.

ghost use Rattle.chunk_store.specs.Laws.{DraftsFollow, DraftsGrow};
ghost use Rattle.table_root.specs.Standing.{DatabasesStand, TableValuesStand, TablesStand};
ghost use Rattle.violation_lists.specs.Recorded.{AllAreRecorded};

use chunk_store::{law_of_drafts, law_of_growth};
use table_root::{law_of_databases, law_of_tables};

/// What `violations` lists of a database may be recorded in it, and then each table has all of its own.
pub fn law_of_recording()
    ensures { AllAreRecorded }
{}

/// What is found in drafts, and what stands later where they grow.
pub(crate) fn laws_of_growth()
    ensures drafts { DraftsFollow }
    ensures growth { DraftsGrow }
    ensures tables { TablesStand }
    ensures values { TableValuesStand }
    ensures databases { DatabasesStand }
{
    law_of_drafts();
    law_of_growth();
    law_of_tables();
    law_of_databases();
}
