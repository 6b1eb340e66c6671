//! Laws of the crates below, for proofs here and above. None does anything.

ghost use Rattle.chunk_store.specs.Laws.{DraftsFollow, DraftsGrow};
ghost use Rattle.table_root.specs.Standing.{DatabasesStand, TableValuesStand, TablesStand};

use chunk_store::{law_of_drafts, law_of_growth};
use table_root::{law_of_databases, law_of_tables};

/// What is found in drafts, and what stands later where they grow, for proofs. It does nothing.
pub fn laws_of_growth()
    ensures drafts { DraftsFollow }
    ensures growth { DraftsGrow }
    ensures tables { TablesStand }
    ensures values { TableValuesStand }
    ensures databases { DatabasesStand }
{
    law_of_drafts();
    law_of_growth();
    law_of_tables();
    law_of_databases();
}
