//! Laws of the crates below, for proofs here. None does anything.

ghost use Rattle.chunk_store.specs.Laws.{DraftsFollow, DraftsGrow};
ghost use Rattle.violation_lists.specs.Recorded.{AllAreRecorded};
ghost use Rattle.schema_model.specs.Sameness.{SamenessIsEquality};
ghost use Rattle.table_root.specs.Standing.{DatabasesStand, TableValuesStand, TablesStand};

use chunk_store::{law_of_drafts, law_of_growth};
use schema_model::law_of_sameness;
use table_root::{law_of_databases, law_of_tables};
use violation_lists::law_of_recording;

/// What is found in drafts, and what stands later where they grow.
pub(crate) fn laws_of_growth()
    ensures drafts { DraftsFollow }
    ensures growth { DraftsGrow }
    ensures tables { TablesStand }
    ensures values { TableValuesStand }
    ensures databases { DatabasesStand }
{
    law_of_drafts();
    law_of_growth();
    law_of_tables();
    law_of_databases();
}

/// What records stand for: a database's own violations may be recorded in it, and contents are the same by the tests exactly where they are equal.
pub(crate) fn laws_of_states()
    ensures recording { AllAreRecorded }
    ensures sameness { SamenessIsEquality }
{
    law_of_recording();
    law_of_sameness();
}
