//! Laws, as contracts of functions that do nothing: call one where a proof needs it.

ghost use Rattle.session_state.specs.Laws.{CommitsFollow, RecordsFollow, StatesFollow, TransactionsFollow};

use chunk_store::{law_of_chunks, law_of_drafts, law_of_segments};
use schema_model::law_of_sameness;
use table_root::law_of_databases;

/// What follows of records that stand.
pub fn law_of_records()
    ensures { RecordsFollow }
{
    law_of_databases();
    law_of_sameness();
}

/// What follows of commits that stand, and no others.
pub fn law_of_standing_commits()
    ensures { CommitsFollow }
{
    law_of_chunks();
    law_of_sameness();
    commit_graph::law_of_standing_commits();
}

/// What follows of transactions.
pub fn law_of_transactions()
    ensures { TransactionsFollow }
{
    law_of_databases();
    law_of_drafts();
    commit_graph::law_of_standing_commits();
}

/// What decisions leave of the shared state.
pub fn law_of_states()
    ensures { StatesFollow }
{
    law_of_chunks();
    law_of_segments();
    law_of_databases();
    law_of_sameness();
    commit_graph::law_of_standing_commits();
}
