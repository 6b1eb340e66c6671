//! Laws, as contracts of functions that do nothing: call one where a proof needs it.

ghost use Rattle.shared_db.specs.Settling.{FitsFollow, SettlesFollow};
ghost use Rattle.shared_db.specs.Stepping.{StepsFollow};

use chunk_store::{law_of_chunks, law_of_segments};
use session_state::{law_of_records, law_of_standing_commits, law_of_states};

/// Which step stands for a request.
#[tactic(auto, using(crate::proofs::RequestLemmas::steps_follow))]
pub fn law_of_steps()
    ensures { StepsFollow }
{}

/// What a settled decision leaves of the state that stands in the parts.
#[tactic(auto, using(crate::proofs::SettleLemmas::settles_follow))]
pub fn law_of_settles()
    ensures { SettlesFollow }
{
    law_of_chunks();
    law_of_segments();
    law_of_records();
    law_of_states();
    commit_graph::law_of_standing_commits();
}

/// Which records are fit to be settled: the change that each stands for.
#[tactic(auto, using(crate::proofs::FitLemmas::fits_follow))]
pub fn law_of_fit_records()
    ensures { FitsFollow }
{
    law_of_chunks();
    law_of_standing_commits();
    commit_graph::law_of_standing_commits();
}
