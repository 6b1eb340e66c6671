//! The laws of CHECKs in a database, each on a function that does nothing.

ghost use Rattle.check_laws.specs.Laws.{ChecksAreKept, ChecksAreMeant, MergesKeepChecks, NamesAgree};
ghost use Rattle.check_laws.specs.Moments.{ChangesKeepChecks, SharedKeepsChecks, WorkKeepsChecks};
ghost use Rattle.check_laws.specs.Runs.{RunsKeepLimits};

use keep_laws::{changes_keep, shared_keeps, work_keeps};
use schema_model::law_of_sameness;

/// A database whose CHECKs have a meaning is one after each statement that isn't refused, and each CHECK is judged by what its expression is worth.
pub fn law_of_checks()
    ensures kept { ChecksAreKept }
    ensures meant { ChecksAreMeant }
{}

/// The scan by which schemas are merged finds in a canonical text the names of its expression, and ALTER finds a CHECK that needs a column just where its text names it.
pub fn law_of_names()
    ensures { NamesAgree }
{}

/// Merged schemas and databases, and what is recorded of violations, keep the meaning of CHECKs.
pub fn law_of_merges()
    ensures { MergesKeepChecks }
{
    law_of_sameness();
}

/// Whatever a database statement comes to in a transaction, its CHECKs keep their meaning.
pub fn law_of_work()
    ensures { WorkKeepsChecks }
{
    law_of_sameness();
}

/// So do those of what the commit rule leaves, and of what a decision makes of a branch and the commit that it makes.
pub fn law_of_changes()
    ensures { ChangesKeepChecks }
{
    law_of_sameness();
}

/// The shared state begins so, and stays so after changes, DOLT_BRANCH and DOLT_CHECKOUT; a transaction starts so.
pub fn law_of_shared()
    ensures { SharedKeepsChecks }
{}

/// Every state that the machine reaches, along whatever order and whatever finds no memory, keeps the limits of a shared state as a whole, and its CHECKs their meaning; so do the transactions
/// of its sessions. A run's end is such a state.
pub fn law_of_runs()
    ensures { RunsKeepLimits }
{
    law_of_sameness();
    work_keeps();
    changes_keep();
    shared_keeps();
}
