//! The laws of states, each on a function that does nothing.

ghost use Rattle.keep_laws.specs.StateLaws.{ChangesKeep, DecisionsKeep, SharedKeep, WorkKeeps};

use crate::all_keep;
use table_merge::law_of_merged_tables;

/// What a decision leaves, where it isn't refused, are databases within the limits on data, and so is one with its violations recorded anew.
pub fn decisions_keep()
    ensures { DecisionsKeep }
{
    law_of_merged_tables();
}

/// What a database statement comes to, where it isn't refused, has databases within the limits on data.
pub fn work_keeps()
    ensures { WorkKeeps }
{
    all_keep();
    law_of_merged_tables();
}

/// What a decision makes of a branch is such a state, and the commit that it makes has such a database, two parents at most, its height and the epoch as its date.
pub fn changes_keep()
    ensures { ChangesKeep }
{
    law_of_merged_tables();
}

/// The shared state begins so, and stays so after changes, DOLT_BRANCH and DOLT_CHECKOUT; a transaction starts so.
pub fn shared_keeps()
    ensures { SharedKeep }
{}
