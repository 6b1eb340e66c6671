//! The own record with the tables that a commit stages first.

ghost use Rattle.std.specs.Prelude.{IfErr, IfOk};
ghost use Rattle.chunk_store.specs.Clashes.{IsReason};
ghost use Rattle.chunk_store.specs.Drafts.{Grows, chunks_of};
ghost use Rattle.chunk_store.specs.Kinds.{is_database};
ghost use Rattle.plain_sessions.specs.Branching.{staged_first};
ghost use Rattle.root_merge.specs.States.{BranchStateStands};
ghost use Rattle.session_plan.specs.Calls.{OwnStands};
ghost use Rattle.schema_model.specs.PlainCommits.{Commits};
ghost use Rattle.plain_sessions.specs.Records.{BranchState, root_of};

use crate::closing::first_staged;
use crate::listing::put_database;
use crate::staging::with_staged;
use chunk_store::{Draft, PutFault};
use session_plan::head_root;
use sql_procedures::Staging;
use sql_write::laws_of_growth;
use std::alloc::Global;
use tuple_codec::{BranchRecord, Digester};

/// The own record with the tables that a commit stages first.
pub(crate) fn staged_for<D: Digester>(
    alloc: Global,
    draft: &mut Draft<D>,
    own: &BranchRecord,
    staging: Staging,
) -> Result<BranchRecord, PutFault>
    requires { (commits : Commits) × (state : BranchState) × OwnStands D.address draft.old.chunks own.now commits state }
    ensures stands { (commits : Commits) (state : BranchState) → OwnStands D.address draft.old.chunks own.now commits state
        → IfOk result (λ made. BranchStateStands D.address (chunks_of draft.new.chunks) made (record state { staged = staged_first (root_of commits state.head) staging state })) }
    ensures grows { Grows is_database draft.old draft.new }
    ensures cause { IfErr result (IsReason D.address (chunks_of draft.new.chunks)) }
{
    laws_of_growth();
    let root = head_root(alloc, draft, &own.head)?;
    let tables = first_staged(alloc, draft, own, &root, staging)?;
    let staged = put_database(alloc, draft, tables.as_slice())?;
    Ok(with_staged(own, staged))
}
