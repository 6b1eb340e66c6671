//! The database of a commit that the store below a draft has.

ghost use Rattle.std.specs.Prelude.{◌≡◌, IfOk, true};
ghost use Rattle.schema_model.specs.PlainCommits.{Commits, is_known};
ghost use Rattle.chunk_store.specs.Chunks.{chunk_bytes};
ghost use Rattle.chunk_store.specs.Drafts.{chunks_of};
ghost use Rattle.table_root.specs.Kept.{IsKeptAt};
ghost use Rattle.plain_sessions.specs.Records.{root_of};
ghost use Rattle.session_state.specs.Commits.{CommitsAreThere};

use chunk_store::{Draft, law_of_chunks};
use commit_graph::{law_of_commits, law_of_standing_commits, read_commit};
use std::alloc::{AllocError, Global};
use table_root::law_of_databases;
use tuple_codec::{Address, Digester};

/// The address of the database of a commit. The commit's chunk is read, and none of the database's.
pub fn head_root<D: Digester>(
    alloc: Global,
    draft: &Draft<D>,
    head: &Address,
) -> Result<Address, AllocError>
    requires { (commits : Commits) × CommitsAreThere D.address (chunk_bytes draft.now.chunks.base) commits × (is_known commits head.now.0 ≡ true) }
    ensures { (commits : Commits) → CommitsAreThere D.address (chunk_bytes draft.now.chunks.base) commits → is_known commits head.now.0 ≡ true
        → IfOk result (λ root. IsKeptAt D.address (chunks_of draft.now.chunks) root.0 (root_of commits head.now.0)) }
{
    law_of_chunks();
    law_of_commits();
    law_of_standing_commits();
    law_of_databases();
    let commit = read_commit(alloc, draft, head)?;
    Ok(commit.root)
}
