//! A start, with pages for what comes behind it.

ghost use Rattle.std.specs.Prelude.{◌≡◌, ◌≤◌, ◌⊎◌, [], Some, max};
ghost use Rattle.chunk_store.specs.Drafts.{pages_in};
ghost use Rattle.chunk_store.specs.Stores.{all_chunks};
ghost use Rattle.plain_sessions.specs.Records.{Shared};
ghost use Rattle.plain_sessions.specs.Sessions as plain;
ghost use Rattle.plain_sessions.specs.Sessions.{taken, within};
ghost use Rattle.session_state.specs.Transactions.{IsLookOf};
ghost use Rattle.session_state.specs.Pages.{with_free};
ghost use Rattle.session_state.specs.Standing.{SessionStands};

use session_state::Session;
use session_txn::plan_begin;
use std::alloc::Global;
use table_root::Look;
use tuple_codec::Digester;

/// Opens a transaction at what the session looks at, with 16 free pages for it where there is memory for them.
pub(crate) fn start_at<D: Digester>(alloc: Global, session: &mut Session<D>, look: Look)
    requires stands { (p : plain.Session) × SessionStands D.address session.old p }
    requires look { (shared : Shared) × IsLookOf D.address look shared × (look.branch ≡ session.old.branch) }
    ensures started { (p : plain.Session) (shared : Shared) → SessionStands D.address session.old p → IsLookOf D.address look shared
        → (t : plain.Transaction) × (taken shared p ≡ Some t) × SessionStands D.address session.new (within p t) }
    ensures chunks { session.new.draft.chunks ≡ record { base = all_chunks look.store; own = [] } }
    ensures pages { pages_in session.old.draft ≤ pages_in session.new.draft }
{
    fill_up(session);
    plan_begin(alloc, session, look);
}

/// Raises the session's free pages to 16. A refusal is passed over: what the pages were for asks for memory itself.
fn fill_up<D: Digester>(session: &mut Session<D>)
    ensures { (session.new ≡ with_free (max session.old.draft.free 16) session.old) ⊎ (session.new ≡ session.old) }
{
    let _ = session.refill(16);
}
