//! Starts and decisions: what a session plans for the state that sessions share.

ghost use Rattle.std.specs.Prelude.{◌≡◌, ◌≤◌, [], Some};
ghost use Rattle.chunk_store.specs.Drafts.{pages_in};
ghost use Rattle.chunk_store.specs.Stores.{all_chunks};
ghost use Rattle.plain_sessions.specs.Records.{Shared};
ghost use Rattle.plain_sessions.specs.Sessions as plain;
ghost use Rattle.plain_sessions.specs.Sessions.{taken, within};
ghost use Rattle.session_state.specs.Transactions.{IsLookOf};
ghost use Rattle.session_state.specs.Standing.{SessionStands};
ghost use Rattle.session_txn.specs.Planning.{IsFinal, IsFinished};

use chunk_store::Store;
use script_text::Reply;
use session_state::{Session, law_of_transactions};
use shared_db::{DecisionPlan, Settled};
use std::alloc::Global;
use table_root::Look;
use tuple_codec::Digester;

/// Opens a transaction at what the session looks at; one that was open before is given up. The draft is over the look's store from now on.
pub fn plan_begin<D: Digester>(alloc: Global, session: &mut Session<D>, look: Look)
    requires stands { (p : plain.Session) × SessionStands D.address session.old p }
    requires look { (shared : Shared) × IsLookOf D.address look shared × (look.branch ≡ session.old.branch) }
    ensures started { (p : plain.Session) (shared : Shared) → SessionStands D.address session.old p → IsLookOf D.address look shared
        → (t : plain.Transaction) × (taken shared p ≡ Some t) × SessionStands D.address session.new (within p t) }
    ensures chunks { session.new.draft.chunks ≡ record { base = all_chunks look.store; own = [] } }
    ensures pages { pages_in session.old.draft ≤ pages_in session.new.draft }
{
    law_of_transactions();
    let Look {
        branch,
        rec,
        heads,
        store,
    } = look;
    session.draft.restart(store);
    session.own = rec;
    session.start = Some(Look {
        branch,
        rec,
        heads,
        store: Store::new(alloc),
    });
}

/// Ends a decision as it was settled: the transaction is over where it was done, and stays as it was where it wasn't.
pub fn finish<D: Digester>(session: &mut Session<D>, plan: DecisionPlan, settled: Settled) -> Reply
    requires { IsFinal settled }
    ensures finished { IsFinished D.address session.old session.new plan settled result }
    ensures pages { pages_in session.old.draft ≤ pages_in session.new.draft }
{
    match settled {
        Settled::Done => {
            session.start = None;
            plan.reply
        }
        Settled::Collision(clash) => Reply::Collided(clash),
        Settled::Moved(_) | Settled::Memory => Reply::Refused(1),
    }
}
