//! What the system tables of commits, branches and changes show to a session in a transaction.

ghost use Rattle.std.specs.Prelude.{◌≡◌, IfOk, Some};
ghost use Rattle.plain_sessions.specs.Sessions as plain;
ghost use Rattle.plain_sessions.specs.Sessions.{Transaction};
ghost use Rattle.plain_sessions.specs.SystemTables as shown;
ghost use Rattle.session_state.specs.Standing.{IsInTransaction, SessionStands};

use crate::branches::branches;
use crate::changes::{own_root, status};
use crate::log::log;
use crate::parents::commit_ancestors;
use chunk_store::law_of_chunks;
use commit_graph::law_of_standing_commits;
use plain_sql::Known;
use session_state::Session;
use std::alloc::{AllocError, Global};
use tuple_codec::Digester;

/// `dolt_log`: the head's ancestors.
pub(crate) fn shown_log<D: Digester>(
    alloc: Global,
    session: &Session<D>,
) -> Result<Known, AllocError>
    requires { IsInTransaction D.address session.now }
    ensures { (p : plain.Session) (t : Transaction) → SessionStands D.address session.now p → p.transaction ≡ Some t
        → IfOk result (λ known. known ≡ shown.log t) }
{
    law_of_chunks();
    law_of_standing_commits();
    log(alloc, &session.draft, &session.own.head)
}

/// `dolt_commit_ancestors`: the parents of each of the head's ancestors.
pub(crate) fn shown_ancestors<D: Digester>(
    alloc: Global,
    session: &Session<D>,
) -> Result<Known, AllocError>
    requires { IsInTransaction D.address session.now }
    ensures { (p : plain.Session) (t : Transaction) → SessionStands D.address session.now p → p.transaction ≡ Some t
        → IfOk result (λ known. known ≡ shown.commit_ancestors t) }
{
    law_of_chunks();
    law_of_standing_commits();
    commit_ancestors(alloc, &session.draft, &session.own.head)
}

/// `dolt_branches`: the branches as they were when the transaction began.
pub(crate) fn shown_branches<D: Digester>(
    alloc: Global,
    session: &Session<D>,
) -> Result<Known, AllocError>
    requires { IsInTransaction D.address session.now }
    ensures { (p : plain.Session) (t : Transaction) → SessionStands D.address session.now p → p.transaction ≡ Some t
        → IfOk result (λ known. known ≡ shown.branches t) }
{
    law_of_chunks();
    law_of_standing_commits();
    match &session.start {
        Some(look) => branches(alloc, &session.draft, look.heads.as_slice()),
        None => unreachable!(),
    }
}

/// `dolt_status`: the tables that aren't as the head or as staged has them.
pub(crate) fn shown_status<D: Digester>(
    alloc: Global,
    session: &Session<D>,
) -> Result<Known, AllocError>
    requires { IsInTransaction D.address session.now }
    ensures { (p : plain.Session) (t : Transaction) → SessionStands D.address session.now p → p.transaction ≡ Some t
        → IfOk result (λ known. known ≡ shown.status t) }
{
    law_of_chunks();
    law_of_standing_commits();
    let own = &session.own;
    let root = own_root(alloc, &session.draft, &own.head)?;
    status(alloc, &session.draft, &root, &own.staged, &own.working)
}
