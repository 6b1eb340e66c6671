//! What a session holds.

ghost use Rattle.std.specs.Prelude.{◌≡◌, ◌≤◌, [], length, max, true, IfOk, OnOk, OnErr};
ghost use Rattle.plain_sessions.specs.Sessions.{is_changed, new_session};
ghost use Rattle.plain_sessions.specs.Sessions as plain;
ghost use Rattle.session_state.specs.Pages.{with_free};
ghost use Rattle.session_state.specs.Standing.{SessionStands};

use crate::law_of_records;
use chunk_region::PagePool;
use chunk_store::{Draft, Store};
use std::alloc::{AllocError, Global};
use table_root::{BranchName, Look};
use tuple_codec::{Address, BranchRecord, Digester, Text};

/// Where a session stands in its script, by its statement's number from 1.
#[derive(Clone, Copy, PartialEq, Eq)]
pub enum Position {
    Before(u32),
    /// Between the statement's start and its decision.
    Between(u32),
}

/// One session: its variables, and its transaction, if one is open, in a draft of its own.
#[derive(Drop)]
pub struct Session<D: Digester> {
    pub name: Text,
    /// By first appearance, from 0.
    pub number: u32,
    pub branch: BranchName,
    /// What the session saw at its transaction's start. Its store is the draft's.
    pub start: Option<Look>,
    /// The branch's record as the transaction has it; outside one it means nothing.
    pub own: BranchRecord,
    pub autocommit: bool,
    /// `@@dolt_allow_commit_conflicts`.
    pub allow: bool,
    /// `@@dolt_force_transaction_commit`.
    pub force: bool,
    pub position: Position,
    pub draft: Draft<D>,
}

impl<D: Digester> Session<D> {
    /// A session before its first statement, on the branch `main`, with autocommit. Its draft takes pages from the pool.
    pub fn new(
        alloc: Global,
        name: Text,
        number: u32,
        pool: PagePool,
    ) -> Result<Session<D>, AllocError>
        requires { length name ≤ 32 }
        ensures stands { IfOk result (λ session. SessionStands D.address session (new_session number name)) }
        ensures base { IfOk result (λ session. session.draft.chunks.base ≡ []) }
        ensures free { IfOk result (λ session. session.draft.free ≡ pool.free) }
    {
        let Some(branch) = BranchName::read(b"main") else {
            return Err(AllocError);
        };
        Ok(Session {
            name,
            number,
            branch,
            start: None,
            own: no_record(),
            autocommit: true,
            allow: false,
            force: false,
            position: Position::Before(1),
            draft: Draft::new(Store::new(alloc), pool),
        })
    }

    /// Whether the session is in a transaction whose record isn't that of its start.
    pub fn is_changed(&self) -> bool
        requires { (p : plain.Session) × SessionStands D.address self.now p }
        ensures { (p : plain.Session) → SessionStands D.address self.now p → result ≡ is_changed p }
    {
        law_of_records();
        match &self.start {
            Some(look) => look.rec != self.own,
            None => false,
        }
    }

    /// How many pages of its pool are free.
    pub fn free_pages(&self) -> u32
        ensures { result ≡ self.now.draft.free }
    {
        self.draft.free_pages()
    }

    /// Raises the free pages of its pool to `n` where they are fewer, or changes nothing.
    pub fn refill(&mut self, n: u32) -> Result<(), AllocError>
        ensures raised { OnOk result (self.new ≡ with_free (max self.old.draft.free n) self.old) }
        ensures same { OnErr result (self.new ≡ self.old) }
    {
        self.draft.refill(n)
    }
}

/// A record of a session that has none.
fn no_record() -> BranchRecord {
    let nothing = Address([0; 20]);
    BranchRecord {
        head: nothing,
        working: nothing,
        staged: nothing,
        merging: None,
    }
}
