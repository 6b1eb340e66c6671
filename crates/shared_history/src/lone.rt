//! A meeting without other threads.

ghost use Rattle.std.specs.Prelude.{◌≡◌, ◌≤ℤ◌, ℕ, List, [], false, length, pos, IfErr, IfOk};
ghost use Rattle.plain_sessions.specs.Records.{opening};
ghost use Rattle.session_state.specs.Changes.{StateStands};
ghost use Rattle.shared_db.specs.Opening.{IsOpeningFault};
ghost use Rattle.shared_history.specs.Lone.{IsAlone, tells_alone};

use crate::gated::GatedDb;
use crate::meeting::Meeting;
use crate::notes::{
    Notes, after_look, after_settle, first_notes, held_after, with_call, with_hold,
};
use crate::settling::{settle_and_show, show, start_and_show};
use chunk_store::{PutFault, Segment};
use shared_db::{BranchReply, BranchStep, RecordChange, Settled, SharedDb};
use std::alloc::{AllocError, Global};
use std::marker::PhantomData;
use std::sync::Arc;
use table_root::{BranchName, Look};
use tuple_codec::Digester;

/// The shared database where one thread leads all sessions, each in its turn: the session that is seated meets it. It tells no moments.
#[derive(Drop)]
pub struct LoneDb<D: Digester> {
    pub db: SharedDb,
    held: bool,
    notes: Notes,
    digester: PhantomData<D>,
}

impl<D: Digester> LoneDb<D> {
    /// Opens a database for sessions with so many statements each, before any moment. No statement was told yet.
    pub fn open(alloc: Global, statements: &[u32], epoch: i64) -> Result<LoneDb<D>, PutFault>
        requires { pos 0 ≤ℤ epoch }
        ensures opening { IfOk result (λ lone. (names : List (List ℕ)) → length names ≡ length statements.now → StateStands D.address lone.db.parts (opening D.address epoch names)) }
        ensures numbers { IfOk result (λ lone. lone.db.parts.numbers ≡ statements.now) }
        ensures moments { IfOk result (λ lone. lone.db.parts.moments ≡ []) }
        ensures free { IfOk result (λ lone. (tells_alone lone).held ≡ false) }
        ensures ready { IfOk result (λ lone. IsAlone D.address lone lone) }
        ensures fault { IfErr result (IsOpeningFault D.address epoch) }
    {
        let gated = GatedDb::<D>::open(alloc, statements, epoch)?;
        Ok(LoneDb {
            db: gated.db,
            held: false,
            notes: first_notes(0, 0),
            digester: PhantomData,
        })
    }

    /// The statement of this number of this session comes next.
    pub fn seat(&mut self, session: u32, statement: u32)
        ensures ready { (first : _) → IsAlone D.address first self.old → IsAlone D.address self.new self.new }
        ensures tells { tells_alone self.new ≡ record (tells_alone self.old) { session = session; statement = statement } }
    {
        self.notes = Notes {
            session,
            statement,
            ..self.notes
        };
    }
}

impl<D: Digester> Meeting<D> for LoneDb<D> {
    ghost ready = { λ first now. IsAlone D.address first now };

    ghost tells = { λ lone. tells_alone lone };

    fn start(&mut self, alloc: Global, branch: &BranchName) -> Result<Look, AllocError> {
        let look = start_and_show(
            alloc,
            &mut self.db,
            self.notes.session,
            self.notes.statement,
            branch,
        );
        self.notes = after_look(self.notes, &look);
        look
    }

    fn branch_step(&mut self, step: &BranchStep) -> BranchReply {
        let reply = self
            .db
            .branch_step(self.notes.session, self.notes.statement, step);
        self.notes = with_call(self.notes);
        reply
    }

    fn look(&mut self, alloc: Global, branch: &BranchName) -> Result<Look, AllocError> {
        let look = show(alloc, &self.db, branch);
        self.notes = after_look(self.notes, &look);
        look
    }

    fn settle(
        &mut self,
        alloc: Global,
        look: &Look,
        change: RecordChange,
        sealed: Option<Arc<Segment>>,
        next: bool,
    ) -> Result<(Settled, Option<Look>), AllocError> {
        let ended = settle_and_show(
            alloc,
            &mut self.db,
            self.notes.session,
            self.notes.statement,
            look,
            change,
            sealed,
            next,
        );
        self.held = held_after(self.held, &ended);
        self.notes = after_settle(self.notes, &ended);
        ended
    }

    fn hold(&mut self) {
        self.held = true;
        self.notes = with_hold(self.notes);
    }

    fn let_go(&mut self) {
        self.held = false;
        self.notes = with_call(self.notes);
    }
}
