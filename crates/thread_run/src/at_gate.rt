//! A session's meeting at the gate: its seat is at rest there, or keeps the value between two calls.

ghost use Rattle.std.specs.Prelude.{◌≡◌, false, Some};
ghost use Rattle.seat_gate.specs.History.{HasMade};
ghost use Rattle.seat_gate.specs.Told.{left_last};
ghost use Rattle.seat_gate.specs.Words.{gate_id, gate_of, seat_view};
ghost use Rattle.plain_sessions.specs.Records.{Shared};
ghost use Rattle.session_state.specs.Changes.{Parts, StateStands};
ghost use Rattle.shared_history.specs.Fitting.{seat_of};
ghost use Rattle.shared_history.specs.Noting.{first_notes};
ghost use Rattle.shared_history.specs.Spelling.{spelling_of};
ghost use Rattle.thread_run.specs.Gate.{IsFrom, gate_at, gate_tells, tells_at, view_at};
ghost use Rattle.thread_run.specs.Turns.{turns_of};

use crate::holding::{is_made, leave, put_back};
use chunk_store::Segment;
use seat_gate::{Gate, Seat, Stand};
use shared_db::{BranchReply, BranchStep, RecordChange, Settled};
use shared_history::{
    GatedDb, Meeting, Notes, after_look, after_settle, first_notes, held_after, settle_and_show,
    show, start_and_show, with_call, with_hold,
};
use std::alloc::{AllocError, Global};
use std::sync::{Arc, Wait};
use table_root::{BranchName, Look};
use tuple_codec::Digester;

/// A session's place at the gate, through which it meets what all sessions share. Whoever lets go of it has to take its seat back: a function that
/// lets go of a meeting does not compile.
pub struct AtGate<'r, 'a, R: Wait, D: Digester> {
    rt: &'r R,
    stand: Stand<'a, GatedDb<D>>,
    notes: Notes,
}

impl<'r, 'a, R: Wait, D: Digester> AtGate<'r, 'a, R, D> {
    /// The meeting of the session whose seat this is, before any of its statements.
    pub fn new(
        rt: &'r R,
        gate: &'a Gate<GatedDb<D>>,
        seat: Seat,
        session: u32,
    ) -> AtGate<'r, 'a, R, D>
        requires gate { gate_of seat ≡ gate_id gate.now }
        requires own { HasMade (seat_view seat) }
        requires numbered { (seat_view seat).number ≡ seat_of session }
        requires seen { (parts : Parts) × (shared : Shared) × (spelling_of parts ≡ left_last (seat_view seat).opened (seat_view seat).seen) × StateStands D.address parts shared }
        ensures ready { IsFrom D.address result result }
        ensures gate { gate_at result ≡ gate_id gate.entry.now }
        ensures view { view_at result ≡ seat_view seat }
        ensures tells { tells_at result ≡ gate_tells (seat_view seat) false (first_notes session 0) }
    {
        let stand = Stand::new(gate, seat);
        let notes = first_notes(session, 0);
        AtGate { rt, stand, notes }
    }

    /// Tells it the number of the session's next statement.
    pub fn come_to(&mut self, statement: u32)
        ensures ready { (first : _) → IsFrom D.address first self.old → IsFrom D.address first self.new }
        ensures view { view_at self.new ≡ view_at self.old }
        ensures tells { tells_at self.new ≡ record (tells_at self.old) { statement = statement } }
    {
        self.notes = Notes {
            statement,
            ..self.notes
        };
    }

    /// The seat, at rest, which tells the moments that were told here. A value that was kept is left as it is.
    pub fn into_seat(self) -> Seat
        requires ready { (first : _) × IsFrom D.address first self }
        ensures gate { gate_of result ≡ gate_at self.entry }
        ensures view { seat_view result ≡ view_at self.entry }
        ensures own { HasMade (seat_view result) }
        ensures made { (tells_at self.entry).made ≡ Some (turns_of (seat_view result)) }
        ensures seen { spelling_of (tells_at self.entry).seen ≡ left_last (seat_view result).opened (seat_view result).seen }
    {
        let AtGate {
            rt: _,
            stand,
            notes: _,
        } = self;
        stand.into_seat()
    }
}

impl<'r, 'a, R: Wait, D: Digester> Meeting<D> for AtGate<'r, 'a, R, D> {
    ghost ready = { λ first at. IsFrom D.address first at };

    ghost tells = { λ at. tells_at at };

    fn start(&mut self, alloc: Global, branch: &BranchName) -> Result<Look, AllocError> {
        let mut held = self.stand.take(self.rt);
        let look = start_and_show(
            alloc,
            &mut held.value().db,
            self.notes.session,
            self.notes.statement,
            branch,
        );
        let made = look.is_ok();
        leave(&mut self.stand, held, self.notes.statement, made, false);
        self.notes = after_look(self.notes, &look);
        look
    }

    fn branch_step(&mut self, step: &BranchStep) -> BranchReply {
        let mut held = self.stand.take(self.rt);
        let reply = held
            .value()
            .db
            .branch_step(self.notes.session, self.notes.statement, step);
        leave(&mut self.stand, held, self.notes.statement, true, false);
        self.notes = with_call(self.notes);
        reply
    }

    fn look(&mut self, alloc: Global, branch: &BranchName) -> Result<Look, AllocError> {
        let holds = self.stand.is_holding();
        let mut held = self.stand.take(self.rt);
        let look = show(alloc, &held.value().db, branch);
        put_back(&mut self.stand, held, holds);
        self.notes = after_look(self.notes, &look);
        look
    }

    fn settle(
        &mut self,
        alloc: Global,
        look: &Look,
        change: RecordChange,
        sealed: Option<Arc<Segment>>,
        next: bool,
    ) -> Result<(Settled, Option<Look>), AllocError> {
        let holds = self.stand.is_holding();
        let mut held = self.stand.take(self.rt);
        let ended = settle_and_show(
            alloc,
            &mut held.value().db,
            self.notes.session,
            self.notes.statement,
            look,
            change,
            sealed,
            next,
        );
        let made = is_made(&ended);
        let keeps = held_after(holds, &ended);
        leave(&mut self.stand, held, self.notes.statement, made, keeps);
        self.notes = after_settle(self.notes, &ended);
        ended
    }

    fn hold(&mut self) {
        let held = self.stand.take(self.rt);
        self.stand.keep(held);
        self.notes = with_hold(self.notes);
    }

    fn let_go(&mut self) {
        let held = self.stand.take(self.rt);
        put_back(&mut self.stand, held, false);
        self.notes = with_call(self.notes);
    }
}
