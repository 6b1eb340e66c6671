//! The shared database and its calls.

ghost use Rattle.std.specs.Prelude.{◌≡◌, ◌≢◌, ◌<◌, ◌≤◌, ◌≤ℤ◌, ◌+◌, ◌*◌, ℕ, List, [], true, pos, is_some, length, map, set, slice_get, sum, Option, None, Some, IfOk, IfErr};
ghost use Rattle.std.specs.Arc.{arc_value};
ghost use Rattle.std.specs.Option.{option_map, option_map_or};
ghost use Rattle.chunk_store.specs.Chunks.{IsSingle, chunk_bytes};
ghost use Rattle.chunk_store.specs.Clashes.{Differ, IsClash};
ghost use Rattle.chunk_store.specs.Stores.{AreFew, all_chunks, joined};
ghost use Rattle.plain_sessions.specs.Branching.{checkout_step, create_branch, delete_branch, point_in, resolved};
ghost use Rattle.plain_sessions.specs.Records.{Shared, opening};
ghost use Rattle.plain_sessions.specs.Sessions.{Session, heads_in};
ghost use Rattle.schema_model.specs.Limits.{most_branches};
ghost use Rattle.session_state.specs.Changes.{StateStands, lines_rise};
ghost use Rattle.session_state.specs.Laws.{head_in};
ghost use Rattle.shared_db.specs.Opening.{IsOpeningFault};
ghost use Rattle.shared_db.specs.Settling.{StateGoesOn};
ghost use Rattle.shared_db.specs.Shared.{AreAppended, IfCollided, IfMoved, IsSettled, KeepsRoom, KeepsSegments, noted, record_at};
ghost use Rattle.shared_db.specs.Stepping.{HasState, IsCleanAt, IsPlaced, IsPlainStep, IsStepped, KeepsRest, new_asked, places_after, plain_step};
ghost use Rattle.shared_db.specs.declared.changes.BranchReply.TheVariants as answer;
ghost use Rattle.shared_db.specs.declared.changes.Settled.TheVariants as settled;
ghost use Rattle.sql_procedures.specs.declared.requests.CheckoutRequest.TheVariants as checkout;

use crate::branches::{
    Member, NamedBranch, all_on_main, branch_lines, change_record, heads_of, main_alone, record_of,
};
use crate::changes::{BranchReply, BranchStep, Point, RecordChange, Settled};
use crate::laws::law_of_settles;
use crate::opening::{Opened, all_moments, open_store};
use crate::segments::append_sealed;
use crate::steps::{clean_at, commit_at, is_there, make_branch, move_to, place_in, remove_branch};
use chunk_store::{PutFault, Segment, Store};
use script_text::{BranchLine, Moment};
use session_state::law_of_states;
use std::alloc::{AllocError, Global};
use std::marker::Model;
use std::sync::Arc;
use table_root::{BranchName, Look};
use tuple_codec::{Address, BranchRecord, Digester, Sequence};

/// The shared state as values; the chunks in which it stands are the store's. A contract sees its parts, how its chunks lie in
/// segments, and for how many moments, branches and segments more it has room.
#[derive(Drop)]
pub struct SharedDb {
    /// By the bytes of their names.
    branches: Vec<NamedBranch>,
    members: Vec<Member>,
    moments: Vec<Moment>,
    store: Store,
    /// Whether the store has few segments: memory was found to join those that came in last.
    is_tidy: bool,
}

impl Model for SharedDb {
    ghost use Rattle.std.specs.Prelude.{◌≡◌, ◌-◌, ◌≤◌, true, vec_len};
    ghost use Rattle.std.specs.Vec.{vec_capacity};
    ghost use Rattle.chunk_store.specs.Stores.{AreFew, all_chunks};
    ghost use Rattle.schema_model.specs.Limits.{most_branches};
    ghost use Rattle.session_state.specs.Changes.{lines_rise};
    ghost use Rattle.shared_db.specs.Members.{lines_of, numbers_of, places_of};
    ghost use Rattle.shared_db.specs.Shared.{Db};

    ghost Value = { Db };

    ghost view = { λ d. record {
      parts = record { branches = lines_of d.branches.items; places = places_of d.members.items; numbers = numbers_of d.members.items; moments = d.moments.items; chunks = all_chunks d.store };
      segments = d.store.segments;
      is_tidy = d.is_tidy;
      moments_room = vec_capacity d.moments - vec_len d.moments;
      branches_room = vec_capacity d.branches - vec_len d.branches;
      segments_room = d.store.room;
    } };

    ghost invariant = { λ d. (lines_rise (lines_of d.branches.items) ≡ true) × (most_branches ≤ vec_capacity d.branches) × (d.is_tidy ≡ true → AreFew d.store.segments) };
}

impl SharedDb {
    /// Opens a database for sessions with so many statements each: the branch `main` at the first commit, and all sessions on it. Where its
    /// two chunks have one address, the empty database is the one held.
    pub fn open<D: Digester>(
        alloc: Global,
        statements: &[u32],
        epoch: i64,
    ) -> Result<SharedDb, PutFault>
        requires { pos 0 ≤ℤ epoch }
        ensures opening { IfOk result (λ db. (names : List (List ℕ)) → length names ≡ length statements.now → StateStands D.address db.parts (opening D.address epoch names)) }
        ensures moments { IfOk result (λ db. db.parts.moments ≡ []) }
        ensures numbers { IfOk result (λ db. db.parts.numbers ≡ statements.now) }
        ensures room { IfOk result (λ db. (2 * sum statements.now ≤ db.moments_room) × (2 * sum statements.now ≤ db.segments_room)) }
        ensures branches { IfOk result (λ db. most_branches ≤ db.branches_room + length db.parts.branches) }
        ensures tidy { IfOk result (λ db. db.is_tidy ≡ true) }
        ensures fault { IfErr result (IsOpeningFault D.address epoch) }
    {
        let Some(room) = all_moments(statements) else {
            return Err(PutFault::Memory);
        };
        law_of_states();
        let Opened { mut store, rec } = open_store::<D>(alloc, epoch)?;
        store.reserve(room)?;
        Ok(SharedDb {
            branches: main_alone(alloc, rec)?,
            members: all_on_main(alloc, statements)?,
            moments: Vec::with_capacity(alloc, room as usize)?,
            store,
            is_tidy: true,
        })
    }

    /// A look at a branch that is there.
    pub fn look(&self, alloc: Global, branch: &BranchName) -> Result<Look, AllocError>
        requires { record_at branch.now self.now.parts.branches ≢ None }
        ensures branch { IfOk result (λ look. look.branch ≡ branch.now) }
        ensures there { IfOk result (λ look. record_at branch.now self.now.parts.branches ≡ Some look.rec) }
        ensures heads { IfOk result (λ look. look.heads ≡ map head_in self.now.parts.branches) }
        ensures chunks { IfOk result (λ look. all_chunks look.store ≡ self.now.parts.chunks) }
        ensures segments { IfOk result (λ look. look.store.segments ≡ self.now.segments) }
    {
        let Some(rec) = record_of(self.branches.as_slice(), branch) else {
            unreachable!()
        };
        Ok(Look {
            branch: *branch,
            rec,
            heads: heads_of(alloc, self.branches.as_slice())?,
            store: self.store.share()?,
        })
    }

    /// What every shared database has, for proofs: chunks of one address have the same bytes, and the segments have these chunks and are few, but
    /// where memory was wanting to join them. It does nothing.
    pub fn tell(&self)
        ensures single { IsSingle self.now.parts.chunks }
        ensures chunks { joined self.now.segments ≡ self.now.parts.chunks }
        ensures few { self.now.is_tidy ≡ true → AreFew self.now.segments }
    {
        self.store.tell();
    }

    /// The moments so far, in their order.
    pub fn moments(&self) -> &[Moment]
        ensures { result.now ≡ self.now.parts.moments }
    {
        self.moments.as_slice()
    }

    /// Each branch's name and record, by the bytes of the names.
    pub fn branch_lines(&self, alloc: Global) -> Result<Sequence<BranchLine>, AllocError>
        ensures { IfOk result (λ lines. lines ≡ self.now.parts.branches) }
    {
        branch_lines(alloc, self.branches.as_slice())
    }

    /// Makes the moment of a start; nothing else changes.
    pub fn start(&mut self, session: u32, statement: u32)
        requires { 0 < self.old.moments_room }
        ensures parts { self.new.parts ≡ noted session statement self.old.parts }
        ensures room { KeepsRoom 0 self.old self.new }
        ensures segments { KeepsSegments self.old self.new }
    {
        self.note(session, statement);
    }

    /// Settles a decision that was planned on a look, where the branch's record is still the one looked at. It needs no memory but to hold
    /// a collision: where memory is wanting to join the store's last segments, they stay as they are until the next segment comes in.
    pub fn settle(
        &mut self,
        session: u32,
        statement: u32,
        look: &Look,
        change: RecordChange,
        sealed: Option<Arc<Segment>>,
    ) -> Settled
        requires moments { 0 < self.old.moments_room }
        requires segments { 0 < self.old.segments_room }
        requires there { record_at look.now.branch self.old.parts.branches ≢ None }
        ensures done { result ≡ settled.Done → IsSettled session statement look.now.branch change (option_map arc_value sealed) self.old.parts self.new.parts }
        ensures appended { result ≡ settled.Done → AreAppended (option_map arc_value sealed) self.old.is_tidy self.old.segments self.new.is_tidy self.new.segments }
        ensures stands { result ≡ settled.Done → StateGoesOn look.now change (option_map_or arc_value sealed []) self.old.parts self.new.parts }
        ensures looked { result ≡ settled.Done → record_at look.now.branch self.old.parts.branches ≡ Some look.now.rec }
        ensures moved { IfMoved result (λ rec. (record_at look.now.branch self.old.parts.branches ≡ Some rec) × (rec ≢ look.now.rec)) }
        ensures collision { IfCollided result (IsClash (chunk_bytes self.old.parts.chunks) (chunk_bytes (option_map_or arc_value sealed []))) }
        ensures memory { result ≡ settled.Memory → Differ (chunk_bytes self.old.parts.chunks) (chunk_bytes (option_map_or arc_value sealed [])) }
        ensures same { result ≢ settled.Done → self.new.parts ≡ self.old.parts }
        ensures segments { result ≢ settled.Done → KeepsSegments self.old self.new }
        ensures kept { result ≢ settled.Done → (self.old.moments_room ≤ self.new.moments_room) × (self.old.segments_room ≤ self.new.segments_room) }
        ensures room { KeepsRoom 1 self.old self.new }
    {
        let Some(found) = record_of(self.branches.as_slice(), &look.branch) else {
            unreachable!()
        };
        if found != look.rec {
            return Settled::Moved(found);
        }
        match append_sealed(&mut self.store, self.is_tidy, sealed) {
            Err(PutFault::Collision(clash)) => return Settled::Collision(clash),
            Err(PutFault::Memory) => return Settled::Memory,
            Ok(is_tidy) => self.is_tidy = is_tidy,
        }
        change_record(&mut self.branches, &look.branch, change);
        self.note(session, statement);
        law_of_settles();
        self.tell();
        Settled::Done
    }

    /// Makes a step on the list of branches, and its moment, whether the step was done or not. It takes no memory.
    pub fn branch_step(&mut self, session: u32, statement: u32, step: &BranchStep) -> BranchReply
        requires moments { 0 < self.old.moments_room }
        requires session { slice_get self.old.parts.places session ≢ None }
        requires state { HasState self.old.parts }
        ensures plain { IsPlainStep session (λ shared p. plain_step shared p step.now) result self.old.parts self.new.parts }
        ensures stepped { IsStepped session statement step.now result self.old.parts self.new.parts }
        ensures room { KeepsRoom 0 self.old self.new }
        ensures segments { KeepsSegments self.old self.new }
    {
        let reply = self.step(session, step);
        self.note(session, statement);
        reply
    }

    /// The step alone.
    fn step(&mut self, session: u32, step: &BranchStep) -> BranchReply
        requires session { slice_get self.old.parts.places session ≢ None }
        requires state { HasState self.old.parts }
        ensures plain { IsPlainStep session (λ shared p. plain_step shared p step.now) result self.old.parts self.new.parts }
        ensures places { result ≡ answer.Done → self.new.parts.places ≡ places_after session step.now self.old.parts.places }
        ensures same { result ≢ answer.Done → self.new.parts ≡ self.old.parts }
        ensures rest { KeepsRest self.old self.new }
    {
        match step {
            BranchStep::Create(name, point) => self.create(session, name, point),
            BranchStep::Delete(name) => self.delete(name),
            BranchStep::Checkout(name) => self.check_out(session, name),
            BranchStep::CheckoutNew(name, point) => self.check_out_new(session, name, point),
        }
    }

    /// Makes a branch at the point.
    fn create(&mut self, session: u32, name: &BranchName, point: &Point) -> BranchReply
        requires session { slice_get self.old.parts.places session ≢ None }
        requires state { HasState self.old.parts }
        ensures plain { IsPlainStep session (λ shared p. create_branch shared p (new_asked name.now point.now)) result self.old.parts self.new.parts }
        ensures there { result ≡ answer.Done → is_some (record_at name.now self.new.parts.branches) ≡ true }
        ensures places { self.new.parts.places ≡ self.old.parts.places }
        ensures same { result ≢ answer.Done → self.new.parts ≡ self.old.parts }
        ensures rest { KeepsRest self.old self.new }
    {
        match self.clean_at_point(session, point) {
            Some(rec) => make_branch(&mut self.branches, name, rec),
            None => BranchReply::NoSuch,
        }
    }

    /// The record of a branch made at the point, where there is such a point.
    fn clean_at_point(&self, session: u32, point: &Point) -> Option<BranchRecord>
        requires session { slice_get self.now.parts.places session ≢ None }
        requires state { HasState self.now.parts }
        ensures { (address : List ℕ → List ℕ) (shared : Shared) (p : Session) (name : List ℕ) → StateStands address self.now.parts shared → IsPlaced session p shared
            → IsCleanAt address (chunk_bytes self.now.parts.chunks) shared.commits (point_in shared p (new_asked name point.now)) result }
    {
        let commit = self.commit_at_point(session, point)?;
        Some(clean_at(&self.store, commit))
    }

    /// The commit of the point, where there is one.
    fn commit_at_point(&self, session: u32, point: &Point) -> Option<Address>
        requires { slice_get self.now.parts.places session ≢ None }
        ensures { (address : List ℕ → List ℕ) (shared : Shared) (p : Session) (name : List ℕ) → StateStands address self.now.parts shared → IsPlaced session p shared
            → option_map (λ k. k.0) result ≡ point_in shared p (new_asked name point.now) }
    {
        match point {
            Point::Own => self.commit_named(&place_in(self.members.as_slice(), session)),
            Point::Named(name) => self.commit_named(name),
        }
    }

    /// The commit that the name tells.
    fn commit_named(&self, name: &BranchName) -> Option<Address>
        ensures { (address : List ℕ → List ℕ) (shared : Shared) → StateStands address self.now.parts shared
            → option_map (λ k. k.0) result ≡ resolved (heads_in shared.branches) shared.commits name.now }
    {
        commit_at(self.branches.as_slice(), &self.store, name)
    }

    /// Removes a branch.
    fn delete(&mut self, name: &BranchName) -> BranchReply
        ensures plain { (session : ℕ) → IsPlainStep session (λ shared p. delete_branch shared name.now) result self.old.parts self.new.parts }
        ensures places { self.new.parts.places ≡ self.old.parts.places }
        ensures same { result ≢ answer.Done → self.new.parts ≡ self.old.parts }
        ensures rest { KeepsRest self.old self.new }
    {
        remove_branch(&mut self.branches, self.members.as_slice(), name)
    }

    /// Sets the session on a branch that is there.
    fn check_out(&mut self, session: u32, name: &BranchName) -> BranchReply
        requires session { slice_get self.old.parts.places session ≢ None }
        ensures plain { IsPlainStep session (λ shared p. checkout_step shared p (checkout.Existing name.now)) result self.old.parts self.new.parts }
        ensures places { result ≡ answer.Done → self.new.parts.places ≡ set self.old.parts.places session name.now }
        ensures same { result ≢ answer.Done → self.new.parts ≡ self.old.parts }
        ensures rest { KeepsRest self.old self.new }
    {
        if !is_there(self.branches.as_slice(), name) {
            return BranchReply::NoSuch;
        }
        move_to(&mut self.members, session, name);
        BranchReply::Done
    }

    /// Makes a branch and sets the session on it.
    fn check_out_new(&mut self, session: u32, name: &BranchName, point: &Point) -> BranchReply
        requires session { slice_get self.old.parts.places session ≢ None }
        requires state { HasState self.old.parts }
        ensures plain { IsPlainStep session (λ shared p. checkout_step shared p (checkout.New (new_asked name.now point.now))) result self.old.parts self.new.parts }
        ensures places { result ≡ answer.Done → self.new.parts.places ≡ set self.old.parts.places session name.now }
        ensures same { result ≢ answer.Done → self.new.parts ≡ self.old.parts }
        ensures rest { KeepsRest self.old self.new }
    {
        let reply = self.create(session, name, point);
        if reply == BranchReply::Done {
            move_to(&mut self.members, session, name);
        }
        reply
    }

    /// Adds a moment to the order, in room that is there.
    fn note(&mut self, session: u32, statement: u32)
        requires { 0 < self.old.moments_room }
        ensures parts { self.new.parts ≡ noted session statement self.old.parts }
        ensures room { self.old.moments_room ≤ self.new.moments_room + 1 }
        ensures segments_room { self.new.segments_room ≡ self.old.segments_room }
        ensures segments { KeepsSegments self.old self.new }
    {
        self.moments.push_reserved(Moment { session, statement });
    }
}
