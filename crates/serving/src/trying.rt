//! The tries of a decision: each looks at the session's branch, plans, and settles what was planned.

ghost use Rattle.std.specs.Prelude.{◌≡◌, ◌<◌, ◌≤◌, ◌≤ℤ◌, pos, true, false, Option, IfErr, IfOk, OnErr};
ghost use Rattle.std.specs.Arc.{arc_value};
ghost use Rattle.std.specs.Option.{option_map};
ghost use Rattle.chunk_store.specs.Chunks.{Lists};
ghost use Rattle.chunk_store.specs.Stores.{all_chunks};
ghost use Rattle.script_text.specs.Collisions.{IsFault};
ghost use Rattle.plain_sessions.specs.Merging.{Ending};
ghost use Rattle.plain_sessions.specs.Sessions as plain;
ghost use Rattle.shared_db.specs.Shared.{record_at};
ghost use Rattle.shared_history.specs.Meeting.{IsOn, MaySettle, room_of};
ghost use Rattle.serving.specs.Deciding.{Asks, AttemptIs, HasDecided, HasLost, HasPlanned, IfFaulty, IsIdle, IsNotLost, IsUndecided, PlansDecision, SettlesPlan, TriesFree, starts_next, tried_by, tried_settled};

use crate::deciding::{Decision, plan_by};
use chunk_store::{PutFault, law_of_chunks};
use script_text::Reply;
use session_state::{Session, law_of_states};
use shared_db::{DecisionPlan, RecordChange, Settled};
use shared_history::Meeting;
use std::alloc::{AllocError, Global};
use table_root::Look;
use tuple_codec::Digester;

/// So many tries are made before what is shared is held.
const TRIES: u32 = 3;

/// A decision as it was planned on a look.
#[derive(Drop)]
pub(crate) struct Planned {
    pub(crate) look: Look,
    pub(crate) plan: DecisionPlan,
}

/// A decision that was made: what it tells, and where it was asked for, the look at what it left.
#[derive(Drop)]
pub(crate) struct Made {
    pub(crate) reply: Reply,
    pub(crate) next: Option<Look>,
}

/// How a try ended.
#[derive(Drop)]
pub(crate) enum Tried {
    Made(Made),
    /// The branch's record had moved; nothing has changed.
    Lost,
    /// Nothing was settled, and what is held is held still.
    Faulty(PutFault),
    /// The settle failed, and nothing is held.
    Refused(PutFault),
}

/// Up to three tries, each on what it finds. None where all of them were lost.
pub(crate) fn try_free<D: Digester, T: Meeting<D>>(
    alloc: Global,
    session: &Session<D>,
    decision: Decision<'_>,
    meeting: &mut T,
    epoch: i64,
) -> Result<Option<Made>, PutFault>
    requires ready { (first : T) × T.ready first meeting.old }
    requires asks { (p : plain.Session) × (t : plain.Transaction) × (ending : Option Ending) × Asks D.address session.now decision p t ending }
    requires branch { IsOn session.now.branch (T.tells meeting.old) }
    requires known { Lists session.now.draft.chunks.base (T.tells meeting.old).seen.chunks }
    requires free { (T.tells meeting.old).held ≡ false }
    requires room { 0 < room_of (T.tells meeting.old) }
    requires epoch { pos 0 ≤ℤ epoch }
    ensures ready { (first : T) → T.ready first meeting.old → T.ready first meeting.new }
    ensures tried { IfOk result (TriesFree D.address (PlansDecision D.address epoch session.now decision.entry) session.now.branch (starts_next decision.entry) (T.tells meeting.old) (T.tells meeting.new)) }
    ensures short { OnErr result (HasLost 0 (T.tells meeting.old) (T.tells meeting.new)) }
    ensures fault { IfErr result (IsFault D.address) }
{
    for _try in 0..TRIES {
        match attempt(alloc, session, decision, meeting, epoch) {
            Tried::Made(made) => return Ok(Some(made)),
            Tried::Lost => {}
            Tried::Faulty(fault) | Tried::Refused(fault) => return Err(fault),
        }
    }
    Ok(None)
}

/// One try while what is shared is held, which can't be lost.
pub(crate) fn try_held<D: Digester, T: Meeting<D>>(
    alloc: Global,
    session: &Session<D>,
    decision: Decision<'_>,
    meeting: &mut T,
    epoch: i64,
) -> Result<Made, PutFault>
    requires ready { (first : T) × T.ready first meeting.old }
    requires asks { (p : plain.Session) × (t : plain.Transaction) × (ending : Option Ending) × Asks D.address session.now decision p t ending }
    requires branch { IsOn session.now.branch (T.tells meeting.old) }
    requires known { Lists session.now.draft.chunks.base (T.tells meeting.old).seen.chunks }
    requires free { (T.tells meeting.old).held ≡ false }
    requires room { 0 < room_of (T.tells meeting.old) }
    requires epoch { pos 0 ≤ℤ epoch }
    ensures ready { (first : T) → T.ready first meeting.old → T.ready first meeting.new }
    ensures decided { IfOk result (λ made. HasDecided D.address (PlansDecision D.address epoch session.now decision.entry) session.now.branch (starts_next decision.entry) made (T.tells meeting.old) (T.tells meeting.new)) }
    ensures undecided { OnErr result (IsUndecided (T.tells meeting.old) (T.tells meeting.new)) }
    ensures lost { (T.tells meeting.old).lost ≤ (T.tells meeting.new).lost }
    ensures fault { IfErr result (IsFault D.address) }
{
    meeting.hold();
    match attempt(alloc, session, decision, meeting, epoch) {
        Tried::Made(made) => Ok(made),
        Tried::Lost => unreachable!(),
        Tried::Faulty(fault) => {
            meeting.let_go();
            Err(fault)
        }
        Tried::Refused(fault) => Err(fault),
    }
}

/// A look, a plan, and a settle.
fn attempt<D: Digester, T: Meeting<D>>(
    alloc: Global,
    session: &Session<D>,
    decision: Decision<'_>,
    meeting: &mut T,
    epoch: i64,
) -> Tried
    requires ready { (first : T) × T.ready first meeting.old }
    requires asks { (p : plain.Session) × (t : plain.Transaction) × (ending : Option Ending) × Asks D.address session.now decision p t ending }
    requires branch { IsOn session.now.branch (T.tells meeting.old) }
    requires known { Lists session.now.draft.chunks.base (T.tells meeting.old).seen.chunks }
    requires room { 0 < room_of (T.tells meeting.old) }
    requires epoch { pos 0 ≤ℤ epoch }
    ensures ready { (first : T) → T.ready first meeting.old → T.ready first meeting.new }
    ensures tried { AttemptIs D.address (PlansDecision D.address epoch session.now decision.entry) session.now.branch (starts_next decision.entry) (T.tells meeting.old) (T.tells meeting.new) result }
    ensures kept { (T.tells meeting.old).held ≡ true → IsNotLost result }
    ensures fault { IfFaulty result (IsFault D.address) }
{
    match look_and_plan(alloc, session, decision, meeting, epoch) {
        Ok(planned) => settle_plan(alloc, decision, planned, meeting),
        Err(fault) => Tried::Faulty(fault),
    }
}

/// A look at the session's branch, and the decision planned on it.
fn look_and_plan<D: Digester, T: Meeting<D>>(
    alloc: Global,
    session: &Session<D>,
    decision: Decision<'_>,
    meeting: &mut T,
    epoch: i64,
) -> Result<Planned, PutFault>
    requires ready { (first : T) × T.ready first meeting.old }
    requires asks { (p : plain.Session) × (t : plain.Transaction) × (ending : Option Ending) × Asks D.address session.now decision p t ending }
    requires branch { IsOn session.now.branch (T.tells meeting.old) }
    requires known { Lists session.now.draft.chunks.base (T.tells meeting.old).seen.chunks }
    requires epoch { pos 0 ≤ℤ epoch }
    ensures ready { (first : T) → T.ready first meeting.old → T.ready first meeting.new }
    ensures planned { IfOk result (λ planned. HasPlanned D.address (PlansDecision D.address epoch session.now decision.entry) session.now.branch planned (T.tells meeting.old) (T.tells meeting.new)) }
    ensures idle { OnErr result (IsIdle (T.tells meeting.old) (T.tells meeting.new)) }
    ensures fault { IfErr result (IsFault D.address) }
{
    law_of_states();
    let look = meeting.look(alloc, &session.branch)?;
    let plan = plan_by(alloc, session, decision, &look, epoch)?;
    Ok(Planned { look, plan })
}

/// Settles what was planned.
fn settle_plan<D: Digester, T: Meeting<D>>(
    alloc: Global,
    decision: Decision<'_>,
    planned: Planned,
    meeting: &mut T,
) -> Tried
    requires ready { (first : T) × T.ready first meeting.old }
    requires branch { IsOn planned.look.branch (T.tells meeting.old) }
    requires given { Lists (all_chunks planned.look.store) (T.tells meeting.old).seen.chunks }
    requires stands { MaySettle D.address planned.look planned.plan.change (option_map arc_value planned.plan.sealed) }
    requires room { 0 < room_of (T.tells meeting.old) }
    ensures ready { (first : T) → T.ready first meeting.old → T.ready first meeting.new }
    ensures settled { SettlesPlan D.address planned (starts_next decision.entry) (T.tells meeting.old) (T.tells meeting.new) result }
    ensures kept { (T.tells meeting.old).held ≡ true → record_at planned.look.branch (T.tells meeting.old).seen.branches ≡ Some planned.look.rec → IsNotLost result }
    ensures fault { IfFaulty result (IsFault D.address) }
{
    law_of_chunks();
    let Planned { look, plan } = planned;
    let DecisionPlan {
        change,
        sealed,
        reply,
    } = plan;
    let next = starts_next(decision, &change);
    let ended = meeting.settle(alloc, &look, change, sealed, next);
    tried_by(ended, reply)
}

/// Whether the next transaction starts where the change is made.
fn starts_next(decision: Decision<'_>, change: &RecordChange) -> bool
    ensures { result ≡ starts_next decision.entry change.now }
{
    match change {
        RecordChange::Nothing => false,
        RecordChange::Record(_) => matches!(decision, Decision::Begin),
    }
}

/// How a settle ended the try.
fn tried_by(ended: Result<(Settled, Option<Look>), AllocError>, reply: Reply) -> Tried
    ensures { result ≡ tried_by ended reply }
{
    match ended {
        Ok(both) => {
            let (settled, next) = both;
            tried_settled(settled, next, reply)
        }
        Err(_) => Tried::Faulty(PutFault::Memory),
    }
}

fn tried_settled(settled: Settled, next: Option<Look>, reply: Reply) -> Tried
    ensures { result ≡ tried_settled settled next reply }
{
    match settled {
        Settled::Done => Tried::Made(Made { reply, next }),
        Settled::Moved(_) => Tried::Lost,
        Settled::Collision(clash) => Tried::Refused(PutFault::Collision(clash)),
        Settled::Memory => Tried::Refused(PutFault::Memory),
    }
}
