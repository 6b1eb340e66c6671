//! The commit rule: what becomes of a branch where a transaction ends.

ghost use Rattle.std.specs.Prelude.{◌≡◌, ◌&&◌, Bool, IfErr, IfOk, List, OnOk, Result, not, true};
ghost use Rattle.schema_model.specs.PlainTables.{PlainDatabase};
ghost use Rattle.chunk_store.specs.Clashes.{IsReason};
ghost use Rattle.chunk_store.specs.Drafts.{Grows, chunks_of};
ghost use Rattle.chunk_store.specs.Kinds.{is_data};
ghost use Rattle.schema_merge.specs.RootMerge.{MergedDatabase, SchemaConflict, root3};
ghost use Rattle.table_root.specs.Kept.{HasKeptAt, IsKeptAt};
ghost use Rattle.plain_sessions.specs.CommitRule.{candidate, decide, is_none, judged, merged, recorded};
ghost use Rattle.plain_sessions.specs.Records.{BranchState, is_same_state};
ghost use Rattle.root_merge.specs.Deciding.{AreBoth, AreStates, IsSide, PassesAt, anew, are_unsettled, refusal, set, settled, together};
ghost use Rattle.root_merge.specs.Merging.{AreRoots};
ghost use Rattle.root_merge.specs.Settling.{AreSettledRoots};
ghost use Rattle.root_merge.specs.States.{BranchStateStands, HasBranchState, IsCandidate};

use crate::candidates::Candidate;
use crate::counting::roots_conflict;
use crate::laws::{laws_of_growth, laws_of_states};
use crate::merging::merge_roots;
use crate::settling::{Left, Settled, is_unsettled, left_in_database, left_in_record};
use chunk_store::{Draft, PutFault};
use std::alloc::{AllocError, Global};
use table_merge::MergeFault;
use tuple_codec::{Address, BranchRecord, Digester};
use violation_lists::{ListedViolation, record_violations, violations};

/// What databases come to where they are merged.
#[derive(Clone, Copy, PartialEq, Eq)]
enum Side {
    /// The database at an address, without conflicts.
    Clean(Address),
    /// Schemas that don't merge, or rows in conflict.
    Conflict,
    /// A database without conflicts that passes a limit.
    Limit,
}

/// Whether a database has neither violations nor recorded ones.
fn has_none(list: &[ListedViolation], left: Left) -> bool
    ensures { result ≡ (is_none list.now && not left.violations) }
{
    list.is_empty() && !left.violations
}

/// The database at an address with its violations recorded anew. One that has none, and has recorded none, keeps its address.
fn record_all<D: Digester>(
    alloc: Global,
    draft: &mut Draft<D>,
    database: &Address,
    settled: &mut Settled,
) -> Result<Address, PutFault>
    requires database { HasKeptAt D.address (chunks_of draft.old.chunks) database.now.0 }
    requires settled { AreSettledRoots D.address (chunks_of draft.old.chunks) settled.old }
    ensures stands { (contents : PlainDatabase) → IsKeptAt D.address (chunks_of draft.old.chunks) database.now.0 contents
        → IfOk result (λ at. IsKeptAt D.address (chunks_of draft.new.chunks) at.0 (recorded contents)) }
    ensures settled { AreSettledRoots D.address (chunks_of draft.new.chunks) settled.new }
    ensures grows { Grows is_data draft.old draft.new }
    ensures cause { IfErr result (IsReason D.address (chunks_of draft.new.chunks)) }
{
    laws_of_growth();
    laws_of_states();
    let list = violations(alloc, draft, database)?;
    let left = left_in_database(draft, database, settled)?;
    if has_none(list.as_slice(), left) {
        return Ok(*database);
    }
    record_violations(alloc, draft, database, list.as_slice())
}

/// What databases come to whose merge passes a limit.
fn over_limit<D: Digester>(
    alloc: Global,
    draft: &Draft<D>,
    base: &Address,
    ours: &Address,
    theirs: &Address,
) -> Result<Side, AllocError>
    requires { (b : PlainDatabase) × (o : PlainDatabase) × (t : PlainDatabase) × PassesAt D.address (chunks_of draft.now.chunks) base.now ours.now theirs.now b o t }
    ensures { (b o t : PlainDatabase) → PassesAt D.address (chunks_of draft.now.chunks) base.now ours.now theirs.now b o t
        → IfOk result (λ side. IsSide D.address (chunks_of draft.now.chunks) side (root3 b o t)) }
{
    let found = roots_conflict(alloc, draft, base, ours, theirs)?;
    if found {
        Ok(Side::Conflict)
    } else {
        Ok(Side::Limit)
    }
}

/// What the databases at three addresses come to.
fn merge_side<D: Digester>(
    alloc: Global,
    draft: &mut Draft<D>,
    base: &Address,
    ours: &Address,
    theirs: &Address,
) -> Result<Side, PutFault>
    requires base { HasKeptAt D.address (chunks_of draft.old.chunks) base.now.0 }
    requires ours { HasKeptAt D.address (chunks_of draft.old.chunks) ours.now.0 }
    requires theirs { HasKeptAt D.address (chunks_of draft.old.chunks) theirs.now.0 }
    ensures side { (b o t : PlainDatabase) → AreRoots D.address (chunks_of draft.old.chunks) base.now ours.now theirs.now b o t
        → IfOk result (λ side. IsSide D.address (chunks_of draft.new.chunks) side (root3 b o t)) }
    ensures grows { Grows is_data draft.old draft.new }
    ensures cause { IfErr result (IsReason D.address (chunks_of draft.new.chunks)) }
{
    laws_of_growth();
    match merge_roots(alloc, draft, base, ours, theirs) {
        Ok(merged) => {
            if merged.conflicts == 0 {
                Ok(Side::Clean(merged.root))
            } else {
                Ok(Side::Conflict)
            }
        }
        Err(MergeFault::Schema { .. }) => Ok(Side::Conflict),
        Err(MergeFault::Limit) => {
            let side = over_limit(alloc, draft, base, ours, theirs)?;
            Ok(side)
        }
        Err(MergeFault::Memory) => Err(PutFault::Memory),
        Err(MergeFault::Collision(clash)) => Err(PutFault::Collision(clash)),
    }
}

/// The record of merged databases. The working one's violations are recorded anew.
fn record_merged<D: Digester>(
    alloc: Global,
    draft: &mut Draft<D>,
    head: Address,
    working: &Address,
    staged: &Address,
    settled: &mut Settled,
) -> Result<BranchRecord, PutFault>
    requires working { HasKeptAt D.address (chunks_of draft.old.chunks) working.now.0 }
    requires staged { HasKeptAt D.address (chunks_of draft.old.chunks) staged.now.0 }
    requires settled { AreSettledRoots D.address (chunks_of draft.old.chunks) settled.old }
    ensures stands { (w s : PlainDatabase) → IsKeptAt D.address (chunks_of draft.old.chunks) working.now.0 w → IsKeptAt D.address (chunks_of draft.old.chunks) staged.now.0 s
        → IfOk result (λ made. BranchStateStands D.address (chunks_of draft.new.chunks) made (anew head.0 w s)) }
    ensures settled { AreSettledRoots D.address (chunks_of draft.new.chunks) settled.new }
    ensures grows { Grows is_data draft.old draft.new }
    ensures cause { IfErr result (IsReason D.address (chunks_of draft.new.chunks)) }
{
    laws_of_growth();
    let working = record_all(alloc, draft, working, settled)?;
    Ok(BranchRecord {
        head,
        working,
        staged: *staged,
        merging: None,
    })
}

/// What the working and the staged databases come to together.
fn both<D: Digester>(
    alloc: Global,
    draft: &mut Draft<D>,
    head: Address,
    working: &Side,
    staged: &Side,
    settled: &mut Settled,
) -> Result<Candidate, PutFault>
    requires both { (w : Result MergedDatabase SchemaConflict) × (s : Result MergedDatabase SchemaConflict) × AreBoth D.address (chunks_of draft.old.chunks) working.now staged.now w s }
    requires settled { AreSettledRoots D.address (chunks_of draft.old.chunks) settled.old }
    ensures is { (w s : Result MergedDatabase SchemaConflict) (present : BranchState) → AreBoth D.address (chunks_of draft.old.chunks) working.now staged.now w s → head.0 ≡ present.head
        → IfOk result (λ made. IsCandidate D.address (chunks_of draft.new.chunks) made (together present w s)) }
    ensures settled { OnOk result (AreSettledRoots D.address (chunks_of draft.new.chunks) settled.new) }
    ensures grows { Grows is_data draft.old draft.new }
    ensures cause { IfErr result (IsReason D.address (chunks_of draft.new.chunks)) }
{
    laws_of_growth();
    match working {
        Side::Conflict => Ok(Candidate::Refused(1213)),
        Side::Limit => match staged {
            Side::Conflict => Ok(Candidate::Refused(1213)),
            _ => Ok(Candidate::Refused(9010)),
        },
        Side::Clean(working) => match staged {
            Side::Conflict => Ok(Candidate::Refused(1213)),
            Side::Limit => Ok(Candidate::Refused(9010)),
            Side::Clean(staged) => {
                let record = record_merged(alloc, draft, head, working, staged, settled)?;
                Ok(Candidate::Record(record))
            }
        },
    }
}

/// Whether one of the three has a merge in progress, conflicts or violations.
fn any_unsettled<D: Digester>(
    draft: &Draft<D>,
    start: &BranchRecord,
    present: &BranchRecord,
    own: &BranchRecord,
    settled: &mut Settled,
) -> Result<bool, AllocError>
    requires states { (s : BranchState) × (p : BranchState) × (o : BranchState) × AreStates D.address (chunks_of draft.now.chunks) start.now present.now own.now s p o }
    requires settled { AreSettledRoots D.address (chunks_of draft.now.chunks) settled.old }
    ensures is { (s p o : BranchState) → AreStates D.address (chunks_of draft.now.chunks) start.now present.now own.now s p o
        → IfOk result (λ found. found ≡ are_unsettled s p o) }
    ensures settled { AreSettledRoots D.address (chunks_of draft.now.chunks) settled.new }
{
    let at_present = is_unsettled(draft, present, settled)?;
    if at_present {
        return Ok(true);
    }
    let at_start = is_unsettled(draft, start, settled)?;
    if at_start {
        return Ok(true);
    }
    is_unsettled(draft, own, settled)
}

/// What settled states come to.
fn merge_settled<D: Digester>(
    alloc: Global,
    draft: &mut Draft<D>,
    start: &BranchRecord,
    present: &BranchRecord,
    own: &BranchRecord,
    seen: &mut Settled,
) -> Result<Candidate, PutFault>
    requires states { (s : BranchState) × (p : BranchState) × (o : BranchState) × AreStates D.address (chunks_of draft.old.chunks) start.now present.now own.now s p o }
    requires settled { AreSettledRoots D.address (chunks_of draft.old.chunks) seen.old }
    ensures is { (s p o : BranchState) → AreStates D.address (chunks_of draft.old.chunks) start.now present.now own.now s p o
        → IfOk result (λ made. IsCandidate D.address (chunks_of draft.new.chunks) made (settled s p o)) }
    ensures settled { OnOk result (AreSettledRoots D.address (chunks_of draft.new.chunks) seen.new) }
    ensures grows { Grows is_data draft.old draft.new }
    ensures cause { IfErr result (IsReason D.address (chunks_of draft.new.chunks)) }
{
    laws_of_growth();
    let working = merge_side(alloc, draft, &start.working, &present.working, &own.working)?;
    let staged = merge_side(alloc, draft, &start.staged, &present.staged, &own.staged)?;
    both(alloc, draft, present.head, &working, &staged, seen)
}

/// What the states of a branch come to where it has moved.
fn merge_states<D: Digester>(
    alloc: Global,
    draft: &mut Draft<D>,
    start: &BranchRecord,
    present: &BranchRecord,
    own: &BranchRecord,
    settled: &mut Settled,
) -> Result<Candidate, PutFault>
    requires states { (s : BranchState) × (p : BranchState) × (o : BranchState) × AreStates D.address (chunks_of draft.old.chunks) start.now present.now own.now s p o }
    requires settled { AreSettledRoots D.address (chunks_of draft.old.chunks) settled.old }
    ensures is { (s p o : BranchState) → AreStates D.address (chunks_of draft.old.chunks) start.now present.now own.now s p o
        → IfOk result (λ made. IsCandidate D.address (chunks_of draft.new.chunks) made (merged s p o)) }
    ensures settled { OnOk result (AreSettledRoots D.address (chunks_of draft.new.chunks) settled.new) }
    ensures grows { Grows is_data draft.old draft.new }
    ensures cause { IfErr result (IsReason D.address (chunks_of draft.new.chunks)) }
{
    laws_of_growth();
    let unsettled = any_unsettled(draft, start, present, own, settled)?;
    if unsettled {
        return Ok(Candidate::Refused(1213));
    }
    merge_settled(alloc, draft, start, present, own, settled)
}

/// What a branch comes to before its conflicts and violations are judged.
fn proposed<D: Digester>(
    alloc: Global,
    draft: &mut Draft<D>,
    start: &BranchRecord,
    present: &BranchRecord,
    own: &BranchRecord,
    settled: &mut Settled,
) -> Result<Candidate, PutFault>
    requires states { (s : BranchState) × (p : BranchState) × (o : BranchState) × AreStates D.address (chunks_of draft.old.chunks) start.now present.now own.now s p o }
    requires settled { AreSettledRoots D.address (chunks_of draft.old.chunks) settled.old }
    ensures is { (s p o : BranchState) → AreStates D.address (chunks_of draft.old.chunks) start.now present.now own.now s p o
        → IfOk result (λ made. IsCandidate D.address (chunks_of draft.new.chunks) made (candidate s p o)) }
    ensures settled { OnOk result (AreSettledRoots D.address (chunks_of draft.new.chunks) settled.new) }
    ensures grows { Grows is_data draft.old draft.new }
    ensures cause { IfErr result (IsReason D.address (chunks_of draft.new.chunks)) }
{
    laws_of_growth();
    laws_of_states();
    if present == start {
        return Ok(Candidate::Record(*own));
    }
    merge_states(alloc, draft, start, present, own, settled)
}

fn refusal(conflict: bool, violation: bool, allow: bool, force: bool) -> Option<u16>
    ensures { result ≡ refusal conflict violation allow force }
{
    if conflict && !allow && !force {
        Some(9002)
    } else if violation && !force {
        Some(9003)
    } else {
        None
    }
}

/// Refuses conflicts that aren't allowed, and violations that aren't forced.
fn judged<D: Digester>(
    draft: &Draft<D>,
    decided: BranchRecord,
    allow: bool,
    force: bool,
    settled: &mut Settled,
) -> Result<Candidate, AllocError>
    requires decided { HasBranchState D.address (chunks_of draft.now.chunks) decided }
    requires settled { AreSettledRoots D.address (chunks_of draft.now.chunks) settled.old }
    ensures is { (state : BranchState) (autocommit : Bool) → BranchStateStands D.address (chunks_of draft.now.chunks) decided state
        → IfOk result (λ made. IsCandidate D.address (chunks_of draft.now.chunks) made (judged (set autocommit allow force) state)) }
    ensures settled { AreSettledRoots D.address (chunks_of draft.now.chunks) settled.new }
{
    let left = left_in_record(draft, &decided, settled)?;
    match refusal(left.conflicts, left.violations, allow, force) {
        Some(number) => Ok(Candidate::Refused(number)),
        None => Ok(Candidate::Record(decided)),
    }
}

/// What a branch's record becomes where a transaction ends and the branch hasn't moved since it began: the transaction's own, unless it has conflicts
/// that aren't allowed or violations that aren't forced (9002 and 9003). It is [`candidate`] without a draft to work in.
pub fn unmoved_candidate<D: Digester>(
    alloc: Global,
    draft: &Draft<D>,
    own: &BranchRecord,
    allow: bool,
    force: bool,
) -> Result<Candidate, AllocError>
    requires own { HasBranchState D.address (chunks_of draft.now.chunks) own.now }
    ensures is { (s p o : BranchState) (autocommit : Bool) → is_same_state p s ≡ true → BranchStateStands D.address (chunks_of draft.now.chunks) own.now o
        → IfOk result (λ made. IsCandidate D.address (chunks_of draft.now.chunks) made (decide s p o (set autocommit allow force))) }
{
    laws_of_states();
    let mut settled = Settled::new(alloc);
    judged(draft, *own, allow, force, &mut settled)
}

/// What a branch's record becomes where a transaction ends: `start` is the record on which it began, `present` the branch's as it is now, and `own`
/// the transaction's. Where the branch hasn't moved it is the transaction's own, and else both are merged.
///
/// `allow` lets conflicts be, and `force` conflicts and violations. The refusals are 1213, 9010, 9002 and 9003, the first that applies.
pub fn candidate<D: Digester>(
    alloc: Global,
    draft: &mut Draft<D>,
    start: &BranchRecord,
    present: &BranchRecord,
    own: &BranchRecord,
    allow: bool,
    force: bool,
) -> Result<Candidate, PutFault>
    requires start { HasBranchState D.address (chunks_of draft.old.chunks) start.now }
    requires present { HasBranchState D.address (chunks_of draft.old.chunks) present.now }
    requires own { HasBranchState D.address (chunks_of draft.old.chunks) own.now }
    ensures is { (s p o : BranchState) (autocommit : Bool) → AreStates D.address (chunks_of draft.old.chunks) start.now present.now own.now s p o
        → IfOk result (λ made. IsCandidate D.address (chunks_of draft.new.chunks) made (decide s p o (set autocommit allow force))) }
    ensures grows { Grows is_data draft.old draft.new }
    ensures cause { IfErr result (IsReason D.address (chunks_of draft.new.chunks)) }
{
    laws_of_growth();
    let mut settled = Settled::new(alloc);
    let proposal = proposed(alloc, draft, start, present, own, &mut settled)?;
    match proposal {
        Candidate::Refused(number) => Ok(Candidate::Refused(number)),
        Candidate::Record(decided) => {
            let made = judged(draft, decided, allow, force, &mut settled)?;
            Ok(made)
        }
    }
}
