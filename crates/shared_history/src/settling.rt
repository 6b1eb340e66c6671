//! The shared database's calls with the looks that go with them, as each meeting makes them.

ghost use Rattle.std.specs.Prelude.{◌≡◌, ◌≢◌, ◌<◌, true, [], None, map, IfErr, IfOk, OnErr, OnOk};
ghost use Rattle.std.specs.Arc.{arc_value};
ghost use Rattle.std.specs.Option.{option_map, option_map_or};
ghost use Rattle.chunk_store.specs.Chunks.{chunk_bytes};
ghost use Rattle.chunk_store.specs.Clashes.{IsCause};
ghost use Rattle.chunk_store.specs.Stores.{all_chunks};
ghost use Rattle.shared_db.specs.Shared.{AreWith, KeepsRoom, noted, record_at};
ghost use Rattle.shared_history.specs.Meeting.{IsLookAt};
ghost use Rattle.shared_history.specs.Showing.{Foresees, IsAhead, SettledWith, head_after, record_after, shown_by, with_head};

use chunk_store::{PutFault, Segment, Store};
use shared_db::{RecordChange, Settled, SharedDb};
use std::alloc::{AllocError, Global};
use std::sync::Arc;
use table_root::{BranchHead, BranchName, HeadList, Heads, Look};
use tuple_codec::{Address, BranchRecord};

/// A look at a branch that is there.
pub fn show(alloc: Global, db: &SharedDb, branch: &BranchName) -> Result<Look, AllocError>
    requires { record_at branch.now db.now.parts.branches ≢ None }
    ensures { IfOk result (IsLookAt db.now.parts branch.now) }
{
    db.look(alloc, branch)
}

/// Makes the moment of a start, and shows the branch as it was before. The look's memory is taken first.
pub fn start_and_show(
    alloc: Global,
    db: &mut SharedDb,
    session: u32,
    statement: u32,
    branch: &BranchName,
) -> Result<Look, AllocError>
    requires moments { 0 < db.old.moments_room }
    requires there { record_at branch.now db.old.parts.branches ≢ None }
    ensures shown { IfOk result (IsLookAt db.old.parts branch.now) }
    ensures started { OnOk result (db.new.parts ≡ noted session statement db.old.parts) }
    ensures room { OnOk result (KeepsRoom 0 db.old db.new) }
    ensures same { OnErr result (db.new ≡ db.old) }
{
    let look = show(alloc, db, branch)?;
    db.start(session, statement);
    Ok(look)
}

/// Settles a decision, as by [`SharedDb::settle`]. With `next` a decision that is made shows the branch as it leaves it; memory for that look is taken
/// before, and where it is wanting nothing is done.
pub fn settle_and_show(
    alloc: Global,
    db: &mut SharedDb,
    session: u32,
    statement: u32,
    look: &Look,
    change: RecordChange,
    sealed: Option<Arc<Segment>>,
    next: bool,
) -> Result<(Settled, Option<Look>), AllocError>
    requires moments { 0 < db.old.moments_room }
    requires segments { 0 < db.old.segments_room }
    requires there { record_at look.now.branch db.old.parts.branches ≢ None }
    ensures settled { IfOk result (SettledWith session statement look.now change (option_map arc_value sealed) next db.old db.new) }
    ensures room { OnOk result (KeepsRoom 1 db.old db.new) }
    ensures short { OnErr result (next ≡ true) }
    ensures same { OnErr result (db.new ≡ db.old) }
{
    let ahead = show_next(alloc, db, &look.branch, change, &sealed, next)?;
    let settled = db.settle(session, statement, look, change, sealed);
    let shown = shown_by(&settled, ahead);
    Ok((settled, shown))
}

/// What a settle that is done shows.
fn shown_by(settled: &Settled, ahead: Option<Look>) -> Option<Look>
    ensures { result ≡ shown_by settled.now ahead }
{
    match settled {
        Settled::Done => ahead,
        Settled::Moved(_) => None,
        Settled::Collision(_) => None,
        Settled::Memory => None,
    }
}

/// The look at a branch once the change is made, where that is asked for. Where what is sealed clashes with what is there, the change won't be made.
fn show_next(
    alloc: Global,
    db: &SharedDb,
    branch: &BranchName,
    change: RecordChange,
    sealed: &Option<Arc<Segment>>,
    next: bool,
) -> Result<Option<Look>, AllocError>
    requires { record_at branch.now db.now.parts.branches ≢ None }
    ensures ahead { IfOk result (IsAhead next db.now.parts branch.now change (option_map arc_value sealed.now)) }
    ensures short { OnErr result (next ≡ true) }
{
    if !next {
        return Ok(None);
    }
    match look_ahead(alloc, db, branch, change, sealed) {
        Ok(look) => Ok(Some(look)),
        Err(PutFault::Memory) => Err(AllocError),
        Err(PutFault::Collision(_)) => Ok(None),
    }
}

/// The look at a branch once the change is made and the chunks sealed for it are in.
fn look_ahead(
    alloc: Global,
    db: &SharedDb,
    branch: &BranchName,
    change: RecordChange,
    sealed: &Option<Arc<Segment>>,
) -> Result<Look, PutFault>
    requires { record_at branch.now db.now.parts.branches ≢ None }
    ensures look { IfOk result (Foresees db.now.parts branch.now change (option_map arc_value sealed.now)) }
    ensures fault { IfErr result (IsCause (chunk_bytes db.now.parts.chunks) (chunk_bytes (option_map_or arc_value sealed.now []))) }
{
    let seen = show(alloc, db, branch)?;
    let heads = heads_after(alloc, &seen.heads, branch, change)?;
    let mut store = seen.store;
    append_some(&mut store, sealed)?;
    store.tell();
    Ok(Look {
        branch: seen.branch,
        rec: record_after(seen.rec, change),
        heads,
        store,
    })
}

/// Appends the segment, where there is one.
fn append_some(store: &mut Store, sealed: &Option<Arc<Segment>>) -> Result<(), PutFault>
    ensures chunks { OnOk result (AreWith (all_chunks store.old) (option_map arc_value sealed.now) (all_chunks store.new)) }
    ensures fault { IfErr result (IsCause (chunk_bytes (all_chunks store.old)) (chunk_bytes (option_map_or arc_value sealed.now []))) }
{
    match sealed {
        Some(segment) => store.append(Arc::try_clone(segment)?),
        None => Ok(()),
    }
}

/// The heads once the change of this branch is made.
fn heads_after(
    alloc: Global,
    heads: &Heads,
    branch: &BranchName,
    change: RecordChange,
) -> Result<Heads, AllocError>
    ensures { IfOk result (λ new. new ≡ map (head_after branch.now change) heads.now) }
{
    let heads = heads.as_slice();
    let mut new = HeadList::with_capacity(alloc, heads.len())?;
    for seen in heads {
        new.push(head_after(*seen, branch, change))?;
    }
    Ok(Heads::from_list(new))
}

/// The head once the change of this branch is made.
fn head_after(seen: BranchHead, branch: &BranchName, change: RecordChange) -> BranchHead
    ensures { result ≡ head_after branch.now change seen }
{
    match change {
        RecordChange::Nothing => seen,
        RecordChange::Record(rec) => with_head(seen, branch, rec.head),
    }
}

/// The head, with another commit where its branch has this name.
fn with_head(seen: BranchHead, branch: &BranchName, head: Address) -> BranchHead
    ensures { result ≡ with_head branch.now head seen }
{
    if seen.branch == *branch {
        BranchHead {
            branch: seen.branch,
            head,
        }
    } else {
        seen
    }
}

/// The record once the change is made.
fn record_after(seen: BranchRecord, change: RecordChange) -> BranchRecord
    ensures { result ≡ record_after change seen }
{
    match change {
        RecordChange::Nothing => seen,
        RecordChange::Record(rec) => rec,
    }
}
