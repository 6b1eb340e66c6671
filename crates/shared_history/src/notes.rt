//! What a meeting notes of its calls.

ghost use Rattle.std.specs.Prelude.{◌≡◌};
ghost use Rattle.shared_history.specs.Noting.{after_look, after_settle, after_settled, first_notes, held_after, held_after_settled, with_call, with_hold, with_loss, with_record};

use shared_db::Settled;
use std::alloc::AllocError;
use table_root::Look;
use tuple_codec::BranchRecord;

/// What a meeting notes beside the value that is shared: whose statement it is, and what became of its calls. Each count stands still at its
/// end.
#[derive(Clone, Copy)]
pub struct Notes {
    pub session: u32,
    pub statement: u32,
    /// The record that was looked at last.
    pub looked: Option<BranchRecord>,
    pub calls: u64,
    pub lost: u64,
    pub holds: u64,
}

/// The notes before any call.
pub fn first_notes(session: u32, statement: u32) -> Notes
    ensures { result ≡ first_notes session statement }
{
    Notes {
        session,
        statement,
        looked: None,
        calls: 0,
        lost: 0,
        holds: 0,
    }
}

/// One call more.
pub fn with_call(notes: Notes) -> Notes
    ensures { result ≡ with_call notes }
{
    Notes {
        calls: notes.calls.saturating_add(1),
        ..notes
    }
}

/// One call more, in which this record was looked at.
pub fn with_record(notes: Notes, rec: BranchRecord) -> Notes
    ensures { result ≡ with_record rec notes }
{
    let notes = with_call(notes);
    Notes {
        looked: Some(rec),
        ..notes
    }
}

/// One call more, a settle that was lost.
pub fn with_loss(notes: Notes) -> Notes
    ensures { result ≡ with_loss notes }
{
    let notes = with_call(notes);
    Notes {
        lost: notes.lost.saturating_add(1),
        ..notes
    }
}

/// One call more, by which the value is held.
pub fn with_hold(notes: Notes) -> Notes
    ensures { result ≡ with_hold notes }
{
    let notes = with_call(notes);
    Notes {
        holds: notes.holds.saturating_add(1),
        ..notes
    }
}

/// The notes behind a call that shows a branch.
pub fn after_look(notes: Notes, look: &Result<Look, AllocError>) -> Notes
    ensures { result ≡ after_look look.now notes }
{
    match look {
        Ok(look) => with_record(notes, look.rec),
        Err(_) => with_call(notes),
    }
}

/// The notes behind a settle.
pub fn after_settle(notes: Notes, ended: &Result<(Settled, Option<Look>), AllocError>) -> Notes
    ensures { result ≡ after_settle ended.now notes }
{
    match ended {
        Ok(both) => after_settled(notes, &both.0),
        Err(_) => with_call(notes),
    }
}

fn after_settled(notes: Notes, settled: &Settled) -> Notes
    ensures { result ≡ after_settled settled.now notes }
{
    match settled {
        Settled::Done => with_call(notes),
        Settled::Moved(_) => with_loss(notes),
        Settled::Collision(_) => with_call(notes),
        Settled::Memory => with_call(notes),
    }
}

/// Whether the value is held behind a settle, where it was before.
pub fn held_after(held: bool, ended: &Result<(Settled, Option<Look>), AllocError>) -> bool
    ensures { result ≡ held_after ended.now held }
{
    match ended {
        Ok(both) => held_after_settled(held, &both.0),
        Err(_) => held,
    }
}

fn held_after_settled(held: bool, settled: &Settled) -> bool
    ensures { result ≡ held_after_settled settled.now held }
{
    match settled {
        Settled::Done => false,
        Settled::Moved(_) => held,
        Settled::Collision(_) => false,
        Settled::Memory => false,
    }
}
