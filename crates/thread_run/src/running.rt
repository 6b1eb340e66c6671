//! A script's sessions in threads, from the opening of the gate to its end.

ghost use Rattle.std.specs.Prelude.{◌≡◌, ◌≤ℤ◌, map, pos, All, IfErr, IfOk};
ghost use Rattle.script_text.specs.Collisions.{AllTellTruly};
ghost use Rattle.script_text.specs.Shown.{IsPrintable, IsShown};
ghost use Rattle.plain_sessions.specs.Commands.{command};
ghost use Rattle.plain_sessions.specs.Output.{IsPlainRun};
ghost use Rattle.run_laws.specs.Laws.{shown_of};
ghost use Rattle.seat_gate.specs.Words.{gate_id};
ghost use Rattle.seat_gate.specs.Working.{works_of};
ghost use Rattle.shared_db.specs.Opening.{IsOpeningFault};
ghost use Rattle.script_run.specs.Scripts.{IsSoundScript};
ghost use Rattle.thread_run.specs.Ending.{HasEnded, HaveWorked};
ghost use Rattle.thread_run.specs.Going.{HasWorked, IsAtWork};

use crate::opening::{OpenedGate, open_at_gate};
use crate::session::run_session;
use chunk_store::PutFault;
use script_run::Player;
use script_text::{Reply, RunText, Script};
use seat_gate::{Gate, Worker};
use session_state::law_of_states;
use shared_db::SharedDb;
use shared_history::GatedDb;
use std::alloc::{AllocError, Global};
use std::sync::Wait;
use std::thread;
use std::thread::Threads;
use tuple_codec::{Digester, Sequence};
use wire_io::Pacer;

/// No script has more sessions.
const MOST_SESSIONS: usize = 64;

/// A run in threads at its end: what the sessions share, and the sessions by their places, each with its replies.
#[derive(Drop)]
pub struct Ended<D: Digester> {
    pub db: SharedDb,
    pub workers: Vec<Worker<Player<D>>>,
}

/// Runs a script's sessions at once, each in a thread of its own; where no thread can be made, one after another. The run's order of moments is that
/// in which the sessions came to the gate. The dates of commits are the epoch.
pub fn run_threads<R: Threads + Wait + Sync, D: Digester, P: Pacer>(
    rt: &R,
    alloc: Global,
    pacer: &P,
    script: Script,
    epoch: i64,
) -> Result<RunText, PutFault>
    requires sound { IsSoundScript script }
    requires epoch { pos 0 ≤ℤ epoch }
    ensures plain { IfOk result (λ run. IsPlainRun command D.address epoch script run) }
    ensures truly { IfOk result (λ run. AllTellTruly D.address run.replies) }
    ensures printable { IfOk result (λ run. IsPrintable run) }
    ensures shown { IfOk result (λ run. IsShown run) }
    ensures fault { IfErr result (IsOpeningFault D.address epoch) }
{
    let ended = run_to_end::<R, D, P>(rt, alloc, pacer, &script, epoch)?;
    Ok(run_text(alloc, script, ended, epoch)?)
}

/// Runs a script's sessions as [`run_threads`] does, and gives what they came to.
pub fn run_to_end<R: Threads + Wait + Sync, D: Digester, P: Pacer>(
    rt: &R,
    alloc: Global,
    pacer: &P,
    script: &Script,
    epoch: i64,
) -> Result<Ended<D>, PutFault>
    requires sound { IsSoundScript script.now }
    requires epoch { pos 0 ≤ℤ epoch }
    ensures ended { IfOk result (λ ended. HasEnded D.address epoch script.now ended.db.parts (works_of ended.workers.items)) }
    ensures fault { IfErr result (IsOpeningFault D.address epoch) }
{
    law_of_states();
    let OpenedGate {
        gate,
        first,
        workers,
    } = open_at_gate::<D>(alloc, script, epoch)?;
    let mut workers = run_all(rt, alloc, pacer, &gate, workers, epoch);
    let gated = gate.close_all(first, workers.as_mut_slice());
    Ok(Ended {
        db: gated.db,
        workers,
    })
}

/// Each worker's session in a thread of its own, and all threads joined.
fn run_all<R: Threads + Wait + Sync, D: Digester, P: Pacer>(
    rt: &R,
    alloc: Global,
    pacer: &P,
    gate: &Gate<GatedDb<D>>,
    workers: Vec<Worker<Player<D>>>,
    epoch: i64,
) -> Vec<Worker<Player<D>>>
    requires epoch { pos 0 ≤ℤ epoch }
    requires ready { All (IsAtWork D.address epoch (gate_id gate.now)) workers.items }
    ensures { HaveWorked D.address epoch (gate_id gate.now) workers.items result.items }
{
    let mut workers = workers;
    run_each(rt, alloc, pacer, gate, workers.as_mut_slice(), epoch);
    workers
}

fn run_each<R: Threads + Wait + Sync, D: Digester, P: Pacer>(
    rt: &R,
    alloc: Global,
    pacer: &P,
    gate: &Gate<GatedDb<D>>,
    workers: &mut [Worker<Player<D>>],
    epoch: i64,
)
    requires epoch { pos 0 ≤ℤ epoch }
    requires ready { All (IsAtWork D.address epoch (gate_id gate.now)) workers.old }
    ensures { HaveWorked D.address epoch (gate_id gate.now) workers.old workers.new }
{
    let one = |_: usize, worker: &mut Worker<Player<D>>|
        requires { (pos 0 ≤ℤ epoch) × IsAtWork D.address epoch (gate_id gate.now) worker.now }
        ensures { HasWorked D.address epoch (gate_id gate.entry.now) worker.entry.now worker.exit.now }
    { run_session(rt, alloc, pacer, gate, worker, epoch) };
    thread::for_each_mut(rt, workers, MOST_SESSIONS, &one);
}

/// What the run shows.
pub fn run_text<D: Digester>(
    alloc: Global,
    script: Script,
    ended: Ended<D>,
    epoch: i64,
) -> Result<RunText, AllocError>
    requires sound { IsSoundScript script }
    requires ended { HasEnded D.address epoch script ended.db.parts (works_of ended.workers.items) }
    ensures plain { IfOk result (λ run. IsPlainRun command D.address epoch script run) }
    ensures truly { IfOk result (λ run. AllTellTruly D.address run.replies) }
    ensures printable { IfOk result (λ run. IsPrintable run) }
    ensures shown { IfOk result (λ run. IsShown run) }
    ensures along { (over : HasEnded D.address epoch script ended.db.parts (works_of ended.workers.items))
        → IfOk result (λ run. run ≡ shown_of D.address script ended.db.parts.moments over.along.shared over.along.runners) }
{
    let _ = epoch;
    let Ended { db, workers } = ended;
    let order = Vec::from_slice(alloc, db.moments())?;
    let branches = db.branch_lines(alloc)?;
    let replies = replies_of(alloc, workers)?;
    Ok(RunText {
        names: script.names,
        replies,
        order: Sequence::from_vec(order),
        branches,
    })
}

/// What each session answered.
fn replies_of<D: Digester>(
    alloc: Global,
    workers: Vec<Worker<Player<D>>>,
) -> Result<Sequence<Sequence<Reply>>, AllocError>
    ensures { IfOk result (λ lists. lists ≡ map (λ worker. worker.work.replies.items) workers.items) }
{
    let mut lists = Sequence::new(alloc);
    for worker in workers {
        let Worker { seat: _, work } = worker;
        lists.push(Sequence::from_vec(work.replies))?;
    }
    Ok(lists)
}
