//! The workload of a seed, run in threads.

ghost use Rattle.std.specs.Prelude.{◌≡◌, ◌≤ℤ◌, pos, IfErr, IfOk};
ghost use Rattle.script_text.specs.Collisions.{AllTellTruly};
ghost use Rattle.script_text.specs.Shown.{IsPrintable, IsShown};
ghost use Rattle.shared_db.specs.Opening.{IsOpeningFault};
ghost use Rattle.program_run.specs.Loading.{IsLoaded};

use crate::counting::count_rows;
use chunk_store::PutFault;
use load_laws::law_of_load;
use script_text::RunText;
use std::alloc::Global;
use std::sync::Wait;
use std::thread::Threads;
use thread_run::{run_text, run_to_end};
use tuple_codec::Digester;
use wire_io::Pacer;
use workload::load_script;

/// What the workload came to.
#[derive(Drop)]
pub struct Load {
    pub seed: u64,
    pub run: RunText,
    /// How many rows the workload's table has at the end.
    pub rows: u64,
}

/// Runs the workload of this seed, each session in a thread of its own. The dates of commits are the epoch. Where no statement is refused, the table has all of
/// its rows, whatever order the threads took.
pub fn run_load<R: Threads + Wait + Sync, D: Digester, P: Pacer>(
    rt: &R,
    alloc: Global,
    pacer: &P,
    seed: u64,
    epoch: i64,
) -> Result<Load, PutFault>
    requires epoch { pos 0 ≤ℤ epoch }
    ensures seed { IfOk result (λ load. load.seed ≡ seed) }
    ensures loaded { IfOk result (λ load. IsLoaded D.address seed epoch load.run load.rows) }
    ensures truly { IfOk result (λ load. AllTellTruly D.address load.run.replies) }
    ensures printable { IfOk result (λ load. IsPrintable load.run) }
    ensures shown { IfOk result (λ load. IsShown load.run) }
    ensures fault { IfErr result (IsOpeningFault D.address epoch) }
{
    let script = load_script(alloc, seed)?;
    let ended = run_to_end::<R, D, P>(rt, alloc, pacer, &script, epoch)?;
    let rows = count_rows::<D>(alloc, &ended.db)?;
    law_of_load();
    let run = run_text(alloc, script, ended, epoch)?;
    Ok(Load { seed, run, rows })
}
