//! The top call: words, reading, answering, writing.

ghost use Rattle.chunk_store.specs.Digests.{cut_address};
ghost use Rattle.std.specs.Prelude.{◌≡◌, Some, true};
ghost use Rattle.plain_sessions.specs.StateLimits.{is_date};
ghost use Rattle.program_run.specs.Endings.{EndsBy, IsEnding, IsRun};
ghost use Rattle.program_run.specs.Words.{spelled, task_epoch};

use crate::load::run_workload;
use crate::words::{ScriptRun, Task, USAGE, task_to_do};
use crate::writing::{write_answer, write_last};
use chunk_store::Sha512Cut;
use script_text::Status;
use std::alloc::Global;
use std::sync::Wait;
use std::thread::Threads;
use tuple_codec::Digester;
use wire_io::{Pacer, ReadStop, Sink, Source, read_up_to};

/// One byte above the longest script.
const MOST_TAKEN: usize = 16_777_217;

/// Reads a script from `input`, runs its statements, in the text's order, in the order of moments that the script gives, or each session in a thread of
/// its own, and writes to `output` what each answered, the order of the moments, and the branches that they leave. In the mode `load` it reads nothing,
/// runs the workload of `--seed`, each session in a thread of its own, and writes its lines. `words` are the command line without the program's name.
///
/// Commits bear the date of `--epoch`. The text is built whole before its first byte is written.
pub fn run<R: Threads + Wait + Sync, S: Source, K: Sink, P: Pacer>(
    rt: &R,
    alloc: Global,
    words: &[String],
    input: &mut S,
    output: &mut K,
    pacer: &P,
) -> Status
    ensures { IsEnding cut_address (spelled words.now) (record { left = S.left; faults = S.faults; steady = S.steady }) (record { held = K.held; faults = K.faults; room = K.room }) input.old input.new output.old output.new result }
{
    run_with::<Sha512Cut, R, S, K, P>(rt, alloc, words, input, output, pacer)
}

/// Does what [`run`] does, with addresses by any digester.
pub fn run_with<D: Digester, R: Threads + Wait + Sync, S: Source, K: Sink, P: Pacer>(
    rt: &R,
    alloc: Global,
    words: &[String],
    input: &mut S,
    output: &mut K,
    pacer: &P,
) -> Status
    ensures { IsEnding D.address (spelled words.now) (record { left = S.left; faults = S.faults; steady = S.steady }) (record { held = K.held; faults = K.faults; room = K.room }) input.old input.new output.old output.new result }
{
    match task_to_do(alloc, words) {
        Ok(Some(task)) => run_task::<D, R, S, K, P>(rt, alloc, task, input, output, pacer),
        Ok(None) => write_last(output, USAGE, Status::Usage),
        Err(_) => Status::Memory,
    }
}

fn run_task<D: Digester, R: Threads + Wait + Sync, S: Source, K: Sink, P: Pacer>(
    rt: &R,
    alloc: Global,
    task: Task,
    input: &mut S,
    output: &mut K,
    pacer: &P,
) -> Status
    requires { is_date (task_epoch task) ≡ true }
    ensures { EndsBy (Some task) D.address (record { left = S.left; faults = S.faults; steady = S.steady }) (record { held = K.held; faults = K.faults; room = K.room }) input.old input.new output.old output.new result }
{
    match task {
        Task::Script(asked) => run_input::<D, R, S, K, P>(rt, alloc, asked, input, output, pacer),
        Task::Load(asked) => run_workload::<D, R, K, P>(rt, alloc, pacer, asked, output),
    }
}

fn run_input<D: Digester, R: Threads + Wait + Sync, S: Source, K: Sink, P: Pacer>(
    rt: &R,
    alloc: Global,
    asked: ScriptRun,
    input: &mut S,
    output: &mut K,
    pacer: &P,
) -> Status
    requires { is_date asked.epoch ≡ true }
    ensures { IsRun D.address asked (record { left = S.left; faults = S.faults; steady = S.steady }) (record { held = K.held; faults = K.faults; room = K.room }) input.old input.new output.old output.new result }
{
    match read_up_to(alloc, input, MOST_TAKEN) {
        Ok(bytes) => write_answer::<D, R, K, P>(rt, alloc, pacer, asked, bytes.as_slice(), output),
        Err(ReadStop::Failed) => Status::Read,
        Err(ReadStop::Memory) => Status::Memory,
    }
}
