//! From the bytes of a script to the text that answers it, or to the lines of what stopped it.

ghost use Rattle.std.specs.Prelude.{◌≡◌, ◌≢◌, ◌≤ℤ◌, IfOk, None, pos, true};
ghost use Rattle.plain_sessions.specs.StateLimits.{is_date};
ghost use Rattle.script_run.specs.Scripts.{IsSoundScript};
ghost use Rattle.program_run.specs.Stops.{Comes, ComesOf};
ghost use Rattle.program_run.specs.declared.words.MomentOrder.TheVariants.{Given, OfLines, OfThreads};

use crate::words::{MomentOrder, ScriptRun};
use chunk_store::{Clash, PutFault};
use script_run::{Replayed, replay_script, run_script};
use script_text::{
    BadScript, Script, ScriptFault, one_reading, one_stop, print_output, print_stop, read_script,
};
use std::alloc::{AllocError, Global};
use std::sync::Wait;
use std::thread::Threads;
use thread_run::run_threads;
use tuple_codec::{Blob, Digester};
use wire_io::Pacer;

/// Why bytes have no answer.
#[derive(Drop)]
pub enum NoAnswer {
    Memory,
    /// A line breaks a rule of scripts.
    Bad(BadScript),
    /// The order that it gives can't be followed; the text that tells where.
    Stopped(Blob),
    /// The two chunks that a database is opened with have one address.
    Collision(Clash),
}

impl From<AllocError> for NoAnswer {
    ghost use Rattle.std.specs.Prelude.{◌≡◌};
    ghost use Rattle.program_run.specs.declared.answering.NoAnswer.TheVariants.{Memory};

    ghost from_gives = { λ _ fault. fault ≡ Memory };

    fn from(_error: AllocError) -> NoAnswer {
        NoAnswer::Memory
    }
}

impl From<ScriptFault> for NoAnswer {
    ghost use Rattle.std.specs.Prelude.{◌≡◌};
    ghost use Rattle.program_run.specs.Answers.{of_script};

    ghost from_gives = { λ fault answer. answer ≡ of_script fault };

    fn from(fault: ScriptFault) -> NoAnswer {
        match fault {
            ScriptFault::Memory => NoAnswer::Memory,
            ScriptFault::Bad(bad) => NoAnswer::Bad(bad),
        }
    }
}

impl From<PutFault> for NoAnswer {
    ghost use Rattle.std.specs.Prelude.{◌≡◌};
    ghost use Rattle.program_run.specs.Answers.{of_put};

    ghost from_gives = { λ fault answer. answer ≡ of_put fault };

    fn from(fault: PutFault) -> NoAnswer {
        match fault {
            PutFault::Memory => NoAnswer::Memory,
            PutFault::Collision(clash) => NoAnswer::Collision(clash),
        }
    }
}

/// The text that answers the script in these bytes, in the order asked. Commits bear the epoch as their date.
pub fn answer<D: Digester, R: Threads + Wait + Sync, P: Pacer>(
    rt: &R,
    alloc: Global,
    pacer: &P,
    asked: ScriptRun,
    bytes: &[u8],
) -> Result<Blob, NoAnswer>
    requires { is_date asked.epoch ≡ true }
    ensures { Comes D.address asked bytes.now result }
{
    let script = read_script(alloc, bytes, asked.order.is_given())?;
    let epoch = asked.epoch;
    match asked.order {
        MomentOrder::OfLines => answer_in_text_order::<D, P>(alloc, pacer, script, epoch),
        MomentOrder::Given => answer_in_given_order::<D, P>(alloc, pacer, script, epoch),
        MomentOrder::OfThreads => answer_in_threads::<D, R, P>(rt, alloc, pacer, script, epoch),
    }
}

fn answer_in_text_order<D: Digester, P: Pacer>(
    alloc: Global,
    pacer: &P,
    script: Script,
    epoch: i64,
) -> Result<Blob, NoAnswer>
    requires sound { IsSoundScript script }
    requires epoch { pos 0 ≤ℤ epoch }
    ensures { ComesOf D.address (record { order = OfLines; epoch = epoch }) script result }
{
    let run = run_script::<D, P>(alloc, pacer, script, epoch)?;
    one_reading();
    Ok(print_output(alloc, &run)?)
}

fn answer_in_given_order<D: Digester, P: Pacer>(
    alloc: Global,
    pacer: &P,
    script: Script,
    epoch: i64,
) -> Result<Blob, NoAnswer>
    requires sound { IsSoundScript script }
    requires ordered { script.order ≢ None }
    requires epoch { pos 0 ≤ℤ epoch }
    ensures { ComesOf D.address (record { order = Given; epoch = epoch }) script result }
{
    match replay_script::<D, P>(alloc, pacer, script, epoch)? {
        Replayed::Run(run) => {
            one_reading();
            Ok(print_output(alloc, &run)?)
        }
        Replayed::Stop(stop) => {
            one_stop();
            Err(NoAnswer::Stopped(print_stop(alloc, &stop)?))
        }
    }
}

fn answer_in_threads<D: Digester, R: Threads + Wait + Sync, P: Pacer>(
    rt: &R,
    alloc: Global,
    pacer: &P,
    script: Script,
    epoch: i64,
) -> Result<Blob, NoAnswer>
    requires sound { IsSoundScript script }
    requires epoch { pos 0 ≤ℤ epoch }
    ensures { ComesOf D.address (record { order = OfThreads; epoch = epoch }) script result }
{
    let run = run_threads::<R, D, P>(rt, alloc, pacer, script, epoch)?;
    one_reading();
    Ok(print_output(alloc, &run)?)
}
