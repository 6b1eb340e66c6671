//! What a script writes, and what the plain machine does.

ghost use Rattle.script_text.specs.Shown.{IsPrintable};
ghost use Rattle.script_run.specs.Scripts.{IsSoundScript};

use chunk_store::Sha512Cut;
use plain_run::plain_output;
use script_run::{Replayed, law_of_read_scripts, replay_script, run_script};
use script_text::{RunText, Script, print_output, print_stop, read_script};
use std::alloc::Global;
use tuple_codec::Blob;
use wire_io::NoPace;

/// The date of every commit.
const EPOCH: i64 = 0;

/// Where the order of a script's moments comes from.
#[derive(Clone, Copy)]
pub enum Order {
    OfLines,
    /// The script's order line gives it.
    Given,
}

/// What a run of a script writes, and what the plain machine writes along the order of moments that the run took: nothing where it can't go along it, and where
/// the run could not be followed to its end.
#[derive(Drop)]
pub struct Outputs {
    pub written: Blob,
    pub plain: Option<Blob>,
}

/// What a script writes, run in this order, beside the plain machine's text.
pub fn outputs_of(alloc: Global, script: &[u8], order: Order) -> anyhow::Result<Outputs> {
    match order {
        Order::OfLines => outputs_in_text_order(alloc, script),
        Order::Given => outputs_in_given_order(alloc, script),
    }
}

fn outputs_in_text_order(alloc: Global, bytes: &[u8]) -> anyhow::Result<Outputs> {
    law_of_read_scripts();
    let script = read_script(alloc, bytes, false)?;
    let again = read_script(alloc, bytes, false)?;
    let run = run_script::<Sha512Cut, NoPace>(alloc, &NoPace, script, EPOCH)?;
    outputs_of_run(alloc, &again, &run)
}

fn outputs_in_given_order(alloc: Global, bytes: &[u8]) -> anyhow::Result<Outputs> {
    law_of_read_scripts();
    let script = read_script(alloc, bytes, true)?;
    let again = read_script(alloc, bytes, true)?;
    match replay_script::<Sha512Cut, NoPace>(alloc, &NoPace, script, EPOCH)? {
        Replayed::Run(run) => outputs_of_run(alloc, &again, &run),
        Replayed::Stop(stop) => Ok(Outputs {
            written: print_stop(alloc, &stop)?,
            plain: None,
        }),
    }
}

/// A run's text, and the plain machine's along that run's order.
fn outputs_of_run(alloc: Global, script: &Script, run: &RunText) -> anyhow::Result<Outputs>
    requires sound { IsSoundScript script.now }
    requires printable { IsPrintable run.now }
{
    Ok(Outputs {
        written: print_output(alloc, run)?,
        plain: plain_output(alloc, script, run.order.as_slice(), EPOCH)?,
    })
}
