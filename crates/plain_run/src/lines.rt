//! The plain machine in the order of a script's lines.

ghost use Rattle.std.specs.Prelude.{◌≤ℤ◌, IfErr, IfOk, pos};
ghost use Rattle.chunk_store.specs.Digests.{cut_address};
ghost use Rattle.script_text.specs.Collisions.{IsFault};
ghost use Rattle.script_run.specs.Scripts.{IsSoundScript};
ghost use Rattle.plain_run.specs.Following.{TellsInTextOrder};

use crate::shortages::find_shortage;
use chunk_store::{PutFault, Sha512Cut};
use script_run::run_script;
use script_text::{Script, print_output};
use std::alloc::Global;
use tuple_codec::Blob;
use wire_io::NoPace;

/// The text of the plain machine's run of a script whose statements it runs one after another, in the order of their lines, with nothing refused for want of
/// memory or for a collision. The order that the script itself may give isn't read. Addresses are those of [`Sha512Cut`], and commits bear the epoch as their date.
///
/// A statement that finds no memory, or two byte strings of one address, is answered so by the real sessions, and the machine's text isn't known then: the answer
/// is that fault.
pub fn plain_output_in_text_order(
    alloc: Global,
    script: Script,
    epoch: i64,
) -> Result<Blob, PutFault>
    requires sound { IsSoundScript script }
    requires epoch { pos 0 ≤ℤ epoch }
    ensures told { IfOk result (TellsInTextOrder cut_address epoch script) }
    ensures fault { IfErr result (IsFault cut_address) }
{
    let run = run_script::<Sha512Cut, NoPace>(alloc, &NoPace, script, epoch)?;
    find_shortage(run.replies.as_slice())?;
    Ok(print_output(alloc, &run)?)
}
