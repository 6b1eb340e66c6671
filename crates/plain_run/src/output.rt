//! The plain machine's text along an order of moments.

ghost use Rattle.std.specs.Prelude.{◌≡◌, ◌≤ℤ◌, IfErr, IfOk, pos};
ghost use Rattle.chunk_store.specs.Digests.{cut_address};
ghost use Rattle.script_text.specs.Collisions.{IsFault};
ghost use Rattle.script_run.specs.Scripts.{IsSoundScript};
ghost use Rattle.plain_run.specs.Plain.{plain_text};

use crate::asking::{are_of_sessions, ask_along};
use crate::following::{Followed, plain_output_in_given_order};
use chunk_store::PutFault;
use script_text::{Moment, Script};
use std::alloc::Global;
use tuple_codec::Blob;

/// The text of the plain machine's run of a script along an order, in which no statement is refused for want of memory or for a collision; none where the
/// order isn't one of the script's. The order that the script itself may give isn't read. Addresses are those of [`chunk_store::Sha512Cut`], and commits bear the
/// epoch as their date.
///
/// A statement that finds no memory, or two byte strings of one address, is answered so by the real sessions, and the machine's text isn't known then: the answer
/// is that fault.
pub fn plain_output(
    alloc: Global,
    script: &Script,
    order: &[Moment],
    epoch: i64,
) -> Result<Option<Blob>, PutFault>
    requires sound { IsSoundScript script.now }
    requires epoch { pos 0 ≤ℤ epoch }
    ensures told { IfOk result (λ told. told ≡ plain_text cut_address epoch script.now order.now) }
    ensures fault { IfErr result (IsFault cut_address) }
{
    if !are_of_sessions(script.names.as_slice(), order) {
        return Ok(None);
    }
    let asked = ask_along(alloc, script, order)?;
    match plain_output_in_given_order(alloc, asked, epoch)? {
        Followed::Text(text) => Ok(Some(text)),
        Followed::Stop(_) => Ok(None),
    }
}
