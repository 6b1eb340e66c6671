//! The plain machine along the order that a script gives.

ghost use Rattle.std.specs.Prelude.{◌≢◌, ◌≤ℤ◌, IfErr, IfOk, None, pos};
ghost use Rattle.chunk_store.specs.Digests.{cut_address};
ghost use Rattle.script_text.specs.Collisions.{IsFault};
ghost use Rattle.script_run.specs.Scripts.{IsSoundScript};
ghost use Rattle.plain_run.specs.Following.{FollowsAs};

use crate::shortages::find_shortage;
use chunk_store::{PutFault, Sha512Cut};
use script_run::{Replayed, replay_script};
use script_text::{Script, print_output, print_stop};
use std::alloc::Global;
use tuple_codec::Blob;
use wire_io::NoPace;

/// How the plain machine follows an order, with nothing refused for want of memory or for a collision.
#[derive(Drop)]
pub enum Followed {
    /// It follows the whole order, and no statement is left: the run's text.
    Text(Blob),
    /// It can't follow one of the items, or a moment is left behind the last one: the two lines that tell where.
    Stop(Blob),
}

/// What the plain machine writes of a script along the order that the script gives. Addresses are those of [`Sha512Cut`], and commits bear the epoch as their date.
///
/// A statement that finds no memory, or two byte strings of one address, is answered so by the real sessions, and what the machine writes isn't known then: the
/// answer is that fault.
pub fn plain_output_in_given_order(
    alloc: Global,
    script: Script,
    epoch: i64,
) -> Result<Followed, PutFault>
    requires sound { IsSoundScript script }
    requires ordered { script.order ≢ None }
    requires epoch { pos 0 ≤ℤ epoch }
    ensures follows { IfOk result (FollowsAs cut_address epoch script) }
    ensures fault { IfErr result (IsFault cut_address) }
{
    match replay_script::<Sha512Cut, NoPace>(alloc, &NoPace, script, epoch)? {
        Replayed::Run(run) => {
            find_shortage(run.replies.as_slice())?;
            Ok(Followed::Text(print_output(alloc, &run)?))
        }
        Replayed::Stop(stop) => {
            find_shortage(stop.replies.as_slice())?;
            Ok(Followed::Stop(print_stop(alloc, &stop)?))
        }
    }
}
