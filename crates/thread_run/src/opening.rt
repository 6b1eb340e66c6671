//! The gate with the shared database, and a worker for each session, before any statement.

ghost use Rattle.std.specs.Prelude.{◌≤ℤ◌, pos, IfErr, IfOk};
ghost use Rattle.shared_db.specs.Opening.{IsOpeningFault};
ghost use Rattle.script_run.specs.Scripts.{IsSoundScript};
ghost use Rattle.thread_run.specs.Opening.{IsOpenAtGate};

use chunk_store::PutFault;
use script_run::{Player, counts, new_players};
use script_text::Script;
use seat_gate::{Gate, Seat, Worker};
use shared_history::GatedDb;
use std::alloc::Global;
use tuple_codec::Digester;

/// The gate, the seat with which it was opened, and the sessions by their places, each with its seat.
#[derive(Drop)]
pub(crate) struct OpenedGate<D: Digester> {
    pub gate: Gate<GatedDb<D>>,
    pub first: Seat,
    pub workers: Vec<Worker<Player<D>>>,
}

/// Opens the shared database at a gate. The room for all replies, moments and segments is taken here, so that no want of memory loses a reply.
pub(crate) fn open_at_gate<D: Digester>(
    alloc: Global,
    script: &Script,
    epoch: i64,
) -> Result<OpenedGate<D>, PutFault>
    requires sound { IsSoundScript script.now }
    requires epoch { pos 0 ≤ℤ epoch }
    ensures opened { IfOk result (IsOpenAtGate D.address epoch script.now) }
    ensures fault { IfErr result (IsOpeningFault D.address epoch) }
{
    let names = script.names.as_slice();
    let lines = script.lines.as_slice();
    let statements = counts(alloc, lines, names.len())?;
    let players = new_players::<D>(alloc, names, lines, statements.as_slice())?;
    let gated = GatedDb::<D>::open(alloc, statements.as_slice(), epoch)?;
    let (gate, mut first) = Gate::open(alloc, gated)?;
    let workers = gate.seat_workers(alloc, &mut first, players)?;
    Ok(OpenedGate {
        gate,
        first,
        workers,
    })
}
