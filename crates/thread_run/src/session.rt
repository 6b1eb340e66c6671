//! One session in its thread: its statements without a moment, and what needs one through its meeting at the gate.

ghost use Rattle.std.specs.Prelude.{◌≡◌, ◌+◌, ◌≤◌, ◌≤ℤ◌, ℕ, List, pos, true, false};
ghost use Rattle.plain_sessions.specs.Sessions as plain;
ghost use Rattle.plain_sessions.specs.declared.commands.Command.{Command};
ghost use Rattle.seat_gate.specs.History.{HasMade};
ghost use Rattle.seat_gate.specs.Words.{gate_id, gate_of, seat_view};
ghost use Rattle.seat_gate.specs.Working.{KeepsPlace};
ghost use Rattle.script_run.specs.Following.{is_free, is_settled, is_through, moments_left};
ghost use Rattle.thread_run.specs.Gate.{IsFrom, tells_at, view_at};
ghost use Rattle.thread_run.specs.Going.{HasWorked, IsAtWork, IsGoing};

use crate::at_gate::AtGate;
use script_run::{Player, go_on, is_free, lead, number_of};
use seat_gate::{Gate, Seat, Worker};
use shared_history::GatedDb;
use std::alloc::Global;
use std::sync::Wait;
use tuple_codec::Digester;
use wire_io::Pacer;

/// All statements of the worker's session.
pub(crate) fn run_session<R: Wait, D: Digester, P: Pacer>(
    rt: &R,
    alloc: Global,
    pacer: &P,
    gate: &Gate<GatedDb<D>>,
    worker: &mut Worker<Player<D>>,
    epoch: i64,
)
    requires epoch { pos 0 ≤ℤ epoch }
    requires ready { IsAtWork D.address epoch (gate_id gate.now) worker.old }
    ensures { HasWorked D.address epoch (gate_id gate.now) worker.old worker.new }
{
    let seat = worker.seat.take().unwrap();
    let seat = run_statements(rt, alloc, pacer, gate, seat, &mut worker.work, epoch);
    worker.seat = Some(seat);
}

/// All statements of a session.
fn run_statements<R: Wait, D: Digester, P: Pacer>(
    rt: &R,
    alloc: Global,
    pacer: &P,
    gate: &Gate<GatedDb<D>>,
    seat: Seat,
    player: &mut Player<D>,
    epoch: i64,
) -> Seat
    requires epoch { pos 0 ≤ℤ epoch }
    requires gate { gate_of seat ≡ gate_id gate.now }
    requires own { HasMade (seat_view seat) }
    requires going { (place : ℕ) × (first : plain.Session) × (all : List Command) × IsGoing D.address epoch place first all (seat_view seat) player.old }
    ensures gate { gate_of result ≡ gate_id gate.now }
    ensures own { HasMade (seat_view result) }
    ensures keeps { KeepsPlace (seat_view seat) (seat_view result) }
    ensures going { (place : ℕ) (first : plain.Session) (all : List Command) → IsGoing D.address epoch place first all (seat_view seat) player.old
        → IsGoing D.address epoch place first all (seat_view result) player.new }
    ensures through { is_through player.new ≡ true }
    ensures free { is_free player.new.stage ≡ true }
{
    let mut meeting = AtGate::new(rt, gate, seat, player.session.number);
    go_on(alloc, pacer, player);
    'turns: while !is_free(&player.stage) {
        pass_turn(alloc, pacer, &mut meeting, player, epoch);
    }
    meeting.into_seat()
}

/// What needs the session's next moment, and its statements up to the one after it.
fn pass_turn<R: Wait, D: Digester, P: Pacer>(
    alloc: Global,
    pacer: &P,
    meeting: &mut AtGate<'_, '_, R, D>,
    player: &mut Player<D>,
    epoch: i64,
)
    requires epoch { pos 0 ≤ℤ epoch }
    requires ready { (begun : _) × IsFrom D.address begun meeting.old }
    requires rests { (tells_at meeting.old).held ≡ false }
    requires going { (place : ℕ) × (first : plain.Session) × (all : List Command) × IsGoing D.address epoch place first all (view_at meeting.old) player.old }
    requires waits { is_free player.old.stage ≡ false }
    ensures ready { (begun : _) → IsFrom D.address begun meeting.old → IsFrom D.address begun meeting.new }
    ensures rests { (tells_at meeting.new).held ≡ false }
    ensures going { (place : ℕ) (first : plain.Session) (all : List Command) → IsGoing D.address epoch place first all (view_at meeting.old) player.old
        → IsGoing D.address epoch place first all (view_at meeting.new) player.new }
    ensures settled { is_settled player.new ≡ true }
    ensures left { moments_left player.new + 1 ≤ moments_left player.old }
{
    meeting.come_to(number_of(player.session.position));
    lead(alloc, meeting, player, epoch);
    go_on(alloc, pacer, player);
}
