//! A text written to a sink, with its status.

ghost use Rattle.std.specs.Prelude.{◌≡◌, ◌≢◌, ◌<◌, ◌≤◌, Err, Some, length, true};
ghost use Rattle.plain_sessions.specs.StateLimits.{is_date};
ghost use Rattle.std.specs.Io.KnownBytes.{Appends};
ghost use Rattle.wire_io.specs.Causes.{Rose};
ghost use Rattle.wire_io.specs.Moves.{AppendsFront};
ghost use Rattle.script_text.specs.Input.{script};
ghost use Rattle.script_text.specs.declared.faults.BadScript.{BadScript};
ghost use Rattle.script_text.specs.Lines.{collision_line, fault_line};
ghost use Rattle.program_run.specs.Stops.{AnswersAll, AnswersPart, WritesCollision, WritesStop};
ghost use Rattle.program_run.specs.Words.{is_given};

use crate::answering::{NoAnswer, answer};
use crate::words::ScriptRun;
use chunk_store::Clash;
use script_text::{BadScript, Status, collision_text, fault_text};
use std::alloc::Global;
use std::sync::Wait;
use std::thread::Threads;
use tuple_codec::Digester;
use wire_io::{Pacer, Sink, write_whole};

/// Writes the answer to the script in these bytes, or the line of the rule that it breaks, or that of a collision.
pub fn write_answer<D: Digester, R: Threads + Wait + Sync, K: Sink, P: Pacer>(
    rt: &R,
    alloc: Global,
    pacer: &P,
    asked: ScriptRun,
    bytes: &[u8],
    output: &mut K,
) -> Status
    requires { is_date asked.epoch ≡ true }
    ensures done { result ≡ Status.Done → AnswersAll D.address asked bytes.now (K.held output.old) (K.held output.new) }
    ensures script { result ≡ Status.Script
        → (bad : BadScript) × (script bytes.now (is_given asked.order) ≡ Err bad) × Appends (K.held output.old) (K.held output.new) (fault_line bad) }
    ensures order { result ≡ Status.Order → WritesStop D.address asked (Some bytes.now) (K.held output.old) (K.held output.new) }
    ensures collision { result ≡ Status.Collision → WritesCollision D.address asked (Some bytes.now) (K.held output.old) (K.held output.new) }
    ensures faulty { (bad : BadScript) → script bytes.now (is_given asked.order) ≡ Err bad → (result ≢ Status.Done) × (result ≢ Status.Order) × (result ≢ Status.Collision) }
    ensures part { result ≡ Status.Write → AnswersPart D.address asked bytes.now (K.held output.old) (K.held output.new) (K.room output.old) }
    ensures rose { result ≡ Status.Write → Rose (K.faults output.old) (K.faults output.new) }
    ensures later { K.faults output.old ≤ K.faults output.new }
    ensures memory { result ≡ Status.Memory → output.new ≡ output.old }
    ensures words { result ≢ Status.Usage }
    ensures source { result ≢ Status.Read }
{
    match answer::<D, R, P>(rt, alloc, pacer, asked, bytes) {
        Ok(text) => write_last(output, text.as_slice(), Status::Done),
        Err(NoAnswer::Bad(bad)) => write_fault(alloc, bad, output),
        Err(NoAnswer::Stopped(text)) => write_last(output, text.as_slice(), Status::Order),
        Err(NoAnswer::Collision(clash)) => write_clash(alloc, &clash, output),
        Err(NoAnswer::Memory) => Status::Memory,
    }
}

fn write_fault<K: Sink>(alloc: Global, bad: BadScript, output: &mut K) -> Status
    ensures script { result ≡ Status.Script → Appends (K.held output.old) (K.held output.new) (fault_line bad) }
    ensures part { result ≡ Status.Write → AppendsFront (K.held output.old) (K.held output.new) (fault_line bad) }
    ensures wider { result ≡ Status.Write → K.room output.old < length (fault_line bad) }
    ensures rose { result ≡ Status.Write → Rose (K.faults output.old) (K.faults output.new) }
    ensures later { K.faults output.old ≤ K.faults output.new }
    ensures memory { result ≡ Status.Memory → output.new ≡ output.old }
    ensures words { result ≢ Status.Usage }
    ensures source { result ≢ Status.Read }
    ensures done { (result ≢ Status.Done) × (result ≢ Status.Order) × (result ≢ Status.Collision) }
{
    match fault_text(alloc, bad) {
        Ok(text) => write_last(output, text.as_bytes(), Status::Script),
        Err(_) => Status::Memory,
    }
}

/// Writes the line that tells two chunks of one address.
pub fn write_clash<K: Sink>(alloc: Global, clash: &Clash, output: &mut K) -> Status
    ensures collision { result ≡ Status.Collision → Appends (K.held output.old) (K.held output.new) (collision_line clash.now) }
    ensures part { result ≡ Status.Write → AppendsFront (K.held output.old) (K.held output.new) (collision_line clash.now) }
    ensures wider { result ≡ Status.Write → K.room output.old < length (collision_line clash.now) }
    ensures rose { result ≡ Status.Write → Rose (K.faults output.old) (K.faults output.new) }
    ensures later { K.faults output.old ≤ K.faults output.new }
    ensures memory { result ≡ Status.Memory → output.new ≡ output.old }
    ensures words { result ≢ Status.Usage }
    ensures source { result ≢ Status.Read }
    ensures done { (result ≢ Status.Done) × (result ≢ Status.Order) × (result ≢ Status.Script) }
{
    match collision_text(alloc, clash) {
        Ok(text) => write_last(output, text.as_slice(), Status::Collision),
        Err(_) => Status::Memory,
    }
}

/// Writes a text whole and gives the status, which becomes `Write` where the sink fails.
pub fn write_last<K: Sink>(output: &mut K, text: &[u8], status: Status) -> Status
    requires { status ≢ Status.Write }
    ensures same { result ≢ Status.Write → result ≡ status }
    ensures whole { result ≢ Status.Write → Appends (K.held output.old) (K.held output.new) text.now }
    ensures part { result ≡ Status.Write → AppendsFront (K.held output.old) (K.held output.new) text.now }
    ensures wider { result ≡ Status.Write → K.room output.old < length text.now }
    ensures rose { result ≡ Status.Write → Rose (K.faults output.old) (K.faults output.new) }
    ensures later { K.faults output.old ≤ K.faults output.new }
{
    match write_whole(output, text) {
        Ok(()) => status,
        Err(_) => Status::Write,
    }
}
