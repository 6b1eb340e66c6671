//! From a seed to the lines that tell the run of its workload.

ghost use Rattle.std.specs.Prelude.{◌≡◌, ◌⊎◌, ◌<◌, ◌≤◌, length, true};
ghost use Rattle.plain_sessions.specs.StateLimits.{is_date};
ghost use Rattle.std.specs.Io.KnownBytes.{Appends};
ghost use Rattle.script_text.specs.Shown.{IsPrintable};
ghost use Rattle.wire_io.specs.Causes.{Rose};
ghost use Rattle.wire_io.specs.Moves.{AppendsFront};
ghost use Rattle.program_run.specs.Loading.{load_text};
ghost use Rattle.program_run.specs.Loads.{LoadFallsShort, WritesLoad, WritesOpeningClash};

use crate::words::LoadRun;
use crate::writing::{write_clash, write_last};
use crate::{Load, print_load, run_load};
use chunk_store::PutFault;
use script_text::{Status, one_reading, one_stop};
use std::alloc::Global;
use std::sync::Wait;
use std::thread::Threads;
use tuple_codec::Digester;
use wire_io::{Pacer, Sink};

/// Runs the workload of a seed and writes its lines, or that of a collision.
pub fn run_workload<D: Digester, R: Threads + Wait + Sync, K: Sink, P: Pacer>(
    rt: &R,
    alloc: Global,
    pacer: &P,
    asked: LoadRun,
    output: &mut K,
) -> Status
    requires { is_date asked.epoch ≡ true }
    ensures ends { (result ≡ Status.Done) ⊎ (result ≡ Status.Collision) ⊎ (result ≡ Status.Write) ⊎ (result ≡ Status.Memory) }
    ensures done { result ≡ Status.Done → WritesLoad D.address asked (K.held output.old) (K.held output.new) }
    ensures collision { result ≡ Status.Collision → WritesOpeningClash D.address asked.epoch (K.held output.old) (K.held output.new) }
    ensures part { result ≡ Status.Write → LoadFallsShort D.address asked (K.held output.old) (K.held output.new) (K.room output.old) }
    ensures rose { result ≡ Status.Write → Rose (K.faults output.old) (K.faults output.new) }
    ensures later { K.faults output.old ≤ K.faults output.new }
    ensures memory { result ≡ Status.Memory → output.new ≡ output.old }
{
    match run_load::<R, D, P>(rt, alloc, pacer, asked.seed, asked.epoch) {
        Ok(load) => {
            one_reading();
            one_stop();
            write_load(alloc, &load, output)
        }
        Err(PutFault::Collision(clash)) => write_clash(alloc, &clash, output),
        Err(PutFault::Memory) => Status::Memory,
    }
}

fn write_load<K: Sink>(alloc: Global, load: &Load, output: &mut K) -> Status
    requires { IsPrintable load.now.run }
    ensures ends { (result ≡ Status.Done) ⊎ (result ≡ Status.Write) ⊎ (result ≡ Status.Memory) }
    ensures done { result ≡ Status.Done → Appends (K.held output.old) (K.held output.new) (load_text load.now.seed load.now.run load.now.rows) }
    ensures part { result ≡ Status.Write → AppendsFront (K.held output.old) (K.held output.new) (load_text load.now.seed load.now.run load.now.rows) }
    ensures wider { result ≡ Status.Write → K.room output.old < length (load_text load.now.seed load.now.run load.now.rows) }
    ensures rose { result ≡ Status.Write → Rose (K.faults output.old) (K.faults output.new) }
    ensures later { K.faults output.old ≤ K.faults output.new }
    ensures memory { result ≡ Status.Memory → output.new ≡ output.old }
{
    match print_load(alloc, load) {
        Ok(text) => write_last(output, text.as_slice(), Status::Done),
        Err(_) => Status::Memory,
    }
}
