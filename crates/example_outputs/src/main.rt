//! Runs the scripts of `examples` by the program's call and compares what each writes with the output that stands beside it; then it makes the calls that no file shows.
//!
//! It reads `NAME.sql` and `NAME.out` in the folder that it runs in, for each name in its list, and writes a line for each. The status is 1 where an output differs.
#![tactic(auto)]

mod calls;
mod colliding;
mod comparing;
mod cutting;
mod pacing;
mod running;

ghost use Rattle.std.specs.Prelude.{◌≡◌, ◌↔◌, Some, true};

use calls::ended;
use colliding::{
    opening_is_told, opening_of_a_workload_is_told, rule_is_told_first, statement_is_refused,
};
use comparing::first_difference;
use cutting::{each_failing_read_is_told, each_failing_write_is_told, each_front_runs_or_is_told};
use pacing::{is_replayed, statements_are_told, threads_meet, workload_is_told};
use running::{Order, Outputs, outputs_of};
use script_text::Status;
use std::alloc::Global;
use std::fs;
use std::process::ExitCode;
use std::rt::Files;
use std::sync::Wait;
use std::thread::Threads;
use wire_io::NoPace;

/// The scripts that run to their end, by their names, each with the order that it runs in.
const EXAMPLES: [(&str, Order); 11] = [
    ("first", Order::OfLines),
    ("same_rows", Order::OfLines),
    ("history", Order::OfLines),
    ("merging", Order::OfLines),
    ("bases", Order::OfLines),
    ("sessions", Order::OfLines),
    ("replay", Order::Given),
    ("language", Order::OfLines),
    ("refused", Order::OfLines),
    ("strings", Order::OfLines),
    ("empty", Order::OfLines),
];

/// Runs that the plain machine's text isn't compared with, by the names of their files, each with its words and the status that it ends with.
const OTHERS: [(&str, &str, Status); 7] = [
    ("dated", "--epoch=5 ordered", Status::Done),
    ("cut", "ordered", Status::Script),
    ("stopped", "replay", Status::Order),
    ("unbegun", "replay", Status::Order),
    ("unordered", "replay", Status::Script),
    ("load", "load --seed 7", Status::Done),
    ("usage", "turbo", Status::Usage),
];

fn main(rt: HostRuntime) -> anyhow::Result<ExitCode> {
    let mut status = ExitCode::SUCCESS;
    for (name, order) in EXAMPLES {
        if !is_as_it_stands(&rt, name, words_for(order), Status::Done)? {
            status = ExitCode::FAILURE;
        }
        if !is_plain_too(&rt, name, order)? {
            status = ExitCode::FAILURE;
        }
    }
    for (name, words, ending) in OTHERS {
        if !is_as_it_stands(&rt, name, words, ending)? {
            status = ExitCode::FAILURE;
        }
    }
    if !are_told(&rt, rt.alloc())? {
        status = ExitCode::FAILURE;
    }
    Ok(status)
}

/// The words that ask for a run in an order.
fn words_for(order: Order) -> &'static str {
    match order {
        Order::OfLines => "ordered",
        Order::Given => "replay",
    }
}

fn read_script<R: Files + AllocGlobal>(rt: &R, name: &str) -> anyhow::Result<Vec<u8>> {
    Ok(fs::read(rt, format!(in rt.alloc(); "{name}.sql")?)?)
}

fn read_output<R: Files + AllocGlobal>(rt: &R, name: &str) -> anyhow::Result<String> {
    Ok(fs::read_to_string(rt, format!(in rt.alloc(); "{name}.out")?)?)
}

/// Runs an example, writes how its output compares, and tells whether it is the one that stands beside it, with this status.
fn is_as_it_stands<R: Files + AllocGlobal + Print + Threads + Wait + Sync>(
    rt: &R,
    name: &str,
    words: &str,
    status: Status,
) -> anyhow::Result<bool> {
    let script = read_script(rt, name)?;
    let standing = read_output(rt, name)?;
    let ending = ended(rt, rt.alloc(), words, script.as_slice(), &NoPace)?;
    let written = str::from_utf8(ending.text.as_slice())?;
    if let Some(difference) = first_difference(standing.as_str(), written) {
        println!(rt; "{name}: {difference}")?;
        return Ok(false);
    }
    if ending.status != status {
        println!(rt; "{name}: ends with status {}", ending.status.number())?;
        return Ok(false);
    }
    println!(rt;
        "{name}: as it stands in {name}.out, with status {}",
        status.number()
    )?;
    Ok(true)
}

/// Runs an example again, compares it with the plain machine's text along the run's order, and tells whether it is that.
fn is_plain_too<R: Files + AllocGlobal + Print>(
    rt: &R,
    name: &str,
    order: Order,
) -> anyhow::Result<bool> {
    let script = read_script(rt, name)?;
    if is_plain(&outputs_of(rt.alloc(), script.as_slice(), order)?) {
        println!(rt; "{name}: as the plain machine has it")?;
        Ok(true)
    } else {
        println!(rt; "{name}: the plain machine has another text along its order")?;
        Ok(false)
    }
}

/// Whether the run wrote what the plain machine writes along the run's order.
fn is_plain(outputs: &Outputs) -> bool
    ensures { (result ≡ true) ↔ (outputs.now.plain ≡ Some outputs.now.written) }
{
    match &outputs.plain {
        Some(plain) => plain.as_slice() == outputs.written.as_slice(),
        None => false,
    }
}

/// Makes the calls that no file shows, writes a line for each, and tells whether all were as they should be.
fn are_told<R: Files + AllocGlobal + Print + Threads + Wait + Sync>(
    rt: &R,
    alloc: Global,
) -> anyhow::Result<bool> {
    let fronts = told(
        rt,
        "each front of a script",
        each_front_runs_or_is_told(rt, alloc)?,
    )?;
    let reads = told(
        rt,
        "each failing read",
        each_failing_read_is_told(rt, alloc)?,
    )?;
    let writes = told(
        rt,
        "each failing write",
        each_failing_write_is_told(rt, alloc)?,
    )?;
    let opening = told(rt, "two chunks of one address", opening_is_told(rt, alloc)?)?;
    let workload = told(
        rt,
        "two chunks of one address before a workload",
        opening_of_a_workload_is_told(rt, alloc)?,
    )?;
    let rule = told(
        rt,
        "a broken rule before two chunks of one address",
        rule_is_told_first(rt, alloc)?,
    )?;
    let clash = told(
        rt,
        "a collision in a statement",
        statement_is_refused(rt, alloc)?,
    )?;
    let calls = told(
        rt,
        "statements before they run",
        statements_are_told(rt, alloc)?,
    )?;
    let standing = read_output(rt, "load")?;
    let load = told(
        rt,
        "each statement of a workload, and the same text again",
        workload_is_told(rt, alloc, standing.as_bytes())?,
    )?;
    let threads = told(rt, "two sessions at once", threads_meet(rt, alloc)?)?;
    let replayed = told(
        rt,
        "the order of threads in replay",
        is_replayed(rt, alloc)?,
    )?;
    let first = fronts && reads && writes && opening && workload && rule;
    Ok(first && clash && calls && load && threads && replayed)
}

fn told<R: Print>(rt: &R, what: &str, is_so: bool) -> anyhow::Result<bool> {
    if is_so {
        println!(rt; "{what}: told")?;
    } else {
        println!(rt; "{what}: not told so")?;
    }
    Ok(is_so)
}
