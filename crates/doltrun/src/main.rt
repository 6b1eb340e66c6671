//! The program `doltrun`: it reads a script of SQL statements from standard input, runs them in the order of its lines (`ordered`), each session in a thread of
//! its own (`threads`), or in an order that the script gives (`replay`), and writes what each answered, the order of the moments at which they met the database,
//! and the addresses that each branch has at the end.
//!
//! With `load` it reads nothing: it runs a workload that is made from a seed, in threads, and writes what came of it in a few lines.
//!
//! What it promises stands on `run` of `program_run`, which takes any source and sink. `main` gives it the standard streams.
#![tactic(auto)]

use program_run::run;
use script_text::{Status, given_words};
use std::process::ExitCode;
use wire_io::{NoPace, StdSink, StdSource};

fn main(rt: HostRuntime) -> ExitCode {
    let Ok(words) = given_words(&rt) else {
        return ExitCode::from(Status::Memory.number());
    };
    let mut input = StdSource::new(rt.stdin());
    let mut output = StdSink::new(rt.stdout());
    let status = run(
        &rt,
        rt.alloc(),
        words.as_slice(),
        &mut input,
        &mut output,
        &NoPace,
    );
    ExitCode::from(status.number())
}
