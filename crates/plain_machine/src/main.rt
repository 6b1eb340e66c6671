//! The program `plain_machine`: it reads a script of SQL statements from standard input and writes what the plain machine writes of it, in the order of its lines
//! (`ordered`), or in the order that the script gives (`replay`), where no statement is refused for want of memory or for a collision.
//!
//! With it an output of `doltrun` is checked: put its order line in front of the script, run `replay`, and compare.
//!
//! What it promises stands on `answer_words`. `main` gives it the standard streams.
#![tactic(auto)]

mod answering;
mod words;

ghost use Rattle.std.specs.Prelude.{◌≡◌, ◌≢◌};
ghost use Rattle.std.specs.Io.KnownBytes.{Appends};

use answering::{Answer, answer_words};
use script_text::{Status, given_words};
use std::process::ExitCode;
use wire_io::{ReadStop, Sink, StdSink, StdSource, write_whole};

fn main(rt: HostRuntime) -> ExitCode {
    let Ok(words) = given_words(&rt) else {
        return ExitCode::from(Status::Memory.number());
    };
    let mut input = StdSource::new(rt.stdin());
    let status = match answer_words(rt.alloc(), words.as_slice(), &mut input) {
        Ok(answer) => write_answer(&mut StdSink::new(rt.stdout()), &answer),
        Err(ReadStop::Failed) => Status::Read,
        Err(ReadStop::Memory) => Status::Memory,
    };
    ExitCode::from(status.number())
}

/// Writes the answer's text whole and gives its status, or `Write` where the sink fails.
fn write_answer<K: Sink>(output: &mut K, answer: &Answer) -> Status
    ensures { result ≢ Status.Write → (result ≡ answer.now.status) × Appends (K.held output.old) (K.held output.new) answer.now.text }
{
    match write_whole(output, answer.text.as_slice()) {
        Ok(()) => answer.status,
        Err(_) => Status::Write,
    }
}
