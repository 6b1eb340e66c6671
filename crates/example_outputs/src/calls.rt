//! The program's call, over a source and a sink in memory.

use chunk_store::Sha512Cut;
use program_run::{run, run_with};
use script_text::Status;
use std::alloc::{AllocError, Global};
use std::sync::Wait;
use std::thread::Threads;
use tuple_codec::Digester;
use wire_io::{MemorySink, MemorySource, NoPace, Pacer};

const ROOM: usize = 4_194_304;

fn words_of(alloc: Global, line: &str) -> Result<Vec<String>, AllocError> {
    let mut words = Vec::new(alloc);
    for word in line.split_whitespace() {
        words.push(String::from_str(alloc, word)?)?;
    }
    Ok(words)
}

/// How a run ended, and what it wrote.
#[derive(Drop)]
pub struct Ending {
    pub status: Status,
    pub text: Vec<u8>,
}

impl Ending {
    /// Whether a run ended so, and wrote just this.
    pub fn is(&self, status: Status, text: &[u8]) -> bool {
        self.status == status && self.text.as_slice() == text
    }
}

/// How a run of a script ends, by the words in a line.
pub fn ended<R: Threads + Wait + Sync, P: Pacer>(
    rt: &R,
    alloc: Global,
    words: &str,
    script: &[u8],
    pacer: &P,
) -> Result<Ending, AllocError> {
    ended_with::<Sha512Cut, R, P>(rt, alloc, words, script, pacer)
}

/// The same, with addresses by any digester.
pub fn ended_with<D: Digester, R: Threads + Wait + Sync, P: Pacer>(
    rt: &R,
    alloc: Global,
    words: &str,
    script: &[u8],
    pacer: &P,
) -> Result<Ending, AllocError> {
    let words = words_of(alloc, words)?;
    let mut input = MemorySource::steady(Vec::from_slice(alloc, script)?);
    let mut output = MemorySink::steady(alloc, ROOM)?;
    let status = run_with::<D, R, MemorySource, MemorySink, P>(
        rt,
        alloc,
        words.as_slice(),
        &mut input,
        &mut output,
        pacer,
    );
    let text = Vec::from_slice(alloc, output.bytes())?;
    Ok(Ending { status, text })
}

/// The status of a run in the order of a script's lines, over this source and this sink.
pub fn ended_over<R: Threads + Wait + Sync>(
    rt: &R,
    alloc: Global,
    input: &mut MemorySource,
    output: &mut MemorySink,
) -> Result<Status, AllocError> {
    let words = words_of(alloc, "ordered")?;
    Ok(run(rt, alloc, words.as_slice(), input, output, &NoPace))
}
