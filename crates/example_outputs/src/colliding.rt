//! Runs where different bytes have one address.

use crate::calls::ended_with;
use script_text::Status;
use std::alloc::{AllocError, Global};
use std::sync::Wait;
use std::thread::Threads;
use tuple_codec::{Address, Digester};
use wire_io::NoPace;

/// Names all bytes alike.
struct OneForAll;

impl Digester for OneForAll {
    ghost use Rattle.std.specs.Prelude.{replicate};

    ghost address = { λ _. replicate 20 0 };

    fn address_of(_bytes: &[u8]) -> Address {
        Address([0; 20])
    }
}

/// The line that tells the two chunks of the opening, where all bytes have one address.
const OPENING_LINE: &[u8] =
    b"collision 00000000000000000000000000000000 040000 05000000000000000000000000000000000000000000000000000000000100000000000000000007646f6c7472756e001a496e697469616c697a652064617461207265706f7369746f7279\n";

/// Whether the two chunks of one address are told before a script runs.
pub fn opening_is_told<R: Threads + Wait + Sync>(
    rt: &R,
    alloc: Global,
) -> Result<bool, AllocError> {
    let ending = ended_with::<OneForAll, R, NoPace>(rt, alloc, "ordered", b"", &NoPace)?;
    Ok(ending.is(Status::Collision, OPENING_LINE))
}

/// Whether they are told before a workload.
pub fn opening_of_a_workload_is_told<R: Threads + Wait + Sync>(
    rt: &R,
    alloc: Global,
) -> Result<bool, AllocError> {
    let ending = ended_with::<OneForAll, R, NoPace>(rt, alloc, "load --seed 7", b"", &NoPace)?;
    Ok(ending.is(Status::Collision, OPENING_LINE))
}

/// Whether a broken rule is told before them.
pub fn rule_is_told_first<R: Threads + Wait + Sync>(
    rt: &R,
    alloc: Global,
) -> Result<bool, AllocError> {
    let ending = ended_with::<OneForAll, R, NoPace>(rt, alloc, "ordered", b"@a SELECT 1", &NoPace)?;
    Ok(ending.is(Status::Script, b"script line 1 rule 3\n"))
}

/// Names bytes by the first of them, so that the databases of a run are alike, and nothing else.
struct ByFirst;

impl Digester for ByFirst {
    ghost use Rattle.std.specs.Prelude.{replicate, slice_index_or};

    ghost address = { λ bytes. replicate 20 (slice_index_or bytes 0 0) };

    fn address_of(bytes: &[u8]) -> Address {
        let first = if bytes.is_empty() { 0 } else { bytes[0] };
        Address([first; 20])
    }
}

const SCRIPT: &[u8] = b"@a CREATE TABLE t (id BIGINT PRIMARY KEY);\n@a SELECT * FROM t;\n";

const TEXT: &[u8] = b"session a
1 refused 3 collision 0g2081040g2081040g2081040g208104 040000 04000101740303030303030303030303030303030303030303
2 refused 1146 no such table
order a/1 a/2
branch main 0k2ga1850k2ga1850k2ga1850k2ga185 0g2081040g2081040g2081040g208104 0g2081040g2081040g2081040g208104
";

/// Whether a collision in a statement is its reply.
pub fn statement_is_refused<R: Threads + Wait + Sync>(
    rt: &R,
    alloc: Global,
) -> Result<bool, AllocError> {
    let ending = ended_with::<ByFirst, R, NoPace>(rt, alloc, "ordered", SCRIPT, &NoPace)?;
    Ok(ending.is(Status::Done, TEXT))
}
