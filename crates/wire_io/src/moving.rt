//! A source read up to a limit, and a text written whole, by as many calls as that takes.

ghost use Rattle.std.specs.Prelude.{ℕ, ◌≡◌, ◌<◌, ◌≤◌, ◌+◌, ◌++◌, ◌^◌, true, List, length, vec_len, vec_capacity, Option, Result, IfOk, OnOk, OnErr, IsErrOf, IsOk};
ghost use Rattle.std.specs.Io.KnownBytes.{Appends, Consumes, IsAtEnd};
ghost use Rattle.wire_io.specs.Causes.{HasCause, IsCalm, Rose};
ghost use Rattle.wire_io.specs.Moves.{AppendsFront, LosesAtMost};

use crate::outside::{Failed, Sink, Source};
use std::alloc::{AllocError, Global};

/// Why a reading stopped.
#[derive(Debug, Clone, Copy, PartialEq, Eq)]
pub enum ReadStop {
    /// There is no memory for the bytes. Nothing was read.
    Memory,
    /// The source failed, and counted that. What had been read is lost.
    Failed,
}

impl From<AllocError> for ReadStop {
    ghost use Rattle.wire_io.specs.declared.moving.ReadStop.{ReadStop};
    ghost use Rattle.wire_io.specs.declared.moving.ReadStop.TheVariants.{Memory};

    ghost from_gives = { λ _ stop. stop ≡ Memory };

    fn from(_error: AllocError) -> ReadStop {
        ReadStop::Memory
    }
}

impl From<Failed> for ReadStop {
    ghost use Rattle.wire_io.specs.declared.moving.ReadStop.{ReadStop};
    ghost use Rattle.wire_io.specs.declared.moving.ReadStop.TheVariants.{Failed};

    ghost from_gives = { λ _ stop. stop ≡ Failed };

    fn from(_error: Failed) -> ReadStop {
        ReadStop::Failed
    }
}

/// Reads to the end, or until it has `most` bytes. Memory for `most` bytes is taken before the first read.
pub fn read_up_to<S: Source>(
    alloc: Global,
    source: &mut S,
    most: usize,
) -> Result<Vec<u8>, ReadStop>
    ensures bytes { IfOk result (λ bytes. Consumes (S.left source.old) (S.left source.new) bytes.items) }
    ensures size { IfOk result (λ bytes. vec_len bytes ≤ most) }
    ensures end { IfOk result (λ bytes. vec_len bytes < most → IsAtEnd (S.left source.new)) }

    ensures memory { IsErrOf result ReadStop.Memory → source.new ≡ source.old }
    ensures failed { IsErrOf result ReadStop.Failed → Rose (S.faults source.old) (S.faults source.new) }

    // Whatever is answered, at most `most` bytes are taken, and the count doesn't fall.
    ensures taken { LosesAtMost most (S.left source.old) (S.left source.new) }
    ensures later { S.faults source.old ≤ S.faults source.new }
    ensures within { S.faults source.old < 2 ^ 64 → S.faults source.new < 2 ^ 64 }

    // Over a steady source no reading fails, and no fault is counted.
    ensures calm { S.steady source.old ≡ true → S.faults source.new ≡ S.faults source.old }
    ensures sure { S.steady source.old ≡ true → ¬ IsErrOf result ReadStop.Failed }
    ensures steady { S.steady source.old ≡ true → S.steady source.new ≡ true }
{
    let mut bytes = Vec::with_capacity(alloc, most)?;
    let mut buf = [0u8; 8192];
    'turns: while bytes.len() < most {
        let space = (most - bytes.len()).min(buf.len());
        let count = source.read(&mut buf[..space])?;
        if count == 0 {
            return Ok(bytes);
        }
        append(&mut bytes, &buf[..count]);
    }
    Ok(bytes)
}

/// Appends in room that is there.
fn append(bytes: &mut Vec<u8>, more: &[u8])
    requires { vec_len bytes.old + length more.now ≤ vec_capacity bytes.old }
    ensures items { bytes.new.items ≡ bytes.old.items ++ more.now }
    ensures len { vec_len bytes.new ≡ vec_len bytes.old + length more.now }
    ensures capacity { vec_capacity bytes.old ≤ vec_capacity bytes.new }
{
    match bytes.extend_from_slice(more) {
        Ok(()) => {}
        Err(_) => unreachable!(),
    }
}

/// Writes all of `bytes`, by as many writes as that takes.
pub fn write_whole<K: Sink>(sink: &mut K, bytes: &[u8]) -> Result<(), Failed>
    ensures whole { OnOk result (Appends (K.held sink.old) (K.held sink.new) bytes.now) }
    ensures front { OnErr result (AppendsFront (K.held sink.old) (K.held sink.new) bytes.now) }
    ensures cause { HasCause (K.faults sink.old) (K.faults sink.new) result }

    // In room that is promised no write fails, and no fault is counted.
    ensures calm { length bytes.now ≤ K.room sink.old → IsCalm (K.faults sink.old) (K.faults sink.new) result }
    ensures room { OnOk result (K.room sink.old ≤ K.room sink.new + length bytes.now) }
{
    let mut at = 0;
    'turns: while at < bytes.len() {
        at += sink.write(&bytes[at..])?;
    }
    Ok(())
}
