//! Runs whose statements are watched, each before it is run, by its session and its number.

use crate::calls::ended;
use crate::cutting::FIRST;
use script_text::Status;
use std::alloc::{AllocError, Global};
use std::sync::Wait;
use std::sync::atomic::{AtomicU64, Ordering};
use std::thread::Threads;
use wire_io::{NoPace, Pacer};

/// Keeps how often it was called, and the last calls: three decimal digits each, the session's and two of the statement's number.
#[derive(Drop)]
struct Calls {
    count: AtomicU64,
    digits: AtomicU64,
}

impl Calls {
    fn none() -> Calls {
        Calls {
            count: AtomicU64::new(0),
            digits: AtomicU64::new(0),
        }
    }
}

impl Pacer for Calls {
    fn before(&self, session: u32, statement: u32) {
        self.count.fetch_add(1, Ordering::SeqCst);
        let digits = self.digits.load(Ordering::SeqCst).wrapping_mul(1000);
        let call = u64::from(session) * 100 + u64::from(statement);
        self.digits
            .store(digits.wrapping_add(call), Ordering::SeqCst);
    }
}

/// Whether the three statements of a script are told, each before it is run.
pub fn statements_are_told<R: Threads + Wait + Sync>(
    rt: &R,
    alloc: Global,
) -> Result<bool, AllocError> {
    let calls = Calls::none();
    let ending = ended(rt, alloc, "ordered", FIRST, &calls)?;
    let told = calls.digits.load(Ordering::SeqCst);
    Ok(ending.status == Status::Done && told == 1_002_003)
}

/// Whether all statements of a workload are told, and it has this text.
pub fn workload_is_told<R: Threads + Wait + Sync>(
    rt: &R,
    alloc: Global,
    text: &[u8],
) -> Result<bool, AllocError> {
    let calls = Calls::none();
    let ending = ended(rt, alloc, "load --seed 7", b"", &calls)?;
    let told = calls.count.load(Ordering::SeqCst);
    Ok(ending.is(Status::Done, text) && told == 4968)
}

const TWO_SESSIONS: &[u8] = b"@a SELECT 1;
@a SELECT 2;
@b SELECT 1;
@b SELECT 2;
";

/// So many times at most a session that is held looks whether the other is there.
const MOST_TURNS: u32 = 1_000_000_000;

/// Holds two sessions, each before its second statement, until both have come there.
#[derive(Drop)]
struct Meeting {
    came: AtomicU64,
    /// How many saw both there before their turns were up.
    met: AtomicU64,
}

impl Meeting {
    fn meet(&self) {
        self.came.fetch_add(1, Ordering::SeqCst);
        for _ in 0..MOST_TURNS {
            if self.came.load(Ordering::SeqCst) == 2 {
                self.met.fetch_add(1, Ordering::SeqCst);
                return;
            }
        }
    }
}

impl Pacer for Meeting {
    fn before(&self, _session: u32, statement: u32) {
        if statement == 2 {
            self.meet();
        }
    }
}

/// Whether two sessions are in threads at once. Where one thread ran both, in whatever order, the first would wait in vain.
pub fn threads_meet<R: Threads + Wait + Sync>(rt: &R, alloc: Global) -> Result<bool, AllocError> {
    let meeting = Meeting {
        came: AtomicU64::new(0),
        met: AtomicU64::new(0),
    };
    let ending = ended(rt, alloc, "threads", TWO_SESSIONS, &meeting)?;
    let met = meeting.met.load(Ordering::SeqCst);
    Ok(ending.status == Status::Done && met == 2)
}

/// Each session changes another cell of the one row.
const MERGED: &[u8] = b"@a CREATE TABLE t (id BIGINT PRIMARY KEY, x BIGINT, y BIGINT);
@a INSERT INTO t VALUES (1,10,20);
@a BEGIN;
@b BEGIN;
@a UPDATE t SET x = 11;
@b UPDATE t SET y = 21;
@a COMMIT;
@b COMMIT;
@b SELECT * FROM t;
";

/// The line of a run's text that tells the order of its moments.
fn order_line(text: &[u8]) -> &str {
    let text = str::from_utf8(text).unwrap_or("");
    text.lines()
        .find(|line| line.starts_with("order"))
        .unwrap_or("")
}

/// Whether the order that threads took, before the same script, gives the same text in `replay`.
pub fn is_replayed<R: Threads + Wait + Sync>(rt: &R, alloc: Global) -> Result<bool, AllocError> {
    let ending = ended(rt, alloc, "threads", MERGED, &NoPace)?;
    let order = order_line(ending.text.as_slice());
    let mut script = Vec::from_slice(alloc, order.as_bytes())?;
    script.extend_from_slice(b"\n")?;
    script.extend_from_slice(MERGED)?;
    let again = ended(rt, alloc, "replay", script.as_slice(), &NoPace)?;
    Ok(ending.status == Status::Done && again.is(Status::Done, ending.text.as_slice()))
}
