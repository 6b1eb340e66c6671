//! Small rows merged by the row rule: who decides, and what the sides come to.

use cell_merge::{Decision, RowOutcome, decide_row, merge_row};
use std::alloc::{AllocError, Global};
use std::test::Fail;
use tuple_codec::{Row, Value};

/// Base, ours and theirs, two cells each as digits or `--` for absence; what they come to, `!!` being a conflict; who decides, `!` being nobody.
const MERGES: &str = "11 11 11 11 ours
11 21 11 21 ours
11 11 12 12 theirs
11 21 21 21 ours
11 21 12 22 cells
11 21 22 22 cells
11 21 31 !! !
11 -- -- -- ours
11 -- 11 -- ours
11 11 -- -- theirs
11 -- 12 !! !
11 12 -- !! !
-- 11 -- 11 ours
-- -- 11 11 theirs
-- 11 11 11 ours
-- 11 12 !! !
-- -- -- -- ours";

/// The row of two digits, None for absence.
fn row_of(alloc: Global, digits: &[u8]) -> Result<Option<Row>, AllocError> {
    if digits == b"--".as_slice() {
        return Ok(None);
    }
    let mut row = Row::new(alloc);
    for digit in digits {
        row.push(Value::Int(i64::from(*digit)))?;
    }
    Ok(Some(row))
}

fn outcome_of(alloc: Global, digits: &[u8]) -> Result<RowOutcome, AllocError> {
    if digits == b"!!".as_slice() {
        return Ok(RowOutcome::Conflict);
    }
    Ok(match row_of(alloc, digits)? {
        Some(row) => RowOutcome::Row(row),
        None => RowOutcome::Absent,
    })
}

fn decision_of(letter: u8) -> Decision {
    match letter {
        b'o' => Decision::Ours,
        b't' => Decision::Theirs,
        b'c' => Decision::Cells,
        _ => Decision::Conflict,
    }
}

fn merges_so(alloc: Global, line: &[u8]) -> Result<bool, AllocError> {
    if line.len() < 13 {
        return Ok(false);
    }
    let base = row_of(alloc, &line[..2])?;
    let ours = row_of(alloc, &line[3..5])?;
    let theirs = row_of(alloc, &line[6..8])?;
    let decided = decide_row(base.as_ref(), ours.as_ref(), theirs.as_ref());
    let outcome = merge_row(alloc, base.as_ref(), ours.as_ref(), theirs.as_ref())?;
    Ok(decided == decision_of(line[12]) && outcome == outcome_of(alloc, &line[9..11])?)
}

#[test]
fn rows_merge_by_the_row_rule(rt: HostRuntime) -> Result<(), Fail> {
    for line in MERGES.lines() {
        assert!(rt; merges_so(rt.alloc(), line.as_bytes())?, "{line}");
    }
    Ok(())
}
