//! The lines that tell a run of the workload.

ghost use Rattle.std.specs.Prelude.{◌≡◌, ◌++◌, IfOk, OnOk};
ghost use Rattle.std.specs.Fmt.{decimal};
ghost use Rattle.program_run.specs.Loading.{load_text, number_lines, trouble_of, working_in};

use crate::lines::main_in;
use crate::loading::Load;
use crate::refusals::count_refusals;
use crate::trouble::push_trouble;
use script_text::{BranchLine, RunText};
use sql_text::push_number;
use std::alloc::{AllocError, Global};
use tuple_codec::Blob;

/// The lines of the workload's run: six, and two more where a statement was refused.
pub fn print_load(alloc: Global, load: &Load) -> Result<Blob, AllocError>
    ensures { IfOk result (λ text. text ≡ load_text load.now.seed load.now.run load.now.rows) }
{
    let refusals = count_refusals(load.run.replies.as_slice())?;
    let mut out = Vec::new(alloc);
    push_numbers(&mut out, load.seed, refusals, load.rows)?;
    push_working(&mut out, load.run.branches.as_slice())?;
    out.extend_from_slice(b"\n")?;
    push_if_trouble(alloc, &mut out, refusals, &load.run)?;
    Ok(Blob::from_vec(out))
}

// Each function below writes behind what `out` holds. Where memory was wanting, nothing is said of `out`.

/// Writes the lines that end with numbers, and what stands before the address.
fn push_numbers(out: &mut Vec<u8>, seed: u64, refusals: u64, rows: u64) -> Result<(), AllocError>
    ensures { OnOk result (out.new.items ≡ out.old.items ++ number_lines seed refusals rows) }
{
    push_named(out, b"load ", seed)?;
    push_named(out, b"\nsessions 8\nstatements 4968\nrefused ", refusals)?;
    push_named(out, b"\nrows ", rows)?;
    out.extend_from_slice(b"\nworking ")?;
    Ok(())
}

/// Writes words and a number.
fn push_named(out: &mut Vec<u8>, words: &[u8], number: u64) -> Result<(), AllocError>
    ensures { OnOk result (out.new.items ≡ out.old.items ++ (words.now ++ decimal number)) }
{
    out.extend_from_slice(words)?;
    push_number(out, number)
}

/// Writes the address of what `main` is working on.
fn push_working(out: &mut Vec<u8>, lines: &[BranchLine]) -> Result<(), AllocError>
    ensures { OnOk result (out.new.items ≡ out.old.items ++ working_in lines.now) }
{
    match main_in(lines) {
        Some(line) => out.extend_from_slice(&line.rec.working.text()),
        None => Ok(()),
    }
}

/// Writes the two lines, where a statement was refused.
fn push_if_trouble(
    alloc: Global,
    out: &mut Vec<u8>,
    refusals: u64,
    run: &RunText,
) -> Result<(), AllocError>
    ensures { OnOk result (out.new.items ≡ out.old.items ++ trouble_of refusals run.now) }
{
    if refusals == 0 {
        return Ok(());
    }
    push_trouble(alloc, out, run)
}
