//! The script of a seed.

ghost use Rattle.std.specs.Prelude.{◌≡◌, ◌<◌, ◌++◌, OnOk, IfOk, map};
ghost use Rattle.workload.specs.Workload.{all_lines, line, names, text_of, with_session, workload};

use crate::draws::Drawn;
use crate::steps::LoadStep;
use script_text::{Line, Script};
use std::alloc::{AllocError, Global};
use tuple_codec::{Sequence, Text};

/// The script of the workload for a seed, with no order given.
pub fn load_script(alloc: Global, seed: u64) -> Result<Script, AllocError>
    ensures { IfOk result (λ script. script ≡ workload seed) }
{
    let names = session_names(alloc)?;
    let lines = script_lines(alloc, seed)?;
    Ok(Script {
        names,
        lines,
        order: None,
    })
}

fn session_names(alloc: Global) -> Result<Sequence<Text>, AllocError>
    ensures { IfOk result (λ these. these ≡ names) }
{
    let mut these = Sequence::new(alloc);
    for digit in b"01234567" {
        these.push(Text::from_slice(alloc, &[b'w', *digit])?)?;
    }
    Ok(these)
}

fn script_lines(alloc: Global, seed: u64) -> Result<Sequence<Line>, AllocError>
    ensures { IfOk result (λ lines. lines ≡ all_lines seed) }
{
    let mut lines = Sequence::new(alloc);
    for session in 0..8u32 {
        add_session(alloc, &mut lines, seed, session)?;
    }
    Ok(lines)
}

fn add_session(
    alloc: Global,
    lines: &mut Sequence<Line>,
    seed: u64,
    session: u32,
) -> Result<(), AllocError>
    requires { session < 8 }
    ensures { OnOk result (lines.new ≡ with_session seed session lines.old) }
{
    let all = Drawn::of_session(alloc, seed, session)?;
    add_lines(alloc, lines, session, all.steps)
}

/// The statements of a session behind all lines so far.
fn add_lines(
    alloc: Global,
    lines: &mut Sequence<Line>,
    session: u32,
    steps: Sequence<LoadStep>,
) -> Result<(), AllocError>
    ensures { OnOk result (lines.new ≡ lines.old ++ map (line session) (map text_of steps)) }
{
    for step in steps.into_vec() {
        let statement = step.text(alloc)?;
        lines.push(Line { session, statement })?;
    }
    Ok(())
}
