//! The lines that tell why a run has no text.

ghost use Rattle.std.specs.Prelude.{◌≡◌, IfOk, string_bytes};
ghost use Rattle.script_text.specs.Lines.{collision_line, fault_line};

use crate::BadScript;
use crate::printing::push_clash;
use chunk_store::Clash;
use std::alloc::{AllocError, Global};

/// The line that tells the rule that a script breaks.
pub fn fault_text(alloc: Global, bad: BadScript) -> Result<String, AllocError>
    ensures { IfOk result (λ text. string_bytes text ≡ fault_line bad) }
{
    let line = bad.line;
    let rule = bad.rule;
    format!(in alloc; "script line {line} rule {rule}\n")
}

/// The line that tells two byte strings of one address.
pub fn collision_text(alloc: Global, clash: &Clash) -> Result<Vec<u8>, AllocError>
    ensures { IfOk result (λ line. line.items ≡ collision_line clash.now) }
{
    let mut line = Vec::from_slice(alloc, b"collision")?;
    push_clash(alloc, &mut line, clash)?;
    line.extend_from_slice(b"\n")?;
    Ok(line)
}
