//! The sessions and the shared database before the first line.

ghost use Rattle.std.specs.Prelude.{◌≡◌, ◌<◌, ◌^◌, ◌≤ℤ◌, pos, true, length, IfOk, IfErr};
ghost use Rattle.std.specs.List.{list_all};
ghost use Rattle.script_text.specs.Shown.{is_shown_name};
ghost use Rattle.run_laws.specs.Orders.{count_of};
ghost use Rattle.shared_db.specs.Opening.{IsOpeningFault};
ghost use Rattle.script_run.specs.Opening.{AreNew, IsNew, counts};
ghost use Rattle.script_run.specs.Running.{IsRunningAt};
ghost use Rattle.script_run.specs.Scripts.{IsSoundScript};

use crate::running::{Running, Speaker};
use chunk_region::PagePool;
use chunk_store::PutFault;
use run_laws::law_of_lines;
use script_text::{Line, Script};
use session_state::Session;
use shared_history::LoneDb;
use std::alloc::{AllocError, Global};
use tuple_codec::{Digester, Text};

/// A run before its first line. The room for all replies, moments and segments is taken here, so that no want of memory loses a reply.
pub fn open<D: Digester>(alloc: Global, script: &Script, epoch: i64) -> Result<Running<D>, PutFault>
    requires sound { IsSoundScript script.now }
    requires epoch { pos 0 ≤ℤ epoch }
    ensures opened { IfOk result (λ running. IsRunningAt D.address epoch script.now 0 running) }
    ensures fault { IfErr result (IsOpeningFault D.address epoch) }
{
    law_of_lines();
    let names = script.names.as_slice();
    let statements = counts(alloc, script.lines.as_slice(), names.len())?;
    let speakers = new_speakers::<D>(alloc, names, statements.as_slice())?;
    let lone = LoneDb::<D>::open(alloc, statements.as_slice(), epoch)?;
    Ok(Running { lone, speakers })
}

/// How many of the lines each session has.
pub fn counts(alloc: Global, lines: &[Line], sessions: usize) -> Result<Vec<u32>, AllocError>
    requires { length lines.now < 2 ^ 32 }
    ensures { IfOk result (λ all. all.items ≡ counts sessions lines.now) }
{
    let mut all = Vec::with_capacity(alloc, sessions)?;
    for place in 0..sessions {
        all.push(count_of(lines, place))?;
    }
    Ok(all)
}

fn count_of(lines: &[Line], place: usize) -> u32
    requires { length lines.now < 2 ^ 32 }
    ensures { result ≡ count_of place lines.now }
{
    let mut count = 0;
    for line in lines {
        if line.session as usize == place {
            count += 1;
        }
    }
    count
}

/// Sessions of these names before their first statements, each with room for so many replies.
fn new_speakers<D: Digester>(
    alloc: Global,
    names: &[Text],
    statements: &[u32],
) -> Result<Vec<Speaker<D>>, AllocError>
    requires shown { list_all is_shown_name names.now ≡ true }
    requires lists { length statements.now ≡ length names.now }
    ensures { IfOk result (λ speakers. AreNew D.address names.now statements.now speakers.items) }
{
    let mut speakers = Vec::with_capacity(alloc, names.len())?;
    for place in 0..names.len() {
        speakers.push(new_speaker(alloc, &names[place], place, statements[place])?)?;
    }
    Ok(speakers)
}

pub(crate) fn new_speaker<D: Digester>(
    alloc: Global,
    name: &Text,
    place: usize,
    statements: u32,
) -> Result<Speaker<D>, AllocError>
    requires { is_shown_name name.now ≡ true }
    ensures { IfOk result (IsNew D.address place name.now statements) }
{
    let Ok(number) = u32::try_from(place) else {
        return Err(AllocError);
    };
    let name = Text::from_slice(alloc, name.as_slice())?;
    let pool = PagePool::with_pages(alloc, 16)?;
    let session = Session::new(alloc, name, number, pool)?;
    let replies = Vec::with_capacity(alloc, statements as usize)?;
    Ok(Speaker { session, replies })
}
