//! Sessions that follow a given order, each with its statements.

ghost use Rattle.std.specs.Prelude.{◌≡◌, ◌<◌, ◌≤ℤ◌, ◌^◌, ℕ, [], pos, true, length, map, IfErr, IfOk};
ghost use Rattle.std.specs.List.{list_all};
ghost use Rattle.script_text.specs.Shown.{is_shown_name};
ghost use Rattle.shared_db.specs.Opening.{IsOpeningFault};
ghost use Rattle.script_run.specs.Following.{IsPlayingAt, texts_of};
ghost use Rattle.script_run.specs.Opening.{AreNewPlayers};
ghost use Rattle.script_run.specs.Scripts.{IsSoundScript};

use crate::opening::{counts, new_speaker};
use chunk_store::PutFault;
use plain_sessions::Command;
use run_laws::law_of_orders;
use script_text::{Line, Reply, Script};
use serving::Pending;
use session_state::Session;
use shared_history::LoneDb;
use std::alloc::{AllocError, Global};
use tuple_codec::{Boxed, Digester, Sequence, Text};

/// How far a session is with its next statement.
#[derive(Drop)]
pub enum Stage {
    /// It hasn't come to it, or has none left.
    Free,
    /// It needs a moment.
    Waits(Boxed<Command>),
    /// Its start was made, and its decision is to come.
    Between(Boxed<Command>, Pending),
}

/// A session, what it has answered so far, and the texts of all its statements.
#[derive(Drop)]
pub struct Player<D: Digester> {
    pub session: Session<D>,
    pub replies: Vec<Reply>,
    pub texts: Sequence<Text>,
    pub stage: Stage,
}

/// A run under way along a given order: what the sessions share, and the sessions by their places.
#[derive(Drop)]
pub struct Playing<D: Digester> {
    pub lone: LoneDb<D>,
    pub players: Vec<Player<D>>,
}

/// A run before its first item. The room for all replies, moments and segments is taken here, so that no want of memory loses a reply.
pub fn open_playing<D: Digester>(
    alloc: Global,
    script: &Script,
    epoch: i64,
) -> Result<Playing<D>, PutFault>
    requires sound { IsSoundScript script.now }
    requires epoch { pos 0 ≤ℤ epoch }
    ensures opened { IfOk result (λ playing. IsPlayingAt D.address epoch script.now [] playing) }
    ensures fault { IfErr result (IsOpeningFault D.address epoch) }
{
    law_of_orders();
    let names = script.names.as_slice();
    let lines = script.lines.as_slice();
    let statements = counts(alloc, lines, names.len())?;
    let players = new_players::<D>(alloc, names, lines, statements.as_slice())?;
    let lone = LoneDb::<D>::open(alloc, statements.as_slice(), epoch)?;
    Ok(Playing { lone, players })
}

/// Sessions of these names before their first statements, each with its lines' texts and room for as many replies.
pub fn new_players<D: Digester>(
    alloc: Global,
    names: &[Text],
    lines: &[Line],
    statements: &[u32],
) -> Result<Vec<Player<D>>, AllocError>
    requires shown { list_all is_shown_name names.now ≡ true }
    requires lists { length statements.now ≡ length names.now }
    ensures { IfOk result (λ players. AreNewPlayers D.address names.now lines.now statements.now players.items) }
{
    let mut players = Vec::with_capacity(alloc, names.len())?;
    for place in 0..names.len() {
        let speaker = new_speaker(alloc, &names[place], place, statements[place])?;
        let texts = texts_of(alloc, lines, place)?;
        players.push(Player {
            session: speaker.session,
            replies: speaker.replies,
            texts,
            stage: Stage::Free,
        })?;
    }
    Ok(players)
}

/// The texts of a session's statements.
fn texts_of(alloc: Global, lines: &[Line], place: usize) -> Result<Sequence<Text>, AllocError>
    ensures { IfOk result (λ texts. texts ≡ texts_of place lines.now) }
{
    let mut texts = Sequence::new(alloc);
    for line in lines {
        if line.session as usize == place {
            texts.push(Text::from_slice(alloc, line.statement.as_slice())?)?;
        }
    }
    Ok(texts)
}
