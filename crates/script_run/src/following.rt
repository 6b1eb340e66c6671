//! The run of a script along the order that it gives.

ghost use Rattle.std.specs.Prelude.{◌≡◌, ◌≢◌, ◌+◌, ◌<◌, ◌≤◌, ◌≤ℤ◌, ◌^◌, ◌==◌, ◌&&◌, ◌++◌, ◌∷◌, [], ℤ, List, pos, true, false, length, map, slice_get, take, None, Some, IfErr, IfOk};
ghost use Rattle.std.specs.List.{list_all};
ghost use Rattle.script_text.specs.Input.{place_of};
ghost use Rattle.script_text.specs.declared.scripts.Moment.{Moment};
ghost use Rattle.script_text.specs.declared.scripts.Script.{Script};
ghost use Rattle.shared_db.specs.Opening.{IsOpeningFault};
ghost use Rattle.run_laws.specs.Orders.{asked_moment, asked_order};
ghost use Rattle.run_laws.specs.Stops.{IsStoppedAt};
ghost use Rattle.script_run.specs.Following.{AreSettledTo, CantFollow, IsPlayingAt, IsReplayed, ReplaysAs, is_settled, is_through};
ghost use Rattle.script_run.specs.Scripts.{IsSoundScript};

use crate::going::{follow, go_on};
use crate::players::{Player, Playing, open_playing};
use chunk_store::PutFault;
use run_laws::law_of_orders;
use script_text::{OrderItem, Reply, RunText, Script, StopText};
use std::alloc::{AllocError, Global};
use tuple_codec::{Digester, Sequence, Text};
use wire_io::Pacer;

/// How a given order ended.
#[derive(Drop)]
pub enum Replayed {
    /// All its items were followed, and no statement is left.
    Run(RunText),
    /// An item can't be followed, or a moment is left behind the last one.
    Stop(StopText),
}

/// Runs a script's statements along the order that it gives: item by item its session runs to the moment that it needs next. The dates of commits
/// are the epoch.
pub fn replay_script<D: Digester, P: Pacer>(
    alloc: Global,
    pacer: &P,
    script: Script,
    epoch: i64,
) -> Result<Replayed, PutFault>
    requires sound { IsSoundScript script }
    requires epoch { pos 0 ≤ℤ epoch }
    requires ordered { script.order ≢ None }
    ensures replays { IfOk result (ReplaysAs D.address epoch script) }
    ensures fault { IfErr result (IsOpeningFault D.address epoch) }
{
    law_of_orders();
    let mut playing = open_playing::<D>(alloc, &script, epoch)?;
    let followed = follow_items(alloc, pacer, &script, &mut playing, epoch);
    go_on_all(alloc, pacer, &mut playing);
    if is_whole(&script, followed, playing.players.as_slice()) {
        Ok(Replayed::Run(run_text(alloc, script, playing, epoch)?))
    } else {
        Ok(Replayed::Stop(stop_text(alloc, script, playing, followed, epoch)?))
    }
}

fn items_in(script: &Script) -> &[OrderItem]
    ensures asked { asked_order script.now ≡ map (asked_moment script.now.names) result.now }
    ensures lists { length (asked_order script.now) ≡ length result.now }
{
    match &script.order {
        Some(items) => items.as_slice(),
        None => &[],
    }
}

/// An order in memory has fewer than 2^63 items. For proofs: it does nothing.
fn know_order(script: &Script)
    ensures { length (asked_order script.now) < 2 ^ 63 }
{
    let _ = items_in(script);
}

/// Follows the items until one can't be followed, and tells how many were.
fn follow_items<D: Digester, P: Pacer>(
    alloc: Global,
    pacer: &P,
    script: &Script,
    playing: &mut Playing<D>,
    epoch: i64,
) -> usize
    requires epoch { pos 0 ≤ℤ epoch }
    requires opened { IsPlayingAt D.address epoch script.now [] playing.old }
    ensures followed { IsPlayingAt D.address epoch script.now (take result (asked_order script.now)) playing.new }
    ensures within { result ≤ length (asked_order script.now) }
    ensures stopped { (moment : Moment) → slice_get (asked_order script.now) result ≡ Some moment → CantFollow moment playing.new.players.items }
{
    let items = items_in(script);
    for at in 0..items.len() {
        if !follow_item(alloc, pacer, script, at, playing, epoch) {
            return at;
        }
    }
    items.len()
}

/// Follows the item at this place, where its session needs its next moment at that statement. An item that names no session can't be followed.
fn follow_item<D: Digester, P: Pacer>(
    alloc: Global,
    pacer: &P,
    script: &Script,
    at: usize,
    playing: &mut Playing<D>,
    epoch: i64,
) -> bool
    requires epoch { pos 0 ≤ℤ epoch }
    requires there { at < length (asked_order script.now) }
    requires before { IsPlayingAt D.address epoch script.now (take at (asked_order script.now)) playing.old }
    ensures made { result ≡ true → IsPlayingAt D.address epoch script.now (take (at + 1) (asked_order script.now)) playing.new }
    ensures missed { result ≡ false → IsPlayingAt D.address epoch script.now (take at (asked_order script.now)) playing.new }
    ensures past { result ≡ false → (moment : Moment) → slice_get (asked_order script.now) at ≡ Some moment → CantFollow moment playing.new.players.items }
{
    let item = &items_in(script)[at];
    match find_name(script.names.as_slice(), item.name.as_slice()) {
        Some(place) => follow_at(alloc, pacer, playing, place, item.statement, epoch),
        None => false,
    }
}

fn find_name(names: &[Text], name: &[u8]) -> Option<usize>
    ensures { result ≡ place_of names.now name.now }
{
    names.iter().position(|other| other.is(name))
}

/// Follows an item of the session at this place.
fn follow_at<D: Digester, P: Pacer>(
    alloc: Global,
    pacer: &P,
    playing: &mut Playing<D>,
    place: usize,
    statement: u32,
    epoch: i64,
) -> bool
    requires epoch { pos 0 ≤ℤ epoch }
    requires there { place < length playing.old.players.items }
    requires playing { (script : Script) × (moments : List Moment) × IsPlayingAt D.address epoch script moments playing.old }
    ensures made { result ≡ true → (script : Script) (moments : List Moment) → IsPlayingAt D.address epoch script moments playing.old
        → IsPlayingAt D.address epoch script (moments ++ record { session = place; statement = statement } ∷ []) playing.new }
    ensures missed { result ≡ false → (script : Script) (moments : List Moment) → IsPlayingAt D.address epoch script moments playing.old
        → IsPlayingAt D.address epoch script moments playing.new }
    ensures past { result ≡ false → CantFollow (record { session = place; statement = statement }) playing.new.players.items }
{
    law_of_orders();
    let player = &mut playing.players[place];
    follow(alloc, pacer, &mut playing.lone, player, statement, epoch)
}

/// Each session runs to its next moment, or to its end.
fn go_on_all<D: Digester, P: Pacer>(alloc: Global, pacer: &P, playing: &mut Playing<D>)
    requires playing { (epoch : ℤ) × (script : Script) × (moments : List Moment) × IsPlayingAt D.address epoch script moments playing.old }
    ensures playing { (epoch : ℤ) (script : Script) (moments : List Moment) → IsPlayingAt D.address epoch script moments playing.old → IsPlayingAt D.address epoch script moments playing.new }
    ensures settled { list_all is_settled playing.new.players.items ≡ true }
    ensures past { (moment : Moment) → CantFollow moment playing.old.players.items → CantFollow moment playing.new.players.items }
{
    for place in 0..playing.players.len() {
        go_on_at(alloc, pacer, playing, place);
    }
}

/// The session at this place runs to its next moment, or to its end.
fn go_on_at<D: Digester, P: Pacer>(alloc: Global, pacer: &P, playing: &mut Playing<D>, place: usize)
    requires there { place < length playing.old.players.items }
    requires playing { (epoch : ℤ) × (script : Script) × (moments : List Moment) × IsPlayingAt D.address epoch script moments playing.old }
    ensures playing { (epoch : ℤ) (script : Script) (moments : List Moment) → IsPlayingAt D.address epoch script moments playing.old → IsPlayingAt D.address epoch script moments playing.new }
    ensures lists { length playing.new.players.items ≡ length playing.old.players.items }
    ensures settled { AreSettledTo place playing.old.players.items → AreSettledTo (place + 1) playing.new.players.items }
    ensures past { (moment : Moment) → CantFollow moment playing.old.players.items → CantFollow moment playing.new.players.items }
{
    law_of_orders();
    let player = &mut playing.players[place];
    go_on(alloc, pacer, player);
}

/// Whether all items were followed, and no statement is left.
fn is_whole<D: Digester>(script: &Script, followed: usize, players: &[Player<D>]) -> bool
    ensures { result ≡ (followed == length (asked_order script.now) && list_all is_through players.now) }
{
    followed == items_in(script).len() && are_over(players)
}

/// Whether each session has answered all its statements.
fn are_over<D: Digester>(players: &[Player<D>]) -> bool
    ensures { result ≡ list_all is_through players.now }
{
    players.iter().all(|player| player.replies.len() == player.texts.as_slice().len())
}

fn run_text<D: Digester>(
    alloc: Global,
    script: Script,
    playing: Playing<D>,
    epoch: i64,
) -> Result<RunText, AllocError>
    requires sound { IsSoundScript script }
    requires playing { IsPlayingAt D.address epoch script (asked_order script) playing }
    requires settled { list_all is_settled playing.players.items ≡ true }
    requires over { list_all is_through playing.players.items ≡ true }
    ensures { IfOk result (IsReplayed D.address epoch script) }
{
    let _ = epoch;
    law_of_orders();
    let order = Vec::from_slice(alloc, playing.lone.db.moments())?;
    let branches = playing.lone.db.branch_lines(alloc)?;
    let replies = replies_of(alloc, playing.players)?;
    Ok(RunText {
        names: script.names,
        replies,
        order: Sequence::from_vec(order),
        branches,
    })
}

fn stop_text<D: Digester>(
    alloc: Global,
    script: Script,
    playing: Playing<D>,
    followed: usize,
    epoch: i64,
) -> Result<StopText, AllocError>
    requires sound { IsSoundScript script }
    requires playing { IsPlayingAt D.address epoch script (take followed (asked_order script)) playing }
    requires within { followed ≤ length (asked_order script) }
    requires settled { list_all is_settled playing.players.items ≡ true }
    requires stopped { (moment : Moment) → slice_get (asked_order script) followed ≡ Some moment → CantFollow moment playing.players.items }
    requires left { followed ≡ length (asked_order script) → list_all is_through playing.players.items ≡ false }
    ensures { IfOk result (IsStoppedAt D.address epoch script) }
{
    let _ = epoch;
    law_of_orders();
    know_order(&script);
    let replies = replies_of(alloc, playing.players)?;
    Ok(StopText {
        item: followed as u64 + 1,
        names: script.names,
        replies,
    })
}

/// What each session answered.
fn replies_of<D: Digester>(
    alloc: Global,
    players: Vec<Player<D>>,
) -> Result<Sequence<Sequence<Reply>>, AllocError>
    ensures { IfOk result (λ lists. lists ≡ map (λ player. player.replies.items) players.items) }
{
    let mut lists = Sequence::new(alloc);
    for player in players {
        lists.push(Sequence::from_vec(player.replies))?;
    }
    Ok(lists)
}
