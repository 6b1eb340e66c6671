//! The run of a script, line by line.

ghost use Rattle.std.specs.Prelude.{◌≡◌, ◌+◌, ◌<◌, ◌≤◌, ◌^◌, ◌≤ℤ◌, pos, true, map, length, vec_len, vec_capacity, IfOk, IfErr};
ghost use Rattle.script_text.specs.Collisions.{AllTellTruly};
ghost use Rattle.script_text.specs.Shown.{IsPrintable, IsShown};
ghost use Rattle.plain_sessions.specs.Commands.{command};
ghost use Rattle.plain_sessions.specs.Output.{IsPlainRun};
ghost use Rattle.plain_sessions.specs.Records.{Shared};
ghost use Rattle.plain_sessions.specs.Sessions as plain;
ghost use Rattle.run_laws.specs.Orders.{IsTextOrder};
ghost use Rattle.serving.specs.Serving.{IsBefore};
ghost use Rattle.serving.specs.Steps.{number_at};
ghost use Rattle.shared_db.specs.Opening.{IsOpeningFault};
ghost use Rattle.script_run.specs.Running.{IsRunningAt, Speaks};
ghost use Rattle.script_run.specs.Scripts.{IsSoundScript, is_statement_text};
ghost use Rattle.script_run.specs.Seats.{IsAtRest, room_at};

use crate::asking::serve_text;
use crate::opening::open;
use crate::running::{Running, Speaker};
use chunk_store::PutFault;
use run_laws::law_of_lines;
use script_text::{Reply, RunText, Script};
use session_state::{Position, law_of_states};
use shared_history::LoneDb;
use std::alloc::{AllocError, Global};
use tuple_codec::{Digester, Sequence};
use wire_io::Pacer;

/// Runs a script's statements one after another in the text's order, each by its session. The dates of commits are the epoch.
pub fn run_script<D: Digester, P: Pacer>(
    alloc: Global,
    pacer: &P,
    script: Script,
    epoch: i64,
) -> Result<RunText, PutFault>
    requires sound { IsSoundScript script }
    requires epoch { pos 0 ≤ℤ epoch }
    ensures plain { IfOk result (λ run. IsPlainRun command D.address epoch script run) }
    ensures truly { IfOk result (λ run. AllTellTruly D.address run.replies) }
    ensures order { IfOk result (λ run. IsTextOrder script run.order) }
    ensures printable { IfOk result (λ run. IsPrintable run) }
    ensures shown { IfOk result (λ run. IsShown run) }
    ensures fault { IfErr result (IsOpeningFault D.address epoch) }
{
    law_of_lines();
    let mut running = open::<D>(alloc, &script, epoch)?;
    run_lines(alloc, pacer, &script, &mut running, epoch);
    let order = Vec::from_slice(alloc, running.lone.db.moments())?;
    let branches = running.lone.db.branch_lines(alloc)?;
    let replies = replies_of(alloc, running.speakers)?;
    Ok(RunText {
        names: script.names,
        replies,
        order: Sequence::from_vec(order),
        branches,
    })
}

fn run_lines<D: Digester, P: Pacer>(
    alloc: Global,
    pacer: &P,
    script: &Script,
    running: &mut Running<D>,
    epoch: i64,
)
    requires sound { IsSoundScript script.now }
    requires epoch { pos 0 ≤ℤ epoch }
    requires opened { IsRunningAt D.address epoch script.now 0 running.old }
    ensures { IsRunningAt D.address epoch script.now (length script.now.lines) running.new }
{
    for at in 0..script.lines.as_slice().len() {
        run_line(alloc, pacer, script, at, running, epoch);
    }
}

/// Runs the line at this place, counted from 0.
fn run_line<D: Digester, P: Pacer>(
    alloc: Global,
    pacer: &P,
    script: &Script,
    at: usize,
    running: &mut Running<D>,
    epoch: i64,
)
    requires sound { IsSoundScript script.now }
    requires there { at < length script.now.lines }
    requires epoch { pos 0 ≤ℤ epoch }
    requires before { IsRunningAt D.address epoch script.now at running.old }
    ensures { IsRunningAt D.address epoch script.now (at + 1) running.new }
{
    law_of_lines();
    let line = &script.lines.as_slice()[at];
    let speaker = &mut running.speakers[line.session as usize];
    speak(
        alloc,
        pacer,
        &mut running.lone,
        speaker,
        line.statement.as_slice(),
        epoch,
    );
}

/// A session's next statement by its text, in room for its reply.
fn speak<D: Digester, P: Pacer>(
    alloc: Global,
    pacer: &P,
    lone: &mut LoneDb<D>,
    speaker: &mut Speaker<D>,
    text: &[u8],
    epoch: i64,
)
    requires epoch { pos 0 ≤ℤ epoch }
    requires before { (p : plain.Session) × (shared : Shared) × IsBefore D.address speaker.old.session lone.old.db.parts p shared }
    requires place { number_at speaker.old.session.position + 1 < 2 ^ 32 }
    requires rest { IsAtRest D.address lone.old }
    requires turns { 2 ≤ room_at lone.old.db.parts speaker.old.session.number }
    requires room { vec_len speaker.old.replies < vec_capacity speaker.old.replies }
    requires spelled { is_statement_text text.now ≡ true }
    ensures speaks { (p : plain.Session) (shared : Shared) → IsBefore D.address speaker.old.session lone.old.db.parts p shared
        → Speaks D.address epoch p (command text.now) shared lone.old.db.parts lone.new.db.parts speaker.old speaker.new }
    ensures rest { IsAtRest D.address lone.new }
    ensures room { vec_capacity speaker.new.replies ≡ vec_capacity speaker.old.replies }
{
    law_of_states();
    let statement = number_of(speaker.session.position);
    pacer.before(speaker.session.number, statement);
    lone.seat(speaker.session.number, statement);
    let reply = serve_text(alloc, &mut speaker.session, text, lone, epoch);
    speaker.replies.push_reserved(reply);
}

/// The number of the statement before or in which a session stands.
pub fn number_of(place: Position) -> u32
    ensures { result ≡ number_at place }
{
    match place {
        Position::Before(number) | Position::Between(number) => number,
    }
}

/// What each session answered.
fn replies_of<D: Digester>(
    alloc: Global,
    speakers: Vec<Speaker<D>>,
) -> Result<Sequence<Sequence<Reply>>, AllocError>
    ensures { IfOk result (λ lists. lists ≡ map (λ speaker. speaker.replies.items) speakers.items) }
{
    let mut lists = Sequence::new(alloc);
    for speaker in speakers {
        lists.push(Sequence::from_vec(speaker.replies))?;
    }
    Ok(lists)
}
