//! SELECT of a transaction's tables, and SELECT without sources.

ghost use Rattle.std.specs.Prelude.{◌≡◌, ℕ, List, [], true, IfOk, Some};
ghost use Rattle.chunk_store.specs.Drafts.{chunks_of};
ghost use Rattle.table_root.specs.Kept.{HasKeptAt, IsKeptAt};
ghost use Rattle.plain_sql.specs.Plans.{answer};
ghost use Rattle.plain_sessions.specs.Replies.{shown_or_refused};
ghost use Rattle.plain_sessions.specs.SystemTables.{known};
ghost use Rattle.script_text.specs.Collisions.{TellsTruly};
ghost use Rattle.plain_sessions.specs.Moments.{is_in_transaction};
ghost use Rattle.plain_sessions.specs.Sessions as plain;
ghost use Rattle.plain_sessions.specs.Statements.{said, select_with_values};
ghost use Rattle.plain_sessions.specs.declared.commands.Command.TheVariants as command;
ghost use Rattle.plain_sessions.specs.declared.commands.Work.TheVariants as work;
ghost use Rattle.sql_ast.specs.declared.selects.Select.TheVariants as select;
ghost use Rattle.session_state.specs.Standing.{IsInTransaction, SessionStands};
ghost use Rattle.session_plan.specs.Answering.{AnswersAlone};
ghost use Rattle.session_txn.specs.Reading.{system_of};
ghost use Rattle.session_plan.specs.Showing.{IsDue, is_sound_reply};

use crate::values::{select_with_values, values_of};
use chunk_store::Draft;
use plain_sql::Refused;
use script_text::Reply;
use session_plan::due;
use session_state::Session;
use sql_ast::{NamedExpr, Select};
use sql_select::{AskFault, NamedAnswer, Sources, answer, law_of_reading};
use std::alloc::{AllocError, Global};
use system_tables::system_sources;
use tuple_codec::{Address, Boxed, Digester, Sequence};

/// What a SELECT shows of the transaction's working tables, and of the system tables that it names.
pub(crate) fn ask<D: Digester>(alloc: Global, session: &Session<D>, select: &Select) -> Reply
    requires { IsInTransaction D.address session.now }
    ensures alone { (p : plain.Session) → SessionStands D.address session.now p → is_in_transaction p ≡ true
        → AnswersAlone D.address p (command.Data (work.Ask select.now)) session.now result }
    ensures sound { is_sound_reply result ≡ true }
    ensures truly { TellsTruly D.address result }
{
    match system_of(alloc, session, select) {
        Ok(system) => show(alloc, &session.draft, &session.own.working, system, select),
        Err(_) => Reply::Refused(1),
    }
}

/// The system tables that a SELECT names, read for this session.
fn system_of<D: Digester>(
    alloc: Global,
    session: &Session<D>,
    select: &Select,
) -> Result<Sequence<NamedAnswer>, AllocError>
    requires { IsInTransaction D.address session.now }
    ensures { (p : plain.Session) (t : plain.Transaction) → SessionStands D.address session.now p → p.transaction ≡ Some t
        → IfOk result (λ system. system ≡ system_of t select.now) }
{
    match select {
        Select::From(query) => system_sources(alloc, session, &query.from),
        Select::Alone(_) => Ok(Sequence::new(alloc)),
    }
}

/// What a SELECT shows of the tables at an address and of these system tables.
#[tactic(auto, using(crate::proofs::SelectLemmas::can_read))]
fn show<D: Digester>(
    alloc: Global,
    draft: &Draft<D>,
    database: &Address,
    system: Sequence<NamedAnswer>,
    select: &Select,
) -> Reply
    requires { HasKeptAt D.address (chunks_of draft.now.chunks) database.now.0 }
    ensures due { (t : plain.Transaction) → IsKeptAt D.address (chunks_of draft.now.chunks) database.now.0 t.own.working → system ≡ system_of t select.now
        → IsDue 1 (shown_or_refused (answer (known t) select.now)) result }
    ensures sound { is_sound_reply result ≡ true }
    ensures truly { TellsTruly D.address result }
{
    law_of_reading();
    let sources = Sources {
        database: *database,
        system,
    };
    match answer(alloc, draft, &sources, select) {
        Ok(answer) => due(Reply::Rows(answer), 1),
        Err(AskFault::Refused(number)) => due(Reply::Refused(number), 1),
        Err(AskFault::Memory) => Reply::Refused(1),
    }
}

/// What a SELECT without sources shows, with the session's values in their places.
pub(crate) fn say<D: Digester>(alloc: Global, session: &Session<D>, select: &Select) -> Reply
    ensures due { (p : plain.Session) → SessionStands D.address session.now p → IsDue 1 (said p select.now) result }
    ensures sound { is_sound_reply result ≡ true }
    ensures truly { (address : List ℕ → List ℕ) → TellsTruly address result }
{
    match select {
        Select::From(_) => show_alone(alloc, select),
        Select::Alone(list) => match with_values_of(alloc, session, list.as_slice()) {
            Ok(select) => show_alone(alloc, select.get()),
            Err(_) => Reply::Refused(1),
        },
    }
}

/// A SELECT of these items, with the session's values in their places.
fn with_values_of<D: Digester>(
    alloc: Global,
    session: &Session<D>,
    list: &[NamedExpr],
) -> Result<Boxed<Select>, AllocError>
    ensures { IfOk result (λ made. (p : plain.Session) → SessionStands D.address session.now p → made ≡ select_with_values p (select.Alone list.now)) }
{
    let values = values_of(alloc, session)?;
    select_with_values(alloc, &values, list)
}

/// What a SELECT shows that asks for none of the session's values.
fn show_alone(alloc: Global, select: &Select) -> Reply
    ensures due { IsDue 1 (shown_or_refused (answer [] select.now)) result }
    ensures sound { is_sound_reply result ≡ true }
    ensures truly { (address : List ℕ → List ℕ) → TellsTruly address result }
{
    match plain_sql::answer(alloc, &[], select) {
        Ok(answer) => due(Reply::Rows(answer), 1),
        Err(Refused::By(number)) => due(Reply::Refused(number), 1),
        Err(Refused::Memory) => Reply::Refused(1),
    }
}
