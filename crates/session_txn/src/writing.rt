//! Statements that write, in a transaction.

ghost use Rattle.std.specs.Prelude.{◌≡◌, ◌≤◌, true};
ghost use Rattle.chunk_store.specs.Laws.{ChunksFollow, DraftsFollow, DraftsGrow};
ghost use Rattle.chunk_store.specs.Drafts.{Grows, IsNamed, Longer, chunks_of, pages_in};
ghost use Rattle.chunk_store.specs.Kinds.{is_data};
ghost use Rattle.table_root.specs.Kept.{HasKeptAt, IsKeptAt};
ghost use Rattle.schema_model.specs.PlainTables.{PlainDatabase};
ghost use Rattle.script_text.specs.Collisions.{TellsTruly};
ghost use Rattle.plain_sessions.specs.Moments.{is_in_transaction};
ghost use Rattle.plain_sessions.specs.Replies.{is_refusal};
ghost use Rattle.plain_sessions.specs.Sessions as plain;
ghost use Rattle.plain_sessions.specs.declared.commands.Command.TheVariants as command;
ghost use Rattle.plain_sessions.specs.declared.commands.Work.TheVariants as work;
ghost use Rattle.sql_write.specs.Writing.{Writes};
ghost use Rattle.table_root.specs.Standing.{DatabasesStand};
ghost use Rattle.sql_laws.specs.Fit.{IsFit};
ghost use Rattle.session_state.specs.Laws.{RecordsFollow, TransactionsFollow};
ghost use Rattle.session_state.specs.Standing.{IsInTransaction, SessionStands};
ghost use Rattle.session_plan.specs.Answering.{AnswersAlone};
ghost use Rattle.session_txn.specs.Deleting.{delete_effect, list_named, turn_effect};
ghost use Rattle.sql_ast.specs.declared.statements.Write.TheVariants as kind;
ghost use Rattle.session_plan.specs.Showing.{is_sound_reply};
ghost use Rattle.session_txn.specs.Writing.{IsRefusedBy, TurnsRoot, written_reply};

use crate::deleting::{delete_entries, list_named};
use chunk_store::{Draft, law_of_chunks, law_of_drafts, law_of_growth};
use script_text::Reply;
use session_plan::due;
use session_state::{Session, law_of_records, law_of_transactions};
use sql_ast::{Delete, Write};
use sql_write::{SqlFault, Written, write};
use std::alloc::Global;
use table_root::law_of_databases;
use tuple_codec::{Address, Digester};

/// Does a statement on the transaction's working tables. Where it writes nothing, the draft goes back to where it was.
pub(crate) fn change<D: Digester>(
    alloc: Global,
    session: &mut Session<D>,
    statement: &Write,
) -> Reply
    requires stands { IsInTransaction D.address session.old }
    requires fit { IsFit statement.now }
    ensures alone { (p : plain.Session) → SessionStands D.address session.old p → is_in_transaction p ≡ true
        → AnswersAlone D.address p (command.Data (work.Change statement.now)) session.new result }
    ensures sound { is_sound_reply result ≡ true }
    ensures truly { TellsTruly D.address result }
    ensures base { session.new.draft.chunks.base ≡ session.old.draft.chunks.base }
    ensures pages { pages_in session.old.draft ≤ pages_in session.new.draft }
    ensures same { is_refusal result ≡ true → session.new ≡ record session.old { draft = session.new.draft } }
    ensures draft { is_refusal result ≡ true → session.new.draft.chunks ≡ session.old.draft.chunks }
{
    laws();
    let mut root = session.own.working;
    let reply = turn(alloc, &mut session.draft, &mut root, statement);
    session.own.working = root;
    reply
}

/// Does a statement on the tables at an address. Where it writes nothing, the draft goes back to where it was.
fn turn<D: Digester>(
    alloc: Global,
    draft: &mut Draft<D>,
    database: &mut Address,
    statement: &Write,
) -> Reply
    requires named { IsNamed D.address draft.old.chunks }
    requires tables { HasKeptAt D.address (chunks_of draft.old.chunks) database.old.0 }
    requires fit { IsFit statement.now }
    ensures turns { (tables : PlainDatabase) → IsKeptAt D.address (chunks_of draft.old.chunks) database.old.0 tables
        → TurnsRoot D.address draft.old draft.new database.old database.new (turn_effect tables statement.now) result }
    ensures sound { is_sound_reply result ≡ true }
    ensures truly { TellsTruly D.address result }
    ensures base { draft.new.chunks.base ≡ draft.old.chunks.base }
    ensures pages { pages_in draft.old ≤ pages_in draft.new }
{
    laws();
    let mark = draft.mark();
    let old = *database;
    let result = written(alloc, draft, &old, statement);
    draft.tell();
    match result {
        Ok(written) => {
            *database = written.root;
            written_reply(statement, written.rows)
        }
        Err(fault) => {
            draft.back_to(mark);
            refuse(fault)
        }
    }
}

/// Does a statement, or gives its first refusal: a DELETE may take entries of a table's list.
fn written<D: Digester>(
    alloc: Global,
    draft: &mut Draft<D>,
    database: &Address,
    statement: &Write,
) -> Result<Written, SqlFault>
    requires kept { HasKeptAt D.address (chunks_of draft.old.chunks) database.now.0 }
    requires fit { IsFit statement.now }
    ensures done { (contents : PlainDatabase) → IsKeptAt D.address (chunks_of draft.old.chunks) database.now.0 contents
        → Writes D.address (chunks_of draft.new.chunks) result (turn_effect contents statement.now) }
    ensures grows { Grows is_data draft.old draft.new }
    ensures longer { Longer draft.old.chunks draft.new.chunks }
{
    laws();
    match statement {
        Write::Delete(delete) => deleted(alloc, draft, database, statement, delete),
        _ => write(alloc, draft, database, statement),
    }
}

/// Does a DELETE, on entries of a table's list or on a table's rows.
fn deleted<D: Digester>(
    alloc: Global,
    draft: &mut Draft<D>,
    database: &Address,
    statement: &Write,
    delete: &Delete,
) -> Result<Written, SqlFault>
    requires kept { HasKeptAt D.address (chunks_of draft.old.chunks) database.now.0 }
    requires fit { IsFit statement.now }
    requires asked { statement.now ≡ kind.Delete delete.now }
    ensures done { (contents : PlainDatabase) → IsKeptAt D.address (chunks_of draft.old.chunks) database.now.0 contents
        → Writes D.address (chunks_of draft.new.chunks) result (delete_effect contents delete.now (list_named delete.now.table)) }
    ensures grows { Grows is_data draft.old draft.new }
    ensures longer { Longer draft.old.chunks draft.new.chunks }
{
    laws();
    match list_named(delete.table.as_slice()) {
        Some((which, name)) => delete_entries(alloc, draft, database, which, name, delete),
        None => write(alloc, draft, database, statement),
    }
}

/// Why a statement wrote nothing, as a reply.
fn refuse(fault: SqlFault) -> Reply
    ensures due { IsRefusedBy fault result }
    ensures sound { is_sound_reply result ≡ true }
{
    match fault {
        SqlFault::Refused(number) => due(Reply::Refused(number), 1),
        SqlFault::Memory => Reply::Refused(1),
        SqlFault::Collision(clash) => Reply::collided(clash),
    }
}

fn written_reply(statement: &Write, rows: u64) -> Reply
    ensures { result ≡ written_reply statement.now rows }
{
    match statement {
        Write::Insert(_) | Write::Update(_) | Write::Delete(_) => Reply::Count(rows),
        Write::Create(_) | Write::Drop(_) | Write::Alter(_) => Reply::Done,
    }
}

/// What holds of drafts and of transactions in them, for proofs. It does nothing.
fn laws()
    ensures chunks { ChunksFollow }
    ensures drafts { DraftsFollow }
    ensures growth { DraftsGrow }
    ensures records { RecordsFollow }
    ensures transactions { TransactionsFollow }
    ensures databases { DatabasesStand }
{
    law_of_chunks();
    law_of_drafts();
    law_of_growth();
    law_of_records();
    law_of_transactions();
    law_of_databases();
}
