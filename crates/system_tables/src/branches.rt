//! `dolt_branches`: the branches as they were at the start.

ghost use Rattle.std.specs.Prelude.{◌≡◌, ◌++◌, ◌∷◌, [], IfOk, OnOk};
ghost use Rattle.chunk_store.specs.Drafts.{chunks_of};
ghost use Rattle.plain_sessions.specs.Sessions.{Transaction};
ghost use Rattle.plain_sessions.specs.SystemTables as plain;
ghost use Rattle.schema_model.specs.PlainCommits.{Commits};
ghost use Rattle.tuple_codec.specs.declared.values.Value.TheVariants as cell;
ghost use Rattle.system_tables.specs.Known.{with_rows};
ghost use Rattle.system_tables.specs.Rows.{AreHeadsOf, AreKnown, AreSomeHeads, AreSomeKnown, branch_rows, heads_of};

use crate::cells::{hash, number_column, text_column};
use crate::commits::push_committed;
use chunk_store::Draft;
use plain_sql::{Known, NamedType};
use std::alloc::{AllocError, Global};
use table_root::BranchHead;
use tuple_codec::{Digester, Row, Sequence, Text, Value};

fn branch_columns(alloc: Global) -> Result<Sequence<NamedType>, AllocError>
    ensures { (t : Transaction) → IfOk result (λ columns. columns ≡ (plain.branches t).columns) }
{
    let mut columns = Sequence::new(alloc);
    columns.push(text_column(alloc, b"name")?)?;
    columns.push(text_column(alloc, b"hash")?)?;
    columns.push(text_column(alloc, b"latest_committer")?)?;
    columns.push(number_column(alloc, b"latest_commit_date")?)?;
    columns.push(text_column(alloc, b"latest_commit_message")?)?;
    Ok(columns)
}

fn branches_of(alloc: Global, rows: Sequence<Row>) -> Result<Known, AllocError>
    ensures { (t : Transaction) → IfOk result (λ known. known ≡ with_rows (plain.branches t) rows) }
{
    Ok(Known {
        name: Text::from_slice(alloc, b"dolt_branches")?,
        columns: branch_columns(alloc)?,
        rows,
    })
}

fn branch_name(alloc: Global, head: &BranchHead) -> Result<Value, AllocError>
    ensures { IfOk result (λ value. value ≡ cell.Text head.now.branch) }
{
    Ok(Value::Text(Text::from_slice(alloc, head.branch.bytes())?))
}

/// Adds a row for a branch: its name, its newest commit, and what that shows of itself.
fn push_branch<D: Digester>(
    alloc: Global,
    draft: &Draft<D>,
    head: &BranchHead,
    rows: &mut Sequence<Row>,
) -> Result<(), AllocError>
    requires { AreSomeKnown D.address (chunks_of draft.now.chunks) (head.now.head.0 ∷ []) }
    ensures { (commits : Commits) → AreKnown D.address (chunks_of draft.now.chunks) commits (head.now.head.0 ∷ [])
        → OnOk result (rows.new ≡ rows.old ++ branch_rows commits (head.now ∷ [])) }
{
    let mut row = Row::new(alloc);
    row.push(branch_name(alloc, head)?)?;
    row.push(hash(alloc, &head.head)?)?;
    push_committed(alloc, draft, &head.head, &mut row)?;
    rows.push(row)?;
    Ok(())
}

fn branch_rows<D: Digester>(
    alloc: Global,
    draft: &Draft<D>,
    heads: &[BranchHead],
) -> Result<Sequence<Row>, AllocError>
    requires { AreSomeKnown D.address (chunks_of draft.now.chunks) (heads_of heads.now) }
    ensures { (commits : Commits) → AreKnown D.address (chunks_of draft.now.chunks) commits (heads_of heads.now)
        → IfOk result (λ rows. rows ≡ branch_rows commits heads.now) }
{
    let mut rows = Sequence::new(alloc);
    for head in heads {
        push_branch(alloc, draft, head, &mut rows)?;
    }
    Ok(rows)
}

/// The branches of these heads, in their order.
pub(crate) fn branches<D: Digester>(
    alloc: Global,
    draft: &Draft<D>,
    heads: &[BranchHead],
) -> Result<Known, AllocError>
    requires { AreSomeHeads D.address (chunks_of draft.now.chunks) heads.now }
    ensures { (t : Transaction) → AreHeadsOf D.address (chunks_of draft.now.chunks) heads.now t → IfOk result (λ known. known ≡ plain.branches t) }
{
    let rows = branch_rows(alloc, draft, heads)?;
    branches_of(alloc, rows)
}
