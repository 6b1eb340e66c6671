//! Tables, databases, branch records and commits, written into a draft and read back.

ghost use Rattle.std.specs.Prelude.{◌≡◌, ◌≤◌, true, length, IfOk};
ghost use Rattle.std.specs.List.{list_all};
ghost use Rattle.commit_graph.specs.Commits.{KeepsLimits, parts_of};
ghost use Rattle.schema_model.specs.Limits.{is_within_limits};
ghost use Rattle.table_root.specs.Databases.{has_short_name, names_rise};

use crate::samples::draft_of;
use crate::schemas::schema_of_id;
use chunk_store::{Draft, PutFault, Sha512Cut};
use commit_graph::{CommitRecord, height, read_commit, write_commit};
use schema_model::is_schema;
use std::alloc::{AllocError, Global};
use std::test::*;
use table_root::{
    StoredTable, TableEntry, read_branch, read_database, read_table, write_branch, write_database,
    write_table,
};
use tuple_codec::{Address, BranchRecord, Sequence, Text};

const ONE: Address = Address([1; 20]);

const TWO: Address = Address([2; 20]);

fn table_of(alloc: Global) -> Result<StoredTable, AllocError>
    ensures limits { IfOk result (λ table. is_within_limits table.schema ≡ true) }
    ensures count { IfOk result (λ table. length table.indexes ≡ length table.schema.indexes) }
{
    Ok(StoredTable {
        schema: schema_of_id(alloc, true)?,
        rows: ONE,
        indexes: Sequence::new(alloc),
        conflicts: TWO,
        violations: ONE,
    })
}

/// Whether a table is read back.
fn is_table_kept(
    alloc: Global,
    draft: &mut Draft<Sha512Cut>,
    table: &StoredTable,
) -> Result<bool, PutFault>
    requires limits { is_within_limits table.now.schema ≡ true }
    requires count { length table.now.indexes ≡ length table.now.schema.indexes }
{
    if !is_schema(&table.schema) {
        return Ok(false);
    }
    let address = write_table(alloc, draft, table)?;
    Ok(read_table(alloc, draft, &address)? == *table)
}

/// A database of one table.
fn tables_of(alloc: Global) -> Result<Vec<TableEntry>, AllocError>
    ensures few { IfOk result (λ tables. length tables.items ≤ 256) }
    ensures names { IfOk result (λ tables. list_all has_short_name tables.items ≡ true) }
    ensures rise { IfOk result (λ tables. names_rise tables.items ≡ true) }
{
    let mut tables = Vec::new(alloc);
    tables.push(TableEntry {
        name: Text::from_slice(alloc, b"t")?,
        table: ONE,
    })?;
    Ok(tables)
}

/// Whether a database is read back.
fn is_database_kept(
    alloc: Global,
    draft: &mut Draft<Sha512Cut>,
    tables: &[TableEntry],
) -> Result<bool, PutFault>
    requires few { length tables.now ≤ 256 }
    requires names { list_all has_short_name tables.now ≡ true }
    requires rise { names_rise tables.now ≡ true }
{
    let address = write_database(alloc, draft, tables)?;
    Ok(read_database(alloc, draft, &address)?.as_slice() == tables)
}

/// Whether a branch record is read back.
fn is_branch_kept(
    alloc: Global,
    draft: &mut Draft<Sha512Cut>,
    merging: Option<Address>,
) -> Result<bool, PutFault> {
    let branch = BranchRecord {
        head: ONE,
        working: TWO,
        staged: ONE,
        merging,
    };
    let address = write_branch(alloc, draft, &branch)?;
    Ok(read_branch(draft, &address) == branch)
}

/// A commit of two parents.
fn commit_of(alloc: Global) -> Result<CommitRecord, AllocError>
    ensures { IfOk result (λ commit. KeepsLimits (parts_of commit)) }
{
    Ok(CommitRecord {
        root: ONE,
        parents: Sequence::from_vec(Vec::from_slice(alloc, &[TWO, ONE])?),
        height: 3,
        date: 5,
        committer: Text::from_slice(alloc, b"alice")?,
        message: Text::from_slice(alloc, b"merged")?,
    })
}

/// Whether a commit is read back, and its height alone.
fn is_commit_kept(
    alloc: Global,
    draft: &mut Draft<Sha512Cut>,
    commit: &CommitRecord,
) -> Result<bool, PutFault>
    requires { KeepsLimits (parts_of commit.now) }
{
    let address = write_commit(alloc, draft, commit)?;
    Ok(height(draft, &address) == commit.height && read_commit(alloc, draft, &address)? == *commit)
}

fn keeps_table(alloc: Global, draft: &mut Draft<Sha512Cut>) -> Result<bool, PutFault> {
    let table = table_of(alloc)?;
    is_table_kept(alloc, draft, &table)
}

fn keeps_database(alloc: Global, draft: &mut Draft<Sha512Cut>) -> Result<bool, PutFault> {
    let tables = tables_of(alloc)?;
    is_database_kept(alloc, draft, &tables)
}

fn keeps_commit(alloc: Global, draft: &mut Draft<Sha512Cut>) -> Result<bool, PutFault> {
    let commit = commit_of(alloc)?;
    is_commit_kept(alloc, draft, &commit)
}

/// Whether all four are read back.
fn are_kept(alloc: Global, draft: &mut Draft<Sha512Cut>) -> Result<bool, PutFault> {
    Ok(
        keeps_table(alloc, draft)?
            && keeps_database(alloc, draft)?
            && is_branch_kept(alloc, draft, None)?
            && is_branch_kept(alloc, draft, Some(TWO))?
            && keeps_commit(alloc, draft)?,
    )
}

#[test]
fn what_is_written_is_read_back(rt: HostRuntime) -> Result<(), Fail> {
    let mut draft = draft_of::<Sha512Cut>(rt.alloc())?;
    assert!(rt; are_kept(rt.alloc(), &mut draft)?);
    Ok(())
}
