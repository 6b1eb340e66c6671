//! What a merge has left in databases and branch records: conflicts and violations that tables have recorded.

ghost use Rattle.std.specs.Prelude.{◌≡◌, ◌==◌, ℕ, not, List, length, IfOk};
ghost use Rattle.tuple_codec.specs.Nodes.{Item};
ghost use Rattle.schema_model.specs.PlainTables.{PlainDatabase, PlainTable};
ghost use Rattle.chunk_store.specs.Chunks.{Chunks};
ghost use Rattle.chunk_store.specs.Drafts.{chunks_of};
ghost use Rattle.chunk_store.specs.Standing.{IsTree};
ghost use Rattle.table_root.specs.Standing.{IsTableAt};
ghost use Rattle.table_root.specs.Kept.{HasKeptAt, IsKeptAt};
ghost use Rattle.plain_sessions.specs.CommitRule.{is_unsettled};
ghost use Rattle.plain_sessions.specs.Records.{BranchState};
ghost use Rattle.root_merge.specs.Settling.{AreListedThere, AreSettledRoots, IsSettledDatabase, IsSettledTable, database_left, either, has, is_any, state_left, table_left};
ghost use Rattle.root_merge.specs.States.{BranchStateStands, HasBranchState};

use crate::laws::laws_of_growth;
use chunk_store::Draft;
use prolly_tree::count;
use smallvec::SmallVec;
use std::alloc::{AllocError, Global};
use table_root::{first_listed, listed_tables, recorded_roots};
use tuple_codec::{Address, BranchRecord, Digester};

/// Whether tables have recorded conflicts, and whether violations.
#[derive(Clone, Copy, PartialEq, Eq)]
pub(crate) struct Left {
    pub conflicts: bool,
    pub violations: bool,
}

/// Addresses of tables and of databases that were seen to have recorded neither conflicts nor violations. They need no second look: an address
/// stands for one table, also once the draft has grown. They are few, since a database has at most 256 tables, and the first ones take no memory.
#[derive(Drop)]
pub(crate) struct Settled {
    tables: SmallVec<[u8; 20], 8>,
    databases: SmallVec<[u8; 20], 4>,
}

/// Whether an address is one of these.
fn is_among(seen: &[[u8; 20]], address: &Address) -> bool
    ensures { result ≡ has seen.now address.now.0 }
{
    seen.iter().any(|known| *known == address.0)
}

impl Settled {
    /// None was seen yet.
    pub(crate) fn new(alloc: Global) -> Settled
        ensures { (address : List ℕ → List ℕ) (chunks : Chunks) → AreSettledRoots address chunks result }
    {
        Settled {
            tables: SmallVec::new(alloc),
            databases: SmallVec::new(alloc),
        }
    }

    fn has_table(&self, address: &Address) -> bool
        ensures { result ≡ has self.now.tables.items address.now.0 }
    {
        is_among(self.tables.as_slice(), address)
    }

    fn has_database(&self, address: &Address) -> bool
        ensures { result ≡ has self.now.databases.items address.now.0 }
    {
        is_among(self.databases.as_slice(), address)
    }

    /// Keeps the address of a table that has recorded nothing.
    fn keep_table<D: Digester>(
        &mut self,
        draft: &Draft<D>,
        address: &Address,
    ) -> Result<(), AllocError>
        requires settled { AreSettledRoots D.address (chunks_of draft.now.chunks) self.old }
        requires table { IsSettledTable D.address (chunks_of draft.now.chunks) address.now.0 }
        ensures { AreSettledRoots D.address (chunks_of draft.now.chunks) self.new }
    {
        self.tables.push(address.0)?;
        Ok(())
    }

    /// Keeps the address of a database that has recorded nothing.
    fn keep_database<D: Digester>(
        &mut self,
        draft: &Draft<D>,
        address: &Address,
    ) -> Result<(), AllocError>
        requires settled { AreSettledRoots D.address (chunks_of draft.now.chunks) self.old }
        requires database { IsSettledDatabase D.address (chunks_of draft.now.chunks) address.now.0 }
        ensures { AreSettledRoots D.address (chunks_of draft.now.chunks) self.new }
    {
        self.databases.push(address.0)?;
        Ok(())
    }
}

fn is_any(left: Left) -> bool
    ensures { result ≡ is_any left }
{
    left.conflicts || left.violations
}

/// Whether a tree has rows.
fn has_rows<D: Digester>(draft: &Draft<D>, root: &Address) -> bool
    requires { (rows : List Item) × IsTree D.address (chunks_of draft.now.chunks) root.now.0 rows }
    ensures { (rows : List Item) → IsTree D.address (chunks_of draft.now.chunks) root.now.0 rows → result ≡ not (length rows == 0) }
{
    count(draft, root) != 0
}

/// Whether a tree has rows, where it is known whether another has. At one address they are the same, as empty ones are, and no second look is taken.
fn has_rows_too<D: Digester>(draft: &Draft<D>, root: &Address, other: &Address, known: bool) -> bool
    requires tree { (rows : List Item) × IsTree D.address (chunks_of draft.now.chunks) root.now.0 rows }
    requires known { (rows : List Item) → IsTree D.address (chunks_of draft.now.chunks) other.now.0 rows → known ≡ not (length rows == 0) }
    ensures { (rows : List Item) → IsTree D.address (chunks_of draft.now.chunks) root.now.0 rows → result ≡ not (length rows == 0) }
{
    if root == other {
        known
    } else {
        has_rows(draft, root)
    }
}

/// What the table at an address has recorded.
fn read_left<D: Digester>(draft: &Draft<D>, address: &Address) -> Left
    requires { (contents : PlainTable) × IsTableAt D.address (chunks_of draft.now.chunks) address.now.0 contents }
    ensures { (contents : PlainTable) → IsTableAt D.address (chunks_of draft.now.chunks) address.now.0 contents → result ≡ table_left contents }
{
    laws_of_growth();
    let roots = recorded_roots(draft, address);
    let conflicts = has_rows(draft, &roots.conflicts);
    let violations = has_rows_too(draft, &roots.violations, &roots.conflicts, conflicts);
    Left {
        conflicts,
        violations,
    }
}

/// The same, where a table that was seen isn't read again.
fn left_in_table<D: Digester>(
    draft: &Draft<D>,
    address: &Address,
    settled: &mut Settled,
) -> Result<Left, AllocError>
    requires table { (contents : PlainTable) × IsTableAt D.address (chunks_of draft.now.chunks) address.now.0 contents }
    requires settled { AreSettledRoots D.address (chunks_of draft.now.chunks) settled.old }
    ensures is { (contents : PlainTable) → IsTableAt D.address (chunks_of draft.now.chunks) address.now.0 contents
        → IfOk result (λ left. left ≡ table_left contents) }
    ensures settled { AreSettledRoots D.address (chunks_of draft.now.chunks) settled.new }
{
    laws_of_growth();
    if settled.has_table(address) {
        return Ok(Left {
            conflicts: false,
            violations: false,
        });
    }
    let left = read_left(draft, address);
    if is_any(left) {
        return Ok(left);
    }
    settled.keep_table(draft, address)?;
    Ok(left)
}

fn either(one: Left, other: Left) -> Left
    ensures { result ≡ either one other }
{
    Left {
        conflicts: one.conflicts || other.conflicts,
        violations: one.violations || other.violations,
    }
}

/// What the tables that these bytes list have recorded. There are few tables, so the calls don't go deep.
fn left_in_tables<D: Digester>(
    draft: &Draft<D>,
    tables: &[u8],
    settled: &mut Settled,
) -> Result<Left, AllocError>
    requires there { (database : PlainDatabase) × AreListedThere D.address (chunks_of draft.now.chunks) database tables.now }
    requires settled { AreSettledRoots D.address (chunks_of draft.now.chunks) settled.old }
    ensures is { (database : PlainDatabase) → AreListedThere D.address (chunks_of draft.now.chunks) database tables.now
        → IfOk result (λ left. left ≡ database_left database) }
    ensures settled { AreSettledRoots D.address (chunks_of draft.now.chunks) settled.new }
{
    match first_listed(tables) {
        None => Ok(Left {
            conflicts: false,
            violations: false,
        }),
        Some((table, others)) => {
            let one = left_in_table(draft, &table, settled)?;
            let more = left_in_tables(draft, others, settled)?;
            Ok(either(one, more))
        }
    }
}

/// What the tables of the database at an address have recorded. A database that was seen isn't read again.
pub(crate) fn left_in_database<D: Digester>(
    draft: &Draft<D>,
    database: &Address,
    settled: &mut Settled,
) -> Result<Left, AllocError>
    requires database { HasKeptAt D.address (chunks_of draft.now.chunks) database.now.0 }
    requires settled { AreSettledRoots D.address (chunks_of draft.now.chunks) settled.old }
    ensures is { (contents : PlainDatabase) → IsKeptAt D.address (chunks_of draft.now.chunks) database.now.0 contents
        → IfOk result (λ left. left ≡ database_left contents) }
    ensures settled { AreSettledRoots D.address (chunks_of draft.now.chunks) settled.new }
{
    laws_of_growth();
    if settled.has_database(database) {
        return Ok(Left {
            conflicts: false,
            violations: false,
        });
    }
    let tables = listed_tables(draft, database);
    let left = left_in_tables(draft, tables, settled)?;
    if is_any(left) {
        return Ok(left);
    }
    settled.keep_database(draft, database)?;
    Ok(left)
}

/// What a branch's databases have recorded.
pub(crate) fn left_in_record<D: Digester>(
    draft: &Draft<D>,
    branch: &BranchRecord,
    settled: &mut Settled,
) -> Result<Left, AllocError>
    requires state { HasBranchState D.address (chunks_of draft.now.chunks) branch.now }
    requires settled { AreSettledRoots D.address (chunks_of draft.now.chunks) settled.old }
    ensures is { (state : BranchState) → BranchStateStands D.address (chunks_of draft.now.chunks) branch.now state
        → IfOk result (λ left. left ≡ state_left state) }
    ensures settled { AreSettledRoots D.address (chunks_of draft.now.chunks) settled.new }
{
    let working = left_in_database(draft, &branch.working, settled)?;
    let staged = left_in_database(draft, &branch.staged, settled)?;
    Ok(either(working, staged))
}

/// Whether a branch has a merge in progress, conflicts or violations.
pub(crate) fn is_unsettled<D: Digester>(
    draft: &Draft<D>,
    branch: &BranchRecord,
    settled: &mut Settled,
) -> Result<bool, AllocError>
    requires state { HasBranchState D.address (chunks_of draft.now.chunks) branch.now }
    requires settled { AreSettledRoots D.address (chunks_of draft.now.chunks) settled.old }
    ensures is { (state : BranchState) → BranchStateStands D.address (chunks_of draft.now.chunks) branch.now state
        → IfOk result (λ found. found ≡ is_unsettled state) }
    ensures settled { AreSettledRoots D.address (chunks_of draft.now.chunks) settled.new }
{
    if branch.merging.is_some() {
        return Ok(true);
    }
    let left = left_in_record(draft, branch, settled)?;
    Ok(is_any(left))
}
