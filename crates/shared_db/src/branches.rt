//! Branches with their records, by the bytes of their names.

ghost use Rattle.std.specs.Prelude.{◌≡◌, ◌<◌, ◌≤◌, ◌++◌, ◌∷◌, [], true, map, codes, Some, None, IfOk, if◌then◌else◌, bytes_eq, vec_len};
ghost use Rattle.std.specs.Vec.{vec_capacity};
ghost use Rattle.schema_model.specs.Limits.{most_branches};
ghost use Rattle.session_state.specs.Changes.{lines_rise};
ghost use Rattle.session_state.specs.Laws.{head_in, with_record};
ghost use Rattle.shared_db.specs.Members.{line_of, lines_of, numbers_of, places_of, with_rec};
ghost use Rattle.shared_db.specs.Shared.{changed_lines, record_at};

use crate::changes::RecordChange;
use script_text::BranchLine;
use std::alloc::{AllocError, Global};
use table_root::{BranchHead, BranchName, HeadList, Heads};
use tuple_codec::{BranchRecord, Sequence, Text};

/// A branch and its record.
#[derive(Clone, Copy)]
pub struct NamedBranch {
    pub name: BranchName,
    pub rec: BranchRecord,
}

/// The branch on which a session is, and how many statements it has.
#[derive(Clone, Copy)]
pub struct Member {
    pub branch: BranchName,
    pub statements: u32,
}

/// The record of the branch of this name.
pub fn record_of(branches: &[NamedBranch], name: &BranchName) -> Option<BranchRecord>
    ensures { result ≡ record_at name.now (lines_of branches.now) }
{
    for branch in branches {
        if branch.name == *name {
            return Some(branch.rec);
        }
    }
    None
}

/// Gives the branch of this name another record, where it changes.
pub fn change_record(branches: &mut Vec<NamedBranch>, name: &BranchName, change: RecordChange)
    ensures lines { lines_of branches.new.items ≡ changed_lines name.now change (lines_of branches.old.items) }
    ensures len { vec_len branches.new ≡ vec_len branches.old }
    ensures capacity { vec_capacity branches.new ≡ vec_capacity branches.old }
{
    if let RecordChange::Record(rec) = change {
        set_record(branches.as_mut_slice(), name, rec);
    }
}

fn set_record(branches: &mut [NamedBranch], name: &BranchName, rec: BranchRecord)
    ensures { lines_of branches.new ≡ with_record name.now rec (lines_of branches.old) }
{
    for branch in branches.iter_mut() {
        *branch = with_rec(*branch, name, rec);
    }
}

/// The branch, with another record where it has this name.
fn with_rec(branch: NamedBranch, name: &BranchName, rec: BranchRecord) -> NamedBranch
    ensures { result ≡ with_rec name.now rec branch }
{
    if branch.name == *name {
        NamedBranch {
            name: branch.name,
            rec,
        }
    } else {
        branch
    }
}

/// The branches' heads.
pub fn heads_of(alloc: Global, branches: &[NamedBranch]) -> Result<Heads, AllocError>
    requires { lines_rise (lines_of branches.now) ≡ true }
    ensures { IfOk result (λ heads. heads ≡ map head_in (lines_of branches.now)) }
{
    let mut heads = HeadList::with_capacity(alloc, branches.len())?;
    for branch in branches {
        heads.push(BranchHead {
            branch: branch.name,
            head: branch.rec.head,
        })?;
    }
    Ok(Heads::from_list(heads))
}

/// The branches' names and records.
pub fn branch_lines(
    alloc: Global,
    branches: &[NamedBranch],
) -> Result<Sequence<BranchLine>, AllocError>
    ensures { IfOk result (λ lines. lines ≡ lines_of branches.now) }
{
    let mut lines = Vec::with_capacity(alloc, branches.len())?;
    for branch in branches {
        lines.push(line_of(alloc, branch)?)?;
    }
    Ok(Sequence::from_vec(lines))
}

fn line_of(alloc: Global, branch: &NamedBranch) -> Result<BranchLine, AllocError>
    ensures { IfOk result (λ line. line ≡ line_of branch.now) }
{
    Ok(BranchLine {
        name: Text::from_slice(alloc, branch.name.bytes())?,
        rec: branch.rec,
    })
}

/// The branch `main` alone, in room for as many branches as there may be.
pub fn main_alone(alloc: Global, rec: BranchRecord) -> Result<Vec<NamedBranch>, AllocError>
    ensures lines { IfOk result (λ branches. lines_of branches.items ≡ record { name = codes "main"; rec = rec } ∷ []) }
    ensures room { IfOk result (λ branches. most_branches ≤ vec_capacity branches) }
{
    let mut branches = Vec::with_capacity(alloc, 1024)?;
    branches.push_reserved(NamedBranch {
        name: main_name(),
        rec,
    });
    Ok(branches)
}

/// Sessions on the branch `main`, with so many statements each.
pub fn all_on_main(alloc: Global, statements: &[u32]) -> Result<Vec<Member>, AllocError>
    ensures places { IfOk result (λ members. places_of members.items ≡ map (λ number. codes "main") statements.now) }
    ensures numbers { IfOk result (λ members. numbers_of members.items ≡ statements.now) }
{
    let mut members = Vec::with_capacity(alloc, statements.len())?;
    for number in statements {
        members.push(Member {
            branch: main_name(),
            statements: *number,
        })?;
    }
    Ok(members)
}

fn main_name() -> BranchName
    ensures { result ≡ codes "main" }
{
    match BranchName::read(b"main") {
        Some(name) => name,
        None => unreachable!(),
    }
}
