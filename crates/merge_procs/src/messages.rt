//! The message of a merge's commit.

ghost use Rattle.std.specs.Prelude.{◌≡◌, ◌≤◌, ◌++◌, IfOk, codes, length, true};
ghost use Rattle.std.specs.Option.{option_map_or};
ghost use Rattle.sql_procedures.specs.Arguments.{is_message};
ghost use Rattle.merge_procs.specs.Planning.{message_on};

use sql_procedures::MergeOf;
use std::alloc::{AllocError, Global};
use table_root::BranchName;
use tuple_codec::Text;

/// The message that is given, or one of both names.
pub(crate) fn merge_message(
    alloc: Global,
    branch: &BranchName,
    merge: &MergeOf,
) -> Result<Text, AllocError>
    ensures message { IfOk result (λ message. message ≡ message_on branch.now merge.now) }
    ensures few { length merge.now.name ≤ 64 → option_map_or is_message merge.now.message true ≡ true → IfOk result (λ message. length message ≤ 8192) }
{
    match &merge.message {
        Some(message) => Text::from_slice(alloc, message.as_slice()),
        None => both_names(alloc, merge.name.as_slice(), branch.bytes()),
    }
}

/// `Merge NAME into BRANCH`.
fn both_names(alloc: Global, name: &[u8], branch: &[u8]) -> Result<Text, AllocError>
    ensures { IfOk result (λ message. message ≡ codes "Merge " ++ name.now ++ codes " into " ++ branch.now) }
{
    let mut message = Text::from_slice(alloc, b"Merge ")?;
    message.extend_from_slice(name)?;
    message.extend_from_slice(b" into ")?;
    message.extend_from_slice(branch)?;
    Ok(message)
}
