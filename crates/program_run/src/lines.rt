//! The branch on which the workload's table is looked for.

ghost use Rattle.std.specs.Prelude.{◌≡◌};
ghost use Rattle.std.specs.List.{find};
ghost use Rattle.std.specs.Option.{option_map};
ghost use Rattle.program_run.specs.Loading.{is_main};

use script_text::BranchLine;

/// The line of `main`, if it is there.
pub(crate) fn main_in(lines: &[BranchLine]) -> Option<&BranchLine>
    ensures { option_map (λ line. line.now) result ≡ find is_main lines.now }
{
    for line in lines {
        if line.name.as_slice() == b"main".as_slice() {
            return Some(line);
        }
    }
    None
}
