//! What the script of every seed has.

ghost use Rattle.std.specs.Prelude.{◌≡◌, ℕ, length, nat_lt, true};
ghost use Rattle.std.specs.List.{IsDistinct, list_all};
ghost use Rattle.std.specs.Str.{bytes_eq};
ghost use Rattle.script_text.specs.Shown.{is_shown_name};
ghost use Rattle.workload.specs.Workload.{workload};

/// Every workload is a script as one that is read: its names can be shown, they differ, each line is a session's, and the
/// lines are few.
pub fn law_of_workload()
    ensures shown { (seed : ℕ) → list_all is_shown_name (workload seed).names ≡ true }
    ensures distinct { (seed : ℕ) → IsDistinct bytes_eq (workload seed).names }
    ensures sessions { (seed : ℕ) → list_all (λ line. nat_lt line.session (length (workload seed).names)) (workload seed).lines ≡ true }
    ensures lines { (seed : ℕ) → length (workload seed).lines ≡ 4968 }
{}
