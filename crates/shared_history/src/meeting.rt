//! Where a session meets what all sessions share.

ghost use Rattle.std.specs.Prelude.{◌≡◌, ◌≢◌, ◌<◌, true, false, slice_get, None, Some, IfOk, OnErr};
ghost use Rattle.std.specs.Arc.{arc_value};
ghost use Rattle.std.specs.Option.{option_map};
ghost use Rattle.chunk_store.specs.Chunks.{Lists};
ghost use Rattle.chunk_store.specs.Stores.{all_chunks};
ghost use Rattle.shared_db.specs.Shared.{record_at};
ghost use Rattle.shared_history.specs.Meeting.{Comes, Holds, IsOn, IsUnmoved, Looks, MaySettle, Settles, Starts, Steps, Tells, after_letting_go, room_of};

use chunk_store::Segment;
use shared_db::{BranchReply, BranchStep, RecordChange, Settled};
use std::alloc::{AllocError, Global};
use std::sync::Arc;
use table_root::{BranchName, Look};
use tuple_codec::Digester;

/// A session's way to the shared database: each call meets it once, in whatever state other sessions left it. For contracts alone it tells how
/// many calls it made, how many settles were lost and how often the database was held, none of which falls, and, where an implementation
/// wants to, the moments that were made through it.
pub trait Meeting<D: Digester> {
    // It can be used, and came from such a beginning: whatever beginning it had before a call, it has after it.
    ghost ready: { Self → Self → Type 0 };

    // What it tells of itself.
    ghost tells: { Self → Tells };

    /// Makes the moment of a start, and shows the branch as it was found. Where memory was wanting there is no moment.
    fn start(&mut self, alloc: Global, branch: &BranchName) -> Result<Look, AllocError>
        requires ready { (first : Self) × ready first self.old }
        requires free { (tells self.old).held ≡ false }
        requires branch { IsOn branch.now (tells self.old) }
        requires room { 0 < room_of (tells self.old) }
        ensures ready { (first : Self) → ready first self.old → ready first self.new }
        ensures started { IfOk result (λ look. Starts D.address branch.now look (tells self.old) (tells self.new)) }
        ensures short { OnErr result (Comes D.address (tells self.old) (tells self.new)) };

    /// Makes a step on the list of branches, and its moment, whether the step was done or not. It takes no memory.
    fn branch_step(&mut self, step: &BranchStep) -> BranchReply
        requires ready { (first : Self) × ready first self.old }
        requires free { (tells self.old).held ≡ false }
        requires placed { slice_get (tells self.old).seen.places (tells self.old).session ≢ None }
        requires room { 0 < room_of (tells self.old) }
        ensures ready { (first : Self) → ready first self.old → ready first self.new }
        ensures stepped { Steps D.address step.now result (tells self.old) (tells self.new) };

    /// Shows the branch as it is found.
    fn look(&mut self, alloc: Global, branch: &BranchName) -> Result<Look, AllocError>
        requires ready { (first : Self) × ready first self.old }
        requires branch { IsOn branch.now (tells self.old) }
        ensures ready { (first : Self) → ready first self.old → ready first self.new }
        ensures looked { IfOk result (λ look. Looks D.address branch.now look (tells self.old) (tells self.new)) }
        ensures short { OnErr result (Comes D.address (tells self.old) (tells self.new)) };

    /// Makes the moment of a decision where the branch still has the record that was looked at. With `next` it also shows the branch as the
    /// decision leaves it; memory for that is taken before anything is changed, and an `Err` comes only then. All answers but `Moved` end a hold.
    fn settle(
        &mut self,
        alloc: Global,
        look: &Look,
        change: RecordChange,
        sealed: Option<Arc<Segment>>,
        next: bool,
    ) -> Result<(Settled, Option<Look>), AllocError>
        requires ready { (first : Self) × ready first self.old }
        requires branch { IsOn look.now.branch (tells self.old) }
        requires given { Lists (all_chunks look.now.store) (tells self.old).seen.chunks }
        requires stands { MaySettle D.address look.now change (option_map arc_value sealed) }
        requires room { 0 < room_of (tells self.old) }
        ensures ready { (first : Self) → ready first self.old → ready first self.new }
        ensures settled { Settles D.address look.now change (option_map arc_value sealed) next (tells self.old) (tells self.new) result }
        ensures kept { (tells self.old).held ≡ true → record_at look.now.branch (tells self.old).seen.branches ≡ Some look.now.rec → IsUnmoved result };

    /// Holds the shared database, so that no other session acts, until a settle that isn't lost, or until it is let go.
    fn hold(&mut self)
        requires ready { (first : Self) × ready first self.old }
        requires free { (tells self.old).held ≡ false }
        ensures ready { (first : Self) → ready first self.old → ready first self.new }
        ensures held { Holds D.address (tells self.old) (tells self.new) };

    /// Ends a hold in which nothing was settled.
    fn let_go(&mut self)
        requires ready { (first : Self) × ready first self.old }
        requires held { (tells self.old).held ≡ true }
        ensures ready { (first : Self) → ready first self.old → ready first self.new }
        ensures free { tells self.new ≡ after_letting_go (tells self.old) };
}
