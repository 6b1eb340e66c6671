//! How a value that is held is left.

ghost use Rattle.std.specs.Prelude.{◌≡◌, false, if◌then◌else◌};
ghost use Rattle.seat_gate.specs.History.{HasMade};
ghost use Rattle.seat_gate.specs.Standing.{CanHold, IsEmpty, IsReady, is_holding, stand_at, stand_view};
ghost use Rattle.seat_gate.specs.Words.{IsTaken, held_at, held_value, held_view};
ghost use Rattle.thread_run.specs.Leaving.{is_done, is_made, view_after};

use seat_gate::{Held, Kept, Stand};
use shared_db::Settled;
use std::alloc::AllocError;
use table_root::Look;

/// Leaves the value unmarked, or keeps it.
pub(crate) fn put_back<'a, T: Kept>(stand: &mut Stand<'a, T>, held: Held<'a, T>, keeps: bool)
    requires value { CanHold T.fits (stand_at stand.old) held }
    requires empty { IsEmpty stand.old }
    ensures ready { IsReady T.fits stand.new }
    ensures view { stand_view stand.new ≡ held_view held.entry }
    ensures holds { is_holding stand.new ≡ keeps }
    ensures same { stand_at stand.new ≡ stand_at stand.old }
{
    if keeps {
        stand.keep(held);
    } else {
        let seat = held.leave();
        stand.sit(seat);
    }
}

/// Leaves the value marked with a statement's number where its moment was made. Else it is left unmarked, or kept.
pub(crate) fn leave<'a, T: Kept>(
    stand: &mut Stand<'a, T>,
    held: Held<'a, T>,
    statement: u32,
    made: bool,
    keeps: bool,
)
    requires gate { held_at held ≡ stand_at stand.old }
    requires taken { IsTaken held }
    requires fits { T.fits (held_value held) (held_view held).opened (view_after made (held_view held) statement (T.spelled (held_value held))).seen }
    requires empty { IsEmpty stand.old }
    ensures ready { IsReady T.fits stand.new }
    ensures own { HasMade (stand_view stand.new) }
    ensures view { stand_view stand.new ≡ view_after made (held_view held.entry) statement (T.spelled (held_value held.entry)) }
    ensures holds { is_holding stand.new ≡ (if made then false else keeps) }
    ensures same { stand_at stand.new ≡ stand_at stand.old }
{
    if made {
        let seat = held.leave_marked(u64::from(statement));
        stand.sit(seat);
    } else {
        put_back(stand, held, keeps);
    }
}

/// Whether the settle made its moment.
pub(crate) fn is_made(ended: &Result<(Settled, Option<Look>), AllocError>) -> bool
    ensures { result ≡ is_made ended.now }
{
    match ended {
        Ok(both) => is_done(&both.0),
        Err(_) => false,
    }
}

fn is_done(settled: &Settled) -> bool
    ensures { result ≡ is_done settled.now }
{
    matches!(settled, Settled::Done)
}
