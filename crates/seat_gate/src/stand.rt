//! A place at a gate from which a thread takes the value call by call, and may keep it between two calls.
ghost use Rattle.std.specs.Prelude.{◌≡◌, true, false};
ghost use Rattle.seat_gate.specs.History.{HasMade};
ghost use Rattle.seat_gate.specs.Words.{gate_id, gate_of, seat_view, held_at, held_view};
ghost use Rattle.seat_gate.specs.Standing.{HasSeenMore, spot_view, stand_at, stand_view, is_holding, IsReady, IsEmpty, CanHold};

use crate::gate::Gate;
use crate::held::Held;
use crate::kept::Kept;
use crate::seat::Seat;
use std::mem::replace;
use std::sync::Wait;

/// Where the seat of a stand is.
pub(crate) enum Spot<'a, T: Kept> {
    /// With the caller.
    Away,
    /// At rest.
    Seated(Seat),
    /// Its turn has come, and it keeps the value.
    Holding(Held<'a, T>),
}

/// A place at a gate, behind `&mut` in the thread's own state. What is taken from it has to be put back: a function that lets go
/// of a stand or of the value does not compile.
pub struct Stand<'a, T: Kept> {
    pub(crate) gate: &'a Gate<T>,
    pub(crate) spot: Spot<'a, T>,
}

// Puts a seat or the value where there is none.
fn put<'a, T: Kept>(place: &mut Spot<'a, T>, spot: Spot<'a, T>)
    requires { place.old ≡ Spot.Away }
    ensures { place.new ≡ spot.entry }
{
    match replace(place, spot) {
        Spot::Away => {}
        Spot::Seated(_seat) => unreachable!(),
        Spot::Holding(_held) => unreachable!(),
    }
}

impl<'a, T: Kept> Stand<'a, T> {
    /// A stand whose seat is at rest.
    pub fn new(gate: &'a Gate<T>, seat: Seat) -> Stand<'a, T>
        requires gate { gate_of seat ≡ gate_id gate.now }
        requires own { HasMade (seat_view seat) }
        ensures ready { IsReady T.fits result }
        ensures gate { stand_at result ≡ gate_id gate.entry.now }
        ensures view { stand_view result ≡ seat_view seat }
        ensures rests { is_holding result ≡ false }
    {
        Stand {
            gate,
            spot: Spot::Seated(seat),
        }
    }

    /// Whether the value is kept, so that no other seat has a turn.
    pub fn is_holding(&self) -> bool
        ensures { result ≡ is_holding self.now }
    {
        matches!(&self.spot, Spot::Holding(_))
    }

    /// The value: the one that is kept, or the one that the seat waits for.
    pub fn take<R: Wait>(&mut self, rt: &R) -> Held<'a, T>
        requires ready { IsReady T.fits self.old }
        ensures value { CanHold T.fits (stand_at self.old) result }
        ensures saw { HasSeenMore (stand_view self.old) (held_view result) }
        ensures still { is_holding self.old ≡ true → held_view result ≡ stand_view self.old }
        ensures empty { IsEmpty self.new }
        ensures same { stand_at self.new ≡ stand_at self.old }
    {
        match replace(&mut self.spot, Spot::Away) {
            Spot::Seated(seat) => self.gate.enter(rt, seat),
            Spot::Holding(held) => held,
            Spot::Away => unreachable!(),
        }
    }

    /// Keeps the value, as it is written now.
    pub fn keep(&mut self, held: Held<'a, T>)
        requires value { CanHold T.fits (stand_at self.old) held }
        requires empty { IsEmpty self.old }
        ensures ready { IsReady T.fits self.new }
        ensures view { stand_view self.new ≡ held_view held.entry }
        ensures holds { is_holding self.new ≡ true }
        ensures same { stand_at self.new ≡ stand_at self.old }
    {
        put(&mut self.spot, Spot::Holding(held));
    }

    /// Puts the seat back, which left the value.
    pub fn sit(&mut self, seat: Seat)
        requires gate { gate_of seat ≡ stand_at self.old }
        requires own { HasMade (seat_view seat) }
        requires empty { IsEmpty self.old }
        ensures ready { IsReady T.fits self.new }
        ensures view { stand_view self.new ≡ seat_view seat }
        ensures rests { is_holding self.new ≡ false }
        ensures same { stand_at self.new ≡ stand_at self.old }
    {
        put(&mut self.spot, Spot::Seated(seat));
    }

    /// The seat, at rest. A value that was kept is left as it is.
    pub fn into_seat(self) -> Seat
        requires ready { IsReady T.fits self }
        ensures gate { gate_of result ≡ stand_at self.entry }
        ensures view { seat_view result ≡ stand_view self.entry }
        ensures own { HasMade (seat_view result) }
    {
        let Stand { gate: _, spot } = self;
        match spot {
            Spot::Seated(seat) => seat,
            Spot::Holding(held) => held.leave(),
            Spot::Away => unreachable!(),
        }
    }
}
