//! Seats: a gate is opened with one, which gives out the others, takes them in again and closes the gate.
ghost use Rattle.std.specs.Prelude.{◌≡◌, ◌≢◌, ℕ, ◌+◌, ◌^◌, ◌<◌, ◌⊎◌, List, [], IfOk, OnOk, OnErr};
ghost use Rattle.seat_gate.specs.History.{Entry, StartsWith, first_view, parted, newcomer, joined_with};
ghost use Rattle.seat_gate.specs.Words.{gate_id, gate_of, seat_view, HasJoined, HasJoinedBelow, IsWhole};

use crate::gate::Gate;
use crate::kept::Kept;
use crate::plays::{Cut, Glue};
use crate::seat::Seat;
use crate::steps::WORDS;
use atomic_table::{Badge, Refused, Table};
use std::alloc::{AllocError, Global};
use std::mem::replace;
use std::snapshot::Snapshot;

impl<T: Kept> Gate<T> {
    /// A gate that keeps the value, and its first seat, of number 0. Where there is no memory the value is dropped.
    pub fn open(alloc: Global, value: T) -> Result<(Gate<T>, Seat), AllocError>
        requires { T.fits value (T.spelled value) [] }
        ensures gate { IfOk result (λ r. gate_of r.1 ≡ gate_id r.0) }
        ensures seat { IfOk result (λ r. seat_view r.1 ≡ first_view (T.spelled value)) }
    {
        let opening = Snapshot::of(&value);
        let mut slots = Vec::with_capacity(alloc, 1)?;
        slots.push_reserved(Some(value));
        match Table::new(alloc, &[0; WORDS], slots, &opening) {
            Ok((table, seat)) => Ok((
                Gate { table },
                Seat {
                    badge: seat.into_badge(),
                },
            )),
            Err(Refused { slots: _ }) => Err(AllocError),
        }
    }

    /// The first seat gives out another, with the next number.
    pub fn split(&self, _alloc: Global, seat: &mut Seat) -> Result<Seat, AllocError>
        requires gate { gate_of seat.old ≡ gate_id self.now }
        requires first { (seat_view seat.old).number ≡ 0 }
        requires few { (seat_view seat.old).given + 1 < 2 ^ 32 }
        ensures same { gate_of seat.new ≡ gate_id self.now }
        ensures ok { OnOk result (seat_view seat.new ≡ parted (seat_view seat.old)) }
        ensures new { IfOk result (λ new. (gate_of new ≡ gate_id self.now) × (seat_view new ≡ newcomer (seat_view seat.old))) }
        ensures err { OnErr result (seat_view seat.new ≡ seat_view seat.old) }
    {
        let badge = replace(&mut seat.badge, Badge::blank());
        let mut place = badge.into_seat::<Option<T>>();
        let new = self.table.shared.split_seat::<Cut>(&mut place);
        seat.badge = place.into_badge();
        Ok(Seat {
            badge: new.into_badge(),
        })
    }

    /// Takes the second seat into the first, which has then seen the longer of what both had seen.
    pub fn rejoin(&self, into: Seat, other: Seat) -> Seat
        requires into { gate_of into ≡ gate_id self.now }
        requires other { gate_of other ≡ gate_id self.now }
        ensures gate { gate_of result ≡ gate_id self.now }
        ensures both { seat_view result ≡ joined_with (seat_view into) (seat_view other) }
        ensures opened { (seat_view other).opened ≡ (seat_view into).opened }
        ensures joined { (k : ℕ) → (k ≡ (seat_view other).number) ⊎ (HasJoined k (seat_view into) ⊎ HasJoined k (seat_view other)) → HasJoined k (seat_view result) }
        ensures longer { StartsWith (seat_view result).seen (seat_view into).seen × StartsWith (seat_view result).seen (seat_view other).seen }
    {
        let mut place = into.badge.into_seat::<Option<T>>();
        let spent = other.badge.into_seat::<Option<T>>();
        self.table.shared.join_seat::<Glue>(&mut place, spent);
        self.recall(&mut place);
        Seat {
            badge: place.into_badge(),
        }
    }

    /// Ends the gate, once each other seat was joined into this one.
    pub fn close(self, seat: Seat) -> T
        requires gate { gate_of seat ≡ gate_id self }
        requires counted { 0 < (seat_view seat).given }
        requires all { HasJoinedBelow (seat_view seat).given (seat_view seat) }
        ensures { (log : List Entry) × IsWhole T.fits result (seat_view seat) log }
    {
        let Gate { table } = self;
        let mut closed = table.close_with(seat.badge.into_seat());
        let value = closed.take(0);
        closed.free();
        value.unwrap()
    }
}
