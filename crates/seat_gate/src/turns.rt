//! A turn: a seat waits until no other has one, draws the ticket that is served, takes the value out, and puts it back.
ghost use Rattle.std.specs.Prelude.{◌≡◌, ◌++◌, ◌∷◌, [], false};
ghost use Rattle.seat_gate.specs.History.{StartsWith, entry, entries_of, having_seen, with_entry, HasMade};
ghost use Rattle.seat_gate.specs.Rule.{Drew};
ghost use Rattle.seat_gate.specs.Words.{gate_id, gate_of, seat_view, held_at, held_view, held_value, IsTaken};

use crate::gate::Gate;
use crate::held::Held;
use crate::kept::Kept;
use crate::place::SeatState;
use crate::seat::Seat;
use atomic_table::Seat as TableSeat;
use std::marker::Brand;
use std::sync::Wait;

impl<T: Kept> Gate<T> {
    /// Waits for the seat's turn, and takes the value.
    pub fn enter<R: Wait>(&self, rt: &R, seat: Seat) -> Held<'_, T>
        requires { gate_of seat ≡ gate_id self.now }
        ensures gate { held_at result ≡ gate_id self.now }
        ensures taken { IsTaken result }
        ensures view { held_view result ≡ having_seen (held_view result).seen (seat_view seat) }
        ensures fits { T.fits (held_value result) (seat_view seat).opened (held_view result).seen }
        ensures prefix { StartsWith (held_view result).seen (seat_view seat).seen }
        ensures own { entries_of (seat_view seat).number (held_view result).seen ≡ (seat_view seat).made }
    {
        let mut seat = seat.badge.into_seat();
        let ticket = self.wait_for_ticket(rt, &mut seat);
        // The word said so before the ticket was drawn, and never falls, so one look is enough; and it tells of the whole history.
        for _ in rt.forever() {
            let found = self.read_serving(&mut seat);
            if found == ticket {
                let value = self.table.shared.exchange(&mut seat, 0, None).unwrap();
                return Held {
                    gate: self,
                    seat,
                    value,
                };
            }
        }
        unreachable!()
    }

    /// The ticket that is served, once no other seat has it.
    fn wait_for_ticket<R: Wait>(&self, rt: &R, seat: &mut TableSeat<Option<T>, SeatState>) -> u64
        requires here { seat.old.table_id ≡ self.now.table.shared.table_id }
        requires rests { (seat.old.me.0.waits ≡ false) × (seat.old.me.0.serves ≡ false) × (seat.old.me.0.spent ≡ false) }
        ensures same { seat.new.table_id ≡ seat.old.table_id }
        ensures drew { Drew seat.old.me result seat.new.me }
    {
        let mut looks = 0u64;
        for _ in rt.forever() {
            let bed = self.lie_down(seat, looks);
            if let Some(ticket) = self.draw_ticket(seat) {
                return ticket;
            }
            self.wait(rt, bed);
            looks = looks.saturating_add(1);
        }
        unreachable!()
    }
}

impl<'a, T: Kept> Held<'a, T> {
    /// Puts the value back, and makes no entry.
    pub fn leave(self) -> Seat
        requires taken { IsTaken self }
        requires fits { T.fits (held_value self) (held_view self).opened (held_view self).seen }
        ensures gate { gate_of result ≡ held_at self.entry }
        ensures view { seat_view result ≡ held_view self.entry }
        ensures own { HasMade (seat_view result) }
    {
        let Held {
            gate,
            mut seat,
            value,
        } = self;
        drop(gate.table.shared.exchange(&mut seat, 0, Some(value)));
        gate.serve_next(&mut seat);
        Seat {
            badge: seat.into_badge(),
        }
    }

    /// Puts the value back, with an entry of this seat and note.
    pub fn leave_marked(self, note: u64) -> Seat
        requires taken { IsTaken self }
        requires fits { T.fits (held_value self) (held_view self).opened ((held_view self).seen ++ entry (held_view self).number note (T.spelled (held_value self)) ∷ []) }
        ensures gate { gate_of result ≡ held_at self.entry }
        ensures view { seat_view result ≡ with_entry (entry (held_view self.entry).number note (T.spelled (held_value self.entry))) (held_view self.entry) }
        ensures own { HasMade (seat_view result) }
    {
        let Held {
            gate,
            mut seat,
            value,
        } = self;
        gate.count_entry::<Brand>(&mut seat, note, &value);
        Held { gate, seat, value }.leave()
    }
}
