//! The atomic steps of a turn. Word 0 is the next ticket, word 1 the ticket that is served, word 2 counts the entries, and word 3 is the bed, on which seats
//! sleep: it is odd while one may.
ghost use Rattle.std.specs.Prelude.{◌≡◌, false, true, [], ◌∷◌, None, Some, IfSome};
ghost use Rattle.seat_gate.specs.Places.{marked};
ghost use Rattle.seat_gate.specs.History.{StartsWith, OneOpening, entry};
ghost use Rattle.seat_gate.specs.Rule.{Drew, Looked, Rose};

use crate::gate::Gate;
use crate::kept::Kept;
use crate::place::SeatState;
use crate::plays::{Bed, Draw, Look, Note, Recall, Rise, Write};
use atomic_table::Seat;
use std::sync::Wait;
use std::thread::yield_now;

/// All words of a gate.
pub(crate) const WORDS: usize = 4;

/// The word on which seats sleep.
const BED: usize = 3;

/// So often a waiting seat looks before it sleeps, so that a short turn of another costs no sleep.
const LOOKS: u64 = 60;

impl<T: Kept> Gate<T> {
    // Draws the ticket that is served, so that the seat's turn is at once, or none where another seat has it. A seat that sleeps has no ticket: who runs
    // when a turn ends takes the next one, and none waits for a thread that the processors leave out.
    pub(crate) fn draw_ticket(&self, seat: &mut Seat<Option<T>, SeatState>) -> Option<u64>
        requires here { seat.old.table_id ≡ self.now.table.shared.table_id }
        requires rests { (seat.old.me.0.waits ≡ false) × (seat.old.me.0.serves ≡ false) × (seat.old.me.0.spent ≡ false) }
        ensures same { seat.new.table_id ≡ seat.old.table_id }
        ensures drew { IfSome result (λ ticket. Drew seat.old.me ticket seat.new.me) }
        ensures none { result ≡ None → seat.new.me ≡ seat.old.me }
    {
        let served = self.table.shared.peek(1);
        let next = served.wrapping_add(1);
        let found = self
            .table
            .shared
            .compare_exchange::<Draw>(seat, 0, served, next);
        if found == served { Some(found) } else { None }
    }

    pub(crate) fn read_serving(&self, seat: &mut Seat<Option<T>, SeatState>) -> u64
        requires here { seat.old.table_id ≡ self.now.table.shared.table_id }
        requires waits { (seat.old.me.0.waits ≡ true) × (seat.old.me.0.serves ≡ false) }
        ensures same { seat.new.table_id ≡ seat.old.table_id }
        ensures looked { Looked T.fits seat.old.me result seat.new.me }
    {
        self.table.shared.load::<Look<T>>(seat, 1)
    }

    // The entry is picked by the call, since a step reads no arguments: this seat's, with the note and the spelling of the value.
    pub(crate) fn count_entry<N: Note>(
        &self,
        seat: &mut Seat<Option<T>, SeatState>,
        _note: u64,
        _value: &T,
    )
        requires here { seat.old.table_id ≡ self.now.table.shared.table_id }
        requires serves { seat.old.me.0.serves ≡ true }
        requires picked { N.entry ≡ entry seat.old.me.0.view.number _note (T.spelled _value.now) }
        ensures same { seat.new.table_id ≡ seat.old.table_id }
        ensures wrote { seat.new.me ≡ (marked (entry seat.old.me.0.view.number _note (T.spelled _value.now)) seat.old.me.0, seat.old.me.1) }
    {
        self.table.shared.fetch_add::<Write<N>>(seat, 2, 1);
    }

    // Two seats were made one: it tells that the shorter of what both had seen begins the longer, and that they are of one opening.
    pub(crate) fn recall(&self, seat: &mut Seat<Option<T>, SeatState>)
        requires here { seat.old.table_id ≡ self.now.table.shared.table_id }
        requires live { seat.old.me.0.spent ≡ false }
        ensures same { (seat.new.table_id ≡ seat.old.table_id) × (seat.new.me ≡ seat.old.me) }
        ensures recalled { StartsWith seat.old.me.0.view.seen seat.old.me.0.recalls }
        ensures opened { OneOpening seat.old.me.0.view }
    {
        self.table.shared.load::<Recall>(seat, 0);
    }

    // One of those that sleep is called, to try for the next turn.
    pub(crate) fn serve_next(&self, seat: &mut Seat<Option<T>, SeatState>)
        requires here { seat.old.table_id ≡ self.now.table.shared.table_id }
        requires serves { seat.old.me.0.serves ≡ true }
        requires fits { (value : T) × (seat.old.me.1 ≡ (0, Some value) ∷ []) × T.fits value seat.old.me.0.view.opened seat.old.me.0.view.seen }
        ensures same { seat.new.table_id ≡ seat.old.table_id }
        ensures rose { Rose seat.old.me seat.new.me }
    {
        self.table.shared.fetch_add::<Rise>(seat, 1, 1);
        self.call(seat);
    }

    // Wakes one seat that sleeps. One that has lain down and doesn't sleep yet finds the bed's word raised, and won't.
    fn call(&self, seat: &mut Seat<Option<T>, SeatState>)
        requires here { seat.old.table_id ≡ self.now.table.shared.table_id }
        ensures same { (seat.new.table_id ≡ seat.old.table_id) × (seat.new.me ≡ seat.old.me) }
    {
        if self.table.shared.peek(BED) % 2 == 1 {
            self.table.shared.fetch_add::<Bed>(seat, BED, 1);
            self.table.shared.wake_one(BED);
        }
    }

    // The bed's word, made odd, once the seat has looked often enough. It does so before it tries again: whoever ends a turn behind that try finds the word odd,
    // and calls. One that slept does so each time, since others may still sleep.
    pub(crate) fn lie_down(&self, seat: &mut Seat<Option<T>, SeatState>, looks: u64) -> Option<u64>
        requires here { seat.old.table_id ≡ self.now.table.shared.table_id }
        ensures same { (seat.new.table_id ≡ seat.old.table_id) × (seat.new.me ≡ seat.old.me) }
    {
        if looks < LOOKS {
            None
        } else {
            Some(self.table.shared.fetch_or::<Bed>(seat, BED, 1) | 1)
        }
    }

    // Lets others run, or sleeps until the bed's word is another than this.
    pub(crate) fn wait<R: Wait>(&self, rt: &R, bed: Option<u64>) {
        match bed {
            Some(word) => {
                let expected = (word % (1 << 32)) as u32;
                self.table.shared.park(rt, BED, expected);
            }
            None => yield_now(),
        }
    }
}
