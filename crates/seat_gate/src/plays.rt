//! The gate's rule, and what each of its steps tells.
ghost use Rattle.std.specs.Prelude.{◌≡◌, []};
ghost use Rattle.seat_gate.specs.History.{Entry};
ghost use Rattle.seat_gate.specs.Places.{marked, first_place, giving, given_out, taking_in, gone};
ghost use Rattle.seat_gate.specs.Rule.{Ordered, DrewWhere, Looked, Recalled, Rose};

use crate::kept::Kept;
use crate::place::SeatState;
use atomic_table::{Join, Play, Split, TableRule};
use std::marker::{Brand, PhantomData};
use std::snapshot::Snapshot;

/// The order of turns. The key is the value with which the gate was opened.
pub(crate) struct Order<T> {
    kept: PhantomData<T>,
}

impl<T: Kept> TableRule<Option<T>, SeatState, Snapshot<T>> for Order<T> {
    ghost holds = { λ key. Ordered T.fits (T.spelled key.value) };

    ghost first = { λ key. first_place (T.spelled key.value) };
}

/// Draws a ticket, where the word is the one that was looked for.
pub(crate) struct Draw;

impl<T> Play<Option<T>, SeatState> for Draw {
    ghost then = { λ step m n w. DrewWhere step.first m n w };
}

/// Reads the serving word, and takes the value where it is the seat's turn.
pub(crate) struct Look<T> {
    kept: PhantomData<T>,
}

impl<T: Kept> Play<Option<T>, SeatState> for Look<T> {
    ghost then = { λ _ m n w. Looked T.fits m n w };
}

/// The entry that a leaving seat adds, which its call picks.
pub(crate) trait Note {
    ghost entry: { Entry };
}

impl Note for Brand {
    ghost entry = { record { seat = 0; note = 0; left = [] } };
}

/// Raises the count with its entry.
pub(crate) struct Write<N> {
    note: PhantomData<N>,
}

impl<T, N: Note> Play<Option<T>, SeatState> for Write<N> {
    ghost then = { λ _ m _ w. w ≡ (marked N.entry m.0, m.1) };
}

/// Gives the value back, and the turn to the next.
pub(crate) struct Rise;

impl<T> Play<Option<T>, SeatState> for Rise {
    ghost then = { λ _ m _ w. Rose m w };
}

/// Writes a bed's word, which tells nothing.
pub(crate) struct Bed;

impl<T> Play<Option<T>, SeatState> for Bed {
    ghost then = { λ _ m _ w. w ≡ m };
}

/// Reads a word, to learn of the two beginnings that the seat had seen.
pub(crate) struct Recall;

impl<T> Play<Option<T>, SeatState> for Recall {
    ghost then = { λ _ m _ w. Recalled m w };
}

/// Splits a seat off.
pub(crate) struct Cut;

impl Split<SeatState> for Cut {
    ghost left = { giving };

    ghost right = { given_out };
}

/// Joins a seat into another.
pub(crate) struct Glue;

impl Join<SeatState> for Glue {
    ghost both = { taking_in };

    ghost spent = { gone };
}
