//! Seats for many threads: each worker gets one, and gives it back.
ghost use Rattle.std.specs.Prelude.{◌≡◌, ℕ, ◌+◌, ◌^◌, ◌<◌, length, All, List, IfOk};
ghost use Rattle.seat_gate.specs.History.{Entry, joined_with, gathered};
ghost use Rattle.seat_gate.specs.Words.{gate_id, gate_of, seat_view, IsWhole};
ghost use Rattle.seat_gate.specs.Working.{IsSeated, AreNewcomers, AreAllGivenOut, giving_out, view_in, views_of, works_of};

use crate::gate::Gate;
use crate::kept::Kept;
use crate::seat::Seat;
use std::alloc::{AllocError, Global};

/// A seat beside what its thread works on. The seat is out while the thread has its turn.
#[derive(Drop)]
pub struct Worker<W: Drop> {
    pub seat: Option<Seat>,
    pub work: W,
}

impl<T: Kept> Gate<T> {
    /// A worker for each work, with the next seats that the first gives out.
    pub fn seat_workers<W: Drop>(
        &self,
        alloc: Global,
        first: &mut Seat,
        works: Vec<W>,
    ) -> Result<Vec<Worker<W>>, AllocError>
        requires gate { gate_of first.old ≡ gate_id self.now }
        requires first { (seat_view first.old).number ≡ 0 }
        requires few { (seat_view first.old).given + length works.items < 2 ^ 32 }
        ensures gate { gate_of first.new ≡ gate_id self.now }
        ensures first { IfOk result (λ workers. seat_view first.new ≡ giving_out (length works.items) (seat_view first.old)) }
        ensures new { IfOk result (λ workers. AreNewcomers (gate_id self.now) (seat_view first.old) works.items workers.items) }
    {
        let mut workers = Vec::new(alloc);
        for work in works {
            let seat = self.split(alloc, first)?;
            workers.push(Worker {
                seat: Some(seat),
                work,
            })?;
        }
        Ok(workers)
    }

    /// Takes in the seat of each worker, which keeps its work.
    pub fn gather<W: Drop>(&self, first: Seat, workers: &mut [Worker<W>]) -> Seat
        requires gate { gate_of first ≡ gate_id self.now }
        requires seated { All (λ (w : Worker W). IsSeated (gate_id self.now) w.seat) workers.old }
        ensures gate { gate_of result ≡ gate_id self.now }
        ensures view { seat_view result ≡ gathered (seat_view first) (views_of workers.old) }
        ensures works { works_of workers.new ≡ works_of workers.old }
    {
        let mut last = first;
        for worker in workers.iter_mut() {
            last = self.take_in(last, worker);
        }
        last
    }

    fn take_in<W: Drop>(&self, into: Seat, worker: &mut Worker<W>) -> Seat
        requires gate { gate_of into ≡ gate_id self.now }
        requires seated { IsSeated (gate_id self.now) worker.old.seat }
        ensures gate { gate_of result ≡ gate_id self.now }
        ensures view { seat_view result ≡ joined_with (seat_view into) (view_in worker.old.seat) }
        ensures work { worker.new.work ≡ worker.old.work }
    {
        let seat = worker.seat.take().unwrap();
        self.rejoin(into, seat)
    }

    /// Takes in the seat of each worker, and ends the gate.
    pub fn close_all<W: Drop>(self, first: Seat, workers: &mut [Worker<W>]) -> T
        requires gate { gate_of first ≡ gate_id self }
        requires seated { All (λ (w : Worker W). IsSeated (gate_id self) w.seat) workers.old }
        requires all { AreAllGivenOut (seat_view first) (views_of workers.old) }
        ensures whole { (log : List Entry) × IsWhole T.fits result (gathered (seat_view first) (views_of workers.old)) log }
        ensures works { works_of workers.new ≡ works_of workers.old }
    {
        let last = self.gather(first, workers);
        self.close(last)
    }
}
