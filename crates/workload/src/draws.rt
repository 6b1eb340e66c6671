//! What a session of the workload does, drawn from its numbers.

ghost use Rattle.std.specs.Prelude.{◌≡◌, ◌<◌, OnOk, IfOk};
ghost use Rattle.workload.specs.Workload.{next, drawn, with_step, with_insert, with_update, with_begin, with_batch, with_inserts, with_updates, nothing_drawn, drawn_of};

use crate::steps::{LoadStep, Pair};
use std::alloc::{AllocError, Global};
use tuple_codec::Sequence;

/// The steps that a session has drawn, and what it draws its next number from.
#[derive(Drop)]
pub struct Drawn {
    pub steps: Sequence<LoadStep>,
    pub x: u64,
}

impl Drawn {
    /// No step yet.
    fn new(alloc: Global, seed: u64, session: u32) -> Drawn
        ensures { result ≡ nothing_drawn seed session }
    {
        Drawn {
            steps: Sequence::new(alloc),
            x: seed.wrapping_add(u64::from(session)),
        }
    }

    /// A number below 2^32.
    fn draw(&mut self) -> u64
        ensures so_far { self.new ≡ record self.old { x = next self.old.x } }
        ensures number { result ≡ drawn (next self.old.x) }
    {
        self.x = self
            .x
            .wrapping_mul(6364136223846793005)
            .wrapping_add(1442695040888963407);
        self.x >> 32
    }

    fn add(&mut self, step: LoadStep) -> Result<(), AllocError>
        ensures { OnOk result (self.new ≡ with_step step self.old) }
    {
        self.steps.push(step)
    }

    /// A transaction begins; the first one makes the table.
    fn begin(&mut self, batch: u64) -> Result<(), AllocError>
        ensures { OnOk result (self.new ≡ with_begin batch self.old) }
    {
        self.add(LoadStep::Begins)?;
        if batch == 0 {
            self.add(LoadStep::Makes)?;
        }
        Ok(())
    }

    /// A row of this key.
    fn insert(&mut self, key: u64) -> Result<(), AllocError>
        ensures { OnOk result (self.new ≡ with_insert key self.old) }
    {
        let value = self.draw() % 1000;
        self.add(LoadStep::Inserts(Pair { key, value }))
    }

    /// A new value for one of the fifty rows from this key on.
    fn update(&mut self, first: u64) -> Result<(), AllocError>
        requires { first < 8000000 }
        ensures { OnOk result (self.new ≡ with_update first self.old) }
    {
        let key = first + self.draw() % 50;
        let new_value = self.draw() % 1000;
        self.add(LoadStep::Updates(Pair {
            key,
            value: new_value,
        }))
    }

    fn insert_rows(&mut self, first: u64) -> Result<(), AllocError>
        requires { first < 8000000 }
        ensures { OnOk result (self.new ≡ with_inserts first self.old) }
    {
        for row in 0..50u64 {
            self.insert(first + row)?;
        }
        Ok(())
    }

    fn update_rows(&mut self, first: u64) -> Result<(), AllocError>
        requires { first < 8000000 }
        ensures { OnOk result (self.new ≡ with_updates first self.old) }
    {
        for _turn in 0..10u64 {
            self.update(first)?;
        }
        Ok(())
    }

    /// One transaction more.
    fn add_batch(&mut self, session: u64, batch: u64) -> Result<(), AllocError>
        requires session { session < 8 }
        requires batch { batch < 10 }
        ensures { OnOk result (self.new ≡ with_batch session batch self.old) }
    {
        let first = 1000000 * session + 1000 * batch;
        self.begin(batch)?;
        self.insert_rows(first)?;
        self.update_rows(first)?;
        self.add(LoadStep::Commits)
    }

    /// All that a session does.
    pub fn of_session(alloc: Global, seed: u64, session: u32) -> Result<Drawn, AllocError>
        requires { session < 8 }
        ensures { IfOk result (λ all. all ≡ drawn_of seed session) }
    {
        let mut all = Drawn::new(alloc, seed, session);
        for batch in 0..10u64 {
            all.add_batch(u64::from(session), batch)?;
        }
        Ok(all)
    }
}
