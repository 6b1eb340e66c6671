//! A list of entries that fits the history it holds, under a gate.
ghost use Rattle.std.specs.Prelude.{◌≡◌, ◌≢◌, ℕ, ◌+◌, ◌^◌, ◌<◌, ◌==◌, true, false, length, slice_index_or, All, List, [], ◌∷◌, ◌++◌, map, OnOk, OnErr, IfOk};
ghost use Rattle.std.specs.List.{filter, range_with_len, AllByRecursion};
ghost use Rattle.seat_gate.specs.History.{HasMade};
ghost use Rattle.seat_gate.specs.Words.{gate_of, gate_id, shown};
ghost use Rattle.seat_gate.specs.Standing.{IsReady, stand_at, stand_view};
ghost use Rattle.seat_gate.specs.Working.{IsSeated, KeepsPlace, view_in};

use seat_gate::{Entry, Gate, Held, Kept, Seat, Stand, Worker};
use std::alloc::{AllocError, Global};
use std::sync::Wait;
use std::test::*;
use std::thread;
use std::thread::Threads;

#[derive(Drop)]
struct Listed {
    entries: Vec<Entry>,
}

impl Kept for Listed {
    ghost spelled = { λ list. map (λ e. e.seat ∷ e.note ∷ []) list.entries.items };

    ghost fits = { λ list opened log. list.entries.items ≡ map shown log };
}

impl Listed {
    fn add(&mut self, entry: Entry) -> Result<(), AllocError>
        ensures ok { OnOk result (self.new.entries.items ≡ self.old.entries.items ++ entry ∷ []) }
        ensures err { OnErr result (self.new.entries.items ≡ self.old.entries.items) }
    {
        self.entries.push(entry)?;
        Ok(())
    }
}

/// The number of the worker's seat, and whether it lacked memory.
#[derive(Drop)]
struct Task {
    number: u32,
    is_short: bool,
}

// A turn that adds an entry; or none where there is no memory, and then the value stays kept.
fn mark<R: Wait>(rt: &R, stand: &mut Stand<'_, Listed>, number: u32, note: u64) -> bool
    requires ready { IsReady (λ (list : Listed) opened log. list.entries.items ≡ map shown log) stand.old }
    requires numbered { (stand_view stand.old).number ≡ number }
    ensures ready { IsReady (λ (list : Listed) opened log. list.entries.items ≡ map shown log) stand.new }
    ensures same { stand_at stand.new ≡ stand_at stand.old }
    ensures keeps { KeepsPlace (stand_view stand.old) (stand_view stand.new) }
    ensures made { result ≡ true → map shown (stand_view stand.new).made ≡ map shown (stand_view stand.old).made ++ record { seat = number; note = note } ∷ [] }
{
    let mut held = stand.take(rt);
    match held.value().add(Entry { seat: number, note }) {
        Ok(()) => {
            stand.sit(held.leave_marked(note));
            true
        }
        Err(_) => {
            stand.keep(held);
            false
        }
    }
}

// So many turns, with the notes 0, 1 and so on; whether there was memory for all.
fn mark_all<R: Wait>(rt: &R, stand: &mut Stand<'_, Listed>, number: u32, turns: u64) -> bool
    requires ready { IsReady (λ (list : Listed) opened log. list.entries.items ≡ map shown log) stand.old }
    requires numbered { (stand_view stand.old).number ≡ number }
    ensures ready { IsReady (λ (list : Listed) opened log. list.entries.items ≡ map shown log) stand.new }
    ensures same { stand_at stand.new ≡ stand_at stand.old }
    ensures keeps { KeepsPlace (stand_view stand.old) (stand_view stand.new) }
    ensures made { result ≡ true → map shown (stand_view stand.new).made ≡ map shown (stand_view stand.old).made ++ map (λ note. record { seat = number; note = note }) (range_with_len 0 turns) }
{
    for note in 0..turns {
        if !mark(rt, stand, number, note) {
            return false;
        }
    }
    true
}

fn work<R: Wait>(rt: &R, gate: &Gate<Listed>, worker: &mut Worker<Task>, turns: u64)
    requires seated { IsSeated (gate_id gate.now) worker.old.seat }
    requires numbered { (view_in worker.old.seat).number ≡ worker.old.work.number }
    requires own { HasMade (view_in worker.old.seat) }
    ensures seated { IsSeated (gate_id gate.now) worker.new.seat }
    ensures keeps { KeepsPlace (view_in worker.old.seat) (view_in worker.new.seat) }
    ensures made { worker.new.work.is_short ≡ false → map shown (view_in worker.new.seat).made ≡ map shown (view_in worker.old.seat).made ++ map (λ note. record { seat = worker.old.work.number; note = note }) (range_with_len 0 turns) }
{
    let seat = worker.seat.take().unwrap();
    let mut stand = Stand::new(gate, seat);
    worker.work.is_short = !mark_all(rt, &mut stand, worker.work.number, turns);
    worker.seat = Some(stand.into_seat());
}

fn work_all<R: Threads + Wait + Sync>(
    rt: &R,
    gate: &Gate<Listed>,
    workers: Vec<Worker<Task>>,
    turns: u64,
) -> Vec<Worker<Task>>
    requires seated { All (λ (w : Worker Task). IsSeated (gate_id gate.now) w.seat) workers.items }
    requires numbered { All (λ (w : Worker Task). (view_in w.seat).number ≡ w.work.number) workers.items }
    requires own { All (λ (w : Worker Task). HasMade (view_in w.seat)) workers.items }
    ensures many { length result.items ≡ length workers.items }
    ensures seated { All (λ (w : Worker Task). IsSeated (gate_id gate.now) w.seat) result.items }
    ensures keeps { (k : ℕ) (d : Worker Task) → k < length workers.items → KeepsPlace (view_in (slice_index_or workers.items k d).seat) (view_in (slice_index_or result.items k d).seat) }
    ensures made { (k : ℕ) (d : Worker Task) → k < length workers.items → (slice_index_or result.items k d).work.is_short ≡ false → map shown (view_in (slice_index_or result.items k d).seat).made ≡ map shown (view_in (slice_index_or workers.items k d).seat).made ++ map (λ note. record { seat = (slice_index_or workers.items k d).work.number; note = note }) (range_with_len 0 turns) }
{
    let mut workers = workers;
    let one = |_: usize, worker: &mut Worker<Task>|
        requires seated { IsSeated (gate_id gate.now) worker.now.seat }
        requires numbered { (view_in worker.now.seat).number ≡ worker.now.work.number }
        requires own { HasMade (view_in worker.now.seat) }
        ensures seated { IsSeated (gate_id gate.entry.now) worker.exit.now.seat }
        ensures keeps { KeepsPlace (view_in worker.entry.now.seat) (view_in worker.exit.now.seat) }
        ensures made { worker.exit.now.work.is_short ≡ false → map shown (view_in worker.exit.now.seat).made ≡ map shown (view_in worker.entry.now.seat).made ++ map (λ note. record { seat = worker.entry.now.work.number; note = note }) (range_with_len 0 turns) }
    { work(rt, gate, worker, turns) };
    thread::for_each_mut(rt, &mut workers, 64, &one);
    workers
}

fn tasks(alloc: Global, count: u32) -> Result<Vec<Task>, AllocError>
    requires { count + 1 < 2 ^ 32 }
    ensures many { IfOk result (λ tasks. length tasks.items ≡ count) }
    ensures numbers { IfOk result (λ tasks. (k : ℕ) (d : Task) → k < count → (slice_index_or tasks.items k d).number ≡ k + 1) }
{
    let mut tasks = Vec::new(alloc);
    for before in 0..count {
        tasks.push(Task {
            number: before + 1,
            is_short: false,
        })?;
    }
    Ok(tasks)
}

fn had_memory(workers: &[Worker<Task>]) -> bool
    ensures { result ≡ true → All (λ (w : Worker Task). w.work.is_short ≡ false) workers.now }
{
    workers.iter().all(|w| !w.work.is_short)
}

// The list that a gate keeps while so many threads take so many turns each.
fn at_work<R: Threads + Wait + Sync>(
    rt: &R,
    alloc: Global,
    count: u32,
    turns: u64,
) -> Result<Vec<Entry>, AllocError>
    requires { count + 1 < 2 ^ 32 }
    ensures each { IfOk result (λ list. (k : ℕ) → k < count → filter (λ (e : Entry). e.seat == k + 1) list.items ≡ map (λ note. record { seat = k + 1; note = note }) (range_with_len 0 turns)) }
    ensures known { IfOk result (λ list. AllByRecursion (λ (e : Entry). (e.seat ≢ 0) × (e.seat < count + 1)) list.items) }
{
    let entries = Vec::new(alloc);
    let (gate, mut first) = Gate::open(alloc, Listed { entries })?;
    let works = tasks(alloc, count)?;
    let ready = gate.seat_workers(alloc, &mut first, works)?;
    let mut workers = work_all(rt, &gate, ready, turns);
    let is_done = had_memory(&workers);
    let list = gate.close_all(first, &mut workers);
    if !is_done {
        return Err(AllocError);
    }
    Ok(list.entries)
}

fn notes_of(alloc: Global, entries: &[Entry], seat: u32) -> Result<Vec<u64>, AllocError> {
    entries
        .iter()
        .filter(|e| e.seat == seat)
        .map(|e| e.note)
        .collect(alloc)
}

// The list that a gate keeps through one turn of its second seat.
fn one_turn<R: Wait>(rt: &R, alloc: Global, marks: bool) -> Result<Vec<Entry>, AllocError> {
    let entries = Vec::new(alloc);
    let (gate, mut first) = Gate::open(alloc, Listed { entries })?;
    let seat = gate.split(alloc, &mut first)?;
    let mut held = gate.enter(rt, seat);
    let added = marks && held.value().add(Entry { seat: 1, note: 7 }).is_ok();
    let seat = if added {
        held.leave_marked(7)
    } else {
        held.leave()
    };
    let last = gate.rejoin(first, seat);
    Ok(gate.close(last).entries)
}

fn moves<T: Send>() {}

fn crosses<T: Send + Sync>() {}

// A gate is shared among threads; a seat, the value and a stand are handed from thread to thread.
fn gate_crosses<'a, T: Kept + Send + 'a>() {
    crosses::<Gate<T>>();
    moves::<Seat>();
    moves::<Held<'a, T>>();
    moves::<Stand<'a, T>>();
    moves::<Worker<u64>>();
}

#[test]
fn a_turn_leaves_its_entry_where_it_is_marked(rt: HostRuntime) -> Result<(), Fail> {
    gate_crosses::<Listed>();
    let marked = one_turn(&rt, rt.alloc(), true)?;
    assert_eq!(rt; marked.len(), 1);
    assert!(rt; marked[0] == Entry { seat: 1, note: 7 });
    assert!(rt; one_turn(&rt, rt.alloc(), false)?.is_empty());
    Ok(())
}

#[test]
fn a_hundred_threads_add_each_in_its_own_order(rt: HostRuntime) -> Result<(), Fail> {
    let entries = at_work(&rt, rt.alloc(), 100, 40)?;
    assert_eq!(rt; entries.len(), 4000);
    let rising: Vec<u64> = (0..40u64).collect(rt.alloc())?;
    for seat in 1..101u32 {
        let notes = notes_of(rt.alloc(), &entries, seat)?;
        assert!(rt; notes.as_slice() == rising.as_slice());
    }
    Ok(())
}
