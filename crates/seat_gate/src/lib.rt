//! A gate keeps one value, at which threads take turns: each enters with its seat, holds the value alone, and leaves
//! it, with an entry in the history or without. The history is known to contracts alone.
//!
//! A crate above says by `Kept` when its value fits a history, and uses the clauses of `Gate::enter`, `Held::value`,
//! `Held::leave` and `Held::leave_marked`: on entering, the value fits one history, which begins with what the seat had
//! seen, and in which its entries are those that it made. `Gate::close` says the same of the whole history and of each
//! seat. The words of these clauses are in `specs/Words.antt` and `specs/History.antt`.
//!
//! A thread's own state keeps its seat in a [`Stand`], which takes the value call by call, or in a [`Worker`], beside what the
//! thread works on. [`Gate::seat_workers`] and [`Gate::close_all`] are the two ends of a run in threads.
#![tactic(auto)]

mod entry;
mod gate;
mod held;
mod kept;
mod place;
mod plays;
mod seat;
mod seating;
mod stand;
mod steps;
mod turns;
mod value;
mod workers;

pub use entry::Entry;
pub use gate::Gate;
pub use held::Held;
pub use kept::Kept;
pub use seat::Seat;
pub use stand::Stand;
pub use workers::Worker;
