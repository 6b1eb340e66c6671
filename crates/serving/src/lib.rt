//! One statement of a session over its meeting with what all sessions share, from what its text asks to its reply.
#![tactic(auto)]

mod alone;
mod answering;
mod beginning;
mod branching;
mod closing;
mod coming;
mod concluding;
mod courses;
mod deciding;
mod faults;
mod filling;
mod meeting;
mod places;
mod rows;
mod starting;
mod switching;
mod trying;
mod working;

pub use answering::serve;
pub use coming::come_to;
pub use concluding::{conclude, drop_started};
pub use courses::Found;
pub use deciding::{Decision, decide};
pub use faults::answer_fault;
pub use meeting::{Met, Pending, meet};
