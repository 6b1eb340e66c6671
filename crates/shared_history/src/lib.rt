//! The shared database as a gate keeps it: how it is spelled, and when it fits a history of the gate. And how a session meets it.
#![tactic(auto)]

mod gated;
mod lone;
mod meeting;
mod notes;
mod settling;

pub use gated::GatedDb;
pub use lone::LoneDb;
pub use meeting::Meeting;
pub use notes::{
    Notes, after_look, after_settle, first_notes, held_after, with_call, with_hold, with_loss,
    with_record,
};
pub use settling::{settle_and_show, show, start_and_show};
