//! How any decision is planned and answered: the draft in which it is worked, the commit that it makes, its plan, and the reply that is due.
#![tactic(auto)]

mod committing;
mod making;
mod replying;
mod roots;
mod showing;

pub use committing::{refused, sealed, work_of, written};
pub use replying::status_reply;
pub use roots::head_root;
pub use showing::due;
