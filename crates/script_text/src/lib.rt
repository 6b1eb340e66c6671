//! The script that a program reads, and what it writes: the text of a run, or the line that tells why there is none, and its status.
//!
//! The crates above use two definitions: `Input.script`, the script that bytes hold or the first line that breaks a
//! rule, and `Output.text`, the bytes that a run's replies, order and branches are printed as; `read_script` and
//! `print_output` are these, and `one_reading` says that a text shows one run alone. `Output.stop_text`, `print_stop` and `one_stop`
//! are the same of an order that can't be followed. `Statuses.number_of` has the number that the process ends with, `Lines` the lines of a
//! broken rule and of a collision.
#![tactic(auto)]

mod blanks;
mod faults;
mod law;
mod lines;
mod numerals;
mod ordering;
mod outputs;
mod parts;
mod printing;
mod reading;
mod refusals;
mod replies;
mod scripts;
mod status;
mod stops;
mod words;

pub use faults::{BadScript, ScriptFault};
pub use law::{one_reading, one_stop};
pub use lines::{collision_text, fault_text};
pub use numerals::number_in;
pub use outputs::{BranchLine, RunText, StopText};
pub use printing::{print_output, push_order};
pub use reading::read_script;
pub use refusals::refusal_words;
pub use replies::Reply;
pub use scripts::{Line, Moment, OrderItem, Script};
pub use status::Status;
pub use stops::{print_stop, push_all_refused};
pub use words::given_words;
