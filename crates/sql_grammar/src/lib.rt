//! The grammar of expressions, over pieces.
//!
//! A text is read as a list of pieces: its tokens with their values. Each rule of the grammar is a reader in `specs/`:
//! from a list of pieces it gives what was read and the pieces after it, or how many pieces are left where no rule goes
//! on. Each has one function here, on a cursor.
#![tactic(auto)]

mod atoms;
mod cursors;
mod grammars;
mod heads;
mod nodes;
mod rules;
mod stops;

pub use cursors::Cursor;
pub use grammars::read_any;
pub use heads::{is_named, is_sign, is_word};
pub use stops::Stop;
