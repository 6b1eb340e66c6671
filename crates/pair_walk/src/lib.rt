//! The changes between two trees, found by walks that leave out what both share.
#![tactic(auto)]

mod comparing;
mod reads;

pub use comparing::changes;
pub use reads::ReadCount;
pub use tuple_codec::ItemChange;
