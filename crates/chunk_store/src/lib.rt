//! Chunks, found by their addresses: stores of sealed chunks, and drafts with chunks of their own over a store.
//!
//! The crates above use the clauses of [`Draft`] and [`Store`], over the definitions of `specs/Chunks.antt` (what a
//! list of chunks holds at an address) and `specs/Drafts.antt` (what a draft holds, and what putting bytes adds).
#![tactic(auto)]

mod crossing;
mod digests;
mod drafts;
mod faults;
mod held;
mod index;
mod keys;
mod laws;
mod segments;
mod stores;

pub use crossing::law_of_crossing;
pub use digests::Sha512Cut;
pub use drafts::{Draft, DraftMark, SealFault};
pub use faults::{Clash, PutFault};
pub use laws::{law_of_chunks, law_of_drafts, law_of_growth, law_of_segments};
pub use segments::Segment;
pub use stores::Store;
