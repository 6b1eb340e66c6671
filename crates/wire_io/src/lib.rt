//! Where bytes come from and where they go: the traits [`Source`] and [`Sink`], in memory and over the standard streams.
//!
//! The crates above read by [`read_up_to`] and write by [`write_whole`]. Their contracts say which bytes were moved, that a failure
//! was counted by the very object that was handed in, and that over a steady source, or in room that is promised, none comes.
#![tactic(auto)]

mod memory;
mod moving;
mod outside;
mod standard;

pub use memory::{MemorySink, MemorySource};
pub use moving::{ReadStop, read_up_to, write_whole};
pub use outside::{Failed, NoPace, Pacer, Sink, Source};
pub use standard::{StdSink, StdSource};
