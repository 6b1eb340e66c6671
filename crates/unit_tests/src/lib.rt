//! Tests of the lower crates, from the bytes of a key to turns at a gate: what no clause of theirs says.
#![tactic(auto)]

#[cfg(test)]
mod cells;
#[cfg(test)]
mod chunks;
#[cfg(test)]
mod edits;
#[cfg(test)]
mod gates;
#[cfg(test)]
mod lookups;
#[cfg(test)]
mod node_bytes;
#[cfg(test)]
mod records;
#[cfg(test)]
mod regions;
mod rows;
#[cfg(test)]
mod samples;
#[cfg(test)]
mod schemas;
#[cfg(test)]
mod streams;
#[cfg(test)]
mod towers;
#[cfg(test)]
mod tuples;
#[cfg(test)]
mod walks;
