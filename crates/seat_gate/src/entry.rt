//! What a marked turn leaves in the history.

/// An entry of the history, as running code can keep it. In contracts an entry also has `left`, the spelling of the
/// value that was left with it.
#[derive(Clone, Copy, PartialEq, Eq)]
pub struct Entry {
    /// The number of the seat that left the value marked.
    pub seat: u32,
    /// What it marked the value with.
    pub note: u64,
}
