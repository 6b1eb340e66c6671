//! Where a placed piece lies.

/// Where a placed piece lies: on which page, from which byte on, and how many bytes.
#[derive(Clone, Copy, PartialEq, Eq)]
pub struct Span {
    pub page: u32,
    pub start: u32,
    pub len: u32,
}
