//! A place in a region to go back to.

/// Where the writing in a region ended at one moment: so many pages, and so many bytes on the last of them.
#[derive(Clone, Copy, PartialEq, Eq)]
pub struct Mark {
    pub(crate) pages: usize,
    pub(crate) last: usize,
}
