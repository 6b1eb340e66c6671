//! Bytes kept in regions of pages: a piece that is placed keeps its bytes until a mark before it is gone back to.
//!
//! The crates above use the clauses of [`Region`]: a span stands for the bytes that were placed
//! (`Stands` in `specs/Pages.antt`), writing on keeps every span, and going back to a mark gives the pages that were
//! there when it was taken. `law_of_writing` has the facts about these definitions.
#![tactic(auto)]

mod laws;
mod mark;
mod page;
mod pool;
mod region;
mod sealed;
mod shared;
mod span;

pub use laws::law_of_writing;
pub use mark::Mark;
pub use pool::PagePool;
pub use region::Region;
pub use sealed::Sealed;
pub use shared::SharedPages;
pub use span::Span;
