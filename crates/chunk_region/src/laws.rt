//! Laws about what is written on pages, for the crates above.

ghost use Rattle.chunk_region.specs.Pages.{WritesOn};

/// What writing on keeps: call it where a proof needs one of these facts. It does nothing.
pub fn law_of_writing()
    ensures { WritesOn }
{}
