//! A region's bytes, never to change again.

ghost use Rattle.std.specs.Prelude.{◌≡◌};
ghost use Rattle.chunk_region.specs.Pages.{IsWritten, Stands};

use crate::Span;
use crate::page::Page;
use crate::region::read;
use std::marker::Model;

/// What a region held when it was sealed, to be read by the same spans.
#[derive(Drop)]
pub struct Sealed {
    pub(crate) pages: Vec<Page>,
}

impl Model for Sealed {
    ghost use Rattle.std.specs.Prelude.{ℕ, List};

    ghost Value = { List (List ℕ) };

    ghost view = { λ sealed. sealed.pages.items };
}

impl Sealed {
    /// The bytes that were placed at `span`, in constant time.
    pub fn bytes(&self, span: Span) -> &[u8]
        requires { IsWritten self.now span }
        ensures { Stands self.now span result.now }
    {
        read(&self.pages, span)
    }
}
