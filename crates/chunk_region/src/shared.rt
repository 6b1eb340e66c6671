//! A region's bytes on pages that several holders share.

ghost use Rattle.std.specs.Prelude.{◌≡◌, ◌+◌, ◌<◌, ◌++◌, ◌^◌, length, IfOk};
ghost use Rattle.chunk_region.specs.Pages.{IsWritten, Stands};

use crate::Span;
use smallvec::SmallVec;
use std::alloc::{AllocError, Global};
use std::default::MadeWith;
use std::marker::Model;
use std::sync::Arc;

/// The bytes of a page, in memory of just their size, never to change again.
#[derive(Drop)]
pub(crate) struct SharedPage {
    // none in the places of a list that no page has taken
    bytes: Option<Arc<Vec<u8>>>,
}

impl Model for SharedPage {
    ghost use Rattle.std.specs.Prelude.{ℕ, List, [], Vec};
    ghost use Rattle.std.specs.Option.{option_map_or};
    ghost use Rattle.std.specs.declared.alloc.Global.{Global};
    ghost use Rattle.std.specs.Arc.{arc_value};

    ghost Value = { List ℕ };

    ghost view = { λ page. option_map_or (λ bytes. (arc_value {X = Vec ℕ Global} bytes).items) page.bytes [] };
}

impl MadeWith<Global> for SharedPage {
    fn made_with(_: Global) -> SharedPage {
        SharedPage { bytes: None }
    }
}

impl SharedPage {
    pub(crate) fn copy_of(alloc: Global, bytes: &[u8]) -> Result<SharedPage, AllocError>
        ensures { IfOk result (λ page. page ≡ bytes.now) }
    {
        let bytes = Vec::from_slice(alloc, bytes)?;
        Ok(SharedPage {
            bytes: Some(Arc::new(alloc, bytes)?),
        })
    }

    /// The same page for another holder.
    fn share(&self) -> Result<SharedPage, AllocError>
        ensures { IfOk result (λ page. page ≡ self.now) }
    {
        let bytes = match &self.bytes {
            Some(bytes) => Some(Arc::try_clone(bytes)?),
            None => None,
        };
        Ok(SharedPage { bytes })
    }

    fn as_slice(&self) -> &[u8]
        ensures { result.now ≡ self.now }
    {
        match &self.bytes {
            Some(bytes) => bytes.as_slice(),
            None => &[],
        }
    }
}

/// Pages, of which the first four take no memory for their list: most copies have one, and join a few others.
pub(crate) type PageList = SmallVec<SharedPage, 4>;

/// Bytes on pages that several holders share, to be read by spans. A contract sees the bytes of each page.
#[derive(Drop)]
pub struct SharedPages {
    pub(crate) pages: PageList,
}

impl Model for SharedPages {
    ghost use Rattle.std.specs.Prelude.{ℕ, List, length, ◌<◌, ◌^◌};

    ghost Value = { List (List ℕ) };

    ghost view = { λ shared. shared.pages.items };

    ghost invariant = { λ shared. length shared.pages.items < 2 ^ 32 };
}

impl SharedPages {
    /// How many pages there are.
    pub fn pages(&self) -> u32
        ensures { result ≡ length self.now }
    {
        self.pages.len() as u32
    }

    /// The bytes that were placed at `span`, in constant time.
    pub fn bytes(&self, span: Span) -> &[u8]
        requires { IsWritten self.now span }
        ensures { Stands self.now span result.now }
    {
        let page = &self.pages[span.page as usize];
        let bytes = page.as_slice();
        let start = span.start as usize;
        &bytes[start..start + span.len as usize]
    }

    /// These pages, and behind them those of another one, which both hold from now on: no bytes are copied.
    ///
    /// Where there would be more than 2^32 - 1 pages the answer is want of memory.
    pub fn joined(self, other: &SharedPages) -> Result<SharedPages, AllocError>
        ensures pages { IfOk result (λ both. both ≡ self ++ other.now) }
        ensures few { IfOk result (λ both. length both < 2 ^ 32) }
    {
        let SharedPages { mut pages } = self;
        let count = pages.len() + other.pages.len();
        if count > u32::MAX as usize {
            return Err(AllocError);
        }
        pages.reserve(other.pages.len())?;
        for page in other.pages.as_slice() {
            pages.push(page.share()?)?;
        }
        Ok(SharedPages { pages })
    }
}
