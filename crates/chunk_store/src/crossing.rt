//! What threads may share and hand over.

use crate::drafts::Draft;
use crate::segments::Segment;
use crate::stores::Store;
use std::alloc::Global;
use std::sync::Arc;
use tuple_codec::Digester;

fn crosses<T: Send + Sync>() {}

/// Stores, segments and drafts are `Send` and `Sync`. It does nothing.
pub fn law_of_crossing<D: Digester>() {
    crosses::<Store>();
    crosses::<Arc<Segment, Global>>();
    crosses::<Draft<D>>();
}
