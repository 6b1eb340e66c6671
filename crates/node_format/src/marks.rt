//! Places of items, noted while a node is read.

ghost use Rattle.std.specs.Prelude.{◌≡◌, ◌*◌, ◌/◌, ◌<◌, length};
ghost use Rattle.node_format.specs.Reading.{skip};
ghost use Rattle.node_format.specs.Marks.{noted};

use crate::scan::after_item;

/// How many places are kept.
pub(crate) const PLACES: usize = 128;

/// Where each item begins whose number is a multiple of the stride. It lies in the node's view, so it takes no memory.
#[derive(Clone, Copy)]
pub(crate) struct Marks {
    pub(crate) stride: u16,
    pub(crate) places: [u32; PLACES],
}

/// The stride for so many items: 1 where there are fewer than 128, so that each has its place, else 2, and so on.
pub(crate) fn stride_for(count: u16) -> u16
    ensures step { 0 < result }
    ensures room { count < 128 * result }
{
    count / 128 + 1
}

/// Notes where the item of this number begins, if its number is a multiple of the stride.
pub(crate) fn note(places: &mut [u32], stride: u16, number: u16, place: u32)
    requires step { 0 < stride }
    requires room { number / stride < length places.old }
    ensures { places.new ≡ noted stride number place places.old }
{
    if number % stride == 0 {
        places[usize::from(number / stride)] = place;
    }
}

/// The bytes after so many items.
pub(crate) fn after_items(level: u8, count: u16, bytes: &[u8]) -> &[u8]
    ensures { result.now ≡ skip level count bytes.now }
{
    let mut rest = bytes;
    for _ in 0..count {
        rest = after_item(level, rest);
    }
    rest
}
