//! Reading a node from left to right: is each item one that may stand there?

ghost use Rattle.std.specs.Prelude.{◌≡◌, ◌<◌, ◌*◌, ◌^◌, length, None, Some, IfOk, IfErr, OnOk};
ghost use Rattle.std.specs.Option.{option_map};
ghost use Rattle.tuple_codec.specs.Nodes.{is_after};
ghost use Rattle.node_format.specs.Marks.{AreMarked};
ghost use Rattle.node_format.specs.Views.{seen};
ghost use Rattle.node_format.specs.Reading.{header_at, is_header, item_at, may_follow, next_at, rest_of, stop_at};

use crate::fields::{ItemRef, item_at, u16_at};
use crate::marks::{Marks, PLACES, note, stride_for};

/// Level and count, and the bytes after the header.
#[tactic(auto, unfolding(crate::specs::Reading::header_at))]
pub(crate) fn header_at(bytes: &[u8]) -> Option<(u8, u16, &[u8])>
    ensures { option_map (λ x. (x.0, x.1, x.2.now)) result ≡ header_at bytes.now }
{
    match bytes {
        [kind, level, rest @ ..] => {
            let (count, rest) = u16_at(rest)?;
            if is_header(*kind, *level, count) {
                Some((*level, count, rest))
            } else {
                None
            }
        }
        _ => None,
    }
}

/// Whether kind, level and count agree.
fn is_header(kind: u8, level: u8, count: u16) -> bool
    ensures { result ≡ is_header kind level count }
{
    (kind == 1 && level == 0) || (kind == 2 && 0 < level && 0 < count)
}

/// Whether the key is greater than the one before it.
fn is_after(before: Option<&[u8]>, key: &[u8]) -> bool
    ensures { result ≡ is_after (option_map (λ key. key.now) before.entry) key.now }
{
    match before {
        None => true,
        Some(before) => before.cmp(key).is_lt(),
    }
}

/// Whether the item may stand after this key.
fn may_follow(before: Option<&[u8]>, item: &ItemRef<'_>) -> bool
    ensures { result ≡ may_follow (option_map (λ key. key.now) before.entry) (seen item.now) }
{
    is_after(before, item.key) && 0 < item.rows
}

/// The item at the front, where it may stand after this key.
#[tactic(auto, unfolding(crate::specs::Reading::next_at))]
pub(crate) fn next_at<'a>(
    level: u8,
    before: Option<&[u8]>,
    bytes: &'a [u8],
) -> Option<(ItemRef<'a>, &'a [u8])>
    ensures { option_map (λ x. (seen x.0, x.1.now)) result ≡ next_at level (option_map (λ key. key.now) before.entry) bytes.now }
{
    let (item, rest) = item_at(level, bytes)?;
    if may_follow(before, &item) {
        Some((item, rest))
    } else {
        None
    }
}

/// The bytes after the item at the front, which is there.
pub(crate) fn after_item(level: u8, bytes: &[u8]) -> &[u8]
    ensures { result.now ≡ rest_of (item_at level bytes.now) }
{
    match item_at(level, bytes) {
        Some((_, rest)) => rest,
        None => &[],
    }
}

/// Reads so many items, and notes places of some: an error is what is left where the reading stops.
pub(crate) fn scan(level: u8, count: u16, items: &[u8]) -> Result<Marks, &[u8]>
    requires { length items.now < 2 ^ 32 }
    ensures ok { OnOk result (stop_at level count None items.now ≡ None) }
    ensures marks { IfOk result (λ marks. AreMarked level items.now marks.stride marks.places count) }
    ensures step { IfOk result (λ marks. 0 < marks.stride) }
    ensures room { IfOk result (λ marks. count < 128 * marks.stride) }
    ensures err { IfErr result (λ rest. stop_at level count None items.now ≡ Some rest.now) }
{
    let stride = stride_for(count);
    let mut places = [0; PLACES];
    let mut before = None;
    let mut rest = items;
    for number in 0..count {
        match next_at(level, before, rest) {
            None => return Err(rest),
            Some((item, after)) => {
                let place = (items.len() - rest.len()) as u32;
                note(&mut places, stride, number, place);
                before = Some(item.key);
                rest = after;
            }
        }
    }
    if rest.is_empty() {
        Ok(Marks { stride, places })
    } else {
        Err(rest)
    }
}
