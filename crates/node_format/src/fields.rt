//! Fields at the front of bytes, each with the bytes after it; none where it is cut short.

ghost use Rattle.std.specs.Prelude.{◌≡◌, ◌<◌, ◌≤◌, length, take, drop};
ghost use Rattle.std.specs.Option.{option_map};
ghost use Rattle.std.specs.Int.{w16, w64};
ghost use Rattle.tuple_codec.specs.Fields.{bytes_at};
ghost use Rattle.tuple_codec.specs.Nodes.{leaf_item};
ghost use Rattle.node_format.specs.Views.{seen};
ghost use Rattle.node_format.specs.Reading.{number_at, sized_at, leaf_at, inner_at, item_at};

/// An item that lies in a node's bytes.
#[derive(Clone, Copy)]
pub(crate) struct ItemRef<'a> {
    pub(crate) key: &'a [u8],
    pub(crate) body: &'a [u8],
    pub(crate) rows: u64,
}

fn bytes_at(count: usize, bytes: &[u8]) -> Option<(&[u8], &[u8])>
    ensures { option_map (λ x. (x.0.now, x.1.now)) result ≡ bytes_at count bytes.now }
{
    if bytes.len() < count {
        return None;
    }
    Some(bytes.split_at(count))
}

pub(crate) fn u16_at(bytes: &[u8]) -> Option<(u16, &[u8])>
    ensures { option_map (λ x. (x.0, x.1.now)) result ≡ number_at w16 bytes.now }
{
    if bytes.len() < 2 {
        return None;
    }
    let (front, rest) = bytes.split_at(2);
    Some((u16::from_be_bytes([front[0], front[1]]), rest))
}

fn u64_at(bytes: &[u8]) -> Option<(u64, &[u8])>
    ensures { option_map (λ x. (x.0, x.1.now)) result ≡ number_at w64 bytes.now }
{
    if bytes.len() < 8 {
        return None;
    }
    let (front, rest) = bytes.split_at(8);
    let number = u64::from_be_bytes([
        front[0], front[1], front[2], front[3], front[4], front[5], front[6], front[7],
    ]);
    Some((number, rest))
}

#[tactic(auto, unfolding(crate::specs::Reading::sized_at))]
fn sized_at(bytes: &[u8]) -> Option<(&[u8], &[u8])>
    ensures { option_map (λ x. (x.0.now, x.1.now)) result ≡ sized_at bytes.now }
{
    let (length, rest) = u16_at(bytes)?;
    bytes_at(usize::from(length), rest)
}

/// The leaf item at the front: key and value.
#[tactic(auto, unfolding(crate::specs::Reading::leaf_at))]
pub(crate) fn leaf_at(bytes: &[u8]) -> Option<((&[u8], &[u8]), &[u8])>
    ensures { option_map (λ x. (leaf_item x.0.0.now x.0.1.now, x.1.now)) result ≡ leaf_at bytes.now }
{
    let (key, rest) = sized_at(bytes)?;
    let (value, rest) = sized_at(rest)?;
    Some(((key, value), rest))
}

/// The inner item at the front.
#[tactic(auto, unfolding(crate::specs::Reading::inner_at))]
pub(crate) fn inner_at(bytes: &[u8]) -> Option<(ItemRef<'_>, &[u8])>
    ensures { option_map (λ x. (seen x.0, x.1.now)) result ≡ inner_at bytes.now }
{
    let (key, rest) = sized_at(bytes)?;
    let (body, rest) = bytes_at(20, rest)?;
    let (rows, rest) = u64_at(rest)?;
    Some((ItemRef { key, body, rows }, rest))
}

/// The item of a node of this level at the front.
#[tactic(auto, unfolding(crate::specs::Reading::item_at))]
pub(crate) fn item_at(level: u8, bytes: &[u8]) -> Option<(ItemRef<'_>, &[u8])>
    ensures { option_map (λ x. (seen x.0, x.1.now)) result ≡ item_at level bytes.now }
{
    match level {
        0 => {
            let ((key, body), rest) = leaf_at(bytes)?;
            Some((ItemRef { key, body, rows: 1 }, rest))
        }
        _ => inner_at(bytes),
    }
}
