//! Rows and edits, merged by key and pushed onto a tower.

ghost use Rattle.std.specs.Prelude.{◌≡◌, ◌≤◌, ◌++◌, ◌∷◌, [], List, true, length, MatchOption, IfOk, IfErr, OnOk};
ghost use Rattle.std.specs.Ordering.{is_lt};
ghost use Rattle.tuple_codec.specs.Nodes.{Item, leaf_item, node_bytes};
ghost use Rattle.tuple_codec.specs.Edits.{edited, order, putting, puts};
ghost use Rattle.chunk_store.specs.Drafts.{Grows, chunks_of};
ghost use Rattle.chunk_store.specs.Kinds.{is_node};
ghost use Rattle.chunk_store.specs.Clashes.{IsReason};
ghost use Rattle.node_format.specs.Outlasting.{Outlasts};
ghost use Rattle.prolly_edit.specs.Keeping.{StaysOpen};
ghost use Rattle.prolly_edit.specs.Stages.{Awaits, IsFirstAt, IsFirstBefore, are_not_before, is_past};

use crate::reading::steps_at;
use chunk_store::{Draft, PutFault};
use node_chunker::Tower;
use node_format::{KnownNode, first_row, row_size};
use tuple_codec::{Digester, Edit};

/// Pushes a row; no leaf of fewer than so many steps ends after it.
fn push<D: Digester>(
    tower: &mut Tower,
    draft: &mut Draft<D>,
    key: &[u8],
    value: &[u8],
    steps: u32,
) -> Result<(), PutFault>
    requires awaits { (later whole : List Item) × Awaits D.address (chunks_of draft.old.chunks) tower.old (leaf_item key.now value.now ∷ later) whole }
    requires known { Outlasts D.address 0 steps key.now }
    ensures ok { (later whole : List Item) → Awaits D.address (chunks_of draft.old.chunks) tower.old (leaf_item key.now value.now ∷ later) whole
        → OnOk result (Awaits D.address (chunks_of draft.new.chunks) tower.new later whole) }
    ensures grows { Grows is_node draft.old draft.new }
    ensures cause { IfErr result (IsReason D.address (chunks_of draft.new.chunks)) }
{
    tower.push_kept_row(draft, key, value, steps)
}

/// Pushes what an edit puts.
fn put_edit<D: Digester>(
    tower: &mut Tower,
    draft: &mut Draft<D>,
    edit: &Edit,
) -> Result<(), PutFault>
    requires { (later whole : List Item) × Awaits D.address (chunks_of draft.old.chunks) tower.old (putting edit.now.key edit.now.value later) whole }
    ensures ok { (later whole : List Item) → Awaits D.address (chunks_of draft.old.chunks) tower.old (putting edit.now.key edit.now.value later) whole
        → OnOk result (Awaits D.address (chunks_of draft.new.chunks) tower.new later whole) }
    ensures grows { Grows is_node draft.old draft.new }
    ensures cause { IfErr result (IsReason D.address (chunks_of draft.new.chunks)) }
{
    match &edit.value {
        Some(value) => push(tower, draft, edit.key.as_slice(), value.as_slice(), 0),
        None => Ok(()),
    }
}

/// Pushes what edits put behind all rows.
pub(crate) fn put_edits<D: Digester>(
    tower: &mut Tower,
    draft: &mut Draft<D>,
    edits: &[Edit],
) -> Result<(), PutFault>
    requires { (whole : List Item) × Awaits D.address (chunks_of draft.old.chunks) tower.old (puts edits.now) whole }
    ensures ok { (whole : List Item) → Awaits D.address (chunks_of draft.old.chunks) tower.old (puts edits.now) whole
        → OnOk result (Awaits D.address (chunks_of draft.new.chunks) tower.new [] whole) }
    ensures grows { Grows is_node draft.old draft.new }
    ensures cause { IfErr result (IsReason D.address (chunks_of draft.new.chunks)) }
{
    for edit in edits {
        put_edit(tower, draft, edit)?;
    }
    Ok(())
}

fn is_below(some: &[u8], other: &[u8]) -> bool
    ensures { result ≡ is_lt (order some.now other.now) }
{
    some.cmp(other).is_lt()
}

/// The first edit and those after it, if its key is below this one.
fn first_before<'a>(edits: &'a [Edit], key: &[u8]) -> Option<(&'a Edit, &'a [Edit])>
    ensures { MatchOption result (are_not_before key.now edits.entry.now ≡ true) (λ p. IsFirstBefore key.now edits.entry.now p.0.now p.1.now) }
{
    let (edit, others) = edits.split_first()?;
    if is_below(edit.key.as_slice(), key) {
        Some((edit, others))
    } else {
        None
    }
}

/// The first edit and those after it, if its key is this one; else the first key, if there is one, is another.
fn first_at<'a>(edits: &'a [Edit], key: &[u8]) -> Option<(&'a Edit, &'a [Edit])>
    requires { are_not_before key.now edits.now ≡ true }
    ensures { MatchOption result (is_past key.now edits.entry.now ≡ true) (λ p. IsFirstAt key.now edits.entry.now p.0.now p.1.now) }
{
    let (edit, others) = edits.split_first()?;
    if edit.key.as_slice() == key {
        Some((edit, others))
    } else {
        None
    }
}

/// Whether no edit is of this key or of one below it.
pub(crate) fn is_past(edits: &[Edit], key: &[u8]) -> bool
    ensures { result ≡ is_past key.now edits.now }
{
    match edits.split_first() {
        None => true,
        Some((edit, _)) => is_below(key, edit.key.as_slice()),
    }
}

/// Pushes what the edits put below a key; those that are left.
fn put_before<'a, D: Digester>(
    tower: &mut Tower,
    draft: &mut Draft<D>,
    edits: &'a [Edit],
    key: &[u8],
) -> Result<&'a [Edit], PutFault>
    requires { (row : Item) × (rows whole : List Item) × (row.key ≡ key.now) × Awaits D.address (chunks_of draft.old.chunks) tower.old (edited (row ∷ rows) edits.now) whole }
    ensures ok { (row : Item) (rows whole : List Item) → row.key ≡ key.now → Awaits D.address (chunks_of draft.old.chunks) tower.old (edited (row ∷ rows) edits.now) whole
        → IfOk result (λ left. Awaits D.address (chunks_of draft.new.chunks) tower.new (edited (row ∷ rows) left.now) whole) }
    ensures first { IfOk result (λ left. are_not_before key.now left.now ≡ true) }
    ensures grows { Grows is_node draft.old draft.new }
    ensures cause { IfErr result (IsReason D.address (chunks_of draft.new.chunks)) }
{
    let mut left = edits;
    'lower: while let Some((edit, others)) = first_before(left, key) {
        put_edit(tower, draft, edit)?;
        left = others;
    }
    Ok(left)
}

/// Pushes a row, which outlasts so many steps, with the edits up to its key; the edits that are left.
fn edit_row<'a, D: Digester>(
    tower: &mut Tower,
    draft: &mut Draft<D>,
    edits: &'a [Edit],
    key: &[u8],
    value: &[u8],
    steps: u32,
) -> Result<&'a [Edit], PutFault>
    requires known { Outlasts D.address 0 steps key.now }
    requires awaits { (rows whole : List Item) × Awaits D.address (chunks_of draft.old.chunks) tower.old (edited (leaf_item key.now value.now ∷ rows) edits.now) whole }
    ensures ok { (rows whole : List Item) → Awaits D.address (chunks_of draft.old.chunks) tower.old (edited (leaf_item key.now value.now ∷ rows) edits.now) whole
        → IfOk result (λ left. Awaits D.address (chunks_of draft.new.chunks) tower.new (edited rows left.now) whole) }
    ensures grows { Grows is_node draft.old draft.new }
    ensures cause { IfErr result (IsReason D.address (chunks_of draft.new.chunks)) }
{
    let left = put_before(tower, draft, edits, key)?;
    match first_at(left, key) {
        Some((edit, others)) => {
            put_edit(tower, draft, edit)?;
            Ok(others)
        }
        None => {
            push(tower, draft, key, value, steps)?;
            Ok(left)
        }
    }
}

/// Pushes the rows of a leaf with the edits up to its last key; the edits that are left.
pub(crate) fn edit_rows<'a, D: Digester>(
    tower: &mut Tower,
    draft: &mut Draft<D>,
    edits: &'a [Edit],
    leaf: &KnownNode<'_>,
) -> Result<&'a [Edit], PutFault>
    requires leaf { leaf.now.level ≡ 0 }
    requires small { length (node_bytes leaf.now) ≤ 65536 }
    requires stays { StaysOpen D.address 0 leaf.now.items }
    requires awaits { (more whole : List Item) × Awaits D.address (chunks_of draft.old.chunks) tower.old (edited (leaf.now.items ++ more) edits.now) whole }
    ensures ok { (more whole : List Item) → Awaits D.address (chunks_of draft.old.chunks) tower.old (edited (leaf.now.items ++ more) edits.now) whole
        → IfOk result (λ left. Awaits D.address (chunks_of draft.new.chunks) tower.new (edited more left.now) whole) }
    ensures grows { Grows is_node draft.old draft.new }
    ensures cause { IfErr result (IsReason D.address (chunks_of draft.new.chunks)) }
{
    let mut left = edits;
    let mut size = 4;
    let mut rest = leaf.items();
    for at in 0..leaf.count() {
        let (key, value) = first_row(rest);
        let wide = row_size(key, value);
        let (_, others) = rest.split_at(wide as usize);
        size += wide;
        rest = others;
        let steps = steps_at(leaf, at, size);
        left = edit_row(tower, draft, left, key, value, steps)?;
    }
    Ok(left)
}
