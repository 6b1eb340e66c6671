//! Entries of trees by the first bytes of their keys.

ghost use Rattle.std.specs.Prelude.{◌≡◌, ◌++◌, List, IfOk, option_map};
ghost use Rattle.std.specs.List.{list_any};
ghost use Rattle.tuple_codec.specs.Nodes.{Item};
ghost use Rattle.chunk_store.specs.Drafts.{chunks_of};
ghost use Rattle.chunk_store.specs.Standing.{IsTree};
ghost use Rattle.prolly_tree.specs.Lists.{StandsForRows};
ghost use Rattle.violation_lists.specs.Seeking.{begins, is_another};
ghost use Rattle.violation_lists.specs.Roots.{root_for};

use chunk_store::Draft;
use prolly_tree::scan_from;
use schema_model::IndexDef;
use std::alloc::{AllocError, Global};
use tuple_codec::{Address, Digester};

fn begins(prefix: &[u8], key: &[u8]) -> bool
    ensures { result ≡ begins prefix.now key.now }
{
    key.starts_with(prefix)
}

/// Whether any key begins with these bytes. One entry is read.
pub fn begins_any<D: Digester>(
    alloc: Global,
    draft: &Draft<D>,
    root: &Address,
    prefix: &[u8],
) -> Result<bool, AllocError>
    requires { StandsForRows D.address (chunks_of draft.now.chunks) root.now.0 }
    ensures { (rows : List Item) → IsTree D.address (chunks_of draft.now.chunks) root.now.0 rows
        → IfOk result (λ found. found ≡ list_any (λ item. begins prefix.now item.key) rows) }
{
    let mut scan = scan_from(alloc, draft, root, prefix)?;
    match scan.next() {
        None => Ok(false),
        Some((key, _)) => Ok(begins(prefix, key)),
    }
}

fn joined(alloc: Global, front: &[u8], back: &[u8]) -> Result<Vec<u8>, AllocError>
    ensures { IfOk result (λ bytes. bytes.items ≡ front.now ++ back.now) }
{
    let mut bytes = Vec::new(alloc);
    bytes.extend_from_slice(front)?;
    bytes.extend_from_slice(back)?;
    Ok(bytes)
}

/// Whether a key begins with these bytes that goes on otherwise than so. Two entries are read.
pub fn begins_another<D: Digester>(
    alloc: Global,
    draft: &Draft<D>,
    root: &Address,
    prefix: &[u8],
    rest: &[u8],
) -> Result<bool, AllocError>
    requires { StandsForRows D.address (chunks_of draft.now.chunks) root.now.0 }
    ensures { (rows : List Item) → IsTree D.address (chunks_of draft.now.chunks) root.now.0 rows
        → IfOk result (λ found. found ≡ list_any (λ item. is_another prefix.now (prefix.now ++ rest.now) item.key) rows) }
{
    let own = joined(alloc, prefix, rest)?;
    has_another(alloc, draft, root, prefix, own.as_slice())
}

fn has_another<D: Digester>(
    alloc: Global,
    draft: &Draft<D>,
    root: &Address,
    prefix: &[u8],
    own: &[u8],
) -> Result<bool, AllocError>
    requires { StandsForRows D.address (chunks_of draft.now.chunks) root.now.0 }
    ensures { (rows : List Item) → IsTree D.address (chunks_of draft.now.chunks) root.now.0 rows
        → IfOk result (λ found. found ≡ list_any (λ item. is_another prefix.now own.now item.key) rows) }
{
    let mut scan = scan_from(alloc, draft, root, prefix)?;
    match scan.next() {
        None => Ok(false),
        Some((key, _)) => {
            if !begins(prefix, key) {
                return Ok(false);
            }
            if key != own {
                return Ok(true);
            }
            match scan.next() {
                None => Ok(false),
                Some((key, _)) => Ok(begins(prefix, key)),
            }
        }
    }
}

/// Whether columns begin with these.
pub fn starts(columns: &[u8], places: &[usize]) -> bool
    ensures { result ≡ begins places.now columns.now }
{
    match places {
        [] => true,
        [place, places @ ..] => match columns {
            [] => false,
            [column, columns @ ..] => *place == usize::from(*column) && starts(columns, places),
        },
    }
}

/// The root of the first index whose columns begin with these.
pub fn root_for<'a>(
    indexes: &[IndexDef],
    roots: &'a [Address],
    places: &[usize],
) -> Option<&'a Address>
    ensures { option_map (λ root. root.now) result ≡ root_for places.now indexes.now roots.now }
{
    match indexes {
        [] => None,
        [index, indexes @ ..] => match roots {
            [] => None,
            [root, roots @ ..] => {
                if starts(index.columns.as_slice(), places) {
                    Some(root)
                } else {
                    root_for(indexes, roots, places)
                }
            }
        },
    }
}
