//! Walks through two trees, and how many nodes they read.

ghost use Rattle.std.specs.Prelude.{IfOk};
ghost use Rattle.chunk_store.specs.Digests.{cut_address};
ghost use Rattle.chunk_store.specs.Drafts.{Longer, chunks_of};
ghost use Rattle.prolly_tree.specs.Lists.{StandsForRows};

use crate::rows::Rows;
use crate::samples::{draft_of, tree_of};
use chunk_store::{Draft, PutFault, Sha512Cut};
use pair_walk::{ItemChange, ReadCount, changes};
use std::alloc::Global;
use std::test::*;
use tuple_codec::Address;

/// So many rows, whose keys are even numbers, or odd ones, and whose values are made of one byte, but for one row's.
#[derive(Clone, Copy)]
struct Sample {
    count: u16,
    odd: bool,
    kind: Rows,
    byte: u8,
    marked: Option<u32>,
}

fn even_rows(count: u16) -> Sample {
    Sample {
        count,
        odd: false,
        kind: Rows::Long,
        byte: 7,
        marked: None,
    }
}

/// The byte of the value at a number, where it has a row.
fn byte_at(sample: Sample, number: u32) -> Option<u8> {
    if sample.marked == Some(number) {
        return Some(9);
    }
    if (number % 2 == 1) == sample.odd {
        Some(sample.byte)
    } else {
        None
    }
}

fn root_of(alloc: Global, draft: &mut Draft<Sha512Cut>, sample: Sample) -> Result<Address, PutFault>
    ensures tree { IfOk result (λ root. StandsForRows cut_address (chunks_of draft.new.chunks) root.0) }
    ensures longer { Longer draft.old.chunks draft.new.chunks }
{
    let end = 2 * sample.count as u32;
    tree_of(alloc, draft, sample.kind, end, |number| {
        byte_at(sample, number)
    })
}

/// How many rows were added, removed and replaced.
fn kinds_of(list: &[ItemChange]) -> [usize; 3] {
    let added = list.iter().filter(|change| change.old.is_none()).count();
    let removed = list.iter().filter(|change| change.new.is_none()).count();
    let replaced = list
        .iter()
        .filter(|change| change.old.is_some() && change.new.is_some())
        .count();
    [added, removed, replaced]
}

/// How many changes of each kind there are between the trees of two samples, and how many nodes are read.
fn compare(alloc: Global, old: Sample, new: Sample) -> Result<([usize; 3], u64), PutFault> {
    let mut draft = draft_of::<Sha512Cut>(alloc)?;
    let old = root_of(alloc, &mut draft, old)?;
    let new = root_of(alloc, &mut draft, new)?;
    let mut reads = ReadCount::new();
    let list = changes(alloc, &draft, &old, &new, &mut reads)?;
    Ok((kinds_of(&list), reads.count()))
}

// two samples, how many changes of each kind there are between their trees, and how many nodes are read at least and at most
#[test]
fn changes_are_found_and_few_nodes_are_read(rt: HostRuntime) -> Result<(), Fail> {
    let mut values = even_rows(500);
    values.byte = 8;
    let mut keys = even_rows(500);
    keys.odd = true;
    let mut one = even_rows(3_000);
    one.marked = Some(2_000);
    let mut short = even_rows(30_000);
    short.kind = Rows::Short;
    let mut longer = even_rows(30_001);
    longer.kind = Rows::Short;
    for (old, new, kinds, least, most) in [
        (even_rows(500), even_rows(500), [0, 0, 0], 0, 0),
        (even_rows(0), even_rows(3), [3, 0, 0], 2, 2),
        (even_rows(3), even_rows(0), [0, 3, 0], 2, 2),
        // one more row, at the end
        (short, longer, [1, 0, 0], 2, 40),
        // two nodes on each of three levels
        (even_rows(3_000), one, [0, 0, 1], 6, 6),
        (even_rows(500), values, [0, 0, 500], 2, u64::MAX),
        (even_rows(500), keys, [500, 500, 0], 2, u64::MAX),
    ] {
        let (found, reads) = compare(rt.alloc(), old, new)?;
        assert!(rt;
            found == kinds && least <= reads && reads <= most,
            "{kinds:?}"
        );
    }
    Ok(())
}
