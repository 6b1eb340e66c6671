//! Edited trees beside trees that are built anew.

ghost use Rattle.std.specs.Prelude.{◌<◌, ◌+◌, ◌-◌, ◌^◌, IfOk, OnOk};
ghost use Rattle.chunk_store.specs.Drafts.{chunks_of};
ghost use Rattle.unit_tests.specs.Samples.{AreEditsBelow, AreFewEdits, IsFit, StandsForFew};

use crate::rows::Rows;
use crate::samples::{draft_of, key_of, tree_of, value_of};
use chunk_store::{Draft, PutFault, Sha512Cut};
use prolly_edit::apply;
use std::alloc::{AllocError, Global};
use std::test::*;
use tuple_codec::{Address, Blob, Edit};

/// How many rows the trees of the table have.
const COUNTS: [u16; 5] = [0, 1, 2, 500, 5_000];

/// What is done at each number from one up to another: a value of this byte is put there, or the row is removed.
#[derive(Clone, Copy)]
struct Span {
    from: u32,
    to: u32,
    byte: Option<u8>,
}

const NOWHERE: Span = Span {
    from: 0,
    to: 0,
    byte: None,
};

/// The byte of the value at a number, where it has a row: so many even numbers from 2 on have one, but for the edits.
fn byte_at(count: u16, span: Span, number: u32) -> Option<u8> {
    if span.from <= number && number < span.to {
        return span.byte;
    }
    if number > 0 && number % 2 == 0 && number <= 2 * count as u32 {
        Some(7)
    } else {
        None
    }
}

fn value_at(alloc: Global, byte: Option<u8>) -> Result<Option<Blob>, AllocError>
    ensures { IfOk result (λ value. IsFit value) }
{
    match byte {
        None => Ok(None),
        Some(byte) => Ok(Some(value_of(alloc, Rows::Long, byte)?)),
    }
}

fn add_edit(
    alloc: Global,
    edits: &mut Vec<Edit>,
    number: u32,
    byte: Option<u8>,
) -> Result<(), AllocError>
    requires few { number < 2 ^ 32 - 1 }
    requires are { AreEditsBelow number edits.old.items }
    ensures { OnOk result (AreEditsBelow (number + 1) edits.new.items) }
{
    let key = key_of(alloc, Rows::Long, number)?;
    let value = value_at(alloc, byte)?;
    edits.push(Edit { key, value })?;
    Ok(())
}

fn edits_of(alloc: Global, span: Span) -> Result<Vec<Edit>, AllocError>
    ensures { IfOk result (λ edits. AreFewEdits edits.items) }
{
    let mut edits = Vec::new(alloc);
    for number in span.from..span.to {
        add_edit(alloc, &mut edits, number, span.byte)?;
    }
    Ok(edits)
}

/// The root of the tree of so many rows, after the edits of a span.
fn built(
    alloc: Global,
    draft: &mut Draft<Sha512Cut>,
    count: u16,
    span: Span,
) -> Result<Address, PutFault>
    ensures { IfOk result (λ root. StandsForFew (chunks_of draft.new.chunks) root.0) }
{
    let end = span.to.max(2 * count as u32 + 1);
    tree_of(alloc, draft, Rows::Long, end, |number| {
        byte_at(count, span, number)
    })
}

/// Whether the tree of so many rows, edited, has the address of the tree that is built of the edited rows.
fn agrees(alloc: Global, count: u16, span: Span) -> Result<bool, PutFault> {
    let mut draft = draft_of::<Sha512Cut>(alloc)?;
    let edits = edits_of(alloc, span)?;
    let root = built(alloc, &mut draft, count, NOWHERE)?;
    let edited = apply(alloc, &mut draft, &root, &edits)?;
    Ok(edited == built(alloc, &mut draft, count, span)?)
}

/// The same where values are put at the numbers from one up to another, and where they are removed.
fn both_agree(alloc: Global, count: u16, from: u32, to: u32) -> Result<bool, PutFault> {
    let byte = Some(9);
    let put = agrees(alloc, count, Span { from, to, byte })?;
    let byte = None;
    let removed = agrees(alloc, count, Span { from, to, byte })?;
    Ok(put && removed)
}

// at the front, in the middle and at the end, where there is a row and where there is none
#[test]
fn edits_of_one_row(rt: HostRuntime) {
    for count in COUNTS {
        let middle = count as u32;
        let last = 2 * count as u32;
        for at in [0, 2, middle, middle + 1, last, last + 1] {
            let same = both_agree(rt.alloc(), count, at, at + 1).expect(&rt, "memory for trees");
            assert!(rt; same, "{count} rows, an edit at {at}");
        }
    }
}

// of up to 500 rows, so that an edit moves rows over each step of 1,024 bytes of a leaf, and of the node above it
#[test]
fn edits_of_one_row_at_random(rt: HostRuntime) {
    let mut seed = 1u32;
    for count in 1..500u16 {
        seed = seed.wrapping_mul(1_664_525).wrapping_add(1_013_904_223);
        let at = (seed >> 8) % (2 * count as u32 + 2);
        let same = both_agree(rt.alloc(), count, at, at + 1).expect(&rt, "memory for trees");
        assert!(rt; same, "{count} rows, an edit at {at}");
    }
}

#[test]
fn edits_of_all_rows_and_of_none(rt: HostRuntime) {
    for count in COUNTS {
        let end = 2 * count as u32 + 1;
        for from in [0, end] {
            let same = both_agree(rt.alloc(), count, from, end).expect(&rt, "memory for trees");
            assert!(rt; same, "{count} rows, edits from {from} on");
        }
    }
}

// 500 rows are 15 leaves, the last of 12 rows; 5,000 have three levels: the last subtree has 3,870 rows, the last leaf 11
#[test]
fn removal_of_all_before_the_last_subtree(rt: HostRuntime) {
    for (count, before) in [(1, 0), (2, 1), (500, 488), (5_000, 1_130), (5_000, 4_989)] {
        let same = both_agree(rt.alloc(), count, 0, 2 * before + 1).expect(&rt, "memory for trees");
        assert!(rt; same, "{count} rows, edits of the first {before}");
    }
}
