//! Trees built row by row, with their addresses.

use crate::rows::Rows;
use crate::samples::{draft_of, tree_of};
use chunk_store::{PutFault, Sha512Cut};
use std::alloc::Global;
use std::test::*;
use tuple_codec::Address;

/// How many rows a tree has, and its address, by another program.
const TREES: [(u32, &str); 5] = [
    (0, "tnsisfafg3u4fma8t8nhfedvot1d6jhe"),
    (1, "dstj129duvpvir8ive8lgvcmmh06i5fg"),
    (2, "tu6bo5ru7gcac4b7ic1tr4oo2rat7de2"),
    // 16 leaves below one node
    (500, "btku9at6h77u1vsem8gc2d670lujviru"),
    // 148 leaves, below three nodes below one
    (5_000, "j1rb2b7ptid2e2pvo2tjcvdh5qoo1grh"),
];

fn root_below(alloc: Global, count: u32) -> Result<Address, PutFault> {
    let mut draft = draft_of::<Sha512Cut>(alloc)?;
    tree_of(
        alloc,
        &mut draft,
        Rows::Long,
        count,
        |number| Some((number % 256) as u8),
    )
}

#[test]
fn a_tree_has_the_address_of_its_rows(rt: HostRuntime) -> Result<(), Fail> {
    for (count, want) in TREES {
        let root = root_below(rt.alloc(), count)?;
        assert!(rt; &root.text()[..] == want.as_bytes(), "{count} rows");
        assert!(rt; Address::read(want.as_bytes()) == Some(root), "{want}");
    }
    Ok(())
}
