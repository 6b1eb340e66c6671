//! DISTINCT, by the set of what was shown before.

ghost use Rattle.std.specs.Prelude.{◌≡◌, ◌++◌, ◌∷◌, [], IfOk, OnOk, if◌then◌else◌};
ghost use Rattle.plain_sql.specs.Answers.{cells_cmp};
ghost use Rattle.plain_sql.specs.Distinct.{AreSeen};
ghost use Rattle.plain_sql.specs.Lists.{firsts, has};

use crate::ranking::RankedRow;
use std::alloc::{AllocError, Global};
use std::cmp::Ordering;
use std::collections::BTreeSet;
use tuple_codec::{Row, copy_row, key_cmp, same_cells};

/// The cells of a row of the answer, in the order of keys.
#[derive(Drop)]
pub struct DistinctRow {
    pub cells: Row,
}

impl PartialEq for DistinctRow {
    ghost use Rattle.std.specs.Cmp.{eq_by_cmp_equiv, on_equiv, partial_equiv_from_equiv};
    ghost use Rattle.std.specs.Ordering.{on};
    ghost use Rattle.tuple_codec.specs.Rows.{same_cells};
    ghost use Rattle.tuple_codec.proofs.Orders.{key_cmp_total};

    ghost eq = { on (λ line. line.cells) same_cells };

    ghost laws = { partial_equiv_from_equiv (on_equiv (λ line. line.cells) (eq_by_cmp_equiv key_cmp_total)) };

    fn eq(&self, other: &DistinctRow) -> bool {
        same_cells(self.cells.as_slice(), other.cells.as_slice())
    }
}

impl Eq for DistinctRow {
    ghost use Rattle.std.specs.Cmp.{eq_by_cmp_equiv, on_equiv};
    ghost use Rattle.tuple_codec.proofs.Orders.{key_cmp_total};

    ghost laws = { on_equiv (λ line. line.cells) (eq_by_cmp_equiv key_cmp_total) };
}

impl PartialOrd for DistinctRow {
    ghost use Rattle.std.specs.Prelude.{refl};
    ghost use Rattle.std.specs.Cmp.{on_total, po};
    ghost use Rattle.std.specs.Ordering.{as_partial_cmp, on};
    ghost use Rattle.tuple_codec.specs.Rows.{key_cmp};
    ghost use Rattle.tuple_codec.proofs.Orders.{key_cmp_total};

    ghost partial_cmp = { as_partial_cmp (on (λ line. line.cells) key_cmp) };

    ghost laws = { po (on_total (λ line. line.cells) key_cmp_total) (λ x y. refl) };

    fn partial_cmp(&self, other: &DistinctRow) -> Option<Ordering> {
        Some(self.cmp(other))
    }
}

impl Ord for DistinctRow {
    ghost use Rattle.std.specs.Prelude.{refl};
    ghost use Rattle.std.specs.Cmp.{on_total};
    ghost use Rattle.std.specs.Ordering.{on};
    ghost use Rattle.tuple_codec.specs.Rows.{key_cmp};
    ghost use Rattle.tuple_codec.proofs.Orders.{key_cmp_total};

    ghost cmp = { on (λ line. line.cells) key_cmp };

    ghost total = { on_total (λ line. line.cells) key_cmp_total };

    ghost matches_partial_cmp = { λ x y. refl };

    ghost matches_eq = { λ x y. refl };

    fn cmp(&self, other: &DistinctRow) -> Ordering {
        key_cmp(self.cells.as_slice(), other.cells.as_slice())
    }
}

/// Keeps a row, where what it shows wasn't seen.
fn keep(
    alloc: Global,
    seen: &mut BTreeSet<DistinctRow>,
    kept: &mut Vec<RankedRow>,
    rank: RankedRow,
) -> Result<(), AllocError>
    requires { AreSeen seen.old.keys kept.old.items }
    ensures seen { OnOk result (AreSeen seen.new.keys kept.new.items) }
    ensures kept { OnOk result (kept.new.items ≡ (if has cells_cmp kept.old.items rank then kept.old.items else kept.old.items ++ rank ∷ [])) }
{
    let RankedRow { keys, cells } = rank;
    let line = DistinctRow { cells };
    if seen.contains(&line) {
        return Ok(());
    }
    let copy = copy_row(alloc, line.cells.as_slice())?;
    seen.insert(line)?;
    kept.push(RankedRow { keys, cells: copy })?;
    Ok(())
}

/// The first of those that show the same.
pub fn once(alloc: Global, ranks: Vec<RankedRow>) -> Result<Vec<RankedRow>, AllocError>
    ensures { IfOk result (λ kept. kept.items ≡ firsts cells_cmp ranks.items) }
{
    let mut seen = BTreeSet::new(alloc);
    let mut kept = Vec::new(alloc);
    for rank in ranks {
        keep(alloc, &mut seen, &mut kept, rank)?;
    }
    Ok(kept)
}
