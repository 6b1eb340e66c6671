//! Things with names of which no two may be the same.

ghost use Rattle.std.specs.Prelude.{◌≡◌, ◌==◌, ℕ, List, bytes_eq};
ghost use Rattle.std.specs.List.{list_any};
ghost use Rattle.schema_model.specs.Schemas.{are_distinct};

use crate::schemas::{CheckDef, Column, ForeignKey, IndexDef};

/// What has a name.
pub(crate) trait Named {
    ghost name_of: { Self → List ℕ };

    fn name(&self) -> &[u8]
        ensures { result.now ≡ name_of self.now };
}

impl Named for Column {
    ghost name_of = { λ c. c.name };

    fn name(&self) -> &[u8] {
        self.name.as_slice()
    }
}

impl Named for IndexDef {
    ghost name_of = { λ i. i.name };

    fn name(&self) -> &[u8] {
        self.name.as_slice()
    }
}

impl Named for CheckDef {
    ghost name_of = { λ c. c.name };

    fn name(&self) -> &[u8] {
        self.name.as_slice()
    }
}

impl Named for ForeignKey {
    ghost name_of = { λ f. f.name };

    fn name(&self) -> &[u8] {
        self.name.as_slice()
    }
}

/// Whether no two names are the same. Each is compared with those after it.
pub(crate) fn are_names_distinct<N: Named>(items: &[N]) -> bool
    ensures { result ≡ are_distinct (λ a b. bytes_eq (N.name_of a) (N.name_of b)) items.now }
{
    let mut rest = items;
    'items: while let [item, others @ ..] = rest {
        if has_name(others, item.name()) {
            return false;
        }
        rest = others;
    }
    true
}

fn has_name<N: Named>(items: &[N], name: &[u8]) -> bool
    ensures { result ≡ list_any (λ item. bytes_eq name.now (N.name_of item)) items.now }
{
    items.iter().any(|item| name == item.name())
}

/// Whether no position stands twice. Each is compared with those after it, fewer than 256.
pub(crate) fn are_positions_distinct(positions: &[u8]) -> bool
    ensures { result ≡ are_distinct (λ a b. a == b) positions.now }
{
    let mut rest = positions;
    'positions: while let [position, others @ ..] = rest {
        if has_position(others, *position) {
            return false;
        }
        rest = others;
    }
    true
}

fn has_position(positions: &[u8], position: u8) -> bool
    ensures { result ≡ list_any (λ other. position == other) positions.now }
{
    positions.iter().any(|other| position == *other)
}
