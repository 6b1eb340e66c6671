//! The columns that an expression may name, and the place of the only one that a name fits.

ghost use Rattle.std.specs.Prelude.{◌≡◌, count_by};
ghost use Rattle.std.specs.List.{position};
ghost use Rattle.expr_eval.specs.Scopes.{is_named, is_qualified, place_named, place_qualified};

use tuple_codec::{SqlType, Text};

/// A column that an expression may name.
#[derive(Drop)]
pub struct ScopeColumn {
    /// The name of its source.
    pub source: Text,
    pub name: Text,
    pub kind: SqlType,
}

impl ScopeColumn {
    fn is_named(&self, name: &[u8]) -> bool
        ensures { result ≡ is_named name.now self.now }
    {
        self.name.is(name)
    }

    fn is_qualified(&self, source: &[u8], name: &[u8]) -> bool
        ensures { result ≡ is_qualified source.now name.now self.now }
    {
        self.source.is(source) && self.name.is(name)
    }
}

/// The place of the only column of this name, or None where there is none or more than one.
pub fn place_named(scope: &[ScopeColumn], name: &[u8]) -> Option<usize>
    ensures { result ≡ place_named name.now scope.now }
{
    if count_named(scope, name) == 1 {
        first_named(scope, name)
    } else {
        None
    }
}

fn count_named(scope: &[ScopeColumn], name: &[u8]) -> usize
    ensures { result ≡ count_by (is_named name.now) scope.now }
{
    scope.iter().filter(|column| column.is_named(name)).count()
}

fn first_named(scope: &[ScopeColumn], name: &[u8]) -> Option<usize>
    ensures { result ≡ position (is_named name.now) scope.now }
{
    scope.iter().position(|column| column.is_named(name))
}

/// The place of the only column of this name in sources of that name, or None where there is none or more than one.
pub fn place_qualified(scope: &[ScopeColumn], source: &[u8], name: &[u8]) -> Option<usize>
    ensures { result ≡ place_qualified source.now name.now scope.now }
{
    if count_qualified(scope, source, name) == 1 {
        first_qualified(scope, source, name)
    } else {
        None
    }
}

fn count_qualified(scope: &[ScopeColumn], source: &[u8], name: &[u8]) -> usize
    ensures { result ≡ count_by (is_qualified source.now name.now) scope.now }
{
    scope
        .iter()
        .filter(|column| column.is_qualified(source, name))
        .count()
}

fn first_qualified(scope: &[ScopeColumn], source: &[u8], name: &[u8]) -> Option<usize>
    ensures { result ≡ position (is_qualified source.now name.now) scope.now }
{
    scope
        .iter()
        .position(|column| column.is_qualified(source, name))
}
