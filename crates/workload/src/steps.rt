//! What the workload does, step by step, and the statement of each step.

ghost use Rattle.std.specs.Prelude.{◌≡◌, IfOk, string_bytes};
ghost use Rattle.workload.specs.Workload.{insert_text, text_of, update_text};

use std::alloc::{AllocError, Global};
use tuple_codec::Text;

/// A row of the workload's table.
#[derive(Clone, Copy)]
pub struct Pair {
    pub key: u64,
    pub value: u64,
}

/// What a statement of the workload does.
#[derive(Clone, Copy)]
pub enum LoadStep {
    /// A transaction begins.
    Begins,
    /// The table is made where there is none.
    Makes,
    /// A row more.
    Inserts(Pair),
    /// A new value under the key.
    Updates(Pair),
    /// The transaction is committed.
    Commits,
}

impl LoadStep {
    /// The statement that says it.
    pub fn text(self, alloc: Global) -> Result<Text, AllocError>
        ensures { IfOk result (λ text. text ≡ text_of self) }
    {
        match self {
            LoadStep::Begins => Text::from_slice(alloc, b"BEGIN"),
            LoadStep::Makes => Text::from_slice(
                alloc,
                b"CREATE TABLE IF NOT EXISTS load_rows (id BIGINT PRIMARY KEY, v BIGINT)",
            ),
            LoadStep::Inserts(pair) => {
                Ok(bytes_of(insert_statement(alloc, pair.key, pair.value)?))
            }
            LoadStep::Updates(pair) => {
                Ok(bytes_of(update_statement(alloc, pair.key, pair.value)?))
            }
            LoadStep::Commits => Text::from_slice(alloc, b"COMMIT"),
        }
    }
}

/// The statement that writes a row.
fn insert_statement(alloc: Global, key: u64, value: u64) -> Result<String, AllocError>
    ensures { IfOk result (λ text. string_bytes text ≡ insert_text key value) }
{
    format!(in alloc; "INSERT INTO load_rows VALUES ({key},{value})")
}

/// The statement that gives a row a new value.
fn update_statement(alloc: Global, key: u64, value: u64) -> Result<String, AllocError>
    ensures { IfOk result (λ text. string_bytes text ≡ update_text key value) }
{
    format!(in alloc; "UPDATE load_rows SET v = {value} WHERE id = {key}")
}

/// The bytes of a text that was put together.
fn bytes_of(text: String) -> Text
    ensures { result ≡ string_bytes text }
{
    Text::from_vec(text.into_bytes())
}
