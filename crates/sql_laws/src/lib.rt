//! Laws of the SQL text: what an expression and a statement are read as, that canonical texts are read back, and that whatever
//! statement a text is, it is sound.
//!
//! Each law stands on a function that does nothing; proofs above call it, or import its lemma.
#![tactic(auto)]

pub use canonical_laws::{
    law_of_canonical_pieces, law_of_canonical_tokens, law_of_one_text, law_of_open_parentheses,
    law_of_reading_text, law_of_stored_texts, law_of_written_pieces,
};
pub use grammar_laws::{law_of_one_tree, law_of_reading_back, law_of_stops, law_of_trees};
pub use sound_laws::{law_of_kept_tables, law_of_sound_statements, law_of_statement_stops};

mod canonical_laws;
mod grammar_laws;
mod sound_laws;
