//! What the lines of a report are made of as JSON: numbers, texts, lists, terms and atoms, written and read.
#![tactic(auto)]

mod atoms;
mod cursor;
mod fields;

pub use atoms::{atoms_at, put_atoms, put_terms, terms_at};
pub use cursor::Cursor;
pub use fields::{
    id_at, id_in, id_lists_at, id_of, ids_at, long_at, long_or_null_at, longs_at, put_id,
    put_id_lists, put_ids, put_long, put_long_or_null, put_longs, put_texts, texts_at, word_at,
    word_in,
};
