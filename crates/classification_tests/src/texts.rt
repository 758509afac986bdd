//! Inputs that are given by their texts.

ghost use Rattle.std.specs.Prelude.{◌<◌, ◌^◌, length, IfOk, IsTrue};
ghost use Rattle.axiom_reader.specs.Numbering as axioms;
ghost use Rattle.fact_tables.specs.Numbering as tables;
ghost use Rattle.classification_tests.specs.Told.{IsNamed};

use crate::named::is_named;
use axiom_reader::read_axioms;
use cq_terms::{Axiom, Cq, Kb, Vocab};
use fact_tables::{FactTable, read_facts, read_pairs};
use query_reader::read_query;
use std::alloc::Global;
use std::test::Fail;

/// The texts of an input.
#[derive(Clone, Copy)]
pub(crate) struct Input<'a> {
    pub(crate) ontology: &'a str,
    pub(crate) facts: &'a str,
    pub(crate) pairs: &'a str,
    pub(crate) query: &'a str,
}

/// What an input says.
#[derive(Drop)]
pub(crate) struct Told {
    pub(crate) kb: Kb,
    pub(crate) query: Cq,
    pub(crate) vocab: Vocab,
}

/// Reads an input that is small, and whose individuals have names.
pub(crate) fn read(alloc: Global, input: &Input<'_>) -> Result<Told, Fail>
    ensures named { IfOk result (λ told. IsNamed told.kb told.query told.vocab) }
{
    let told = read_texts(alloc, input)?;
    if !is_named(&told.kb, &told.query, &told.vocab) {
        return Err(Fail::from("an input is large"));
    }
    Ok(told)
}

/// Reads the texts.
fn read_texts(alloc: Global, input: &Input<'_>) -> Result<Told, Fail> {
    let mut vocab = Vocab::new(alloc);
    let axioms = axioms_of(alloc, input.ontology.as_bytes(), &mut vocab)?;
    let table = table_of(alloc, input.facts.as_bytes(), &mut vocab)?;
    let query = query_of(alloc, input.query.as_bytes(), &mut vocab)?;
    let kb = kb_of(alloc, axioms, &table, input.pairs.as_bytes())?;
    Ok(Told { kb, query, vocab })
}

/// Reads the axioms.
fn axioms_of(alloc: Global, text: &[u8], vocab: &mut Vocab) -> Result<Vec<Axiom>, Fail> {
    if !has_room(text, vocab) {
        return Err(Fail::from("an ontology is long"));
    }
    Ok(read_axioms(alloc, text, vocab)?)
}

/// Reads the facts.
fn table_of(alloc: Global, text: &[u8], vocab: &mut Vocab) -> Result<FactTable, Fail> {
    if !has_room(text, vocab) {
        return Err(Fail::from("a table is long"));
    }
    Ok(read_facts(alloc, text, vocab)?)
}

/// Reads the query.
fn query_of(alloc: Global, text: &[u8], vocab: &mut Vocab) -> Result<Cq, Fail> {
    if !has_room(text, vocab) {
        return Err(Fail::from("a query is long"));
    }
    Ok(read_query(alloc, text, vocab)?)
}

/// The axioms with the facts of the table and the pairs of the text.
fn kb_of(alloc: Global, axioms: Vec<Axiom>, table: &FactTable, text: &[u8]) -> Result<Kb, Fail> {
    let pairs = read_pairs(alloc, text, table)?;
    let facts = Vec::from_slice(alloc, table.facts())?;
    Ok(Kb::new(axioms, facts, pairs))
}

/// Whether the bytes and each list of names are fewer than 2^30.
fn has_room(bytes: &[u8], vocab: &Vocab) -> bool
    ensures axioms { IsTrue result → axioms.HasRoom bytes.now vocab.now }
    ensures facts { IsTrue result → tables.HasRoom bytes.now vocab.now }
{
    bytes.len() < MOST
        && vocab.concepts.len() < MOST
        && vocab.roles.len() < MOST
        && vocab.inds.len() < MOST
}

const MOST: usize = 1 << 30;
