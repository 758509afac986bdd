//! Queries as lists of numbers, and a set of these, so that a query is found again without a look at all others.

ghost use Rattle.std.specs.Prelude.{◌≡◌, ◌↔◌, ◌⊎◌, ℕ, List, ◌∷◌, ◌++◌, [], IfOk, OnOk, IsTrue, Contains};
ghost use Rattle.report_parts.specs.Codes.{term_code, atom_code, code_of, head_code, body_code};
ghost use Rattle.cq_terms.specs.Query.{Query};

use cq_terms::{Cq, NoMemory, QAtom, Term};
use indexmap::IndexSet;
use std::alloc::Global;
use std::marker::Model;

/// Appends a tag and a number.
fn push_two(words: &mut Vec<u32>, tag: u32, number: u32) -> Result<(), NoMemory>
    ensures { OnOk result ((rest : List ℕ) → words.old.items ++ tag ∷ number ∷ rest ≡ words.new.items ++ rest) }
{
    let two = [tag, number];
    words.extend_from_slice(&two)?;
    Ok(())
}

/// Appends a term.
fn push_term(words: &mut Vec<u32>, term: Term) -> Result<(), NoMemory>
    ensures { OnOk result ((rest : List ℕ) → words.old.items ++ term_code term rest ≡ words.new.items ++ rest) }
{
    match term {
        Term::Var(variable) => push_two(words, 0, variable),
        Term::Ind(individual) => push_two(words, 1, individual),
        Term::Any => push_two(words, 2, 0),
    }
}

/// Appends an atom.
fn push_atom(words: &mut Vec<u32>, atom: &QAtom) -> Result<(), NoMemory>
    ensures { OnOk result ((rest : List ℕ) → words.old.items ++ atom_code atom.now rest ≡ words.new.items ++ rest) }
{
    match *atom {
        QAtom::Concept { pred, at } => {
            push_two(words, 0, pred)?;
            push_term(words, at)
        }
        QAtom::Link { pred, from, to } => {
            push_two(words, 1, pred)?;
            push_term(words, from)?;
            push_term(words, to)
        }
    }
}

/// Appends the terms of a head and a mark at their end.
fn push_head(words: &mut Vec<u32>, head: &[Term]) -> Result<(), NoMemory>
    ensures { OnOk result ((rest : List ℕ) → words.old.items ++ head_code head.now rest ≡ words.new.items ++ rest) }
{
    for term in head {
        push_term(words, *term)?;
    }
    push_two(words, 3, 0)?;
    Ok(())
}

/// Appends the atoms of a body.
fn push_body(words: &mut Vec<u32>, body: &[QAtom]) -> Result<(), NoMemory>
    ensures { OnOk result (words.old.items ++ body_code body.now ≡ words.new.items) }
{
    for atom in body {
        push_atom(words, atom)?;
    }
    Ok(())
}

/// The code of a query.
pub fn code_of(alloc: Global, query: &Cq) -> Result<Vec<u32>, NoMemory>
    ensures { IfOk result (λ words. words.items ≡ code_of query.now) }
{
    let mut words = Vec::new(alloc);
    push_head(&mut words, query.head())?;
    push_body(&mut words, query.body())?;
    Ok(words)
}

/// Whether the two queries are one.
pub fn is_same(alloc: Global, left: &Cq, right: &Cq) -> Result<bool, NoMemory>
    ensures exact { IfOk result (λ same. IsTrue same ↔ (left.now ≡ right.now)) }
{
    let left = code_of(alloc, left)?;
    let right = code_of(alloc, right)?;
    Ok(are_equal(&left, &right))
}

/// Whether the two lists of numbers are one.
pub fn are_equal(left: &[u32], right: &[u32]) -> bool
    ensures exact { IsTrue result ↔ (left.now ≡ right.now) }
{
    left == right
}

/// A set of codes.
#[derive(Drop)]
pub struct CodeSet {
    codes: IndexSet<Vec<u32>>,
}

impl Model for CodeSet {
    ghost use Rattle.std.specs.Prelude.{ℕ, List, map};

    ghost Value = { List (List ℕ) };

    ghost view = { λ k. map (λ v. v.items) k.codes.keys };
}

impl CodeSet {
    /// The empty set, which takes no memory.
    pub fn new(alloc: Global) -> Self
        ensures { result ≡ [] }
    {
        CodeSet {
            codes: IndexSet::new(alloc),
        }
    }

    /// Whether the code is in the set.
    pub fn has(&self, code: &[u32]) -> bool
        ensures exact { IsTrue result ↔ Contains self.now code.now }
    {
        self.codes.contains(code)
    }

    /// Adds a code.
    pub fn add(&mut self, code: Vec<u32>) -> Result<(), NoMemory>
        ensures exact { OnOk result ((c : List ℕ) → Contains self.new c ↔ ((c ≡ code.items) ⊎ Contains self.old c)) }
    {
        let (_place, _new) = self.codes.insert_full(code)?;
        Ok(())
    }
}
