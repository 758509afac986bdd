//! A query as a list of numbers, by which it is found again.

ghost use Rattle.std.specs.Prelude.{◌≡◌, ℕ, List, ◌∷◌, ◌++◌, IfOk, OnOk};
ghost use Rattle.perfect_ref.specs.Code.{term_code, atom_code, code_of, head_code, body_code};

use cq_terms::{Cq, NoMemory, QAtom, Term};
use std::alloc::Global;

/// Appends a tag and a number.
fn push_two(words: &mut Vec<u32>, tag: u32, number: u32) -> Result<(), NoMemory>
    ensures { OnOk result ((rest : List ℕ) → words.old.items ++ tag ∷ number ∷ rest ≡ words.new.items ++ rest) }
{
    let two = [tag, number];
    words.extend_from_slice(&two)?;
    Ok(())
}

/// Appends a term.
fn push_term(words: &mut Vec<u32>, term: Term) -> Result<(), NoMemory>
    ensures { OnOk result ((rest : List ℕ) → words.old.items ++ term_code term rest ≡ words.new.items ++ rest) }
{
    match term {
        Term::Var(variable) => push_two(words, 0, variable),
        Term::Ind(individual) => push_two(words, 1, individual),
        Term::Any => push_two(words, 2, 0),
    }
}

/// Appends an atom.
fn push_atom(words: &mut Vec<u32>, atom: &QAtom) -> Result<(), NoMemory>
    ensures { OnOk result ((rest : List ℕ) → words.old.items ++ atom_code atom.now rest ≡ words.new.items ++ rest) }
{
    match *atom {
        QAtom::Concept { pred, at } => {
            push_two(words, 0, pred)?;
            push_term(words, at)
        }
        QAtom::Link { pred, from, to } => {
            push_two(words, 1, pred)?;
            push_term(words, from)?;
            push_term(words, to)
        }
    }
}

/// Appends the terms of a head and a mark at their end.
fn push_head(words: &mut Vec<u32>, head: &[Term]) -> Result<(), NoMemory>
    ensures { OnOk result ((rest : List ℕ) → words.old.items ++ head_code head.now rest ≡ words.new.items ++ rest) }
{
    for term in head {
        push_term(words, *term)?;
    }
    push_two(words, 3, 0)?;
    Ok(())
}

/// Appends the atoms of a body.
fn push_body(words: &mut Vec<u32>, body: &[QAtom]) -> Result<(), NoMemory>
    ensures { OnOk result (words.old.items ++ body_code body.now ≡ words.new.items) }
{
    for atom in body {
        push_atom(words, atom)?;
    }
    Ok(())
}

/// The code of a query.
pub fn code_of(alloc: Global, query: &Cq) -> Result<Vec<u32>, NoMemory>
    ensures { IfOk result (λ words. words.items ≡ code_of query.now) }
{
    let mut words = Vec::new(alloc);
    push_head(&mut words, query.head())?;
    push_body(&mut words, query.body())?;
    Ok(words)
}
