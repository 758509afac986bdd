//! Tables and queries by chance, the same in each run.

ghost use Rattle.std.specs.Prelude.{IfOk};
ghost use Rattle.cq_terms.specs.Knowledge.{AreDistinct};

use crate::tables::put;
use cq_terms::{Cq, Fact, NoMemory, QAtom, Term};
use std::alloc::Global;

/// The next number of a sequence that looks random (Marsaglia 2003).
fn next(seed: &mut u64) -> u64 {
    *seed = *seed ^ (*seed << 13);
    *seed = *seed ^ (*seed >> 7);
    *seed = *seed ^ (*seed << 17);
    *seed
}

/// A number below the bound, or 0 where the bound is 0.
fn below(seed: &mut u64, bound: u32) -> u32 {
    let some = (next(seed) / 4_294_967_296 % 65_536) as u32;
    some.checked_rem(bound).unwrap_or(0)
}

/// A fact of one of two concepts or two roles, over three individuals.
fn some_fact(seed: &mut u64) -> Fact {
    let pred = below(seed, 2);
    let from = below(seed, 3);
    match below(seed, 3) {
        0 => Fact::Concept { pred, ind: from },
        to => Fact::Link {
            pred,
            from,
            to: to - 1,
        },
    }
}

/// Up to ten distinct facts.
pub(crate) fn some_facts(alloc: Global, seed: &mut u64) -> Result<Vec<Fact>, NoMemory>
    ensures distinct { IfOk result (λ facts. AreDistinct facts.items) }
{
    let mut facts = Vec::new(alloc);
    for _ in 0..10 {
        put(&mut facts, some_fact(seed))?;
    }
    Ok(facts)
}

/// A variable, an individual, or `_`.
fn some_term(seed: &mut u64) -> Term {
    match below(seed, 7) {
        5 => Term::Ind(below(seed, 3)),
        6 => Term::Any,
        number => Term::Var(number / 2),
    }
}

/// An atom of one of these concepts or roles.
fn some_atom(seed: &mut u64) -> QAtom {
    let pred = below(seed, 2);
    let from = some_term(seed);
    if below(seed, 3) == 0 {
        return QAtom::Concept { pred, at: from };
    }
    let to = some_term(seed);
    QAtom::Link { pred, from, to }
}

/// One to three atoms.
fn some_body(alloc: Global, seed: &mut u64) -> Result<Vec<QAtom>, NoMemory> {
    let mut body = Vec::new(alloc);
    body.push(some_atom(seed))?;
    for _ in 0..below(seed, 3) {
        body.push(some_atom(seed))?;
    }
    Ok(body)
}

/// Up to two variables or individuals.
fn some_head(alloc: Global, seed: &mut u64) -> Result<Vec<Term>, NoMemory> {
    let mut head = Vec::new(alloc);
    for _ in 0..below(seed, 3) {
        head.push(some_term(seed))?;
    }
    Ok(head)
}

/// A query alone, or none where the head and the body that came aren't those of a query.
pub(crate) fn some_query(alloc: Global, seed: &mut u64) -> Result<Vec<Cq>, NoMemory> {
    let mut members = Vec::new(alloc);
    let head = some_head(alloc, seed)?;
    if let Some(query) = Cq::checked(head, some_body(alloc, seed)?) {
        members.push(query)?;
    }
    Ok(members)
}
