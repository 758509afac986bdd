//! Tables of distinct facts.

ghost use Rattle.std.specs.Prelude.{◌≡◌, ◌↔◌, Contains, IfOk, IsTrue};
ghost use Rattle.cq_terms.specs.Knowledge.{AreDistinct};

use cq_terms::{Fact, NoMemory};
use fact_index::Index;
use plain_match::PlainFacts;
use std::alloc::Global;

/// Whether the facts are the same.
fn is_same(left: Fact, right: Fact) -> bool
    ensures exact { IsTrue result ↔ (left ≡ right) }
{
    left == right
}

/// Whether the fact stands among them.
fn has(facts: &[Fact], fact: Fact) -> bool
    ensures exact { IsTrue result ↔ Contains facts.now fact }
{
    for known in facts {
        if is_same(*known, fact) {
            return true;
        }
    }
    false
}

/// Appends the fact, where it doesn't stand there yet.
pub(crate) fn put(facts: &mut Vec<Fact>, fact: Fact) -> Result<(), NoMemory>
    requires distinct { AreDistinct facts.old.items }

    ensures distinct { AreDistinct facts.new.items }
{
    if has(facts, fact) {
        return Ok(());
    }
    facts.push(fact)?;
    Ok(())
}

/// The facts of the list, each once, where it first stands.
fn each_once(alloc: Global, listed: &[Fact]) -> Result<Vec<Fact>, NoMemory>
    ensures distinct { IfOk result (λ facts. AreDistinct facts.items) }
{
    let mut facts = Vec::new(alloc);
    for fact in listed {
        put(&mut facts, *fact)?;
    }
    Ok(facts)
}

/// The index over the facts of a short list.
pub(crate) fn indexed(alloc: Global, listed: &[Fact]) -> Result<Index, NoMemory> {
    let facts = each_once(alloc, listed)?;
    if facts.len() > 1000 {
        return Err(NoMemory);
    }
    let index = Index::build(alloc, &facts)?;
    Ok(index)
}

/// The facts of a list for the plain evaluator.
pub(crate) fn plain(alloc: Global, listed: &[Fact]) -> Result<PlainFacts, NoMemory> {
    let facts = each_once(alloc, listed)?;
    let plain = PlainFacts::build(alloc, &facts)?;
    Ok(plain)
}
