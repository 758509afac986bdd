//! Whether a query has a match with a given tuple and a given image: a search among the facts of the image alone.

ghost use Rattle.std.specs.Prelude.{◌≡◌, ◌↔◌, ℕ, ◌<◌, ◌∷◌, [], length, All, Contains, IfOk, OnOk, IsTrue};
ghost use Rattle.cq_meaning.specs.Entailment.{HasImage};
ghost use Rattle.cq_terms.specs.Lists.{IsAscending};
ghost use Rattle.query_matching.specs.Bindings.{AreConsistent, HeadIs, Binds};
ghost use Rattle.query_matching.specs.Extensions.{IsSameWalk};
ghost use Rattle.plain_match.specs.Endings.{HasEnding, HasEndingBy, CanEnd, NoVariable};

use crate::facts::PlainFacts;
use crate::image::are_all_met;
use cq_terms::{Cq, NoMemory, QAtom, Term};
use query_matching::{Binding, Walk, bind_atom, bind_term};
use std::alloc::Global;

/// Whether the query has a match with exactly that tuple and image: its head becomes the tuple, and the ascending numbers of
/// the facts that its atoms become are the image. It looks at the facts of the image alone.
pub fn matches_with(
    alloc: Global,
    query: &Cq,
    facts: &PlainFacts,
    tuple: &[u32],
    image: &[u32],
) -> Result<bool, NoMemory>
    ensures exact { IfOk result (λ found. IsTrue found ↔ HasImage facts.now query.now tuple.now image.now) }
{
    let count = facts.len();
    if image.len() > query.body().len() || !are_fact_numbers(image, count) {
        return Ok(false);
    }
    let mut walk = Walk::new(alloc);
    if !bind_head(&mut walk.bindings, query.head(), tuple)? {
        return Ok(false);
    }
    has_ending(facts, image, query.body(), &mut walk)
}

/// Whether the numbers ascend and are those of facts.
fn are_fact_numbers(numbers: &[u32], facts: usize) -> bool
    ensures exact { IsTrue result ↔ IsAscending numbers.now × All (λ n. n < facts) numbers.now }
{
    let mut least = 0;
    for number in numbers {
        let number = *number as usize;
        if number < least || number >= facts {
            return false;
        }
        least = number + 1;
    }
    true
}

/// Binds what the head needs to be the tuple, and answers whether it may be.
fn bind_head(bindings: &mut Vec<Binding>, head: &[Term], tuple: &[u32]) -> Result<bool, NoMemory>
    requires consistent { AreConsistent bindings.old.items }

    ensures exact { IfOk result (Binds (λ v. HeadIs v head.now tuple.now) NoVariable bindings.old.items bindings.new.items) }
{
    if head.len() != tuple.len() {
        return Ok(false);
    }
    for place in 0..head.len() {
        if !bind_term(bindings, head[place], tuple[place])? {
            return Ok(false);
        }
    }
    Ok(true)
}

/// Whether the atoms that are left may become facts of the image, so that with those before all its facts are met.
#[cycle(ending)]
fn has_ending(
    facts: &PlainFacts,
    image: &[u32],
    rest: &[QAtom],
    walk: &mut Walk,
) -> Result<bool, NoMemory>
    requires can { CanEnd facts.now image.now walk.old }

    ensures exact { IfOk result (λ found. IsTrue found
        ↔ HasEnding facts.now image.now rest.now walk.old.bindings.items walk.old.path.items) }
    ensures same { OnOk result (IsSameWalk walk.old walk.new) }
{
    let Some((atom, more)) = rest.split_first() else {
        return Ok(are_all_met(image, &walk.path));
    };
    for number in image {
        if has_ending_by(facts, image, *atom, more, *number, walk)? {
            return Ok(true);
        }
    }
    Ok(false)
}

/// Whether they may where the next atom becomes the fact of the number.
#[cycle(ending)]
fn has_ending_by(
    facts: &PlainFacts,
    image: &[u32],
    atom: QAtom,
    more: &[QAtom],
    number: u32,
    walk: &mut Walk,
) -> Result<bool, NoMemory>
    requires can { CanEnd facts.now image.now walk.old }
    requires inside { Contains image.now number }

    ensures exact { IfOk result (λ found. IsTrue found
        ↔ HasEndingBy facts.now image.now atom more.now number walk.old.bindings.items walk.old.path.items) }
    ensures same { OnOk result (IsSameWalk walk.old walk.new) }
{
    let mark = walk.bindings.len();
    if !bind_atom(&mut walk.bindings, atom, facts.fact(number))? {
        walk.bindings.truncate(mark);
        return Ok(false);
    }
    walk.path.push(number)?;
    let found = has_ending(facts, image, more, walk)?;
    walk.path.pop();
    walk.bindings.truncate(mark);
    Ok(found)
}
