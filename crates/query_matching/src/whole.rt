//! The row of a whole match.

ghost use Rattle.std.specs.Prelude.{◌≡◌, ℕ, List, IfOk, OnOk, All, []};
ghost use Rattle.cq_terms.specs.declared.facts.Fact.{Fact};
ghost use Rattle.query_matching.specs.Bindings.{Agrees, HeadIs};
ghost use Rattle.query_matching.specs.Extensions.{IsCovered, GoesOn, CanExtend, AddsOnly, HasAll};

use crate::bindings::{Binding, Walk, known};
use crate::row::Row;
use cq_terms::{Ids, NoMemory, Term};
use std::alloc::Global;
use std::collections::BTreeSet;

/// Adds the row of a whole match: what the head becomes, and the ascending numbers of the facts that the atoms became.
pub fn add_row(head: &[Term], walk: &Walk, found: &mut BTreeSet<Row>) -> Result<(), NoMemory>
    requires can { CanExtend head.now [] walk.now }

    ensures only { (facts : List Fact) → AddsOnly (GoesOn facts head.now [] walk.now) found.old.keys found.new.keys }
    ensures all { (facts : List Fact) → OnOk result (HasAll (GoesOn facts head.now [] walk.now) found.new.keys) }
{
    let alloc = *walk.path.allocator();
    let tuple = tuple_of(alloc, head, &walk.bindings)?;
    let image = Ids::sorted(alloc, &walk.path)?;
    found.insert(Row { tuple, image })?;
    Ok(())
}

/// The individuals of the head.
fn tuple_of(alloc: Global, head: &[Term], bindings: &[Binding]) -> Result<Ids, NoMemory>
    requires bound { All (IsCovered bindings.now []) head.now }

    ensures right { IfOk result (λ tuple. (v : ℕ → ℕ) → Agrees bindings.now v → HeadIs v head.now tuple) }
{
    let mut tuple = Ids::new(alloc);
    for term in head {
        let Some(individual) = known(bindings, *term) else {
            unreachable!()
        };
        tuple.push(individual)?;
    }
    Ok(tuple)
}
