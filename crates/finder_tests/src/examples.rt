//! The examples of use in the docs of `close`, `find` and `causes`, line by line.

ghost use Rattle.std.specs.Prelude.{◌≡◌, length, IfOk};

use cause_finder::{Candidate, causes};
use conflict_finder::{FoundConflicts, find};
use cq_steps::Closure;
use cq_terms::{Axiom, Basic, Cq, Fact, QAtom, Term};
use fact_index::Index;
use perfect_ref::close;
use std::alloc::Global;
use std::test::Fail;

/// Queries for sailors.
fn sailors(alloc: Global) -> Result<Closure, Fail> {
    // Each captain is a sailor, so that a query for sailors finds captains too.
    let (captain, sailor) = (Basic::Concept(0), Basic::Concept(1));
    let axioms = [Axiom::Sub {
        left: captain,
        right: sailor,
    }];
    let x = Term::Var(0);
    let head = Vec::from_slice(alloc, &[x])?;
    let body = Vec::from_slice(alloc, &[QAtom::Concept { pred: 1, at: x }])?;
    let closure = close(alloc, &Cq::new(head, body), &axioms, 1_000)?;
    Ok(closure)
}

/// Individual 7 is told to be a vessel and a harbour.
fn index(alloc: Global) -> Result<Index, Fail> {
    let facts = [
        Fact::Concept { pred: 0, ind: 7 },
        Fact::Concept { pred: 1, ind: 7 },
    ];
    let index = Index::build(alloc, &facts)?;
    Ok(index)
}

/// The conflict of the two facts.
fn found(alloc: Global, index: &Index) -> Result<FoundConflicts, Fail>
    ensures facts { IfOk result (λ found. found.conflicts.facts ≡ length index.now) }
{
    // No vessel is a harbour.
    let (vessel, harbour) = (Basic::Concept(0), Basic::Concept(1));
    let axioms = [Axiom::Disjoint {
        left: vessel,
        right: harbour,
    }];
    let found = find(alloc, &axioms, index, 1_000, 1_000)?;
    Ok(found)
}

/// The vessels of the table.
fn vessels(alloc: Global, index: &Index, found: &FoundConflicts) -> Result<Vec<Candidate>, Fail>
    requires facts { found.now.conflicts.facts ≡ length index.now }
{
    let (vessel, harbour) = (Basic::Concept(0), Basic::Concept(1));
    let axioms = [Axiom::Disjoint {
        left: vessel,
        right: harbour,
    }];
    let x = Term::Var(0);
    let head = Vec::from_slice(alloc, &[x])?;
    let body = Vec::from_slice(alloc, &[QAtom::Concept { pred: 0, at: x }])?;
    let closure = close(alloc, &Cq::new(head, body), &axioms, 1_000)?;
    let candidates = causes(alloc, &axioms, &closure, index, &found.conflicts, 1_000)?;
    Ok(candidates)
}

#[test]
fn sailors_are_captains_too(rt: HostRuntime) -> Result<(), Fail> {
    assert_eq!(rt; sailors(rt.alloc())?.members().len(), 2);
    Ok(())
}

#[test]
fn the_vessel_is_a_harbour_too(rt: HostRuntime) -> Result<(), Fail> {
    let index = index(rt.alloc())?;
    let found = found(rt.alloc(), &index)?;
    let clashes = found.conflicts.clashes();
    assert_eq!(rt; clashes.len(), 1);
    assert!(rt; clashes[0].facts.as_slice() == [0, 1].as_slice());
    let candidates = vessels(rt.alloc(), &index, &found)?;
    assert_eq!(rt; candidates.len(), 1);
    assert!(rt; candidates[0].tuple.as_slice() == [7].as_slice());
    assert_eq!(rt; candidates[0].causes.len(), 1);
    assert!(rt; candidates[0].causes.as_slice()[0].as_slice() == [0].as_slice());
    Ok(())
}
