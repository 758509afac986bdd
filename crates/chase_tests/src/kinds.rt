//! The kinds of inputs that are compared.

use crate::compared::compare;
use crate::inputs::Kind;
use crate::tally::Tally;
use std::alloc::Global;
use std::process::Abort;
use std::test::Fail;

/// Axioms of every kind, over facts of concepts and of links.
const MIXED: Kind = Kind {
    individuals: 2,
    axioms: 4,
    records: 5,
    of_roles: 25,
    disjoint: 55,
    exists: 40,
    split: 40,
    links: 50,
    preferred: 60,
    is_ordered: true,
};

/// Many facts of two individuals, and many disjointnesses.
const CROWDED: Kind = Kind {
    individuals: 2,
    axioms: 1,
    records: 5,
    of_roles: 5,
    disjoint: 40,
    exists: 20,
    split: 100,
    links: 25,
    preferred: 50,
    is_ordered: true,
};

/// Mostly links, with axioms on roles and their inverses.
const LINKED: Kind = Kind {
    individuals: 2,
    axioms: 3,
    records: 5,
    of_roles: 75,
    disjoint: 50,
    exists: 60,
    split: 0,
    links: 85,
    preferred: 60,
    is_ordered: true,
};

/// Mostly facts of concepts, with axioms that give nulls.
const NESTED: Kind = Kind {
    individuals: 2,
    axioms: 4,
    records: 5,
    of_roles: 20,
    disjoint: 45,
    exists: 65,
    split: 60,
    links: 15,
    preferred: 60,
    is_ordered: true,
};

/// The crowded kind with a priority that may have a cycle.
const CYCLIC: Kind = Kind {
    is_ordered: false,
    preferred: 60,
    ..CROWDED
};

/// What a test has at least: conflicts, and answers of no repair and of some repair alone.
const LEAST: Tally = Tally {
    conflicts: 8,
    cycles: 0,
    changed: 0,
    answers: 60,
    brave_no: 20,
    brave_alone: 3,
    ar_alone: 0,
    iar_beside_conflicts: 2,
    by_nulls: 0,
};

/// The runs on 60 inputs of the kind agree, from the seed on, and the inputs have at least so much of each sort.
fn must_agree(
    rt: &impl Abort,
    alloc: Global,
    kind: &Kind,
    seed: usize,
    least: &Tally,
) -> Result<(), Fail> {
    let tally = compare(rt, alloc, kind, seed, 60)?;
    assert!(rt; tally.has(least), "{tally:?}");
    Ok(())
}

#[test]
fn axioms_of_every_kind(rt: HostRuntime) -> Result<(), Fail> {
    let least = Tally {
        conflicts: 20,
        changed: 4,
        brave_alone: 10,
        ..LEAST
    };
    must_agree(&rt, rt.alloc(), &MIXED, 1000, &least)
}

#[test]
fn many_facts_of_few_individuals(rt: HostRuntime) -> Result<(), Fail> {
    let least = Tally {
        conflicts: 15,
        changed: 1,
        ar_alone: 1,
        ..LEAST
    };
    must_agree(&rt, rt.alloc(), &CROWDED, 2000, &least)
}

#[test]
fn links_and_inclusions_of_roles(rt: HostRuntime) -> Result<(), Fail> {
    let least = Tally {
        changed: 1,
        ..LEAST
    };
    must_agree(&rt, rt.alloc(), &LINKED, 3000, &least)
}

#[test]
fn axioms_that_give_nulls(rt: HostRuntime) -> Result<(), Fail> {
    let least = Tally {
        conflicts: 10,
        changed: 3,
        by_nulls: 1,
        ..LEAST
    };
    must_agree(&rt, rt.alloc(), &NESTED, 4000, &least)
}

#[test]
fn priorities_with_cycles(rt: HostRuntime) -> Result<(), Fail> {
    let least = Tally { cycles: 3, ..LEAST };
    must_agree(&rt, rt.alloc(), &CYCLIC, 5000, &least)
}
