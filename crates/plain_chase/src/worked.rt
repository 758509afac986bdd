//! Inputs that are worked by hand.

use crate::atoms::{Atom, Axiom, Basic, Role};
use crate::chase::Chase;
use crate::matching::{Asked, Place, Query};
use crate::repairs::Mode;
use crate::verdicts::{Judged, Outcome, Preferred, Table, judge};
use std::alloc::Global;
use std::test::Fail;

/// The role of the number 0, and its inverse.
const TO: Role = Role {
    name: 0,
    is_inverse: false,
};

const BACK: Role = Role {
    name: 0,
    is_inverse: true,
};

/// The chase of `A(a)` under `A < some P`, `some inv P < B`, with nulls as deep as given.
fn small_chase(alloc: Global, depth: usize) -> Result<Chase, Fail> {
    let axioms = [
        Axiom::Sub {
            left: Basic::Concept(0),
            right: Basic::Exists(TO),
        },
        Axiom::Sub {
            left: Basic::Exists(BACK),
            right: Basic::Concept(1),
        },
    ];
    let facts = [Atom::Concept { name: 0, term: 0 }];
    Ok(Chase::of(alloc, 1, &facts, &axioms, depth)?)
}

#[test]
fn a_null_is_made_and_belongs_to_a_concept(rt: HostRuntime) -> Result<(), Fail> {
    let chase = small_chase(rt.alloc(), 2)?;
    let link = Atom::Link {
        name: 0,
        from: 0,
        to: 1,
    };
    let member = Atom::Concept { name: 1, term: 1 };
    let all = [Atom::Concept { name: 0, term: 0 }, link, member];
    assert!(rt; chase.atoms() == all.as_slice());
    Ok(())
}

#[test]
fn no_null_is_deeper_than_told(rt: HostRuntime) -> Result<(), Fail> {
    let chase = small_chase(rt.alloc(), 0)?;
    let all = [Atom::Concept { name: 0, term: 0 }];
    assert!(rt; chase.atoms() == all.as_slice());
    Ok(())
}

/// `Prof(ann)`, `Student(ann)`: whoever is a professor is of the staff, which no student is. The professor is preferred where told.
fn staff(alloc: Global, is_preferred: bool) -> Result<Table, Fail> {
    let mut table = Table {
        individuals: 1,
        facts: Vec::new(alloc),
        axioms: Vec::new(alloc),
        pairs: Vec::new(alloc),
    };
    table.facts.push(Atom::Concept { name: 0, term: 0 })?;
    table.facts.push(Atom::Concept { name: 1, term: 0 })?;
    put_axioms(&mut table)?;
    if is_preferred {
        table.pairs.push(Preferred { upper: 0, lower: 1 })?;
    }
    Ok(table)
}

/// Puts the axioms of the staff behind those of the table.
fn put_axioms(table: &mut Table) -> Result<(), Fail> {
    table.axioms.push(Axiom::Sub {
        left: Basic::Concept(0),
        right: Basic::Concept(2),
    })?;
    table.axioms.push(Axiom::Disjoint {
        left: Basic::Concept(1),
        right: Basic::Concept(2),
    })?;
    Ok(())
}

/// Who is of the concept.
fn members_of(alloc: Global, name: usize) -> Result<Query, Fail> {
    let mut body = Vec::new(alloc);
    body.push(Asked::Concept {
        name,
        at: Place::Variable(0),
    })?;
    Ok(Query {
        head: [Some(0), None],
        body,
    })
}

/// The verdicts of the only candidate, `ann`, for the concept.
fn verdicts(alloc: Global, table: &Table, name: usize, mode: Mode) -> Result<Option<Judged>, Fail> {
    let query = members_of(alloc, name)?;
    let judgement = judge(alloc, table, &query, mode)?;
    match &judgement.outcome {
        Outcome::Cycle => Ok(None),
        Outcome::Answers(judged) => Ok(judged.first().copied()),
    }
}

/// `ann` with the verdicts.
fn ann(brave: bool, ar: bool, iar: bool) -> Option<Judged> {
    Some(Judged {
        tuple: [Some(0), None],
        brave,
        ar,
        iar,
    })
}

#[test]
fn each_of_two_repairs_has_a_fact(rt: HostRuntime) -> Result<(), Fail> {
    let table = staff(rt.alloc(), false)?;
    let staff = verdicts(rt.alloc(), &table, 2, Mode::Pareto)?;
    assert!(rt; staff == ann(true, false, false));
    Ok(())
}

#[test]
fn the_preferred_fact_is_in_the_only_chosen_repair(rt: HostRuntime) -> Result<(), Fail> {
    let table = staff(rt.alloc(), true)?;
    let staff = verdicts(rt.alloc(), &table, 2, Mode::Pareto)?;
    assert!(rt; staff == ann(true, true, true));
    let students = verdicts(rt.alloc(), &table, 1, Mode::Pareto)?;
    assert!(rt; students == ann(false, false, false));
    Ok(())
}

#[test]
fn of_all_repairs_the_priority_says_nothing(rt: HostRuntime) -> Result<(), Fail> {
    let table = staff(rt.alloc(), true)?;
    let students = verdicts(rt.alloc(), &table, 1, Mode::All)?;
    assert!(rt; students == ann(true, false, false));
    Ok(())
}
