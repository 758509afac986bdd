//! What no clause says: closures worked by hand, member by member, and that memory is enough for them.

use crate::queries::query;
use cq_steps::{Closure, Move, negative_query};
use cq_terms::{Axiom, Basic, QAtom, Role, Term};
use perfect_ref::{CloseRefusal, close};
use std::alloc::Global;
use std::process::Abort;
use std::test::Fail;

const X: Term = Term::Var(0);

const Y: Term = Term::Var(1);

const Z: Term = Term::Var(2);

const A: Term = Term::Ind(0);

const B: Term = Term::Ind(1);

const ANY: Term = Term::Any;

fn name(pred: u32, at: Term) -> QAtom {
    QAtom::Concept { pred, at }
}

fn link(from: Term, to: Term) -> QAtom {
    QAtom::Link { pred: 0, from, to }
}

fn some(inverse: bool) -> Basic {
    Basic::Has(Role { pred: 0, inverse })
}

fn below(left: Basic, right: Basic) -> Axiom {
    Axiom::Sub { left, right }
}

/// A query and axioms, how many members its closure has, their bodies one behind the other, and their steps but for the
/// first.
#[derive(Clone, Copy)]
struct Row<'a> {
    head: &'a [Term],
    body: &'a [QAtom],
    axioms: &'a [Axiom],
    members: u32,
    bodies: &'a [QAtom],
    steps: &'a [(u32, Move)],
}

fn axiom(member: u32, atom: u32, axiom: u32) -> (u32, Move) {
    (member, Move::Axiom { atom, axiom })
}

fn reduce(member: u32) -> (u32, Move) {
    (
        member,
        Move::Reduce {
            first: 0,
            second: 1,
        },
    )
}

/// The members are those of the row.
fn has_members(rt: &impl Abort, closure: &Closure, row: &Row<'_>) {
    let mut at = 0;
    let mut from = 0;
    for member in closure.members() {
        if at > 0 {
            assert!(rt; at <= row.steps.len());
            assert_eq!(rt; member.step, Some(row.steps[at - 1]));
        }
        at += 1;
        let end = member.query.body().len().saturating_add(from);
        assert!(rt; from <= end && end <= row.bodies.len());
        assert_eq!(rt; member.query.body(), &row.bodies[from..end]);
        from = end;
    }
    assert_eq!(rt; at, row.members as usize);
    assert_eq!(rt; from, row.bodies.len());
}

/// The closure is the row's with room for its members, and is refused with room for one less.
fn holds(rt: &impl Abort, alloc: Global, row: &Row<'_>) -> Result<(), CloseRefusal> {
    let given = query(rt, alloc, row.head, row.body)?;
    assert!(rt; given.body().len() < 12);
    assert!(rt; row.axioms.len() < 12);
    let closure = close(alloc, &given, row.axioms, row.members)?;
    has_members(rt, &closure, row);
    let refused = close(alloc, &given, row.axioms, row.members.saturating_sub(1)).err();
    assert_eq!(rt; refused, Some(CloseRefusal::TooManyCqs));
    Ok(())
}

#[test]
fn only_a_reduce_step_frees_the_variable(rt: HostRuntime) -> Result<(), Fail> {
    let row = Row {
        head: &[X],
        body: &[link(X, Y), link(Z, Y)],
        axioms: &[below(Basic::Concept(0), some(false))],
        members: 3,
        bodies: &[link(X, Y), link(ANY, Y), link(X, ANY), name(0, X)],
        steps: &[reduce(0), axiom(1, 0, 0)],
    };
    holds(&rt, rt.alloc(), &row)?;
    Ok(())
}

#[test]
fn three_names_are_below_one(rt: HostRuntime) -> Result<(), Fail> {
    let row = Row {
        head: &[X],
        body: &[name(0, X)],
        axioms: &[
            below(Basic::Concept(1), Basic::Concept(0)),
            below(Basic::Concept(2), Basic::Concept(0)),
            below(Basic::Concept(3), Basic::Concept(0)),
        ],
        members: 4,
        bodies: &[name(0, X), name(1, X), name(2, X), name(3, X)],
        steps: &[axiom(0, 0, 0), axiom(0, 0, 1), axiom(0, 0, 2)],
    };
    holds(&rt, rt.alloc(), &row)?;
    Ok(())
}

#[test]
fn a_query_further_off_comes_after_all_nearer_ones(rt: HostRuntime) -> Result<(), Fail> {
    let row = Row {
        head: &[X],
        body: &[name(0, X)],
        axioms: &[
            below(Basic::Concept(2), Basic::Concept(1)),
            below(Basic::Concept(1), Basic::Concept(0)),
            below(Basic::Concept(3), Basic::Concept(0)),
            below(Basic::Concept(3), Basic::Concept(2)),
        ],
        members: 4,
        bodies: &[name(0, X), name(1, X), name(3, X), name(2, X)],
        steps: &[axiom(0, 0, 1), axiom(0, 0, 2), axiom(1, 0, 0)],
    };
    holds(&rt, rt.alloc(), &row)?;
    Ok(())
}

#[test]
fn two_links_become_one(rt: HostRuntime) -> Result<(), Fail> {
    let row = Row {
        head: &[],
        body: &[link(X, A), link(B, Y)],
        axioms: &[],
        members: 2,
        bodies: &[link(B, ANY), link(ANY, A), link(B, A)],
        steps: &[reduce(0)],
    };
    holds(&rt, rt.alloc(), &row)?;
    Ok(())
}

#[test]
fn a_cycle_through_a_role_ends(rt: HostRuntime) -> Result<(), Fail> {
    let row = Row {
        head: &[],
        body: &[name(0, X)],
        axioms: &[
            below(Basic::Concept(0), some(false)),
            below(some(true), Basic::Concept(0)),
        ],
        members: 2,
        bodies: &[name(0, ANY), link(ANY, ANY)],
        steps: &[axiom(0, 0, 1)],
    };
    holds(&rt, rt.alloc(), &row)?;
    Ok(())
}

#[test]
fn no_move_applies(rt: HostRuntime) -> Result<(), Fail> {
    let row = Row {
        head: &[X],
        body: &[name(1, X)],
        axioms: &[below(Basic::Concept(1), Basic::Concept(0))],
        members: 1,
        bodies: &[name(1, X)],
        steps: &[],
    };
    holds(&rt, rt.alloc(), &row)?;
    Ok(())
}

#[test]
fn the_closure_of_a_disjointness_is_worked_by_hand(rt: HostRuntime) -> Result<(), Fail> {
    let alloc = rt.alloc();
    let axioms = [
        below(Basic::Concept(0), some(false)),
        below(some(true), Basic::Concept(1)),
        Axiom::Disjoint {
            left: some(true),
            right: Basic::Concept(1),
        },
    ];
    let Some(forbidden) = negative_query(alloc, &axioms[2])? else {
        return Err("no query")?;
    };
    assert!(rt; forbidden.body().len() < 12);
    let closure = close(alloc, &forbidden, &axioms, 3)?;
    let row = Row {
        head: &[],
        body: &[],
        axioms: &axioms,
        members: 3,
        bodies: &[name(1, X), link(ANY, X), link(ANY, ANY), name(0, ANY)],
        steps: &[axiom(0, 0, 1), axiom(1, 0, 0)],
    };
    has_members(&rt, &closure, &row);
    Ok(())
}

/// The heads of the members are these.
fn has_heads(rt: &impl Abort, closure: &Closure, heads: &[&[Term]]) {
    assert_eq!(rt; closure.members().len(), heads.len());
    for (member, head) in closure.members().iter().zip(heads) {
        assert_eq!(rt; member.query.head(), *head);
    }
}

/// Under A < some P, from ?x ?z <- P(?x, ?y), P(?z, ?y). The variable ?y stands twice, and ?x and ?z are in the head: all are bound,
/// so the axiom applies to neither atom. The most general unifier of the atoms makes ?z to ?x, in the head too: reduce gives
/// ?x ?x <- P(?x, ?y), where ?y is unbound now, so P(?x, _). There the axiom applies: ?x ?x <- A(?x). No axiom has A on its right.
#[test]
fn a_reduce_step_makes_two_variables_of_the_head_one(rt: HostRuntime) -> Result<(), Fail> {
    let alloc = rt.alloc();
    let row = Row {
        head: &[X, Z],
        body: &[link(X, Y), link(Z, Y)],
        axioms: &[below(Basic::Concept(0), some(false))],
        members: 3,
        bodies: &[link(X, Y), link(Z, Y), link(X, ANY), name(0, X)],
        steps: &[reduce(0), axiom(1, 0, 0)],
    };
    holds(&rt, alloc, &row)?;
    let given = query(&rt, alloc, row.head, row.body)?;
    assert!(rt; given.body().len() < 12);
    let closure = close(alloc, &given, row.axioms, row.members)?;
    has_heads(&rt, &closure, &[&[X, Z], &[X, X], &[X, X]]);
    Ok(())
}
