//! What no clause says: the normal forms and moves of queries worked by hand, and that memory is enough for them.

ghost use Rattle.std.specs.Prelude.{◌≡◌, ◌∷◌, [], IfOk};

use crate::queries::query;
use cq_steps::{
    Closure, Member, Move, apply, closing_list_is_closure, derived_is_in_closure, negative_query,
    normal, reduce, successors,
};
use cq_terms::{Axiom, Basic, Cq, NoMemory, QAtom, Role, Term};
use std::alloc::Global;
use std::process::Abort;
use std::test::Fail;

const X: Term = Term::Var(0);

const Y: Term = Term::Var(1);

const Z: Term = Term::Var(2);

const W: Term = Term::Var(3);

const A: Term = Term::Ind(0);

const B: Term = Term::Ind(1);

const ANY: Term = Term::Any;

fn name(pred: u32, at: Term) -> QAtom {
    QAtom::Concept { pred, at }
}

fn link(pred: u32, from: Term, to: Term) -> QAtom {
    QAtom::Link { pred, from, to }
}

fn some(pred: u32) -> Basic {
    Basic::Has(Role {
        pred,
        inverse: false,
    })
}

fn some_inverse(pred: u32) -> Basic {
    Basic::Has(Role {
        pred,
        inverse: true,
    })
}

fn role_axiom(left_inverse: bool, right_inverse: bool) -> Axiom {
    Axiom::SubRole {
        left: Role {
            pred: 1,
            inverse: left_inverse,
        },
        right: Role {
            pred: 0,
            inverse: right_inverse,
        },
    }
}

/// A query, the axioms, the body of its normal form, and the moves on that with the bodies of their results, one behind
/// the other, and the one head that they have.
#[derive(Clone, Copy)]
struct Row<'a> {
    head: &'a [Term],
    body: &'a [QAtom],
    axioms: &'a [Axiom],
    settled: &'a [QAtom],
    moves: &'a [Move],
    results: &'a [QAtom],
    heads: &'a [Term],
}

/// The moves on the query are those of the row.
fn has_moves(rt: &impl Abort, alloc: Global, query: &Cq, row: &Row<'_>) -> Result<(), NoMemory> {
    assert!(rt; query.body().len() < 12);
    assert!(rt; row.axioms.len() < 12);
    let mut at = 0;
    let mut from = 0;
    for (step, next) in &successors(alloc, query, row.axioms)? {
        assert!(rt; at < row.moves.len());
        assert_eq!(rt; *step, row.moves[at]);
        at += 1;
        let end = next.body().len().saturating_add(from);
        assert!(rt; from <= end && end <= row.results.len());
        assert_eq!(rt; next.head(), row.heads);
        assert_eq!(rt; next.body(), &row.results[from..end]);
        from = end;
    }
    assert_eq!(rt; at, row.moves.len());
    assert_eq!(rt; from, row.results.len());
    Ok(())
}

/// The normal form and its moves are those of the row.
fn holds(rt: &impl Abort, alloc: Global, row: &Row<'_>) -> Result<(), NoMemory> {
    let given = query(rt, alloc, row.head, row.body)?;
    let settled = normal(alloc, &given)?;
    assert_eq!(rt; settled.body(), row.settled);
    has_moves(rt, alloc, &settled, row)
}

#[test]
fn both_places_are_unified(rt: HostRuntime) -> Result<(), Fail> {
    let row = Row {
        head: &[],
        body: &[link(0, X, A), link(0, B, Y)],
        axioms: &[],
        settled: &[link(0, B, ANY), link(0, ANY, A)],
        moves: &[Move::Reduce {
            first: 0,
            second: 1,
        }],
        results: &[link(0, B, A)],
        heads: &[],
    };
    holds(&rt, rt.alloc(), &row)?;
    Ok(())
}

#[test]
fn a_blank_gives_way_to_a_variable_and_to_a_blank(rt: HostRuntime) -> Result<(), Fail> {
    let row = Row {
        head: &[],
        body: &[link(0, X, Y), name(0, X), link(0, Z, W)],
        axioms: &[],
        settled: &[name(0, X), link(0, X, ANY), link(0, ANY, ANY)],
        moves: &[Move::Reduce {
            first: 1,
            second: 2,
        }],
        results: &[name(0, X), link(0, X, ANY)],
        heads: &[],
    };
    holds(&rt, rt.alloc(), &row)?;
    Ok(())
}

#[test]
fn different_individuals_have_no_unifier(rt: HostRuntime) -> Result<(), Fail> {
    let row = Row {
        head: &[],
        body: &[name(0, B), name(0, A)],
        axioms: &[],
        settled: &[name(0, A), name(0, B)],
        moves: &[],
        results: &[],
        heads: &[],
    };
    holds(&rt, rt.alloc(), &row)?;
    Ok(())
}

#[test]
fn a_variable_of_the_head_becomes_an_individual(rt: HostRuntime) -> Result<(), Fail> {
    let row = Row {
        head: &[X],
        body: &[name(0, A), name(0, X)],
        axioms: &[],
        settled: &[name(0, X), name(0, A)],
        moves: &[Move::Reduce {
            first: 0,
            second: 1,
        }],
        results: &[name(0, A)],
        heads: &[A],
    };
    holds(&rt, rt.alloc(), &row)?;
    Ok(())
}

#[test]
fn a_variable_joins_nothing_once_its_atoms_are_one(rt: HostRuntime) -> Result<(), Fail> {
    let row = Row {
        head: &[X],
        body: &[link(0, X, Y), link(0, Z, Y)],
        axioms: &[Axiom::Sub {
            left: Basic::Concept(0),
            right: some(0),
        }],
        settled: &[link(0, X, Y), link(0, ANY, Y)],
        moves: &[Move::Reduce {
            first: 0,
            second: 1,
        }],
        results: &[link(0, X, ANY)],
        heads: &[X],
    };
    holds(&rt, rt.alloc(), &row)?;
    Ok(())
}

#[test]
fn equal_atoms_are_one_before_variables_are_counted(rt: HostRuntime) -> Result<(), Fail> {
    let row = Row {
        head: &[],
        body: &[link(0, X, Y), link(0, Z, Y)],
        axioms: &[Axiom::Sub {
            left: Basic::Concept(0),
            right: some(0),
        }],
        settled: &[link(0, ANY, ANY)],
        moves: &[Move::Axiom { atom: 0, axiom: 0 }],
        results: &[name(0, ANY)],
        heads: &[],
    };
    holds(&rt, rt.alloc(), &row)?;
    Ok(())
}

#[test]
fn inverse_roles_exchange_the_places(rt: HostRuntime) -> Result<(), Fail> {
    let row = Row {
        head: &[X, Y],
        body: &[link(0, X, Y)],
        axioms: &[
            role_axiom(false, false),
            role_axiom(true, true),
            role_axiom(true, false),
            role_axiom(false, true),
        ],
        settled: &[link(0, X, Y)],
        moves: &[
            Move::Axiom { atom: 0, axiom: 0 },
            Move::Axiom { atom: 0, axiom: 1 },
            Move::Axiom { atom: 0, axiom: 2 },
            Move::Axiom { atom: 0, axiom: 3 },
        ],
        results: &[link(1, X, Y), link(1, X, Y), link(1, Y, X), link(1, Y, X)],
        heads: &[X, Y],
    };
    holds(&rt, rt.alloc(), &row)?;
    Ok(())
}

#[test]
fn the_query_of_a_disjointness_is_rewritten(rt: HostRuntime) -> Result<(), Fail> {
    let alloc = rt.alloc();
    let axioms = [
        Axiom::Sub {
            left: Basic::Concept(0),
            right: some(0),
        },
        Axiom::Sub {
            left: some_inverse(0),
            right: Basic::Concept(1),
        },
        Axiom::Disjoint {
            left: some_inverse(0),
            right: Basic::Concept(1),
        },
    ];
    let none = negative_query(alloc, &axioms[0])?;
    assert!(rt; none.is_none());
    let Some(first) = negative_query(alloc, &axioms[2])? else {
        return Err("no query")?;
    };
    assert_eq!(rt; first.body(), [name(1, X), link(0, ANY, X)].as_slice());
    let row = Row {
        head: &[],
        body: &[],
        axioms: &axioms,
        settled: &[],
        moves: &[Move::Axiom { atom: 0, axiom: 1 }],
        results: &[link(0, ANY, ANY)],
        heads: &[],
    };
    has_moves(&rt, alloc, &first, &row)?;
    let closure = Closure::first(alloc, first)?;
    assert_eq!(rt; closure.members().len(), 1);
    closing_list_is_closure();
    derived_is_in_closure();
    Ok(())
}

/// Whether a step gave the query of this head and body.
fn is_query(made: &Option<Cq>, head: &[Term], body: &[QAtom]) -> bool {
    match made {
        Some(query) => query.head() == head && query.body() == body,
        None => false,
    }
}

/// What the axiom makes of an atom of ?x <- A(?x), P(?x, _), S(?x, ?x).
fn applied(
    rt: &impl Abort,
    alloc: Global,
    atom: u32,
    rule: &Axiom,
) -> Result<Option<Cq>, NoMemory> {
    let body = [name(0, X), link(0, X, ANY), link(1, X, X)];
    let given = query(rt, alloc, &[X], &body)?;
    assert!(rt; (atom as usize) < given.body().len());
    apply(alloc, &given, atom, rule)
}

/// The axiom step on an atom asks for the left side of an inclusion what the atom asks for its right side, and leaves the
/// head and the other atoms. B < A takes A(?x) to B(?x). B < some P takes P(?x, _) to B(?x), and some inverse S < some P takes
/// it to S(_, ?x). An inclusion in some P doesn't apply to A(?x), nor to an atom of another role; one in some S doesn't apply to
/// S(?x, ?x), whose second place is bound; a disjointness applies to none.
#[test]
fn an_axiom_step_asks_for_the_left_side(rt: HostRuntime) -> Result<(), Fail> {
    let alloc = rt.alloc();
    let below_name = Axiom::Sub {
        left: Basic::Concept(1),
        right: Basic::Concept(0),
    };
    let made = applied(&rt, alloc, 0, &below_name)?;
    assert!(rt; is_query(&made, &[X], &[name(1, X), link(0, X, ANY), link(1, X, X)]));
    let below_role = Axiom::Sub {
        left: Basic::Concept(1),
        right: some(0),
    };
    let made = applied(&rt, alloc, 1, &below_role)?;
    assert!(rt; is_query(&made, &[X], &[name(0, X), name(1, X), link(1, X, X)]));
    let inverse = Axiom::Sub {
        left: some_inverse(1),
        right: some(0),
    };
    let made = applied(&rt, alloc, 1, &inverse)?;
    assert!(rt; is_query(&made, &[X], &[name(0, X), link(1, X, X), link(1, ANY, X)]));
    Ok(())
}

#[test]
fn an_axiom_step_needs_the_right_side(rt: HostRuntime) -> Result<(), Fail> {
    let alloc = rt.alloc();
    let bound = Axiom::Sub {
        left: Basic::Concept(1),
        right: some(1),
    };
    let apart = Axiom::Disjoint {
        left: Basic::Concept(1),
        right: Basic::Concept(0),
    };
    for (atom, rule) in [(0, &bound), (1, &bound), (2, &bound), (0, &apart)] {
        assert!(rt; applied(&rt, alloc, atom, rule)?.is_none());
    }
    Ok(())
}

/// What the reduce step makes of two atoms with this head.
fn reduced(
    rt: &impl Abort,
    alloc: Global,
    head: &[Term],
    body: &[QAtom; 2],
) -> Result<Option<Cq>, NoMemory> {
    let given = query(rt, alloc, head, body)?;
    assert!(rt; given.body().len() > 1);
    reduce(alloc, &given, 0, 1)
}

/// The reduce step unifies two atoms by their most general unifier, in the head too, and what is unbound then becomes `_`.
/// P(?x, ?y) and P(?z, ?y) unify by ?z to ?x, so ?x ?z becomes ?x ?x and ?y is unbound. In P(?x, _) and P(_, ?y) each `_` gives
/// way. P(?x, a) and P(?y, b) have no unifier, nor have A(?x) and P(?x, ?y).
#[test]
fn a_reduce_step_unifies_two_atoms(rt: HostRuntime) -> Result<(), Fail> {
    let alloc = rt.alloc();
    let made = reduced(&rt, alloc, &[X, Z], &[link(0, X, Y), link(0, Z, Y)])?;
    assert!(rt; is_query(&made, &[X, X], &[link(0, X, ANY)]));
    let made = reduced(&rt, alloc, &[X, Y], &[link(0, X, ANY), link(0, ANY, Y)])?;
    assert!(rt; is_query(&made, &[X, Y], &[link(0, X, Y)]));
    let made = reduced(&rt, alloc, &[X], &[link(0, X, A), link(0, Y, B)])?;
    assert!(rt; made.is_none());
    let made = reduced(&rt, alloc, &[X], &[name(0, X), link(0, X, Y)])?;
    assert!(rt; made.is_none());
    Ok(())
}

/// The query ?x <- A(?x) of a concept.
fn all_of(alloc: Global, pred: u32) -> Result<Cq, NoMemory>
    ensures { IfOk result (λ q. q ≡ record { head = Term.Var 0 ∷ []; body = QAtom.Concept pred (Term.Var 0) ∷ [] }) }
{
    let mut head = Vec::new(alloc);
    head.push(X)?;
    let mut body = Vec::new(alloc);
    body.push(QAtom::Concept { pred, at: X })?;
    Ok(Cq::new(head, body))
}

/// Under B < A the query of A has the query of B behind it.
#[test]
fn a_member_is_put_last(rt: HostRuntime) -> Result<(), Fail> {
    let alloc = rt.alloc();
    let step = Some((0, Move::Axiom { atom: 0, axiom: 0 }));
    let first = all_of(alloc, 0)?;
    let query = all_of(alloc, 1)?;
    let mut closure = Closure::first(alloc, first)?;
    closure.push(Member { query, step })?;
    let members = closure.members();
    assert_eq!(rt; members.len(), 2);
    assert_eq!(rt; members[0].query.body(), [name(0, X)].as_slice());
    assert_eq!(rt; members[1].query.body(), [name(1, X)].as_slice());
    assert_eq!(rt; members[1].step, step);
    Ok(())
}
