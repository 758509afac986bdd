//! Candidates and causes that are known.

ghost use Rattle.std.specs.Prelude.{◌≡◌, ◌<◌, ◌^◌, ◌∷◌, [], IfOk};

use cause_finder::{Candidate, CauseRefusal, causes};
use cq_steps::Closure;
use cq_terms::{Axiom, Basic, Clash, Conflicts, Cq, Fact, Ids, NoMemory, QAtom, Role, Term};
use fact_index::Index;
use perfect_ref::{CloseRefusal, close};
use std::alloc::Global;
use std::test::Fail;

const X: Term = Term::Var(0);

const Y: Term = Term::Var(1);

const Z: Term = Term::Var(2);

const ROLE: Role = Role {
    pred: 0,
    inverse: false,
};

const INVERSE: Role = Role {
    pred: 0,
    inverse: true,
};

/// A candidate: its tuple, and each cause with its member.
type Row<'a> = (&'a [u32], &'a [(&'a [u32], u32)]);

/// Whether the candidate is the row.
fn is(candidate: &Candidate, row: &Row) -> bool {
    let images = candidate.causes.as_slice();
    let members = candidate.members.as_slice();
    candidate.tuple.as_slice() == row.0
        && images.len() == row.1.len()
        && members.len() == row.1.len()
        && images.iter().zip(members).zip(row.1).all(|((image, member), (cause, place))| {
            image.as_slice() == *cause && member == place
        })
}

/// Whether the candidates are the rows.
fn are(candidates: &[Candidate], rows: &[Row]) -> bool {
    candidates.len() == rows.len()
        && candidates
            .iter()
            .zip(rows)
            .all(|(candidate, row)| is(candidate, row))
}

/// Whether the rows are the candidates of the query.
fn answers(
    alloc: Global,
    asked: &Cq,
    axioms: &[Axiom],
    index: &Index,
    conflicts: &Conflicts,
    rows: &[Row],
) -> Result<bool, Fail> {
    let closure = closed(alloc, asked, axioms)?;
    let found = found(alloc, axioms, &closure, index, conflicts, 3)?;
    Ok(are(&found, rows))
}

/// Why the causes of the query aren't answered under the limit.
fn refusal(
    alloc: Global,
    asked: &Cq,
    axioms: &[Axiom],
    index: &Index,
    conflicts: &Conflicts,
    limit: u64,
) -> Result<Option<CauseRefusal>, Fail> {
    let closure = closed(alloc, asked, axioms)?;
    Ok(found(alloc, axioms, &closure, index, conflicts, limit).err())
}

/// The closure of a query of at most twelve atoms under at most twelve axioms, which has at most ten members.
fn closed(alloc: Global, asked: &Cq, axioms: &[Axiom]) -> Result<Closure, CloseRefusal> {
    if asked.body().len() > 12 || axioms.len() > 12 {
        return Err(CloseRefusal::TooManyCqs);
    }
    let closure = close(alloc, asked, axioms, 10)?;
    Ok(closure)
}

/// The candidates under the closure, where the conflicts are of as many facts as the index has.
fn found(
    alloc: Global,
    axioms: &[Axiom],
    closure: &Closure,
    index: &Index,
    conflicts: &Conflicts,
    limit: u64,
) -> Result<Vec<Candidate>, CauseRefusal> {
    if conflicts.facts() != index.len() {
        return Err(CauseRefusal::NoMemory);
    }
    let found = causes(alloc, axioms, closure, index, conflicts, limit)?;
    Ok(found)
}

/// The first concept is below the second.
fn below(left: u32, right: u32) -> Axiom {
    Axiom::Sub {
        left: Basic::Concept(left),
        right: Basic::Concept(right),
    }
}

/// The query of the two lists.
fn query(alloc: Global, head: &[Term], body: &[QAtom]) -> Result<Cq, Fail> {
    let head = Vec::from_slice(alloc, head)?;
    let body = Vec::from_slice(alloc, body)?;
    let query = Cq::checked(head, body).ok_or("no query")?;
    Ok(query)
}

fn concept(pred: u32) -> QAtom {
    QAtom::Concept { pred, at: X }
}

/// No conflict.
fn no_conflict(alloc: Global, facts: u32) -> Result<Conflicts, NoMemory>
    requires few { facts < 2 ^ 31 }
{
    let conflicts = Conflicts::new(alloc, facts, Vec::new(alloc))?;
    Ok(conflicts)
}

fn clash_of_one(alloc: Global, fact: u32) -> Result<Clash, NoMemory>
    ensures { IfOk result (λ c. c ≡ record { facts = fact ∷ []; «axiom» = 0; member = 0 }) }
{
    let mut facts = Ids::new(alloc);
    facts.push(fact)?;
    Ok(Clash {
        facts,
        axiom: 0,
        member: 0,
    })
}

fn clash_of_two(alloc: Global, lower: u32, upper: u32) -> Result<Clash, NoMemory>
    ensures { IfOk result (λ c. c ≡ record { facts = lower ∷ upper ∷ []; «axiom» = 0; member = 0 }) }
{
    let mut facts = Ids::new(alloc);
    facts.push(lower)?;
    facts.push(upper)?;
    Ok(Clash {
        facts,
        axiom: 0,
        member: 0,
    })
}

/// Three concepts of one individual.
fn three_concepts(alloc: Global) -> Result<Index, NoMemory> {
    let index = Index::build(
        alloc,
        &[
            Fact::Concept { pred: 0, ind: 0 },
            Fact::Concept { pred: 1, ind: 0 },
            Fact::Concept { pred: 2, ind: 0 },
        ],
    )?;
    Ok(index)
}

#[test]
fn each_way_is_a_cause(rt: HostRuntime) -> Result<(), Fail> {
    let alloc = rt.alloc();
    let axioms = [below(0, 3), below(1, 3)];
    let index = three_concepts(alloc)?;
    let conflicts = no_conflict(alloc, 3)?;
    let asked = query(alloc, &[X], &[concept(3), concept(2)])?;
    let rows: [Row; 1] = [(&[0], &[(&[0, 2], 1), (&[1, 2], 2)])];
    assert!(rt; answers(alloc, &asked, &axioms, &index, &conflicts, &rows)?);
    assert_eq!(rt;
        refusal(alloc, &asked, &axioms, &index, &conflicts, 2)?,
        None
    );
    let refused = refusal(alloc, &asked, &axioms, &index, &conflicts, 1)?;
    assert_eq!(rt; refused, Some(CauseRefusal::TooManySupports));
    Ok(())
}

/// One fact that is self-inconsistent.
fn own_conflict(alloc: Global) -> Result<Conflicts, NoMemory> {
    let mut clashes = Vec::new(alloc);
    clashes.push(clash_of_one(alloc, 0)?)?;
    let conflicts = Conflicts::new(alloc, 1, clashes)?;
    Ok(conflicts)
}

/// One concept of one individual.
fn one_concept(alloc: Global) -> Result<Index, NoMemory> {
    let index = Index::build(alloc, &[Fact::Concept { pred: 0, ind: 0 }])?;
    Ok(index)
}

#[test]
fn a_self_inconsistent_candidate_has_no_cause(rt: HostRuntime) -> Result<(), Fail> {
    let alloc = rt.alloc();
    let axioms = [
        Axiom::Sub {
            left: Basic::Concept(0),
            right: Basic::Has(ROLE),
        },
        Axiom::Sub {
            left: Basic::Has(INVERSE),
            right: Basic::Concept(1),
        },
        Axiom::Disjoint {
            left: Basic::Has(INVERSE),
            right: Basic::Concept(1),
        },
    ];
    let index = one_concept(alloc)?;
    let conflicts = own_conflict(alloc)?;
    let asked = query(alloc, &[X], &[concept(0)])?;
    assert!(rt; answers(alloc, &asked, &axioms, &index, &conflicts, &[(&[0], &[])])?);
    Ok(())
}

/// A link from 0 to itself, and one each way between 0 and 1.
fn three_links(alloc: Global) -> Result<Index, NoMemory> {
    let index = Index::build(
        alloc,
        &[
            Fact::Link {
                pred: 0,
                from: 0,
                to: 0,
            },
            Fact::Link {
                pred: 0,
                from: 0,
                to: 1,
            },
            Fact::Link {
                pred: 0,
                from: 1,
                to: 0,
            },
        ],
    )?;
    Ok(index)
}

/// Fact 0 is self-inconsistent, and facts 1 and 2 conflict.
fn link_conflicts(alloc: Global) -> Result<Conflicts, NoMemory> {
    let mut clashes = Vec::new(alloc);
    clashes.push(clash_of_one(alloc, 0)?)?;
    clashes.push(clash_of_two(alloc, 1, 2)?)?;
    let conflicts = Conflicts::new(alloc, 3, clashes)?;
    Ok(conflicts)
}

/// A link of the role 0.
fn link(from: Term, to: Term) -> QAtom {
    QAtom::Link { pred: 0, from, to }
}

#[test]
fn links_that_clash_are_no_causes(rt: HostRuntime) -> Result<(), Fail> {
    let alloc = rt.alloc();
    let axioms = [Axiom::DisjointRole {
        left: ROLE,
        right: INVERSE,
    }];
    let index = three_links(alloc)?;
    let conflicts = link_conflicts(alloc)?;
    let asked = query(alloc, &[X, Y], &[link(X, Y)])?;
    let rows: [Row; 3] = [
        (&[0, 0], &[]),
        (&[0, 1], &[(&[1], 0)]),
        (&[1, 0], &[(&[2], 0)]),
    ];
    assert!(rt; answers(alloc, &asked, &axioms, &index, &conflicts, &rows)?);
    Ok(())
}

#[test]
fn a_join_of_two_may_rest_on_one_fact(rt: HostRuntime) -> Result<(), Fail> {
    let alloc = rt.alloc();
    let axioms = [Axiom::Sub {
        left: Basic::Concept(0),
        right: Basic::Has(ROLE),
    }];
    let index = one_concept(alloc)?;
    let conflicts = no_conflict(alloc, 1)?;
    let asked = query(alloc, &[X], &[link(X, Y), link(Z, Y)])?;
    let rows: [Row; 1] = [(&[0], &[(&[0], 2)])];
    assert!(rt; answers(alloc, &asked, &axioms, &index, &conflicts, &rows)?);
    Ok(())
}

/// Two individuals in one concept.
fn two_members(alloc: Global) -> Result<Index, NoMemory> {
    let index = Index::build(
        alloc,
        &[
            Fact::Concept { pred: 0, ind: 0 },
            Fact::Concept { pred: 0, ind: 1 },
        ],
    )?;
    Ok(index)
}

#[test]
fn a_query_without_head_has_one_candidate(rt: HostRuntime) -> Result<(), Fail> {
    let alloc = rt.alloc();
    let index = two_members(alloc)?;
    let conflicts = no_conflict(alloc, 2)?;
    let asked = query(alloc, &[], &[concept(0)])?;
    let rows: [Row; 1] = [(&[], &[(&[0], 0), (&[1], 0)])];
    assert!(rt; answers(alloc, &asked, &[], &index, &conflicts, &rows)?);
    Ok(())
}
