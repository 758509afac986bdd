//! Tables whose conflicts are known.

use conflict_finder::{FindRefusal, FoundConflicts, find};
use cq_steps::Closure;
use cq_terms::{Axiom, Basic, Clash, Fact, NoMemory, Role};
use fact_index::Index;
use std::alloc::Global;
use std::test::Fail;

/// No individual is in both concepts.
fn apart(left: u32, right: u32) -> Axiom {
    Axiom::Disjoint {
        left: Basic::Concept(left),
        right: Basic::Concept(right),
    }
}

/// What has some successor by the role.
fn some(inverse: bool) -> Basic {
    Basic::Has(Role { pred: 0, inverse })
}

/// A has some successor by P, which is in B and not in B.
fn impossible() -> [Axiom; 3] {
    [
        Axiom::Sub {
            left: Basic::Concept(0),
            right: some(false),
        },
        Axiom::Sub {
            left: some(true),
            right: Basic::Concept(1),
        },
        Axiom::Disjoint {
            left: some(true),
            right: Basic::Concept(1),
        },
    ]
}

/// A1 and A2 are each apart from B1 and B2.
fn square() -> [Axiom; 4] {
    [apart(0, 2), apart(0, 3), apart(1, 2), apart(1, 3)]
}

/// One individual in the first concept.
fn corner(alloc: Global) -> Result<Index, NoMemory> {
    let index = Index::build(alloc, &[Fact::Concept { pred: 0, ind: 0 }])?;
    Ok(index)
}

/// One individual in four concepts.
fn corners(alloc: Global) -> Result<Index, NoMemory> {
    let index = Index::build(
        alloc,
        &[
            Fact::Concept { pred: 0, ind: 0 },
            Fact::Concept { pred: 1, ind: 0 },
            Fact::Concept { pred: 2, ind: 0 },
            Fact::Concept { pred: 3, ind: 0 },
        ],
    )?;
    Ok(index)
}

/// A link from an individual to itself, and two between it and another.
fn links(alloc: Global) -> Result<Index, NoMemory> {
    let index = Index::build(
        alloc,
        &[
            Fact::Link {
                pred: 0,
                from: 0,
                to: 0,
            },
            Fact::Link {
                pred: 0,
                from: 0,
                to: 1,
            },
            Fact::Link {
                pred: 0,
                from: 1,
                to: 0,
            },
        ],
    )?;
    Ok(index)
}

/// Whether the clashes are those of these facts, axioms and members, in this order.
fn are(clashes: &[Clash], rows: &[(&[u32], u32, u32)]) -> bool {
    clashes.len() == rows.len()
        && clashes.iter().zip(rows).all(|(clash, row)| {
            clash.facts.as_slice() == row.0 && clash.axiom == row.1 && clash.member == row.2
        })
}

/// Whether the closures are of these axioms, with so many members each.
fn close(closures: &[(u32, Closure)], sizes: &[(u32, usize)]) -> bool {
    closures.len() == sizes.len()
        && closures.iter().zip(sizes).all(|(closure, size)| {
            closure.0 == size.0 && closure.1.members().len() == size.1
        })
}

/// Whether these are the conflicts and the closures, where the limit of conflicts is their number, and closures have at
/// most three members.
fn finds(
    alloc: Global,
    axioms: &[Axiom],
    index: &Index,
    rows: &[(&[u32], u32, u32)],
    sizes: &[(u32, usize)],
) -> Result<bool, FindRefusal> {
    if rows.len() > 12 {
        return Ok(false);
    }
    let found = found(alloc, axioms, index, 3, rows.len() as u32)?;
    Ok(are(found.conflicts.clashes(), rows) && close(&found.closures, sizes))
}

/// What is found for at most twelve axioms under small limits.
fn found(
    alloc: Global,
    axioms: &[Axiom],
    index: &Index,
    max_cqs: u32,
    max_conflicts: u32,
) -> Result<FoundConflicts, FindRefusal> {
    if axioms.len() > 12 || max_conflicts > 12 {
        return Err(FindRefusal::NoMemory);
    }
    let found = find(alloc, axioms, index, max_cqs, max_conflicts as u64)?;
    Ok(found)
}

/// Why nothing is found for the axioms under these limits.
fn refusal(
    alloc: Global,
    axioms: &[Axiom],
    index: &Index,
    max_cqs: u32,
    max_conflicts: u32,
) -> Option<FindRefusal> {
    found(alloc, axioms, index, max_cqs, max_conflicts).err()
}

#[test]
fn a_null_shows_a_fact(rt: HostRuntime) -> Result<(), Fail> {
    let index = corner(rt.alloc())?;
    let rows: [(&[u32], u32, u32); 1] = [(&[0], 2, 2)];
    assert!(rt; finds(rt.alloc(), &impossible(), &index, &rows, &[(2, 3)])?);
    Ok(())
}

#[test]
fn a_role_apart_from_its_inverse(rt: HostRuntime) -> Result<(), Fail> {
    let index = links(rt.alloc())?;
    let rule = Axiom::DisjointRole {
        left: Role {
            pred: 0,
            inverse: false,
        },
        right: Role {
            pred: 0,
            inverse: true,
        },
    };
    let rows: [(&[u32], u32, u32); 2] = [(&[0], 0, 0), (&[1, 2], 0, 0)];
    assert!(rt; finds(rt.alloc(), &[rule], &index, &rows, &[(0, 2)])?);
    Ok(())
}

#[test]
fn conflicts_up_to_the_limit(rt: HostRuntime) -> Result<(), Fail> {
    let index = corners(rt.alloc())?;
    let rows: [(&[u32], u32, u32); 4] = [
        (&[0, 2], 0, 0),
        (&[0, 3], 1, 0),
        (&[1, 2], 2, 0),
        (&[1, 3], 3, 0),
    ];
    let sizes = [(0, 1), (1, 1), (2, 1), (3, 1)];
    assert!(rt; finds(rt.alloc(), &square(), &index, &rows, &sizes)?);
    Ok(())
}

#[test]
fn the_lesser_axiom_is_named(rt: HostRuntime) -> Result<(), Fail> {
    let index = corners(rt.alloc())?;
    let axioms = [apart(2, 3), apart(1, 0), apart(0, 1)];
    let rows: [(&[u32], u32, u32); 2] = [(&[0, 1], 1, 0), (&[2, 3], 0, 0)];
    let sizes = [(0, 1), (1, 1), (2, 1)];
    assert!(rt; finds(rt.alloc(), &axioms, &index, &rows, &sizes)?);
    Ok(())
}

#[test]
fn a_self_inconsistent_fact_is_in_no_pair(rt: HostRuntime) -> Result<(), Fail> {
    let index = corners(rt.alloc())?;
    let axioms = [apart(0, 0), apart(0, 1), apart(1, 2)];
    let rows: [(&[u32], u32, u32); 2] = [(&[0], 0, 0), (&[1, 2], 2, 0)];
    let sizes = [(0, 1), (1, 1), (2, 1)];
    assert!(rt; finds(rt.alloc(), &axioms, &index, &rows, &sizes)?);
    Ok(())
}

#[test]
fn more_conflicts_than_the_limit(rt: HostRuntime) -> Result<(), Fail> {
    let index = corners(rt.alloc())?;
    let few = refusal(rt.alloc(), &square(), &index, 3, 3);
    assert_eq!(rt; few, Some(FindRefusal::Conflicts));
    Ok(())
}

#[test]
fn closures_come_before_conflicts(rt: HostRuntime) -> Result<(), Fail> {
    let index = corner(rt.alloc())?;
    let short = refusal(rt.alloc(), &impossible(), &index, 2, 0);
    assert_eq!(rt; short, Some(FindRefusal::Closure { axiom: 2 }));
    let none = refusal(rt.alloc(), &impossible(), &index, 3, 0);
    assert_eq!(rt; none, Some(FindRefusal::Conflicts));
    Ok(())
}
