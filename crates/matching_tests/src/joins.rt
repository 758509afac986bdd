//! Queries whose hits are known.

use crate::queries::{link, member, query};
use crate::tables::indexed;
use cq_terms::{Cq, Fact, Hit, NoMemory, QAtom, Term};
use fact_index::Index;
use join_eval::{JoinRefusal, matches};
use std::alloc::Global;
use std::test::Fail;

/// Whether the hits are these pairs of a tuple and an image, in this order.
fn are(hits: &[Hit], rows: &[(&[u32], &[u32])]) -> bool {
    hits.len() == rows.len()
        && hits.iter().zip(rows).all(|(hit, (tuple, image))| {
            hit.tuple.as_slice() == *tuple && hit.image.as_slice() == *image
        })
}

/// Whether these pairs are the hits, where the limit is their number.
fn answers(
    alloc: Global,
    index: &Index,
    asked: Cq,
    rows: &[(&[u32], &[u32])],
) -> Result<bool, JoinRefusal> {
    let hits = matches(alloc, &asked, index, rows.len() as u64)?;
    Ok(are(&hits, rows))
}

/// Two links to 2 and one back, and a concept of the same number.
fn table(alloc: Global) -> Result<Index, NoMemory> {
    indexed(
        alloc,
        &[
            Fact::Link {
                pred: 7,
                from: 0,
                to: 2,
            },
            Fact::Link {
                pred: 7,
                from: 1,
                to: 2,
            },
            Fact::Concept { pred: 7, ind: 0 },
            Fact::Link {
                pred: 7,
                from: 2,
                to: 0,
            },
        ],
    )
}

#[test]
fn two_assignments_are_one_hit(rt: HostRuntime) -> Result<(), Fail> {
    let index = table(rt.alloc())?;
    let cycle = query(
        rt.alloc(),
        None,
        link(Term::Var(0), Term::Var(1)),
        &[link(Term::Var(1), Term::Var(0))],
    )?;
    assert_eq!(rt; matches(rt.alloc(), &cycle, &index, 1)?.len(), 1);
    assert_eq!(rt;
        matches(rt.alloc(), &cycle, &index, 0).err(),
        Some(JoinRefusal::TooManyHits)
    );
    Ok(())
}

#[test]
fn hits_go_by_tuple_and_then_by_image(rt: HostRuntime) -> Result<(), Fail> {
    let index = table(rt.alloc())?;
    let meets = link(Term::Var(4_294_967_295), Term::Var(1));
    let asked = query(
        rt.alloc(),
        Some(0),
        link(Term::Var(0), Term::Var(1)),
        &[meets],
    )?;
    let rows: [(&[u32], &[u32]); 5] = [
        (&[0], &[0]),
        (&[0], &[0, 1]),
        (&[1], &[0, 1]),
        (&[1], &[1]),
        (&[2], &[3]),
    ];
    assert!(rt; answers(rt.alloc(), &index, asked, &rows)?);
    Ok(())
}

#[test]
fn each_blank_is_its_own(rt: HostRuntime) -> Result<(), Fail> {
    let index = indexed(
        rt.alloc(),
        &[Fact::Link {
            pred: 7,
            from: 3,
            to: 3,
        }],
    )?;
    let ends = [link(Term::Any, Term::Var(9)), link(Term::Any, Term::Any)];
    let asked = query(rt.alloc(), Some(9), link(Term::Var(9), Term::Any), &ends)?;
    assert!(rt; answers(rt.alloc(), &index, asked, &[(&[3], &[0])])?);
    Ok(())
}

#[test]
fn a_variable_twice_in_an_atom_is_one_individual(rt: HostRuntime) -> Result<(), Fail> {
    let index = table(rt.alloc())?;
    let asked = query(rt.alloc(), Some(5), link(Term::Var(5), Term::Var(5)), &[])?;
    assert!(rt; answers(rt.alloc(), &index, asked, &[])?);
    Ok(())
}

#[test]
fn constants_and_kinds_are_compared(rt: HostRuntime) -> Result<(), Fail> {
    let index = table(rt.alloc())?;
    let asked = query(
        rt.alloc(),
        Some(0),
        member(Term::Var(0)),
        &[link(Term::Var(0), Term::Ind(2))],
    )?;
    assert!(rt; answers(rt.alloc(), &index, asked, &[(&[0], &[0, 2])])?);
    Ok(())
}

#[test]
fn a_predicate_that_the_query_alone_names_has_no_hits(rt: HostRuntime) -> Result<(), Fail> {
    let index = table(rt.alloc())?;
    let other = QAtom::Link {
        pred: 8,
        from: Term::Any,
        to: Term::Any,
    };
    let asked = query(rt.alloc(), None, other, &[])?;
    assert!(rt; answers(rt.alloc(), &index, asked, &[])?);
    Ok(())
}

#[test]
fn an_empty_table_has_no_hits(rt: HostRuntime) -> Result<(), Fail> {
    let index = indexed(rt.alloc(), &[])?;
    let asked = query(rt.alloc(), None, link(Term::Any, Term::Any), &[])?;
    assert!(rt; answers(rt.alloc(), &index, asked, &[])?);
    Ok(())
}

/// Whether the term may be the individual, where the variables have these values.
fn may_be(term: Term, values: &[u32], individual: u32) -> bool {
    match term {
        Term::Var(variable) => values.get(variable as usize).copied() == Some(individual),
        Term::Ind(named) => named == individual,
        Term::Any => true,
    }
}

/// Whether the role atom may be the link.
fn fits(atom: QAtom, fact: Fact, values: &[u32]) -> bool {
    match (atom, fact) {
        (
            QAtom::Link { pred, from, to },
            Fact::Link {
                pred: of,
                from: first,
                to: second,
            },
        ) => pred == of && may_be(from, values, first) && may_be(to, values, second),
        _ => false,
    }
}

/// Whether the two atoms may be the two facts under some values of variables 1 and 2, where variable 0 has the value.
fn plainly(atoms: (QAtom, QAtom), facts: (Fact, Fact), head: u32) -> bool {
    (0..9).any(|code: u32| {
        let values = [head, code / 3, code % 3];
        fits(atoms.0, facts.0, &values) && fits(atoms.1, facts.1, &values)
    })
}

/// Whether the numbers are those of the two facts, of which the first is not greater, each once.
fn is_image(numbers: &[u32], first: u32, second: u32) -> bool {
    if first == second {
        numbers == [first].as_slice()
    } else {
        numbers == [first, second].as_slice()
    }
}

/// Whether a hit has this head, and these two facts as its image.
fn has(hits: &[Hit], head: u32, first: u32, second: u32) -> bool {
    hits.iter().any(|hit| {
        hit.tuple.as_slice() == [head].as_slice() && is_image(hit.image.as_slice(), first, second)
    })
}

/// How many pairs of a head below 3 and an image of one or two facts match, or `None` where the hits have one too many or
/// too few of them.
fn agreed(hits: &[Hit], atoms: (QAtom, QAtom), facts: &[Fact; 4]) -> Option<usize> {
    let mut count = 0usize;
    for code in 0..48usize {
        let head = (code % 3) as u32;
        let first = code / 3 % 4;
        let second = code / 12;
        if first > second {
            continue;
        }
        let pair = (facts[first], facts[second]);
        let expected = plainly(atoms, pair, head) || plainly(atoms, (pair.1, pair.0), head);
        if has(hits, head, first as u32, second as u32) != expected {
            return None;
        }
        count = count.wrapping_add(expected as usize);
    }
    Some(count)
}

#[test]
fn the_hits_are_those_of_all_assignments(rt: HostRuntime) -> Result<(), Fail> {
    let facts = [
        Fact::Link {
            pred: 7,
            from: 0,
            to: 1,
        },
        Fact::Link {
            pred: 7,
            from: 1,
            to: 1,
        },
        Fact::Link {
            pred: 7,
            from: 1,
            to: 2,
        },
        Fact::Link {
            pred: 7,
            from: 2,
            to: 0,
        },
    ];
    let index = indexed(rt.alloc(), &facts)?;
    let left = link(Term::Var(0), Term::Var(1));
    for right in [
        link(Term::Var(1), Term::Var(2)),
        link(Term::Var(2), Term::Var(1)),
        link(Term::Var(1), Term::Var(0)),
        link(Term::Any, Term::Var(0)),
        link(Term::Var(1), Term::Ind(1)),
    ] {
        let asked = query(rt.alloc(), Some(0), left, &[right])?;
        let hits = matches(rt.alloc(), &asked, &index, 100)?;
        assert_eq!(rt; agreed(&hits, (left, right), &facts), Some(hits.len()));
    }
    Ok(())
}
