//! Queries whose images are known, and pairs that are none.

use crate::queries::{link, member, query};
use crate::tables::plain;
use cq_terms::{Cq, Fact, Hit, NoMemory, Term};
use plain_match::{PlainFacts, images_plain, matches_with};
use std::alloc::Global;
use std::test::Fail;

/// A tuple and an image.
type Pair<'a> = (&'a [u32], &'a [u32]);

/// The table R(0,1), R(1,2), A(2), R(1,1), A(1), with the numbers 0 to 4.
fn table(alloc: Global) -> Result<PlainFacts, NoMemory> {
    plain(
        alloc,
        &[
            Fact::Link {
                pred: 7,
                from: 0,
                to: 1,
            },
            Fact::Link {
                pred: 7,
                from: 1,
                to: 2,
            },
            Fact::Concept { pred: 7, ind: 2 },
            Fact::Link {
                pred: 7,
                from: 1,
                to: 1,
            },
            Fact::Concept { pred: 7, ind: 1 },
        ],
    )
}

/// Whether the hits are these pairs, in this order.
fn are(hits: &[Hit], pairs: &[Pair]) -> bool {
    hits.len() == pairs.len()
        && hits.iter().zip(pairs).all(|(hit, (tuple, image))| {
            hit.tuple.as_slice() == *tuple && hit.image.as_slice() == *image
        })
}

/// Whether the images of the queries in the table are these pairs.
fn have(alloc: Global, members: &[Cq], pairs: &[Pair]) -> Result<bool, NoMemory> {
    let facts = table(alloc)?;
    let hits = images_plain(alloc, members, &facts)?;
    Ok(are(&hits, pairs))
}

/// Whether the first query matches in the table with each of these pairs, or with none of them.
fn match_alike(
    alloc: Global,
    members: &[Cq],
    pairs: &[Pair],
    expected: bool,
) -> Result<bool, NoMemory> {
    let Some(query) = members.first() else {
        return Ok(false);
    };
    let facts = table(alloc)?;
    for (tuple, image) in pairs {
        if matches_with(alloc, query, &facts, tuple, image)? != expected {
            return Ok(false);
        }
    }
    Ok(true)
}

#[test]
fn a_join_has_the_images_of_its_shared_variable(rt: HostRuntime) -> Result<(), Fail> {
    let mut asked = Vec::new(rt.alloc());
    asked.push(query(
        rt.alloc(),
        Some(5),
        link(Term::Var(5), Term::Var(6)),
        &[member(Term::Var(6))],
    )?)?;
    let pairs: [Pair; 3] = [(&[0], &[0, 4]), (&[1], &[1, 2]), (&[1], &[3, 4])];
    assert!(rt; have(rt.alloc(), &asked, &pairs)?);
    assert!(rt; match_alike(rt.alloc(), &asked, &pairs, true)?);
    let others: [Pair; 9] = [
        (&[1], &[0, 4]),
        (&[0], &[0]),
        (&[1], &[1, 2, 4]),
        (&[1], &[2, 1]),
        (&[1], &[1, 1, 2]),
        (&[0], &[0, 9]),
        (&[0, 0], &[0, 4]),
        (&[], &[0, 4]),
        (&[0], &[]),
    ];
    assert!(rt; match_alike(rt.alloc(), &asked, &others, false)?);
    Ok(())
}

#[test]
fn two_atoms_may_become_one_fact(rt: HostRuntime) -> Result<(), Fail> {
    let mut asked = Vec::new(rt.alloc());
    asked.push(query(
        rt.alloc(),
        Some(5),
        link(Term::Var(5), Term::Any),
        &[link(Term::Var(5), Term::Any)],
    )?)?;
    let pairs: [Pair; 4] = [(&[0], &[0]), (&[1], &[1]), (&[1], &[1, 3]), (&[1], &[3])];
    assert!(rt; have(rt.alloc(), &asked, &pairs)?);
    assert!(rt; match_alike(rt.alloc(), &asked, &pairs, true)?);
    assert!(rt; match_alike(rt.alloc(), &asked, &[(&[1], &[0]), (&[0], &[0, 1])], false)?);
    Ok(())
}

#[test]
fn an_empty_head_has_the_empty_tuple(rt: HostRuntime) -> Result<(), Fail> {
    let mut asked = Vec::new(rt.alloc());
    asked.push(query(
        rt.alloc(),
        None,
        link(Term::Var(5), Term::Var(5)),
        &[member(Term::Var(5))],
    )?)?;
    let pairs: [Pair; 1] = [(&[], &[3, 4])];
    assert!(rt; have(rt.alloc(), &asked, &pairs)?);
    assert!(rt; match_alike(rt.alloc(), &asked, &pairs, true)?);
    assert!(rt;
        match_alike(
            rt.alloc(),
            &asked,
            &[(&[], &[1, 2]), (&[1], &[3, 4])],
            false
        )?
    );
    Ok(())
}

#[test]
fn a_pair_of_two_queries_stands_once(rt: HostRuntime) -> Result<(), Fail> {
    let mut asked = Vec::new(rt.alloc());
    let from = link(Term::Var(5), Term::Any);
    asked.push(query(rt.alloc(), Some(5), from, &[from])?)?;
    let to_one = link(Term::Var(6), Term::Ind(1));
    asked.push(query(rt.alloc(), Some(6), to_one, &[to_one])?)?;
    asked.push(query(rt.alloc(), Some(6), to_one, &[member(Term::Ind(2))])?)?;
    let pairs: [Pair; 6] = [
        (&[0], &[0]),
        (&[0], &[0, 2]),
        (&[1], &[1]),
        (&[1], &[1, 3]),
        (&[1], &[2, 3]),
        (&[1], &[3]),
    ];
    assert!(rt; have(rt.alloc(), &asked, &pairs)?);
    Ok(())
}
