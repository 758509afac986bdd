//! Whether both evaluators find the same hits.

ghost use Rattle.cq_terms.specs.Knowledge.{AreDistinct};

use crate::chance::{some_facts, some_query};
use cq_terms::{Cq, Fact, Hit, NoMemory};
use fact_index::Index;
use join_eval::{JoinRefusal, matches};
use plain_match::{PlainFacts, images_plain, matches_with};
use std::alloc::Global;
use std::test::Fail;

/// The hits by the index and the joins.
fn joined(alloc: Global, facts: &[Fact], query: &Cq) -> Result<Vec<Hit>, JoinRefusal>
    requires distinct { AreDistinct facts.now }
{
    if facts.len() > 1000 {
        return Err(JoinRefusal::NoMemory);
    }
    let index = Index::build(alloc, facts)?;
    matches(alloc, query, &index, 1000)
}

/// The hits by the plain evaluator, where it also says of each hit of the other that it is one.
fn plain(
    alloc: Global,
    facts: &[Fact],
    members: &[Cq],
    others: &[Hit],
) -> Result<Vec<Hit>, NoMemory>
    requires distinct { AreDistinct facts.now }
{
    let facts = PlainFacts::build(alloc, facts)?;
    if !are_matches(alloc, &facts, members, others)? {
        return Ok(Vec::new(alloc));
    }
    images_plain(alloc, members, &facts)
}

/// Whether the first query has a match with each of these hits.
fn are_matches(
    alloc: Global,
    facts: &PlainFacts,
    members: &[Cq],
    hits: &[Hit],
) -> Result<bool, NoMemory> {
    let Some(query) = members.first() else {
        return Ok(hits.is_empty());
    };
    for hit in hits {
        if !matches_with(
            alloc,
            query,
            facts,
            hit.tuple.as_slice(),
            hit.image.as_slice(),
        )? {
            return Ok(false);
        }
    }
    Ok(true)
}

/// Whether the hits are the same, in the same order.
fn are_same(left: &[Hit], right: &[Hit]) -> bool {
    left.len() == right.len()
        && left.iter().zip(right).all(|(a, b)| {
            a.tuple.as_slice() == b.tuple.as_slice() && a.image.as_slice() == b.image.as_slice()
        })
}

/// How many hits of the query both find, or `None` where they find others.
fn compare(
    alloc: Global,
    facts: &[Fact],
    members: &[Cq],
    query: &Cq,
) -> Result<Option<usize>, JoinRefusal>
    requires distinct { AreDistinct facts.now }
{
    let hits = joined(alloc, facts, query)?;
    let others = plain(alloc, facts, members, &hits)?;
    Ok(are_same(&hits, &others).then_some(hits.len()))
}

/// A comparison over a table and a query by chance.
fn compare_some(alloc: Global, seed: &mut u64) -> Result<Option<usize>, JoinRefusal> {
    let facts = some_facts(alloc, seed)?;
    let members = some_query(alloc, seed)?;
    match members.first() {
        Some(query) => compare(alloc, &facts, &members, query),
        None => Ok(Some(0)),
    }
}

#[test]
fn both_find_the_same_hits(rt: HostRuntime) -> Result<(), Fail> {
    let mut seed = 88172645463325252;
    let mut hits = 0usize;
    for _ in 0..1000 {
        let found = compare_some(rt.alloc(), &mut seed)?;
        assert!(rt; found.is_some());
        hits = hits.wrapping_add(found.unwrap_or(0));
    }
    assert!(rt; hits > 1000);
    Ok(())
}
