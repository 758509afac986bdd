//! The blocks of queries, in the order of their first lines.

ghost use Rattle.std.specs.Prelude.{◌≡◌, ◌++◌, [], Some, MatchOption, OnOk, IfOk, IsTrue};
ghost use Rattle.report_laws.specs.Standing.{members_at, with_query};
ghost use Rattle.report_laws.specs.HitLaws.{negative_members};
ghost use Rattle.report_parts.specs.Blocks.{AreApart, IsPlaceOf};

use crate::block::Block;
use cq_terms::{Cq, NoMemory};
use report_text::Origin;
use std::alloc::Global;

/// The block of the origin, or `None` where there is none. It is found by halving where the blocks are in the order of their axioms.
pub fn find_block(blocks: &[Block], origin: Origin) -> Option<&Block>
    requires apart { AreApart blocks.now }

    ensures exact { MatchOption result (members_at blocks.now origin ≡ [])
        (λ b. members_at blocks.now origin ≡ b.now.members) }
{
    match place_of_block(blocks, origin) {
        Some(place) => Some(&blocks[place]),
        None => None,
    }
}

/// The place of the block of the origin.
fn place_of_block(blocks: &[Block], origin: Origin) -> Option<usize>
    requires apart { AreApart blocks.now }

    ensures exact { IsPlaceOf blocks.now origin result }
{
    let guess = likely_place(blocks, origin);
    if is_at(blocks, origin, guess) {
        return Some(guess);
    }
    for place in 0..blocks.len() {
        if blocks[place].origin() == origin {
            return Some(place);
        }
    }
    None
}

/// The place where the block of the origin stands if the blocks are in the order of their axioms.
fn likely_place(blocks: &[Block], origin: Origin) -> usize {
    let mut low = 0;
    let mut high = blocks.len();
    while low < high {
        let middle = low + (high - low) / 2;
        if rank(blocks[middle].origin()) < rank(origin) {
            low = middle + 1;
        } else {
            high = middle;
        }
    }
    low
}

/// The query's block comes first, and then those of axioms by number.
fn rank(origin: Origin) -> u64 {
    match origin {
        Origin::Query => 0,
        Origin::Negative(axiom) => axiom as u64 + 1,
    }
}

/// Whether the block at the place is of the origin.
fn is_at(blocks: &[Block], origin: Origin, place: usize) -> bool
    ensures exact { IsTrue result → IsPlaceOf blocks.now origin (Some place) }
{
    match blocks.get(place) {
        Some(block) => block.origin() == origin,
        None => false,
    }
}

/// Puts one more query into the block of its origin, which is new where there is none.
pub fn add_query(
    alloc: Global,
    blocks: &mut Vec<Block>,
    origin: Origin,
    query: Cq,
) -> Result<(), NoMemory>
    requires apart { AreApart blocks.old.items }

    ensures exact { OnOk result (blocks.new.items ≡ with_query blocks.old.items origin query) }
    ensures apart { AreApart blocks.new.items }
{
    match place_of_block(blocks.as_slice(), origin) {
        Some(place) => {
            let block = blocks.remove(place);
            blocks.insert(place, block.with(alloc, query)?)?;
        }
        None => blocks.push(Block::new(alloc, origin).with(alloc, query)?)?,
    }
    Ok(())
}

/// Copies of the queries of the blocks of all disjointnesses.
pub fn negative_queries(alloc: Global, blocks: &[Block]) -> Result<Vec<Cq>, NoMemory>
    ensures exact { IfOk result (λ queries. queries.items ≡ negative_members blocks.now) }
{
    let mut queries = Vec::new(alloc);
    for block in blocks {
        if block.origin() != Origin::Query {
            add_copies(alloc, &mut queries, block.members())?;
        }
    }
    Ok(queries)
}

/// Appends copies of the queries.
fn add_copies(alloc: Global, queries: &mut Vec<Cq>, members: &[Cq]) -> Result<(), NoMemory>
    ensures exact { OnOk result (queries.new.items ≡ queries.old.items ++ members.now) }
{
    for member in members {
        queries.push(copy(alloc, member)?)?;
    }
    Ok(())
}

/// A copy of the query.
fn copy(alloc: Global, query: &Cq) -> Result<Cq, NoMemory>
    ensures exact { IfOk result (λ q. q ≡ query.now) }
{
    let head = Vec::from_slice(alloc, query.head())?;
    let body = Vec::from_slice(alloc, query.body())?;
    Ok(Cq::new(head, body))
}
