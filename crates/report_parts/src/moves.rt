//! What moves lead to from the queries of a block: whether a query is the result of one, and whether the block has all results.

ghost use Rattle.std.specs.Prelude.{◌≡◌, ◌↔◌, ◌<◌, ◌^◌, IfOk, IsTrue, Contains, length};
ghost use Rattle.cq_terms.specs.Query.{Query};
ghost use Rattle.cq_steps.specs.Moves.{IsMove};
ghost use Rattle.cq_steps.specs.declared.moves.Move.TheVariants as move;
ghost use Rattle.cq_meaning.specs.Rewriting.{IsReduceMove, IsSuccessor};
ghost use Rattle.report_rules.specs.Blocks.{IsClosedBlock, IsResultAt};

use crate::block::Block;
use crate::codes::is_same;
use cq_steps::{Move, apply, reduce, successors};
use cq_terms::{Axiom, Cq, NoMemory};
use std::alloc::Global;

/// Whether the query isn't in the block, and is the result of the move on the query at the place.
pub fn is_new_result(
    alloc: Global,
    axioms: &[Axiom],
    block: &Block,
    place: u32,
    step: Move,
    query: &Cq,
) -> Result<bool, NoMemory>
    ensures exact { IfOk result (λ new. IsTrue new
        ↔ (IsResultAt axioms.now block.now.members (place, step) query.now × ¬ Contains block.now.members query.now)) }
{
    let Some(from) = block.members().get(place as usize) else {
        return Ok(false);
    };
    if block.has(alloc, query)? {
        return Ok(false);
    }
    is_result(alloc, axioms, from, step, query)
}

/// Whether the move leads from the first query to the second.
fn is_result(
    alloc: Global,
    axioms: &[Axiom],
    from: &Cq,
    step: Move,
    query: &Cq,
) -> Result<bool, NoMemory>
    ensures exact { IfOk result (λ leads. IsTrue leads ↔ IsMove axioms.now from.now step query.now) }
{
    match step {
        Move::Axiom { atom, axiom } => is_applied(alloc, axioms, from, atom, axiom, query),
        Move::Reduce { first, second } => is_reduced(alloc, from, first, second, query),
    }
}

/// Whether the axiom, applied to the atom, gives the query.
fn is_applied(
    alloc: Global,
    axioms: &[Axiom],
    from: &Cq,
    atom: u32,
    axiom: u32,
    query: &Cq,
) -> Result<bool, NoMemory>
    ensures exact { IfOk result (λ leads. IsTrue leads ↔ IsMove axioms.now from.now (move.Axiom atom «axiom») query.now) }
{
    let Some(rule) = axioms.get(axiom as usize) else {
        return Ok(false);
    };
    if atom as usize >= from.body().len() {
        return Ok(false);
    }
    match apply(alloc, from, atom, rule)? {
        Some(result) => is_same(alloc, query, &result),
        None => Ok(false),
    }
}

/// Whether the atoms, reduced to one, give the query.
fn is_reduced(
    alloc: Global,
    from: &Cq,
    first: u32,
    second: u32,
    query: &Cq,
) -> Result<bool, NoMemory>
    ensures exact { IfOk result (λ leads. IsTrue leads ↔ IsReduceMove from.now first second query.now) }
{
    if first >= second || second as usize >= from.body().len() {
        return Ok(false);
    }
    match reduce(alloc, from, first, second)? {
        Some(result) => is_same(alloc, query, &result),
        None => Ok(false),
    }
}

/// Whether each result of a move on a query of the block is in it.
pub fn is_closed(alloc: Global, axioms: &[Axiom], block: &Block) -> Result<bool, NoMemory>
    ensures exact { IfOk result (λ closed. IsTrue closed ↔ IsClosedBlock axioms.now block.now.members) }
{
    for member in block.members() {
        if !has_successors(alloc, axioms, block, member)? {
            return Ok(false);
        }
    }
    Ok(true)
}

/// Whether each result of a move on the query is in the block. Memory is said to have run out where there are 2^31 axioms or atoms.
fn has_successors(
    alloc: Global,
    axioms: &[Axiom],
    block: &Block,
    query: &Cq,
) -> Result<bool, NoMemory>
    ensures exact { IfOk result (λ has. IsTrue has
        ↔ ((q : Query) → IsSuccessor axioms.now query.now q → Contains block.now.members q)) }
{
    if axioms.len() >= 2_147_483_648 || query.body().len() >= 2_147_483_648 {
        return Err(NoMemory);
    }
    let results = successors(alloc, query, axioms)?;
    for result in &results {
        if !block.has(alloc, &result.1)? {
            return Ok(false);
        }
    }
    Ok(true)
}
