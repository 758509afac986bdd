//! The rule of a query of a block.

ghost use Rattle.std.specs.Prelude.{◌≡◌, ◌↔◌, ◌⊎◌, ℕ, List, [], ◌∷◌, IfOk, IsTrue, Contains, slice_get, Some};
ghost use Rattle.cq_terms.specs.Query.{Query};
ghost use Rattle.cq_steps.specs.Moves.{IsMove};
ghost use Rattle.cq_steps.specs.declared.moves.Move.TheVariants as move;
ghost use Rattle.cq_terms.specs.declared.axioms.Axiom.{Axiom};
ghost use Rattle.cq_meaning.specs.NormalForm.{normal};
ghost use Rattle.cq_meaning.specs.Rewriting.{IsReduceMove, disjointness_query};
ghost use Rattle.report_rules.specs.Inputs.{report_on, query_at};
ghost use Rattle.report_rules.specs.Blocks.{IsResultAt};
ghost use Rattle.report_laws.specs.Standing.{members_at};
ghost use Rattle.report_laws.specs.AtStanding.{IsOfOriginAt, JoinsAt};

use crate::standing::Standing;
use cq_steps::{Move, negative_query, normal};
use cq_terms::{Axiom, Cq, Kb, NoMemory};
use report_parts::{is_new_result, is_same};
use report_text::Origin;
use std::alloc::Global;

/// Whether the member is the first of its block and of its origin, or new and the result of the move from an earlier one.
pub fn joins(
    alloc: Global,
    kb: &Kb,
    query: &Cq,
    standing: &Standing,
    origin: Origin,
    member: &Cq,
    step: Option<(u32, Move)>,
) -> Result<bool, NoMemory>
    ensures exact { (names : List (List ℕ)) → IfOk result (λ joins. IsTrue joins
        ↔ JoinsAt (report_on kb.now names query.now) standing.now origin (members_at standing.now.blocks origin) member.now step) }
{
    let Some(block) = standing.block(origin) else {
        return is_first(alloc, kb, query, standing, origin, member, step);
    };
    if block.members().is_empty() {
        return is_first(alloc, kb, query, standing, origin, member, step);
    }
    let Some((place, step)) = step else {
        return Ok(false);
    };
    is_new_result(alloc, kb.axioms(), block, place, step, member)
}

/// Whether the member may be the first of its block: it has no step, and is the normal form of what the block is of.
fn is_first(
    alloc: Global,
    kb: &Kb,
    query: &Cq,
    standing: &Standing,
    origin: Origin,
    member: &Cq,
    step: Option<(u32, Move)>,
) -> Result<bool, NoMemory>
    ensures exact { (names : List (List ℕ)) → IfOk result (λ first. IsTrue first
        ↔ JoinsAt (report_on kb.now names query.now) standing.now origin [] member.now step) }
{
    match step {
        Some(_) => Ok(false),
        None => is_of_origin(alloc, kb, query, standing, origin, member),
    }
}

/// Whether the member is the normal form of what the block is of.
fn is_of_origin(
    alloc: Global,
    kb: &Kb,
    query: &Cq,
    standing: &Standing,
    origin: Origin,
    member: &Cq,
) -> Result<bool, NoMemory>
    ensures exact { (names : List (List ℕ)) → IfOk result (λ of. IsTrue of
        ↔ IsOfOriginAt (report_on kb.now names query.now) standing.now origin member.now) }
{
    match origin {
        Origin::Query => is_of_query(alloc, query, standing.ends(), member),
        Origin::Negative(axiom) => is_of_axiom(alloc, kb.axioms(), axiom, member),
    }
}

/// Whether it is the query's normal form, and the query isn't done with.
fn is_of_query(alloc: Global, query: &Cq, ends: u64, member: &Cq) -> Result<bool, NoMemory>
    ensures exact { IfOk result (λ of. IsTrue of ↔ (member.now ≡ normal (query_at (query.now ∷ []) ends))) }
{
    let _body = member.body();
    if ends != 0 {
        return Ok(false);
    }
    is_same(alloc, member, &normal(alloc, query)?)
}

/// Whether it is the query of the disjointness of the number.
fn is_of_axiom(alloc: Global, axioms: &[Axiom], axiom: u32, member: &Cq) -> Result<bool, NoMemory>
    ensures exact { IfOk result (λ of. IsTrue of ↔ ((rule : Axiom) × (slice_get axioms.now «axiom» ≡ Some rule)
        × (disjointness_query rule ≡ Some member.now))) }
{
    let Some(rule) = axioms.get(axiom as usize) else {
        return Ok(false);
    };
    match negative_query(alloc, rule)? {
        Some(query) => is_same(alloc, member, &query),
        None => Ok(false),
    }
}
