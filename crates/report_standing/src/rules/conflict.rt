//! The rule of a conflict.

ghost use Rattle.std.specs.Prelude.{◌≡◌, ◌↔◌, ℕ, [], IfOk, IsTrue};
ghost use Rattle.cq_terms.specs.Knowledge.{Knowledge};
ghost use Rattle.report_rules.specs.Rules.{MemberMatches};
ghost use Rattle.report_laws.specs.ConflictLaws.{facts_told};
ghost use Rattle.report_laws.specs.Standing.{members_at};
ghost use Rattle.report_laws.specs.AtStanding.{ConflictAt};

use crate::standing::Standing;
use cq_terms::{Conflicts, Ids, NoMemory};
use plain_match::{PlainFacts, matches_with};
use report_parts::are_equal;
use report_text::Origin;
use std::alloc::Global;

/// Whether the facts are those of the next conflict, and the member matches with exactly them.
pub fn is_right_conflict(
    alloc: Global,
    plain: &PlainFacts,
    conflicts: &Conflicts,
    standing: &Standing,
    facts: &Ids,
    axiom: u32,
    member: u32,
) -> Result<bool, NoMemory>
    ensures exact { (kb : Knowledge) → kb.facts ≡ plain.now → IfOk result (λ right. IsTrue right
        ↔ ConflictAt kb (facts_told conflicts.now.clashes) standing.now facts.now «axiom» member) }
{
    let Some(clash) = conflicts.clashes().get(standing.told() as usize) else {
        return Ok(false);
    };
    if !are_equal(clash.facts.as_slice(), facts.as_slice()) {
        return Ok(false);
    }
    let origin = Origin::Negative(axiom);
    matches_member(
        alloc,
        plain,
        standing,
        origin,
        member,
        &[],
        facts.as_slice(),
    )
}

/// Whether the member at the place of the block matches with the tuple and exactly these facts.
pub fn matches_member(
    alloc: Global,
    plain: &PlainFacts,
    standing: &Standing,
    origin: Origin,
    place: u32,
    tuple: &[u32],
    image: &[u32],
) -> Result<bool, NoMemory>
    ensures exact { IfOk result (λ found. IsTrue found
        ↔ MemberMatches plain.now (members_at standing.now.blocks origin) place tuple.now image.now) }
{
    let Some(block) = standing.block(origin) else {
        return Ok(false);
    };
    let Some(query) = block.members().get(place as usize) else {
        return Ok(false);
    };
    matches_with(alloc, query, plain, tuple, image)
}
