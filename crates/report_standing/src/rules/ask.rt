//! The rule of an `ask` line.

ghost use Rattle.std.specs.Prelude.{◌≡◌, ◌↔◌, ℕ, IfOk, IsTrue};
ghost use Rattle.std.specs.List.{AllZip};
ghost use Rattle.cq_terms.specs.Knowledge.{Knowledge};
ghost use Rattle.report_text.specs.declared.line.Origin.TheVariants as origin;
ghost use Rattle.report_rules.specs.Rules.{MemberMatches};
ghost use Rattle.report_laws.specs.Standing.{members_at};
ghost use Rattle.report_laws.specs.AtStanding.{AskAt};

use crate::rules::conflict::matches_member;
use crate::standing::Standing;
use cq_terms::{IdLists, Ids, NoMemory};
use plain_finding::Candidate;
use plain_match::PlainFacts;
use report_text::Origin;
use std::alloc::Global;

/// Whether the candidate is the next one, with exactly its causes, each with a member that matches with exactly it.
pub fn is_right_ask(
    alloc: Global,
    plain: &PlainFacts,
    candidates: &[Candidate],
    standing: &Standing,
    candidate: u32,
    tuple: &Ids,
    causes: &IdLists,
    members: &Ids,
) -> Result<bool, NoMemory>
    ensures exact { (kb : Knowledge) → kb.facts ≡ plain.now → IfOk result (λ right. IsTrue right
        ↔ AskAt kb candidates.now standing.now candidate tuple.now causes.now members.now) }
{
    if candidate as u64 != standing.answers() {
        return Ok(false);
    }
    let Some(next) = candidates.get(standing.answers() as usize) else {
        return Ok(false);
    };
    if !next.has(tuple, causes) {
        return Ok(false);
    }
    are_matched(
        alloc,
        plain,
        standing,
        tuple.as_slice(),
        causes.as_slice(),
        members.as_slice(),
    )
}

/// Whether each cause has a member of the query's block that matches with the tuple and exactly it.
fn are_matched(
    alloc: Global,
    plain: &PlainFacts,
    standing: &Standing,
    tuple: &[u32],
    causes: &[Ids],
    members: &[u32],
) -> Result<bool, NoMemory>
    ensures exact { IfOk result (λ found. IsTrue found
        ↔ AllZip (λ cause place. MemberMatches plain.now (members_at standing.now.blocks origin.Query) place tuple.now cause) causes.now members.now) }
{
    if causes.len() != members.len() {
        return Ok(false);
    }
    for i in 0..causes.len() {
        let cause = causes[i].as_slice();
        if !matches_member(
            alloc,
            plain,
            standing,
            Origin::Query,
            members[i],
            tuple,
            cause,
        )? {
            return Ok(false);
        }
    }
    Ok(true)
}
