//! The candidates with their causes, from what the queries of the query's block match with.

ghost use Rattle.std.specs.Prelude.{◌≡◌, ◌≢◌, ◌∷◌, ◌<◌, ◌≤◌, ◌&&◌, ◌++◌, ◌↔◌, [], ℕ, All, AllPairs, Contains, IfOk, IsTrue, length, not, ◌||◌, slice_index_or};
ghost use Rattle.std.specs.Str.{bytes_eq};
ghost use Rattle.cq_terms.specs.declared.hits.Hit.{Hit};
ghost use Rattle.cq_terms.specs.Conflicts.{AreInConflict, IsOwn, own_facts, couples};
ghost use Rattle.cq_terms.specs.Knowledge.{Knowledge, AreDistinct};
ghost use Rattle.cq_terms.specs.Lists.{IsAscending};
ghost use Rattle.cq_terms.specs.Query.{Query};
ghost use Rattle.cq_meaning.specs.ConflictGraphs.{AreConflictsOf};
ghost use Rattle.cq_meaning.specs.Rewriting.{IsClosure};
ghost use Rattle.query_matching.specs.Hits.{IsBefore};
ghost use Rattle.report_laws.specs.AtStanding.{AreCandidatesOf};
ghost use Rattle.report_laws.specs.HitLaws as laws;
ghost use Rattle.report_laws.specs.HitLaws.{causes_of};
ghost use Rattle.plain_finding.specs.Groups.{AreGrouped, AreOfFacts, IsLess, images_of};

use crate::candidate::Candidate;
use cq_terms::{Conflicts, Cq, Hit, IdLists, Ids, NoMemory, has_sorted};
use plain_match::{PlainFacts, images_plain};
use report_parts::are_equal;
use std::alloc::Global;

/// The candidates of the query whose closure the members are.
pub fn find_candidates(
    alloc: Global,
    plain: &PlainFacts,
    conflicts: &Conflicts,
    members: &[Cq],
) -> Result<Vec<Candidate>, NoMemory>
    requires facts { conflicts.now.facts ≡ length plain.now }

    ensures exact { (kb : Knowledge) (q : Query) → kb.facts ≡ plain.now → AreDistinct kb.facts → AreConflictsOf kb conflicts.now
        → IsClosure kb.axioms q members.now → IfOk result (λ candidates. AreCandidatesOf kb q candidates.items) }
{
    let hits = images_plain(alloc, members, plain)?;
    group_hits(alloc, conflicts, hits.as_slice())
}

/// The candidates of the hits, which are in order.
fn group_hits(
    alloc: Global,
    conflicts: &Conflicts,
    hits: &[Hit],
) -> Result<Vec<Candidate>, NoMemory>
    requires ordered { AllPairs IsBefore hits.now }
    requires known { AreOfFacts conflicts.now.facts hits.now }

    ensures exact { IfOk result (λ candidates. AreGrouped conflicts.now.clashes hits.now [] candidates.items) }
{
    let mut candidates = Vec::new(alloc);
    let mut rest = hits;
    while !rest.is_empty() {
        let count = run_length(rest);
        candidates.push(candidate(alloc, conflicts, &rest[..count])?)?;
        rest = &rest[count..];
    }
    Ok(candidates)
}

/// How many hits from the first on have its tuple.
fn run_length(hits: &[Hit]) -> usize
    requires some { 0 < length hits.now }

    ensures some { 0 < result }
    ensures within { result ≤ length hits.now }
    ensures same { (k : ℕ) (d : Hit) → k < result → (slice_index_or hits.now k d).tuple ≡ (slice_index_or hits.now 0 d).tuple }
    ensures other { (d : Hit) → result < length hits.now → (slice_index_or hits.now result d).tuple ≢ (slice_index_or hits.now 0 d).tuple }
{
    let tuple = hits[0].tuple.as_slice();
    let mut count = 1;
    while count < hits.len() {
        if !are_equal(hits[count].tuple.as_slice(), tuple) {
            return count;
        }
        count += 1;
    }
    count
}

/// The candidate of hits with one tuple.
fn candidate(alloc: Global, conflicts: &Conflicts, hits: &[Hit]) -> Result<Candidate, NoMemory>
    requires some { 0 < length hits.now }
    requires known { AreOfFacts conflicts.now.facts hits.now }

    ensures exact { (d : Hit) → IfOk result (λ c. c ≡ record {
      tuple = (slice_index_or hits.now 0 d).tuple;
      causes = causes_of (own_facts conflicts.now.clashes) (couples conflicts.now.clashes) (images_of hits.now);
    }) }
{
    let tuple = Ids::from_slice(alloc, hits[0].tuple.as_slice())?;
    let causes = causes(alloc, conflicts, hits)?;
    Ok(Candidate::new(tuple, causes))
}

/// The images that are free of conflicts and have no other within them.
fn causes(alloc: Global, conflicts: &Conflicts, hits: &[Hit]) -> Result<IdLists, NoMemory>
    requires known { AreOfFacts conflicts.now.facts hits.now }

    ensures exact { IfOk result (λ lists. lists
        ≡ causes_of (own_facts conflicts.now.clashes) (couples conflicts.now.clashes) (images_of hits.now)) }
{
    let mut causes = IdLists::new(alloc);
    for hit in hits {
        let image = hit.image.as_slice();
        if is_free(conflicts, image) && is_least(hits, image) {
            causes.push(Ids::from_slice(alloc, image)?)?;
        }
    }
    Ok(causes)
}

/// Whether the facts have no self-inconsistent one and no two in conflict.
fn is_free(conflicts: &Conflicts, image: &[u32]) -> bool
    requires ascending { IsAscending image.now }
    requires known { All (λ i. i < conflicts.now.facts) image.now }

    ensures exact { result ≡ laws.is_free (own_facts conflicts.now.clashes) (couples conflicts.now.clashes) image.now }
{
    for fact in image {
        if conflicts.is_own(*fact) || conflicts_with_one(conflicts, *fact, image) {
            return false;
        }
    }
    true
}

/// Whether the fact conflicts with one of the facts.
fn conflicts_with_one(conflicts: &Conflicts, fact: u32, image: &[u32]) -> bool
    requires known { fact < conflicts.now.facts }

    ensures exact { IsTrue result ↔ ((j : ℕ) × Contains image.now j × AreInConflict conflicts.now.clashes fact j) }
{
    let rivals = conflicts.of(fact);
    for other in image {
        if has_sorted(rivals, *other) {
            return true;
        }
    }
    false
}

/// Whether no image of the hits lies within these facts but themselves.
fn is_least(hits: &[Hit], image: &[u32]) -> bool
    requires ascending { IsAscending image.now }

    ensures exact { result ≡ laws.is_least (images_of hits.now) image.now }
{
    for hit in hits {
        if lies_within(hit.image.as_slice(), image) {
            return false;
        }
    }
    true
}

/// Whether the first facts lie within the second, and aren't the same.
fn lies_within(inner: &[u32], outer: &[u32]) -> bool
    requires ascending { IsAscending outer.now }

    ensures exact { not result ≡ (not (laws.has_all outer.now inner.now) || bytes_eq inner.now outer.now) }
{
    has_all(outer, inner) && !are_equal(inner, outer)
}

/// Whether the first list, which ascends, has all numbers of the second.
fn has_all(list: &[u32], numbers: &[u32]) -> bool
    requires ascending { IsAscending list.now }

    ensures exact { result ≡ laws.has_all list.now numbers.now }
{
    for number in numbers {
        if !has_sorted(list, *number) {
            return false;
        }
    }
    true
}
