//! The images of a query: single facts that it matches with, and pairs of facts.

ghost use Rattle.std.specs.Prelude.{◌≡◌, ◌≢◌, ◌<◌, ◌≤◌, ◌↔◌, ◌∷◌, [], ℕ, length, All, Contains, IfOk, OnOk, IfSome, IfNone, Err, Some, IsTrue, slice_get, List};
ghost use Rattle.cq_terms.specs.Conflicts.{couple};
ghost use Rattle.cq_terms.specs.declared.facts.Fact.{Fact};
ghost use Rattle.cq_terms.specs.declared.hits.Hit.{Hit};
ghost use Rattle.cq_terms.specs.Knowledge.{AreDistinct};
ghost use Rattle.cq_terms.specs.Query.{Query};
ghost use Rattle.cq_meaning.specs.Entailment.{HasImage};
ghost use Rattle.conflict_finder.specs.Finding.{HasMoreSets};
ghost use Rattle.conflict_finder.specs.Images.{are_alike, ArePart, AreKeys, IsOfFact, IsShort, IsTwoAt};
ghost use Rattle.conflict_finder.specs.FirstShown.{numbers_of, IsWanted};

use crate::clash_facts::ClashFacts;
use crate::sought::Sought;
use cq_terms::{Cq, Fact, Hit, Kind, NoMemory, QAtom};
use fact_index::Index;
use join_eval::{JoinRefusal, matches};
use std::alloc::Global;

/// The facts with which alone the query matches.
pub(crate) fn single_images(
    alloc: Global,
    index: &Index,
    query: &Cq,
) -> Result<Vec<ClashFacts>, NoMemory>
    requires short { IsShort query.now }

    ensures exact { IfOk result (λ keys.
        AreKeys (λ k. (length (numbers_of k) ≡ 1) × HasImage index.now query.now [] (numbers_of k)) keys.items) }
{
    let mut keys = Vec::new(alloc);
    distinct(index);
    for number in candidates(index, query.body()) {
        if matches_alone(alloc, query, index.fact(*number))? {
            keys.push(ClashFacts::One(*number))?;
        }
    }
    Ok(keys)
}

/// The facts of an index are distinct.
fn distinct(index: &Index)
    ensures exact { AreDistinct index.now }
{
    let _count = index.len();
}

/// Lends the facts of the one predicate that all atoms have; none where they have several.
fn candidates<'a>(index: &'a Index, body: &[QAtom]) -> &'a [u32]
    ensures complete { (q : Query) (n : ℕ) → q.body ≡ body.now → 0 < length body.now
        → HasImage index.now q [] (n ∷ []) → Contains result.now n }
    ensures named { All (λ n. n < length index.now) result.now }
{
    let Some(first) = body.first() else {
        return &[];
    };
    for atom in body {
        if !same_predicate(*first, *atom) {
            return &[];
        }
    }
    with_predicate(index, *first)
}

/// Lends the facts of the predicate of an atom.
fn with_predicate<'a>(index: &'a Index, atom: QAtom) -> &'a [u32]
    ensures exact { (n : ℕ) → Contains result.now n ↔ ((f : Fact) × IsOfFact atom f × (slice_get index.now n ≡ Some f)) }
{
    match atom {
        QAtom::Concept { pred, .. } => index.with_pred(Kind::Concept, pred),
        QAtom::Link { pred, .. } => index.with_pred(Kind::Link, pred),
    }
}

/// Whether two atoms are of one predicate.
fn same_predicate(left: QAtom, right: QAtom) -> bool
    ensures exact { result ≡ are_alike left right }
{
    match (left, right) {
        (QAtom::Concept { pred, .. }, QAtom::Concept { pred: of, .. }) => pred == of,
        (QAtom::Link { pred, .. }, QAtom::Link { pred: of, .. }) => pred == of,
        _ => false,
    }
}

/// Whether the query matches with the fact alone.
fn matches_alone(alloc: Global, query: &Cq, fact: Fact) -> Result<bool, NoMemory>
    requires short { IsShort query.now }

    ensures exact { IfOk result (λ b. IsTrue b ↔ HasImage (fact ∷ []) query.now [] (0 ∷ [])) }
{
    let alone = Index::build(alloc, &[fact])?;
    match matches(alloc, query, &alone, 1) {
        Ok(hits) => Ok(!hits.is_empty()),
        Err(JoinRefusal::TooManyHits) => Ok(true),
        Err(JoinRefusal::NoMemory) => Err(NoMemory),
    }
}

/// The pairs of facts with which the query matches in the part of a table that has the facts of these numbers.
pub(crate) fn pair_images(
    alloc: Global,
    part: &Index,
    numbers: &[u32],
    query: &Cq,
    limit: u64,
) -> Result<Vec<ClashFacts>, JoinRefusal>
    requires short { IsShort query.now }
    requires places { length numbers.now ≡ length part.now }

    ensures exact { (facts : List Fact) → ArePart facts numbers.now part.now → IfOk result (λ keys.
        AreKeys (λ k. IsWanted Sought.Pairs numbers.now (numbers_of k) × HasImage facts query.now [] (numbers_of k)) keys.items) }
    ensures many { (facts : List Fact) → ArePart facts numbers.now part.now → result ≡ Err JoinRefusal.TooManyHits
        → HasMoreSets (λ set. All (Contains numbers.now) set × HasImage facts query.now [] set) limit }
{
    let hits = matches(alloc, query, part, limit)?;
    Ok(pairs_of(alloc, numbers, &hits)?)
}

/// The pairs among the images, by their numbers in the whole table.
fn pairs_of(alloc: Global, numbers: &[u32], hits: &[Hit]) -> Result<Vec<ClashFacts>, NoMemory>
    requires named { All (λ h. All (λ i. i < length numbers.now) h.image) hits.now }

    ensures exact { IfOk result (λ keys. AreKeys (λ k. (h : Hit) × Contains hits.now h × IsTwoAt numbers.now h.image k)
        keys.items) }
{
    let mut keys = Vec::new(alloc);
    for hit in hits {
        if let Some(key) = key_of(numbers, hit) {
            keys.push(key)?;
        }
    }
    Ok(keys)
}

/// The numbers of the two facts of an image, or `None` where it has not two.
fn key_of(numbers: &[u32], hit: &Hit) -> Option<ClashFacts>
    requires named { All (λ i. i < length numbers.now) hit.now.image }

    ensures found { IfSome result (IsTwoAt numbers.now hit.now.image) }
    ensures none { IfNone result ((i j : ℕ) → hit.now.image ≢ i ∷ j ∷ []) }
{
    let (first, second) = two_of(hit)?;
    Some(ClashFacts::Two(numbers[first as usize], numbers[second as usize]))
}

/// The two facts of an image, or `None` where it has not two.
fn two_of(hit: &Hit) -> Option<(u32, u32)>
    ensures exact { result ≡ couple hit.now.image }
{
    match hit.image.as_slice() {
        [first, second] => Some((*first, *second)),
        _ => None,
    }
}
