//! Supports in groups: one candidate for each tuple.

ghost use Rattle.std.specs.Prelude.{◌≡◌, ◌≢◌, ◌<◌, ◌≤◌, ◌↔◌, ◌∷◌, ◌++◌, [], IfOk, OnOk, IsTrue, All, length, take, slice_index_or};
ghost use Rattle.std.specs.List.Sorted.{IsStrictlySortedBy};
ghost use Rattle.cq_terms.specs.Lists.{IsAscending};
ghost use Rattle.cause_finder.specs.declared.support.Support.{Support};
ghost use Rattle.cause_finder.specs.Supports.{support_cmp};
ghost use Rattle.cause_finder.specs.Groups.{AreGrouped, HasNoPart, IsFree, IsPickedFrom};
ghost use Rattle.cause_finder.specs.Smaller.{AreNarrowed};

use crate::Candidate;
use crate::parts::is_free;
use crate::smaller::has_no_part;
use crate::support::Support;
use cq_terms::{Conflicts, IdLists, Ids, NoMemory};
use std::alloc::Global;

/// The candidates that the supports, in order and each once, make. The supports of one tuple are compared among themselves.
pub(crate) fn candidates_of(
    alloc: Global,
    supports: &[Support],
    conflicts: &Conflicts,
) -> Result<Vec<Candidate>, NoMemory>
    requires ordered { IsStrictlySortedBy support_cmp supports.now }
    requires known { All (λ s. All (λ i. i < conflicts.now.facts) s.image) supports.now }
    requires ascending { All (λ s. IsAscending s.image) supports.now }

    ensures exact { IfOk result (λ candidates. AreGrouped conflicts.now.clashes supports.now candidates.items) }
{
    let mut candidates = Vec::new(alloc);
    let mut rest = supports;
    while let Some((first, more)) = rest.split_first() {
        let tuple = first.tuple.as_slice();
        let (group, others) = rest.split_at(1 + group_len(more, tuple));
        let candidate = candidate_of(alloc, group, tuple, conflicts)?;
        append(&mut candidates, candidate)?;
        rest = others;
    }
    Ok(candidates)
}

/// Appends a candidate, also where it has no cause.
fn append(candidates: &mut Vec<Candidate>, candidate: Candidate) -> Result<(), NoMemory>
    ensures exact { OnOk result (candidates.new.items ≡ candidates.old.items ++ candidate ∷ []) }
{
    candidates.push(candidate)?;
    Ok(())
}

/// How many supports there are before the first one of another tuple.
fn group_len(supports: &[Support], tuple: &[u32]) -> usize
    ensures within { result ≤ length supports.now }
    ensures same { All (λ s. s.tuple ≡ tuple.now) (take result supports.now) }
    ensures other { (s : Support) → result < length supports.now → (slice_index_or supports.now result s).tuple ≢ tuple.now }
{
    for (place, support) in supports.iter().enumerate() {
        if !is_same(support.tuple.as_slice(), tuple) {
            return place;
        }
    }
    supports.len()
}

/// Whether two lists are equal.
fn is_same(left: &[u32], right: &[u32]) -> bool
    ensures exact { IsTrue result ↔ (left.now ≡ right.now) }
{
    left == right
}

/// The candidate of a group, whose supports are all those of one tuple.
fn candidate_of(
    alloc: Global,
    group: &[Support],
    tuple: &[u32],
    conflicts: &Conflicts,
) -> Result<Candidate, NoMemory>
    requires same { All (λ s. s.tuple ≡ tuple.now) group.now }
    requires ordered { IsStrictlySortedBy support_cmp group.now }
    requires known { All (λ s. All (λ i. i < conflicts.now.facts) s.image) group.now }
    requires ascending { All (λ s. IsAscending s.image) group.now }

    ensures tuple { IfOk result (λ c. c.tuple ≡ tuple.now) }
    ensures exact { IfOk result (IsPickedFrom conflicts.now.clashes group.now) }
{
    let mut causes = IdLists::new(alloc);
    let mut members = Ids::new(alloc);
    for support in group {
        let image = support.image.as_slice();
        if !is_cause(group, conflicts, image) {
            continue;
        }
        causes.push(Ids::from_slice(alloc, image)?)?;
        members.push(support.member)?;
    }
    let tuple = Ids::from_slice(alloc, tuple)?;
    Ok(Candidate {
        tuple,
        causes,
        members,
    })
}

/// Whether the image has no clash and no other image of the group as a part.
fn is_cause(group: &[Support], conflicts: &Conflicts, image: &[u32]) -> bool
    requires known { All (λ i. i < conflicts.now.facts) image.now }
    requires narrowed { AreNarrowed 0 group.now }
    requires ascending { IsAscending image.now }

    ensures exact { IsTrue result ↔ (IsFree conflicts.now.clashes image.now × HasNoPart group.now image.now) }
{
    if !is_free(conflicts, image) {
        return false;
    }
    has_no_part(group, image)
}
