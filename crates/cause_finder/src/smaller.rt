//! Whether a smaller support is within an image, sought place by place in a group of supports in order.

ghost use Rattle.std.specs.Prelude.{◌≡◌, ◌+◌, ◌<◌, ◌≤◌, ◌↔◌, ℕ, IsTrue, All, length, slice_index_or};
ghost use Rattle.std.specs.List.Sorted.{IsNonDecreasingBy};
ghost use Rattle.cq_terms.specs.Lists.{IsAscending};
ghost use Rattle.cause_finder.specs.declared.support.Support.{Support};
ghost use Rattle.cause_finder.specs.Groups.{HasNoPart};
ghost use Rattle.cause_finder.specs.Smaller.{AreNarrowed, AreSplit, HasPartFrom, number_at};

use crate::support::Support;

/// Whether no other image of the group is a part of this one.
pub(crate) fn has_no_part(group: &[Support], image: &[u32]) -> bool
    requires narrowed { AreNarrowed 0 group.now }
    requires ascending { IsAscending image.now }

    ensures exact { IsTrue result ↔ HasNoPart group.now image.now }
{
    !has_part_in(group, 0, image, image.len())
}

/// Whether some image of the group is shorter than the size and has all its numbers from the depth on in the rest. It costs
/// a search by halves for each place of the rest and each of its parts with which an image of the group goes on from the depth.
#[cycle(smaller)]
fn has_part_in(group: &[Support], depth: usize, rest: &[u32], size: usize) -> bool
    requires narrowed { AreNarrowed depth group.now }
    requires ascending { IsAscending rest.now }
    requires within { depth + length rest.now ≤ size }

    ensures exact { IsTrue result ↔ HasPartFrom depth rest.now size group.now }
{
    match group.split_first() {
        None => false,
        Some((first, _more)) if first.image.len() <= depth => depth < size,
        Some(_) => has_longer_part(group, depth, rest, size),
    }
}

/// The same, where each image goes on behind the depth.
#[cycle(smaller)]
fn has_longer_part(group: &[Support], depth: usize, rest: &[u32], size: usize) -> bool
    requires narrowed { AreNarrowed depth group.now }
    requires longer { All (λ s. depth < length s.image) group.now }
    requires ascending { IsAscending rest.now }
    requires within { depth + length rest.now ≤ size }

    ensures exact { IsTrue result ↔ HasPartFrom depth rest.now size group.now }
{
    let Some((fact, more)) = rest.split_first() else {
        return false;
    };
    let (same, above) = split(group, depth, *fact);
    if has_part_in(same, depth + 1, more, size) {
        return true;
    }
    has_longer_part(above, depth, more, size)
}

/// The supports of the group that have the number at the depth, and those that have a greater one.
fn split(group: &[Support], depth: usize, number: u32) -> (&[Support], &[Support])
    requires rising { IsNonDecreasingBy (number_at depth) group.now }

    ensures exact { AreSplit depth number group.now result.0.now result.1.now }
{
    let (_below, rest) = group.split_at(first_from(group, depth, number));
    rest.split_at(first_above(rest, depth, number))
}

/// How many supports have a smaller number at the depth.
fn first_from(group: &[Support], depth: usize, number: u32) -> usize
    requires rising { IsNonDecreasingBy (number_at depth) group.now }

    ensures within { result ≤ length group.now }
    ensures before { (k : ℕ) (d : Support) → k < result → number_at depth (slice_index_or group.now k d) < number }
    ensures behind { (k : ℕ) (d : Support) → result ≤ k → k < length group.now
        → number ≤ number_at depth (slice_index_or group.now k d) }
{
    group.partition_point(|support| number_of(support, depth) < number)
}

/// How many supports have no greater number at the depth.
fn first_above(group: &[Support], depth: usize, number: u32) -> usize
    requires rising { IsNonDecreasingBy (number_at depth) group.now }

    ensures within { result ≤ length group.now }
    ensures before { (k : ℕ) (d : Support) → k < result → number_at depth (slice_index_or group.now k d) ≤ number }
    ensures behind { (k : ℕ) (d : Support) → result ≤ k → k < length group.now
        → number < number_at depth (slice_index_or group.now k d) }
{
    group.partition_point(|support| number_of(support, depth) <= number)
}

/// The number of the image at the depth, or 0 where the image ends before.
fn number_of(support: &Support, depth: usize) -> u32
    ensures exact { result ≡ number_at depth support.now }
{
    match support.image.as_slice().get(depth) {
        Some(number) => *number,
        None => 0,
    }
}
