//! The facts that aren't self-inconsistent.

ghost use Rattle.std.specs.Prelude.{◌≡◌, ◌<◌, ◌≤◌, ◌↔◌, ℕ, length, All, Contains, IfOk, Some, slice_get};
ghost use Rattle.std.specs.List.{AllZip};
ghost use Rattle.cq_terms.specs.Lists.{IsAscending};
ghost use Rattle.conflict_finder.specs.FirstShown.{HasKey};

use crate::clash_facts::ClashFacts;
use crate::first_shown::FirstShown;
use cq_terms::{Fact, NoMemory};
use fact_index::Index;
use std::alloc::Global;

/// The ascending numbers of the facts that weren't shown alone.
pub(crate) fn others(alloc: Global, count: u32, shown: &FirstShown) -> Result<Vec<u32>, NoMemory>
    ensures exact { IfOk result (λ v. (n : ℕ) → Contains v.items n ↔ ((n < count) × ¬ HasKey shown.now.entries (ClashFacts.One n))) }
    ensures ascending { IfOk result (λ v. IsAscending v.items) }
    ensures few { IfOk result (λ v. length v.items ≤ count) }
{
    let mut numbers = Vec::new(alloc);
    for number in 0..count {
        if !shown.contains_key(&ClashFacts::One(number)) {
            numbers.push(number)?;
        }
    }
    Ok(numbers)
}

/// The facts of the numbers.
pub(crate) fn facts_at(alloc: Global, index: &Index, numbers: &[u32]) -> Result<Vec<Fact>, NoMemory>
    requires named { All (λ n. n < length index.now) numbers.now }

    ensures exact { IfOk result (λ v. AllZip (λ n f. slice_get index.now n ≡ Some f) numbers.now v.items) }
{
    let mut facts = Vec::with_capacity(alloc, numbers.len())?;
    for number in numbers {
        facts.push(index.fact(*number))?;
    }
    Ok(facts)
}
