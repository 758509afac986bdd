//! The rule of a `forget` line.

ghost use Rattle.std.specs.Prelude.{◌≡◌, ◌↔◌, IsTrue, IfOk, not, length, map, filter};
ghost use Rattle.cq_terms.specs.Lists.{IsAscending};
ghost use Rattle.priority_graph.specs.Split.{has};
ghost use Rattle.report_laws.specs.AtStanding.{ForgetAt};
ghost use Rattle.report_standing.specs.RuleParts.{LeavesEnough};

use crate::standing::{Learned, Standing};
use cq_terms::NoMemory;
use report_parts::{ascend_long, has_long, has_longs};
use std::alloc::Global;

/// The numbers of the clauses.
fn numbers_of(alloc: Global, learned: &[Learned]) -> Result<Vec<u64>, NoMemory>
    ensures exact { IfOk result (λ numbers. numbers.items ≡ map (λ c. c.number) learned.now) }
{
    let numbers = learned.iter().map(|clause| clause.number).collect(alloc)?;
    Ok(numbers)
}

/// How many clauses have other numbers.
fn count_staying(learned: &[Learned], numbers: &[u64]) -> usize
    requires ascending { IsAscending numbers.now }

    ensures exact { result ≡ length (filter (λ c. not (has numbers.now c.number)) learned.now) }
{
    learned
        .iter()
        .filter(|clause| !has_long(numbers, true, clause.number))
        .count()
}

impl Standing {
    /// Whether so many of the live learned clauses stay, where too many live, and these numbers are theirs.
    fn may_forget(&self, numbers: &[u64]) -> bool
        requires ascending { IsAscending numbers.now }

        ensures exact { IsTrue result ↔ LeavesEnough self.now numbers.now }
    {
        self.keep < self.learned.len() as u64
            && self.keep / 2 <= count_staying(&self.learned, numbers) as u64
    }

    /// Whether more learned clauses live than are to be kept, the ascending numbers are those of some of them, and at least half as many as
    /// are to be kept stay.
    pub fn is_right_forget(&self, alloc: Global, numbers: &[u64]) -> Result<bool, NoMemory>
        ensures exact { IfOk result (λ right. IsTrue right ↔ ForgetAt self.now numbers.now) }
    {
        if !ascend_long(numbers) || !self.may_forget(numbers) {
            return Ok(false);
        }
        let learned = numbers_of(alloc, &self.learned)?;
        let in_order = ascend_long(&learned);
        Ok(has_longs(&learned, in_order, numbers))
    }
}
