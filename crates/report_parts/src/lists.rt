//! Lists of numbers: whether they ascend, and what they have.

ghost use Rattle.std.specs.Prelude.{◌≡◌, ◌↔◌, ◌<◌, All, AllPairs, IsTrue};
ghost use Rattle.cq_terms.specs.Lists.{IsAscending};
ghost use Rattle.clause_meaning.specs.Literals as literals;
ghost use Rattle.priority_graph.specs.Split.{has};

use clause_meaning::variable_of;
use cq_terms::has_sorted;

/// Whether the numbers ascend.
pub fn ascend(numbers: &[u32]) -> bool
    ensures exact { IsTrue result ↔ IsAscending numbers.now }
{
    for place in 1..numbers.len() {
        if numbers[place - 1] >= numbers[place] {
            return false;
        }
    }
    true
}

/// Whether the variables of the literals ascend.
pub fn ascend_by_variable(clause: &[u32]) -> bool
    ensures exact { IsTrue result ↔ AllPairs (λ k l. literals.variable_of k < literals.variable_of l) clause.now }
{
    for place in 1..clause.len() {
        if variable_of(clause[place - 1]) >= variable_of(clause[place]) {
            return false;
        }
    }
    true
}

/// Whether each of the numbers is below the bound.
pub fn are_below(numbers: &[u32], bound: u32) -> bool
    ensures exact { IsTrue result ↔ All (λ n. n < bound) numbers.now }
{
    for number in numbers {
        if *number >= bound {
            return false;
        }
    }
    true
}

/// Whether the list has the number, by halves where it ascends.
pub fn has_number(list: &[u32], in_order: bool, number: u32) -> bool
    requires ascending { IsTrue in_order → IsAscending list.now }

    ensures exact { result ≡ has list.now number }
{
    if in_order {
        has_sorted(list, number)
    } else {
        list.contains(&number)
    }
}

/// Whether the numbers ascend.
pub fn ascend_long(numbers: &[u64]) -> bool
    ensures exact { IsTrue result ↔ IsAscending numbers.now }
{
    for place in 1..numbers.len() {
        if numbers[place - 1] >= numbers[place] {
            return false;
        }
    }
    true
}

/// Whether each of the numbers is below the bound.
pub fn are_below_long(numbers: &[u64], bound: u64) -> bool
    ensures exact { IsTrue result ↔ All (λ n. n < bound) numbers.now }
{
    for number in numbers {
        if *number >= bound {
            return false;
        }
    }
    true
}

/// Whether the list has the number, by halves where it ascends.
pub fn has_long(list: &[u64], in_order: bool, number: u64) -> bool
    requires ascending { IsTrue in_order → IsAscending list.now }

    ensures exact { result ≡ has list.now number }
{
    if in_order {
        list.binary_search(&number).is_ok()
    } else {
        list.contains(&number)
    }
}

/// Whether the list has each of the numbers, by halves where it ascends.
pub fn has_longs(list: &[u64], in_order: bool, numbers: &[u64]) -> bool
    requires ascending { IsTrue in_order → IsAscending list.now }

    ensures exact { IsTrue result ↔ All (λ n. IsTrue (has list.now n)) numbers.now }
{
    for number in numbers {
        if !has_long(list, in_order, *number) {
            return false;
        }
    }
    true
}
