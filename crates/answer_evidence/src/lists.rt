//! Lists of numbers as sets.

ghost use Rattle.std.specs.Prelude.{◌≡◌, ◌↔◌, ◌<◌, [], length, take, slice_index_or, Contains, IsTrue};
ghost use Rattle.cq_terms.specs.Lists.{IsAscending};
ghost use Rattle.clause_meaning.specs.Refutation.{IsWithin};
ghost use Rattle.report_rules.specs.Evidence.{Meets};
ghost use Rattle.answer_evidence.specs.Sets.{SomeWithin, EachMeets};

use cq_terms::{Ids, has_sorted};

/// Whether the ascending list has all of the numbers.
pub(crate) fn is_within(numbers: &[u32], list: &[u32]) -> bool
    requires ascending { IsAscending list.now }

    ensures exact { IsTrue result ↔ IsWithin numbers.now list.now }
{
    for number in numbers {
        if !has_sorted(list, *number) {
            return false;
        }
    }
    true
}

/// Whether the ascending list has one of the numbers.
pub(crate) fn meets(numbers: &[u32], list: &[u32]) -> bool
    requires ascending { IsAscending list.now }

    ensures exact { IsTrue result ↔ Meets numbers.now list.now }
{
    for number in numbers {
        if has_sorted(list, *number) {
            return true;
        }
    }
    false
}

/// Whether the ascending list has all numbers of one of the lists.
pub(crate) fn has_one(lists: &[Ids], list: &[u32]) -> bool
    requires ascending { IsAscending list.now }

    ensures exact { IsTrue result ↔ SomeWithin lists.now list.now }
{
    for numbers in lists {
        if is_within(numbers.as_slice(), list) {
            return true;
        }
    }
    false
}

/// Whether the ascending list has a number of each of the lists.
pub(crate) fn meets_each(lists: &[Ids], list: &[u32]) -> bool
    requires ascending { IsAscending list.now }

    ensures exact { IsTrue result ↔ EachMeets lists.now list.now }
{
    for numbers in lists {
        if !meets(numbers.as_slice(), list) {
            return false;
        }
    }
    true
}

/// Whether the list is one of those.
pub fn is_among(lists: &[Ids], list: &[u32]) -> bool
    ensures exact { IsTrue result ↔ Contains lists.now list.now }
{
    for other in lists {
        if other.as_slice() == list {
            return true;
        }
    }
    false
}
