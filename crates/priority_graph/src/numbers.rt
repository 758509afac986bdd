//! Lists of zeros, and writes to lists of numbers.

ghost use Rattle.std.specs.Prelude.{◌≡◌, ◌<◌, ◌^◌, length, replicate, All, IfOk};
ghost use Rattle.cq_terms.specs.Lists.{IsAscending};
ghost use Rattle.priority_graph.specs.Orders.{AddsEach};
ghost use Rattle.priority_graph.specs.Split.{SetsEach};

use cq_terms::NoMemory;
use std::alloc::Global;

/// Answers as many zeros as are asked for.
pub(crate) fn zeros(alloc: Global, count: u32) -> Result<Vec<u32>, NoMemory>
    ensures exact { IfOk result (λ list. list.items ≡ replicate count 0) }
{
    let list = vec![in alloc; 0u32; count as usize]?;
    Ok(list)
}

/// Writes the value at each of the places.
pub(crate) fn set_each(numbers: &mut [u32], places: &[u32], value: u32)
    requires inside { All (λ i. i < length numbers.old) places.now }

    ensures exact { SetsEach numbers.old numbers.new places.now value }
{
    for place in places {
        numbers[*place as usize] = value;
    }
}

/// Adds one at each of the places.
pub(crate) fn add_each(numbers: &mut Vec<u32>, places: &[u32])
    requires ascending { IsAscending places.now }
    requires inside { All (λ i. i < length numbers.old.items) places.now }
    requires fits { All (λ n. n < 2 ^ 31) numbers.old.items }

    ensures exact { AddsEach numbers.old.items numbers.new.items places.now }
{
    for place in places {
        numbers[*place as usize] += 1;
    }
}
