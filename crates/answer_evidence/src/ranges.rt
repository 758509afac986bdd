//! Ranges of numbers as lists.

ghost use Rattle.std.specs.Prelude.{◌≤◌, IfOk};
ghost use Rattle.answer_evidence.specs.Ranges.{IsRange};

use cq_terms::{Ids, Longs, NoMemory};
use std::alloc::Global;

/// The numbers below the bound, ascending.
pub fn up_to(alloc: Global, bound: u32) -> Result<Ids, NoMemory>
    ensures exact { IfOk result (IsRange 0 bound) }
{
    let mut numbers = Ids::new(alloc);
    for number in 0..bound {
        numbers.push(number)?;
    }
    Ok(numbers)
}

/// The numbers from the first one on, below the bound.
pub fn numbers_from(alloc: Global, first: u64, bound: u64) -> Result<Longs, NoMemory>
    requires ordered { first ≤ bound }

    ensures exact { IfOk result (IsRange first bound) }
{
    let mut numbers = Longs::new(alloc);
    for number in first..bound {
        numbers.push(number)?;
    }
    Ok(numbers)
}
