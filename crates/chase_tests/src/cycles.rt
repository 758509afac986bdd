//! The refusal of a priority with a cycle, and whether the facts that it tells are one.

use crate::desk::Ended;
use crate::texts::fact_text;
use cqapri_cli::Status;
use plain_chase::{Atom, Preferred};
use std::alloc::{AllocError, Global};

/// Whether the run was refused for a cycle, and the facts that it tells are each better than the next, and the last than the first,
/// which is the least.
pub(crate) fn tells_cycle(
    alloc: Global,
    ended: &Ended,
    facts: &[Atom],
    better: &[Preferred],
) -> Result<bool, AllocError> {
    if ended.status != Status::Refused || !ended.out.written().is_empty() {
        return Ok(false);
    }
    let Some(told) = ended
        .err
        .written()
        .strip_prefix(b"cqapri: priority: cycle: ")
    else {
        return Ok(false);
    };
    let cycle = numbers_of(alloc, told, facts)?;
    Ok(told.ends_with(b")\n") && is_cycle(&cycle, better))
}

/// The numbers of the facts that are told, with a blank between two of them; none where a text is that of no fact.
fn numbers_of(alloc: Global, told: &[u8], facts: &[Atom]) -> Result<Vec<usize>, AllocError> {
    let mut numbers = Vec::new(alloc);
    for text in told.split(|byte| *byte == b' ') {
        match number_of(alloc, text, facts)? {
            Some(number) => numbers.push(number)?,
            None => return Ok(Vec::new(alloc)),
        }
    }
    Ok(numbers)
}

/// The number of the fact with which the text begins.
fn number_of(alloc: Global, text: &[u8], facts: &[Atom]) -> Result<Option<usize>, AllocError> {
    for (number, fact) in facts.iter().enumerate() {
        let name = fact_text(alloc, *fact)?;
        if text.starts_with(name.as_bytes()) {
            return Ok(Some(number));
        }
    }
    Ok(None)
}

/// Whether these are different facts, of which the first is the least, each better than the next, and the last than the first.
fn is_cycle(cycle: &[usize], better: &[Preferred]) -> bool {
    let (Some(first), Some(last)) = (cycle.first(), cycle.last()) else {
        return false;
    };
    if !is_listed(better, *last, *first) {
        return false;
    }
    for place in 1..cycle.len() {
        let (before, fact) = (cycle[place - 1], cycle[place]);
        if fact <= *first || !is_listed(better, before, fact) || cycle[..place].contains(&fact) {
            return false;
        }
    }
    true
}

/// Whether the first fact is better than the second.
fn is_listed(better: &[Preferred], upper: usize, lower: usize) -> bool {
    better.contains(&Preferred { upper, lower })
}
