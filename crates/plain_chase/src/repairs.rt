//! The consistent sets of a small table of facts, its conflicts, and its chosen repairs.

ghost use Rattle.std.specs.Prelude.{◌<◌};

use crate::atoms::{Atom, Axiom};
use crate::chase::{Chase, ChaseFault};
use crate::matching::null_depth;
use crate::verdicts::{Preferred, Table};
use std::alloc::{AllocError, Global};

/// How many facts a table has at most.
pub const MOST_FACTS: usize = 6;

/// How many sets of facts there are.
const SETS: usize = 1 << MOST_FACTS;

/// Which repairs are chosen.
#[derive(Clone, Copy, Debug, PartialEq, Eq)]
pub enum Mode {
    /// All repairs.
    All,
    /// The repairs that no consistent set improves.
    Pareto,
}

/// A set of facts of a table.
pub(crate) type Set = [bool; MOST_FACTS];

/// The consistent sets of facts, and which facts are better than which: listed, and in conflict.
#[derive(Drop)]
pub(crate) struct Family {
    consistent: Vec<Set>,
    better: [Set; MOST_FACTS],
}

/// The set of a number: its digits to the base 2.
fn set_of(number: usize) -> Set {
    let mut set = [false; MOST_FACTS];
    let mut rest = number;
    for place in 0..MOST_FACTS {
        set[place] = rest % 2 == 1;
        rest /= 2;
    }
    set
}

/// Whether the set has no fact from the number on.
fn is_below(set: &Set, count: usize) -> bool {
    for place in 0..MOST_FACTS {
        if set[place] && place >= count {
            return false;
        }
    }
    true
}

/// What the sets have in common.
pub(crate) fn common(first: &Set, second: &Set) -> Set {
    let mut set = [false; MOST_FACTS];
    for place in 0..MOST_FACTS {
        set[place] = first[place] && second[place];
    }
    set
}

/// The set with the fact alone, and with both facts.
fn set_with(first: usize, second: usize) -> Set {
    let mut set = [false; MOST_FACTS];
    for place in 0..MOST_FACTS {
        set[place] = place == first || place == second;
    }
    set
}

/// The facts of the set.
pub(crate) fn members(alloc: Global, facts: &[Atom], set: &Set) -> Result<Vec<Atom>, AllocError> {
    let mut members = Vec::new(alloc);
    for (place, fact) in facts.iter().enumerate() {
        if place < MOST_FACTS && set[place] {
            members.push(*fact)?;
        }
    }
    Ok(members)
}

/// Whether the facts of the set are consistent.
fn is_consistent(
    alloc: Global,
    individuals: usize,
    facts: &[Atom],
    axioms: &[Axiom],
    set: &Set,
) -> Result<bool, ChaseFault> {
    let members = members(alloc, facts, set)?;
    let depth = null_depth(alloc, axioms)?;
    let chase = Chase::of(alloc, individuals, &members, axioms, depth)?;
    Ok(chase.is_consistent(axioms))
}

/// The sets of facts of the table that are consistent.
fn consistent_sets(alloc: Global, table: &Table) -> Result<Vec<Set>, ChaseFault> {
    let facts = table.facts.as_slice();
    let axioms = table.axioms.as_slice();
    let mut sets = Vec::new(alloc);
    for number in 0..SETS {
        let set = set_of(number);
        if is_below(&set, facts.len())
            && is_consistent(alloc, table.individuals, facts, axioms, &set)?
        {
            sets.push(set)?;
        }
    }
    Ok(sets)
}

impl Family {
    /// The family of the table, which has at most `MOST_FACTS` facts.
    pub(crate) fn of(alloc: Global, table: &Table) -> Result<Family, ChaseFault> {
        if table.facts.len() > MOST_FACTS {
            return Err(ChaseFault::TooLarge);
        }
        let mut family = Family {
            consistent: consistent_sets(alloc, table)?,
            better: [[false; MOST_FACTS]; MOST_FACTS],
        };
        family.prefer(table);
        Ok(family)
    }

    /// Takes over what the table lists of facts in conflict.
    fn prefer(&mut self, table: &Table) {
        for pair in &table.pairs {
            if pair.upper < MOST_FACTS
                && pair.lower < MOST_FACTS
                && self.conflict(pair.upper, pair.lower)
            {
                self.better[pair.upper][pair.lower] = true;
            }
        }
    }

    /// Whether the facts are different, each consistent alone, and together not.
    pub(crate) fn conflict(&self, first: usize, second: usize) -> bool {
        first != second
            && self.has(&set_with(first, first))
            && self.has(&set_with(second, second))
            && !self.has(&set_with(first, second))
    }

    /// How many pairs of facts are in conflict.
    pub(crate) fn conflicts(&self) -> usize {
        let mut count = 0usize;
        for first in 0..MOST_FACTS {
            count = count.saturating_add(self.conflicts_below(first));
        }
        count
    }

    /// With how many facts of lesser numbers the fact is in conflict.
    fn conflicts_below(&self, fact: usize) -> usize {
        let mut count = 0usize;
        for lesser in 0..fact {
            if self.conflict(fact, lesser) {
                count = count.saturating_add(1);
            }
        }
        count
    }

    /// Whether the set is consistent.
    fn has(&self, set: &Set) -> bool {
        self.consistent.contains(set)
    }

    /// Which facts are better than which.
    pub(crate) fn better(&self, alloc: Global) -> Result<Vec<Preferred>, AllocError> {
        let mut pairs = Vec::new(alloc);
        for upper in 0..MOST_FACTS {
            for lower in 0..MOST_FACTS {
                if self.better[upper][lower] {
                    pairs.push(Preferred { upper, lower })?;
                }
            }
        }
        Ok(pairs)
    }

    /// Whether some facts are each better than the next, and the last than the first.
    pub(crate) fn has_cycle(&self) -> bool {
        let mut left = [true; MOST_FACTS];
        for _ in 0..MOST_FACTS {
            left = self.lower_of(&left);
        }
        left.contains(&true)
    }

    /// The facts of the set to which a fact of the set is better.
    fn lower_of(&self, set: &Set) -> Set {
        let mut lower = [false; MOST_FACTS];
        for place in 0..MOST_FACTS {
            lower[place] = set[place] && self.is_lower(place, set);
        }
        lower
    }

    /// Whether a fact of the set is better than the fact.
    fn is_lower(&self, fact: usize, set: &Set) -> bool
        requires known { fact < MOST_FACTS }
    {
        for upper in 0..MOST_FACTS {
            if set[upper] && self.better[upper][fact] {
                return true;
            }
        }
        false
    }
}

impl Family {
    /// The chosen repairs.
    pub(crate) fn chosen(&self, alloc: Global, mode: Mode) -> Result<Vec<Set>, AllocError> {
        let mut chosen = Vec::new(alloc);
        for set in &self.consistent {
            if self.is_repair(set) && (mode == Mode::All || !self.is_improved(set)) {
                chosen.push(*set)?;
            }
        }
        Ok(chosen)
    }

    /// Whether no further fact can be added to the consistent set.
    fn is_repair(&self, set: &Set) -> bool {
        for place in 0..MOST_FACTS {
            if !set[place] {
                let mut larger = *set;
                larger[place] = true;
                if self.has(&larger) {
                    return false;
                }
            }
        }
        true
    }

    /// Whether some consistent set improves the set.
    fn is_improved(&self, set: &Set) -> bool {
        for other in &self.consistent {
            if self.improves(other, set) {
                return true;
            }
        }
        false
    }

    /// Whether some fact of the other set outside the set is better than every fact of the set outside the other.
    fn improves(&self, other: &Set, set: &Set) -> bool {
        for upper in 0..MOST_FACTS {
            if other[upper] && !set[upper] && self.is_above(upper, other, set) {
                return true;
            }
        }
        false
    }

    /// Whether the fact is better than every fact of the set outside the other.
    fn is_above(&self, upper: usize, other: &Set, set: &Set) -> bool
        requires known { upper < MOST_FACTS }
    {
        for lower in 0..MOST_FACTS {
            if set[lower] && !other[lower] && !self.better[upper][lower] {
                return false;
            }
        }
        true
    }
}
