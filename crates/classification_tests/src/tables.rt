//! Small random tables, with their verdicts by a plain enumeration of their repairs.

ghost use Rattle.std.specs.Prelude.{◌<◌};

use crate::texts::Input;
use classifier::Verdicts;
use cq_terms::Repairs;
use report_text::Verdict;
use std::alloc::Global;
use std::test::Fail;

/// How many facts a table has.
const COUNT: usize = 6;

/// How many sets of facts there are.
const SETS: usize = 1 << COUNT;

/// A set of facts of a table.
type Set = [bool; COUNT];

/// A table of facts `A0(c)` to `A5(c)`: which pairs conflict, which pairs are listed as better, and which facts are in `G` and in `H`.
#[derive(Drop)]
pub(crate) struct Table {
    conflict: [Set; COUNT],
    better: [Set; COUNT],
    in_g: Set,
    in_h: Set,
}

/// Numbers that look random: the next one of a linear congruence.
#[derive(Drop)]
pub(crate) struct Numbers {
    state: u64,
}

impl Numbers {
    /// The numbers that always come.
    pub(crate) fn new() -> Numbers {
        Numbers { state: 2026 }
    }

    /// Whether the next number is below the part of 100.
    fn is_below(&mut self, part: u64) -> bool {
        self.state = self
            .state
            .wrapping_mul(6364136223846793005)
            .wrapping_add(1442695040888963407);
        (self.state >> 33) % 100 < part
    }
}

impl Table {
    /// A random table.
    pub(crate) fn random(numbers: &mut Numbers) -> Table {
        let mut table = Table {
            conflict: [[false; COUNT]; COUNT],
            better: [[false; COUNT]; COUNT],
            in_g: [false; COUNT],
            in_h: [false; COUNT],
        };
        for fact in 0..COUNT {
            table.in_g[fact] = numbers.is_below(40);
            table.in_h[fact] = numbers.is_below(40);
            table.draw(fact, numbers);
        }
        table
    }

    /// Draws how the fact stands to those of lesser numbers. Only these are listed as better than it, so that there is no cycle.
    fn draw(&mut self, fact: usize, numbers: &mut Numbers)
        requires known { fact < COUNT }
    {
        for lesser in 0..fact {
            let conflicts = numbers.is_below(40);
            self.conflict[fact][lesser] = conflicts;
            self.conflict[lesser][fact] = conflicts;
            self.better[lesser][fact] = numbers.is_below(50);
        }
    }

    /// Whether the fact conflicts with one of the set.
    fn meets(&self, fact: usize, set: &Set) -> bool
        requires known { fact < COUNT }
    {
        for other in 0..COUNT {
            if set[other] && self.conflict[fact][other] {
                return true;
            }
        }
        false
    }

    /// Whether no two facts of the set conflict.
    fn is_consistent(&self, set: &Set) -> bool {
        for fact in 0..COUNT {
            if set[fact] && self.meets(fact, set) {
                return false;
            }
        }
        true
    }

    /// Whether the first fact is better than the second: listed, and in conflict.
    fn is_better(&self, upper: usize, lower: usize) -> bool
        requires upper { upper < COUNT }
        requires lower { lower < COUNT }
    {
        self.better[upper][lower] && self.conflict[upper][lower]
    }
}

impl Table {
    /// Whether the set is consistent, and none of the other facts can be added.
    fn is_repair(&self, set: &Set) -> bool {
        if !self.is_consistent(set) {
            return false;
        }
        for place in 0..COUNT {
            if !set[place] {
                let mut larger = *set;
                larger[place] = true;
                if self.is_consistent(&larger) {
                    return false;
                }
            }
        }
        true
    }

    /// Whether the fact is better than each fact of the set outside the other set.
    fn is_above(&self, upper: usize, other: &Set, set: &Set) -> bool
        requires known { upper < COUNT }
    {
        for lower in 0..COUNT {
            if set[lower] && !other[lower] && !self.is_better(upper, lower) {
                return false;
            }
        }
        true
    }

    /// Whether some fact of the other set outside the set is better than each fact of the set outside the other.
    fn improves(&self, other: &Set, set: &Set) -> bool {
        for upper in 0..COUNT {
            if other[upper] && !set[upper] && self.is_above(upper, other, set) {
                return true;
            }
        }
        false
    }

    /// Whether the set is a chosen repair: over all repairs any repair, and else one that no consistent set improves.
    fn is_chosen(&self, set: &Set, repairs: Repairs) -> bool {
        if !self.is_repair(set) {
            return false;
        }
        if repairs == Repairs::All {
            return true;
        }
        for number in 0..SETS {
            let other = set_of(number);
            if self.is_consistent(&other) && self.improves(&other, set) {
                return false;
            }
        }
        true
    }

    /// Whether the facts of the set entail that the individual is in `G` and in `H`.
    fn entails(&self, set: &Set) -> bool {
        meet(set, &self.in_g) && meet(set, &self.in_h)
    }

    /// Whether some fact, and with it the whole table, entails what is asked.
    pub(crate) fn has_candidate(&self) -> bool {
        self.entails(&[true; COUNT])
    }

    /// Brave, AR and IAR by the definitions.
    pub(crate) fn verdicts(&self, repairs: Repairs) -> Verdicts {
        let mut some = false;
        let mut each = true;
        let mut shared = [true; COUNT];
        for number in 0..SETS {
            let set = set_of(number);
            if self.is_chosen(&set, repairs) {
                let holds = self.entails(&set);
                some = some || holds;
                each = each && holds;
                shared = common(&shared, &set);
            }
        }
        Verdicts {
            brave: verdict_of(some),
            ar: verdict_of(each),
            iar: verdict_of(self.entails(&shared)),
        }
    }
}

/// The set of a number: its digits to the base 2.
fn set_of(number: usize) -> Set {
    let mut set = [false; COUNT];
    let mut rest = number;
    for place in 0..COUNT {
        set[place] = rest % 2 == 1;
        rest /= 2;
    }
    set
}

/// Whether the sets have a fact in common.
fn meet(first: &Set, second: &Set) -> bool {
    for place in 0..COUNT {
        if first[place] && second[place] {
            return true;
        }
    }
    false
}

/// What the sets have in common.
fn common(first: &Set, second: &Set) -> Set {
    let mut set = [false; COUNT];
    for place in 0..COUNT {
        set[place] = first[place] && second[place];
    }
    set
}

/// Yes where it holds, and else no.
fn verdict_of(holds: bool) -> Verdict {
    if holds { Verdict::Yes } else { Verdict::No }
}

/// The facts of a table.
const FACTS: &str = "A0,c\nA1,c\nA2,c\nA3,c\nA4,c\nA5,c\n";

/// What is asked of a table.
const QUERY: &str = "<- G('c'), H('c')";

/// The texts of a table that aren't the same for all.
#[derive(Drop)]
pub(crate) struct Texts {
    ontology: String,
    pairs: String,
}

impl Texts {
    /// The input.
    pub(crate) fn input(&self) -> Input<'_> {
        Input {
            ontology: self.ontology.as_str(),
            facts: FACTS,
            pairs: self.pairs.as_str(),
            query: QUERY,
        }
    }
}

impl Table {
    /// The axioms and the pairs as texts.
    pub(crate) fn texts(&self, alloc: Global) -> Result<Texts, Fail> {
        let ontology = self.ontology(alloc)?;
        let pairs = self.pairs(alloc)?;
        Ok(Texts { ontology, pairs })
    }

    /// The axioms, a line each.
    fn ontology(&self, alloc: Global) -> Result<String, Fail> {
        let mut text = String::new(alloc);
        for fact in 0..COUNT {
            if self.in_g[fact] {
                text.push_str(&format!(in alloc; "A{fact} < G\n")?)?;
            }
            if self.in_h[fact] {
                text.push_str(&format!(in alloc; "A{fact} < H\n")?)?;
            }
            self.put_conflicts(alloc, fact, &mut text)?;
        }
        Ok(text)
    }

    /// Puts the disjointnesses of the fact with those of lesser numbers behind the text.
    fn put_conflicts(&self, alloc: Global, fact: usize, text: &mut String) -> Result<(), Fail>
        requires known { fact < COUNT }
    {
        for lesser in 0..fact {
            if self.conflict[fact][lesser] {
                text.push_str(&format!(in alloc; "A{fact} < not A{lesser}\n")?)?;
            }
        }
        Ok(())
    }

    /// The pairs of facts of which the first is listed as better, by the numbers of their records.
    fn pairs(&self, alloc: Global) -> Result<String, Fail> {
        let mut text = String::new(alloc);
        for upper in 0..COUNT {
            self.put_pairs(alloc, upper, &mut text)?;
        }
        Ok(text)
    }

    /// Puts the pairs with the fact as the better one behind the text.
    fn put_pairs(&self, alloc: Global, upper: usize, text: &mut String) -> Result<(), Fail>
        requires known { upper < COUNT }
    {
        for lower in 0..COUNT {
            if self.better[upper][lower] {
                let (first, second) = (upper + 1, lower + 1);
                text.push_str(&format!(in alloc; "{first},{second}\n")?)?;
            }
        }
        Ok(())
    }
}
