//! What the chosen repairs of a table say of each candidate answer.

use crate::atoms::{Atom, Axiom};
use crate::chase::{Chase, ChaseFault};
use crate::matching::{Query, Tuple};
use crate::repairs::{Family, MOST_FACTS, Mode, Set, common, members};
use std::alloc::Global;

/// That one fact is preferred to another, by their places.
#[derive(Clone, Copy, Debug, PartialEq, Eq)]
pub struct Preferred {
    pub upper: usize,
    pub lower: usize,
}

/// Facts that are distinct, over the individuals below a number; axioms; and which facts are preferred to which.
#[derive(Drop)]
pub struct Table {
    pub individuals: usize,
    pub facts: Vec<Atom>,
    pub axioms: Vec<Axiom>,
    pub pairs: Vec<Preferred>,
}

/// A candidate with its verdicts: whether some chosen repair entails it, each does, and what they have in common does.
#[derive(Clone, Copy, Debug, PartialEq, Eq)]
pub struct Judged {
    pub tuple: Tuple,
    pub brave: bool,
    pub ar: bool,
    pub iar: bool,
}

/// The verdicts on an input, how many pairs of its facts are in conflict, and which facts are better than which: preferred, and in
/// conflict.
#[derive(Drop)]
pub struct Judgement {
    pub conflicts: usize,
    pub better: Vec<Preferred>,
    pub outcome: Outcome,
}

/// What is said of an input.
#[derive(Drop)]
pub enum Outcome {
    /// Some facts are each better than the next, and the last than the first. Of all repairs this is never said.
    Cycle,
    /// All candidates in lexicographic order, with their verdicts.
    Answers(Vec<Judged>),
}

/// A table and a query, with the depth of nulls that serves.
#[derive(Clone, Copy)]
struct Question<'a> {
    table: &'a Table,
    query: &'a Query,
    depth: usize,
}

impl Question<'_> {
    /// The tuples that the facts entail.
    fn answers(&self, alloc: Global, facts: &[Atom]) -> Result<Vec<Tuple>, ChaseFault> {
        let individuals = self.table.individuals;
        let chase = Chase::of(alloc, individuals, facts, &self.table.axioms, self.depth)?;
        chase.answers(alloc, self.query)
    }

    /// The tuples that the facts of the set entail.
    fn answers_of(&self, alloc: Global, set: &Set) -> Result<Vec<Tuple>, ChaseFault> {
        let members = members(alloc, &self.table.facts, set)?;
        self.answers(alloc, &members)
    }

    /// The candidates, as if all were yes.
    fn candidates(&self, alloc: Global) -> Result<Vec<Judged>, ChaseFault> {
        let mut judged = Vec::new(alloc);
        for tuple in &self.answers(alloc, &self.table.facts)? {
            judged.push(Judged {
                tuple: *tuple,
                brave: false,
                ar: true,
                iar: false,
            })?;
        }
        Ok(judged)
    }
}

impl Question<'_> {
    /// The candidates with what the chosen repairs say of them.
    fn judged(&self, alloc: Global, chosen: &[Set]) -> Result<Vec<Judged>, ChaseFault> {
        let mut judged = self.candidates(alloc)?;
        let mut shared = [true; MOST_FACTS];
        for set in chosen {
            mark_repair(&mut judged, &self.answers_of(alloc, set)?);
            shared = common(&shared, set);
        }
        mark_shared(&mut judged, &self.answers_of(alloc, &shared)?);
        Ok(judged)
    }
}

/// Takes over which tuples a chosen repair entails.
fn mark_repair(judged: &mut [Judged], entailed: &[Tuple]) {
    for place in 0..judged.len() {
        let holds = entailed.contains(&judged[place].tuple);
        judged[place].brave = judged[place].brave || holds;
        judged[place].ar = judged[place].ar && holds;
    }
}

/// Takes over which tuples the facts in all chosen repairs entail.
fn mark_shared(judged: &mut [Judged], entailed: &[Tuple]) {
    for place in 0..judged.len() {
        judged[place].iar = entailed.contains(&judged[place].tuple);
    }
}

/// What the definitions say of the query over the table: the whole table's answers under the positive axioms, and for each whether
/// some chosen repair entails it, each does, and the facts that lie in all of them do.
pub fn judge(
    alloc: Global,
    table: &Table,
    query: &Query,
    mode: Mode,
) -> Result<Judgement, ChaseFault> {
    let family = Family::of(alloc, table)?;
    let conflicts = family.conflicts();
    let better = family.better(alloc)?;
    if mode == Mode::Pareto && family.has_cycle() {
        return Ok(Judgement {
            conflicts,
            better,
            outcome: Outcome::Cycle,
        });
    }
    let question = Question {
        table,
        query,
        depth: query.depth(alloc, &table.axioms)?,
    };
    let chosen = family.chosen(alloc, mode)?;
    let outcome = Outcome::Answers(question.judged(alloc, &chosen)?);
    Ok(Judgement {
        conflicts,
        better,
        outcome,
    })
}
