//! Which variable is guessed next: the focus, a count and a last value for each variable, and activities.

ghost use Rattle.std.specs.Prelude.{◌≡◌, ◌<◌, ◌+◌, ◌-◌, ◌^◌, ◌↔◌, All, IsTrue, IfOk, IfSome, slice_index, slice_index_or, slice_set, false};
ghost use Rattle.clause_meaning.specs.Literals.{variable_of, is_present};
ghost use Rattle.cdcl_trail.specs.Choices.{no_choices, with_count, DifferInPairs, IsOpen, IsPick, Improves};

use crate::assignment::Assignment;
use clause_meaning::{is_present, variable_of};
use cq_terms::NoMemory;
use std::alloc::Global;
use std::marker::Model;

/// What a guess goes by. A variable's activity is the number of the latest bump that it had, so that the one bumped last is
/// preferred (the variable that moves to the front, Ryan 2004; compared by Biere and Fröhlich 2015).
#[derive(Drop)]
pub struct Branching {
    variables: u32,
    focus: Vec<u32>,
    counts: Vec<u64>,
    lasts: Vec<bool>,
    activities: Vec<u64>,
    bumps: u64,
}

impl Model for Branching {
    ghost use Rattle.cdcl_trail.specs.Choices.{Choices};

    ghost Value = { Choices };

    ghost use Rattle.cdcl_trail.specs.Scores.{shown, IsKept};

    ghost view = { shown };

    ghost invariant = { IsKept };
}

impl Branching {
    /// No focus, each count 0, each last value false. It takes the room for a focus of all variables.
    pub fn new(alloc: Global, variables: u32) -> Result<Branching, NoMemory>
        ensures { IfOk result (λ branching. branching ≡ no_choices variables) }
    {
        let room = variables as usize;
        Ok(Branching {
            variables,
            focus: Vec::with_capacity(alloc, room)?,
            counts: vec![in alloc; 0; room]?,
            lasts: vec![in alloc; false; room]?,
            activities: vec![in alloc; 0; room]?,
            bumps: 0,
        })
    }

    /// The value that the variable had last.
    pub fn last(&self, variable: u32) -> bool
        requires { variable < self.now.variables }
        ensures { result ≡ slice_index_or self.now.lasts variable false }
    {
        self.lasts[variable as usize]
    }

    /// Keeps the value that a literal gives its variable.
    pub fn remember(&mut self, literal: u32)
        requires { variable_of literal < self.old.variables }
        ensures exact { self.new ≡ record self.old { lasts = slice_set self.old.lasts (variable_of literal) (is_present literal) } }
        ensures held { slice_index_or self.new.lasts (variable_of literal) false ≡ is_present literal }
    {
        self.lasts[variable_of(literal) as usize] = is_present(literal);
    }

    /// Sets the focus. It takes no memory.
    pub fn focus(&mut self, variables: &[u32])
        requires distinct { DifferInPairs variables.now }
        requires in_range { All (λ v. v < self.old.variables) variables.now }
        ensures { self.new ≡ record self.old { focus = variables.now } }
    {
        self.focus.clear();
        match self.focus.extend_from_slice(variables) {
            Ok(()) => {}
            Err(_) => unreachable!(),
        }
    }

    /// Raises the count of a variable.
    pub fn occur(&mut self, variable: u32)
        requires in_range { variable < self.old.variables }
        requires room { slice_index self.old.counts variable < 2 ^ 64 - 1 }
        ensures exact { self.new ≡ with_count self.old variable (slice_index self.old.counts variable + 1) }
        ensures raised { slice_index self.new.counts variable ≡ slice_index self.old.counts variable + 1 }
    {
        self.counts[variable as usize] += 1;
    }

    /// Lowers the count of a variable.
    pub fn vanish(&mut self, variable: u32)
        requires in_range { variable < self.old.variables }
        requires counted { 0 < slice_index self.old.counts variable }
        ensures { self.new ≡ with_count self.old variable (slice_index self.old.counts variable - 1) }
    {
        self.counts[variable as usize] -= 1;
    }

    /// Makes the variable the one that was bumped last.
    pub fn bump(&mut self, variable: u32)
        requires { variable < self.old.variables }
        ensures { self.new ≡ self.old }
    {
        self.bumps = self.bumps.saturating_add(1);
        self.activities[variable as usize] = self.bumps;
    }

    /// An open variable of the focus, the one that was bumped last.
    pub fn pick(&self, assigned: &Assignment) -> Option<u32>
        requires { assigned.now.variables ≡ self.now.variables }
        ensures { IsPick (IsOpen assigned.now.entries self.now.counts) self.now.focus result }
    {
        best_of(self, assigned, self.focus.as_slice())
    }

    /// Whether the variable is unassigned and has a count.
    fn is_open(&self, assigned: &Assignment, variable: u32) -> bool
        requires in_range { variable < self.now.variables }
        requires same { assigned.now.variables ≡ self.now.variables }
        ensures { IsTrue result ↔ IsOpen assigned.now.entries self.now.counts variable }
    {
        if self.counts[variable as usize] == 0 {
            return false;
        }
        match assigned.entry(variable) {
            Some(_) => false,
            None => true,
        }
    }

    /// The better one of the choice so far and another variable.
    fn better(&self, assigned: &Assignment, best: Option<u32>, variable: u32) -> Option<u32>
        requires in_range { variable < self.now.variables }
        requires same { assigned.now.variables ≡ self.now.variables }
        requires best { IfSome best (λ v. v < self.now.variables) }
        ensures { Improves (IsOpen assigned.now.entries self.now.counts) best variable result }
    {
        if !self.is_open(assigned, variable) {
            return best;
        }
        match best {
            None => Some(variable),
            Some(other) => {
                if self.activities[other as usize] < self.activities[variable as usize] {
                    Some(variable)
                } else {
                    Some(other)
                }
            }
        }
    }
}

/// The best open variable of those given.
fn best_of(branching: &Branching, assigned: &Assignment, variables: &[u32]) -> Option<u32>
    requires same { assigned.now.variables ≡ branching.now.variables }
    requires in_range { All (λ v. v < branching.now.variables) variables.now }
    ensures { IsPick (IsOpen assigned.now.entries branching.now.counts) variables.now result }
{
    let mut best = None;
    for variable in variables {
        best = branching.better(assigned, best, *variable);
    }
    best
}
