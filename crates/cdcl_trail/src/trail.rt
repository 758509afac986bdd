//! The trail: literals are added at its end, each with its level and its reason, and a backjump cuts it off.

ghost use Rattle.std.specs.Prelude.{◌≡◌, ◌<◌, ◌≤◌, ◌+◌, ◌-◌, ◌^◌, [], Some, None, All, IfOk, IfNone, length, map};
ghost use Rattle.clause_meaning.specs.Literals.{variable_of, AreBelow};
ghost use Rattle.clause_arena.specs.State.{State as Arena};
ghost use Rattle.cdcl_trail.specs.Assigned.{IsTrueOn, IsUnassigned};
ghost use Rattle.cdcl_trail.specs.State.{empty_trail, with_entry, with_count, count_of, last_of, AreLast};

use crate::assignment::{Assignment, clear, cut};
use crate::branching::Branching;
use crate::looks::look_at;
use crate::trail_entry::TrailEntry;
use clause_arena::ClauseRef;
use clause_meaning::{Finding, variable_of};
use cq_terms::NoMemory;
use std::alloc::Global;
use std::marker::Model;

/// The assigned literals of a solver, oldest first, each with its level and its reason (Marques-Silva and Sakallah 1999). A
/// literal is pending from the call that assigns it until a `propagate` finds no falsified clause, or until it is unassigned.
#[derive(Drop)]
pub struct Trail {
    assigned: Assignment,
    branching: Branching,
    level: u32,
    settled: usize,
}

impl Model for Trail {
    ghost use Rattle.cdcl_trail.specs.State.{State};

    ghost Value = { State };

    ghost use Rattle.cdcl_trail.specs.Shown.{shown, IsKept};

    ghost view = { shown };

    ghost invariant = { IsKept };
}

impl Trail {
    ghost use Rattle.clause_meaning.specs.Resting.{Says};
    ghost use Rattle.cdcl_trail.specs.Fits.{Fits, IsReason};
    ghost use Rattle.cdcl_trail.specs.Levels.{CutsTo, last_level, RiseFrom};
    ghost use Rattle.cdcl_trail.specs.Values.{IsValue, IsAssigned, IsReasonOf, HasLevel};
    ghost use Rattle.cdcl_trail.specs.Table.{AreDistinct};
    ghost use Rattle.cdcl_trail.specs.Choices.{DifferInPairs, IsOpen, IsPick, AreAssigned};

    /// No literal is assigned, and the level is 0. It takes all the room that the trail ever needs. `NoMemory` may come at any time.
    pub fn new(alloc: Global, variables: u32) -> Result<Trail, NoMemory>
        requires few { variables ≤ 2 ^ 31 }

        ensures exact { IfOk result (λ trail. trail ≡ empty_trail variables) }

        ensures fits { (arena : Arena) → arena.variables ≡ variables → IfOk result (λ trail. Fits trail arena) }
    {
        Ok(Trail {
            assigned: Assignment::new(alloc, variables)?,
            branching: Branching::new(alloc, variables)?,
            level: 0,
            settled: 0,
        })
    }

    /// Whether the literal is true, or `None` where its variable is unassigned.
    pub fn value(&self, literal: u32) -> Option<bool>
        requires in_range { variable_of literal < self.now.variables }

        ensures exact { IsValue self.now.entries literal result }
    {
        match self.assigned.entry(variable_of(literal)) {
            Some(entry) => Some(entry.literal == literal),
            None => None,
        }
    }

    /// The current level.
    pub fn level(&self) -> u32
        ensures exact { result ≡ self.now.level }
        ensures last { self.now.level ≡ last_level 0 self.now.entries }
        ensures rise { RiseFrom 0 self.now.entries }
    {
        self.level
    }

    /// Lends the assigned literals, oldest first.
    pub fn literals(&self) -> &[u32]
        ensures lent { result.now ≡ map (λ entry. entry.literal) self.now.entries }
        ensures distinct { AreDistinct self.now.entries }
    {
        self.assigned.literals()
    }

    /// The level of an assigned variable.
    pub fn level_of(&self, variable: u32) -> u32
        requires in_range { variable < self.now.variables }
        requires assigned { IsAssigned self.now.entries variable }

        ensures exact { HasLevel self.now.entries variable result }
    {
        match self.assigned.entry(variable) {
            Some(entry) => entry.level,
            None => unreachable!(),
        }
    }

    /// The clause that forced a variable: `None` where it is unassigned, decided or from a unit clause.
    pub fn reason(&self, variable: u32) -> Option<ClauseRef>
        requires in_range { variable < self.now.variables }

        ensures exact { IsReasonOf self.now.entries variable result }
    {
        self.assigned.entry(variable)?.reason
    }

    /// Opens a level with a literal. It takes no memory, since `new` made room for every variable.
    pub fn decide(&mut self, literal: u32)
        requires in_range { variable_of literal < self.old.variables }
        requires unassigned { IsUnassigned self.old.entries (variable_of literal) }
        requires settled { self.old.settled ≡ length self.old.entries }

        ensures exact { self.new ≡ with_entry self.old (self.old.level + 1) literal None }

        ensures fits { (arena : Arena) → Fits self.old arena → Fits self.new arena }
    {
        self.assign(literal, self.level + 1, None);
    }

    /// Assigns a literal on the current level, since the clause forces it.
    pub fn force(&mut self, literal: u32, reason: ClauseRef)
        requires in_range { variable_of literal < self.old.variables }
        requires unassigned { IsUnassigned self.old.entries (variable_of literal) }

        ensures exact { self.new ≡ with_entry self.old self.old.level literal (Some reason) }

        ensures fits { (arena : Arena) → Fits self.old arena
            → IsReason arena self.old.entries literal (Some reason) → Fits self.new arena }
    {
        self.assign(literal, self.level, Some(reason));
    }

    /// Assigns the literal of a unit clause on the current level, without a reason.
    pub fn fix(&mut self, literal: u32)
        requires in_range { variable_of literal < self.old.variables }
        requires unassigned { IsUnassigned self.old.entries (variable_of literal) }

        ensures exact { self.new ≡ with_entry self.old self.old.level literal None }

        ensures fits { (arena : Arena) → Fits self.old arena → Fits self.new arena }
    {
        self.assign(literal, self.level, None);
    }

    /// Assigns a literal on the current level or the next one, which becomes the current level.
    fn assign(&mut self, literal: u32, level: u32, reason: Option<ClauseRef>)
        requires in_range { variable_of literal < self.old.variables }
        requires unassigned { IsUnassigned self.old.entries (variable_of literal) }
        requires from { self.old.level ≤ level }
        requires to { level ≤ self.old.level + 1 }

        ensures exact { self.new ≡ with_entry self.old level literal reason }
        ensures few { length self.new.entries ≤ self.new.variables }
    {
        let entry = TrailEntry {
            literal,
            level,
            reason,
        };
        self.assigned.put(entry);
        self.branching.remember(literal);
        self.level = level;
    }

    /// Unassigns what is above a level, which becomes the current one. The focus, the counts and the last values stay.
    pub fn backjump(&mut self, level: u32)
        requires reached { level ≤ self.old.level }

        ensures exact { CutsTo self.old self.new level }

        ensures fits { (arena : Arena) → Fits self.old arena → Fits self.new arena }
    {
        cut(&mut self.assigned, level);
        self.level = level;
        self.settled = self.settled.min(self.assigned.len());
    }

    /// Unassigns every variable. The level is 0, and nothing is pending. The focus, the counts and the last values stay.
    pub fn clear(&mut self)
        ensures exact { self.new ≡ record self.old { entries = []; level = 0; settled = 0 } }

        ensures fits { (arena : Arena) → arena.variables ≡ self.old.variables → Fits self.new arena }
    {
        clear(&mut self.assigned);
        self.level = 0;
        self.settled = 0;
    }

    /// The value that a variable had last, and false where it had none.
    pub fn last(&self, variable: u32) -> bool
        requires in_range { variable < self.now.variables }

        ensures exact { result ≡ last_of self.now variable }
        ensures held { AreLast self.now.entries self.now.lasts }
    {
        self.branching.last(variable)
    }

    /// Sets the variables among which `pick` looks; there are none at first. It takes no memory.
    pub fn focus(&mut self, variables: &[u32])
        requires distinct { DifferInPairs variables.now }
        requires in_range { All (λ v. v < self.old.variables) variables.now }

        ensures exact { self.new ≡ record self.old { focus = variables.now } }

        ensures fits { (arena : Arena) → Fits self.old arena → Fits self.new arena }
    {
        self.branching.focus(variables);
    }

    /// Raises the count of a variable, which is that of the clauses in which it stands.
    pub fn occur(&mut self, variable: u32)
        requires in_range { variable < self.old.variables }
        requires room { count_of self.old variable < 2 ^ 64 - 1 }

        ensures exact { self.new ≡ with_count self.old variable (count_of self.old variable + 1) }
        ensures raised { count_of self.new variable ≡ count_of self.old variable + 1 }

        ensures fits { (arena : Arena) → Fits self.old arena → Fits self.new arena }
    {
        self.branching.occur(variable);
    }

    /// Lowers the count of a variable.
    pub fn vanish(&mut self, variable: u32)
        requires in_range { variable < self.old.variables }
        requires counted { 0 < count_of self.old variable }

        ensures exact { self.new ≡ with_count self.old variable (count_of self.old variable - 1) }
        ensures lowered { count_of self.new variable + 1 ≡ count_of self.old variable }

        ensures fits { (arena : Arena) → Fits self.old arena → Fits self.new arena }
    {
        self.branching.vanish(variable);
    }

    /// A variable of the focus that is unassigned and whose count isn't 0, `None` where there is none. It prefers the one that was
    /// bumped last. It looks at each variable of the focus.
    pub fn pick(&mut self) -> Option<u32>
        ensures exact { IsPick (IsOpen self.old.entries self.old.counts) self.old.focus result }
        ensures none { IfNone result (AreAssigned self.old.entries self.old.counts self.old.focus) }
        ensures stays { self.new ≡ self.old }
    {
        self.branching.pick(&self.assigned)
    }

    /// Raises the activity of a variable above all others.
    pub fn bump(&mut self, variable: u32)
        requires in_range { variable < self.old.variables }

        ensures stays { self.new ≡ self.old }
    {
        self.branching.bump(variable);
    }

    /// Looks at one clause.
    pub(crate) fn look(&self, clause: &[u32]) -> Finding
        requires { AreBelow self.now.variables clause.now }
        ensures { Says (IsTrueOn self.now.entries) clause.now result }
    {
        look_at(&self.assigned, clause)
    }

    /// Nothing is pending any more.
    pub(crate) fn settle(&mut self)
        ensures { self.new ≡ record self.old { settled = length self.old.entries } }
    {
        self.settled = self.assigned.len();
    }
}
