//! The steps of a search over a trail and the clauses of its focus: begin, propagate, take the next assumption, guess, go back.

ghost use Rattle.std.specs.Prelude.{◌≡◌, ◌<◌, ◌≤◌, ◌+◌, ◌^◌, min, ℕ, List, true, false, All, IfOk, length};
ghost use Rattle.std.specs.List.Sorted.{IsSorted};
ghost use Rattle.std.specs.Ordering.{nat_cmp};
ghost use Rattle.clause_meaning.specs.Literals.{variable_of, AreBelow};
ghost use Rattle.clause_meaning.specs.Refutation.{Refutes};
ghost use Rattle.clause_meaning.specs.Assignments.{IsInside, Separates};
ghost use Rattle.clause_arena.specs.State.{State as Arena, LiveIn, IsLive, Names};
ghost use Rattle.cdcl_trail.specs.Fits.{Fits, IsComplete, IsFalsified};
ghost use Rattle.cdcl_trail.specs.Choices.{DifferInPairs};
ghost use Rattle.clause_meaning.specs.Learning.{is_in, Nothing};
ghost use Rattle.clause_learning.specs.Searching.{Searched, IsProper, IsSearching, UnitsStand};
ghost use Rattle.clause_learning.specs.Lessons.{IsLesson};
ghost use Rattle.cdcl_trail.specs.State.{State as Trail};
ghost use Rattle.cdcl_core.specs.Store.{AreCounted, OnlyCounts};
ghost use Rattle.cdcl_core.specs.Seeking.{Seeks, IsSameQuestion, Fixes, Begins, StandsAt, Extends, Asks, Guesses, Steps, Stops, IsAfter};

use cdcl_trail::Trail;
use clause_arena::{Arena, ClauseRef};
use clause_learning::{Lesson, Marks, analyse};
use clause_meaning::{literal_of, variable_of};
use cq_terms::NoMemory;
use std::alloc::Global;

/// What stands in the way of the assumptions.
#[derive(Clone, Copy)]
pub enum Asked {
    /// Each is true.
    AreTrue,
    /// This one is false.
    IsFalse(u32),
    /// This one is unassigned.
    IsOpen(u32),
}

/// What a step after complete propagation did.
#[derive(Clone, Copy)]
pub enum Step {
    /// An assumption is false.
    Refuted,
    /// Each clause of the focus is satisfied.
    Model,
    /// A literal was assigned, and this is the level of the last assumption.
    Goes(u32),
}

/// Where a search stops.
#[derive(Clone, Copy)]
pub enum Stop {
    /// The assumptions are refuted.
    Refuted,
    /// The values are a model.
    Model,
    /// The clause is false, and a literal above the level of the last assumption was guessed.
    Falsified(ClauseRef, u32),
}

/// Fixes the literal of a unit clause, unless it is assigned. It answers whether it is true then.
fn fix_one(trail: &mut Trail, literal: u32) -> bool
    requires in_range { variable_of literal < trail.old.variables }

    ensures fixes { Fixes trail.old trail.new literal result }
    ensures fits { (arena : Arena) → Fits trail.old arena → Fits trail.new arena }
{
    match trail.value(literal) {
        Some(value) => value,
        None => {
            trail.fix(literal);
            true
        }
    }
}

/// Fixes the literal of the clause, where it is a unit clause of the scope. It answers whether that leads to no clash.
fn fix_unit(trail: &mut Trail, arena: &Arena, scope: &[u32], clause: ClauseRef) -> bool
    requires begins { Begins trail.old arena.now }
    requires scope { trail.old.focus ≡ scope.now }
    requires live { IsLive arena.now clause.place }

    ensures begins { Begins trail.new arena.now }
    ensures same { IsSameQuestion trail.old trail.new }
    ensures extends { Extends trail.old trail.new }
    ensures stands { result ≡ true → (literals : List ℕ) → Names arena.now clause.place literals → StandsAt trail.new literals }
    ensures refuted { result ≡ false → Refutes (Searched trail.new arena.now) Nothing }
{
    let literals = arena.view(clause);
    if literals.len() != 1 {
        return true;
    }
    let literal = literals[0];
    if !scope.contains(&variable_of(literal)) {
        return true;
    }
    fix_one(trail, literal)
}

/// Fixes the units of the scope. It answers whether that leads to no clash.
fn fix_units(trail: &mut Trail, arena: &Arena, scope: &[u32]) -> bool
    requires begins { Begins trail.old arena.now }
    requires scope { trail.old.focus ≡ scope.now }

    ensures begins { Begins trail.new arena.now }
    ensures same { IsSameQuestion trail.old trail.new }
    ensures stand { result ≡ true → UnitsStand (Searched trail.new arena.now) trail.new.entries }
    ensures refuted { result ≡ false → Refutes (Searched trail.new arena.now) Nothing }
{
    let mut at = arena.first();
    while let Some(clause) = at {
        if !fix_unit(trail, arena, scope, clause) {
            return false;
        }
        at = arena.next(clause);
    }
    true
}

/// Begins a search for values of the scope. It answers whether the units of the scope lead to no clash.
pub fn begin(trail: &mut Trail, arena: &Arena, scope: &[u32]) -> bool
    requires same_variables { arena.now.variables ≡ trail.old.variables }
    requires distinct { DifferInPairs scope.now }
    requires in_range { All (λ v. v < trail.old.variables) scope.now }
    requires proper { (clause : List ℕ) → LiveIn arena.now clause → IsProper clause }
    requires separates { Separates (is_in scope.now) (LiveIn arena.now) }
    requires counted { AreCounted trail.old arena.now.live }

    ensures focus { trail.new.focus ≡ scope.now }
    ensures variables { trail.new.variables ≡ trail.old.variables }
    ensures counts { trail.new.counts ≡ trail.old.counts }
    ensures seeks { result ≡ true → (assume : List ℕ) → IsInside (is_in scope.now) assume → Seeks assume trail.new arena.now 0 }
    ensures refuted { result ≡ false → Refutes (Searched trail.new arena.now) Nothing }
{
    trail.clear();
    trail.focus(scope);
    fix_units(trail, arena, scope)
}

/// Looks for the first assumption that isn't true.
fn ask(trail: &Trail, assume: &[u32]) -> Asked
    requires in_range { AreBelow trail.now.variables assume.now }

    ensures { Asks trail.now.entries assume.now result }
{
    for literal in assume {
        match trail.value(*literal) {
            Some(true) => {}
            Some(false) => return Asked::IsFalse(*literal),
            None => return Asked::IsOpen(*literal),
        }
    }
    Asked::AreTrue
}

/// Guesses a literal of the focus, where one is open: its variable gets the value that it had last.
fn guess(trail: &mut Trail) -> bool
    requires few { trail.old.variables ≤ 2 ^ 31 }
    requires in_range { All (λ v. v < trail.old.variables) trail.old.focus }
    requires settled { trail.old.settled ≡ length trail.old.entries }

    ensures guesses { Guesses trail.old trail.new result }
    ensures fits { (arena : Arena) → Fits trail.old arena → Fits trail.new arena }
{
    match trail.pick() {
        None => false,
        Some(variable) => {
            trail.decide(literal_of(variable, trail.last(variable)));
            true
        }
    }
}

/// Takes the next assumption, or guesses, where propagation is complete.
fn take_step(trail: &mut Trail, arena: &Arena, assume: &[u32], assumed: u32) -> Step
    requires few { trail.old.variables ≤ 2 ^ 31 }
    requires seeks { Seeks assume.now trail.old arena.now assumed }
    requires complete { IsComplete trail.old arena.now }
    requires settled { trail.old.settled ≡ length trail.old.entries }

    ensures steps { Steps assume.now trail.old trail.new arena.now result }
    ensures same { IsSameQuestion trail.old trail.new }
{
    match ask(trail, assume) {
        Asked::IsFalse(_) => Step::Refuted,
        Asked::IsOpen(literal) => {
            trail.decide(literal);
            Step::Goes(trail.level())
        }
        Asked::AreTrue => {
            if guess(trail) {
                Step::Goes(assumed)
            } else {
                Step::Model
            }
        }
    }
}

/// Where a falsified clause leaves the search: the assumptions are refuted where each guess is one.
fn stop_at(trail: &Trail, arena: &Arena, assume: &[u32], clause: ClauseRef, assumed: u32) -> Stop
    requires seeks { Seeks assume.now trail.now arena.now assumed }
    requires falsified { IsFalsified trail.now arena.now clause }

    ensures { Stops assume.now trail.now arena.now result }
{
    let _all = assume.len();
    let _clauses = arena.variables();
    if trail.level() <= assumed {
        Stop::Refuted
    } else {
        Stop::Falsified(clause, assumed)
    }
}

/// Goes on until the search ends or a clause is falsified above the assumptions.
pub fn advance(trail: &mut Trail, arena: &Arena, assume: &[u32], assumed: u32) -> Stop
    requires few { trail.old.variables ≤ 2 ^ 31 }
    requires seeks { Seeks assume.now trail.old arena.now assumed }

    ensures stops { Stops assume.now trail.new arena.now result }
    ensures same { IsSameQuestion trail.old trail.new }
{
    let mut assumed = assumed;
    loop {
        if let Some(clause) = trail.propagate(arena) {
            return stop_at(trail, arena, assume, clause, assumed);
        }
        match take_step(trail, arena, assume, assumed) {
            Step::Refuted => return Stop::Refuted,
            Step::Model => return Stop::Model,
            Step::Goes(level) => assumed = level,
        }
    }
}

/// What a falsified clause teaches, by its ascending literals.
pub fn lesson_of(
    alloc: Global,
    trail: &Trail,
    arena: &Arena,
    falsified: ClauseRef,
    marks: &mut Marks,
) -> Result<Lesson, NoMemory>
    requires searching { IsSearching trail.now arena.now }
    requires falsified { IsFalsified trail.now arena.now falsified }
    requires guessed { 0 < trail.now.level }
    requires marks { marks.old ≡ trail.now.variables }

    ensures exact { IfOk result (λ lesson. IsLesson (Searched trail.now arena.now) trail.now
        lesson.literals.items lesson.asserting lesson.back) }
    ensures ascending { IfOk result (λ lesson. IsSorted nat_cmp lesson.literals.items) }
    ensures marks { marks.new ≡ marks.old }
{
    let mut lesson = analyse(alloc, trail, arena, falsified, marks)?;
    lesson.literals.sort_unstable();
    Ok(lesson)
}

/// Prefers the variables of a lesson from then on.
pub fn prefer(trail: &mut Trail, literals: &[u32])
    requires in_range { AreBelow trail.old.variables literals.now }

    ensures stays { trail.new ≡ trail.old }
{
    for literal in literals {
        trail.bump(variable_of(*literal));
    }
}

/// Goes back to the level of a lesson, whose clause is live now, and assigns the literal that it asserts.
pub fn assert_lesson(trail: &mut Trail, arena: &Arena, clause: ClauseRef, lesson: &Lesson)
    requires in_range { variable_of lesson.now.asserting < trail.old.variables }
    requires after { (before : Arena)
        × IsAfter before trail.old arena.now clause lesson.now.literals.items lesson.now.asserting lesson.now.back }

    ensures seeks { (before : Arena) (was : Trail) (assume : List ℕ) (assumed : ℕ) → Seeks assume was before assumed
        → OnlyCounts was trail.old
        → IsAfter before trail.old arena.now clause lesson.now.literals.items lesson.now.asserting lesson.now.back
        → AreCounted trail.old arena.now.live → Seeks assume trail.new arena.now (min assumed lesson.now.back) }
    ensures same { IsSameQuestion trail.old trail.new }
    ensures level { trail.new.level ≡ lesson.now.back }
{
    let _clauses = arena.variables();
    trail.backjump(lesson.back);
    if lesson.literals.len() == 1 {
        trail.fix(lesson.asserting);
    } else {
        trail.force(lesson.asserting, clause);
    }
}
