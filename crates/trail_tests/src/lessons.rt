//! Falsified clauses over three variables, worked by hand.

ghost use Rattle.std.specs.Prelude.{◌≡◌, ◌≢◌, ◌<◌, OnOk, IfOk, IfSome, IfNone, true};
ghost use Rattle.clause_meaning.specs.Literals as lits;
ghost use Rattle.cdcl_trail.specs.Assigned.{IsUnassigned};
ghost use Rattle.cdcl_trail.specs.State.{empty_trail};
ghost use Rattle.cdcl_trail.specs.Fits.{Fits, IsFalsified};
ghost use Rattle.clause_learning.specs.Searching.{IsSearching};
ghost use Rattle.clause_learning.specs.Trials.{IsLong, AreLong, IsReady};

use cdcl_trail::Trail;
use clause_arena::{Arena, ClauseRef};
use clause_learning::*;
use clause_meaning::variable_of;
use cq_terms::NoMemory;
use std::alloc::Global;
use std::process::Abort;
use std::test::Fail;

/// Adds a clause of two or more literals.
fn put(arena: &mut Arena, clause: &[u32]) -> Result<(), NoMemory>
    requires long { AreLong arena.old }
    requires clause { IsLong clause.now }
    ensures { OnOk result (AreLong arena.new) }
{
    arena.push(clause)?;
    Ok(())
}

/// Adds a clause of two literals.
#[tactic(auto, using(crate::proofs::LessonsTestLemmas::long_two))]
fn put_two(rt: &impl Abort, arena: &mut Arena, a: u32, b: u32) -> Result<(), Fail>
    requires { AreLong arena.old }
    ensures { OnOk result (AreLong arena.new) }
{
    assert!(rt; variable_of(a) < 3);
    assert!(rt; variable_of(b) < 3);
    assert!(rt; variable_of(a) != variable_of(b));
    put(arena, &[a, b])?;
    Ok(())
}

/// Adds a clause of three literals.
#[tactic(auto, using(crate::proofs::LessonsTestLemmas::long_three))]
fn put_three(rt: &impl Abort, arena: &mut Arena, a: u32, b: u32, c: u32) -> Result<(), Fail>
    requires { AreLong arena.old }
    ensures { OnOk result (AreLong arena.new) }
{
    assert!(rt; variable_of(a) < 3);
    assert!(rt; variable_of(b) < 3);
    assert!(rt; variable_of(c) < 3);
    assert!(rt; variable_of(a) != variable_of(b));
    assert!(rt; variable_of(a) != variable_of(c));
    assert!(rt; variable_of(b) != variable_of(c));
    put(arena, &[a, b, c])?;
    Ok(())
}

/// Begins a search over the three variables.
#[tactic(auto, using(crate::proofs::TrailsTestLemmas::differ_three, crate::proofs::TrailsTestLemmas::in_range_three))]
fn begin(trail: &mut Trail, arena: &Arena) -> bool
    requires long { AreLong arena.now }
    requires fits { Fits trail.old arena.now }
    requires empty { trail.old ≡ empty_trail 3 }
    ensures { result ≡ true → IsReady trail.new arena.now }
{
    trail.focus(&[0, 1, 2]);
    match trail.propagate(arena) {
        None => true,
        Some(_) => false,
    }
}

/// Decides a literal and propagates.
fn guess(trail: &mut Trail, arena: &Arena, literal: u32) -> Option<ClauseRef>
    requires ready { IsReady trail.old arena.now }
    requires in_range { lits.variable_of literal < 3 }
    requires unassigned { IsUnassigned trail.old.entries (lits.variable_of literal) }

    ensures none { IfNone result (IsReady trail.new arena.now) }
    ensures falsified { IfSome result (IsFalsified trail.new arena.now) }
    ensures searching { IsSearching trail.new arena.now }
    ensures guessed { 0 < trail.new.level }
{
    trail.decide(literal);
    trail.propagate(arena)
}

/// Decides a literal that is unassigned.
fn try_guess(rt: &impl Abort, trail: &mut Trail, arena: &Arena, literal: u32) -> Option<ClauseRef>
    requires { IsReady trail.old arena.now }

    ensures none { IfNone result (IsReady trail.new arena.now) }
    ensures falsified { IfSome result (IsFalsified trail.new arena.now) }
    ensures searching { IsSearching trail.new arena.now }
    ensures guessed { 0 < trail.new.level }
{
    assert!(rt; variable_of(literal) < 3);
    assert!(rt; arena.variables() == 3);
    match trail.value(literal) {
        Some(_) => panic!(rt; "it is assigned"),
        None => guess(trail, arena, literal),
    }
}

/// Decides a literal that falsifies no clause.
fn pass(rt: &impl Abort, trail: &mut Trail, arena: &Arena, literal: u32)
    requires { IsReady trail.old arena.now }
    ensures { IsReady trail.new arena.now }
{
    match try_guess(rt, trail, arena, literal) {
        Some(_) => panic!(rt; "a falsified clause"),
        None => {}
    }
}

/// What is learned from a literal that falsifies a clause.
fn learn(
    rt: &impl Abort,
    alloc: Global,
    trail: &mut Trail,
    arena: &Arena,
    literal: u32,
    marks: &mut Marks,
) -> Result<Lesson, NoMemory>
    requires ready { IsReady trail.old arena.now }
    requires marks { marks.old ≡ 3 }
    ensures { marks.new ≡ marks.old }
{
    match try_guess(rt, trail, arena, literal) {
        Some(falsified) => analyse(alloc, trail, arena, falsified, marks),
        None => panic!(rt; "no falsified clause"),
    }
}

/// An arena of three variables with no clause.
fn no_clause(alloc: Global) -> Result<Arena, NoMemory>
    ensures { IfOk result (λ arena. AreLong arena) }
{
    let arena = Arena::new(alloc, 3)?;
    Ok(arena)
}

/// Variables 0 and 1 in each of the four ways.
fn both_ways(rt: &impl Abort, alloc: Global) -> Result<Arena, Fail>
    ensures { IfOk result (λ arena. AreLong arena) }
{
    let mut arena = no_clause(alloc)?;
    put_two(rt, &mut arena, 0, 2)?;
    put_two(rt, &mut arena, 0, 3)?;
    put_two(rt, &mut arena, 1, 2)?;
    put_two(rt, &mut arena, 1, 3)?;
    Ok(arena)
}

/// Where variables 0 and 1 are present, variable 2 has both values.
fn a_fork(rt: &impl Abort, alloc: Global) -> Result<Arena, Fail>
    ensures { IfOk result (λ arena. AreLong arena) }
{
    let mut arena = no_clause(alloc)?;
    put_three(rt, &mut arena, 1, 3, 4)?;
    put_three(rt, &mut arena, 1, 3, 5)?;
    Ok(arena)
}

/// Marks for three variables.
fn marks_of_three(alloc: Global) -> Result<Marks, NoMemory>
    ensures { IfOk result (λ marks. marks ≡ 3) }
{
    let marks = Marks::new(alloc, 3)?;
    Ok(marks)
}

/// A trail that has begun.
fn begun(rt: &impl Abort, alloc: Global, arena: &Arena) -> Result<Trail, Fail>
    requires { AreLong arena.now }
    ensures { IfOk result (λ trail. IsReady trail arena.now) }
{
    let mut trail = Trail::new(alloc, 3)?;
    assert!(rt; begin(&mut trail, arena));
    Ok(trail)
}

/// What a first literal teaches.
fn first_lesson(
    rt: &impl Abort,
    alloc: Global,
    arena: &Arena,
    marks: &mut Marks,
    literal: u32,
) -> Result<Lesson, Fail>
    requires long { AreLong arena.now }
    requires marks { marks.old ≡ 3 }
    ensures { marks.new ≡ marks.old }
{
    let mut trail = begun(rt, alloc, arena)?;
    let lesson = learn(rt, alloc, &mut trail, arena, literal, marks)?;
    Ok(lesson)
}

/// What a second literal teaches, behind a first that falsifies no clause.
fn second_lesson(
    rt: &impl Abort,
    alloc: Global,
    arena: &Arena,
    marks: &mut Marks,
    first: u32,
    second: u32,
) -> Result<Lesson, Fail>
    requires long { AreLong arena.now }
    requires marks { marks.old ≡ 3 }
    ensures { marks.new ≡ marks.old }
{
    let mut trail = begun(rt, alloc, arena)?;
    pass(rt, &mut trail, arena, first);
    let lesson = learn(rt, alloc, &mut trail, arena, second, marks)?;
    Ok(lesson)
}

/// The lesson is that not both variables are present, and goes back to level 1.
fn is_that_of_the_fork(rt: &impl Abort, lesson: &Lesson) {
    assert!(rt; lesson.literals.len() == 2);
    assert!(rt; lesson.literals.contains(&1));
    assert!(rt; lesson.literals.contains(&3));
    assert!(rt; lesson.asserting == 3);
    assert!(rt; lesson.back == 1);
}

/// Both values of variable 1 clash where variable 0 is absent.
#[test]
fn a_unit_clause_is_learned(rt: HostRuntime) -> Result<(), Fail> {
    let arena = both_ways(&rt, rt.alloc())?;
    let mut marks = marks_of_three(rt.alloc())?;
    let lesson = first_lesson(&rt, rt.alloc(), &arena, &mut marks, 1)?;
    assert!(rt; lesson.literals.as_slice() == [0].as_slice());
    assert!(rt; lesson.asserting == 0);
    assert!(rt; lesson.back == 0);
    Ok(())
}

/// Variables 0 and 1 are not both present, since variable 2 would have both values.
#[test]
fn a_clause_of_two_levels_is_learned(rt: HostRuntime) -> Result<(), Fail> {
    let arena = a_fork(&rt, rt.alloc())?;
    let mut marks = marks_of_three(rt.alloc())?;
    let lesson = second_lesson(&rt, rt.alloc(), &arena, &mut marks, 0, 2)?;
    is_that_of_the_fork(&rt, &lesson);
    Ok(())
}

/// The same falsified clause teaches the same with marks that served before.
#[test]
fn marks_serve_again(rt: HostRuntime) -> Result<(), Fail> {
    let arena = a_fork(&rt, rt.alloc())?;
    let mut marks = marks_of_three(rt.alloc())?;
    let first = second_lesson(&rt, rt.alloc(), &arena, &mut marks, 0, 2)?;
    is_that_of_the_fork(&rt, &first);
    let second = second_lesson(&rt, rt.alloc(), &arena, &mut marks, 0, 2)?;
    is_that_of_the_fork(&rt, &second);
    Ok(())
}
