//! Two or three variables, worked by hand.

ghost use Rattle.std.specs.Prelude.{◌≡◌, ◌<◌, ◌≤◌, ◌∷◌, [], OnOk, length};
ghost use Rattle.clause_meaning.specs.Literals as literals;
ghost use Rattle.cdcl_trail.specs.Assigned.{IsUnassigned};
ghost use Rattle.cdcl_trail.specs.Fits.{Fits};
ghost use Rattle.cdcl_trail.specs.State.{empty_trail};

use cdcl_trail::*;
use clause_arena::{Arena, ClauseRef};
use clause_meaning::variable_of;
use std::process::Abort;
use std::test::Fail;

/// Adds a clause of two literals.
#[tactic(auto, using(clause_meaning::proofs::FewLiterals::distinct_two, clause_meaning::proofs::FewLiterals::below_two))]
fn put(rt: &impl Abort, arena: &mut Arena, a: u32, b: u32) -> Result<ClauseRef, Fail>
    ensures { OnOk result (arena.new.variables ≡ arena.old.variables) }
{
    assert!(rt; variable_of(a) < arena.variables());
    assert!(rt; variable_of(b) < arena.variables());
    assert!(rt; variable_of(a) != variable_of(b));
    let clause = arena.push(&[a, b])?;
    Ok(clause)
}

/// Decides a literal and propagates.
fn decide(trail: &mut Trail, arena: &Arena, literal: u32) -> Option<ClauseRef>
    requires in_range { literals.variable_of literal < trail.old.variables }
    requires unassigned { IsUnassigned trail.old.entries (literals.variable_of literal) }
    requires fits { Fits trail.old arena.now }
    requires settled { trail.old.settled ≡ length trail.old.entries }
    ensures fits { Fits trail.new arena.now }
{
    trail.decide(literal);
    trail.propagate(arena)
}

/// Fixes a literal and propagates.
fn fix(trail: &mut Trail, arena: &Arena, literal: u32) -> Option<ClauseRef>
    requires in_range { literals.variable_of literal < trail.old.variables }
    requires unassigned { IsUnassigned trail.old.entries (literals.variable_of literal) }
    requires fits { Fits trail.old arena.now }
    ensures fits { Fits trail.new arena.now }
{
    trail.fix(literal);
    trail.propagate(arena)
}

/// Goes back to a level.
fn back(trail: &mut Trail, arena: &Arena, level: u32)
    requires reached { level ≤ trail.old.level }
    requires fits { Fits trail.old arena.now }
    ensures { Fits trail.new arena.now }
{
    trail.backjump(level);
}

/// Decides a literal that is unassigned.
fn try_decide(rt: &impl Abort, trail: &mut Trail, arena: &Arena, literal: u32) -> Option<ClauseRef>
    requires fits { Fits trail.old arena.now }
    requires settled { trail.old.settled ≡ length trail.old.entries }
    ensures fits { Fits trail.new arena.now }
{
    assert!(rt; variable_of(literal) < arena.variables());
    match trail.value(literal) {
        Some(_) => panic!(rt; "it is assigned"),
        None => decide(trail, arena, literal),
    }
}

/// Fixes a literal that is unassigned.
fn try_fix(rt: &impl Abort, trail: &mut Trail, arena: &Arena, literal: u32) -> Option<ClauseRef>
    requires { Fits trail.old arena.now }
    ensures { Fits trail.new arena.now }
{
    assert!(rt; variable_of(literal) < arena.variables());
    match trail.value(literal) {
        Some(_) => panic!(rt; "it is assigned"),
        None => fix(trail, arena, literal),
    }
}

/// Goes back to a level that is not above the current one.
fn try_back(rt: &impl Abort, trail: &mut Trail, arena: &Arena, level: u32)
    requires { Fits trail.old arena.now }
    ensures { Fits trail.new arena.now }
{
    assert!(rt; level <= trail.level());
    back(trail, arena, level);
}

/// What the trail says of a literal.
fn value(rt: &impl Abort, trail: &Trail, arena: &Arena, literal: u32) -> Option<bool>
    requires { Fits trail.now arena.now }
{
    assert!(rt; variable_of(literal) < arena.variables());
    trail.value(literal)
}

/// The reason of a variable.
fn reason(rt: &impl Abort, trail: &Trail, arena: &Arena, variable: u32) -> Option<ClauseRef>
    requires { Fits trail.now arena.now }
{
    assert!(rt; variable < arena.variables());
    trail.reason(variable)
}

/// The level of a literal that is true.
fn level_of_true(rt: &impl Abort, trail: &Trail, arena: &Arena, literal: u32) -> u32
    requires { Fits trail.now arena.now }
{
    assert!(rt; variable_of(literal) < arena.variables());
    match trail.value(literal) {
        Some(true) => trail.level_of(variable_of(literal)),
        _ => panic!(rt; "it is not true"),
    }
}

/// Variable 0 present makes variable 1 present; a backjump takes both back.
#[test]
fn a_clause_forces_a_literal(rt: HostRuntime) -> Result<(), Fail> {
    let mut arena = Arena::new(rt.alloc(), 2)?;
    let clause = put(&rt, &mut arena, 1, 2)?;
    let mut trail = Trail::new(rt.alloc(), 2)?;
    assert!(rt; try_decide(&rt, &mut trail, &arena, 0).is_none());
    assert!(rt; trail.literals() == [0, 2].as_slice());
    assert!(rt; trail.level() == 1);
    assert!(rt; reason(&rt, &trail, &arena, 0).is_none());
    assert!(rt; reason(&rt, &trail, &arena, 1) == Some(clause));
    assert!(rt; level_of_true(&rt, &trail, &arena, 2) == 1);
    assert!(rt; value(&rt, &trail, &arena, 3) == Some(false));
    try_back(&rt, &mut trail, &arena, 0);
    assert!(rt; value(&rt, &trail, &arena, 2).is_none());
    assert!(rt; try_fix(&rt, &mut trail, &arena, 3).is_none());
    assert!(rt; trail.literals() == [3, 1].as_slice());
    trail.clear();
    assert!(rt; trail.literals().is_empty());
    Ok(())
}

/// Variable 0 present makes variable 1 both.
#[test]
fn a_falsified_clause_is_named(rt: HostRuntime) -> Result<(), Fail> {
    let mut arena = Arena::new(rt.alloc(), 2)?;
    put(&rt, &mut arena, 1, 2)?;
    let second = put(&rt, &mut arena, 1, 3)?;
    let mut trail = Trail::new(rt.alloc(), 2)?;
    assert!(rt; try_decide(&rt, &mut trail, &arena, 0) == Some(second));
    Ok(())
}

/// Three variables in the focus, of which the first and the last have a count.
#[tactic(auto, using(crate::proofs::TrailsTestLemmas::differ_three, crate::proofs::TrailsTestLemmas::in_range_three))]
fn count_two(trail: &mut Trail)
    requires { trail.old ≡ empty_trail 3 }
    ensures { trail.new ≡ record (empty_trail 3) { focus = 0 ∷ 1 ∷ 2 ∷ []; counts = 1 ∷ 0 ∷ 1 ∷ [] } }
{
    trail.focus(&[0, 1, 2]);
    trail.occur(0);
    trail.occur(2);
}

/// Fixes a literal of an unassigned variable.
fn assign(rt: &impl Abort, trail: &mut Trail, literal: u32)
    requires { trail.old.variables ≡ 3 }
    ensures variables { trail.new.variables ≡ 3 }
    ensures counts { trail.new.counts ≡ trail.old.counts }
{
    assert!(rt; variable_of(literal) < 3);
    match trail.value(literal) {
        Some(_) => panic!(rt; "it is assigned"),
        None => trail.fix(literal),
    }
}

/// The latest bump is preferred; assigned variables, and those without a count, are passed over. Last values stay.
#[test]
fn the_latest_bump_is_preferred(rt: HostRuntime) -> Result<(), Fail> {
    let mut trail = Trail::new(rt.alloc(), 3)?;
    assert!(rt; trail.pick().is_none());
    count_two(&mut trail);
    trail.bump(2);
    trail.bump(0);
    assert!(rt; trail.pick() == Some(0));
    trail.bump(2);
    assert!(rt; trail.pick() == Some(2));
    assign(&rt, &mut trail, 4);
    assert!(rt; trail.pick() == Some(0));
    assign(&rt, &mut trail, 1);
    assert!(rt; trail.pick().is_none());
    trail.clear();
    assert!(rt; trail.pick() == Some(2));
    assert!(rt; trail.last(2) && !trail.last(0));
    trail.vanish(2);
    assert!(rt; trail.pick() == Some(0));
    Ok(())
}
