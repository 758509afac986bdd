//! Resolution along the trail, from the clause that is false back to the first unique implication point.

ghost use Rattle.std.specs.Prelude.{◌≡◌, ◌<◌, ◌+◌, [], ℕ, List, Contains, IfOk, OnOk, length};
ghost use Rattle.cdcl_trail.specs.Fits.{IsFalsified};
ghost use Rattle.cdcl_trail.specs.Table.{AreDistinct};
ghost use Rattle.clause_learning.specs.Searching.{IsSearching, Searched};
ghost use Rattle.clause_learning.specs.Lessons.{IsLesson};
ghost use Rattle.clause_learning.specs.Resolving.{IsResolvent, IsFalseAt, HasOther};
ghost use Rattle.clause_learning.specs.Marking.{IsCovered, Shows, Holds, LooksBack};

use crate::falsity::highest_other;
use crate::lesson::Lesson;
use crate::resolving::{Resolvent, has_mark, join, list_marked, take_out, unmark};
use cdcl_trail::Trail;
use clause_arena::{Arena, ClauseRef};
use clause_meaning::{opposite, variable_of};
use cq_terms::NoMemory;
use std::alloc::Global;
use std::marker::Model;

/// Room for marks of the literals of a number of variables, as which it is seen. Between calls nothing is marked.
#[derive(Drop)]
pub struct Marks {
    variables: u32,
    resolvent: Resolvent,
}

impl Model for Marks {
    ghost use Rattle.std.specs.Prelude.{ℕ};

    ghost Value = { ℕ };

    ghost use Rattle.clause_learning.specs.Unmarked.{shown, IsUnmarked};

    ghost view = { shown };

    ghost invariant = { IsUnmarked };
}

impl Marks {
    /// Room for the marks of so many variables.
    pub fn new(alloc: Global, variables: u32) -> Result<Marks, NoMemory>
        ensures { IfOk result (λ marks. marks ≡ variables) }
    {
        Ok(Marks {
            variables,
            resolvent: Resolvent {
                marks: vec![in alloc; false; 2 * variables as usize]?,
                touched: Vec::new(alloc),
                newest: 0,
            },
        })
    }
}

/// What a falsified clause teaches, by resolution along the trail up to the first unique implication point (Marques-Silva and Sakallah
/// 1999; Zhang and others 2001). Literals of level 0 are left out, and no others. It gives up only for want of memory. It costs what it
/// touches, since the marks are there before, and none of them is left.
pub fn analyse(
    alloc: Global,
    trail: &Trail,
    arena: &Arena,
    falsified: ClauseRef,
    marks: &mut Marks,
) -> Result<Lesson, NoMemory>
    requires searching { IsSearching trail.now arena.now }
    requires falsified { IsFalsified trail.now arena.now falsified }
    requires guessed { 0 < trail.now.level }
    requires marks { marks.old ≡ trail.now.variables }

    ensures exact { IfOk result (λ lesson. IsLesson (Searched trail.now arena.now) trail.now
        lesson.literals.items lesson.asserting lesson.back) }
    ensures marks { marks.new ≡ marks.old }
{
    let lesson = walk_back(alloc, &mut marks.resolvent, trail, arena, falsified);
    unmark(&mut marks.resolvent.marks, &marks.resolvent.touched);
    marks.resolvent.touched.clear();
    marks.resolvent.newest = 0;
    lesson
}

/// Walks back along the trail until one literal of the current level is left. It may leave marks.
fn walk_back(
    alloc: Global,
    resolvent: &mut Resolvent,
    trail: &Trail,
    arena: &Arena,
    falsified: ClauseRef,
) -> Result<Lesson, NoMemory>
    requires searching { IsSearching trail.now arena.now }
    requires falsified { IsFalsified trail.now arena.now falsified }
    requires guessed { 0 < trail.now.level }
    requires covered { IsCovered trail.now.variables resolvent.old }
    requires none { Shows trail.now resolvent.old [] }

    ensures exact { IfOk result (λ lesson. IsLesson (Searched trail.now arena.now) trail.now
        lesson.literals.items lesson.asserting lesson.back) }
    ensures covered { IsCovered trail.now.variables resolvent.new }
{
    let mut place = trail.literals().len();
    join(resolvent, trail, arena.view(falsified))?;
    while place > 0 {
        place -= 1;
        if let Some(asserting) = look_back(resolvent, trail, arena, place)? {
            let literals = list_marked(alloc, &mut resolvent.marks, &resolvent.touched)?;
            let back = highest_other(trail, &literals, asserting);
            return Ok(Lesson {
                literals,
                asserting,
                back,
            });
        }
    }
    unreachable!()
}

/// Looks at a place of the trail. Where its literal became false in the resolvent, it is the only one of the current level there, or it is
/// resolved away.
fn look_back(
    resolvent: &mut Resolvent,
    trail: &Trail,
    arena: &Arena,
    place: usize,
) -> Result<Option<u32>, NoMemory>
    requires searching { IsSearching trail.now arena.now }
    requires guessed { 0 < trail.now.level }
    requires place { place < length trail.now.entries }
    requires covered { IsCovered trail.now.variables resolvent.old }
    requires resolvent { Holds trail.now arena.now resolvent.old (place + 1) }

    ensures covered { IsCovered trail.now.variables resolvent.new }
    ensures looks { IfOk result (LooksBack trail.now arena.now resolvent.new place) }
{
    let literal = opposite(trail.literals()[place]);
    if !has_mark(&resolvent.marks, literal) {
        return Ok(None);
    }
    if resolvent.newest == 1 {
        return Ok(Some(literal));
    }
    resolve(resolvent, trail, arena, place, literal)?;
    Ok(None)
}

/// Resolves a literal away, with the clause that forced its opposite.
fn resolve(
    resolvent: &mut Resolvent,
    trail: &Trail,
    arena: &Arena,
    place: usize,
    literal: u32,
) -> Result<(), NoMemory>
    requires searching { IsSearching trail.now arena.now }
    requires distinct { AreDistinct trail.now.entries }
    requires guessed { 0 < trail.now.level }
    requires place { place < length trail.now.entries }
    requires covered { IsCovered trail.now.variables resolvent.old }
    requires resolvent { (literals : List ℕ) × Shows trail.now resolvent.old literals × IsResolvent trail.now arena.now literals (place + 1)
        × Contains literals literal × HasOther trail.now literals literal }
    requires at { IsFalseAt trail.now.entries place literal }

    ensures covered { IsCovered trail.now.variables resolvent.new }
    ensures holds { OnOk result (Holds trail.now arena.now resolvent.new place) }
{
    match trail.reason(variable_of(literal)) {
        Some(reason) => {
            take_out(resolvent, literal);
            join(resolvent, trail, arena.view(reason))?;
            Ok(())
        }
        None => unreachable!(),
    }
}
