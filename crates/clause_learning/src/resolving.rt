//! Steps of resolution: a literal is taken out, the open literals of a clause are joined, and at the end the literals are listed.

ghost use Rattle.std.specs.Prelude.{◌≡◌, ◌<◌, ◌+◌, ◌∷◌, [], ℕ, List, Bool, false, set, All, Contains, IfOk, OnOk, length, slice_index_or, vec_len};
ghost use Rattle.clause_meaning.specs.Literals.{variable_of, AreBelow};
ghost use Rattle.cdcl_trail.specs.Table.{AreDistinct};
ghost use Rattle.clause_meaning.specs.Marks.{HasMark};
ghost use Rattle.clause_learning.specs.Marking.{IsCovered, JoinsIn, Lists};

use crate::falsity::{count_newest, is_open};
use cdcl_trail::Trail;
use cq_terms::NoMemory;
use std::alloc::Global;

/// The literals of a resolvent, while it is made.
#[derive(Drop)]
pub struct Resolvent {
    /// For each literal, whether it is there.
    pub marks: Vec<bool>,
    /// The literals that were put in, also those that were taken out again.
    pub touched: Vec<u32>,
    /// How many of those there became false on the current level.
    pub newest: usize,
}

/// Whether the literal has a mark. What is out of range has none.
pub fn has_mark(marks: &[bool], literal: u32) -> bool
    ensures { result ≡ slice_index_or marks.now literal false }
{
    match marks.get(literal as usize) {
        Some(mark) => *mark,
        None => false,
    }
}

/// Takes a literal of the current level out.
pub fn take_out(resolvent: &mut Resolvent, gone: u32)
    requires within { gone < vec_len resolvent.old.marks }
    requires some { 0 < resolvent.old.newest }

    ensures marks { resolvent.new.marks.items ≡ set resolvent.old.marks.items gone false }
    ensures touched { resolvent.new.touched.items ≡ resolvent.old.touched.items }
    ensures newest { resolvent.new.newest + 1 ≡ resolvent.old.newest }
{
    resolvent.marks[gone as usize] = false;
    resolvent.newest -= 1;
}

/// Adds a literal, unless it is there, or isn't false, or became false on level 0.
fn join_one(resolvent: &mut Resolvent, trail: &Trail, literal: u32) -> Result<(), NoMemory>
    requires in_range { variable_of literal < trail.now.variables }
    requires distinct { AreDistinct trail.now.entries }
    requires covered { IsCovered trail.now.variables resolvent.old }

    ensures covered { IsCovered trail.now.variables resolvent.new }
    ensures joins { OnOk result (JoinsIn trail.now resolvent.old (literal ∷ []) resolvent.new) }
{
    if !is_open(trail, literal) {
        return Ok(());
    }
    if has_mark(&resolvent.marks, literal) {
        return Ok(());
    }
    let count = count_newest(trail, literal);
    resolvent.touched.push(literal)?;
    resolvent.marks[literal as usize] = true;
    resolvent.newest += count;
    Ok(())
}

/// Adds the false literals of a clause that aren't there and aren't of level 0.
pub fn join(resolvent: &mut Resolvent, trail: &Trail, clause: &[u32]) -> Result<(), NoMemory>
    requires in_range { AreBelow trail.now.variables clause.now }
    requires distinct { AreDistinct trail.now.entries }
    requires covered { IsCovered trail.now.variables resolvent.old }

    ensures covered { IsCovered trail.now.variables resolvent.new }
    ensures joins { OnOk result (JoinsIn trail.now resolvent.old clause.now resolvent.new) }
{
    for literal in clause {
        join_one(resolvent, trail, *literal)?;
    }
    Ok(())
}

/// Lists a literal that has a mark, and takes the mark away.
fn list_one(literals: &mut Vec<u32>, marks: &mut [bool], literal: u32) -> Result<(), NoMemory>
    requires within { literal < length marks.old }

    ensures same_length { length marks.new ≡ length marks.old }
    ensures stays { (l : ℕ) → HasMark marks.new l → HasMark marks.old l }
    ensures lists { OnOk result ((start : List Bool) (done : List ℕ) → Lists start done marks.old literals.old.items
        → Lists start (literal ∷ done) marks.new literals.new.items) }
{
    if !has_mark(marks, literal) {
        return Ok(());
    }
    literals.push(literal)?;
    marks[literal as usize] = false;
    Ok(())
}

/// Lists those of the literals that have a mark, each once, and takes these marks away.
pub fn list_marked(alloc: Global, marks: &mut [bool], touched: &[u32]) -> Result<Vec<u32>, NoMemory>
    requires within { All (λ l. l < length marks.old) touched.now }

    ensures same_length { length marks.new ≡ length marks.old }
    ensures stays { (l : ℕ) → HasMark marks.new l → HasMark marks.old l }
    ensures lists { IfOk result (λ literals. (done : List ℕ) × ((k : ℕ) → Contains touched.now k → Contains done k)
        × Lists marks.old done marks.new literals.items) }
{
    let mut literals = Vec::new(alloc);
    for literal in touched {
        list_one(&mut literals, marks, *literal)?;
    }
    Ok(literals)
}

/// Takes away the marks of the literals.
pub fn unmark(marks: &mut [bool], touched: &[u32])
    requires within { All (λ l. l < length marks.old) touched.now }

    ensures same_length { length marks.new ≡ length marks.old }
    ensures stays { (l : ℕ) → HasMark marks.new l → HasMark marks.old l }
    ensures gone { (l : ℕ) → HasMark marks.new l → Contains touched.now l → ⊥ }
{
    for literal in touched {
        marks[*literal as usize] = false;
    }
}
