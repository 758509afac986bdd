//! Marked literals, in the order of marking, with a mark for each literal beside the list.

ghost use Rattle.std.specs.Prelude.{◌≡◌, ◌↔◌, ◌<◌, ◌≤◌, ◌*◌, ◌-◌, ◌⊎◌, ◌++◌, ◌∷◌, [], ℕ, List, All, Contains, IsTrue, IfOk, length, take, slice_index_or, vec_len, vec_capacity};
ghost use Rattle.std.specs.Bool.{OnTrue, OnFalse};
ghost use Rattle.clause_meaning.specs.Literals.{AreBelow, opposite_of, variable_of};
ghost use Rattle.rup_check.specs.Marks.{IsMarked, AreConsistent, HaveOpposites};
ghost use Rattle.clause_meaning.specs.Marks.{HasMark};

use clause_meaning::opposite;
use cq_terms::NoMemory;
use std::alloc::Global;
use std::marker::Model;

/// Marked literals, over a number of variables. They are seen as the list of those marked, without repeats, in the order of
/// marking.
#[derive(Drop)]
pub struct Marks {
    variables: u32,
    literals: Vec<u32>,
    table: Vec<bool>,
}

impl Model for Marks {
    ghost use Rattle.rup_check.specs.Marks.{Marked};

    ghost Value = { Marked };

    ghost use Rattle.rup_check.specs.Table.{shown, IsKept};

    ghost view = { shown };

    ghost invariant = { IsKept };
}

impl Marks {
    /// No mark. It takes the room for all marks.
    pub fn new(alloc: Global, variables: u32) -> Result<Marks, NoMemory>
        ensures variables { IfOk result (λ marks. marks.variables ≡ variables) }
        ensures none { IfOk result (λ marks. marks.literals ≡ []) }
    {
        let room = 2 * variables as usize;
        Ok(Marks {
            variables,
            literals: Vec::with_capacity(alloc, room)?,
            table: vec![in alloc; false; room]?,
        })
    }

    /// Whether the literal is marked.
    pub fn has(&self, literal: u32) -> bool
        requires in_range { variable_of literal < self.now.variables }

        ensures { IsTrue result ↔ IsMarked self.now.literals literal }
    {
        self.table[literal as usize]
    }

    /// Whether the opposite of the literal is marked.
    pub fn has_opposite(&self, literal: u32) -> bool
        requires in_range { variable_of literal < self.now.variables }

        ensures { IsTrue result ↔ IsMarked self.now.literals (opposite_of literal) }
    {
        self.has(opposite(literal))
    }

    /// How many literals are marked.
    pub fn len(&self) -> usize
        ensures exact { result ≡ length self.now.literals }
        ensures few { result ≤ 2 * self.now.variables }
    {
        self.literals.len()
    }

    /// The literal that was marked after so many others.
    pub fn literal(&self, place: usize) -> u32
        requires within { place < length self.now.literals }

        ensures exact { result ≡ slice_index_or self.now.literals place 0 }
        ensures in_range { variable_of result < self.now.variables }
    {
        self.literals[place]
    }

    /// Marks a literal. It takes no memory.
    pub fn mark(&mut self, literal: u32)
        requires in_range { variable_of literal < self.old.variables }
        requires unmarked { IsMarked self.old.literals literal → ⊥ }

        ensures exact { self.new ≡ record self.old { literals = self.old.literals ++ literal ∷ [] } }
    {
        self.table[literal as usize] = true;
        push(&mut self.literals, literal);
    }

    /// Takes the newest mark away, where there is one.
    fn take_last(&mut self)
        ensures exact { self.new ≡ record self.old { literals = take (length self.old.literals - 1) self.old.literals } }
    {
        match self.literals.pop() {
            None => {}
            Some(literal) => self.table[literal as usize] = false,
        }
    }

    /// Takes all marks away, at the cost of those that there are.
    pub fn clear(&mut self)
        ensures exact { self.new ≡ record self.old { literals = [] } }
    {
        unmark(&mut self.table, &self.literals);
        self.literals.clear();
    }
}

/// Adds an item where there is room.
fn push(items: &mut Vec<u32>, item: u32)
    requires room { vec_len items.old < vec_capacity items.old }

    ensures exact { items.new.items ≡ items.old.items ++ item ∷ [] }
    ensures capacity { vec_capacity items.old ≤ vec_capacity items.new }
{
    match items.push(item) {
        Ok(()) => {}
        Err(_) => unreachable!(),
    }
}

/// Takes away the marks of the literals.
fn unmark(table: &mut [bool], literals: &[u32])
    requires within { All (λ l. l < length table.old) literals.now }

    ensures same_length { length table.new ≡ length table.old }
    ensures gone { (l : ℕ) → HasMark table.new l → HasMark table.old l × (Contains literals.now l → ⊥) }
{
    for literal in literals {
        table[*literal as usize] = false;
    }
}

/// Marks a literal that may be marked.
fn mark_once(marks: &mut Marks, literal: u32)
    requires in_range { variable_of literal < marks.old.variables }

    ensures same_variables { marks.new.variables ≡ marks.old.variables }
    ensures more { (later : List ℕ) × (marks.new.literals ≡ marks.old.literals ++ later) }
    ensures marked { (l : ℕ) → IsMarked marks.new.literals l ↔ (IsMarked marks.old.literals l ⊎ (l ≡ literal)) }
{
    if !marks.has(literal) {
        marks.mark(literal);
    }
}

/// Takes away the marks of all literals but the first so many, at their cost.
pub fn cut(marks: &mut Marks, len: usize)
    ensures same_variables { marks.new.variables ≡ marks.old.variables }
    ensures exact { marks.new.literals ≡ take len marks.old.literals }
{
    while len < marks.len() {
        marks.take_last();
    }
}

/// Marks the literals after those that are marked; `false` where two of all these are opposite.
pub fn mark_all(marks: &mut Marks, literals: &[u32]) -> bool
    requires in_range { AreBelow marks.old.variables literals.now }
    requires consistent { AreConsistent marks.old.literals }

    ensures same_variables { marks.new.variables ≡ marks.old.variables }
    ensures more { (later : List ℕ) × (marks.new.literals ≡ marks.old.literals ++ later) }
    ensures marked { OnTrue result ((l : ℕ) → IsMarked marks.new.literals l ↔ (IsMarked marks.old.literals l ⊎ Contains literals.now l)) }
    ensures consistent { OnTrue result (AreConsistent marks.new.literals) }
    ensures opposites { OnFalse result (HaveOpposites marks.old.literals literals.now) }
{
    for literal in literals {
        if marks.has(opposite(*literal)) {
            return false;
        }
        mark_once(marks, *literal);
    }
    true
}
