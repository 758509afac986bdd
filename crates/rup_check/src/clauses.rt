//! The clauses: a place for each number, and the lists in which they are looked up.

ghost use Rattle.std.specs.Prelude.{◌≡◌, ◌↔◌, ◌⊎◌, ◌<◌, [], ◌∷◌, ◌++◌, ℕ, List, Some, None, Contains, IsTrue, IfOk, IfSome, OnOk, OnErr, length, option_copied, slice_index_or, slice_set};
ghost use Rattle.std.specs.Bool.{OnTrue, OnFalse};
ghost use Rattle.clause_meaning.specs.Literals.{AreBelow};
ghost use Rattle.clause_meaning.specs.Refutation.{IsWithin, ContainsOneOf};
ghost use Rattle.rup_check.specs.Slots.{IsAt, HeldIn};
ghost use Rattle.rup_check.specs.Listed.{HasTwo};

use crate::lists::Lists;
use crate::slot::Slot;
use cq_terms::NoMemory;
use std::alloc::Global;
use std::marker::Model;

/// The clauses over a number of variables, each at the place of its number.
#[derive(Drop)]
pub struct Clauses {
    variables: u32,
    slots: Vec<Slot>,
    lists: Lists,
}

impl Model for Clauses {
    ghost use Rattle.rup_check.specs.Slots.{Stock};

    ghost Value = { Stock };

    ghost use Rattle.rup_check.specs.Stocked.{shown, IsKept};

    ghost view = { shown };

    ghost invariant = { IsKept };
}

impl Clauses {
    /// No clause. It takes a list for each literal.
    pub fn new(alloc: Global, variables: u32) -> Result<Clauses, NoMemory>
        ensures variables { IfOk result (λ clauses. clauses.variables ≡ variables) }
        ensures empty { IfOk result (λ clauses. clauses.slots ≡ []) }
    {
        Ok(Clauses {
            variables,
            slots: Vec::new(alloc),
            lists: Lists::new(alloc, variables)?,
        })
    }

    /// How many numbers clauses have got.
    pub fn len(&self) -> usize
        ensures { result ≡ length self.now.slots }
    {
        self.slots.len()
    }

    /// Lends the literals of a number's clause, where it is live.
    pub fn get(&self, number: usize) -> Option<&[u32]>
        ensures exact { option_copied result ≡ slice_index_or self.now.slots number None }
        ensures in_range { IfSome result (λ clause. AreBelow self.now.variables clause.now) }
    {
        match self.slots.get(number) {
            Some(slot) => slot.clause(),
            None => None,
        }
    }

    /// Lends numbers, among them those of the live clauses that have the literal.
    pub fn with(&self, literal: u32) -> &[usize]
        ensures { (n : ℕ) (c : List ℕ) → IsAt self.now.slots n c → Contains c literal → Contains result.now n }
    {
        self.lists.with(literal)
    }

    /// Lends numbers, among them those of the live clauses that haven't two different literals.
    pub fn short(&self) -> &[usize]
        ensures { (n : ℕ) (c : List ℕ) → IsAt self.now.slots n c → HasTwo c ⊎ Contains result.now n }
    {
        self.lists.short()
    }

    /// Lends numbers, among them those of the live clauses that are empty.
    fn empty(&self) -> &[usize]
        ensures { (n : ℕ) → IsAt self.now.slots n [] → Contains result.now n }
    {
        self.lists.empty()
    }

    /// Adds a clause, with the next number.
    pub fn add(&mut self, clause: &[u32]) -> Result<(), NoMemory>
        requires in_range { AreBelow self.old.variables clause.now }

        ensures exact { OnOk result (self.new ≡ record self.old { slots = self.old.slots ++ Some clause.now ∷ [] }) }

        ensures unchanged { OnErr result (self.new ≡ self.old) }
    {
        let number = self.slots.len();
        let literals = Vec::from_slice(*self.slots.allocator(), clause)?;
        self.lists.enlist(number, clause)?;
        self.slots.push(Slot::new(literals))?;
        Ok(())
    }

    /// Takes the clause of a number out, and the number out of the lists of its literals.
    pub fn remove(&mut self, number: usize)
        requires within { number < length self.old.slots }

        ensures exact { self.new ≡ record self.old { slots = slice_set self.old.slots number None } }
    {
        if let Some(literals) = self.slots[number].take() {
            self.lists.delist(number, &literals);
        }
    }

    /// Whether some live clause is within the clause. It looks at the live clauses that have one of its literals, and at empty
    /// ones.
    pub fn has_within(&self, clause: &[u32]) -> bool
        ensures exact { IsTrue result ↔ ContainsOneOf (HeldIn self.now.slots) clause.now }
    {
        if self.has_within_among(self.empty(), clause) {
            return true;
        }
        for literal in clause {
            if self.has_within_among(self.with(*literal), clause) {
                return true;
            }
        }
        false
    }

    /// Whether some live clause of the numbers is within the clause.
    fn has_within_among(&self, numbers: &[usize], clause: &[u32]) -> bool
        ensures found { OnTrue result (ContainsOneOf (HeldIn self.now.slots) clause.now) }
        ensures none { OnFalse result ((n : ℕ) (c : List ℕ) → Contains numbers.now n → IsAt self.now.slots n c → IsWithin c clause.now → ⊥) }
    {
        for number in numbers {
            if let Some(small) = self.get(*number) {
                if is_within(small, clause) {
                    return true;
                }
            }
        }
        false
    }
}

/// Whether the second list has all literals of the first.
fn is_within(small: &[u32], large: &[u32]) -> bool
    ensures { IsTrue result ↔ IsWithin small.now large.now }
{
    for literal in small {
        if !large.contains(literal) {
            return false;
        }
    }
    true
}
