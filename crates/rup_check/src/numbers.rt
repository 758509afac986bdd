//! Lists of the numbers of clauses.

ghost use Rattle.std.specs.Prelude.{◌≡◌, [], ◌∷◌, ◌++◌, ◌==◌, OnOk, OnErr, filter, not};

use cq_terms::NoMemory;
use std::alloc::Global;
use std::marker::Model;

/// Numbers of clauses, seen as a list.
#[derive(Drop)]
pub struct Numbers {
    numbers: Vec<usize>,
}

impl Model for Numbers {
    ghost use Rattle.std.specs.Prelude.{ℕ, List};

    ghost Value = { List ℕ };

    ghost view = { λ n. n.numbers.items };
}

impl Numbers {
    /// No number.
    pub fn new(alloc: Global) -> Numbers
        ensures { result ≡ [] }
    {
        Numbers {
            numbers: Vec::new(alloc),
        }
    }

    /// Lends the numbers.
    pub fn as_slice(&self) -> &[usize]
        ensures { result.now ≡ self.now }
    {
        self.numbers.as_slice()
    }

    /// Adds a number.
    pub fn push(&mut self, number: usize) -> Result<(), NoMemory>
        ensures exact { OnOk result (self.new ≡ self.old ++ number ∷ []) }

        ensures unchanged { OnErr result (self.new ≡ self.old) }
    {
        self.numbers.push(number)?;
        Ok(())
    }

    /// Takes all numbers away.
    pub fn clear(&mut self)
        ensures { self.new ≡ [] }
    {
        self.numbers.clear();
    }

    /// Takes a number away.
    pub fn remove(&mut self, number: usize)
        ensures { self.new ≡ filter (λ n. not (n == number)) self.old }
    {
        self.numbers.retain(|n| *n != number);
    }
}
