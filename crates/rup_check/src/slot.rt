//! A place for a clause, which stays when the clause is forgotten.

ghost use Rattle.std.specs.Prelude.{◌≡◌, Some, None, option_map, option_copied};

use std::marker::Model;

/// The place of a number, with the literals of its clause as long as that is live.
#[derive(Drop)]
pub struct Slot {
    clause: Option<Vec<u32>>,
}

impl Model for Slot {
    ghost use Rattle.std.specs.Prelude.{ℕ, List, Option, option_map};

    ghost Value = { Option (List ℕ) };

    ghost view = { λ s. option_map (λ v. v.items) s.clause };
}

impl Slot {
    /// The place of a live clause.
    pub fn new(literals: Vec<u32>) -> Slot
        ensures { result ≡ Some literals.items }
    {
        Slot {
            clause: Some(literals),
        }
    }

    /// Lends the literals, where the clause is live.
    pub fn clause(&self) -> Option<&[u32]>
        ensures { option_copied result ≡ self.now }
    {
        match &self.clause {
            Some(literals) => Some(literals.as_slice()),
            None => None,
        }
    }

    /// Takes the clause out.
    pub fn take(&mut self) -> Option<Vec<u32>>
        ensures taken { option_map (λ v. v.items) result ≡ self.old }
        ensures freed { self.new ≡ None }
    {
        self.clause.take()
    }
}
