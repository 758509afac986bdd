//! The codes of the queries that are members, so that each is found again without a look at all members.

ghost use Rattle.std.specs.Prelude.{◌≡◌, ◌++◌, ◌∷◌, [], OnOk, false};
ghost use Rattle.std.specs.List.{list_any};
ghost use Rattle.std.specs.Str.{bytes_eq};

use cq_terms::NoMemory;
use indexmap::IndexSet;
use std::alloc::Global;
use std::marker::Model;

/// The codes of members, a list of distinct ones.
#[derive(Drop)]
pub struct MemberCodes {
    codes: IndexSet<Vec<u32>>,
}

impl Model for MemberCodes {
    ghost use Rattle.std.specs.Prelude.{ℕ, List, map};

    ghost Value = { List (List ℕ) };

    ghost view = { λ k. map (λ v. v.items) k.codes.keys };
}

impl MemberCodes {
    /// The empty list, which takes no memory.
    pub fn new(alloc: Global) -> Self
        ensures { result ≡ [] }
    {
        MemberCodes {
            codes: IndexSet::new(alloc),
        }
    }

    /// Whether the code is in the list.
    pub fn holds(&self, code: &[u32]) -> bool
        ensures { result ≡ list_any (bytes_eq code.now) self.now }
    {
        self.codes.contains(code)
    }

    /// Appends a new code.
    pub fn add(&mut self, code: Vec<u32>) -> Result<(), NoMemory>
        requires new { list_any (bytes_eq code.items) self.old ≡ false }

        ensures { OnOk result (self.new ≡ self.old ++ code.items ∷ []) }
    {
        let (_place, _new) = self.codes.insert_full(code)?;
        Ok(())
    }
}
