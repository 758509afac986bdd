//! A closure as the list of its members: queries, each with the move that made it.

ghost use Rattle.std.specs.Prelude.{◌≡◌, ◌≢◌, ◌<◌, ◌-◌, ◌^◌, ◌++◌, ◌∷◌, [], OnOk, OnErr, IfOk, All, length, None};

use crate::moves::Move;
use cq_terms::{Cq, NoMemory};
use std::alloc::Global;
use std::marker::Model;

/// A query of a closure.
#[derive(Debug, Drop)]
pub struct Member {
    /// The query in normal form.
    pub query: Cq,
    /// The place of the member from which the move made this one; `None` for the first.
    pub step: Option<(u32, Move)>,
}

/// A list of distinct queries. The first has no step, and each other has a step from an earlier one.
#[derive(Debug, Drop)]
pub struct Closure {
    members: Vec<Member>,
}

impl Model for Closure {
    ghost use Rattle.std.specs.Prelude.{List};
    ghost use Rattle.cq_steps.specs.declared.closure.Member.{Member};

    ghost Value = { List Member };

    ghost use Rattle.cq_steps.specs.Derivation.{IsDerivation};

    ghost view = { λ a. a.members.items };

    ghost invariant = { λ a. IsDerivation a.members.items };
}

impl Closure {
    ghost use Rattle.cq_steps.specs.Derivation.{IsDerivation, HasStepBefore};

    /// The list of one member with this query and no step.
    pub fn first(alloc: Global, query: Cq) -> Result<Closure, NoMemory>
        ensures exact { IfOk result (λ c. c ≡ record { query = query; step = None } ∷ []) }
    {
        let mut members = Vec::new(alloc);
        members.push(Member { query, step: None })?;
        Ok(Closure { members })
    }

    /// Appends a member.
    pub fn push(&mut self, member: Member) -> Result<(), NoMemory>
        requires new { All (λ m. m.query ≢ member.query) self.old }
        requires step { HasStepBefore (length self.old) member }
        requires few { length self.old < 2 ^ 32 - 1 }

        ensures exact { OnOk result (self.new ≡ self.old ++ member ∷ []) }
        ensures unchanged { OnErr result (self.new ≡ self.old) }
    {
        self.members.push(member)?;
        Ok(())
    }

    /// Lends the members.
    pub fn members(&self) -> &[Member]
        ensures lent { result.now ≡ self.now }
        ensures derivation { IsDerivation self.now }
    {
        self.members.as_slice()
    }
}
