//! The queries of a block.

ghost use Rattle.std.specs.Prelude.{◌≡◌, ◌↔◌, ◌++◌, ◌∷◌, [], IfOk, IsTrue, Contains};
ghost use Rattle.report_laws.specs.Standing.{Block};

use crate::codes::{CodeSet, code_of};
use cq_terms::{Cq, NoMemory};
use report_text::Origin;
use std::alloc::Global;
use std::marker::Model;

/// The queries of a block, with their codes.
#[derive(Drop)]
pub struct Block {
    origin: Origin,
    members: Vec<Cq>,
    codes: CodeSet,
}

impl Model for Block {
    ghost use Rattle.report_laws.specs.Standing.{Block};
    ghost use Rattle.report_parts.specs.Blocks.{AreCodesOf};

    ghost Value = { Block };

    ghost view = { λ a. record { origin = a.origin; members = a.members.items } };

    ghost invariant = { λ a. AreCodesOf a.members.items a.codes };
}

impl Block {
    /// The block of no queries.
    pub fn new(alloc: Global, origin: Origin) -> Block
        ensures exact { result ≡ record { origin = origin; members = [] } }
    {
        Block {
            origin,
            members: Vec::new(alloc),
            codes: CodeSet::new(alloc),
        }
    }

    /// The block with one more query.
    pub fn with(self, alloc: Global, query: Cq) -> Result<Block, NoMemory>
        ensures exact { IfOk result (λ b. b ≡ record { origin = self.origin; members = self.members ++ query ∷ [] }) }
    {
        let Block {
            origin,
            mut members,
            mut codes,
        } = self;
        codes.add(code_of(alloc, &query)?)?;
        members.push(query)?;
        Ok(Block {
            origin,
            members,
            codes,
        })
    }

    /// Of which query the block is.
    pub fn origin(&self) -> Origin
        ensures exact { result ≡ self.now.origin }
    {
        self.origin
    }

    /// Lends the queries, oldest first.
    pub fn members(&self) -> &[Cq]
        ensures lent { result.now ≡ self.now.members }
    {
        self.members.as_slice()
    }

    /// Whether the query is in the block.
    pub fn has(&self, alloc: Global, query: &Cq) -> Result<bool, NoMemory>
        ensures exact { IfOk result (λ has. IsTrue has ↔ Contains self.now.members query.now) }
    {
        let code = code_of(alloc, query)?;
        Ok(self.codes.has(&code))
    }
}
