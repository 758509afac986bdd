//! The self-inconsistent facts and the pairs in conflict, each as a list.

ghost use Rattle.std.specs.Prelude.{◌≡◌, ◌++◌, [], IfOk, OnOk};
ghost use Rattle.std.specs.List.{cons_option};
ghost use Rattle.cq_terms.specs.Conflicts.{couple, couples, own_facts, single};

use cq_terms::{Clash, NoMemory};
use std::alloc::Global;

/// The facts of clashes, by how many a clash has.
#[derive(Drop)]
pub(crate) struct ClashesBySize {
    /// The self-inconsistent facts.
    pub(crate) own: Vec<u32>,
    /// The pairs in conflict.
    pub(crate) couples: Vec<(u32, u32)>,
}

/// Answers the facts of the clashes, in their order.
pub(crate) fn clashes_by_size(alloc: Global, clashes: &[Clash]) -> Result<ClashesBySize, NoMemory>
    ensures own { IfOk result (λ by_size. by_size.own.items ≡ own_facts clashes.now) }
    ensures couples { IfOk result (λ by_size. by_size.couples.items ≡ couples clashes.now) }
{
    let mut by_size = ClashesBySize {
        own: Vec::new(alloc),
        couples: Vec::new(alloc),
    };
    for clash in clashes {
        by_size.take(clash.facts.as_slice())?;
    }
    Ok(by_size)
}

impl ClashesBySize {
    /// Takes the facts of one clash.
    fn take(&mut self, facts: &[u32]) -> Result<(), NoMemory>
        ensures own { OnOk result (self.new.own.items ≡ self.old.own.items ++ cons_option (single facts.now) []) }
        ensures couples { OnOk result
            (self.new.couples.items ≡ self.old.couples.items ++ cons_option (couple facts.now) []) }
    {
        match facts {
            [own] => self.own.push(*own)?,
            [lower, upper] => self.couples.push((*lower, *upper))?,
            _ => {}
        }
        Ok(())
    }
}
