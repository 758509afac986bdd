//! Why a priority is refused.

ghost use Rattle.std.specs.Prelude.{◌≡◌};

use cq_terms::{Ids, NoMemory};

/// Why a list of pairs is no priority.
#[derive(Debug, Drop)]
pub enum PriorityRefusal {
    /// These facts are each better than the next, and the last is better than the first, which is the least.
    Cycle { facts: Ids },
    /// Memory ran out.
    NoMemory,
}

impl From<NoMemory> for PriorityRefusal {
    ghost use Rattle.priority_graph.specs.declared.refusal.PriorityRefusal.TheVariants as refusal;

    ghost from_gives = { λ _ e. e ≡ refusal.NoMemory };

    fn from(_error: NoMemory) -> PriorityRefusal {
        PriorityRefusal::NoMemory
    }
}
