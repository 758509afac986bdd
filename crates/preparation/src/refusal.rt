//! Why a query isn't prepared.

ghost use Rattle.std.specs.Prelude.{◌≡◌};

use cause_finder::CauseRefusal;
use conflict_finder::FindRefusal;
use cq_terms::{Ids, NoMemory};
use perfect_ref::CloseRefusal;
use priority_graph::PriorityRefusal;

/// Why a query isn't prepared.
#[derive(Debug, Drop)]
pub enum PrepareRefusal {
    /// The closure of the query, or that of a disjointness, has more members than the limit.
    Members,
    /// There are more self-inconsistent facts and pairs in conflict than the limit.
    Conflicts,
    /// These facts are each better than the next, and the last is better than the first, which is the least.
    Cycle {
        /// The numbers of the facts.
        facts: Ids,
    },
    /// There are more pairs of a tuple and a support of it than the limit.
    Supports,
    /// Memory ran out, or the causes of a candidate have 2^31 facts or more, or facts and candidates together are so many.
    NoMemory,
}

impl From<NoMemory> for PrepareRefusal {
    ghost use Rattle.preparation.specs.declared.refusal.PrepareRefusal.TheVariants as refusal;

    ghost from_gives = { λ _ e. e ≡ refusal.NoMemory };

    fn from(_error: NoMemory) -> PrepareRefusal {
        PrepareRefusal::NoMemory
    }
}

impl From<CloseRefusal> for PrepareRefusal {
    ghost use Rattle.preparation.specs.Refusals.{of_close};

    ghost from_gives = { λ r e. e ≡ of_close r };

    fn from(error: CloseRefusal) -> PrepareRefusal {
        match error {
            CloseRefusal::TooManyCqs => PrepareRefusal::Members,
            CloseRefusal::NoMemory => PrepareRefusal::NoMemory,
        }
    }
}

impl From<FindRefusal> for PrepareRefusal {
    ghost use Rattle.preparation.specs.Refusals.{of_find};

    ghost from_gives = { λ r e. e ≡ of_find r };

    fn from(error: FindRefusal) -> PrepareRefusal {
        match error {
            FindRefusal::Closure { axiom: _ } => PrepareRefusal::Members,
            FindRefusal::Conflicts => PrepareRefusal::Conflicts,
            FindRefusal::NoMemory => PrepareRefusal::NoMemory,
        }
    }
}

impl From<PriorityRefusal> for PrepareRefusal {
    ghost use Rattle.preparation.specs.Refusals.{of_priority};

    ghost from_gives = { λ r e. e ≡ of_priority r };

    fn from(error: PriorityRefusal) -> PrepareRefusal {
        match error {
            PriorityRefusal::Cycle { facts } => PrepareRefusal::Cycle { facts },
            PriorityRefusal::NoMemory => PrepareRefusal::NoMemory,
        }
    }
}

impl From<CauseRefusal> for PrepareRefusal {
    ghost use Rattle.preparation.specs.Refusals.{of_causes};

    ghost from_gives = { λ r e. e ≡ of_causes r };

    fn from(error: CauseRefusal) -> PrepareRefusal {
        match error {
            CauseRefusal::TooManySupports => PrepareRefusal::Supports,
            CauseRefusal::NoMemory => PrepareRefusal::NoMemory,
        }
    }
}
