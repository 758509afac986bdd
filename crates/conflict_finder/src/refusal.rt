//! Why conflicts aren't answered.

ghost use Rattle.std.specs.Prelude.{◌≡◌};

use cq_terms::NoMemory;
use join_eval::JoinRefusal;
use std::alloc::{AllocError, AllocFailed};

/// Why the conflicts of a table aren't answered.
#[derive(Clone, Copy, Debug, PartialEq, Eq)]
pub enum FindRefusal {
    /// The closure of this disjointness, the first such, has more members than the limit.
    Closure {
        /// The number of the disjointness.
        axiom: u32,
    },
    /// The self-inconsistent facts and the pairs in conflict together are more than the limit.
    Conflicts,
    /// Memory ran out.
    NoMemory,
}

impl From<NoMemory> for FindRefusal {
    ghost use Rattle.conflict_finder.specs.declared.refusal.FindRefusal.TheVariants as refusal;

    ghost from_gives = { λ _ e. e ≡ refusal.NoMemory };

    fn from(_error: NoMemory) -> FindRefusal {
        FindRefusal::NoMemory
    }
}

impl From<AllocError> for FindRefusal {
    ghost use Rattle.conflict_finder.specs.declared.refusal.FindRefusal.TheVariants as refusal;

    ghost from_gives = { λ _ e. e ≡ refusal.NoMemory };

    fn from(_error: AllocError) -> FindRefusal {
        FindRefusal::NoMemory
    }
}

impl<T: Drop> From<AllocFailed<T>> for FindRefusal {
    ghost use Rattle.conflict_finder.specs.declared.refusal.FindRefusal.TheVariants as refusal;

    ghost from_gives = { λ _ e. e ≡ refusal.NoMemory };

    fn from(_error: AllocFailed<T>) -> FindRefusal {
        FindRefusal::NoMemory
    }
}

impl From<JoinRefusal> for FindRefusal {
    ghost use Rattle.conflict_finder.specs.Finding.{refusal_of};

    ghost from_gives = { λ r e. e ≡ refusal_of r };

    fn from(error: JoinRefusal) -> FindRefusal {
        match error {
            JoinRefusal::TooManyHits => FindRefusal::Conflicts,
            JoinRefusal::NoMemory => FindRefusal::NoMemory,
        }
    }
}
