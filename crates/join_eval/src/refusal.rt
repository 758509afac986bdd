//! Why a join is refused.

ghost use Rattle.std.specs.Prelude.{◌≡◌};

use cq_terms::NoMemory;
use std::alloc::AllocFailed;

/// Why a query isn't joined with a table.
#[derive(Clone, Copy, Debug, PartialEq, Eq)]
pub enum JoinRefusal {
    /// There are more hits than the limit.
    TooManyHits,
    /// Memory ran out.
    NoMemory,
}

impl From<NoMemory> for JoinRefusal {
    ghost use Rattle.join_eval.specs.declared.refusal.JoinRefusal.TheVariants as refusal;

    ghost from_gives = { λ _ e. e ≡ refusal.NoMemory };

    fn from(_error: NoMemory) -> JoinRefusal {
        JoinRefusal::NoMemory
    }
}

impl<T: Drop> From<AllocFailed<T>> for JoinRefusal {
    ghost use Rattle.join_eval.specs.declared.refusal.JoinRefusal.TheVariants as refusal;

    ghost from_gives = { λ _ e. e ≡ refusal.NoMemory };

    fn from(_error: AllocFailed<T>) -> JoinRefusal {
        JoinRefusal::NoMemory
    }
}
