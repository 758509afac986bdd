//! Why causes aren't answered.

ghost use Rattle.std.specs.Prelude.{◌≡◌};

use cq_terms::NoMemory;
use std::alloc::AllocFailed;

/// Why the causes of a query aren't answered.
#[derive(Clone, Copy, Debug, PartialEq, Eq)]
pub enum CauseRefusal {
    /// There are more pairs of a tuple and a support of it than the limit.
    TooManySupports,
    /// Memory ran out.
    NoMemory,
}

impl From<NoMemory> for CauseRefusal {
    ghost use Rattle.cause_finder.specs.declared.refusal.CauseRefusal.TheVariants as refusal;

    ghost from_gives = { λ _ e. e ≡ refusal.NoMemory };

    fn from(_error: NoMemory) -> CauseRefusal {
        CauseRefusal::NoMemory
    }
}

impl<T: Drop> From<AllocFailed<T>> for CauseRefusal {
    ghost use Rattle.cause_finder.specs.declared.refusal.CauseRefusal.TheVariants as refusal;

    ghost from_gives = { λ _ e. e ≡ refusal.NoMemory };

    fn from(_error: AllocFailed<T>) -> CauseRefusal {
        CauseRefusal::NoMemory
    }
}
