//! Why a closure isn't answered.

ghost use Rattle.std.specs.Prelude.{◌≡◌};

use cq_terms::NoMemory;

/// Why a closure isn't answered.
#[derive(Clone, Copy, Debug, PartialEq, Eq)]
pub enum CloseRefusal {
    /// The closure has more members than the limit.
    TooManyCqs,
    /// Memory ran out.
    NoMemory,
}

impl From<NoMemory> for CloseRefusal {
    ghost use Rattle.perfect_ref.specs.declared.refusal.CloseRefusal.TheVariants as refusal;

    ghost from_gives = { λ _ e. e ≡ refusal.NoMemory };

    fn from(_error: NoMemory) -> CloseRefusal {
        CloseRefusal::NoMemory
    }
}
