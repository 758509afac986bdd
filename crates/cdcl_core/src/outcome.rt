//! How a solve ends.

ghost use Rattle.std.specs.Prelude.{◌≡◌};
ghost use Rattle.cdcl_core.specs.declared.outcome.SolveFault.TheVariants as fault;

use cq_terms::NoMemory;
use std::alloc::AllocError;

/// How many clauses may be learned, and how many were.
#[derive(Clone, Copy, Debug, PartialEq, Eq)]
pub struct Budget {
    /// How many may be learned in all.
    pub limit: u64,
    /// How many were.
    pub used: u64,
}

/// How a solve ended.
#[derive(Clone, Copy, Debug, PartialEq, Eq)]
pub enum Outcome {
    /// The values satisfy the assumptions and every clause of the scope.
    Model,
    /// Propagation alone refutes the assumptions with the clauses of the scope.
    Refuted,
    /// The budget is used up, and propagation doesn't refute the assumptions.
    Spent,
}

/// Why a solve didn't come to an outcome.
#[derive(Clone, Copy, Debug, PartialEq, Eq)]
pub enum SolveFault {
    /// The log failed.
    Log,
    /// Memory ran out.
    NoMemory,
}

impl From<NoMemory> for SolveFault {
    ghost from_gives = { λ _ f. f ≡ fault.NoMemory };

    fn from(_error: NoMemory) -> SolveFault {
        SolveFault::NoMemory
    }
}

impl From<AllocError> for SolveFault {
    ghost from_gives = { λ _ f. f ≡ fault.NoMemory };

    fn from(_error: AllocError) -> SolveFault {
        SolveFault::NoMemory
    }
}
