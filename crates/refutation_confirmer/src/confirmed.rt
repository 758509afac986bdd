//! What the confirmer answers.

ghost use Rattle.std.specs.Prelude.{◌≡◌};
ghost use Rattle.refutation_confirmer.specs.declared.confirmed.ConfirmFault.TheVariants as fault;

use cq_terms::{Ids, NoMemory};
use report_rules::Rule;
use std::alloc::AllocError;

/// Whether a report is accepted.
#[derive(Clone, Copy, Debug, PartialEq, Eq)]
pub enum Confirmed {
    /// Each line obeys its rule, and the last is the end.
    Yes {
        /// How many answers there are.
        answers: u64,
    },
    /// Some line breaks a rule.
    No {
        /// The first line that breaks a rule, counted from 1. It is the line after the last where the end is missing.
        line: u64,
        /// The first rule that it breaks.
        rule: Rule,
    },
}

/// Why a report was not judged.
#[derive(Debug, Drop)]
pub enum ConfirmFault {
    /// The priority has a cycle.
    Cycle {
        /// The facts of a cycle: each is better than the next, and the last than the first.
        facts: Ids,
    },
    /// Memory ran out.
    NoMemory,
}

impl From<NoMemory> for ConfirmFault {
    ghost from_gives = { λ _ e. e ≡ fault.NoMemory };

    fn from(_error: NoMemory) -> ConfirmFault {
        ConfirmFault::NoMemory
    }
}

impl From<AllocError> for ConfirmFault {
    ghost from_gives = { λ _ e. e ≡ fault.NoMemory };

    fn from(_error: AllocError) -> ConfirmFault {
        ConfirmFault::NoMemory
    }
}
