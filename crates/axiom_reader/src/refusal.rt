//! The answers other than axioms.

ghost use Rattle.std.specs.Prelude.{◌≡◌};

use cq_terms::NoMemory;
use std::alloc::AllocFailed;

/// Why an ontology wasn't read. Lines are counted from 1.
#[derive(Clone, Copy, Debug, PartialEq, Eq)]
pub enum AxiomRefusal {
    /// The line is neither silent nor UTF-8.
    NotUtf8 { line: u32 },
    /// The line is neither silent nor an axiom.
    BadLine { line: u32 },
    /// There are more than 20,000 axioms.
    TooMany,
    /// Memory ran out.
    NoMemory,
}

impl From<NoMemory> for AxiomRefusal {
    ghost use Rattle.axiom_reader.specs.declared.refusal.AxiomRefusal.TheVariants as refusal;

    ghost from_gives = { λ _ e. e ≡ refusal.NoMemory };

    fn from(_error: NoMemory) -> AxiomRefusal {
        AxiomRefusal::NoMemory
    }
}

impl<T: Drop> From<AllocFailed<T>> for AxiomRefusal {
    ghost use Rattle.axiom_reader.specs.declared.refusal.AxiomRefusal.TheVariants as refusal;

    ghost from_gives = { λ _ e. e ≡ refusal.NoMemory };

    fn from(_error: AllocFailed<T>) -> AxiomRefusal {
        AxiomRefusal::NoMemory
    }
}
