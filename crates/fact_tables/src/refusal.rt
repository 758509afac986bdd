//! Why a table is refused.

ghost use Rattle.std.specs.Prelude.{◌≡◌};

use cq_terms::NoMemory;
use std::alloc::AllocFailed;

/// Why a table of facts is refused. Records are counted from 1.
#[derive(Clone, Copy, Debug, PartialEq, Eq)]
pub enum FactRefusal {
    /// The record has neither two nor three fields.
    BadWidth { number: u32 },
    /// A field of the record isn't UTF-8.
    NotUtf8 { number: u32 },
    /// A field of the record is empty.
    EmptyField { number: u32 },
    /// There are more than 200,000 records.
    TooMany,
    /// Memory ran out.
    NoMemory,
}

impl From<NoMemory> for FactRefusal {
    ghost use Rattle.fact_tables.specs.declared.refusal.FactRefusal.TheVariants as refusal;

    ghost from_gives = { λ _ e. e ≡ refusal.NoMemory };

    fn from(_error: NoMemory) -> FactRefusal {
        FactRefusal::NoMemory
    }
}

/// Why a table of pairs is refused. Records are counted from 1.
#[derive(Clone, Copy, Debug, PartialEq, Eq)]
pub enum PairRefusal {
    /// The record doesn't have two fields.
    BadWidth { number: u32 },
    /// A field of the record isn't one or more digits, with blanks at either end.
    BadNumber { number: u32 },
    /// A field of the record is 0 or above the number of fact records.
    NoSuchRecord { number: u32 },
    /// There are more than 400,000 records.
    TooMany,
    /// Memory ran out.
    NoMemory,
}

impl From<NoMemory> for PairRefusal {
    ghost use Rattle.fact_tables.specs.declared.refusal.PairRefusal.TheVariants as refusal;

    ghost from_gives = { λ _ e. e ≡ refusal.NoMemory };

    fn from(_error: NoMemory) -> PairRefusal {
        PairRefusal::NoMemory
    }
}

impl<T: Drop> From<AllocFailed<T>> for PairRefusal {
    ghost use Rattle.fact_tables.specs.declared.refusal.PairRefusal.TheVariants as refusal;

    ghost from_gives = { λ _ e. e ≡ refusal.NoMemory };

    fn from(_error: AllocFailed<T>) -> PairRefusal {
        PairRefusal::NoMemory
    }
}
