//! Why a query isn't read.

ghost use Rattle.std.specs.Prelude.{◌≡◌};

use crate::place::Fault;
use cq_terms::NoMemory;
use std::alloc::AllocFailed;

/// Why a query wasn't read.
#[derive(Clone, Copy, Debug, PartialEq, Eq)]
pub enum QueryRefusal {
    /// The text is no query: its first fault is at this byte, counted from 0 behind the byte order marks.
    BadToken {
        /// The position of the fault.
        at: u32,
    },
    /// The body has more than 12 atoms.
    TooManyAtoms,
    /// A variable of the head stood earlier in the head.
    RepeatedHead {
        /// The first such place of the head, from 0.
        place: u32,
    },
    /// A variable of the head isn't in the body.
    HeadNotInBody {
        /// The first such place of the head, from 0.
        place: u32,
    },
    /// Memory ran out.
    NoMemory,
}

/// What ends the reading of a text.
#[derive(Clone, Copy, Debug)]
pub(crate) enum Halt {
    /// The first fault of the text.
    Fault(Fault),
    /// Memory ran out.
    NoMemory,
}

impl From<Fault> for Halt {
    ghost use Rattle.query_reader.specs.declared.refusal.Halt.TheVariants as halt;

    ghost from_gives = { λ fault e. e ≡ halt.Fault fault };

    fn from(fault: Fault) -> Halt {
        Halt::Fault(fault)
    }
}

impl From<NoMemory> for Halt {
    ghost use Rattle.query_reader.specs.declared.refusal.Halt.TheVariants as halt;

    ghost from_gives = { λ _ e. e ≡ halt.NoMemory };

    fn from(_error: NoMemory) -> Halt {
        Halt::NoMemory
    }
}

impl<T: Drop> From<AllocFailed<T>> for Halt {
    ghost use Rattle.query_reader.specs.declared.refusal.Halt.TheVariants as halt;

    ghost from_gives = { λ _ e. e ≡ halt.NoMemory };

    fn from(_error: AllocFailed<T>) -> Halt {
        Halt::NoMemory
    }
}
