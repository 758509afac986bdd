//! Why the examples can't be run through.

use cq_io::{Failed, FetchFault};
use cq_terms::NoMemory;
use std::alloc::AllocError;

/// Why the examples can't be run through.
#[derive(Clone, Copy, Debug, PartialEq, Eq)]
pub(crate) enum Stopped {
    /// Memory ran out.
    NoMemory,
    /// A file could not be read.
    ReadFault,
    /// The output could not be written.
    WriteFault,
}

impl From<AllocError> for Stopped {
    fn from(_error: AllocError) -> Stopped {
        Stopped::NoMemory
    }
}

impl From<NoMemory> for Stopped {
    fn from(_error: NoMemory) -> Stopped {
        Stopped::NoMemory
    }
}

impl From<FetchFault> for Stopped {
    fn from(fault: FetchFault) -> Stopped {
        match fault {
            FetchFault::Failed => Stopped::ReadFault,
            FetchFault::NoMemory => Stopped::NoMemory,
        }
    }
}

impl From<Failed> for Stopped {
    fn from(_error: Failed) -> Stopped {
        Stopped::WriteFault
    }
}
