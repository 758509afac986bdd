//! How a call of a log fails.

/// Why a log didn't take a clause.
#[derive(Clone, Copy, Debug, PartialEq, Eq)]
pub enum LogFault {
    /// It failed, and counted a fault.
    Failed,
    /// Memory ran out, and the log is as it was.
    NoMemory,
}
