//! Where a solver writes the clauses that it learns, and such a log in memory that can be told to fail.
#![tactic(auto)]

mod log_fault;
mod mem_log;
mod proof_log;

pub use log_fault::LogFault;
pub use mem_log::MemLog;
pub use proof_log::ProofLog;
