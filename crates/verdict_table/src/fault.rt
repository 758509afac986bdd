//! Why a table was not written whole.

ghost use Rattle.std.specs.Prelude.{◌≡◌};
ghost use Rattle.verdict_table.specs.declared.fault.TableFault.TheVariants as fault;
ghost use Rattle.verdict_table.specs.Faults.{fault_of};

use cq_terms::NoMemory;
use report_text::LineFault;

/// Why a table was not written whole.
#[derive(Clone, Copy, Debug, PartialEq, Eq)]
pub enum TableFault {
    /// The report isn't whole lines with one end at the end. Nothing was written.
    BadLine {
        /// The first line that is the text of no line or follows an end, counted from 1; the line after the last where there
        /// is no end.
        line: u64,
    },
    /// The sink failed, and counted it. Whole records and a part of the next may have been written.
    Failed,
    /// Memory ran out. Whole records may have been written.
    NoMemory,
}

impl From<NoMemory> for TableFault {
    ghost from_gives = { λ _ e. e ≡ fault.NoMemory };

    fn from(_error: NoMemory) -> TableFault {
        TableFault::NoMemory
    }
}

impl From<LineFault> for TableFault {
    ghost from_gives = { λ error e. e ≡ fault_of error };

    fn from(error: LineFault) -> TableFault {
        match error {
            LineFault::Failed => TableFault::Failed,
            LineFault::NoMemory => TableFault::NoMemory,
        }
    }
}
