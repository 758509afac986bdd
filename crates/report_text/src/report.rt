//! A report: where lines go, seen as the lines so far, the torn line and a count of faults.

ghost use Rattle.std.specs.Prelude.{◌≡◌, ℕ, List, Option, None, OnOk, OnErr};
ghost use Rattle.cq_io.specs.Faults.{TellsFault};
ghost use Rattle.report_text.specs.declared.line.Line.{Line};
ghost use Rattle.report_text.specs.declared.report.LineFault.TheVariants.{NoMemory as no_memory};
ghost use Rattle.report_text.specs.Lines.{IsWellFormed};
ghost use Rattle.report_text.specs.Reports.{has_failed, torn_after, AddsLine, StayTold};

use crate::Line;
use cq_terms::NoMemory;
use std::alloc::AllocError;

/// Why a line was not written.
#[derive(Clone, Copy, Debug, PartialEq, Eq)]
pub enum LineFault {
    /// The report failed, and counted it. A part of the line may have been written.
    Failed,
    /// Memory ran out. Nothing of the line was written.
    NoMemory,
}

impl From<NoMemory> for LineFault {
    ghost from_gives = { λ _ fault. fault ≡ no_memory };

    fn from(_error: NoMemory) -> LineFault {
        LineFault::NoMemory
    }
}

impl From<AllocError> for LineFault {
    ghost from_gives = { λ _ fault. fault ≡ no_memory };

    fn from(_error: AllocError) -> LineFault {
        LineFault::NoMemory
    }
}

/// Where the lines of a report go. A report may not tell its lines, as one over standard output.
///
/// A function that is given a report requires that it has no torn line, and says that the report's
/// target stays the same: so its caller knows which sink the lines went to.
pub trait Report {
    /// The lines so far, where the report tells them.
    ghost lines: { Self → Option (List Line) };

    /// The line at which the report failed, of which a part may have been written.
    ghost torn: { Self → Option Line };

    /// How often it has failed. The count never falls, and stays at 2^64 - 1 once it is reached.
    ghost faults: { Self → ℕ };

    /// The name that proofs give to the reference through which it writes, or any number where there is none.
    ghost target: { Self → ℕ };

    /// Appends a line. `Failed` comes only where the report counted a fault in this call.
    fn line(&mut self, line: &Line) -> Result<(), LineFault>
        requires form { IsWellFormed line.now }
        requires none_torn { torn self.old ≡ None }

        ensures added { OnOk result (AddsLine (lines self.old) (lines self.new) line.now) }
        ensures torn { torn self.new ≡ torn_after result line.now }
        ensures fault { TellsFault (faults self.old) (faults self.new) (has_failed result) }

        ensures unchanged { OnErr result (StayTold (lines self.old) (lines self.new)) }
        ensures same_target { target self.new ≡ target self.old };
}
