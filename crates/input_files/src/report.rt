//! Fetches the report to confirm.

ghost use Rattle.std.specs.Prelude.{◌≡◌, IfOk, IfErr, IfSome};
ghost use Rattle.cq_io.specs.Failing.{after_fetch};
ghost use Rattle.cq_io.specs.Faults.{TellsFault};
ghost use Rattle.cqapri_words.specs.declared.files.File.TheVariants as file;
ghost use Rattle.input_files.specs.Ends.{IsOf};
ghost use Rattle.input_files.specs.Fetching.{TellsNext, is_read_fault};
ghost use Rattle.input_files.specs.Inputs.{StopsReport};
ghost use Rattle.input_files.specs.Meaning.{IsFetchedReport};

use crate::fetch::fetch;
use cq_io::Shelf;
use cqapri_words::{File, Refusal};
use std::alloc::Global;

/// Fetches the report to confirm.
pub fn fetch_report<S: Shelf>(alloc: Global, files: &mut S, name: &str) -> Result<Vec<u8>, Refusal>
    ensures exact { IfOk result (λ bytes. IsFetchedReport (S.holds files.old) name.now bytes.items) }
    ensures refused { IfErr result (λ r. IfSome (S.holds files.old) (λ held. StopsReport held name.now r)) }
    ensures of_report { IfErr result (IsOf file.Report) }

    ensures fault { TellsFault (S.faults files.old) (S.faults files.new) (is_read_fault result) }
    ensures told { TellsNext (S.failing files.old) (is_read_fault result) }

    ensures next { S.failing files.new ≡ after_fetch (S.failing files.old) }
    ensures same_files { S.holds files.new ≡ S.holds files.old }
{
    fetch(alloc, files, File::Report, name)
}
