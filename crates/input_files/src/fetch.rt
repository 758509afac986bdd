//! Fetches one file within its limit.

ghost use Rattle.std.specs.Prelude.{◌≡◌, IfOk, IfErr, IfSome};
ghost use Rattle.cq_io.specs.Failing.{after_fetch};
ghost use Rattle.cq_io.specs.Faults.{TellsFault};
ghost use Rattle.input_files.specs.Ends.{IsOf};
ghost use Rattle.input_files.specs.Fetching.{IsFetched, StopsFetch, TellsNext, is_read_fault};

use cq_io::{FetchFault, Shelf, Size};
use cqapri_words::{File, Refusal};
use std::alloc::Global;

/// Fetches a file.
pub(crate) fn fetch<S: Shelf>(
    alloc: Global,
    files: &mut S,
    file: File,
    name: &str,
) -> Result<Vec<u8>, Refusal>
    ensures exact { IfOk result (λ bytes. IsFetched (S.holds files.old) name.now file bytes.items) }
    ensures refused { IfErr result (λ r. IfSome (S.holds files.old) (λ held. StopsFetch held name.now file r)) }
    ensures of_file { IfErr result (IsOf file) }

    ensures fault { TellsFault (S.faults files.old) (S.faults files.new) (is_read_fault result) }
    ensures told { TellsNext (S.failing files.old) (is_read_fault result) }

    ensures next { S.failing files.new ≡ after_fetch (S.failing files.old) }
    ensures same_files { S.holds files.new ≡ S.holds files.old }
{
    let mut bytes = Vec::new(alloc);
    match files.fetch(name, file.limit(), &mut bytes) {
        Ok(Size::Whole) => Ok(bytes),
        Ok(Size::Longer) => Err(Refusal::Limit(file.length())),
        Ok(Size::Missing) => Err(Refusal::NotThere(file)),
        Err(FetchFault::Failed) => Err(Refusal::ReadFault(file)),
        Err(FetchFault::NoMemory) => Err(Refusal::NoMemory),
    }
}
