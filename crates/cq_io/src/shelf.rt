//! A shelf: files by their names, seen as a map from names to bytes and a count of faults.
ghost use Rattle.std.specs.Prelude.{◌≡◌, ℕ, ◌^◌, ◌<◌, List, [], Option, IfOk, IfSome};
ghost use Rattle.cq_io.specs.Failing.{Failing, fails_next, after_fetch};
ghost use Rattle.cq_io.specs.declared.shelf.FetchFault.TheVariants.{NoMemory as no_memory};
ghost use Rattle.cq_io.specs.Faults.{TellsFault};
ghost use Rattle.cq_io.specs.Fetching.{has_failed, Fetches, FitsLimit};

use cq_terms::NoMemory;
use std::alloc::AllocError;

/// How the length of a file compares with the limit of a fetch.
#[derive(Clone, Copy, Debug, PartialEq, Eq)]
pub enum Size {
    /// The file has at most as many bytes as the limit. They were fetched.
    Whole,
    /// The file has more bytes than the limit. None was fetched.
    Longer,
    /// There is no file under the name.
    Missing,
}

/// Why a fetch failed.
#[derive(Clone, Copy, Debug, PartialEq, Eq)]
pub enum FetchFault {
    /// The shelf failed, and counted it.
    Failed,
    /// Memory ran out. The shelf counted nothing.
    NoMemory,
}

impl From<NoMemory> for FetchFault {
    ghost from_gives = { λ _ fault. fault ≡ no_memory };

    fn from(_error: NoMemory) -> FetchFault {
        FetchFault::NoMemory
    }
}

impl From<AllocError> for FetchFault {
    ghost from_gives = { λ _ fault. fault ≡ no_memory };

    fn from(_error: AllocError) -> FetchFault {
        FetchFault::NoMemory
    }
}

/// Where input files are read. A shelf may not tell what it holds, as one over real files.
pub trait Shelf {
    /// What it holds, where it tells it: the bytes under a name's bytes, or none where no file has
    /// that name.
    ghost holds: { Self → Option (List ℕ → Option (List ℕ)) };

    /// How often it has failed. The count never falls, and stays at 2^64 - 1 once it is reached.
    ghost faults: { Self → ℕ };

    /// Which of its fetches fail, where it tells it.
    ghost failing: { Self → Option Failing };

    /// Fetches the bytes of the file `name` into `into`, which is empty, where they are at most
    /// `limit`. Only after `Size::Whole` has `into` any bytes. `FetchFault::Failed` comes only
    /// where the shelf counted a fault in this call.
    fn fetch(&mut self, name: &str, limit: u64, into: &mut Vec<u8>) -> Result<Size, FetchFault>
        requires empty { into.old.items ≡ [] }
        requires limit_fits { limit < 2 ^ 32 }

        ensures exact { IfOk result (λ size. IfSome (holds self.old)
            (λ held. Fetches (held name.now) limit size into.new.items)) }
        // Whether the shelf tells what it holds or not.
        ensures fits { FitsLimit result limit into.new.items }
        ensures fault { TellsFault (faults self.old) (faults self.new) (has_failed result) }
        ensures told { IfSome (failing self.old) (λ told. has_failed result ≡ fails_next told) }

        ensures next { failing self.new ≡ after_fetch (failing self.old) }
        ensures same_files { holds self.new ≡ holds self.old };
}
