//! An example that is refused: its message, beside the stored one.

ghost use Rattle.std.specs.Prelude.{◌≡◌, ◌↔◌, [], IsTrue};

use crate::example::{has_priority, stored};
use crate::running::{Ended, classified};
use crate::stopped::Stopped;
use cq_io::{Shelf, Sink};
use cqapri_cli::Status;
use std::alloc::{AllocError, Global};

/// The end of `classify`, and the stored message.
#[derive(Drop)]
pub(crate) struct Refused {
    classified: Ended,
    stored: Vec<u8>,
}

/// Classifies the folder's files.
pub(crate) fn refusal_of<S: Shelf>(
    alloc: Global,
    files: &mut S,
    folder: &str,
) -> Result<Refused, Stopped> {
    let has_priority = has_priority(alloc, files, folder)?;
    let classified = classified(alloc, files, folder, has_priority)?;
    let stored = stored(alloc, files, folder, "message.txt")?;
    Ok(Refused { classified, stored })
}

impl Refused {
    /// Whether the files are refused with the stored message and no part of a report.
    pub(crate) fn is_as_stored(&self) -> bool
        ensures exact { IsTrue result ↔ ((self.now.classified.status ≡ Status.Refused) × (self.now.classified.out.bytes ≡ [])
            × (self.now.classified.err.bytes ≡ self.now.stored.items)) }
    {
        self.classified.status == Status::Refused
            && self.classified.out.written().is_empty()
            && self.is_stored()
    }

    /// Whether `classify` has written the stored message.
    fn is_stored(&self) -> bool
        ensures exact { IsTrue result ↔ (self.now.classified.err.bytes ≡ self.now.stored.items) }
    {
        self.classified.err.written() == self.stored.as_slice()
    }

    /// Writes the example's line.
    pub(crate) fn tell<O: Sink>(
        &self,
        alloc: Global,
        folder: &str,
        out: &mut O,
    ) -> Result<(), Stopped> {
        let line = self.line(alloc, folder)?;
        out.write_all(line.as_bytes())?;
        Ok(())
    }

    /// The example's line.
    fn line(&self, alloc: Global, folder: &str) -> Result<String, AllocError> {
        let code = self.classified.status.code();
        let is_stored = if self.is_stored() { "as" } else { "not as" };
        format!(in alloc; "{folder}: classify ended with {code}, message {is_stored} stored\n")
    }
}
