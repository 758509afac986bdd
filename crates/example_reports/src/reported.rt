//! An example that is answered: its report and its table, beside the stored ones.

ghost use Rattle.std.specs.Prelude.{◌≡◌, ◌↔◌, IsTrue};

use crate::example::{has_priority, put_file, stored, words};
use crate::running::{Ended, classified, end_of, tabulated};
use crate::stopped::Stopped;
use cq_io::{Shelf, Sink};
use cqapri_cli::Status;
use std::alloc::{AllocError, Global};

/// The end of `classify`, the stored report, the ends of `confirm` and `table` of that, and the stored table.
#[derive(Drop)]
pub(crate) struct Reported {
    classified: Ended,
    stored: Vec<u8>,
    confirmed: Ended,
    tabulated: Ended,
    table: Vec<u8>,
}

/// Classifies the folder's files, and confirms and tabulates its stored report.
pub(crate) fn report_of<S: Shelf>(
    alloc: Global,
    files: &mut S,
    folder: &str,
) -> Result<Reported, Stopped> {
    let has_priority = has_priority(alloc, files, folder)?;
    let classified = classified(alloc, files, folder, has_priority)?;
    let report = stored(alloc, files, folder, "report.txt")?;
    let confirmed = confirmed(alloc, files, folder, has_priority)?;
    let tabulated = tabulated(alloc, files, folder)?;
    let table = stored(alloc, files, folder, "table.csv")?;
    Ok(Reported {
        classified,
        stored: report,
        confirmed,
        tabulated,
        table,
    })
}

/// The end of `confirm` of the folder's stored report.
fn confirmed<S: Shelf>(
    alloc: Global,
    files: &mut S,
    folder: &str,
    has_priority: bool,
) -> Result<Ended, Stopped> {
    let mut words = words(alloc, "confirm", folder, has_priority)?;
    put_file(&mut words, "--report", folder, "report.txt")?;
    let ended = end_of(alloc, &words, files)?;
    Ok(ended)
}

impl Reported {
    /// Whether `classify` has decided all and written the stored report, which `confirm` accepts and of which `table` prints the
    /// stored table.
    pub(crate) fn is_as_stored(&self) -> bool
        ensures exact { IsTrue result ↔ ((self.now.classified.status ≡ Status.Done) × (self.now.classified.out.bytes ≡ self.now.stored.items)
            × (self.now.confirmed.status ≡ Status.Done) × (self.now.tabulated.status ≡ Status.Done)
            × (self.now.tabulated.out.bytes ≡ self.now.table.items)) }
    {
        self.classified.status == Status::Done
            && self.is_stored()
            && self.confirmed.status == Status::Done
            && self.tabulated.status == Status::Done
            && self.is_table_stored()
    }

    /// Whether `table` has printed the stored table.
    fn is_table_stored(&self) -> bool
        ensures exact { IsTrue result ↔ (self.now.tabulated.out.bytes ≡ self.now.table.items) }
    {
        self.tabulated.out.written() == self.table.as_slice()
    }

    /// Whether `classify` has written the stored report.
    fn is_stored(&self) -> bool
        ensures exact { IsTrue result ↔ (self.now.classified.out.bytes ≡ self.now.stored.items) }
    {
        self.classified.out.written() == self.stored.as_slice()
    }

    /// Writes the example's line.
    pub(crate) fn tell<O: Sink>(
        &self,
        alloc: Global,
        folder: &str,
        out: &mut O,
    ) -> Result<(), Stopped> {
        let first = self.first_part(alloc, folder)?;
        out.write_all(first.as_bytes())?;
        out.write_all(self.confirmed.out.written())?;
        out.write_all(self.confirmed.err.written())?;
        Ok(())
    }

    /// The line up to what `confirm` says.
    fn first_part(&self, alloc: Global, folder: &str) -> Result<String, AllocError> {
        let code = self.classified.status.code();
        let report = is_or_not(self.is_stored());
        let table = is_or_not(self.is_table_stored());
        format!(in alloc;
            "{folder}: classify ended with {code}, report {report} stored, table {table} stored; confirm: "
        )
    }
}

/// The word for what is, or isn't, as stored.
fn is_or_not(is_so: bool) -> &'static str {
    if is_so { "as" } else { "not as" }
}
