//! The verdicts of a report as the table that `table` prints, and `confirm` of the report.

use crate::{Texts, classified, confirmed, tabulated};
use cqapri_cli::Status;
use std::alloc::Global;
use std::test::Fail;

/// Whether `classify` with more words ends with the status and nothing on `err`, `table` prints this of its report, and
/// `confirm` accepts it.
pub fn is_so(
    alloc: Global,
    texts: &Texts<'_>,
    more: &[&str],
    status: Status,
    table: &str,
) -> Result<bool, Fail> {
    let ended = classified(alloc, texts, more)?;
    let report = ended.out.written();
    let is_right = ended.status == status && ended.err.written().is_empty();
    let is_table = tabulated(alloc, report)?.is(Status::Done, table, "");
    Ok(is_right && is_table && is_accepted(alloc, texts, report, table)?)
}

/// Whether `confirm` accepts the report, with as many answers as the table has records.
fn is_accepted(alloc: Global, texts: &Texts<'_>, report: &[u8], table: &str) -> Result<bool, Fail> {
    let ended = confirmed(alloc, texts, report)?;
    let answers = table.lines().count();
    let accepted = format!(in alloc; "accepted {answers}\n")?;
    Ok(ended.is(Status::Done, &accepted, ""))
}
