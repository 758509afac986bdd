//! What a row must come to.

use cqapri_cli::Status;
use memory_runs::{Texts, is_so};
use std::alloc::Global;
use std::process::Abort;

/// `classify` with more words decides all, by this table.
pub(crate) fn decides(
    rt: &impl Abort,
    alloc: Global,
    texts: &Texts<'_>,
    more: &[&str],
    table: &str,
) {
    match is_so(alloc, texts, more, Status::Done, table) {
        Ok(is_so) => assert!(rt; is_so, "of {table}"),
        Err(_) => panic!(rt; "no run"),
    }
}
