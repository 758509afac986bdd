//! Reports as texts, and what is said of them. A row is a part of the text, what is put for it, and what is said then, with `~` between.

use crate::registers::{Register, knowledge, query_of};
use cq_terms::Vocab;
use refutation_confirmer::{ConfirmFault, Confirmed, confirm};
use std::alloc::{AllocError, Global};
use std::process::Abort;
use std::test::Fail;

/// How many bytes a report here has at most: as many as the program takes.
pub const LONGEST: usize = 268_435_456;

/// The report, with the alteration of each row, is told as the row says.
pub fn are_told(rt: &impl Abort, alloc: Global, register: Register, report: &str, rows: &[&str]) {
    for row in rows {
        is_told(rt, alloc, register, report, row);
    }
}

fn is_told(rt: &impl Abort, alloc: Global, register: Register, report: &str, row: &str) {
    match is_told_so(alloc, register, report, row) {
        Ok(is_told) => assert!(rt; is_told, "of {row}"),
        Err(_) => panic!(rt; "no answer to {row}"),
    }
}

fn is_told_so(alloc: Global, register: Register, report: &str, row: &str) -> Result<bool, Fail> {
    let (text, wanted) = altered(alloc, report, row)?;
    let told = said(alloc, register, text.as_bytes())?;
    Ok(told.as_str() == wanted)
}

/// The report, cut off and ended as each row says, is told as the row says.
pub fn are_told_when_cut(
    rt: &impl Abort,
    alloc: Global,
    register: Register,
    report: &str,
    rows: &[&str],
) {
    for row in rows {
        is_told_when_cut(rt, alloc, register, report, row);
    }
}

fn is_told_when_cut(rt: &impl Abort, alloc: Global, register: Register, report: &str, row: &str) {
    match is_cut_so(alloc, register, report, row) {
        Ok(is_told) => assert!(rt; is_told, "of {row}"),
        Err(_) => panic!(rt; "no answer to {row}"),
    }
}

fn is_cut_so(alloc: Global, register: Register, report: &str, row: &str) -> Result<bool, Fail> {
    let (text, wanted) = cut(alloc, report, row)?;
    let told = said(alloc, register, text.as_bytes())?;
    Ok(told.as_str() == wanted)
}

// The text where the one part of a row is put for the other, where that stands first, and what the row says of it.
fn altered<'a>(alloc: Global, text: &str, row: &'a str) -> Result<(String, &'a str), Fail> {
    let (old, rest) = row.split_once('~').ok_or("no row")?;
    let (new, wanted) = rest.split_once('~').ok_or("no row")?;
    let (front, back) = text.split_once(old).ok_or("the text isn't there")?;
    let report = format!(in alloc; "{front}{new}{back}")?;
    Ok((report, wanted))
}

// The text before the first part of a row, with the second behind it, and what the row says of it.
fn cut<'a>(alloc: Global, text: &str, row: &'a str) -> Result<(String, &'a str), Fail> {
    let (old, rest) = row.split_once('~').ok_or("no row")?;
    let (new, wanted) = rest.split_once('~').ok_or("no row")?;
    let (front, _back) = text.split_once(old).ok_or("the text isn't there")?;
    let report = format!(in alloc; "{front}{new}")?;
    Ok((report, wanted))
}

/// The bytes of a report are told as is wanted.
pub fn are_bytes_told(
    rt: &impl Abort,
    alloc: Global,
    register: Register,
    report: &[u8],
    wanted: &str,
) {
    match said(alloc, register, report) {
        Ok(told) => assert!(rt; told.as_str() == wanted, "{told} in place of {wanted}"),
        Err(_) => panic!(rt; "no answer in place of {wanted}"),
    }
}

// What is said of a report on the register: how many answers it has, its first broken line with the rule, or how long its cycle is.
fn said(alloc: Global, register: Register, report: &[u8]) -> Result<String, Fail> {
    if report.len() > LONGEST {
        return Err(Fail::from("the report is long"));
    }
    let kb = knowledge(alloc, register)?;
    let query = query_of(alloc, register)?;
    let vocab = names(alloc)?;
    let text = told(alloc, confirm(alloc, &kb, &vocab, &query, report))?;
    Ok(text)
}

fn told(alloc: Global, said: Result<Confirmed, ConfirmFault>) -> Result<String, AllocError> {
    match said {
        Ok(Confirmed::Yes { answers }) => format!(in alloc; "yes {answers}"),
        Ok(Confirmed::No { line, rule }) => format!(in alloc; "{line} {rule}"),
        Err(ConfirmFault::Cycle { facts }) => {
            let count = facts.len();
            format!(in alloc; "cycle of {count}")
        }
        Err(ConfirmFault::NoMemory) => format!(in alloc; "no memory"),
    }
}

// The names of the individuals.
fn names(alloc: Global) -> Result<Vocab, Fail> {
    let mut vocab = Vocab::new(alloc);
    vocab.inds.put("ann")?;
    vocab.inds.put("bob")?;
    Ok(vocab)
}
