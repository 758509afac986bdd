//! Reports that are bytes of any kind: no text, deep nests and lines as long as a whole report may be.

use crate::registers::Register;
use crate::staff::REPORT;
use crate::texts::{LONGEST, are_bytes_told};
use std::alloc::{AllocError, Global};
use std::process::Abort;
use std::test::Fail;

// How deep a nest is.
const DEPTH: usize = 100_000;

const HEAD: &[u8] =
    br#"{"axioms":0,"budget":0,"facts":0,"k":"head","keep":0,"repairs":"all","version":1}
"#;

#[test]
fn no_bytes_miss_the_first_line(rt: HostRuntime) {
    are_bytes_told(&rt, rt.alloc(), Register::Empty, b"", "1 missing");
}

#[test]
fn a_byte_is_no_line(rt: HostRuntime) {
    for byte in 0..=255 {
        are_bytes_told(&rt, rt.alloc(), Register::Empty, &[byte], "1 text");
        are_bytes_told(&rt, rt.alloc(), Register::Empty, &[byte, b'\n'], "1 text");
    }
}

/// The staff report, with the bytes for the name, is told as is wanted.
fn is_name_told(rt: &impl Abort, alloc: Global, name: &[u8], wanted: &str) {
    match named(alloc, REPORT, name) {
        Ok(report) => are_bytes_told(rt, alloc, Register::Staff, &report, wanted),
        Err(_) => panic!(rt; "no report"),
    }
}

/// The text with the bytes in place of the name.
fn named(alloc: Global, text: &str, name: &[u8]) -> Result<Vec<u8>, Fail> {
    let (front, back) = text.split_once("ann").ok_or("no name")?;
    Ok(joined(alloc, front.as_bytes(), name, back.as_bytes())?)
}

/// The bytes one behind the other.
fn joined(alloc: Global, front: &[u8], part: &[u8], back: &[u8]) -> Result<Vec<u8>, AllocError> {
    let mut report = front.to_vec(alloc)?;
    report.extend_from_slice(part)?;
    report.extend_from_slice(back)?;
    Ok(report)
}

#[test]
fn bytes_that_are_no_text_make_no_name(rt: HostRuntime) {
    let alloc = rt.alloc();
    is_name_told(&rt, alloc, b"ann", "yes 1");
    // A byte of no text, one that only goes on, and one that begins what doesn't go on.
    is_name_told(&rt, alloc, b"\xffnn", "14 text");
    is_name_told(&rt, alloc, b"\x80nn", "14 text");
    is_name_told(&rt, alloc, b"an\xe2\x82", "14 text");
    // A letter that is written too long, a half of a pair, and a letter past the last plane.
    is_name_told(&rt, alloc, b"\xc1\xa1nn", "14 text");
    is_name_told(&rt, alloc, b"\xed\xa0\x80nn", "14 text");
    is_name_told(&rt, alloc, b"\xf4\x90\x80\x80nn", "14 text");
    // A control character stands in no text of JSON as it is.
    is_name_told(&rt, alloc, b"\x00nn", "14 text");
    is_name_told(&rt, alloc, b"\x1fnn", "14 text");
}

#[test]
fn other_texts_are_other_names(rt: HostRuntime) {
    let alloc = rt.alloc();
    is_name_told(&rt, alloc, b"\x7fnn", "14 answer");
    is_name_told(&rt, alloc, b"\xc3\xa4nn", "14 answer");
    is_name_told(&rt, alloc, b"\xf4\x8f\xbf\xbfnn", "14 answer");
    is_name_told(&rt, alloc, b"", "14 answer");
}

/// A line of a nest is no line's text.
fn is_nest_no_line(rt: &impl Abort, alloc: Global, front: &[u8], opening: &[u8], closing: &[u8]) {
    match nest(alloc, front, opening, closing) {
        Ok(report) => are_bytes_told(rt, alloc, Register::Empty, &report, "1 text"),
        Err(_) => panic!(rt; "no nest"),
    }
}

/// A line that begins with a part, and goes on with as many openings as a nest is deep, and as many closings.
fn nest(
    alloc: Global,
    front: &[u8],
    opening: &[u8],
    closing: &[u8],
) -> Result<Vec<u8>, AllocError> {
    let mut line = front.to_vec(alloc)?;
    put_often(&mut line, opening)?;
    put_often(&mut line, closing)?;
    line.push(b'\n')?;
    Ok(line)
}

/// Appends the part, as often as a nest is deep.
fn put_often(line: &mut Vec<u8>, part: &[u8]) -> Result<(), AllocError> {
    for _ in 0..DEPTH {
        line.extend_from_slice(part)?;
    }
    Ok(())
}

#[test]
fn a_deep_nest_is_no_line(rt: HostRuntime) {
    let alloc = rt.alloc();
    is_nest_no_line(&rt, alloc, b"", b"[", b"");
    is_nest_no_line(&rt, alloc, b"", b"[", b"]");
    is_nest_no_line(&rt, alloc, b"", b"{\"k\":", b"");
    is_nest_no_line(&rt, alloc, b"", b"{", b"}");
}

#[test]
fn a_deep_nest_is_no_list(rt: HostRuntime) {
    let alloc = rt.alloc();
    is_nest_no_line(&rt, alloc, b"{\"body\":", b"[", b"]");
    is_nest_no_line(&rt, alloc, b"{\"facts\":", b"[", b"]");
    is_nest_no_line(&rt, alloc, b"{\"candidate\":0,\"causes\":", b"[", b"]");
    is_nest_no_line(&rt, alloc, b"{\"assume\":", b"[", b"");
}

/// A line as long as a report may be, of one byte but for what it begins with, is no line's text.
fn is_long_line_no_line(rt: &impl Abort, alloc: Global, front: &[u8], byte: u8, wanted: &str) {
    match long_report(alloc, front, byte) {
        Ok(report) => are_bytes_told(rt, alloc, Register::Empty, &report, wanted),
        Err(_) => panic!(rt; "no report"),
    }
}

/// What begins with a part, goes on with one byte, and ends with a line feed.
fn long_report(alloc: Global, front: &[u8], byte: u8) -> Result<Vec<u8>, AllocError> {
    let mut report = vec![in alloc; byte; LONGEST]?;
    for (place, first) in report.iter_mut().zip(front.iter()) {
        *place = *first;
    }
    if let Some(last) = report.last_mut() {
        *last = b'\n';
    }
    Ok(report)
}

#[test]
fn a_long_number_is_no_line(rt: HostRuntime) {
    is_long_line_no_line(&rt, rt.alloc(), b"", b'7', "1 text");
    is_long_line_no_line(&rt, rt.alloc(), b"{\"core\":", b'0', "1 text");
}

#[test]
fn a_long_blank_is_no_line(rt: HostRuntime) {
    is_long_line_no_line(&rt, rt.alloc(), b"", b' ', "1 text");
    is_long_line_no_line(&rt, rt.alloc(), HEAD, b' ', "2 text");
}

#[test]
fn a_long_text_is_no_line(rt: HostRuntime) {
    is_long_line_no_line(&rt, rt.alloc(), b"{\"k\":\"", b'k', "1 text");
    is_long_line_no_line(&rt, rt.alloc(), HEAD, b'\xff', "2 text");
}
