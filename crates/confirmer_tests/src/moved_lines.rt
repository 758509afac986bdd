//! The report on the staff register with one of its lines twice, left out, or behind the next.

use crate::registers::Register;
use crate::staff::REPORT;
use crate::texts::are_bytes_told;
use std::alloc::{AllocError, Global};
use std::process::Abort;

// What becomes of a line.
#[derive(Clone, Copy)]
enum Move {
    Twice,
    LeftOut,
    BehindTheNext,
}

/// The number of the line, from 0, that the report had and now stands at a place.
fn line_at(step: Move, moved: usize, place: usize) -> usize {
    match step {
        Move::Twice if place > moved => place - 1,
        Move::LeftOut if place >= moved => place.saturating_add(1),
        Move::BehindTheNext if place == moved => place.saturating_add(1),
        Move::BehindTheNext if place > 0 && place - 1 == moved => moved,
        _ => place,
    }
}

/// The text with one line moved.
fn with_move(alloc: Global, text: &str, step: Move, moved: usize) -> Result<String, AllocError> {
    let mut report = String::new(alloc);
    for place in 0..text.len() {
        let Some(line) = text.lines().nth(line_at(step, moved, place)) else {
            return Ok(report);
        };
        report.push_str(line)?;
        report.push('\n')?;
    }
    Ok(report)
}

/// The report with each of its lines moved, one at a time, is told as the rows say.
fn are_told_moved(rt: &impl Abort, alloc: Global, step: Move, rows: &[&str]) {
    for (moved, wanted) in rows.iter().enumerate() {
        is_told_moved(rt, alloc, step, moved, wanted);
    }
}

fn is_told_moved(rt: &impl Abort, alloc: Global, step: Move, moved: usize, wanted: &str) {
    match with_move(alloc, REPORT, step, moved) {
        Ok(report) => are_bytes_told(rt, alloc, Register::Staff, report.as_bytes(), wanted),
        Err(_) => panic!(rt; "no report"),
    }
}

#[test]
fn a_line_twice_breaks_the_rule_of_the_second(rt: HostRuntime) {
    are_told_moved(
        &rt,
        rt.alloc(),
        Move::Twice,
        &[
            // A second head; a query that stands already.
            "2 order",
            "3 cq",
            "4 cq",
            "5 cq",
            "6 cq",
            // A conflict more than there are; an answer in an answer.
            "7 conflict",
            "8 order",
            // A try in a try, a second core in a try, an end of no try.
            "9 order",
            "10 order",
            "11 order",
            "12 order",
            "13 order",
            "14 order",
            // An answer of no candidate; what stands behind the end.
            "15 order",
            "16 order",
        ],
    );
}

#[test]
fn a_line_left_out_is_missed(rt: HostRuntime) {
    are_told_moved(
        &rt,
        rt.alloc(),
        Move::LeftOut,
        &[
            // No head; a block that begins with a move, or that lacks a query of one.
            "1 order",
            "2 cq",
            "3 closed",
            "4 cq",
            "5 closed",
            // No conflict; a try of no answer.
            "6 conflict",
            "7 order",
            // A core of no try, a core that doesn't stand there, a try that doesn't end.
            "8 order",
            "9 done",
            "10 order",
            "11 order",
            "12 done",
            "13 order",
            // An answer that doesn't end, and a report that doesn't.
            "14 order",
            "15 missing",
        ],
    );
}

#[test]
fn a_line_behind_the_next_is_missed_where_it_stood(rt: HostRuntime) {
    are_told_moved(
        &rt,
        rt.alloc(),
        Move::BehindTheNext,
        &[
            "1 order",
            "2 cq",
            "3 closed",
            "4 cq",
            "5 closed",
            "6 conflict",
            "7 order",
            "8 order",
            "9 done",
            "10 order",
            "11 order",
            "12 done",
            "13 order",
            "14 order",
        ],
    );
}
