//! What a report has to say of answers with given verdicts: its `answer` lines in their order, and its last line.

use crate::texts::put_pieces;
use plain_chase::{Judged, Tuple};
use std::alloc::{AllocError, Global};

/// The individuals by their numbers, as names and as numbers in a report.
const NAMES: [&str; 3] = ["\"c\"", "\"a\"", "\"b\""];

const NUMBERS: [&str; 3] = ["0", "1", "2"];

/// Whether the report has these answers, each with its verdicts, and counts them so at its end.
pub(crate) fn says(alloc: Global, report: &[u8], judged: &[Judged]) -> Result<bool, AllocError> {
    let end = end_line(alloc, judged)?;
    Ok(report.ends_with(end.as_bytes()) && has_answers(alloc, report, judged)?)
}

/// Whether the `answer` lines of the report are these. No other line begins as they do.
fn has_answers(alloc: Global, report: &[u8], judged: &[Judged]) -> Result<bool, AllocError> {
    let mut place = 0usize;
    for line in report.split(|byte| *byte == b'\n') {
        if line.starts_with(b"{\"ar\":") {
            if !is_next(alloc, line, judged, place)? {
                return Ok(false);
            }
            place = place.saturating_add(1);
        }
    }
    Ok(place == judged.len())
}

/// Whether there is an answer at the place, and the line says it.
fn is_next(
    alloc: Global,
    line: &[u8],
    judged: &[Judged],
    place: usize,
) -> Result<bool, AllocError> {
    match judged.get(place) {
        Some(answer) => is_answer(alloc, line, answer),
        None => Ok(false),
    }
}

/// Whether the line says the answer. Between its beginning and its end are the numbers of its cores.
fn is_answer(alloc: Global, line: &[u8], answer: &Judged) -> Result<bool, AllocError> {
    let begin = answer_begin(alloc, answer)?;
    let end = answer_end(alloc, answer)?;
    Ok(line.starts_with(begin.as_bytes()) && line.ends_with(end.as_bytes()))
}

/// The word for a verdict.
fn word(holds: bool) -> &'static str {
    if holds { "yes" } else { "no" }
}

/// How the line of the answer begins.
fn answer_begin(alloc: Global, answer: &Judged) -> Result<String, AllocError> {
    let mut text = String::new(alloc);
    let (ar, brave) = (word(answer.ar), word(answer.brave));
    put_pieces(
        &mut text,
        &["{\"ar\":\"", ar, "\",\"brave\":\"", brave, "\",\"cores\":["],
    )?;
    Ok(text)
}

/// How the line of the answer ends.
fn answer_end(alloc: Global, answer: &Judged) -> Result<String, AllocError> {
    let mut text = String::new(alloc);
    put_pieces(
        &mut text,
        &[
            "],\"iar\":\"",
            word(answer.iar),
            "\",\"k\":\"answer\",\"names\":[",
        ],
    )?;
    put_pieces(&mut text, &tuple_pieces(&NAMES, answer.tuple))?;
    text.push_str("],\"tuple\":[")?;
    put_pieces(&mut text, &tuple_pieces(&NUMBERS, answer.tuple))?;
    text.push_str("]}")?;
    Ok(text)
}

/// The pieces for the individuals of a tuple.
fn tuple_pieces(texts: &[&'static str], tuple: Tuple) -> [&'static str; 3] {
    let [first, second] = tuple;
    let between = if second.is_some() { "," } else { "" };
    [piece(texts, first), between, piece(texts, second)]
}

/// The piece for an individual.
fn piece(texts: &[&'static str], individual: Option<usize>) -> &'static str {
    let Some(number) = individual else {
        return "";
    };
    match texts.get(number) {
        Some(text) => text,
        None => "",
    }
}

/// The last line of a report with these answers.
fn end_line(alloc: Global, judged: &[Judged]) -> Result<String, AllocError> {
    let answers = judged.len();
    let brave = judged.iter().filter(|answer| answer.brave).count();
    let ar = judged.iter().filter(|answer| answer.ar).count();
    let iar = judged.iter().filter(|answer| answer.iar).count();
    let counts = format!(in alloc;
        "\"answers\":{answers},\"ar\":{ar},\"brave\":{brave},\"iar\":{iar}"
    )?;
    let mut text = String::new(alloc);
    put_pieces(
        &mut text,
        &["\n{", counts.as_str(), ",\"k\":\"end\",\"undecided\":0}\n"],
    )?;
    Ok(text)
}
