//! Lines, each taken from the front of a text, and what they give.

ghost use Rattle.std.specs.Prelude.{◌≡◌, ◌≤◌, ◌<◌, length, position};
ghost use Rattle.axiom_reader.specs.Lines.{is_line_end, skip_marks, without_return};
ghost use Rattle.axiom_reader.specs.Parts.{IsFirstLine, outcome_of};
ghost use Rattle.axiom_reader.specs.Reading.{Gives};

use crate::axiom::{NamedAxiom, axiom};
use crate::words::is_silent;

/// What a line gives.
#[derive(Clone, Copy, Debug)]
pub(crate) enum Line<'a> {
    /// Nothing: the line is blank or a comment.
    Nothing,
    /// An axiom over names.
    Axiom(NamedAxiom<'a>),
    /// A fault: the line isn't UTF-8.
    NotUtf8,
    /// A fault: the line has no form of an axiom.
    Bad,
}

/// What a line without its end gives.
pub(crate) fn line_of(text: &[u8]) -> Line<'_>
    ensures exact { Gives text.now (outcome_of result) }
{
    if is_silent(text) {
        return Line::Nothing;
    }
    if str::from_utf8(text).is_err() {
        return Line::NotUtf8;
    }
    match axiom(text) {
        Some(named) => Line::Axiom(named),
        None => Line::Bad,
    }
}

/// The bytes after every byte order mark at the beginning.
pub(crate) fn skip_marks(bytes: &[u8]) -> &[u8]
    ensures exact { result.now ≡ skip_marks bytes.now }
    ensures shorter { length result.now ≤ length bytes.now }
{
    let mut rest = bytes;
    while rest.starts_with(&[0xEF, 0xBB, 0xBF]) {
        rest = &rest[3..];
    }
    rest
}

/// The first line without its end, and what comes after that.
pub(crate) fn first_line(text: &[u8]) -> (&[u8], &[u8])
    requires more { 0 < length text.now }

    ensures exact { IsFirstLine text.now result.0.now result.1.now }
{
    match line_end(text) {
        Some(place) => (without_return(&text[..place]), &text[place + 1..]),
        None => (without_return(text), &text[text.len()..]),
    }
}

/// The place of the first LF, or `None` where there is none.
fn line_end(text: &[u8]) -> Option<usize>
    ensures exact { result ≡ position is_line_end text.now }
{
    text.iter().position(|byte| *byte == b'\n')
}

/// The line without a CR at its end.
fn without_return(line: &[u8]) -> &[u8]
    ensures exact { result.now ≡ without_return line.now }
    ensures shorter { length result.now ≤ length line.now }
{
    let Some((last, before)) = line.split_last() else {
        return line;
    };
    if *last == b'\r' { before } else { line }
}
