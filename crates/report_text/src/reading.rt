//! Lines read.

ghost use Rattle.std.specs.Prelude.{◌≡◌, IfOk, IfSome, IsErrOf, Contains};
ghost use Rattle.std.specs.Str.{bytes_eq};
ghost use Rattle.serde_json.specs.Errors.{IsMemory};
ghost use Rattle.serde_json.specs.View.{view};
ghost use Rattle.report_text.specs.declared.line.Line.{Line};
ghost use Rattle.report_text.specs.declared.reading.ReadRefusal.TheVariants as refusal;
ghost use Rattle.report_text.specs.Lines.{IsWellFormed, text_of, line_of_kind, line_at, line_of};

use crate::Line;
use crate::answer::{answer_at, answer_in};
use crate::ask::{ask_at, ask_in};
use crate::conflict::{conflict_at, conflict_in};
use crate::core_line::{core_at, core_in};
use crate::cq_line::cq_at;
use crate::done::{done_at, done_in};
use crate::end::end_at;
use crate::forget::{forget_at, forget_in};
use crate::head::head_at;
use crate::learn::{learn_at, learn_in};
use crate::printing::put_line;
use crate::try_line::{try_at, try_in};
use cq_terms::NoMemory;
use report_fields::{Cursor, word_at};
use serde_json::{Error, Value};
use std::alloc::Global;

/// Why bytes were not read as a line.
#[derive(Clone, Copy, Debug, PartialEq, Eq)]
pub enum ReadRefusal {
    /// The bytes are the text of no line.
    BadLine,
    /// Memory ran out.
    NoMemory,
}

impl From<NoMemory> for ReadRefusal {
    ghost from_gives = { λ _ e. e ≡ refusal.NoMemory };

    fn from(_error: NoMemory) -> ReadRefusal {
        ReadRefusal::NoMemory
    }
}

/// The well-formed line whose text the bytes are, with no line feed at the end. `BadLine` where they
/// are the text of none: another order of keys, a space, a number with a leading zero or past its
/// range, a kind that isn't known.
pub fn read(alloc: Global, bytes: &[u8]) -> Result<Line, ReadRefusal>
    ensures exact { IfOk result (λ line. IsWellFormed line × (bytes.now ≡ text_of line)) }
    ensures bad_line { IsErrOf result ReadRefusal.BadLine
        → (line : Line) → IsWellFormed line → ¬ (bytes.now ≡ text_of line) }
{
    match read_at_once(alloc, bytes)? {
        Some(line) => Ok(line),
        None => read_by_value(alloc, bytes),
    }
}

/// The line whose text the bytes are, where it is found with no JSON value: it is of one of the kinds
/// that are many, and no name needs an escape. `read` tries this first.
pub fn read_at_once(alloc: Global, bytes: &[u8]) -> Result<Option<Line>, NoMemory>
    ensures exact { IfOk result
        (λ o. IfSome o (λ line. IsWellFormed line × (bytes.now ≡ text_of line))) }
{
    let Some(line) = line_in(alloc, bytes)? else {
        return Ok(None);
    };
    let same = has_text(alloc, &line, bytes)?;
    if same { Ok(Some(line)) } else { Ok(None) }
}

/// The line whose text the bytes are, of any kind, and whatever the names have. It answers as `read`
/// does, more slowly, and is public so that the two can be compared.
pub fn read_by_value(alloc: Global, bytes: &[u8]) -> Result<Line, ReadRefusal>
    ensures exact { IfOk result (λ line. IsWellFormed line × (bytes.now ≡ text_of line)) }
    ensures bad_line { IsErrOf result ReadRefusal.BadLine
        → (line : Line) → IsWellFormed line → ¬ (bytes.now ≡ text_of line) }
{
    let value = match Value::from_slice(alloc, bytes) {
        Ok(value) => value,
        Err(error) => return Err(refusal_of(&error)),
    };
    let Some(line) = line_at(alloc, &value)? else {
        return Err(ReadRefusal::BadLine);
    };
    let same = has_text(alloc, &line, bytes)?;
    if same {
        Ok(line)
    } else {
        Err(ReadRefusal::BadLine)
    }
}

fn has_text(alloc: Global, line: &Line, bytes: &[u8]) -> Result<bool, NoMemory>
    ensures exact { IfOk result (λ b. b ≡ bytes_eq (text_of line.now) bytes.now) }
{
    let mut text = String::with_capacity(alloc, bytes.len())?;
    put_line(&mut text, line)?;
    Ok(text.as_bytes() == bytes)
}

/// A line of the kind with whose first key the bytes begin.
fn line_in(alloc: Global, bytes: &[u8]) -> Result<Option<Line>, NoMemory>
    ensures right { IfOk result (λ o. IfSome o IsWellFormed) }
{
    let text = &mut Cursor::new(bytes);
    if text.takes(r#"{"assume":"#) {
        try_in(alloc, text)
    } else if text.takes(r#"{"dropped":"#) {
        core_in(alloc, text)
    } else if text.takes(r#"{"core":"#) {
        Ok(done_in(text))
    } else if text.takes(r#"{"ar":"#) {
        answer_in(alloc, text)
    } else if text.takes(r#"{"candidate":"#) {
        ask_in(alloc, text)
    } else if text.takes(r#"{"clause":"#) {
        learn_in(alloc, text)
    } else if text.takes(r#"{"clauses":"#) {
        forget_in(alloc, text)
    } else if text.takes(r#"{"facts":"#) {
        conflict_in(alloc, text)
    } else {
        Ok(None)
    }
}

fn refusal_of(error: &Error) -> ReadRefusal
    ensures exact { result ≡ ReadRefusal.BadLine → ¬ IsMemory error.now }
{
    if error.is_memory() {
        ReadRefusal::NoMemory
    } else {
        ReadRefusal::BadLine
    }
}

#[tactic(auto, unfolding(crate::specs::Lines::line_at))]
fn line_at(alloc: Global, value: &Value) -> Result<Option<Line>, NoMemory>
    ensures exact { IfOk result (λ o. o ≡ line_at (view value.now)) }
{
    match word_at(value, "k") {
        Some(word) => line_of_kind(alloc, word, value),
        None => Ok(None),
    }
}

fn line_of_kind(alloc: Global, word: &str, value: &Value) -> Result<Option<Line>, NoMemory>
    ensures exact { IfOk result (λ o. o ≡ line_of_kind word.now (view value.now)) }
{
    match word {
        "head" => Ok(head_at(value)),
        "cq" => cq_at(alloc, value),
        "conflict" => conflict_at(alloc, value),
        "ask" => ask_at(alloc, value),
        "try" => try_at(alloc, value),
        "learn" => learn_at(alloc, value),
        "core" => core_at(alloc, value),
        "done" => Ok(done_at(value)),
        "forget" => forget_at(alloc, value),
        "answer" => answer_at(alloc, value),
        "end" => Ok(end_at(value)),
        _ => Ok(None),
    }
}

/// Well-formed lines with equal texts are equal.
pub fn equal_texts_are_of_equal_lines()
    ensures { (one other : Line) → IsWellFormed one → IsWellFormed other → text_of one
        ≡ text_of other → one ≡ other }
{}

/// A line's text has no line feed.
pub fn texts_have_no_line_feed()
    ensures { (line : Line) → IsWellFormed line → ¬ (Contains (text_of line) 10) }
{}
