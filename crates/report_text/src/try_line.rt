//! A try: what is assumed for a question.

ghost use Rattle.std.specs.Prelude.{◌≡◌, ◌++◌, OnOk, IfOk, IfSome, string_bytes};
ghost use Rattle.serde_json.specs.Data.{string};
ghost use Rattle.serde_json.specs.View.{view};
ghost use Rattle.serde_json.specs.Written.{compact_text};
ghost use Rattle.report_text.specs.TryLine.{question_word, question_of, question_at, try_data, try_at};
ghost use Rattle.report_text.specs.Lines.{IsWellFormed};

use crate::{Line, Question};
use cq_terms::{Ids, NoMemory};
use report_fields::{Cursor, ids_at, put_ids, word_at};
use serde_json::Value;
use std::alloc::{AllocError, Global};

/// Appends the try's text.
pub fn put_try(out: &mut String, question: Question, assume: &Ids) -> Result<(), AllocError>
    ensures exact { OnOk result (string_bytes out.new
        ≡ string_bytes out.old ++ compact_text (try_data question assume.now)) }
{
    out.push_str(r#"{"assume":"#)?;
    put_ids(out, assume.as_slice())?;
    out.push_str(r#","k":"try","q":"#)?;
    out.push_str(question_text(question))?;
    out.push_str("}")?;
    Ok(())
}

/// The try behind the key `assume`.
pub fn try_in(alloc: Global, text: &mut Cursor<'_>) -> Result<Option<Line>, NoMemory>
    ensures right { IfOk result (λ o. IfSome o IsWellFormed) }
{
    let Some(assume) = text.ids(alloc)? else {
        return Ok(None);
    };
    text.takes(r#","k":"try","q":"#);
    let Some(question) = question_in(text) else {
        return Ok(None);
    };
    text.takes("}");
    Ok(Some(Line::Try { question, assume }))
}

/// The try whose fields the value has.
pub fn try_at(alloc: Global, value: &Value) -> Result<Option<Line>, NoMemory>
    ensures exact { IfOk result (λ o. o ≡ try_at (view value.now)) }
{
    let Some(question) = question_at(value) else {
        return Ok(None);
    };
    let Some(assume) = ids_at(alloc, value, "assume")? else {
        return Ok(None);
    };
    Ok(Some(Line::Try { question, assume }))
}

/// The word for a question, between quotes.
#[tactic(auto, unfolding(json::specs::Print::escape_byte))]
fn question_text(question: Question) -> &'static str
    ensures exact { result.now ≡ compact_text (string (question_word question)) }
{
    match question {
        Question::Brave => r#""brave""#,
        Question::Iar => r#""iar""#,
        Question::Ar => r#""ar""#,
    }
}

fn question_of(word: &str) -> Option<Question>
    ensures exact { result ≡ question_of word.now }
{
    match word {
        "brave" => Some(Question::Brave),
        "iar" => Some(Question::Iar),
        "ar" => Some(Question::Ar),
        _ => None,
    }
}

fn question_at(value: &Value) -> Option<Question>
    ensures exact { result ≡ question_at (view value.now) }
{
    question_of(word_at(value, "q")?)
}

fn question_in(text: &mut Cursor<'_>) -> Option<Question> {
    if text.takes(r#""brave""#) {
        Some(Question::Brave)
    } else if text.takes(r#""iar""#) {
        Some(Question::Iar)
    } else if text.takes(r#""ar""#) {
        Some(Question::Ar)
    } else {
        None
    }
}
