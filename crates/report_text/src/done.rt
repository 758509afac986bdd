//! How a try ended, with the core that is its model.

ghost use Rattle.std.specs.Prelude.{◌≡◌, ◌<◌, ◌^◌, ◌++◌, OnOk, IfOk, IfSome, string_bytes};
ghost use Rattle.serde_json.specs.Data.{string};
ghost use Rattle.serde_json.specs.View.{view};
ghost use Rattle.serde_json.specs.Written.{compact_text};
ghost use Rattle.report_text.specs.DoneLine.{how_word, how_of, how_at, has_its_core, done_data, done_at};
ghost use Rattle.report_text.specs.Lines.{IsWellFormed};

use crate::{How, Line};
use report_fields::{Cursor, long_or_null_at, put_long_or_null, word_at};
use serde_json::Value;
use std::alloc::AllocError;

/// Appends the text of the end of a try.
pub fn put_done(out: &mut String, how: How, core: Option<u64>) -> Result<(), AllocError>
    ensures exact { OnOk result (string_bytes out.new
        ≡ string_bytes out.old ++ compact_text (done_data how core)) }
{
    out.push_str(r#"{"core":"#)?;
    put_long_or_null(out, core)?;
    out.push_str(r#","how":"#)?;
    out.push_str(how_text(how))?;
    out.push_str(r#","k":"done"}"#)?;
    Ok(())
}

/// The end of a try behind the key `core`, where a core stands exactly with a model.
pub fn done_in(text: &mut Cursor<'_>) -> Option<Line>
    ensures right { IfSome result IsWellFormed }
{
    let core = long_or_null_in(text);
    text.takes(r#","how":"#);
    let how = how_in(text)?;
    if has_its_core(how, core) {
        Some(Line::Done { how, core })
    } else {
        None
    }
}

fn long_or_null_in(text: &mut Cursor<'_>) -> Option<u64>
    ensures fit { IfSome result (λ n. n < 2 ^ 64) }
{
    if text.takes("null") {
        None
    } else {
        Some(text.long())
    }
}

fn how_in(text: &mut Cursor<'_>) -> Option<How> {
    if text.takes(r#""model""#) {
        Some(How::Model)
    } else if text.takes(r#""refuted""#) {
        Some(How::Refuted)
    } else if text.takes(r#""spent""#) {
        Some(How::Spent)
    } else {
        None
    }
}

/// The end of a try whose fields the value has, where a core stands exactly with a model.
pub fn done_at(value: &Value) -> Option<Line>
    ensures exact { result ≡ done_at (view value.now) }
{
    let how = how_at(value)?;
    let core = long_or_null_at(value, "core")?;
    if has_its_core(how, core) {
        Some(Line::Done { how, core })
    } else {
        None
    }
}

/// The word for how a try ended, between quotes.
#[tactic(auto, unfolding(json::specs::Print::escape_byte))]
fn how_text(how: How) -> &'static str
    ensures exact { result.now ≡ compact_text (string (how_word how)) }
{
    match how {
        How::Model => r#""model""#,
        How::Refuted => r#""refuted""#,
        How::Spent => r#""spent""#,
    }
}

fn how_of(word: &str) -> Option<How>
    ensures exact { result ≡ how_of word.now }
{
    match word {
        "model" => Some(How::Model),
        "refuted" => Some(How::Refuted),
        "spent" => Some(How::Spent),
        _ => None,
    }
}

fn how_at(value: &Value) -> Option<How>
    ensures exact { result ≡ how_at (view value.now) }
{
    how_of(word_at(value, "how")?)
}

fn has_its_core(how: How, core: Option<u64>) -> bool
    ensures exact { result ≡ has_its_core how core }
{
    match (how, core) {
        (How::Model, Some(_)) => true,
        (How::Refuted | How::Spent, None) => true,
        _ => false,
    }
}
