//! An answer: a candidate with its verdicts.

ghost use Rattle.std.specs.Prelude.{◌≡◌, ◌++◌, OnOk, IfOk, IfSome, string_bytes};
ghost use Rattle.serde_json.specs.Data.{string};
ghost use Rattle.serde_json.specs.View.{view};
ghost use Rattle.serde_json.specs.Written.{compact_text};
ghost use Rattle.report_text.specs.AnswerLine.{verdict_word, answer_data, verdict_of, verdict_at, answer_at};
ghost use Rattle.report_text.specs.Lines.{IsWellFormed};

use crate::{Line, Verdict};
use cq_terms::{Ids, Longs, NoMemory, Texts};
use report_fields::{Cursor, ids_at, longs_at, put_ids, put_longs, put_texts, texts_at, word_at};
use serde_json::Value;
use std::alloc::{AllocError, Global};

/// Appends the answer's text.
pub fn put_answer(
    out: &mut String,
    brave: Verdict,
    ar: Verdict,
    iar: Verdict,
    cores: &Longs,
    names: &Texts,
    tuple: &Ids,
) -> Result<(), AllocError>
    ensures exact { OnOk result (string_bytes out.new ≡ string_bytes out.old
        ++ compact_text (answer_data brave ar iar cores.now names.now tuple.now)) }
{
    out.push_str(r#"{"ar":"#)?;
    out.push_str(verdict_text(ar))?;
    out.push_str(r#","brave":"#)?;
    out.push_str(verdict_text(brave))?;
    out.push_str(r#","cores":"#)?;
    put_longs(out, cores.as_slice())?;
    out.push_str(r#","iar":"#)?;
    out.push_str(verdict_text(iar))?;
    out.push_str(r#","k":"answer","names":"#)?;
    put_texts(out, names.as_slice())?;
    out.push_str(r#","tuple":"#)?;
    put_ids(out, tuple.as_slice())?;
    out.push_str("}")?;
    Ok(())
}

/// The answer behind the key `ar`.
pub fn answer_in(alloc: Global, text: &mut Cursor<'_>) -> Result<Option<Line>, NoMemory>
    ensures right { IfOk result (λ o. IfSome o IsWellFormed) }
{
    let Some(ar) = verdict_in(text) else {
        return Ok(None);
    };
    text.takes(r#","brave":"#);
    let Some(brave) = verdict_in(text) else {
        return Ok(None);
    };
    text.takes(r#","cores":"#);
    let Some(cores) = text.longs(alloc)? else {
        return Ok(None);
    };
    text.takes(r#","iar":"#);
    let Some(iar) = verdict_in(text) else {
        return Ok(None);
    };
    text.takes(r#","k":"answer","names":"#);
    let Some(names) = text.texts(alloc)? else {
        return Ok(None);
    };
    text.takes(r#","tuple":"#);
    let Some(tuple) = text.ids(alloc)? else {
        return Ok(None);
    };
    Ok(Some(Line::Answer {
        brave,
        ar,
        iar,
        cores,
        names,
        tuple,
    }))
}

fn verdict_in(text: &mut Cursor<'_>) -> Option<Verdict> {
    if text.takes(r#""yes""#) {
        Some(Verdict::Yes)
    } else if text.takes(r#""no""#) {
        Some(Verdict::No)
    } else if text.takes(r#""undecided""#) {
        Some(Verdict::Undecided)
    } else {
        None
    }
}

/// The answer whose fields the value has.
pub fn answer_at(alloc: Global, value: &Value) -> Result<Option<Line>, NoMemory>
    ensures exact { IfOk result (λ o. o ≡ answer_at (view value.now)) }
{
    let Some(brave) = verdict_at(value, "brave") else {
        return Ok(None);
    };
    let Some(ar) = verdict_at(value, "ar") else {
        return Ok(None);
    };
    let Some(iar) = verdict_at(value, "iar") else {
        return Ok(None);
    };
    let Some(cores) = longs_at(alloc, value, "cores")? else {
        return Ok(None);
    };
    let Some(names) = texts_at(alloc, value, "names")? else {
        return Ok(None);
    };
    let Some(tuple) = ids_at(alloc, value, "tuple")? else {
        return Ok(None);
    };
    Ok(Some(Line::Answer {
        brave,
        ar,
        iar,
        cores,
        names,
        tuple,
    }))
}

/// The word for a verdict, between quotes.
#[tactic(auto, unfolding(json::specs::Print::escape_byte))]
fn verdict_text(verdict: Verdict) -> &'static str
    ensures exact { result.now ≡ compact_text (string (verdict_word verdict)) }
{
    match verdict {
        Verdict::Yes => r#""yes""#,
        Verdict::No => r#""no""#,
        Verdict::Undecided => r#""undecided""#,
    }
}

fn verdict_of(word: &str) -> Option<Verdict>
    ensures exact { result ≡ verdict_of word.now }
{
    match word {
        "yes" => Some(Verdict::Yes),
        "no" => Some(Verdict::No),
        "undecided" => Some(Verdict::Undecided),
        _ => None,
    }
}

fn verdict_at(value: &Value, key: &str) -> Option<Verdict>
    ensures exact { result ≡ verdict_at key.now (view value.now) }
{
    verdict_of(word_at(value, key)?)
}
