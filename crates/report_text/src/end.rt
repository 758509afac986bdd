//! The end: how many answers there are, and how many have each verdict.

ghost use Rattle.std.specs.Prelude.{◌≡◌, ◌++◌, OnOk, IfOk, string_bytes};
ghost use Rattle.serde_json.specs.View.{view};
ghost use Rattle.serde_json.specs.Written.{compact_text};
ghost use Rattle.report_text.specs.EndLine.{end_data, end_at};

use crate::Line;
use report_fields::{long_at, put_long};
use serde_json::Value;
use std::alloc::AllocError;

/// Appends the end's text.
pub fn put_end(
    out: &mut String,
    answers: u64,
    brave: u64,
    ar: u64,
    iar: u64,
    undecided: u64,
) -> Result<(), AllocError>
    ensures exact { OnOk result (string_bytes out.new
        ≡ string_bytes out.old ++ compact_text (end_data answers brave ar iar undecided)) }
{
    out.push_str(r#"{"answers":"#)?;
    put_long(out, answers)?;
    out.push_str(r#","ar":"#)?;
    put_long(out, ar)?;
    out.push_str(r#","brave":"#)?;
    put_long(out, brave)?;
    out.push_str(r#","iar":"#)?;
    put_long(out, iar)?;
    out.push_str(r#","k":"end","undecided":"#)?;
    put_long(out, undecided)?;
    out.push_str("}")?;
    Ok(())
}

/// The end whose fields the value has.
pub fn end_at(value: &Value) -> Option<Line>
    ensures exact { result ≡ end_at (view value.now) }
{
    let answers = long_at(value, "answers")?;
    let brave = long_at(value, "brave")?;
    let ar = long_at(value, "ar")?;
    let iar = long_at(value, "iar")?;
    let undecided = long_at(value, "undecided")?;
    Some(Line::End {
        answers,
        brave,
        ar,
        iar,
        undecided,
    })
}
