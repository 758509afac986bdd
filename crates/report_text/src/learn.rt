//! A learned clause: it follows from the clauses before.

ghost use Rattle.std.specs.Prelude.{◌≡◌, ◌++◌, OnOk, IfOk, IfSome, string_bytes};
ghost use Rattle.serde_json.specs.View.{view};
ghost use Rattle.serde_json.specs.Written.{compact_text};
ghost use Rattle.report_text.specs.LearnLine.{learn_data, learn_at};
ghost use Rattle.report_text.specs.Lines.{IsWellFormed};

use crate::Line;
use cq_terms::{Ids, NoMemory};
use report_fields::{Cursor, ids_at, long_at, put_ids, put_long};
use serde_json::Value;
use std::alloc::{AllocError, Global};

/// Appends the learned clause's text.
pub fn put_learn(out: &mut String, number: u64, clause: &Ids) -> Result<(), AllocError>
    ensures exact { OnOk result (string_bytes out.new
        ≡ string_bytes out.old ++ compact_text (learn_data number clause.now)) }
{
    out.push_str(r#"{"clause":"#)?;
    put_ids(out, clause.as_slice())?;
    out.push_str(r#","k":"learn","n":"#)?;
    put_long(out, number)?;
    out.push_str("}")?;
    Ok(())
}

/// The learned clause behind the key `clause`.
pub fn learn_in(alloc: Global, text: &mut Cursor<'_>) -> Result<Option<Line>, NoMemory>
    ensures right { IfOk result (λ o. IfSome o IsWellFormed) }
{
    let Some(clause) = text.ids(alloc)? else {
        return Ok(None);
    };
    text.takes(r#","k":"learn","n":"#);
    let number = text.long();
    Ok(Some(Line::Learn { number, clause }))
}

/// The learned clause whose fields the value has.
pub fn learn_at(alloc: Global, value: &Value) -> Result<Option<Line>, NoMemory>
    ensures exact { IfOk result (λ o. o ≡ learn_at (view value.now)) }
{
    let Some(number) = long_at(value, "n") else {
        return Ok(None);
    };
    let Some(clause) = ids_at(alloc, value, "clause")? else {
        return Ok(None);
    };
    Ok(Some(Line::Learn { number, clause }))
}
