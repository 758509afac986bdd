//! Learned clauses that are no longer used.

ghost use Rattle.std.specs.Prelude.{◌≡◌, ◌++◌, OnOk, IfOk, IfSome, string_bytes};
ghost use Rattle.serde_json.specs.View.{view};
ghost use Rattle.serde_json.specs.Written.{compact_text};
ghost use Rattle.report_text.specs.ForgetLine.{forget_data, forget_at};
ghost use Rattle.report_text.specs.Lines.{IsWellFormed};

use crate::Line;
use cq_terms::{Longs, NoMemory};
use report_fields::{Cursor, longs_at, put_longs};
use serde_json::Value;
use std::alloc::{AllocError, Global};

/// Appends the text of the forgotten clauses.
#[tactic(auto, unfolding(json::specs::Print::escape_byte))]
pub fn put_forget(out: &mut String, clauses: &Longs) -> Result<(), AllocError>
    ensures exact { OnOk result (string_bytes out.new
        ≡ string_bytes out.old ++ compact_text (forget_data clauses.now)) }
{
    out.push_str(r#"{"clauses":"#)?;
    put_longs(out, clauses.as_slice())?;
    out.push_str(r#","k":"forget"}"#)?;
    Ok(())
}

/// The forgotten clauses behind the key `clauses`.
pub fn forget_in(alloc: Global, text: &mut Cursor<'_>) -> Result<Option<Line>, NoMemory>
    ensures right { IfOk result (λ o. IfSome o IsWellFormed) }
{
    let Some(clauses) = text.longs(alloc)? else {
        return Ok(None);
    };
    Ok(Some(Line::Forget { clauses }))
}

/// The forgotten clauses whose numbers the value has.
pub fn forget_at(alloc: Global, value: &Value) -> Result<Option<Line>, NoMemory>
    ensures exact { IfOk result (λ o. o ≡ forget_at (view value.now)) }
{
    let Some(clauses) = longs_at(alloc, value, "clauses")? else {
        return Ok(None);
    };
    Ok(Some(Line::Forget { clauses }))
}
