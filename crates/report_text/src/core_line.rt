//! A core: facts that some chosen repair contains, and facts that it lacks.

ghost use Rattle.std.specs.Prelude.{◌≡◌, ◌++◌, OnOk, IfOk, IfSome, string_bytes};
ghost use Rattle.serde_json.specs.View.{view};
ghost use Rattle.serde_json.specs.Written.{compact_text};
ghost use Rattle.report_text.specs.CoreLine.{core_data, core_at};
ghost use Rattle.report_text.specs.Lines.{IsWellFormed};

use crate::Line;
use cq_terms::{Ids, NoMemory};
use report_fields::{Cursor, ids_at, long_at, put_ids, put_long};
use serde_json::Value;
use std::alloc::{AllocError, Global};

/// Appends the core's text.
#[tactic(auto, unfolding(json::specs::Print::escape_byte))]
pub fn put_core(out: &mut String, number: u64, kept: &Ids, dropped: &Ids) -> Result<(), AllocError>
    ensures exact { OnOk result (string_bytes out.new
        ≡ string_bytes out.old ++ compact_text (core_data number kept.now dropped.now)) }
{
    out.push_str(r#"{"dropped":"#)?;
    put_ids(out, dropped.as_slice())?;
    out.push_str(r#","k":"core","kept":"#)?;
    put_ids(out, kept.as_slice())?;
    out.push_str(r#","n":"#)?;
    put_long(out, number)?;
    out.push_str("}")?;
    Ok(())
}

/// The core behind the key `dropped`.
pub fn core_in(alloc: Global, text: &mut Cursor<'_>) -> Result<Option<Line>, NoMemory>
    ensures right { IfOk result (λ o. IfSome o IsWellFormed) }
{
    let Some(dropped) = text.ids(alloc)? else {
        return Ok(None);
    };
    text.takes(r#","k":"core","kept":"#);
    let Some(kept) = text.ids(alloc)? else {
        return Ok(None);
    };
    text.takes(r#","n":"#);
    let number = text.long();
    Ok(Some(Line::Core {
        number,
        kept,
        dropped,
    }))
}

/// The core whose fields the value has.
pub fn core_at(alloc: Global, value: &Value) -> Result<Option<Line>, NoMemory>
    ensures exact { IfOk result (λ o. o ≡ core_at (view value.now)) }
{
    let Some(number) = long_at(value, "n") else {
        return Ok(None);
    };
    let Some(kept) = ids_at(alloc, value, "kept")? else {
        return Ok(None);
    };
    let Some(dropped) = ids_at(alloc, value, "dropped")? else {
        return Ok(None);
    };
    Ok(Some(Line::Core {
        number,
        kept,
        dropped,
    }))
}
