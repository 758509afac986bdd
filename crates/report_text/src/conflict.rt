//! A conflict: a self-inconsistent fact, or two facts that contradict an axiom.

ghost use Rattle.std.specs.Prelude.{◌≡◌, ◌++◌, OnOk, IfOk, IfSome, string_bytes, length};
ghost use Rattle.serde_json.specs.View.{view};
ghost use Rattle.serde_json.specs.Written.{compact_text};
ghost use Rattle.report_text.specs.ConflictLine.{is_one_or_two, conflict_data, conflict_at};
ghost use Rattle.report_text.specs.Lines.{IsWellFormed};

use crate::Line;
use cq_terms::{Ids, NoMemory};
use report_fields::{Cursor, id_at, ids_at, put_id, put_ids};
use serde_json::Value;
use std::alloc::{AllocError, Global};

/// Appends the conflict's text.
pub fn put_conflict(
    out: &mut String,
    facts: &Ids,
    axiom: u32,
    member: u32,
) -> Result<(), AllocError>
    ensures exact { OnOk result (string_bytes out.new
        ≡ string_bytes out.old ++ compact_text (conflict_data facts.now «axiom» member)) }
{
    out.push_str(r#"{"facts":"#)?;
    put_ids(out, facts.as_slice())?;
    out.push_str(r#","k":"conflict","member":"#)?;
    put_id(out, member)?;
    out.push_str(r#","of":"#)?;
    put_id(out, axiom)?;
    out.push_str("}")?;
    Ok(())
}

/// The conflict behind the key `facts`, where it is of one or two facts.
pub fn conflict_in(alloc: Global, text: &mut Cursor<'_>) -> Result<Option<Line>, NoMemory>
    ensures right { IfOk result (λ o. IfSome o IsWellFormed) }
{
    let Some(facts) = text.ids(alloc)? else {
        return Ok(None);
    };
    text.takes(r#","k":"conflict","member":"#);
    let Some(member) = text.id() else {
        return Ok(None);
    };
    text.takes(r#","of":"#);
    let Some(axiom) = text.id() else {
        return Ok(None);
    };
    if is_one_or_two(facts.len()) {
        Ok(Some(Line::Conflict {
            facts,
            axiom,
            member,
        }))
    } else {
        Ok(None)
    }
}

/// The conflict whose fields the value has, where it is of one or two facts.
pub fn conflict_at(alloc: Global, value: &Value) -> Result<Option<Line>, NoMemory>
    ensures exact { IfOk result (λ o. o ≡ conflict_at (view value.now)) }
{
    let Some(axiom) = id_at(value, "of") else {
        return Ok(None);
    };
    let Some(member) = id_at(value, "member") else {
        return Ok(None);
    };
    let Some(facts) = ids_at(alloc, value, "facts")? else {
        return Ok(None);
    };
    if is_one_or_two(facts.len()) {
        Ok(Some(Line::Conflict {
            facts,
            axiom,
            member,
        }))
    } else {
        Ok(None)
    }
}

fn is_one_or_two(count: usize) -> bool
    ensures exact { result ≡ is_one_or_two count }
{
    count == 1 || count == 2
}
