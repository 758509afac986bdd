//! A candidate with its causes.

ghost use Rattle.std.specs.Prelude.{◌≡◌, ◌++◌, OnOk, IfOk, IfSome, string_bytes};
ghost use Rattle.serde_json.specs.View.{view};
ghost use Rattle.serde_json.specs.Written.{compact_text};
ghost use Rattle.report_text.specs.AskLine.{ask_data, ask_at};
ghost use Rattle.report_text.specs.Lines.{IsWellFormed};

use crate::Line;
use cq_terms::{IdLists, Ids, NoMemory};
use report_fields::{Cursor, id_at, id_lists_at, ids_at, put_id, put_id_lists, put_ids};
use serde_json::Value;
use std::alloc::{AllocError, Global};

/// Appends the candidate's text.
pub fn put_ask(
    out: &mut String,
    candidate: u32,
    tuple: &Ids,
    causes: &IdLists,
    members: &Ids,
) -> Result<(), AllocError>
    ensures exact { OnOk result (string_bytes out.new ≡ string_bytes out.old
        ++ compact_text (ask_data candidate tuple.now causes.now members.now)) }
{
    out.push_str(r#"{"candidate":"#)?;
    put_id(out, candidate)?;
    out.push_str(r#","causes":"#)?;
    put_id_lists(out, causes.as_slice())?;
    out.push_str(r#","k":"ask","members":"#)?;
    put_ids(out, members.as_slice())?;
    out.push_str(r#","tuple":"#)?;
    put_ids(out, tuple.as_slice())?;
    out.push_str("}")?;
    Ok(())
}

/// The candidate behind the key `candidate`.
pub fn ask_in(alloc: Global, text: &mut Cursor<'_>) -> Result<Option<Line>, NoMemory>
    ensures right { IfOk result (λ o. IfSome o IsWellFormed) }
{
    let Some(candidate) = text.id() else {
        return Ok(None);
    };
    text.takes(r#","causes":"#);
    let Some(causes) = text.id_lists(alloc)? else {
        return Ok(None);
    };
    text.takes(r#","k":"ask","members":"#);
    let Some(members) = text.ids(alloc)? else {
        return Ok(None);
    };
    text.takes(r#","tuple":"#);
    let Some(tuple) = text.ids(alloc)? else {
        return Ok(None);
    };
    Ok(Some(Line::Ask {
        candidate,
        tuple,
        causes,
        members,
    }))
}

/// The candidate whose fields the value has.
pub fn ask_at(alloc: Global, value: &Value) -> Result<Option<Line>, NoMemory>
    ensures exact { IfOk result (λ o. o ≡ ask_at (view value.now)) }
{
    let Some(candidate) = id_at(value, "candidate") else {
        return Ok(None);
    };
    let Some(tuple) = ids_at(alloc, value, "tuple")? else {
        return Ok(None);
    };
    let Some(causes) = id_lists_at(alloc, value, "causes")? else {
        return Ok(None);
    };
    let Some(members) = ids_at(alloc, value, "members")? else {
        return Ok(None);
    };
    Ok(Some(Line::Ask {
        candidate,
        tuple,
        causes,
        members,
    }))
}
