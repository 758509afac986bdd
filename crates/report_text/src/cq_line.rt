//! A query of a closure, with the move that made it.

ghost use Rattle.std.specs.Prelude.{◌≡◌, ◌++◌, OnOk, IfOk, string_bytes, codes, decimal};
ghost use Rattle.serde_json.specs.View.{view};
ghost use Rattle.serde_json.specs.Written.{compact_text};
ghost use Rattle.report_text.specs.CqLine.{origin_data, move_data, move_data_of, parent_data, cq_data, origin_of, origin_at, axiom_move_of, reduce_move_of, move_of_kind, move_of, step_of, step_at, query_at, cq_at};

use crate::{Line, Origin};
use cq_steps::Move;
use cq_terms::{Cq, NoMemory};
use report_fields::{atoms_at, id_in, id_of, put_atoms, put_id, put_terms, terms_at, word_in};
use serde_json::Value;
use std::alloc::{AllocError, Global};

/// Appends the query's text.
pub fn put_cq(
    out: &mut String,
    origin: Origin,
    query: &Cq,
    step: Option<(u32, Move)>,
) -> Result<(), AllocError>
    ensures exact { OnOk result (string_bytes out.new
        ≡ string_bytes out.old ++ compact_text (cq_data origin query.now step)) }
{
    out.push_str(r#"{"body":"#)?;
    put_atoms(out, query.body())?;
    out.push_str(r#","head":"#)?;
    put_terms(out, query.head())?;
    out.push_str(r#","k":"cq","move":"#)?;
    put_move_of(out, step)?;
    out.push_str(r#","of":"#)?;
    put_origin(out, origin)?;
    out.push_str(r#","parent":"#)?;
    put_parent(out, step)?;
    out.push_str("}")?;
    Ok(())
}

#[tactic(auto, unfolding(json::specs::Print::escape_byte))]
fn put_origin(out: &mut String, origin: Origin) -> Result<(), AllocError>
    ensures exact { OnOk result (string_bytes out.new
        ≡ string_bytes out.old ++ compact_text (origin_data origin)) }
{
    match origin {
        Origin::Query => out.push_str(r#""query""#),
        Origin::Negative(axiom) => put_id(out, axiom),
    }
}

#[tactic(auto, unfolding(json::specs::Print::escape_byte))]
fn put_move(out: &mut String, made_by: Move) -> Result<(), AllocError>
    ensures exact { OnOk result (string_bytes out.new
        ≡ string_bytes out.old ++ compact_text (move_data made_by)) }
{
    match made_by {
        Move::Axiom { atom, axiom } => put_move_of_kind(out, "axiom", atom, axiom),
        Move::Reduce { first, second } => put_move_of_kind(out, "reduce", first, second),
    }
}

/// Appends an array of the word that names the kind and the two numbers of the move.
fn put_move_of_kind(out: &mut String, word: &str, first: u32, second: u32) -> Result<(), AllocError>
    ensures exact { OnOk result (string_bytes out.new ≡ string_bytes out.old ++ (codes "[\"" ++ (word.now
        ++ (codes "\"," ++ (decimal first ++ (codes "," ++ (decimal second ++ codes "]"))))))) }
{
    out.push_str(r#"[""#)?;
    out.push_str(word)?;
    out.push_str(r#"","#)?;
    put_id(out, first)?;
    out.push(',')?;
    put_id(out, second)?;
    out.push(']')?;
    Ok(())
}

fn put_move_of(out: &mut String, step: Option<(u32, Move)>) -> Result<(), AllocError>
    ensures exact { OnOk result (string_bytes out.new
        ≡ string_bytes out.old ++ compact_text (move_data_of step)) }
{
    match step {
        Some((_, made_by)) => put_move(out, made_by),
        None => out.push_str("null"),
    }
}

fn put_parent(out: &mut String, step: Option<(u32, Move)>) -> Result<(), AllocError>
    ensures exact { OnOk result (string_bytes out.new
        ≡ string_bytes out.old ++ compact_text (parent_data step)) }
{
    match step {
        Some((parent, _)) => put_id(out, parent),
        None => out.push_str("null"),
    }
}

/// The query whose fields the value has, where it is one.
pub fn cq_at(alloc: Global, value: &Value) -> Result<Option<Line>, NoMemory>
    ensures exact { IfOk result (λ o. o ≡ cq_at (view value.now)) }
{
    let Some(origin) = origin_at(value) else {
        return Ok(None);
    };
    let Some(step) = step_at(value) else {
        return Ok(None);
    };
    let Some(query) = query_at(alloc, value)? else {
        return Ok(None);
    };
    Ok(Some(Line::Cq {
        origin,
        query,
        step,
    }))
}

fn query_at(alloc: Global, value: &Value) -> Result<Option<Cq>, NoMemory>
    ensures exact { IfOk result (λ o. o ≡ query_at (view value.now)) }
{
    let Some(head) = terms_at(alloc, value, "head")? else {
        return Ok(None);
    };
    let Some(body) = atoms_at(alloc, value, "body")? else {
        return Ok(None);
    };
    Ok(Cq::checked(head, body))
}

fn origin_of(value: &Value) -> Option<Origin>
    ensures exact { result ≡ origin_of (view value.now) }
{
    if value.is_string() {
        Some(Origin::Query)
    } else {
        Some(Origin::Negative(id_of(value)?))
    }
}

fn origin_at(value: &Value) -> Option<Origin>
    ensures exact { result ≡ origin_at (view value.now) }
{
    origin_of(value.get("of")?)
}

fn step_at(value: &Value) -> Option<Option<(u32, Move)>>
    ensures exact { result ≡ step_at (view value.now) }
{
    step_of(value.get("parent")?, value.get("move")?)
}

/// The step of a parent and a move, which are null together.
fn step_of(parent: &Value, made_by: &Value) -> Option<Option<(u32, Move)>>
    ensures exact { result ≡ step_of (view parent.now) (view made_by.now) }
{
    if parent.is_null() {
        return Some(None);
    }
    let parent = id_of(parent)?;
    let made_by = move_of(made_by)?;
    Some(Some((parent, made_by)))
}

fn move_of(value: &Value) -> Option<Move>
    ensures exact { result ≡ move_of (view value.now) }
{
    move_of_kind(word_in(value, 0)?, value)
}

/// The value as a move of the kind that the word names.
fn move_of_kind(word: &str, value: &Value) -> Option<Move>
    ensures exact { result ≡ move_of_kind word.now (view value.now) }
{
    match word {
        "axiom" => axiom_move_of(value),
        "reduce" => reduce_move_of(value),
        _ => None,
    }
}

fn axiom_move_of(value: &Value) -> Option<Move>
    ensures exact { result ≡ axiom_move_of (view value.now) }
{
    let atom = id_in(value, 1)?;
    let axiom = id_in(value, 2)?;
    Some(Move::Axiom { atom, axiom })
}

fn reduce_move_of(value: &Value) -> Option<Move>
    ensures exact { result ≡ reduce_move_of (view value.now) }
{
    let first = id_in(value, 1)?;
    let second = id_in(value, 2)?;
    Some(Move::Reduce { first, second })
}
