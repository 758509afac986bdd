//! Lines printed, piece by piece.

ghost use Rattle.std.specs.Prelude.{◌≡◌, ◌++◌, OnOk, IfOk, string_bytes};
ghost use Rattle.report_text.specs.Lines.{text_of};

use crate::Line;
use crate::answer::put_answer;
use crate::ask::put_ask;
use crate::conflict::put_conflict;
use crate::core_line::put_core;
use crate::cq_line::put_cq;
use crate::done::put_done;
use crate::end::put_end;
use crate::forget::put_forget;
use crate::head::put_head;
use crate::learn::put_learn;
use crate::try_line::put_try;
use cq_terms::NoMemory;
use std::alloc::{AllocError, Global};

// The bytes of most lines fit into this room.
const USUAL_ROOM: usize = 128;

/// The text of a line, without the line feed: the compact JSON text of an object with the keys of the
/// line's kind.
pub fn print(alloc: Global, line: &Line) -> Result<String, NoMemory>
    ensures exact { IfOk result (λ text. string_bytes text ≡ text_of line.now) }
{
    let mut text = String::with_capacity(alloc, USUAL_ROOM)?;
    put_line(&mut text, line)?;
    Ok(text)
}

/// Appends the text of a line, without the line feed.
#[tactic(auto, unfolding(crate::specs::Lines::text_of))]
pub fn put_line(out: &mut String, line: &Line) -> Result<(), AllocError>
    ensures exact { OnOk result (string_bytes out.new ≡ string_bytes out.old ++ text_of line.now) }
{
    match line {
        Line::Head {
            axioms,
            budget,
            facts,
            keep,
            repairs,
            version,
        } => put_head(out, *axioms, *budget, *facts, *keep, *repairs, *version),
        Line::Cq {
            origin,
            query,
            step,
        } => put_cq(out, *origin, query, *step),
        Line::Conflict {
            facts,
            axiom,
            member,
        } => put_conflict(out, facts, *axiom, *member),
        Line::Ask {
            candidate,
            tuple,
            causes,
            members,
        } => put_ask(out, *candidate, tuple, causes, members),
        Line::Try { question, assume } => put_try(out, *question, assume),
        Line::Learn { number, clause } => put_learn(out, *number, clause),
        Line::Core {
            number,
            kept,
            dropped,
        } => put_core(out, *number, kept, dropped),
        Line::Done { how, core } => put_done(out, *how, *core),
        Line::Forget { clauses } => put_forget(out, clauses),
        Line::Answer {
            brave,
            ar,
            iar,
            cores,
            names,
            tuple,
        } => put_answer(out, *brave, *ar, *iar, cores, names, tuple),
        Line::End {
            answers,
            brave,
            ar,
            iar,
            undecided,
        } => put_end(out, *answers, *brave, *ar, *iar, *undecided),
    }
}
