//! When a block may be left.

ghost use Rattle.std.specs.Prelude.{◌≡◌, ◌↔◌, ◌<◌, ◌^◌, ℕ, List, IfOk, IsTrue, Contains, length};
ghost use Rattle.cq_terms.specs.Query.{Query};
ghost use Rattle.cq_meaning.specs.Rewriting.{IsSuccessor};
ghost use Rattle.report_rules.specs.Inputs.{report_on};
ghost use Rattle.report_rules.specs.Blocks.{IsClosedBlock, IsOfBlock};
ghost use Rattle.report_laws.specs.AtStanding.{LeavesClosedAt};

use crate::standing::Standing;
use cq_terms::{Cq, Kb, NoMemory};
use report_parts::is_closed;
use report_rules::Place;
use report_text::{Line, Origin};
use std::alloc::Global;

/// Whether the line is of the block that is open, where one is, or that block is closed.
pub fn leaves_closed(
    alloc: Global,
    kb: &Kb,
    standing: &Standing,
    line: &Line,
) -> Result<bool, NoMemory>
    ensures exact { (names : List (List ℕ)) (q : Query)
        → IfOk result (λ closed. IsTrue closed ↔ LeavesClosedAt (report_on kb.now names q) standing.now line.now) }
{
    let Place::InBlock(origin) = standing.place() else {
        return Ok(true);
    };
    if is_of_block(origin, line) {
        return Ok(true);
    }
    match standing.block(origin) {
        Some(block) => is_closed(alloc, kb.axioms(), block),
        None => Ok(true),
    }
}

/// Whether the line is of the block.
fn is_of_block(origin: Origin, line: &Line) -> bool
    ensures exact { IsTrue result ↔ IsOfBlock origin line.now }
{
    match line {
        Line::Cq { origin: of, .. } => *of == origin,
        _ => false,
    }
}
