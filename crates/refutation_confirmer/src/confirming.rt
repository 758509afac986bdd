//! The call.

ghost use Rattle.std.specs.Prelude.{◌≡◌, ◌<◌, ◌^◌, [], ℕ, List, IfOk, IsErrOf, length};
ghost use Rattle.refutation_confirmer.specs.Saying.{IsRightAnswer, Says, TellsRoundly};
ghost use Rattle.refutation_confirmer.specs.State.{Fits};
ghost use Rattle.report_rules.specs.Inputs.{report_on};
ghost use Rattle.refutation_confirmer.specs.declared.confirmed.ConfirmFault.TheVariants as fault;

use crate::reader::Reader;
use crate::{ConfirmFault, Confirmed};
use cq_terms::{Cq, Kb, Vocab};
use report_lines::first_line;
use report_rules::{Place, Rule};
use std::alloc::Global;

/// Whether the report is accepted for the knowledge base and the query.
///
/// The report is any bytes, whoever wrote them. `Yes` has the number of its answers; `No` has the number of the first line that
/// breaks a rule, counted from 1, and the first rule that it breaks. `Cycle` comes exactly where the lines up to the last of all
/// conflicts are right, the head asks for the priority, and it has a cycle. After `Yes` the answers are of the query's candidates, in
/// order, and each yes and no of them is true.
///
/// ```
/// match confirm(alloc, kb, vocab, query, report)? {
///     Confirmed::Yes { answers } => Ok(Ok(answers)),
///     Confirmed::No { line, rule: _ } => Ok(Err(line)),
/// }
/// ```
///
/// The report that `classify` wrote gives the number of its answers, and an empty one `1`, the line that is missing.
pub fn confirm(
    alloc: Global,
    kb: &Kb,
    vocab: &Vocab,
    query: &Cq,
    report: &[u8],
) -> Result<Confirmed, ConfirmFault>
    requires small { length report.now < 2 ^ 63 }

    ensures says { IfOk result (Says kb.now vocab.now.inds query.now report.now) }
    ensures cycle { (facts : List ℕ) → IsErrOf result (fault.Cycle facts)
        → TellsRoundly kb.now vocab.now.inds query.now report.now facts }
{
    let mut reader = Reader::new(alloc, kb)?;
    read_report(alloc, kb, vocab, query, report, &mut reader)
}

/// Reads the report to its end or to its first broken line.
fn read_report(
    alloc: Global,
    kb: &Kb,
    vocab: &Vocab,
    query: &Cq,
    report: &[u8],
    reader: &mut Reader,
) -> Result<Confirmed, ConfirmFault>
    requires fits { Fits (report_on kb.now vocab.now.inds query.now) [] reader.old }
    requires small { length report.now < 2 ^ 63 }

    ensures says { IfOk result (IsRightAnswer kb.now vocab.now.inds query.now report.now) }
    ensures cycle { (facts : List ℕ) → IsErrOf result (fault.Cycle facts)
        → TellsRoundly kb.now vocab.now.inds query.now report.now facts }
{
    let mut rest = report;
    let mut number = 1;
    while !rest.is_empty() {
        let Some((line, more)) = first_line(alloc, rest)? else {
            return Ok(Confirmed::No {
                line: number,
                rule: Rule::Text,
            });
        };
        if let Some(rule) = reader.broken_rule(alloc, kb, vocab, query, &line)? {
            return Ok(Confirmed::No { line: number, rule });
        }
        reader.take(alloc, kb, line)?;
        rest = more;
        number += 1;
    }
    if reader.place() == Place::AtEnd {
        Ok(Confirmed::Yes {
            answers: reader.total(),
        })
    } else {
        Ok(Confirmed::No {
            line: number,
            rule: Rule::Missing,
        })
    }
}
