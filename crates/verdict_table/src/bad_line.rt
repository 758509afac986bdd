//! The first line at which a report isn't whole.

ghost use Rattle.std.specs.Prelude.{◌≡◌, ◌<◌, ◌^◌, IfOk, length};
ghost use Rattle.verdict_table.specs.Whole.{bad_line, is_end};

use cq_terms::NoMemory;
use report_lines::first_line;
use report_text::Line;
use std::alloc::Global;

/// The number of the first line that is the text of no line or follows an end, or of the line after the last where there is no
/// end; `None` where the report is whole.
pub(crate) fn bad_line(alloc: Global, report: &[u8]) -> Result<Option<u64>, NoMemory>
    requires small { length report.now < 2 ^ 63 }

    ensures exact { IfOk result (λ found. found ≡ bad_line report.now) }
{
    let mut rest = report;
    let mut number = 1;
    let mut ended = false;
    while !rest.is_empty() {
        let Some((line, more)) = first_line(alloc, rest)? else {
            return Ok(Some(number));
        };
        if ended {
            return Ok(Some(number));
        }
        ended = is_end(&line);
        rest = more;
        number += 1;
    }
    if ended { Ok(None) } else { Ok(Some(number)) }
}

fn is_end(line: &Line) -> bool
    ensures exact { result ≡ is_end line.now }
{
    matches!(line, Line::End { .. })
}
