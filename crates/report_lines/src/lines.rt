//! The first line of the bytes of a report, and what follows it.

ghost use Rattle.std.specs.Prelude.{◌≡◌, ◌==◌, ◌<◌, ◌∷◌, ℕ, List, IfOk, MatchOption, position, length, Some};
ghost use Rattle.report_text.specs.Pieces.{pieces_of};
ghost use Rattle.report_lines.specs.Cutting.{CutsAt, HasNoLineFeed, IsBroken, BeginsWith};

use cq_terms::NoMemory;
use report_text::{Line, ReadRefusal, read};
use std::alloc::Global;

/// The first line and what follows it, or `None` where the bytes don't begin with the text of a line and a line feed.
pub fn first_line(alloc: Global, rest: &[u8]) -> Result<Option<(Line, &[u8])>, NoMemory>
    requires some { 0 < length rest.now }

    ensures exact { IfOk result (λ found. MatchOption found (IsBroken rest.now) (λ pair. BeginsWith rest.now pair.0 pair.1.now)) }
{
    let Some((text, more)) = cut(rest) else {
        return Ok(None);
    };
    match read(alloc, text) {
        Ok(line) => Ok(Some((line, more))),
        Err(ReadRefusal::BadLine) => Ok(None),
        Err(ReadRefusal::NoMemory) => Err(NoMemory),
    }
}

/// The bytes before the first line feed, and those after it.
fn cut(rest: &[u8]) -> Option<(&[u8], &[u8])>
    ensures exact { MatchOption result
        (HasNoLineFeed rest.now)
        (λ pair. CutsAt rest.now pair.0.now pair.1.now) }
{
    let Some(at) = line_feed_at(rest) else {
        return None;
    };
    Some((&rest[..at], &rest[at + 1..]))
}

/// The place of the first line feed.
fn line_feed_at(rest: &[u8]) -> Option<usize>
    ensures exact { result ≡ position (λ byte. byte == 10) rest.now }
{
    rest.iter().position(|byte| *byte == b'\n')
}
