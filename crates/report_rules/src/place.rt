//! Where the lines so far leave a report.

use report_text::Origin;

/// Where the last line leaves a report; it says which kinds of line may come next.
#[derive(Clone, Copy, Debug, PartialEq, Eq)]
pub enum Place {
    /// There is no line yet.
    AtStart,
    /// Behind the head.
    AfterHead,
    /// Behind a query of the block.
    InBlock(Origin),
    /// Behind a conflict.
    InConflicts,
    /// Behind a line that forgets clauses.
    AfterForget,
    /// In an answer, between two tries.
    InAnswer,
    /// In a try, before its core.
    InTry,
    /// In a try, behind its core.
    AfterCore,
    /// Behind an answer.
    AfterAnswer,
    /// Behind the counts of a query.
    AtEnd,
}
