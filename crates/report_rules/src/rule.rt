//! The rules of acceptance.

ghost use Rattle.std.specs.Prelude.{◌≡◌, Some};
ghost use Rattle.report_rules.specs.RuleWords.{rule_word};

use std::fmt;

/// A rule that a line can break.
#[derive(Clone, Copy, Debug, PartialEq, Eq)]
pub enum Rule {
    /// The bytes up to the line feed are the text of a line.
    Text,
    /// The report ends with the counts; this rule stands for the line after its last.
    Missing,
    /// The kind of line may come there.
    Order,
    /// A block that is left has each result of a move on its queries.
    Closed,
    /// The sizes and the version are right.
    Head,
    /// The query begins its block, or is new and the result of its move.
    Cq,
    /// The conflict is the next of all, and none is left out.
    Conflict,
    /// The candidate is the next, with exactly its causes.
    Ask,
    /// The question is open and in its turn, and the assumptions are new.
    Try,
    /// The clause follows and is new, within the budget.
    Learn,
    /// Kept and dropped are a core.
    Core,
    /// The try ends as the line says.
    Done,
    /// There are many learned clauses, and enough of them stay.
    Forget,
    /// The verdicts are those that the lines of the answer settle.
    Answer,
    /// No candidate is left, and the counts are right.
    End,
}

impl Rule {
    /// The name of the rule, in lower case.
    pub fn word(&self) -> &'static str
        ensures exact { result.now ≡ rule_word self.now }
    {
        match self {
            Rule::Text => "text",
            Rule::Missing => "missing",
            Rule::Order => "order",
            Rule::Closed => "closed",
            Rule::Head => "head",
            Rule::Cq => "cq",
            Rule::Conflict => "conflict",
            Rule::Ask => "ask",
            Rule::Try => "try",
            Rule::Learn => "learn",
            Rule::Core => "core",
            Rule::Done => "done",
            Rule::Forget => "forget",
            Rule::Answer => "answer",
            Rule::End => "end",
        }
    }
}

/// The name of the rule, in lower case.
impl fmt::Display for Rule {
    ghost output = { λ rule. Some (rule_word rule) };

    fn fmt<W: fmt::Write>(&self, f: &mut fmt::Formatter<W>) -> fmt::Result {
        f.write_str(self.word())
    }
}
