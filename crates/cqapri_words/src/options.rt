//! The jobs with their options, and the values that are right for an option.

ghost use Rattle.std.specs.Prelude.{◌≡◌, find};
ghost use Rattle.std.specs.Str.{bytes_eq};
ghost use Rattle.cqapri_words.specs.Options.{command_named, is_required, is_right, job_word, option_name, options_of};

use crate::number::is_number_in;

/// What the program is asked to do.
#[derive(Clone, Copy, Debug, PartialEq, Eq)]
pub enum Command {
    /// To answer a query by a report.
    Classify,
    /// To confirm a report.
    Confirm,
    /// To print the verdicts of a report as a table.
    Table,
    /// To run the generated input of a size.
    Bench,
}

/// An option of a job. Each has a value.
#[derive(Clone, Copy, Debug, PartialEq, Eq)]
pub enum CommandOption {
    /// The file of the axioms.
    Ontology,
    /// The file of the facts.
    Facts,
    /// The file of the priority.
    Priority,
    /// The file of the query.
    Query,
    /// The file of the report.
    Report,
    /// Which repairs are asked about.
    Repairs,
    /// How many clauses are learned in a question.
    Budget,
    /// How many learned clauses are kept.
    Keep,
    /// How many queries a closure may have.
    MaxCqs,
    /// How many supports there may be.
    MaxSupports,
    /// How many conflicts there may be.
    MaxConflicts,
    /// How many individuals the generated input has.
    Size,
}

const COMMANDS: [Command; 4] = [
    Command::Classify,
    Command::Confirm,
    Command::Table,
    Command::Bench,
];

static CLASSIFY_OPTIONS: [CommandOption; 10] = [
    CommandOption::Ontology,
    CommandOption::Facts,
    CommandOption::Query,
    CommandOption::Priority,
    CommandOption::Repairs,
    CommandOption::Budget,
    CommandOption::Keep,
    CommandOption::MaxCqs,
    CommandOption::MaxSupports,
    CommandOption::MaxConflicts,
];

static CONFIRM_OPTIONS: [CommandOption; 5] = [
    CommandOption::Ontology,
    CommandOption::Facts,
    CommandOption::Query,
    CommandOption::Report,
    CommandOption::Priority,
];

static TABLE_OPTIONS: [CommandOption; 1] = [CommandOption::Report];

static BENCH_OPTIONS: [CommandOption; 1] = [CommandOption::Size];

impl Command {
    /// The word of the job.
    pub fn word(self) -> &'static str
        ensures exact { result.now ≡ job_word self }
    {
        match self {
            Command::Classify => "classify",
            Command::Confirm => "confirm",
            Command::Table => "table",
            Command::Bench => "bench",
        }
    }

    /// The job of this word.
    pub(crate) fn named(word: &str) -> Option<Command>
        ensures exact { result ≡ command_named word.now }
    {
        first_named(&COMMANDS, word)
    }

    /// The options of the job.
    pub(crate) fn options(self) -> &'static [CommandOption]
        ensures exact { result.now ≡ options_of self }
    {
        match self {
            Command::Classify => CLASSIFY_OPTIONS.as_slice(),
            Command::Confirm => CONFIRM_OPTIONS.as_slice(),
            Command::Table => TABLE_OPTIONS.as_slice(),
            Command::Bench => BENCH_OPTIONS.as_slice(),
        }
    }
}

impl CommandOption {
    /// The name of the option, which stands behind `--`.
    pub fn name(self) -> &'static str
        ensures exact { result.now ≡ option_name self }
    {
        match self {
            CommandOption::Ontology => "ontology",
            CommandOption::Facts => "facts",
            CommandOption::Priority => "priority",
            CommandOption::Query => "query",
            CommandOption::Report => "report",
            CommandOption::Repairs => "repairs",
            CommandOption::Budget => "budget",
            CommandOption::Keep => "keep",
            CommandOption::MaxCqs => "max-cqs",
            CommandOption::MaxSupports => "max-supports",
            CommandOption::MaxConflicts => "max-conflicts",
            CommandOption::Size => "size",
        }
    }

    /// Whether a job that has the option needs it.
    pub(crate) fn is_required(self) -> bool
        ensures exact { result ≡ is_required self }
    {
        matches!(
            self,
            CommandOption::Ontology
                | CommandOption::Facts
                | CommandOption::Query
                | CommandOption::Report
                | CommandOption::Size
        )
    }

    /// Whether the value is right for the option.
    pub(crate) fn has_right(self, value: &str) -> bool
        ensures exact { result ≡ is_right self value.now }
    {
        match self {
            CommandOption::Repairs => is_text(value, "all") || is_text(value, "pareto"),
            CommandOption::Budget => is_number_in(value.as_bytes(), 0, 10_000_000),
            CommandOption::Keep => is_number_in(value.as_bytes(), 0, 10_000_000),
            CommandOption::MaxCqs => is_number_in(value.as_bytes(), 1, 100_000),
            CommandOption::MaxSupports => is_number_in(value.as_bytes(), 0, 1_000_000),
            CommandOption::MaxConflicts => is_number_in(value.as_bytes(), 0, 2_000_000),
            CommandOption::Size => is_number_in(value.as_bytes(), 1, 20_000),
            CommandOption::Ontology
            | CommandOption::Facts
            | CommandOption::Priority
            | CommandOption::Query
            | CommandOption::Report => true,
        }
    }
}

/// The first of the jobs with this word.
fn first_named(jobs: &[Command], word: &str) -> Option<Command>
    ensures exact { result ≡ find (λ job. bytes_eq (job_word job) word.now) jobs.now }
{
    jobs.iter().copied().find(|job| is_text(job.word(), word))
}

/// Whether the texts are equal.
pub(crate) fn is_text(text: &str, other: &str) -> bool
    ensures exact { result ≡ bytes_eq text.now other.now }
{
    text == other
}
