//! What the words ask for.

ghost use Rattle.std.specs.Prelude.{◌≡◌, ◌∷◌, ◌-◌, ◌^◌, Some, Err, true, min, map, string_bytes, IfErr, IfNone, IfOk, IfSome};
ghost use Rattle.cqapri_words.specs.declared.options.Command.TheVariants as command;
ghost use Rattle.cqapri_words.specs.declared.options.CommandOption.TheVariants as given;
ghost use Rattle.cqapri_words.specs.CommandLine.{values_of};
ghost use Rattle.cqapri_words.specs.Jobs.{AreWordsOf, HasNoJob, HasRange, IsJobOf, IsOfWords, names_in, settings_in};
ghost use Rattle.cqapri_words.specs.Options.{are_right, job_word};
ghost use Rattle.cqapri_words.specs.Requests.{NameNoJob, NameNothing};
ghost use Rattle.cqapri_words.specs.Words.{AreInRange, AreNamed, FileNames, default_settings, number_or, repairs_in, settings_by};

use crate::command_line::{are_right, matches_of, text_of};
use crate::number::number_in;
use crate::options::is_text;
use crate::{Command, CommandOption, Refusal};
use clap::ArgMatches;
use cq_terms::Repairs;
use std::alloc::Global;

/// The names of the files that a job reads.
#[derive(Clone, Copy, Debug)]
pub struct Paths<'a> {
    /// The file of the axioms.
    pub ontology: &'a str,
    /// The file of the facts.
    pub facts: &'a str,
    /// The file of the priority, where there is one.
    pub priority: Option<&'a str>,
    /// The file of the query.
    pub query: &'a str,
}

/// How a query is answered.
#[derive(Clone, Copy, Debug)]
pub struct Options {
    /// Which repairs are asked about.
    pub repairs: Repairs,
    /// How many clauses are learned in a question.
    pub budget: u64,
    /// How many learned clauses are kept.
    pub keep: u64,
    /// How many queries a closure may have.
    pub most_queries: u32,
    /// How many supports there may be.
    pub most_supports: u64,
    /// How many conflicts there may be.
    pub most_conflicts: u64,
}

impl Options {
    /// What holds where no option is given: `pareto`, a budget and kept clauses of 20,000, 5,000 queries, 100,000 supports and
    /// 200,000 conflicts.
    pub fn defaults() -> Options
        ensures exact { settings_in result ≡ default_settings }
        ensures in_range { AreInRange (settings_in result) }
    {
        Options {
            repairs: Repairs::Pareto,
            budget: 20_000,
            keep: 20_000,
            most_queries: 5_000,
            most_supports: 100_000,
            most_conflicts: 200_000,
        }
    }
}

/// A job with the names of its files.
#[derive(Clone, Copy, Debug)]
pub enum Job<'a> {
    /// To answer the query by a report.
    Classify(Paths<'a>, Options),
    /// To confirm the report of this name.
    Confirm(Paths<'a>, &'a str),
    /// To print the verdicts of the report of this name as a table.
    Table(&'a str),
    /// To run the generated input of so many individuals.
    Bench(u32),
}

/// The job that the words ask for: the first word names it, and `clap` reads its options behind it, each as `--x V` or `--x=V`. The error
/// is `Words` where they ask for none, or else `NoMemory`. Where there is no word, or the first is no job's, no memory is taken.
pub fn job_of(alloc: Global, words: &[String]) -> Result<Job<'_>, Refusal>
    ensures found { IfOk result (AreWordsOf (map string_bytes words.now)) }
    ensures in_range { IfOk result HasRange }
    ensures none { IfErr result (λ r. r ≡ Refusal.Words → NameNothing (map string_bytes words.now)) }
    ensures no_such_job { NameNoJob (map string_bytes words.now) → result ≡ Err Refusal.Words }
    ensures only { IfErr result IsOfWords }
{
    let Some((first, rest)) = words.split_first() else {
        return Err(Refusal::Words);
    };
    match Command::named(first.as_str()) {
        Some(job) => job_with(alloc, job, rest),
        None => Err(Refusal::Words),
    }
}

/// The job with what stands behind its word.
fn job_with(alloc: Global, job: Command, rest: &[String]) -> Result<Job<'_>, Refusal>
    ensures found { IfOk result (AreWordsOf (job_word job ∷ map string_bytes rest.now)) }
    ensures in_range { IfOk result HasRange }
    ensures none { IfErr result (λ r. r ≡ Refusal.Words → NameNothing (job_word job ∷ map string_bytes rest.now)) }
    ensures only { IfErr result IsOfWords }
{
    let matches = matches_of(alloc, job, rest)?;
    if !are_right(&matches, job) {
        return Err(Refusal::Words);
    }
    match job_given(&matches, job) {
        Some(asked) => Ok(asked),
        None => Err(Refusal::Words),
    }
}

/// The job with the values of its options, or `None` where one that it needs is missing.
fn job_given<'a>(matches: &ArgMatches<'a>, job: Command) -> Option<Job<'a>>
    requires right { are_right job (values_of matches.now) ≡ true }

    ensures found { IfSome result (IsJobOf job (values_of matches.now)) }
    ensures none { IfNone result (HasNoJob job (values_of matches.now)) }
{
    match job {
        Command::Classify => classify_of(matches),
        Command::Confirm => confirm_of(matches),
        Command::Table => table_of(matches),
        Command::Bench => bench_of(matches),
    }
}

/// The job `classify` with these values.
fn classify_of<'a>(matches: &ArgMatches<'a>) -> Option<Job<'a>>
    requires right { are_right command.Classify (values_of matches.now) ≡ true }

    ensures found { IfSome result (IsJobOf command.Classify (values_of matches.now)) }
    ensures none { IfNone result (HasNoJob command.Classify (values_of matches.now)) }
{
    match paths_of(matches) {
        Some(paths) => Some(Job::Classify(paths, options_of(matches))),
        None => None,
    }
}

/// The job `confirm` with these values.
fn confirm_of<'a>(matches: &ArgMatches<'a>) -> Option<Job<'a>>
    ensures found { IfSome result (IsJobOf command.Confirm (values_of matches.now)) }
    ensures none { IfNone result (HasNoJob command.Confirm (values_of matches.now)) }
{
    let Some(report) = text_of(matches, CommandOption::Report) else {
        return None;
    };
    match paths_of(matches) {
        Some(paths) => Some(Job::Confirm(paths, report)),
        None => None,
    }
}

/// The job `table` with these values.
fn table_of<'a>(matches: &ArgMatches<'a>) -> Option<Job<'a>>
    ensures found { IfSome result (IsJobOf command.Table (values_of matches.now)) }
    ensures none { IfNone result (HasNoJob command.Table (values_of matches.now)) }
{
    match text_of(matches, CommandOption::Report) {
        Some(report) => Some(Job::Table(report)),
        None => None,
    }
}

/// The job `bench` with these values.
fn bench_of<'a>(matches: &ArgMatches<'a>) -> Option<Job<'a>>
    requires right { are_right command.Bench (values_of matches.now) ≡ true }

    ensures found { IfSome result (IsJobOf command.Bench (values_of matches.now)) }
    ensures none { IfNone result (HasNoJob command.Bench (values_of matches.now)) }
{
    match text_of(matches, CommandOption::Size) {
        Some(size) => Some(Job::Bench(number_in(size.as_bytes()) as u32)),
        None => None,
    }
}

/// The files that the options name, or `None` where one is missing.
fn paths_of<'a>(matches: &ArgMatches<'a>) -> Option<Paths<'a>>
    ensures found { IfSome result (λ paths. AreNamed (values_of matches.now) (names_in paths)) }
    ensures none { IfNone result ((names : FileNames) → ¬ AreNamed (values_of matches.now) names) }
{
    let Some(ontology) = text_of(matches, CommandOption::Ontology) else {
        return None;
    };
    let Some(facts) = text_of(matches, CommandOption::Facts) else {
        return None;
    };
    let Some(query) = text_of(matches, CommandOption::Query) else {
        return None;
    };
    Some(Paths {
        ontology,
        facts,
        priority: text_of(matches, CommandOption::Priority),
        query,
    })
}

/// What the options of `classify` set.
fn options_of(matches: &ArgMatches) -> Options
    requires right { are_right command.Classify (values_of matches.now) ≡ true }

    ensures exact { settings_in result ≡ settings_by (values_of matches.now) }
    ensures in_range { AreInRange (settings_in result) }
{
    Options {
        repairs: repairs_of(matches),
        budget: number_of(matches, CommandOption::Budget, 20_000),
        keep: number_of(matches, CommandOption::Keep, 20_000),
        most_queries: number_of(matches, CommandOption::MaxCqs, 5_000) as u32,
        most_supports: number_of(matches, CommandOption::MaxSupports, 100_000),
        most_conflicts: number_of(matches, CommandOption::MaxConflicts, 200_000),
    }
}

/// The repairs that are asked about.
fn repairs_of(matches: &ArgMatches) -> Repairs
    ensures exact { result ≡ repairs_in (values_of matches.now given.Repairs) }
{
    match text_of(matches, CommandOption::Repairs) {
        Some(value) => repairs_named(value),
        None => Repairs::Pareto,
    }
}

/// The repairs that the text names.
fn repairs_named(value: &str) -> Repairs
    ensures exact { result ≡ repairs_in (Some value.now) }
{
    if is_text(value, "all") {
        Repairs::All
    } else {
        Repairs::Pareto
    }
}

/// The number that is given to the option, or this one where none is; at most 2^64 - 1.
fn number_of(matches: &ArgMatches, option: CommandOption, default: u64) -> u64
    ensures exact { result ≡ min (number_or default (values_of matches.now option)) (2 ^ 64 - 1) }
{
    match text_of(matches, option) {
        Some(value) => number_in(value.as_bytes()),
        None => default,
    }
}
