//! The words behind a job's word, read by `clap`.

ghost use Rattle.std.specs.Prelude.{◌≡◌, ◌≢◌, [], false, map, option_map, string_bytes, IfErr, IfOk};
ghost use Rattle.std.specs.List.{list_all};
ghost use Rattle.clap.specs.Words.{app_of, found_of, kind_of, rows_of, rule_of};
ghost use Rattle.cqapri_words.specs.CommandLine.{app_of_job, bare_app, faults_in, rows_in, value_rule, values_of, with_options};
ghost use Rattle.cqapri_words.specs.Jobs.{IsOfWords};
ghost use Rattle.cqapri_words.specs.Options.{are_right, is_right_or_none};

use crate::{Command, CommandOption, Refusal};
use clap::error::ErrorKind;
use clap::{Arg, ArgAction, ArgMatches, Error};
use std::alloc::{AllocError, Global};

/// What `clap` finds in the words behind the job's word.
pub(crate) fn matches_of<'a>(
    alloc: Global,
    job: Command,
    words: &'a [String],
) -> Result<ArgMatches<'a>, Refusal>
    ensures taken { IfOk result (λ matches. faults_in job (map string_bytes words.entry.now) ≡ []) }
    ensures found { IfOk result (λ matches. rows_of (found_of matches) ≡ rows_in job (map string_bytes words.entry.now)) }
    ensures refused { IfErr result (λ r. r ≡ Refusal.Words → faults_in job (map string_bytes words.entry.now) ≢ []) }
    ensures only { IfErr result IsOfWords }
{
    let command = match command_of(alloc, job) {
        Ok(command) => command,
        Err(_) => return Err(Refusal::NoMemory),
    };
    match command.try_get_matches_from(words) {
        Ok(matches) => Ok(matches),
        Err(error) => Err(refusal_of(&error)),
    }
}

/// The refusal that an error of `clap` becomes.
fn refusal_of(error: &Error) -> Refusal
    ensures words { result ≡ Refusal.Words → kind_of error.now ≢ ErrorKind.OutOfMemory }
    ensures only { IsOfWords result }
{
    match error.kind() {
        ErrorKind::OutOfMemory => Refusal::NoMemory,
        _ => Refusal::Words,
    }
}

/// The command of the job, with its options.
fn command_of<'a>(alloc: Global, job: Command) -> Result<clap::Command<'a>, AllocError>
    ensures exact { IfOk result (λ command. app_of command ≡ app_of_job job) }
{
    let word: &'a str = job.word();
    let command = with_options(alloc, bare(alloc, word), job.options())?;
    Ok(command)
}

/// The command with these options too.
fn with_options<'a>(
    alloc: Global,
    command: clap::Command<'a>,
    options: &[CommandOption],
) -> Result<clap::Command<'a>, AllocError>
    ensures exact { IfOk result (λ after. app_of after ≡ with_options (app_of command.entry) options.now) }
{
    let mut command = command;
    for option in options {
        let name: &'a str = option.name();
        command = command.arg(arg_of(alloc, name, option.is_required()))?;
    }
    Ok(command)
}

/// A command of no words but its options, without help and version.
fn bare<'a>(alloc: Global, name: &'a str) -> clap::Command<'a>
    ensures exact { app_of result ≡ bare_app name.entry.now }
{
    clap::Command::new(alloc, name)
        .no_binary_name(true)
        .disable_help_flag(true)
        .disable_version_flag(true)
}

/// An option that takes one value, and is given at most once.
fn arg_of<'a>(alloc: Global, name: &'a str, is_required: bool) -> Arg<'a>
    ensures rule { rule_of result ≡ value_rule name.entry.now is_required }
    ensures own { result.global ≡ false }
{
    Arg::new(alloc, name)
        .long(name)
        .required(is_required)
        .action(ArgAction::Set)
}

/// The value of the option, where it is given.
pub(crate) fn text_of<'a>(matches: &ArgMatches<'a>, option: CommandOption) -> Option<&'a str>
    ensures exact { option_map (λ text. text.now) result ≡ values_of matches.now option }
{
    matches.get_str(option.name())
}

/// Whether each value of the job's options is right.
pub(crate) fn are_right(matches: &ArgMatches, job: Command) -> bool
    ensures exact { result ≡ are_right job (values_of matches.now) }
{
    are_all_right(matches, job.options())
}

/// Whether each value of these options is right.
fn are_all_right(matches: &ArgMatches, options: &[CommandOption]) -> bool
    ensures exact { result ≡ list_all (λ option. is_right_or_none option (values_of matches.now option)) options.now }
{
    options
        .iter()
        .all(|option| is_right_where_given(matches, *option))
}

/// Whether the value of the option is right, where it is given.
fn is_right_where_given(matches: &ArgMatches, option: CommandOption) -> bool
    ensures exact { result ≡ is_right_or_none option (values_of matches.now option) }
{
    match text_of(matches, option) {
        Some(value) => option.has_right(value),
        None => true,
    }
}
