//! What holds of the words.

ghost use Rattle.cqapri_words.specs.GivenWords.{TakesPlainWords};
ghost use Rattle.cqapri_words.specs.Requests.{HaveOneMeaning, AskNothingWhereRefused};

/// The words have one meaning: they ask for one job at most, over the same files and under the same settings.
pub fn one_meaning()
    ensures law { HaveOneMeaning }
{}

/// Options of a job with right values, each given once, in any order, and each that the job needs, are its words: as `--x=V`, or as `--x V`
/// where `V` isn't empty and doesn't begin with `-`.
pub fn takes_plain_words()
    ensures law { TakesPlainWords }
{}

/// Words ask for nothing exactly where the first is no job's, `clap` refuses those behind it, or a value isn't right: so each file and size
/// that a job needs is named where `clap` takes its words.
pub fn words_ask_nothing_where_refused()
    ensures law { AskNothingWhereRefused }
{}
