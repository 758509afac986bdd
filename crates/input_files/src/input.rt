//! Fetches and reads the files of a job.

ghost use Rattle.std.specs.Prelude.{◌≡◌, ℕ, List, length, Option, option_map, OnOk, OnErr, IfOk, IfErr, IfSome, IsSome};
ghost use Rattle.cq_io.specs.Faults.{TellsFault};
ghost use Rattle.cq_terms.specs.Knowledge.{AreDistinct, NameFacts};
ghost use Rattle.cqapri_words.specs.declared.files.File.TheVariants as file;
ghost use Rattle.input_files.specs.Bounds.{IsBounded};
ghost use Rattle.input_files.specs.Ends.{EndsBy, IsOf, TellsPriority, place_of, priority_fetches};
ghost use Rattle.input_files.specs.Fetching.{Succeed, after_fetches, is_read_fault};
ghost use Rattle.input_files.specs.Inputs.{StopsFiles, StopsPriority};
ghost use Rattle.input_files.specs.Meaning.{FilesSay, IsPriorityText, SaysPairs};
ghost use Rattle.cqapri_words.specs.Jobs.{names_in};

use crate::texts::{read_ontology, read_pairs, read_query, read_table};
use cq_io::Shelf;
use cq_terms::{Cq, Fact, Kb, Pair, Vocab};
use cqapri_words::{Paths, Refusal};
use fact_tables::FactTable;
use std::alloc::Global;

/// What the files of a job say, with the names of their numbers.
#[derive(Debug, Drop)]
pub struct Input {
    /// The axioms, the facts and the pairs of the priority, of which there are none where no priority is named.
    pub kb: Kb,
    /// The query.
    pub query: Cq,
    /// The names.
    pub vocab: Vocab,
}

/// Fetches and reads the ontology, the facts, the priority where one is named, and the query, each before the next one is fetched.
pub fn read_input<S: Shelf>(
    alloc: Global,
    files: &mut S,
    paths: &Paths<'_>,
) -> Result<Input, Refusal>
    ensures exact { IfOk result (λ input. FilesSay (S.holds files.old) (names_in paths.now) input.kb input.query input.vocab) }
    ensures bounded { IfOk result (λ input. IsBounded input.kb input.query input.vocab) }
    ensures refused { IfErr result (λ r. IfSome (S.holds files.old) (λ held. StopsFiles held (names_in paths.now) r)) }

    // Which fetch failed, where the shelf tells it, and how many there were.
    ensures ended { IfErr result (λ r. EndsBy (names_in paths.now) r (S.failing files.old) (S.failing files.new)) }
    ensures succeeded { OnOk result (Succeed (place_of (names_in paths.now) file.Report) (S.failing files.old)) }
    ensures after { OnOk result (S.failing files.new ≡ after_fetches (place_of (names_in paths.now) file.Report) (S.failing files.old)) }

    ensures fault { TellsFault (S.faults files.old) (S.faults files.new) (is_read_fault result) }
    ensures same_files { S.holds files.new ≡ S.holds files.old }
{
    let mut vocab = Vocab::new(alloc);
    let axioms = read_ontology(alloc, files, paths.ontology, &mut vocab)?;
    let table = read_table(alloc, files, paths.facts, &mut vocab)?;
    let facts = facts_of(alloc, &table)?;
    let pairs = read_priority(alloc, files, paths.priority, &table)?;
    let query = read_query(alloc, files, paths.query, &mut vocab)?;
    let kb = Kb::new(axioms, facts, pairs);
    Ok(Input { kb, query, vocab })
}

/// The facts of a table, by number.
fn facts_of(alloc: Global, table: &FactTable) -> Result<Vec<Fact>, Refusal>
    ensures exact { IfOk result (λ facts. facts.items ≡ table.now.facts) }
    ensures distinct { IfOk result (λ facts. AreDistinct facts.items) }
    ensures memory { IfErr result (λ r. r ≡ Refusal.NoMemory) }
{
    match table.facts().to_vec(alloc) {
        Ok(facts) => Ok(facts),
        Err(_) => Err(Refusal::NoMemory),
    }
}

/// Fetches and reads the pairs of the priority, where one is named; else there are none.
fn read_priority<S: Shelf>(
    alloc: Global,
    files: &mut S,
    name: Option<&str>,
    table: &FactTable,
) -> Result<Vec<Pair>, Refusal>
    ensures exact { IfOk result (λ pairs. (text : Option (List ℕ)) × IsPriorityText (S.holds files.old) (option_map (λ path. path.now) name.entry) text
        × SaysPairs text table.now.records pairs.items) }
    ensures named { IfOk result (λ pairs. NameFacts table.now.facts pairs.items) }
    ensures refused { IfErr result (λ r. IfSome (S.holds files.old)
        (λ held. StopsPriority (length table.now.records) held (option_map (λ path. path.now) name.entry) r)) }
    ensures of_file { IfErr result (IsOf file.Priority) }
    ensures only_named { OnErr result (IsSome (option_map (λ path. path.now) name.entry)) }

    ensures fault { TellsFault (S.faults files.old) (S.faults files.new) (is_read_fault result) }
    ensures told { TellsPriority (option_map (λ path. path.now) name.entry) (S.failing files.old) (is_read_fault result) }

    ensures next { S.failing files.new ≡ after_fetches (priority_fetches (option_map (λ path. path.now) name.entry)) (S.failing files.old) }
    ensures same_files { S.holds files.new ≡ S.holds files.old }
{
    match name {
        Some(name) => read_pairs(alloc, files, name, table),
        None => Ok(Vec::new(alloc)),
    }
}
