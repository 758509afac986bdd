//! Fetches and reads each of the files.

ghost use Rattle.std.specs.Prelude.{◌≡◌, ℕ, ◌<◌, ◌≤◌, ◌^◌, List, length, All, Option, IfOk, IfErr, IfSome};
ghost use Rattle.std.specs.Option.{option_copied};
ghost use Rattle.axiom_reader.specs.Meaning.{Reads};
ghost use Rattle.cq_io.specs.Failing.{after_fetch};
ghost use Rattle.cq_io.specs.Faults.{TellsFault};
ghost use Rattle.cq_terms.specs.Knowledge.{AreDistinct, NameFacts};
ghost use Rattle.fact_tables.specs.FactRecords.{most_records};
ghost use Rattle.fact_tables.specs.Facts.{IsNumbered, ReadsFacts};
ghost use Rattle.fact_tables.specs.Pairs.{ReadsPairs};
ghost use Rattle.query_reader.specs.Queries.{IsQueryOf, after_marks};
ghost use Rattle.cqapri_words.specs.declared.files.File.TheVariants as file;
ghost use Rattle.input_files.specs.Ends.{IsOf};
ghost use Rattle.input_files.specs.Fetching.{IsFetched, TellsNext, is_read_fault};
ghost use Rattle.input_files.specs.Inputs.{StopsAt};
ghost use Rattle.input_files.specs.Vocabulary.{GrowsBy, HasRoomFor};

use crate::fetch::fetch;
use crate::refusals::{of_axioms, of_facts, of_pairs, of_query};
use cq_io::Shelf;
use cq_terms::{Axiom, Cq, Pair, Vocab};
use cqapri_words::{File, Refusal};
use fact_tables::FactTable;
use std::alloc::Global;

/// Fetches and reads the axioms.
pub(crate) fn read_ontology<S: Shelf>(
    alloc: Global,
    files: &mut S,
    name: &str,
    vocab: &mut Vocab,
) -> Result<Vec<Axiom>, Refusal>
    requires room { HasRoomFor file.Ontology vocab.old }

    ensures exact { IfOk result (λ axioms. (bytes : List ℕ) × IsFetched (S.holds files.old) name.now file.Ontology bytes
        × Reads bytes vocab.old vocab.new axioms.items) }
    ensures refused { IfErr result (λ r. IfSome (S.holds files.old) (λ held. StopsAt 0 held name.now file.Ontology r)) }
    ensures of_file { IfErr result (IsOf file.Ontology) }

    ensures fault { TellsFault (S.faults files.old) (S.faults files.new) (is_read_fault result) }
    ensures told { TellsNext (S.failing files.old) (is_read_fault result) }

    ensures next { S.failing files.new ≡ after_fetch (S.failing files.old) }
    ensures same_files { S.holds files.new ≡ S.holds files.old }

    ensures grown { GrowsBy file.Ontology vocab.old vocab.new }
{
    let bytes = fetch(alloc, files, File::Ontology, name)?;
    match axiom_reader::read_axioms(alloc, &bytes, vocab) {
        Ok(axioms) => Ok(axioms),
        Err(refused) => Err(of_axioms(refused)),
    }
}

/// Fetches and reads the facts.
pub(crate) fn read_table<S: Shelf>(
    alloc: Global,
    files: &mut S,
    name: &str,
    vocab: &mut Vocab,
) -> Result<FactTable, Refusal>
    requires room { HasRoomFor file.Facts vocab.old }

    ensures exact { IfOk result (λ table. (bytes : List ℕ) × IsFetched (S.holds files.old) name.now file.Facts bytes
        × ReadsFacts bytes vocab.old vocab.new table) }
    ensures numbered { IfOk result (λ table. All (IsNumbered vocab.new) table.facts) }
    ensures few { IfOk result (λ table. length table.facts ≤ length table.records) }
    ensures refused { IfErr result (λ r. IfSome (S.holds files.old) (λ held. StopsAt 0 held name.now file.Facts r)) }
    ensures of_file { IfErr result (IsOf file.Facts) }

    ensures fault { TellsFault (S.faults files.old) (S.faults files.new) (is_read_fault result) }
    ensures told { TellsNext (S.failing files.old) (is_read_fault result) }

    ensures next { S.failing files.new ≡ after_fetch (S.failing files.old) }
    ensures same_files { S.holds files.new ≡ S.holds files.old }

    ensures grown { GrowsBy file.Facts vocab.old vocab.new }
{
    let bytes = fetch(alloc, files, File::Facts, name)?;
    match fact_tables::read_facts(alloc, &bytes, vocab) {
        Ok(table) => Ok(table),
        Err(refused) => Err(of_facts(refused)),
    }
}

/// Fetches and reads the pairs of the priority.
pub(crate) fn read_pairs<S: Shelf>(
    alloc: Global,
    files: &mut S,
    name: &str,
    table: &FactTable,
) -> Result<Vec<Pair>, Refusal>
    ensures exact { IfOk result (λ pairs. (bytes : List ℕ) × IsFetched (S.holds files.old) name.now file.Priority bytes
        × ReadsPairs bytes table.now.records pairs.items) }
    ensures named { IfOk result (λ pairs. NameFacts table.now.facts pairs.items) }
    ensures refused { IfErr result (λ r. IfSome (S.holds files.old)
        (λ held. StopsAt (length table.now.records) held name.now file.Priority r)) }
    ensures of_file { IfErr result (IsOf file.Priority) }

    ensures fault { TellsFault (S.faults files.old) (S.faults files.new) (is_read_fault result) }
    ensures told { TellsNext (S.failing files.old) (is_read_fault result) }

    ensures next { S.failing files.new ≡ after_fetch (S.failing files.old) }
    ensures same_files { S.holds files.new ≡ S.holds files.old }
{
    let bytes = fetch(alloc, files, File::Priority, name)?;
    match fact_tables::read_pairs(alloc, &bytes, table) {
        Ok(pairs) => Ok(pairs),
        Err(refused) => Err(of_pairs(refused)),
    }
}

/// Fetches and reads the query.
pub(crate) fn read_query<S: Shelf>(
    alloc: Global,
    files: &mut S,
    name: &str,
    vocab: &mut Vocab,
) -> Result<Cq, Refusal>
    requires room { HasRoomFor file.Query vocab.old }

    ensures exact { IfOk result (λ query. (bytes : List ℕ) × IsFetched (S.holds files.old) name.now file.Query bytes
        × IsQueryOf (after_marks bytes) vocab.old vocab.new query) }
    ensures refused { IfErr result (λ r. IfSome (S.holds files.old) (λ held. StopsAt 0 held name.now file.Query r)) }
    ensures of_file { IfErr result (IsOf file.Query) }

    ensures fault { TellsFault (S.faults files.old) (S.faults files.new) (is_read_fault result) }
    ensures told { TellsNext (S.failing files.old) (is_read_fault result) }

    ensures next { S.failing files.new ≡ after_fetch (S.failing files.old) }
    ensures same_files { S.holds files.new ≡ S.holds files.old }

    ensures grown { GrowsBy file.Query vocab.old vocab.new }
{
    let bytes = fetch(alloc, files, File::Query, name)?;
    match query_reader::read_query(alloc, &bytes, vocab) {
        Ok(query) => Ok(query),
        Err(refused) => Err(of_query(refused)),
    }
}
