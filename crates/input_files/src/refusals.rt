//! What each reader's refusal is for the job.

ghost use Rattle.std.specs.Prelude.{◌≡◌, false};
ghost use Rattle.cqapri_words.specs.declared.files.File.TheVariants as file;
ghost use Rattle.input_files.specs.Ends.{IsOf};
ghost use Rattle.input_files.specs.Fetching.{is_fault};
ghost use Rattle.input_files.specs.Refusals.{refusal_of_axioms, refusal_of_facts, refusal_of_pairs, refusal_of_query};

use axiom_reader::AxiomRefusal;
use cqapri_words::{Fault, Quantity, Refusal};
use fact_tables::{FactRefusal, PairRefusal};
use query_reader::QueryRefusal;

/// The refusal of an ontology.
pub(crate) fn of_axioms(refused: AxiomRefusal) -> Refusal
    ensures exact { result ≡ refusal_of_axioms refused }
    ensures of_file { IsOf file.Ontology result }
    ensures no_fault { is_fault result ≡ false }
{
    match refused {
        AxiomRefusal::NotUtf8 { line } => Refusal::Faulty(Fault::LineNotUtf8 { line }),
        AxiomRefusal::BadLine { line } => Refusal::Faulty(Fault::BadLine { line }),
        AxiomRefusal::TooMany => Refusal::Limit(Quantity::Axioms),
        AxiomRefusal::NoMemory => Refusal::NoMemory,
    }
}

/// The refusal of a table of facts.
pub(crate) fn of_facts(refused: FactRefusal) -> Refusal
    ensures exact { result ≡ refusal_of_facts refused }
    ensures of_file { IsOf file.Facts result }
    ensures no_fault { is_fault result ≡ false }
{
    match refused {
        FactRefusal::BadWidth { number } => Refusal::Faulty(Fault::BadWidth { number }),
        FactRefusal::NotUtf8 { number } => Refusal::Faulty(Fault::RecordNotUtf8 { number }),
        FactRefusal::EmptyField { number } => Refusal::Faulty(Fault::EmptyField { number }),
        FactRefusal::TooMany => Refusal::Limit(Quantity::Records),
        FactRefusal::NoMemory => Refusal::NoMemory,
    }
}

/// The refusal of a table of pairs.
pub(crate) fn of_pairs(refused: PairRefusal) -> Refusal
    ensures exact { result ≡ refusal_of_pairs refused }
    ensures of_file { IsOf file.Priority result }
    ensures no_fault { is_fault result ≡ false }
{
    match refused {
        PairRefusal::BadWidth { number } => Refusal::Faulty(Fault::PairWidth { number }),
        PairRefusal::BadNumber { number } => Refusal::Faulty(Fault::BadNumber { number }),
        PairRefusal::NoSuchRecord { number } => Refusal::Faulty(Fault::NoSuchRecord { number }),
        PairRefusal::TooMany => Refusal::Limit(Quantity::Pairs),
        PairRefusal::NoMemory => Refusal::NoMemory,
    }
}

/// The refusal of a query.
pub(crate) fn of_query(refused: QueryRefusal) -> Refusal
    ensures exact { result ≡ refusal_of_query refused }
    ensures of_file { IsOf file.Query result }
    ensures no_fault { is_fault result ≡ false }
{
    match refused {
        QueryRefusal::BadToken { at } => Refusal::Faulty(Fault::BadToken { at }),
        QueryRefusal::TooManyAtoms => Refusal::Limit(Quantity::QueryAtoms),
        QueryRefusal::RepeatedHead { place } => Refusal::Faulty(Fault::RepeatedHead { place }),
        QueryRefusal::HeadNotInBody { place } => Refusal::Faulty(Fault::HeadNotInBody { place }),
        QueryRefusal::NoMemory => Refusal::NoMemory,
    }
}
