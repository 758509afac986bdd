//! The job `bench`: a generated input is answered, and the verdicts are counted.

ghost use Rattle.std.specs.Prelude.{◌≡◌, ◌≤◌, false, [], IfOk, IfErr, OnOk, string_bytes};
ghost use Rattle.cq_io.specs.Faults.{TellsFault};
ghost use Rattle.cq_io.specs.MemShelf.{bytes_under, failing_of};
ghost use Rattle.cqapri_words.specs.Jobs.{names_in};
ghost use Rattle.input_files.specs.Fetching.{is_read_fault};
ghost use Rattle.cqapri_cli.specs.Bench.{CountsBench, LeavesBench, PrintsCounts, StopsBench, bench_held, bench_names, held_of, never_failing};
ghost use Rattle.cqapri_cli.specs.Ends.{is_of_output, is_write_fault};

use crate::counting::count_answers;
use crate::counts_writer::write_counts;
use bench_texts::{Texts, bench_texts};
use classifier::Summary;
use cq_io::{MemShelf, Sink};
use cq_terms::NoMemory;
use cqapri_words::{Options, Paths, Refusal, Status};
use std::alloc::Global;

/// Answers the query of the generated input over `size` individuals, with the settings of words without an option, and writes
/// how many answers there are, in how many of them brave, AR and IAR are yes, and in how many of them a question is undecided.
pub(crate) fn bench<O: Sink>(alloc: Global, size: u32, out: &mut O) -> Result<Status, Refusal>
    requires some { 1 ≤ size }
    requires most { size ≤ 20000 }

    ensures done { IfOk result (λ status. status ≡ Status.Done) }
    ensures counts { IfOk result (λ status. PrintsCounts size (O.written out.old) (O.written out.new)) }
    ensures stopped { IfErr result (StopsBench size) }
    ensures left { IfErr result (LeavesBench size (O.written out.old) (O.written out.new)) }

    ensures no_read_fault { is_read_fault result ≡ false }
    ensures write_fault { TellsFault (O.faults out.old) (O.faults out.new) (is_write_fault result) }
{
    let counts = count_bench(alloc, size)?;
    write_counts(out, counts)?;
    Ok(Status::Done)
}

/// The counts of the verdicts on the generated input.
fn count_bench(alloc: Global, size: u32) -> Result<Summary, Refusal>
    requires most { size ≤ 20000 }

    ensures counts { IfOk result (CountsBench size) }
    ensures stopped { IfErr result (StopsBench size) }
    ensures no_output { IfErr result (λ r. is_of_output r ≡ false) }
{
    let mut files = shelf_of(alloc, size)?;
    count_answers(alloc, &bench_paths(), &Options::defaults(), &mut files)
}

/// A shelf with the generated texts, each under its name.
fn shelf_of(alloc: Global, size: u32) -> Result<MemShelf, NoMemory>
    requires most { size ≤ 20000 }

    ensures holds { IfOk result (λ shelf. bytes_under shelf.files ≡ bench_held size) }
    ensures never { IfOk result (λ shelf. failing_of shelf ≡ never_failing) }
{
    let texts = bench_texts(alloc, size)?;
    let mut shelf = MemShelf::new(alloc);
    put_texts(&mut shelf, &texts)?;
    Ok(shelf)
}

/// Puts the texts on an empty shelf, each under its name.
fn put_texts(shelf: &mut MemShelf, texts: &Texts) -> Result<(), NoMemory>
    requires empty { shelf.old.files ≡ [] }

    ensures holds { OnOk result (bytes_under shelf.new.files ≡ held_of (string_bytes texts.now.ontology) (string_bytes texts.now.facts)
        (string_bytes texts.now.priority) (string_bytes texts.now.query)) }
    ensures nothing_else { OnOk result (shelf.new ≡ record shelf.old { files = shelf.new.files }) }
{
    shelf.put("query", texts.query.as_bytes())?;
    shelf.put("priority", texts.priority.as_bytes())?;
    shelf.put("facts", texts.facts.as_bytes())?;
    shelf.put("ontology", texts.ontology.as_bytes())?;
    Ok(())
}

/// The names under which the generated texts stand.
fn bench_paths() -> Paths<'static>
    ensures exact { names_in result ≡ bench_names }
{
    Paths {
        ontology: "ontology",
        facts: "facts",
        priority: Some("priority"),
        query: "query",
    }
}
