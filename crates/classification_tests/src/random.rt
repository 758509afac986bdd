//! Reports on small random tables.

use crate::reports::report;
use crate::said::answers_said;
use crate::tables::{Numbers, Table};
use cq_terms::Repairs;
use std::alloc::Global;
use std::test::Fail;

/// Whether the report on the table says what the definitions say of the only candidate, where it is one.
fn agrees(alloc: Global, table: &Table, repairs: Repairs) -> Result<bool, Fail> {
    let texts = table.texts(alloc)?;
    let written = report(alloc, &texts.input(), 20000, repairs)?;
    let said = answers_said(alloc, written.sink.written())?;
    if !table.has_candidate() {
        return Ok(said.is_empty());
    }
    Ok(said.len() == 1 && said[0].verdicts == table.verdicts(repairs))
}

#[test]
fn random_tables_have_the_verdicts_of_the_definitions(rt: HostRuntime) -> Result<(), Fail> {
    let mut numbers = Numbers::new();
    for round in 0..60 {
        let table = Table::random(&mut numbers);
        let all = agrees(rt.alloc(), &table, Repairs::All)?;
        assert!(rt; all, "round {round}, all repairs");
        let chosen = agrees(rt.alloc(), &table, Repairs::Pareto)?;
        assert!(rt; chosen, "round {round}, chosen repairs");
    }
    Ok(())
}
