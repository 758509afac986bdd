//! The example of use in the doc of `Solver`, line by line.

use cdcl_core::{Budget, Outcome, Solver};
use proof_logs::MemLog;
use std::alloc::Global;
use std::test::Fail;

/// Whether variable 1 has to be present where variable 0 is absent.
fn is_present(alloc: Global) -> Result<bool, Fail> {
    // Variable 0 or variable 1 is present: their literals are 0 and 2. Where 0 is absent, which is literal 1, variable 1 is.
    let mut solver = Solver::new(alloc, 2)?;
    solver.add_clause(&[0, 2])?;
    let mut log = MemLog::new(alloc, None);
    let mut budget = Budget { limit: 5, used: 0 };
    let outcome = solver.solve(&[0, 1], &[1], &mut budget, &mut log)?;
    Ok(outcome == Outcome::Model && solver.value(1))
}

#[test]
fn one_of_two_is_present(rt: HostRuntime) -> Result<(), Fail> {
    assert!(rt; is_present(rt.alloc())?);
    Ok(())
}
