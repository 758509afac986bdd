//! Tests of the generated input, and of the table of a report.
#![tactic(auto)]

#[cfg(test)]
mod generated;
#[cfg(test)]
mod tables;
