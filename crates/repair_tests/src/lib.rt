//! Tests of the priority, its clauses and cores.
#![tactic(auto)]

#[cfg(test)]
mod clauses;
#[cfg(test)]
mod cores;
#[cfg(test)]
mod graphs;
#[cfg(test)]
mod priorities;
