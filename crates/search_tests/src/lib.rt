//! Tests of searches.
#![tactic(auto)]

#[cfg(test)]
mod examples;
#[cfg(test)]
mod solvers;
