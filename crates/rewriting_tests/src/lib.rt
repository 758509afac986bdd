//! Tests of moves, normal forms and closures.
#![tactic(auto)]

#[cfg(test)]
mod closures;
#[cfg(test)]
mod queries;
#[cfg(test)]
mod steps;
