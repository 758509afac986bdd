//! Tests of the types that every crate speaks of, of files and streams, and of the readers of the input.
#![tactic(auto)]

#[cfg(test)]
mod lists;
#[cfg(test)]
mod objects;
#[cfg(test)]
mod ontologies;
#[cfg(test)]
mod queries;
#[cfg(test)]
mod tables;
