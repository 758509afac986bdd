//! Tests of clauses under references, trails and learning.
#![tactic(auto)]

#[cfg(test)]
mod arenas;
#[cfg(test)]
mod lessons;
#[cfg(test)]
mod trails;
