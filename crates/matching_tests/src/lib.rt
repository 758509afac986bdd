//! Tests of the index and of both evaluators, which have to find the same hits of random tables and queries.
#![tactic(auto)]

#[cfg(test)]
mod chance;
#[cfg(test)]
mod comparisons;
#[cfg(test)]
mod indexes;
#[cfg(test)]
mod joins;
#[cfg(test)]
mod plain_matches;
#[cfg(test)]
mod queries;
#[cfg(test)]
mod tables;
