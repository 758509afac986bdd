//! Tests of conflicts, candidates and causes.
#![tactic(auto)]

#[cfg(test)]
mod causes;
#[cfg(test)]
mod conflicts;
#[cfg(test)]
mod examples;
