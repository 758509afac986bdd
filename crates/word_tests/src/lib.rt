//! Words that are refused, and words with the job that they ask for.
#![tactic(auto)]

#[cfg(test)]
mod options;
