//! Tests of lines of reports, printed and read.
#![tactic(auto)]

#[cfg(test)]
mod lines;
#[cfg(test)]
mod made_lines;
