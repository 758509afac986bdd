//! Worked rows: whole runs over a shelf and two sinks in memory, with what they must write.
#![tactic(auto)]

#[cfg(test)]
mod confirmations;
#[cfg(test)]
mod jobs;
#[cfg(test)]
mod lines;
#[cfg(test)]
mod marks;
#[cfg(test)]
mod priorities;
#[cfg(test)]
mod rows;
#[cfg(test)]
mod tables;
