//! Whole runs that are refused, or that a fault stops, with what they must write.
#![tactic(auto)]

#[cfg(test)]
mod flushes;
#[cfg(test)]
mod options;
#[cfg(test)]
mod orders;
#[cfg(test)]
mod pairs;
#[cfg(test)]
mod refusals;
#[cfg(test)]
mod stops;
#[cfg(test)]
mod tables;
