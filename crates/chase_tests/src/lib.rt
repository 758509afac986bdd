//! Tests of whole runs on random inputs, beside the chase, the repairs and the verdicts by their definitions.
#![tactic(auto)]

#[cfg(test)]
mod compared;
#[cfg(test)]
mod cycles;
#[cfg(test)]
mod desk;
#[cfg(test)]
mod expected;
#[cfg(test)]
mod inputs;
#[cfg(test)]
mod kinds;
#[cfg(test)]
mod numbers;
#[cfg(test)]
mod queries;
#[cfg(test)]
mod tally;
#[cfg(test)]
mod texts;
