//! Tests of classification: whole reports of small inputs, worked by hand or by a plain enumeration of repairs, and refusals.
#![tactic(auto)]

#[cfg(test)]
mod answers;
#[cfg(test)]
mod examples;
#[cfg(test)]
mod faults;
#[cfg(test)]
mod judged;
#[cfg(test)]
mod named;
#[cfg(test)]
mod parts;
#[cfg(test)]
mod prepared;
#[cfg(test)]
mod random;
#[cfg(test)]
mod refusals;
#[cfg(test)]
mod reports;
#[cfg(test)]
mod rows;
#[cfg(test)]
mod said;
#[cfg(test)]
mod tables;
#[cfg(test)]
mod texts;
