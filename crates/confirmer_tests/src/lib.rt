//! Tests of reports that are confirmed by all rules.
#![tactic(auto)]

#[cfg(test)]
mod bad_bytes;
#[cfg(test)]
mod bad_texts;
#[cfg(test)]
mod crowded;
#[cfg(test)]
mod moved_lines;
#[cfg(test)]
mod plain;
#[cfg(test)]
mod registers;
#[cfg(test)]
mod staff;
#[cfg(test)]
mod texts;
