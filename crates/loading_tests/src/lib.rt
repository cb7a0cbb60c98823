//! Tests of plans of loads, and callers to be copied.
#![tactic(auto)]

pub mod callers;
pub mod slot_callers;
#[cfg(test)]
mod tests;
pub mod word_callers;
