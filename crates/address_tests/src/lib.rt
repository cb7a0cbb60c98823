//! Tests of the symbol and the section at an address, and a caller to be copied.
#![tactic(auto)]

pub mod callers;
#[cfg(test)]
mod tests;
