//! Tests of the search for libraries.
#![tactic(auto)]

#[cfg(test)]
mod tests;
