//! Tests of separate debug files.
#![tactic(auto)]

#[cfg(test)]
mod tests;
