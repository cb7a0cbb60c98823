//! Callers of `xmas_elf` through its public surface alone: proved ones and recipes to be copied.
#![tactic(auto)]

pub mod callers;
pub mod own;
pub mod recipes;
