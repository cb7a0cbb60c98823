//! Callers of `elf_linking` through its public surface alone, to be copied.
#![tactic(auto)]

pub mod callers;
