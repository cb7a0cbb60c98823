//! The numbers and records in the sections and segments of an ELF file.
#![tactic(auto)]

pub mod dynamic;
pub mod hash;
pub mod program;
pub mod sections;
pub mod symbol_table;
