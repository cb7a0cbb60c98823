//! Tests of what `elf_linking` reads: hash tables, versions, notes, RELR and the dynamic segment, of
//! worked tables and files, and of small shared objects that a linker made.
#![tactic(auto)]

#[cfg(test)]
mod tests;
