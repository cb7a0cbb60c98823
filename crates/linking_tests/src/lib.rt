//! Tests of what `elf_linking` binds: look-ups by name and version, references and bindings, of worked
//! files with their results, and of small shared objects that a linker made.
#![tactic(auto)]

#[cfg(test)]
mod tests;
