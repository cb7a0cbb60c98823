//! Tests of `xmas_elf` and of the crates below it: numbers, records, texts, headers, sections,
//! segments, symbols, hash tables and reports, and of callers that work through a file.
#![tactic(auto)]

#[cfg(test)]
mod tests;
