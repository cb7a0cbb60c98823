//! Worked files for tests: small ELF files, field by field, the places of their fields, lines of
//! their reports, files with version tables, and small shared objects that a linker made.
#![tactic(auto)]

/// A constant table of tuples: the cells of each row, which a semicolon ends.
#[macro_export]
macro_rules! rows {
    ($($($cell:expr),+;)*) => { &[$(($($cell),+)),*] };
}

pub mod files;
pub mod linked;
pub mod places;
pub mod reports;
pub mod versioned;
