//! Whether the first bytes of a file are those of a library, as `ld.so` of glibc 2.36 decides, for the
//! crates that search libraries and that load them.
#![tactic(auto)]

pub mod error;
pub mod fits;
pub mod segments;

pub use crate::error::HeaderError;
