//! Linked files: small shared objects as a compiler and a linker made them.

pub mod exported;
pub mod importer;
pub mod small;
pub mod versions;
