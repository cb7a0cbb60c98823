//! The base of the ELF reader: errors, numbers and records in bytes, and the ELF header.
#![tactic(auto)]

pub mod bytes;
mod error;
pub mod header;
pub mod print;

pub use crate::error::ElfError;

/// A number in an ELF file of class 32, such as an address or an offset.
pub type P32 = u32;

/// A number in an ELF file of class 64, such as an address or an offset.
pub type P64 = u64;
