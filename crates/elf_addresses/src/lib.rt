//! The symbol of an address: the innermost of those that cover it.
//!
//! `symbol_at` returns the symbol of a table that covers an address, and the offset in it.
//! `open_below` returns the symbol without a size that an address is after, and `section_at` the
//! section that an address is in. A `SymbolIndex` returns the same symbols for many addresses, by an
//! index in words and numbers of the caller. They take no memory. `innermost`, `nearest` and
//! `ClaimIndex` are the same for ranges of another kind, which implement `Claims`.
//!
//! `owner_of` returns the part of a file that a byte belongs to, and `Pieces` all runs of bytes that
//! belong to one part. `SymbolPieces` returns the runs of addresses that belong to one symbol, and
//! `SectionCounts` helps where many sections are asked for.
#![tactic(auto)]

mod claim;
mod claims;
mod difference;
pub mod dladdr;
mod error;
mod file_claims;
mod file_symbols;
mod find;
mod held;
mod index;
mod next;
mod owner;
mod pieces;
mod section_counts;
mod sections;
mod symbol_index;
mod symbol_pieces;
mod symbols;
mod symtab;

pub use crate::claim::Claim;
pub use crate::claims::{Claims, innermost, nearest};
pub use crate::difference::{Change, SizedPart, differences};
pub use crate::error::IndexError;
pub use crate::file_claims::{SectionClaims, SegmentClaims};
pub use crate::file_symbols::AnyAddressSymbols;
pub use crate::find::{At, open_below, symbol_at};
pub use crate::index::{ClaimIndex, IndexSize, build_index, build_sized, index_size};
pub use crate::owner::{Owner, owner_of};
pub use crate::pieces::{Piece, Pieces};
pub use crate::section_counts::SectionCounts;
pub use crate::sections::section_at;
pub use crate::symbol_index::SymbolIndex;
pub use crate::symbol_pieces::{SymbolPiece, SymbolPieces};
pub use crate::symbols::{AddressSymbols, SymbolClaims};
pub use crate::symtab::{symtab_at, symtab_index};
