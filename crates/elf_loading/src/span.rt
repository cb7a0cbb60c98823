//! Ranges of addresses.

/// A range of addresses, relative to the base at which a file is loaded.
#[derive(Clone, Copy, Debug, PartialEq, Eq)]
pub struct Span {
    /// The first address.
    pub start: u64,
    /// The first address after the range.
    pub end: u64,
}
