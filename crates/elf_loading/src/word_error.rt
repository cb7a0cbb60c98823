//! Which relocation has an error.

use crate::LoadError;

/// Why the words of an object can't be written, and which relocation has the error.
#[derive(Clone, Copy, Debug, PartialEq, Eq)]
pub struct WordError {
    /// The error.
    pub error: LoadError,
    /// The index of the relocation in the order of `Words`; `None` for an error that comes before those
    /// of words, as `SlotType`.
    pub relocation: Option<u64>,
}
