//! Which libraries a program gets, and in which order they start, as the loader of glibc decides on
//! Linux (`ld.so`, its manual page).
//!
//! The crate opens no file and allocates no memory: it says which path is to be tried next and what
//! an opened file means. The caller opens files and compares their identities.
#![tactic(auto)]

pub mod cache;
pub mod candidates;
mod elements;
pub mod error;
pub mod fits;
pub mod library;
mod lists;
pub mod names;
pub mod order;
mod paths;
pub mod start;
pub mod tokens;
pub mod versions;

pub use crate::error::SearchError;
pub use crate::paths::PathBytes;
