//! Separate debug files: those in which GNU's tools keep the symbols of a stripped program (gdb's
//! manual, "Separate Debug Files").
//!
//! The crate opens no file and allocates no memory: it says at which paths a debug file may be, and
//! whether an opened file is the one that is wanted.
#![tactic(auto)]

mod crc;
mod paths;
mod wanted;

pub use crate::crc::debug_crc;
pub use crate::paths::{DebugHow, DebugPath, DebugPathBytes, DebugPaths, debug_paths};
pub use crate::wanted::{DebugMismatch, DebugWanted, own_build_id};
