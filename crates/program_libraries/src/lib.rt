//! Finds the libraries of a program as `ld.so` does, in the files of this system or under the root of
//! another one. Files are opened for reading, and nothing is run.
#![tactic(auto)]

mod complete;
mod conf;
mod contents;
mod error;
mod finding;
mod holders;
mod listed;
mod missing;
mod needed_versions;
mod objects;
mod options;
mod processor;
mod records;
mod rooted;
mod search;
mod store;
mod systems;
mod trees;
mod versions;

pub use crate::complete::is_complete;
pub use crate::error::{FindError, say_error};
pub use crate::finding::{CacheFile, Finder, Settings};
pub use crate::listed::listed_inputs;
pub use crate::missing::{say_lacked_given, say_missing, with_missing, write_lacked};
pub use crate::objects::{Entry, Found, Object};
pub use crate::options::{Given, given_files, own_settings, with_option};
pub use crate::store::StoredFile;
pub use crate::trees::Tree;
pub use crate::versions::{LackedVersion, lacked_versions};
