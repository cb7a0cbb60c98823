//! What a dynamic linker reads in addition to the ELF standard's own tables.
#![tactic(auto)]

mod any_table;
pub mod build_ids;
pub mod checked;
mod error;
pub mod find;
pub mod gnu_hash;
pub mod notes;
pub mod object;
pub mod references;
pub mod relr;
pub mod scope;
pub mod sections;
mod segments;
mod serving;
pub mod symbols;
pub mod values;
pub mod versions;
pub mod view;

pub use crate::any_table::AnyTable;
pub use crate::checked::{
    CheckedBinding, CheckedBindings, CheckedObject, CheckedScope, Unresolved,
};
pub use crate::error::LinkError;
pub use crate::object::DynamicObject;
pub use crate::segments::{Segment, Segments};
pub use crate::serving::serves_others;
pub use crate::symbols::FileSymbols;
