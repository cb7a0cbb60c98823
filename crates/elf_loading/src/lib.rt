//! What memory holds once a file is loaded, as Linux maps programs and glibc libraries.
//!
//! `LoadPlan::check_load` decides whether a file has a plan, and is stricter than Linux;
//! `check_load_by` says what one of them does. The plan says which pages are mapped (`mappings`),
//! which byte is at an address (`byte_at`), and the rest that a loader asks for: the span, what is
//! read-only after relocation, thread-local storage, the stack, the interpreter and the entry point.
//! No call allocates memory.
#![tactic(auto)]

mod bytes;
mod checked;
mod error;
mod file_check;
mod image_tables;
mod image_words;
mod in_order;
mod library_check;
mod load_check;
mod load_pass;
mod load_scope;
mod loader_check;
mod loads;
mod mapping;
mod mappings;
mod pages;
mod plan;
mod program_check;
mod relocate;
mod segments;
mod slots;
mod span;
mod value;
mod word_error;
mod words;

pub use crate::bytes::Byte;
pub use crate::checked::{CheckedImage, CheckedLoadScope, ImageError};
pub use crate::error::LoadError;
pub use crate::in_order::{InOrder, Relocation};
pub use crate::load_scope::LoadScope;
pub use crate::mapping::{Contents, Loader, Mapping};
pub use crate::mappings::Mappings;
pub use crate::plan::{LoadPlan, Tls};
pub use crate::relocate::{Place, Sources};
pub use crate::span::Span;
pub use crate::value::{Origin, Value};
pub use crate::word_error::WordError;
pub use crate::words::{Binding, Relocated, Word, Words};
pub use elf_linking::references::{Formula, formula_of, width_of};
