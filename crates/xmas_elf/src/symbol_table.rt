//! Symbol tables (gABI, "Symbol Table").

mod entries;
mod entry;
mod file_ranges;
mod symbol_names;
mod table;
mod wide_index;

pub use crate::symbol_table::entries::{DynEntry32, DynEntry64, Entry32, Entry64};
pub use crate::symbol_table::entry::Entry;
pub use crate::symbol_table::table::SymbolTable;
pub use elf_records::symbol_table::{
    BINDING_GNU_UNIQUE, Binding, Binding_, TYPE_GNU_IFUNC, Type, Type_, Visibility, Visibility_,
};
