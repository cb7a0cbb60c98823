//! The ELF reader for C, and for all languages that call C:
//! a static library whose exports return numbers only.
//!
//! Each export takes the bytes of a file as a slice, and the header that `xmas_elf_open` read. It
//! returns a status, and fills a record of numbers and of input ranges if the status is 0. No
//! export keeps anything, allocates memory or requires anything of its arguments. `status` numbers
//! the errors, and `message` has their texts. The C declarations are `bindings/include/xmas_elf.h`.
#![tactic(auto)]

pub mod address_index;
pub mod addresses;
mod batch;
pub mod debug_files;
pub mod dynamic;
pub mod dynamic_symbols;
pub mod dynamic_texts;
pub mod file;
pub mod found_symbols;
pub mod hash_tables;
pub mod load_all;
pub mod load_images;
pub mod load_objects;
pub mod load_plans;
pub mod look_ups;
pub mod message;
pub mod names;
pub mod notes;
pub mod packed_relocations;
pub mod pieces;
pub mod relocations;
pub mod search_files;
pub mod search_order;
pub mod search_paths;
pub mod search_versions;
pub mod sections;
pub mod segments;
pub mod size_changes;
pub mod status;
pub mod symbol_tables;
pub mod symbols;
pub mod versions;
