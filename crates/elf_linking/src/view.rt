//! What a dynamic linker finds without section headers, by the program headers alone (gABI,
//! "Program Header" and "Dynamic Section").

mod dynamic;
mod entries;
mod last_numbers;
mod linked_symbol;
mod loaded;
mod location;
mod needed;
mod needed_bytes;
mod symbols;
mod tables;
mod tags;

pub use crate::view::dynamic::{DynamicView, dynamic_bytes, dynamic_segment, strings};
pub use crate::view::entries::DynamicEntries;
pub use crate::view::linked_symbol::LinkedSymbol;
pub use crate::view::loaded::{bytes_at, bytes_from, segment_at, word_at};
pub use crate::view::location::TableLocation;
pub use crate::view::needed::Needed;
pub(crate) use crate::view::needed::{is_text_by, text_by};
pub use crate::view::needed_bytes::NeededBytes;
pub use crate::view::tags::{
    DT_AUDIT, DT_AUXILIARY, DT_BIND_NOW, DT_CHECKSUM, DT_DEBUG, DT_DEPAUDIT, DT_FEATURE_1,
    DT_FILTER, DT_FINI, DT_FINI_ARRAY, DT_FINI_ARRAYSZ, DT_FLAGS, DT_FLAGS_1, DT_GNU_HASH,
    DT_GNU_PRELINKED, DT_HASH, DT_INIT, DT_INIT_ARRAY, DT_INIT_ARRAYSZ, DT_JMPREL, DT_NEEDED,
    DT_NULL, DT_PLTGOT, DT_PLTREL, DT_PLTRELSZ, DT_PREINIT_ARRAY, DT_PREINIT_ARRAYSZ, DT_REL,
    DT_RELA, DT_RELACOUNT, DT_RELAENT, DT_RELASZ, DT_RELCOUNT, DT_RELENT, DT_RELR, DT_RELRENT,
    DT_RELRSZ, DT_RELSZ, DT_RPATH, DT_RUNPATH, DT_SONAME, DT_STRSZ, DT_STRTAB, DT_SYMBOLIC,
    DT_SYMENT, DT_SYMTAB, DT_SYMTAB_SHNDX, DT_TEXTREL, DT_TLSDESC_GOT, DT_TLSDESC_PLT, DT_VERDEF,
    DT_VERDEFNUM, DT_VERNEED, DT_VERNEEDNUM, DT_VERSYM,
};
