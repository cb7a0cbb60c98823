//! Numbers, records, tables and texts in bytes.

pub use elf_base::bytes::{
    Order, Record, Table, TableIter, bytes_up_to_zero, is_found_at, text_at, text_is, text_range,
};
