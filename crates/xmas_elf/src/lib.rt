//! A reader of ELF files in a byte slice.
//!
//! Field values are those of the file. Every returned slice and text is a part of the input, except
//! the empty slice of an empty segment. No call allocates memory, and each returns on every input.
//!
//! `ElfFile` is a file. Its methods are in the modules of their subjects:
//!
//! - `counts`: the number of sections and segments, and the section that contains the names.
//! - `sections`, `program`: headers by index and in order; their fields, data,
//!   contents by type, and checks.
//! - `names`: the names of sections, and a section by its name.
//! - `string_tables`, `symbol_table`, `hash`: symbol names, symbols, and symbol look-ups.
//! - `notes`: the first note of a section or segment. `extensions`: build ids and links to debug
//!   information.
//! - `header`: the ELF header and its check. `dynamic`: the entries of the dynamic section.
//! - `report`: the output of `elfinfo`. `bytes`: numbers, records and texts in bytes. `ranges`: the
//!   bounds of tables and data.
#![tactic(auto)]

ghost use Rattle.std.specs.Prelude.{◌≡◌, ◌↔◌, Err, IfErr, IfOk, IsOk, Ok};
ghost use Rattle.elf_base.specs.FileHeader.{IsAccepted, file_header, file_order, header_of};

pub mod bytes;
mod counts;
pub mod dynamic;
mod extensions;
pub mod hash;
pub mod header;
mod names;
mod notes;
pub mod program;
mod ranges;
pub mod report;
pub mod sections;
mod string_tables;
pub mod symbol_table;

use crate::bytes::Order;
pub use crate::extensions::{Extensions, NT_GNU_BUILD_ID};
use crate::header::{Header, parse_header};
use elf_base::header::byte_order;
pub use elf_base::{ElfError, P32, P64};

/// An ELF file: its bytes, and its ELF header.
///
/// Both fields can be set by hand; each call says what it returns then.
#[derive(Debug, Drop)]
pub struct ElfFile<'a> {
    /// The bytes of the file.
    pub input: &'a [u8],
    /// The ELF header, by which all calls read the bytes.
    pub header: Header,
}

impl<'a> ElfFile<'a> {
    /// Reads the file in `input`; the errors are those of `parse_header`.
    #[inline(always)]
    pub fn new(input: &'a [u8]) -> Result<ElfFile<'a>, ElfError>
        ensures accepts { IsOk result ↔ IsAccepted input.now }
        ensures input { IfOk result (λ file. file.input ≡ input.entry) }
        ensures value { IfOk result (λ file. file.header ≡ file_header input.now) }
        ensures header { IfOk result (λ file. header_of input.now ≡ Ok file.header) }
        ensures failed { IfErr result (λ error. header_of input.now ≡ Err error) }
    {
        let header = parse_header(input)?;
        Ok(Self { input, header })
    }

    /// The byte order of the file's numbers, by the data byte of its ELF header: big-endian for
    /// ELFDATA2MSB, else little-endian (gABI, "ELF Identification", EI_DATA).
    #[inline(always)]
    pub fn byte_order(&self) -> Order
        ensures { result ≡ file_order self.now.header }
    {
        byte_order(self.header.pt1.encoding)
    }
}
