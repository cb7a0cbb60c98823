//! The addresses in packed relative relocations, of a section and of the dynamic segment, which needs
//! no section headers (gABI, "Relocation", SHT_RELR, and "Dynamic Section", DT_RELR).

ghost use Rattle.std.specs.Prelude.{◌≡◌};
ghost use Rattle.elf_c.specs.Batch.{Fills, Stores};
ghost use Rattle.elf_c.specs.PackedRelocations.{dynamic_packed_address, packed_address};
ghost use Rattle.elf_c.specs.Parsed.{file_of};
ghost use Rattle.elf_linking.specs.Relr.{relr_rest};

use crate::batch::{Sequence, fill_in_order};
use crate::file::Parsed;
use crate::status::{AnyError, give};
use elf_linking::relr::Relr;
use elf_linking::sections::section_relr;
use elf_linking::view::DynamicView;
use xmas_elf::ElfFile;

impl Sequence for Relr<'_> {
    type Record = u64;

    ghost left = { relr_rest };

    fn next(&mut self) -> Option<u64> {
        Iterator::next(self)
    }
}

// Stores the addresses in a section from an index on in `out`, and returns their number.
fn fill_from_section(
    file: &ElfFile<'_>,
    section: u64,
    first: u64,
    out: &mut [u64],
) -> Result<u64, AnyError>
    ensures { Fills (packed_address file.now section) first out.old result out.new }
{
    let header = file.section_header_at(section)?;
    match section_relr(file, &header) {
        Some(Ok(addresses)) => fill_in_order(addresses, first, out),
        Some(Err(error)) => Err(AnyError::Link(error)),
        None => Err(AnyError::OtherData),
    }
}

/// The addresses in the packed relative relocations of the section at an index, from index `first`
/// on: as many as fit in `out`, or all. `count` is set to their number; the rest of `out` is
/// unchanged.
///
/// Errors: those of `ElfFile::section_header_at`; `OtherData` if the section is not of type
/// SHT_RELR; those of `elf_linking::sections::section_relr`; `NoRecord` if there are no more than
/// `first` addresses; `out` and `count` are then unchanged.
#[unsafe(no_mangle)]
pub extern "C" fn xmas_elf_packed_relocations(
    input: &[u8],
    header: &Parsed,
    section: u64,
    first: u64,
    out: &mut [u64],
    count: &mut u64,
) -> u32
    ensures { Stores (packed_address (file_of input.entry header.now) section)
        first out.old out.new count.old result count.new }
{
    give(
        fill_from_section(&header.file(input), section, first, out),
        count,
    )
}

// Stores the addresses of the dynamic segment from an index on in `out`, and returns their number.
fn fill_from_segment(file: &ElfFile<'_>, first: u64, out: &mut [u64]) -> Result<u64, AnyError>
    ensures { Fills (dynamic_packed_address file.now) first out.old result out.new }
{
    match DynamicView::read(file)?.relr(file) {
        Some(Ok(packed)) => fill_in_order(packed, first, out),
        Some(Err(error)) => Err(AnyError::Link(error)),
        None => Err(AnyError::NoRecord),
    }
}

/// The addresses in the packed relative relocations of the dynamic segment (DT_RELR), from index
/// `first` on: as many as fit in `out`, or all. `count` is set to their number; the rest of `out` is
/// unchanged. It needs no section headers, and reads the words before the address anew.
///
/// Errors: those of `DynamicView::read`; those of `DynamicView::relr`; `NoRecord` if there is no entry
/// DT_RELR, or if there are no more than `first` addresses; `out` and `count` are then unchanged.
#[unsafe(no_mangle)]
pub extern "C" fn xmas_elf_dynamic_packed_relocations(
    input: &[u8],
    header: &Parsed,
    first: u64,
    out: &mut [u64],
    count: &mut u64,
) -> u32
    ensures { Stores (dynamic_packed_address (file_of input.entry header.now))
        first out.old out.new count.old result count.new }
{
    give(fill_from_segment(&header.file(input), first, out), count)
}
