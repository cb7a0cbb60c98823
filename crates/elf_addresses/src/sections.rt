//! The section at an address (gABI, "Sections", sh_addr and sh_size).

ghost use Rattle.std.specs.Prelude.{◌≡◌, ◌↔◌, IfSome, IsTrue, Some, option_map, slice_get};
ghost use Rattle.elf_addresses.specs.SectionAt.{HoldsAddress};
ghost use Rattle.xmas_elf.specs.First.{FindsFirstAt};
ghost use Rattle.xmas_elf.specs.SectionHeader.{section_fields, section_list};
ghost use Rattle.xmas_elf.specs.SectionTable.{table_sections};

use xmas_elf::ElfFile;
use xmas_elf::sections::{SHF_ALLOC, SHF_TLS, SectionHeader, SectionTable};

/// The first section whose addresses contain an address, with its index.
///
/// A section has `size` addresses from `address` on if it is in memory (`SHF_ALLOC`) and is no
/// template of thread-local storage (`SHF_TLS`).
pub fn section_at(file: &ElfFile<'_>, address: u64) -> Option<(usize, SectionHeader)>
    ensures position { FindsFirstAt (λ section. HoldsAddress (section_fields section) address)
        (section_list file.now) (option_map (λ found. found.0) result) }
    ensures section { IfSome result
        (λ found. slice_get (section_list file.now) found.0 ≡ Some found.1) }
{
    let table = file.section_table();
    let Some(index) = section_position(&table, address) else {
        return None;
    };
    match table.get(index) {
        Some(section) => Some((index, section)),
        None => unreachable!(),
    }
}

// The index of that section.
fn section_position(table: &SectionTable<'_, '_>, address: u64) -> Option<usize>
    ensures { FindsFirstAt (λ section. HoldsAddress (section_fields section) address)
        (table_sections table.now) result }
{
    table
        .iter()
        .position(|section| holds_address(&section, address))
}

// Whether the addresses of a section contain an address.
#[inline(always)]
fn holds_address(section: &SectionHeader, address: u64) -> bool
    ensures { IsTrue result ↔ HoldsAddress (section_fields section.now) address }
{
    let flags = section.flags();
    if flags & SHF_ALLOC == 0 || flags & SHF_TLS != 0 {
        return false;
    }
    let start = section.address();
    start <= address && address - start < section.size()
}
