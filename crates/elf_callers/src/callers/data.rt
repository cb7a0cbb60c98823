//! Callers that read the data of sections and segments by their types.

ghost use Rattle.std.specs.Prelude.{◌≡◌, ◌*◌, ◌+◌, ◌<◌, ◌≤◌};
ghost use Rattle.std.specs.Prelude.{IsSome, MatchOption, None};
ghost use Rattle.std.specs.Prelude.{Ok, Some, length};
ghost use Rattle.elf_callers.specs.Kinds.{symbols_64_in};
ghost use Rattle.xmas_elf.specs.FileHeader.{file_class};
ghost use Rattle.xmas_elf.specs.SectionContent.{section_content_of};
ghost use Rattle.xmas_elf.specs.SectionHeader.{section_fields, section_type};

use xmas_elf::sections::{SectionData, SectionHeader, ShType};
use xmas_elf::{ElfError, ElfFile};

/// How many symbols a section of class 64 has: as many as 24 goes into its size. None where it
/// holds none of these.
pub fn symbol_count(file: &ElfFile<'_>, section: SectionHeader) -> Option<usize>
    ensures { let found = symbols_64_in (section_content_of file.now section) in MatchOption result
        (found ≡ None) (λ count. IsSome found × (count * 24 ≡ (section_fields section).size)) }
{
    match section.get_data(file) {
        Ok(SectionData::SymbolTable64(table)) => Some(table.len()),
        _ => None,
    }
}

/// Why the symbols of a file of no known class can't be read, where they are all there.
#[tactic(auto, unfolding(xmas_elf::specs::SectionContent::section_content_of))]
pub fn unknown_symbols(file: &ElfFile<'_>, section: SectionHeader) -> Option<ElfError>
    requires typed { section_type section ≡ Ok ShType.SymTab }
    requires class { file_class file.now.header ≡ 7 }
    requires there { (section_fields section).offset + (section_fields section).size
        ≤ length file.now.input.now }
    ensures { result ≡ Some ElfError.UnknownClass }
{
    section.get_data(file).err()
}
