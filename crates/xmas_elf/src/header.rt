//! The ELF header, at the start of every file (gABI, "ELF Header").

ghost use Rattle.std.specs.Prelude.{◌≡◌, ◌≢◌, ◌≤◌, ◌==◌, [], ◌∷◌, OnOk, if◌then◌else◌, length, nat_lt};
ghost use Rattle.std.specs.Option.{option_map_or};
ghost use Rattle.elf_base.specs.FileHeader.{class_number, file_class, header_fields};
ghost use Rattle.elf_base.specs.FirstError.{unless};
ghost use Rattle.elf_base.specs.declared.error.ElfError.{ElfError};
ghost use Rattle.xmas_elf.specs.Checks.{header_check};
ghost use Rattle.xmas_elf.specs.HeaderTable.{entry_place};
ghost use Rattle.xmas_elf.specs.SectionHeader.{first_by, program_count_of, section_count_of};
ghost use Rattle.xmas_elf.specs.SectionHeader.{section_fields, section_header_size, section_list};
ghost use Rattle.xmas_elf.specs.SectionHeader.{section_place};
ghost use Rattle.xmas_elf.specs.ProgramHeader.{program_header_size, program_list, program_place};

use crate::bytes::Order;
use crate::counts::{PN_XNUM, first_at};
use crate::ranges::{short_table_is_within, table_is_within};
use crate::{ElfError, ElfFile, P64};
pub use elf_base::header::{
    Class, Class_, Data, Data_, Header, HeaderPt1, HeaderPt2, HeaderPt2_, MAGIC, Machine, Machine_,
    OsAbi, OsAbi_, Type, Type_, Version, Version_, parse_header,
};

/// Checks the ELF header of a file against its input.
///
/// The error is the first that applies: `BadMagic`; `HeaderSize` if the header size is not that of
/// the two parts; `NoClass` for class 0; `ClassMismatch` if the class is not that of part 2;
/// `NoVersion` and `NoDataFormat` for a 0 there; `PhTableRange` and `ShTableRange` if a header
/// table extends past the end of the input.
#[tactic(auto, unfolding(crate::specs::Checks::header_check))]
pub fn sanity_check(file: &ElfFile<'_>) -> Result<(), ElfError>
    ensures exact { result ≡ header_check file.now }

    // If the check succeeds and entries are large enough, each list has the length that its count
    // says.
    ensures sections { OnOk result (
        section_header_size (file_class file.now.header)
        ≤ (header_fields file.now.header.pt2).sh_entry_size
        → length (section_list file.now) ≡ section_count_of file.now) }
    ensures segments { OnOk result (
        (header_fields file.now.header.pt2).ph_offset ≢ 0
        → program_header_size (file_class file.now.header)
        ≤ (header_fields file.now.header.pt2).ph_entry_size
        → length (program_list file.now) ≡ program_count_of file.now) }
{
    let pt1 = &file.header.pt1;
    // One match for the size and the class, so that only two booleans live on.
    let (has_size, has_class) = match &file.header.pt2 {
        HeaderPt2::Header32(part) => (part.header_size == 52, pt1.class.raw() == 1),
        HeaderPt2::Header64(part) => (part.header_size == 64, pt1.class.raw() == 2),
    };
    if pt1.magic != MAGIC {
        return Err(ElfError::BadMagic);
    }
    if !has_size {
        return Err(ElfError::HeaderSize);
    }
    if pt1.class.is_none() {
        return Err(ElfError::NoClass);
    }
    if !has_class {
        return Err(ElfError::ClassMismatch);
    }
    if pt1.version.is_none() {
        return Err(ElfError::NoVersion);
    }
    if pt1.encoding.is_none() {
        return Err(ElfError::NoDataFormat);
    }
    check_tables(file, &file.header.pt2.numbers())
}

// The error for the first header table that extends past the end of the input, if one does.
#[tactic(auto, unfolding(crate::specs::SectionHeader::program_count_of, crate::specs::SectionHeader::section_count_of, crate::specs::SectionHeader::first_section, crate::specs::SectionHeader::section_entry))]
#[inline(always)]
fn check_tables(file: &ElfFile<'_>, part: &HeaderPt2_<P64>) -> Result<(), ElfError>
    requires { part.now ≡ header_fields file.now.header.pt2 }
    ensures { result ≡ unless ((
      nat_lt (length file.now.input.now)
          (program_place file.now.header (program_count_of file.now)),
      ElfError.PhTableRange,
    )
        ∷ (
          nat_lt (length file.now.input.now)
              (section_place file.now.header (section_count_of file.now)),
          ElfError.ShTableRange,
        )
        ∷ []) tt }
{
    let input = file.input;
    if part.ph_count == PN_XNUM || part.sh_count == 0 {
        let programs = (part.ph_offset, part.ph_entry_size, part.ph_count);
        let sections = (part.sh_offset, part.sh_entry_size, part.sh_count);
        let class = file.header.pt1.class;
        return check_wide_tables(input, programs, sections, class, file.byte_order());
    }
    if !short_table_is_within(input, part.ph_offset, part.ph_entry_size, part.ph_count) {
        return Err(ElfError::PhTableRange);
    }
    if !short_table_is_within(input, part.sh_offset, part.sh_entry_size, part.sh_count) {
        return Err(ElfError::ShTableRange);
    }
    Ok(())
}

// The same if section header 0 contains the number of entries of a table. Each table is its offset,
// the size of an entry and the count of the ELF header. It takes numbers, so that the caller need
// not store its file in memory: this case is rare.
#[cold]
#[inline(never)]
fn check_wide_tables(
    input: &[u8],
    programs: (u64, u16, u16),
    sections: (u64, u16, u16),
    class: Class_,
    order: Order,
) -> Result<(), ElfError>
    ensures { result ≡ (let first = first_by input.now sections.0 sections.1 (class_number class) order in unless ((
      nat_lt (length input.now) (entry_place programs.0 programs.1
          (if programs.2 == 0xffff then option_map_or (λ h. (section_fields h).info) first 0xffff else programs.2)),
      ElfError.PhTableRange,
    )
        ∷ (
          nat_lt (length input.now) (entry_place sections.0 sections.1
              (if sections.2 == 0 then option_map_or (λ h. (section_fields h).size) first 0 else sections.2)),
          ElfError.ShTableRange,
        )
        ∷ []) tt) }
{
    let first = first_at(input, sections.0, sections.1, class, order);
    let ph_count = match programs.2 {
        PN_XNUM => first.map_or(u32::from(PN_XNUM), |first| first.info()),
        count => u32::from(count),
    };
    if !table_is_within(input, programs.0, programs.1, u64::from(ph_count)) {
        return Err(ElfError::PhTableRange);
    }
    let sh_count = match sections.2 {
        0 => first.map_or(0, |first| first.size()),
        count => u64::from(count),
    };
    if !table_is_within(input, sections.0, sections.1, sh_count) {
        return Err(ElfError::ShTableRange);
    }
    Ok(())
}
