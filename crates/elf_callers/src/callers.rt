//! Callers of `xmas_elf` in another crate, proved by its public contracts, and where their `using`
//! or their results name one by a lemma of `xmas_elf/proofs/lemmas`.

ghost use Rattle.std.specs.Prelude.{◌≡◌, ◌≢◌, ◌+◌, ◌↔◌, ◌≤◌, ◌<◌, ◌==◌};
ghost use Rattle.std.specs.Prelude.{Err, IfErr, IfOk, IsOk, IsOkAnd, IsTrue, List, MatchOption};
ghost use Rattle.std.specs.Prelude.{MatchResult, Ok, length, ℕ};
ghost use Rattle.std.specs.List.{AllWithin, HoldsAt};
ghost use Rattle.std.specs.Borrow.{Bor};
ghost use Rattle.std.specs.Result.{result_ok};
ghost use Rattle.elf_callers.specs.Names.{name_in_bytes, text_length};
ghost use Rattle.elf_callers.specs.StringBytes.{IsStringError, IsStringTotal};
ghost use Rattle.elf_callers.specs.StringBytes.{LiesThere, string_size};
ghost use Rattle.xmas_elf.specs.SectionHeader.{HasSectionHeader, section_by_u16};
ghost use Rattle.xmas_elf.specs.SectionHeader.{section_fields, section_list};
ghost use Rattle.xmas_elf.specs.SectionHeader.{section_place, section_type};
ghost use Rattle.xmas_elf.specs.FileHeader.{IsAccepted, file_class, file_order};
ghost use Rattle.xmas_elf.specs.FileHeader.{header_of};
ghost use Rattle.xmas_elf.specs.NameTable.{shstr_of};
ghost use Rattle.xmas_elf.specs.Number.{byte_at, number};
ghost use Rattle.xmas_elf.specs.SectionData.{section_data_of};
ghost use Rattle.xmas_elf.specs.Types.{ElfFile};

pub mod data;
pub mod first;
pub mod hash;
pub mod indices;
pub mod lent;
pub mod lookups;
pub mod names;
pub mod notes;
pub mod opened;
pub mod steps;
pub mod symbols;

use std::alloc::{AllocError, Global};
use xmas_elf::sections::{SectionHeader, ShType};
use xmas_elf::{ElfError, ElfFile};

/// The class of a file, which is its byte 4, or why it has none.
pub fn class_byte(input: &[u8]) -> Result<u8, ElfError>
    ensures accepted { IsOk result ↔ IsAccepted input.now }
    ensures value { IfOk result (λ class. class ≡ byte_at 4 input.now) }
    ensures failed { IfErr result (λ error. header_of input.now ≡ Err error) }
{
    let file = ElfFile::new(input)?;
    Ok(file.header.pt1.class.raw())
}

/// The size of a section of class 64: the number of eight bytes that is 32 after its place; or
/// why its header can't be read.
pub fn size_64(file: &ElfFile<'_>, index: u16) -> Result<u64, ElfError>
    requires { file_class file.now.header ≡ 2 }
    ensures readable { IsOk result ↔ HasSectionHeader file.now.input.now file.now.header index }
    ensures value { IfOk result (λ size. size
        ≡ number (file_order file.now.header) 8
        (section_place file.now.header index + 32) file.now.input.now) }
    ensures failed { IfErr result (λ error.
        section_by_u16 file.now.input.now file.now.header index ≡ Err error) }
{
    let section = file.section_header(index)?;
    Ok(section.size())
}

/// The position in the list of the first section at this offset.
pub fn section_at(file: &ElfFile<'_>, offset: u64) -> Option<usize>
    ensures { let sections = section_list file.now in MatchOption result
        (AllWithin
        (λ section. (section_fields section).offset ≢ offset) sections 0 (length sections))
        (λ i. (i < length sections) × HoldsAt
        (λ section. (section_fields section).offset ≡ offset) sections i
        × AllWithin (λ section. (section_fields section).offset ≢ offset) sections 0 i) }
{
    file.section_iter()
        .position(|section| section.offset() == offset)
}

/// How many sections a file has, by a loop.
pub fn counted_sections(file: &ElfFile<'_>) -> u64
    ensures { result ≡ length (section_list file.now) }
{
    let mut count = 0;
    for _section in file.section_iter() {
        count += 1;
    }
    count
}

/// Whether the bytes of a section that the program defines are all there.
pub fn is_whole(file: &ElfFile<'_>, section: SectionHeader) -> bool
    requires { section_type section ≡ Ok ShType.ProgBits }
    ensures { IsTrue result
        ↔ ((section_fields section).offset + (section_fields section).size
        ≤ length file.now.input.now) }
{
    section.raw_data(file).is_ok()
}

/// A name, which outlives the `ElfFile` that it was read by; or the same error,
/// of the bytes or of the name.
pub fn name_in<'a>(input: &'a [u8], index: u32) -> Result<&'a str, ElfError>
    ensures name { IfOk result (λ name. IsOkAnd (header_of input.now) (λ header.
        let file : ElfFile = record { input = input.entry; header = header } in shstr_of file index
        ≡ Ok name.now)) }
    ensures failed { IfErr result (λ error. MatchResult (header_of input.now) (λ header.
        let file : ElfFile = record { input = input.entry; header = header } in shstr_of file index
        ≡ Err error) (λ why. why ≡ error)) }
{
    let file = ElfFile::new(input)?;
    file.get_shstr(index)
}

/// How many bytes the string tables of a file have together, or the greatest number if that is
/// less. Returns the error of the bytes, or that of the data of the first string table that isn't
/// all there.
pub fn string_bytes(input: &[u8]) -> Result<u64, ElfError>
    ensures sum { IfOk result (λ total. IsOkAnd (header_of input.now) (λ header.
        let file : ElfFile = record { input = input.entry; header = header } in
        IsStringTotal file total)) }
    ensures failed { IfErr result (λ error. MatchResult (header_of input.now) (λ header.
        let file : ElfFile = record { input = input.entry; header = header } in
        IsStringError file error)
        (λ why. why ≡ error)) }
{
    let file = ElfFile::new(input)?;
    string_bytes_of(&file)
}

// The same of a file.
fn string_bytes_of(file: &ElfFile<'_>) -> Result<u64, ElfError>
    ensures sum { IfOk result (IsStringTotal file.now) }
    ensures failed { IfErr result (IsStringError file.now) }
{
    let mut total = 0u64;
    for section in file.section_iter() {
        total = total.saturating_add(string_len(file, &section)?);
    }
    Ok(total)
}

// How many bytes a section adds: those of a string table, and none of another.
fn string_len(file: &ElfFile<'_>, section: &SectionHeader) -> Result<u64, ElfError>
    ensures len { IfOk result (λ len. LiesThere file.now section.now
        × (len ≡ string_size section.now)) }
    ensures failed { IfErr result (λ error. ¬ LiesThere file.now section.now
        × (section_data_of file.now section.now ≡ Err error)) }
{
    match section.get_type() {
        Ok(ShType::StrTab) => Ok(section.raw_data(file)?.len() as u64),
        _ => Ok(0),
    }
}

/// The length of the first name in a copy of some bytes, and 0 where there is none.
pub fn copied_name_len(alloc: Global, bytes: &[u8]) -> Result<usize, AllocError>
    ensures { IfOk result (λ len. (copy : Bor (List ℕ)) × (copy.now ≡ bytes.now)
        × (len ≡ text_length (result_ok (name_in_bytes copy 1)))) }
{
    let buffer = Vec::from_slice(alloc, bytes)?;
    let name = name_in(buffer.as_slice(), 1);
    let length = match name {
        Ok(text) => text.len(),
        Err(_) => 0,
    };
    drop(buffer);
    Ok(length)
}
