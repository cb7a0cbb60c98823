//! The sections that a dynamic linker reads, for users that have section headers.

ghost use Rattle.std.specs.Prelude.{◌≡◌, Ok, Err, MatchResult};
ghost use Rattle.elf_base.specs.FileHeader.{class_of, file_class, file_order};
ghost use Rattle.elf_linking.specs.GnuHash.{gnu_class, gnu_data, gnu_order};
ghost use Rattle.elf_linking.specs.LinkedSections.{OnType, gnu_hash_in, relr_in, section_range_of};
ghost use Rattle.elf_linking.specs.Loaded.{lent};
ghost use Rattle.elf_linking.specs.Relr.{relr_rest};
ghost use Rattle.elf_linking.specs.declared.sections.TheConstants.{SHT_GNU_HASH, SHT_RELR};

use crate::LinkError;
use crate::gnu_hash::GnuHashTable;
use crate::relr::Relr;
use elf_base::ElfError;
use xmas_elf::ElfFile;
use xmas_elf::sections::SectionHeader;

/// `SHT_RELR`: the type of sections of packed relative relocations (gABI, "Sections", sh_type).
pub const SHT_RELR: u32 = 19;

/// `SHT_GNU_HASH`: the type of sections that contain a GNU hash table, such as `.gnu.hash` (GNU
/// binutils and glibc, `elf.h`).
pub const SHT_GNU_HASH: u32 = 0x6fff_fff6;

/// The GNU hash table in a section, in the class and byte order of the file; `None` if the section
/// is not of type `SHT_GNU_HASH`. The `link` of the section is the index of the section with the
/// symbols.
///
/// Errors: those of `SectionHeader::raw_data`, then those of `GnuHashTable::read`.
pub fn section_gnu_hash<'a>(
    file: &ElfFile<'a>,
    section: &SectionHeader,
) -> Option<Result<GnuHashTable<'a>, LinkError>>
    ensures { OnType SHT_GNU_HASH section.now (λ answer. MatchResult answer
        (λ table. (gnu_hash_in file.now section.now ≡ Ok (gnu_data table))
        × (gnu_class table ≡ class_of (file_class file.now.header))
        × (gnu_order table ≡ file_order file.now.header))
        (λ error. gnu_hash_in file.now section.now ≡ Err error)) result }
{
    if section.type_().raw() != SHT_GNU_HASH {
        return None;
    }
    Some(gnu_hash_in(file, section))
}

// The GNU hash table in a section of any type.
#[tactic(auto, using(crate::proofs::ViewTables::gnu_accepted))]
fn gnu_hash_in<'a>(
    file: &ElfFile<'a>,
    section: &SectionHeader,
) -> Result<GnuHashTable<'a>, LinkError>
    ensures { MatchResult result
        (λ table. (gnu_hash_in file.now section.now ≡ Ok (gnu_data table))
        × (gnu_class table ≡ class_of (file_class file.now.header))
        × (gnu_order table ≡ file_order file.now.header))
        (λ error. gnu_hash_in file.now section.now ≡ Err error) }
{
    let bytes = section.raw_data(file)?;
    GnuHashTable::read(bytes, file.header.pt1.class(), file.byte_order())
}

/// The addresses of the packed relative relocations in a section, in the class and byte order of
/// the file; `None` if the section is not of type `SHT_RELR`.
///
/// Errors: `Elf(DataRange)` if the section extends past the end of the input; those of `Relr::new`.
/// `SectionHeader::raw_data` does not return these bytes, since it does not know the type.
pub fn section_relr<'a>(
    file: &ElfFile<'a>,
    section: &SectionHeader,
) -> Option<Result<Relr<'a>, LinkError>>
    ensures { OnType SHT_RELR section.now (λ answer. MatchResult answer
        (λ relr. relr_in file.now (section_range_of file.now section.now) ≡ Ok (relr_rest relr))
        (λ error. relr_in file.now (section_range_of file.now section.now) ≡ Err error)) result }
{
    if section.type_().raw() != SHT_RELR {
        return None;
    }
    Some(relr_in(file, section))
}

// The addresses in a section of any type.
fn relr_in<'a>(file: &ElfFile<'a>, section: &SectionHeader) -> Result<Relr<'a>, LinkError>
    ensures { MatchResult result
        (λ relr. relr_in file.now (section_range_of file.now section.now) ≡ Ok (relr_rest relr))
        (λ error. relr_in file.now (section_range_of file.now section.now) ≡ Err error) }
{
    let bytes = section_range(file, section)?;
    Relr::new(bytes, file.header.pt1.class(), file.byte_order())
}

// The byte range of the section in the input.
fn section_range<'a>(file: &ElfFile<'a>, section: &SectionHeader) -> Result<&'a [u8], LinkError>
    ensures { lent result ≡ section_range_of file.now section.now }
{
    let len = file.input.len() as u64;
    let (start, count) = (section.offset(), section.size());
    if count > len || start > len - count {
        return Err(LinkError::Elf(ElfError::DataRange));
    }
    let start = start as usize;
    Ok(&file.input[start..start + count as usize])
}
