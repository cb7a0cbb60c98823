//! A first caller.
#![tactic(auto)]

ghost use Rattle.std.specs.Prelude.{IfNone, IfSome, ℕ};
ghost use Rattle.xmas_elf.specs.NameTable.{IsFirstNamed, section_named};
ghost use Rattle.xmas_elf.specs.Place.{LiesAsSection};
ghost use Rattle.xmas_elf.specs.SectionData.{HasSectionData, IsSectionData};
ghost use Rattle.xmas_elf.specs.Types.{SectionHeader};

use xmas_elf::ElfFile;

/// The data of the first section with this name, if the file holds them.
pub fn data_named<'a>(file: &ElfFile<'a>, name: &str) -> Option<&'a [u8]>
    ensures found { IfSome result (λ bytes. (index : ℕ) × (section : SectionHeader)
        × IsFirstNamed file.now name.now index section × IsSectionData file.now section bytes.now
        × LiesAsSection file.now section bytes) }
    ensures missing { IfNone result (IfSome (section_named file.now name.now)
        (λ section. ¬ HasSectionData file.now section)) }
{
    let section = file.find_section_by_name(name)?;
    section.raw_data(file).ok()
}
