//! Callers that take names as bytes.

ghost use Rattle.xmas_elf.specs.Lent.{Answers, IfPart};
ghost use Rattle.xmas_elf.specs.NameTable.{HasName, name_of};

use xmas_elf::sections::SectionHeader;
use xmas_elf::{ElfError, ElfFile};

/// The name of a section by its bytes, where these are UTF-8: what `get_name` returns, with the
/// same errors.
pub fn name_by_bytes<'a>(file: &ElfFile<'a>, section: &SectionHeader) -> Result<&'a str, ElfError>
    ensures name { IfPart (HasName file.now section.now) result }
    ensures exact { Answers (name_of file.now section.now) result }
{
    let bytes = section.name_bytes(file)?;
    match std::str::from_utf8(bytes) {
        Ok(name) => Ok(name),
        Err(_) => Err(ElfError::TextUtf8),
    }
}
