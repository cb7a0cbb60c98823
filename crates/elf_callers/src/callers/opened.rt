//! Callers that open a closed definition of a lower crate.

ghost use Rattle.std.specs.Prelude.{◌↔◌, ◌<◌, IsTrue, length};

use xmas_elf::{ElfError, ElfFile};

/// Whether bytes are rejected since they end within the first part of the ELF header, which is
/// exactly where there are fewer than its 16.
#[tactic(auto, unfolding(elf_base::specs::FileHeader::header_of))]
pub fn is_short(input: &[u8]) -> bool
    ensures { IsTrue result ↔ (length input.now < 16) }
{
    matches!(ElfFile::new(input), Err(ElfError::ShortPart1))
}
