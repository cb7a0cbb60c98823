//! Section indices of symbols that need more than 16 bits (gABI, "Sections", SHT_SYMTAB_SHNDX).

ghost use Rattle.std.specs.Prelude.{◌≡◌, IfOk};
ghost use Rattle.elf_base.specs.Lent.{Answers, IfPart};
ghost use Rattle.xmas_elf.specs.SymbolSection.{IsIndexTable, IsWideIndex};
ghost use Rattle.xmas_elf.specs.SymbolSection.{index_table_of, wide_index_of};

use crate::bytes::Table;
use crate::sections::ShType;
use crate::{ElfError, ElfFile};
use elf_base::header::byte_order;

// The word of `.symtab_shndx` for the symbol at this index of its table.
#[tactic(auto, unfolding(crate::specs::SymbolSection::wide_index_of))]
pub(crate) fn wide_index(file: &ElfFile<'_>, self_index: usize) -> Result<u32, ElfError>
    ensures is { IfOk result (IsWideIndex file.now self_index) }
    ensures exact { result ≡ wide_index_of file.now self_index }
{
    let order = byte_order(file.header.pt1.encoding);
    let words = Table::<u32>::new(index_table(file)?, order)?;
    words.get(self_index).ok_or(ElfError::SymbolIndex)
}

// The data of `.symtab_shndx`.
#[tactic(auto, unfolding(crate::specs::SymbolSection::index_table_of))]
fn index_table<'a>(file: &ElfFile<'a>) -> Result<&'a [u8], ElfError>
    ensures table { IfPart (IsIndexTable file.now) result }
    ensures exact { Answers (index_table_of file.now) result }
{
    let Some(section) = file.find_section_by_name(".symtab_shndx") else {
        return Err(ElfError::NoShIndex);
    };
    match section.get_type() {
        Ok(ShType::SymTabShIndex) => section.raw_data(file),
        _ => Err(ElfError::ExpectedShIndex),
    }
}
