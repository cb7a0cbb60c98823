//! A file with the symbols that own its bytes.

ghost use Rattle.elfsize.specs.Symbols.{AreFew};

use crate::symbols::Symbols;
use xmas_elf::ElfFile;

/// A file with the symbols that own its bytes.
#[derive(Drop)]
pub struct Side<'a> {
    /// The file.
    pub file: ElfFile<'a>,
    /// The symbols: its own, or those of its debug file.
    pub symbols: Symbols<'a>,
    ghost few: { AreFew symbols },
}
