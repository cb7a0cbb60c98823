//! Where the names of the symbols of a table are read (gABI, "Symbol Table", st_name, and "String
//! Table").

ghost use Rattle.std.specs.Prelude.{◌≡◌, IfOk, IfSome, IsSomeAnd};
ghost use Rattle.elf_base.specs.Lent.{Answers};

use crate::symbol_table::Entry;
use crate::{ElfError, ElfFile};

// Where names are read: as texts in a string table, or the error for it; as bytes in a string table,
// whether or not they are UTF-8; or in the file, if they are not texts of one table.
#[derive(Drop)]
pub enum Names<'a> {
    Strings(Result<&'a [u8], ElfError>),
    Bytes(&'a [u8]),
    File(ElfFile<'a>),
}

impl<'a> Names<'a> {
    ghost use Rattle.std.specs.Prelude.{false};
    ghost use Rattle.xmas_elf.specs.NamedSymbols.{are_bytes, strings_by, text_by};

    // Where the names of symbols of a type are read in a file.
    #[inline(always)]
    pub fn of<E: Entry>(file: &ElfFile<'a>) -> Self
        ensures texts { (entry : E) → text_by E.fields E.text_in result entry
            ≡ E.text_in entry file.now }
        ensures says { IfSome (E.strings_in file.now)
            (λ table. IsSomeAnd (strings_by result) (Answers table)) }
        ensures place { IfSome (strings_by result) (λ found. IfOk found (E.strings_lie file.now)) }
        ensures as_texts { are_bytes result ≡ false }
    {
        match E::string_table(file) {
            Some(found) => Names::Strings(found),
            None => Names::File(ElfFile {
                input: file.input,
                header: file.header,
            }),
        }
    }
}
