//! The value of a name in a file, found like a dynamic linker does: by the dynamic segment, without
//! section headers (gABI, "Dynamic Section" and "Hash Table").

ghost use Rattle.std.specs.Prelude.{◌≡◌, Err, MatchResult, Ok};
ghost use Rattle.elf_base.specs.FileHeader.{header_of};
ghost use Rattle.elf_linking.specs.DynamicObject.{object_dynamic_symbols};
ghost use Rattle.elf_linking.specs.Values.{IsChecked, IsValueIn, IsValueOf};
ghost use Rattle.elf_linking.specs.declared.error.LinkError.TheVariants.{Elf};
ghost use Rattle.xmas_elf.specs.Types.{ElfFile};

use crate::find::{Use, Wanted};
use crate::serving::if_serving;
use crate::view::LinkedSymbol;
use crate::{DynamicObject, LinkError};
use elf_base::header::Class;
use xmas_elf::ElfFile;
use xmas_elf::symbol_table::{DynEntry32, DynEntry64};

impl<'a, E: LinkedSymbol> DynamicObject<'a, E> {
    /// The value of the symbol that a reference without a version gets (`Wanted::Newest`), after the
    /// check of the hash table; `None` if it gets none, or one that does not serve other files
    /// (`serves_others`), as with `dlsym`. No other candidate is tried then. It is the value in the
    /// symbol: for an indirect function that of the function that returns the address, and for a
    /// thread-local symbol an offset.
    ///
    /// Errors: those of `check`; those of `find`.
    pub fn newest_value(&self, name: &str) -> Result<Option<u64>, LinkError>
        ensures { IsChecked name.now (Ok (object_dynamic_symbols E.fields self.now)) result }
    {
        self.check()?;
        let found = self.find(name, &Wanted::Newest, Use::Any)?;
        match if_serving(&found) {
            Some((_index, symbol)) => Ok(Some(symbol.value())),
            None => Ok(None),
        }
    }
}

// The value of the symbol with this name in a file of the class of `E`.
fn value_of<E: LinkedSymbol>(file: &ElfFile<'_>, name: &str) -> Result<Option<u64>, LinkError>
    ensures { IsValueOf E.CLASS E.SIZE E.value E.fields file.now name.now result }
{
    match DynamicObject::<E>::read(file) {
        Ok(object) => object.newest_value(name),
        Err(error) => Err(error),
    }
}

/// The value of the symbol with this name in a file that `dlsym` finds, by the dynamic segment: by
/// GNU's table if there is one, otherwise by that of the ELF standard, after its check; of several
/// versions the default. `None` if there is none, or if it does not serve other files
/// (`serves_others`).
///
/// Errors, the first of these: those of `DynamicObject::read`; those of
/// `DynamicObject::newest_value`.
pub fn value_in_file(file: &ElfFile<'_>, name: &str) -> Result<Option<u64>, LinkError>
    ensures { IsValueIn file.now name.now result }
{
    match file.header.pt1.class() {
        Class::ThirtyTwo => value_of::<DynEntry32>(file, name),
        // A file that is of no known class has no dynamic entries.
        _ => value_of::<DynEntry64>(file, name),
    }
}

/// The value of the symbol with this name in the file in `input`, as `value_in_file` finds it.
///
/// Errors: those of `ElfFile::new` and of `value_in_file`.
pub fn value_by_name(input: &[u8], name: &str) -> Result<Option<u64>, LinkError>
    ensures { MatchResult (header_of input.now) (λ header.
        let file : ElfFile = record { input = input.entry; header = header } in
        IsValueIn file name.now result) (λ error. result ≡ Err (Elf error)) }
{
    let file = ElfFile::new(input)?;
    value_in_file(&file, name)
}
