//! The symbols of a file that name addresses: those of `.symtab`, or else those of its dynamic
//! segment.

ghost use Rattle.std.specs.Prelude.{MatchResult};
ghost use Rattle.elf_addresses.specs.OfFile.{AreDynamic, AreAddressSymbols, AreOfEitherClass};
ghost use Rattle.elf_addresses.specs.OfFile.{HasNoSymbols, HasNoneOfEitherClass};
ghost use Rattle.elf_linking.specs.DynamicObject.{IsObjectError};

use crate::symbols::AddressSymbols;
use crate::symtab::{symtab_at, symtab_index};
use elf_linking::view::{LinkedSymbol, strings};
use elf_linking::{DynamicObject, LinkError};
use xmas_elf::ElfFile;
use xmas_elf::bytes::Table;
use xmas_elf::symbol_table::{DynEntry32, DynEntry64};

impl<'a, E: LinkedSymbol> AddressSymbols<'a, E> {
    /// The symbols of a file of the class of `E`: those of the first section of type `SHT_SYMTAB`; if
    /// there is none, those of the dynamic segment, as many as its hash table counts.
    ///
    /// Errors, the first of these: `UnknownClass` if the file has the other class; `Elf` with those of
    /// `symtab_at`; those of `DynamicObject::read`.
    pub fn of_file(file: &ElfFile<'a>) -> Result<Self, LinkError>
        ensures { MatchResult result (AreAddressSymbols E.CLASS E.SIZE file.now)
            (HasNoSymbols E.CLASS E.SIZE file.now) }
    {
        if file.header.pt1.class.raw() != E::CLASS {
            return Err(LinkError::UnknownClass);
        }
        match symtab_index(file) {
            Some(index) => match symtab_at(file, index) {
                Ok(symbols) => Ok(symbols),
                Err(error) => Err(LinkError::Elf(error)),
            },
            None => Self::of_dynamic(file),
        }
    }

    /// The symbols of the dynamic segment of a file of the class of `E`, as many as its hash table
    /// counts, with no section header. The errors are those of `DynamicObject::read`.
    pub fn of_dynamic(file: &ElfFile<'a>) -> Result<Self, LinkError>
        ensures { MatchResult result (AreDynamic E.CLASS E.SIZE file.now)
            (IsObjectError E.CLASS E.SIZE file.now) }
    {
        let object = DynamicObject::<E>::read(file)?;
        let Ok(strings) = strings(file) else {
            unreachable!();
        };
        let Ok(indices) = Table::new(&[], file.byte_order()) else {
            unreachable!();
        };
        Ok(AddressSymbols {
            table: object.symbols().table(),
            strings,
            indices,
            machine: file.header.pt2.machine().raw(),
        })
    }
}

/// The symbols of a file of either class.
#[derive(Drop)]
pub enum AnyAddressSymbols<'a> {
    /// Of class 32.
    Narrow(AddressSymbols<'a, DynEntry32>),
    /// Of class 64.
    Wide(AddressSymbols<'a, DynEntry64>),
}

impl<'a> AnyAddressSymbols<'a> {
    /// The symbols of a file that name addresses: those of `.symtab`, or else those of its dynamic
    /// segment. The errors are those of `AddressSymbols::of_file` for the class of the file.
    pub fn of(file: &ElfFile<'a>) -> Result<Self, LinkError>
        ensures { MatchResult result (AreOfEitherClass file.now) (HasNoneOfEitherClass file.now) }
    {
        if file.header.pt1.class.raw() == 1 {
            return Ok(AnyAddressSymbols::Narrow(AddressSymbols::of_file(file)?));
        }
        Ok(AnyAddressSymbols::Wide(AddressSymbols::of_file(file)?))
    }
}
