//! Files whose checks passed: their look-ups return no error (gABI, "Hash Table"; LSB, "Symbol
//! Versioning").

ghost use Rattle.std.specs.Prelude.{◌≡◌, IfOk, option_map, slice_get};

mod bindings;
mod scope;
mod unresolved;

pub use crate::checked::bindings::{CheckedBinding, CheckedBindings};
pub use crate::checked::scope::CheckedScope;
pub use crate::checked::unresolved::Unresolved;
use crate::find::{Use, Wanted};
use crate::gnu_hash::gnu_hash_of_bytes;
use crate::references::{Reference, References};
use crate::scope::Asked;
use crate::view::LinkedSymbol;
use crate::{DynamicObject, LinkError};
use std::marker::Model;

/// The dynamic symbols of a file whose hash table and versions were checked.
///
/// Contracts see it as two lists of symbols, each with its index, name, fields and version: the
/// exports, which look-ups come to, in the order of the hash table, and all symbols. `object`
/// returns what it was made of.
#[derive(Drop)]
pub struct CheckedObject<'a, E: LinkedSymbol> {
    object: DynamicObject<'a, E>,
}

impl<'a, E: LinkedSymbol> Model for CheckedObject<'a, E> {
    ghost use Rattle.elf_linking.specs.AnyTable.{IsGoodBy};
    ghost use Rattle.elf_linking.specs.DynamicObject.{object_dynamic_symbols, object_symbols};
    ghost use Rattle.elf_linking.specs.DynamicObject.{object_table};
    ghost use Rattle.elf_linking.specs.Exports.{ObjectParts, object_parts};
    ghost use Rattle.elf_linking.specs.Find.{AreReadable};

    ghost Value = { ObjectParts };

    ghost view = { λ inside. object_parts E.fields inside.object };

    ghost invariant = { λ inside. ∥ IsGoodBy (object_table inside.object)
        (object_symbols E.fields inside.object)
        × AreReadable (object_dynamic_symbols E.fields inside.object) ∥₁ };
}

impl<'a, E: LinkedSymbol> CheckedObject<'a, E> {
    ghost use Rattle.elf_linking.specs.Checked.{AreChecked, found_fields, found_in, found_parts};
    ghost use Rattle.elf_linking.specs.CheckedScope.{asked_fields, asked_in};
    ghost use Rattle.elf_linking.specs.DynamicObject.{object_dynamic_symbols};
    ghost use Rattle.elf_linking.specs.Exports.{AreExports, object_parts};
    ghost use Rattle.elf_linking.specs.Layouts.{gnu_hash_number};
    ghost use Rattle.elf_linking.specs.References.{references_left};
    ghost use Rattle.elf_linking.specs.VersionTables.{result_map};

    /// The object, after its checks.
    ///
    /// Errors, the first of these: those of `DynamicObject::check`; those of
    /// `DynamicObject::check_versions`.
    pub fn of(object: DynamicObject<'a, E>) -> Result<CheckedObject<'a, E>, LinkError>
        ensures value { IfOk result (λ checked. checked ≡ object_parts E.fields object.entry) }
        ensures exports { IfOk result (λ checked.
            AreExports (object_dynamic_symbols E.fields object.entry) checked.exports) }
        ensures exact { AreChecked (object_dynamic_symbols E.fields object.entry)
            (result_map (λ _. tt) result) }
    {
        object.check()?;
        object.check_versions()?;
        Ok(CheckedObject { object })
    }

    /// The object that was checked.
    pub fn object(&self) -> DynamicObject<'a, E>
        ensures { object_parts E.fields result ≡ self.now }
    {
        self.object
    }

    /// Whether references of the file are bound within it first: the result of
    /// `DynamicObject::is_symbolic`.
    pub fn is_symbolic(&self) -> bool
        ensures { result ≡ self.now.symbolic }
    {
        self.object.is_symbolic()
    }

    /// The symbol at an index; `None` if there are not so many symbols.
    pub fn symbol(&self, index: u32) -> Option<E>
        ensures { option_map E.fields result
            ≡ option_map (λ symbol. symbol.fields) (slice_get self.now.symbols index) }
    {
        self.object.symbol(index)
    }

    /// An iterator over the relocations of the file that name a symbol; `None` if they can't be read:
    /// `DynamicObject::references` says why.
    pub fn references(&self) -> Option<References<'a>>
        ensures { option_map references_left result ≡ self.now.references }
    {
        match self.object.references() {
            Ok(references) => Some(references),
            Err(_unread) => None,
        }
    }

    /// What a reference of this file asks for: the result of `DynamicObject::asked`. `None` if the
    /// file has no such symbol, or if the name of the symbol that is to be looked up can't be read.
    pub fn asked(&self, reference: &Reference) -> Option<Asked<'a, E>>
        ensures { option_map (asked_fields E.fields) result ≡ asked_in self.now reference.now }
    {
        match self.object.asked(reference) {
            Ok(asked) => Some(asked),
            Err(_) => None,
        }
    }

    /// The symbol that a reference by a name and a version gets, with its index: the result of
    /// `DynamicObject::find`, which returns no error after the checks.
    pub fn find(&self, name: &str, wanted: &Wanted<'_>, use_: Use) -> Option<(u32, E)>
        ensures { found_fields E.fields result
            ≡ found_parts (found_in name.now wanted.now use_ self.now.exports) }
    {
        self.find_bytes(name.as_bytes(), wanted, use_)
    }

    /// The result of `find` for a name of these bytes, whether or not they are UTF-8.
    pub fn find_bytes(&self, name: &[u8], wanted: &Wanted<'_>, use_: Use) -> Option<(u32, E)>
        ensures { found_fields E.fields result
            ≡ found_parts (found_in name.now wanted.now use_ self.now.exports) }
    {
        self.find_hashed(name, gnu_hash_of_bytes(name), wanted, use_)
    }

    // The result of `find_bytes`, by the hash number of the name for GNU's table.
    #[inline(always)]
    pub(crate) fn find_hashed(
        &self,
        name: &[u8],
        hash: u32,
        wanted: &Wanted<'_>,
        use_: Use,
    ) -> Option<(u32, E)>
        requires { hash ≡ gnu_hash_number name.now }
        ensures { found_fields E.fields result
            ≡ found_parts (found_in name.now wanted.now use_ self.now.exports) }
    {
        match self.object.find_hashed(name, hash, wanted, use_) {
            Ok(found) => found,
            Err(_) => unreachable!(),
        }
    }
}
