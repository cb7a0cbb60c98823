//! Which symbol of which file a reference gets (gABI, "Dynamic Section", DT_SYMBOLIC, and "Symbol
//! Table"; LSB, "Symbol Versioning"; the rules of glibc's linker).
//!
//! Not modelled: that glibc merges unique symbols (`STB_GNU_UNIQUE`) by their names over a process;
//! preloading, filters, auditing, `dlopen` and namespaces. For an indirect function the result is
//! its symbol, and not what its resolver returns.

ghost use Rattle.std.specs.Prelude.{◌≡◌};
ghost use Rattle.elf_linking.specs.Scope.{is_passed_over};

mod asking;
mod bindings;

use crate::find::{Use, Wanted};
use crate::gnu_hash::gnu_hash_of_bytes;
use crate::references::Reference;
pub use crate::scope::asking::Asked;
pub use crate::scope::bindings::{Binding, Bindings};
use crate::serving::if_serving;
use crate::view::LinkedSymbol;
use crate::{DynamicObject, LinkError};
use elf_base::bytes::Record;

/// A symbol of an object of a scope.
#[derive(Clone, Copy, Debug)]
pub struct Bound<E> {
    /// The index of the object.
    pub object: usize,
    /// The index of the symbol in the object.
    pub index: u32,
    /// The symbol.
    pub symbol: E,
}

/// The objects in which a dynamic linker looks a name up: the program, then its libraries in the
/// order in which they are loaded.
#[derive(Clone, Copy)]
pub struct Scope<'s, 'a, E: Record> {
    objects: &'s [DynamicObject<'a, E>],
}

impl<'s, 'a, E: LinkedSymbol> Scope<'s, 'a, E> {
    ghost use Rattle.std.specs.Prelude.{◌<◌, length, true, false};
    ghost use Rattle.elf_linking.specs.Find.{IsFound};
    ghost use Rattle.elf_linking.specs.Layouts.{gnu_hash_number};
    ghost use Rattle.elf_linking.specs.Scope.{IsBoundFor, BindsRightFor, AreGood, BindsReference};
    ghost use Rattle.elf_linking.specs.Scope.{BindsRight, GivesAt, HasNamedSymbol, IsBound};
    ghost use Rattle.elf_linking.specs.Scope.{IsFirstGiven, IsProtectedBound, IsReferenceBound};
    ghost use Rattle.elf_linking.specs.Scope.{scope_objects};

    /// The scope of these objects, the program first.
    pub fn new(objects: &'s [DynamicObject<'a, E>]) -> Self
        ensures { scope_objects result ≡ objects.entry }
    {
        Self { objects }
    }

    /// The objects, the program first.
    pub fn objects(&self) -> &'s [DynamicObject<'a, E>]
        ensures { result ≡ scope_objects self.now }
    {
        self.objects
    }

    /// The symbol that a look-up for the object at index `from` finds: that of the first object in
    /// which `DynamicObject::find` returns a symbol that serves references of other files, as
    /// `serves_others` says. An object in which it returns another symbol is passed over, even if
    /// one that serves them comes after it in the chain of the name.
    ///
    /// The object at `from` is asked first if it is symbolic; then all objects in order. For
    /// `Use::Copy` the program is passed over. The result is `None` if `find` returns such a symbol
    /// in no object.
    ///
    /// Errors: `ObjectIndex` if there is no object at `from`; those of `DynamicObject::find` in an
    /// object before the first that has such a symbol. If `check` and `check_versions` are Ok for
    /// all objects and there is one at `from`, there is no error. A call asks each object once, and
    /// the symbolic one twice.
    pub fn find(
        &self,
        from: usize,
        name: &str,
        wanted: &Wanted<'_>,
        use_: Use,
    ) -> Result<Option<Bound<E>>, LinkError>
        ensures answer { IsBound E.fields (scope_objects self.now).now from name.now
            wanted.now use_ result }
        ensures good { let objects = (scope_objects self.now).now in
            AreGood E.fields objects → from < length objects
            → BindsRight E.fields objects from name.now wanted.now use_ result }
    {
        self.find_bytes(from, name.as_bytes(), wanted, use_)
    }

    /// The result of `find` for a name of these bytes, whether or not they are UTF-8.
    pub fn find_bytes(
        &self,
        from: usize,
        name: &[u8],
        wanted: &Wanted<'_>,
        use_: Use,
    ) -> Result<Option<Bound<E>>, LinkError>
        ensures answer { IsBound E.fields (scope_objects self.now).now from name.now
            wanted.now use_ result }
        ensures good { let objects = (scope_objects self.now).now in
            AreGood E.fields objects → from < length objects
            → BindsRight E.fields objects from name.now wanted.now use_ result }
    {
        let Some(asking) = self.objects.get(from) else {
            return Err(LinkError::ObjectIndex);
        };
        let hash = gnu_hash_of_bytes(name);
        self.first_bound(asking.is_symbolic(), from, name, hash, wanted, use_)
    }

    /// The symbol that a reference of the object at index `from` gets: the result of `answer` for
    /// what `DynamicObject::asked` returns. The result is `None` if no object gives a symbol for it.
    ///
    /// Errors: `ObjectIndex` if there is no object at `from`; those of `DynamicObject::asked`; those
    /// of `answer`. If `check` and `check_versions` are Ok for all objects, and the reference has a
    /// symbol whose name can be read, there is no error; the name is read only for a look-up.
    pub fn bind(&self, from: usize, reference: &Reference) -> Result<Option<Bound<E>>, LinkError>
        ensures answer { IsReferenceBound E.fields (scope_objects self.now).now from
            reference.now result }
        ensures good { let objects = (scope_objects self.now).now in
            AreGood E.fields objects → HasNamedSymbol E.fields objects from reference.now
            → BindsReference E.fields objects from reference.now result }
    {
        self.binding(from, reference).bound
    }

    /// The symbol that a reference of the object at index `from` to its symbol at `index` gets, by
    /// what `DynamicObject::asked` returns for it: its own symbol, or that of `find`.
    ///
    /// A reference to a protected symbol gets none if `find` for its use returns none. Otherwise it
    /// gets its own symbol if `find` for `Use::Defined` returns one of another object, and the one
    /// that was found for its use if not. So a copy relocation of the program gets the symbol of a
    /// library, and the address of a function of a library is that in the program if the program
    /// takes it too.
    ///
    /// Errors: those of `find`, for its use and then for `Use::Defined`; among them `ObjectIndex` if
    /// there is no object at `from`.
    pub fn answer(
        &self,
        from: usize,
        index: u32,
        asked: &Asked<'_, E>,
    ) -> Result<Option<Bound<E>>, LinkError>
        ensures answer { IsBoundFor (IsBound E.fields (scope_objects self.now).now from) from
            index asked.now result }
        ensures good { let objects = (scope_objects self.now).now in
            AreGood E.fields objects → from < length objects
            → BindsRightFor E.fields objects from index asked.now result }
    {
        match *asked {
            Asked::Own(symbol) => Ok(Some(Bound {
                object: from,
                index,
                symbol,
            })),
            Asked::Look {
                name,
                wanted,
                use_,
                own: None,
            } => self.find_bytes(from, name, &wanted, use_),
            Asked::Look {
                name,
                wanted,
                use_,
                own: Some(symbol),
            } => {
                let own = Bound {
                    object: from,
                    index,
                    symbol,
                };
                self.protected(own, name, &wanted, use_)
            }
        }
    }

    // The symbol that a reference to a protected symbol gets.
    fn protected(
        &self,
        own: Bound<E>,
        name: &[u8],
        wanted: &Wanted<'_>,
        use_: Use,
    ) -> Result<Option<Bound<E>>, LinkError>
        ensures { IsProtectedBound
            (IsBound E.fields (scope_objects self.now).now own.object name.now wanted.now)
            own use_ result }
    {
        let found = match self.find_bytes(own.object, name, wanted, use_) {
            Ok(Some(found)) => found,
            Ok(None) => return Ok(None),
            Err(error) => return Err(error),
        };
        match self.find_bytes(own.object, name, wanted, Use::Defined) {
            Ok(Some(defined)) => {
                if defined.object == own.object {
                    Ok(Some(found))
                } else {
                    Ok(Some(own))
                }
            }
            Ok(None) => Ok(Some(found)),
            Err(error) => Err(error),
        }
    }

    // What the first object gives that gives a symbol or an error, with the object at `from` asked
    // first if it is symbolic. The hash number of the name is that of GNU's table.
    fn first_bound(
        &self,
        symbolic: bool,
        from: usize,
        name: &[u8],
        hash: u32,
        wanted: &Wanted<'_>,
        use_: Use,
    ) -> Result<Option<Bound<E>>, LinkError>
        requires there { from < length (scope_objects self.now).now }
        requires hashed { hash ≡ gnu_hash_number name.now }
        ensures { let objects = (scope_objects self.now).now in IsFirstGiven
            (GivesAt IsFound E.fields objects name.now wanted.now use_)
            (length objects) symbolic from result }
    {
        if symbolic {
            self.first_with_own(from, name, hash, wanted, use_)
        } else {
            self.first_by_index(from, name, hash, wanted, use_)
        }
    }

    // The same if the object at `from` is asked first.
    fn first_with_own(
        &self,
        from: usize,
        name: &[u8],
        hash: u32,
        wanted: &Wanted<'_>,
        use_: Use,
    ) -> Result<Option<Bound<E>>, LinkError>
        requires there { from < length (scope_objects self.now).now }
        requires hashed { hash ≡ gnu_hash_number name.now }
        ensures { let objects = (scope_objects self.now).now in IsFirstGiven
            (GivesAt IsFound E.fields objects name.now wanted.now use_)
            (length objects) true from result }
    {
        match self.given(from, name, hash, wanted, use_) {
            Ok(Some((index, symbol))) => Ok(Some(Bound {
                object: from,
                index,
                symbol,
            })),
            Ok(None) => self.first_by_index(from, name, hash, wanted, use_),
            Err(error) => Err(error),
        }
    }

    // The same if the objects are asked by their indices alone.
    fn first_by_index(
        &self,
        from: usize,
        name: &[u8],
        hash: u32,
        wanted: &Wanted<'_>,
        use_: Use,
    ) -> Result<Option<Bound<E>>, LinkError>
        requires { hash ≡ gnu_hash_number name.now }
        ensures { let objects = (scope_objects self.now).now in IsFirstGiven
            (GivesAt IsFound E.fields objects name.now wanted.now use_)
            (length objects) false from result }
    {
        for place in 0..self.objects.len() {
            match self.given(place, name, hash, wanted, use_) {
                Ok(Some((index, symbol))) => {
                    return Ok(Some(Bound {
                        object: place,
                        index,
                        symbol,
                    }));
                }
                Ok(None) => {}
                Err(error) => return Err(error),
            }
        }
        Ok(None)
    }

    // What the object at an index gives.
    #[tactic(auto, using(crate::proofs::Scopes::over))]
    #[inline(always)]
    fn given(
        &self,
        place: usize,
        name: &[u8],
        hash: u32,
        wanted: &Wanted<'_>,
        use_: Use,
    ) -> Result<Option<(u32, E)>, LinkError>
        requires there { place < length (scope_objects self.now).now }
        requires hashed { hash ≡ gnu_hash_number name.now }
        ensures { let objects = (scope_objects self.now).now in
            GivesAt IsFound E.fields objects name.now wanted.now use_ place result }
    {
        if is_passed_over(use_, place) {
            return Ok(None);
        }
        let Some(object) = self.objects.get(place) else {
            unreachable!();
        };
        match object.find_hashed(name, hash, wanted, use_) {
            Ok(found) => Ok(if_serving(&found)),
            Err(error) => Err(error),
        }
    }
}

// Whether the object at an index is not asked for a use.
pub(crate) fn is_passed_over(use_: Use, place: usize) -> bool
    ensures { result ≡ is_passed_over use_ place }
{
    use_ == Use::Copy && place == 0
}
