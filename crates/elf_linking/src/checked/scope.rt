//! Which symbol of which file a reference gets, in files whose checks passed (gABI, "Dynamic
//! Section", DT_SYMBOLIC, and "Symbol Table"; LSB, "Symbol Versioning"; the rules of glibc's linker).

ghost use Rattle.std.specs.Prelude.{◌≡◌, option_and_then, slice_get};

use crate::checked::CheckedObject;
use crate::find::{Use, Wanted};
use crate::gnu_hash::gnu_hash_of_bytes;
use crate::references::Reference;
use crate::scope::{Asked, Bound, is_passed_over};
use crate::serving::if_serving;
use crate::view::LinkedSymbol;
use std::marker::Model;

/// The files in which a dynamic linker looks a name up, the program first, all of which passed
/// their checks. Contracts see it as the list of its objects.
#[derive(Drop)]
pub struct CheckedScope<'s, 'a, E: LinkedSymbol> {
    objects: &'s [CheckedObject<'a, E>],
}

impl<'s, 'a, E: LinkedSymbol> Model for CheckedScope<'s, 'a, E> {
    ghost use Rattle.std.specs.Prelude.{List};
    ghost use Rattle.elf_linking.specs.Exports.{ObjectParts};

    ghost Value = { List ObjectParts };

    ghost view = { λ inside. inside.objects.now };
}

impl<'s, 'a, E: LinkedSymbol> CheckedScope<'s, 'a, E> {
    ghost use Rattle.elf_linking.specs.CheckedScope.{asked_fields, bound_fields, bound_for, bound_in};
    ghost use Rattle.elf_linking.specs.CheckedScope.{first_given, given_at, looked_up};
    ghost use Rattle.elf_linking.specs.CheckedScope.{protected_bound};
    ghost use Rattle.elf_linking.specs.Layouts.{gnu_hash_number};

    /// The scope of these objects, the program first.
    pub fn new(objects: &'s [CheckedObject<'a, E>]) -> Self
        ensures { result ≡ objects.now }
    {
        Self { objects }
    }

    /// The objects, the program first.
    pub fn objects(&self) -> &'s [CheckedObject<'a, E>]
        ensures { result.now ≡ self.now }
    {
        self.objects
    }

    /// The symbol that a look-up for the object at index `from` finds: that of the first object in
    /// which `CheckedObject::find` returns a symbol that serves references of other files. The
    /// object at `from` is asked first if it is symbolic; for `Use::Copy` the program is passed
    /// over. `None` if no object gives a symbol, and if there is no object at `from`.
    pub fn find(&self, from: usize, name: &str, wanted: &Wanted<'_>, use_: Use) -> Option<Bound<E>>
        ensures { bound_fields E.fields result ≡ looked_up self.now from name.now wanted.now use_ }
    {
        self.find_bytes(from, name.as_bytes(), wanted, use_)
    }

    /// The result of `find` for a name of these bytes, whether or not they are UTF-8.
    pub fn find_bytes(
        &self,
        from: usize,
        name: &[u8],
        wanted: &Wanted<'_>,
        use_: Use,
    ) -> Option<Bound<E>>
        ensures { bound_fields E.fields result ≡ looked_up self.now from name.now wanted.now use_ }
    {
        let asking = self.objects.get(from)?;
        let hash = gnu_hash_of_bytes(name);
        if asking.is_symbolic() {
            match self.given(from, name, hash, wanted, use_) {
                Some(bound) => return Some(bound),
                None => {}
            }
        }
        self.first_given(name, hash, wanted, use_)
    }

    /// The symbol that a reference of the object at index `from` gets: the result of `answer` for
    /// what `CheckedObject::asked` returns. `None` if no object gives a symbol for it, and for a
    /// reference that asks for nothing: there is no object at `from`, it has no such symbol, or the
    /// name of the symbol can't be read.
    pub fn bind(&self, from: usize, reference: &Reference) -> Option<Bound<E>>
        ensures { bound_fields E.fields result ≡ bound_in self.now from reference.now }
    {
        let asked = self.objects.get(from)?.asked(reference)?;
        self.answer(from, reference.symbol, &asked)
    }

    /// The symbol that a reference of the object at index `from` to its symbol at `index` gets, by
    /// what `CheckedObject::asked` returns for it: its own symbol, or that of `find`.
    ///
    /// A reference to a protected symbol gets none if `find` for its use returns none. Otherwise it
    /// gets its own symbol if `find` for `Use::Defined` returns one of another object, and the one
    /// that was found for its use if not.
    pub fn answer(&self, from: usize, index: u32, asked: &Asked<'_, E>) -> Option<Bound<E>>
        ensures { bound_fields E.fields result
            ≡ bound_for self.now from index (asked_fields E.fields asked.now) }
    {
        match *asked {
            Asked::Own(symbol) => Some(Bound {
                object: from,
                index,
                symbol,
            }),
            Asked::Look {
                name,
                wanted,
                use_,
                own,
            } => self.look(from, index, own, name, &wanted, use_),
        }
    }

    // The same for a look-up, where `own` is the symbol that the reference names, if it is protected.
    fn look(
        &self,
        from: usize,
        index: u32,
        own: Option<E>,
        name: &[u8],
        wanted: &Wanted<'_>,
        use_: Use,
    ) -> Option<Bound<E>>
        ensures { bound_fields E.fields result ≡ bound_for self.now from index
            (asked_fields E.fields (Asked.Look name.entry wanted.now use_ own)) }
    {
        match own {
            None => self.find_bytes(from, name, wanted, use_),
            Some(symbol) => {
                let own = Bound {
                    object: from,
                    index,
                    symbol,
                };
                self.protected(own, name, wanted, use_)
            }
        }
    }

    // The symbol that a reference to a protected symbol gets.
    fn protected(
        &self,
        own: Bound<E>,
        name: &[u8],
        wanted: &Wanted<'_>,
        use_: Use,
    ) -> Option<Bound<E>>
        ensures { let found = looked_up self.now own.object name.now wanted.now in
            bound_fields E.fields result
            ≡ protected_bound (record { object = own.object; index = own.index; symbol = E.fields own.symbol })
            (found Use.Defined) (found use_) }
    {
        let found = self.find_bytes(own.object, name, wanted, use_)?;
        match self.find_bytes(own.object, name, wanted, Use::Defined) {
            Some(defined) if defined.object != own.object => Some(own),
            _ => Some(found),
        }
    }

    // What the first object gives that gives a symbol. The hash number of the name is that of GNU's
    // table.
    fn first_given(
        &self,
        name: &[u8],
        hash: u32,
        wanted: &Wanted<'_>,
        use_: Use,
    ) -> Option<Bound<E>>
        requires { hash ≡ gnu_hash_number name.now }
        ensures { bound_fields E.fields result
            ≡ first_given name.now wanted.now use_ 0 self.now }
    {
        for place in 0..self.objects.len() {
            match self.given(place, name, hash, wanted, use_) {
                Some(bound) => return Some(bound),
                None => {}
            }
        }
        None
    }

    // What the object at an index gives.
    #[inline(always)]
    fn given(
        &self,
        place: usize,
        name: &[u8],
        hash: u32,
        wanted: &Wanted<'_>,
        use_: Use,
    ) -> Option<Bound<E>>
        requires { hash ≡ gnu_hash_number name.now }
        ensures { bound_fields E.fields result
            ≡ option_and_then (given_at name.now wanted.now use_ place) (slice_get self.now place) }
    {
        let object = self.objects.get(place)?;
        if is_passed_over(use_, place) {
            return None;
        }
        match if_serving(&object.find_hashed(name, hash, wanted, use_)) {
            Some((index, symbol)) => Some(Bound {
                object: place,
                index,
                symbol,
            }),
            None => None,
        }
    }
}
