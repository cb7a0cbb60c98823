//! All references of the objects of a scope, and what each gets (gABI, "Relocation" and "Dynamic
//! Section").

ghost use Rattle.std.specs.Prelude.{◌≡◌, ◌+◌, ◌<◌, [], ◌∷◌, Err, IfSome, MatchOption, MatchResult};
ghost use Rattle.std.specs.Prelude.{length};
ghost use Rattle.std.specs.Iterator.{YieldsFirst, YieldsFirstBy, item_count};
ghost use Rattle.elf_linking.specs.Bindings.{IsAskedAt, IsBoundRight, IsItemOf, bindings_left};
ghost use Rattle.elf_linking.specs.Bindings.{bindings_objects};
ghost use Rattle.elf_linking.specs.Bindings.{current_left, reference_of_item, references_from};
ghost use Rattle.elf_linking.specs.Scope.{AreGood, BindsReference, HasNamedSymbol};
ghost use Rattle.elf_linking.specs.Scope.{IsReferenceBound, scope_objects};

use crate::LinkError;
use crate::references::{Reference, References};
use crate::scope::{Asked, Bound, Scope};
use crate::view::LinkedSymbol;
use elf_base::bytes::Record;

/// A reference of an object of a scope, what it asks for, and what it gets.
#[derive(Clone, Copy, Debug)]
pub struct Binding<'a, E> {
    /// The index of the object that asks.
    pub from: usize,
    /// The reference.
    pub reference: Reference,
    /// What it asks for, with the name and the version: the result of `DynamicObject::asked`.
    pub asked: Result<Asked<'a, E>, LinkError>,
    /// The symbol that it gets: the result of `Scope::bind`.
    pub bound: Result<Option<Bound<E>>, LinkError>,
}

/// An iterator over the references of all objects of a scope, object by object, each in the order
/// of `References`.
///
/// An item is `Err` for an object whose relocations can't be read: the index of the object, and the
/// error of `DynamicObject::references`. The iterator goes on with the next object.
#[derive(Clone, Drop)]
pub struct Bindings<'s, 'a, E: Record> {
    scope: Scope<'s, 'a, E>,
    // The index of the object that was read last, and the references that are left of it.
    from: usize,
    references: Option<References<'a>>,
    // The index of the first object that is not yet read.
    next: usize,
}

impl<'s, 'a, E: LinkedSymbol> Scope<'s, 'a, E> {
    /// An iterator over the references of all objects, with what each gets.
    pub fn bindings(&self) -> Bindings<'s, 'a, E>
        ensures objects { bindings_objects result ≡ (scope_objects self.now).now }
        ensures items { bindings_left result
            ≡ references_from 0 (scope_objects self.now).now }
    {
        Bindings {
            scope: *self,
            from: 0,
            references: None,
            next: 0,
        }
    }

    /// A reference of the object at index `from`, what it asks for, and what it gets: `bound` is
    /// the result of `bind`.
    #[inline(always)]
    pub fn binding(&self, from: usize, reference: &Reference) -> Binding<'a, E>
        ensures from { result.from ≡ from }
        ensures reference { result.reference ≡ reference.now }
        ensures asked { IsAskedAt E.fields (scope_objects self.now).now from reference.now
            result.asked }
        ensures answer { IsReferenceBound E.fields (scope_objects self.now).now from
            reference.now result.bound }
        ensures good { let objects = (scope_objects self.now).now in
            AreGood E.fields objects → HasNamedSymbol E.fields objects from reference.now
            → BindsReference E.fields objects from reference.now result.bound }
    {
        let Some(asking) = self.objects.get(from) else {
            return Binding {
                from,
                reference: *reference,
                asked: Err(LinkError::ObjectIndex),
                bound: Err(LinkError::ObjectIndex),
            };
        };
        match asking.asked(reference) {
            Ok(asked) => {
                let bound = self.answer(from, reference.symbol, &asked);
                Binding {
                    from,
                    reference: *reference,
                    asked: Ok(asked),
                    bound,
                }
            }
            Err(error) => Binding {
                from,
                reference: *reference,
                asked: Err(error),
                bound: Err(error),
            },
        }
    }
}

impl<'a, E: LinkedSymbol> Bindings<'_, 'a, E> {
    // The next reference of the object that was read last.
    fn next_reference(&mut self) -> Option<Reference>
        ensures first { YieldsFirst (λ iter. current_left iter.references) self.old result self.new }
        ensures scope { self.new.scope ≡ self.old.scope }
        ensures from { self.new.from ≡ self.old.from }
        ensures next { self.new.next ≡ self.old.next }
    {
        match &mut self.references {
            Some(references) => references.next(),
            None => None,
        }
    }

    // A reference of the object that was read last, what it asks for, and what it gets.
    fn item(&self, reference: &Reference) -> Binding<'a, E>
        ensures from { result.from ≡ self.now.from }
        ensures reference { result.reference ≡ reference.now }
        ensures asked { IsAskedAt E.fields (bindings_objects self.now) self.now.from reference.now
            result.asked }
        ensures answer { IsReferenceBound E.fields (bindings_objects self.now) self.now.from
            reference.now result.bound }
        ensures right { IsBoundRight E.fields (bindings_objects self.now) self.now.from
            reference.now result.bound }
    {
        self.scope.binding(self.from, reference)
    }

    // Reads the relocations of the next object; `None` if there is none.
    fn open(&mut self) -> Option<Result<(), LinkError>>
        requires { current_left self.old.references ≡ [] }
        ensures { MatchOption result ((bindings_left self.old ≡ []) × (self.new ≡ self.old))
            (λ opened. (bindings_objects self.new ≡ bindings_objects self.old)
            × (self.old.next < length (bindings_objects self.old))
            × (self.new.next ≡ self.old.next + 1)
            × MatchResult opened (λ _. bindings_left self.old ≡ bindings_left self.new)
            (λ error. bindings_left self.old
            ≡ (self.new.from, Err error) ∷ bindings_left self.new)) }
    {
        let Some(object) = self.scope.objects.get(self.next) else {
            return None;
        };
        self.from = self.next;
        self.next += 1;
        match object.references() {
            Ok(references) => {
                self.references = Some(references);
                Some(Ok(()))
            }
            Err(error) => {
                self.references = None;
                Some(Err(error))
            }
        }
    }
}

impl<'a, E: LinkedSymbol> Iterator for Bindings<'_, 'a, E> {
    type Item = Result<Binding<'a, E>, (usize, LinkError)>;

    ghost next_gives = { λ s r t. YieldsFirstBy reference_of_item bindings_left s r t
        × (bindings_objects t ≡ bindings_objects s)
        × IfSome r (IsItemOf E.fields (bindings_objects s)) };

    ghost remaining = { item_count bindings_left };

    fn next(&mut self) -> Option<Result<Binding<'a, E>, (usize, LinkError)>> {
        loop {
            if let Some(reference) = self.next_reference() {
                return Some(Ok(self.item(&reference)));
            }
            match self.open() {
                None => return None,
                Some(Ok(())) => {}
                Some(Err(error)) => return Some(Err((self.from, error))),
            }
        }
    }
}
