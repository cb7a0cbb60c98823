//! All references of files whose checks passed, and what each gets (gABI, "Relocation" and "Dynamic
//! Section").

ghost use Rattle.std.specs.Prelude.{◌≡◌, ◌+◌, ◌<◌, [], ◌∷◌, MatchOption, None, length};
ghost use Rattle.std.specs.Prelude.{if◌then◌else◌};
ghost use Rattle.std.specs.Iterator.{YieldsFirst, YieldsFirstBy, item_count};
ghost use Rattle.elf_linking.specs.Bindings.{current_left};
ghost use Rattle.elf_linking.specs.CheckedBindings.{all_bindings, checked_left, checked_objects};
ghost use Rattle.elf_linking.specs.CheckedBindings.{item_parts};

use crate::checked::scope::CheckedScope;
use crate::references::{Reference, References};
use crate::scope::Bound;
use crate::view::LinkedSymbol;

/// A reference of an object of a scope, and what it gets.
#[derive(Clone, Copy, Debug)]
pub struct CheckedBinding<E> {
    /// The index of the object that asks.
    pub from: usize,
    /// The reference.
    pub reference: Reference,
    /// The symbol that it gets: the result of `CheckedScope::bind`.
    pub bound: Option<Bound<E>>,
}

/// An iterator over the references of all objects of a scope, object by object, each in the order
/// of `References`.
///
/// An item is `Err` with the index of an object whose relocations can't be read:
/// `DynamicObject::references` says why. The iterator goes on with the next object.
#[derive(Drop)]
pub struct CheckedBindings<'s, 'a, E: LinkedSymbol> {
    pub(crate) scope: CheckedScope<'s, 'a, E>,
    // The index of the object that was read last, and the references that are left of it.
    from: usize,
    references: Option<References<'a>>,
    // The index of the first object that is not yet read.
    next: usize,
}

impl<'s, 'a, E: LinkedSymbol> CheckedScope<'s, 'a, E> {
    /// An iterator over the references of all objects, with what each gets.
    pub fn bindings(&self) -> CheckedBindings<'s, 'a, E>
        ensures objects { checked_objects result ≡ self.now }
        ensures items { checked_left result ≡ all_bindings self.now }
    {
        CheckedBindings {
            scope: CheckedScope::new(self.objects()),
            from: 0,
            references: None,
            next: 0,
        }
    }
}

impl<'a, E: LinkedSymbol> CheckedBindings<'_, 'a, E> {
    // The next reference of the object that was read last.
    fn next_reference(&mut self) -> Option<Reference>
        ensures first { YieldsFirst (λ iter. current_left iter.references) self.old result self.new }
        ensures scope { self.new.scope ≡ self.old.scope }
        ensures from { self.new.from ≡ self.old.from }
        ensures next { self.new.next ≡ self.old.next }
    {
        match &mut self.references {
            Some(references) => references.next(),
            None => None,
        }
    }

    // Reads the relocations of the next object, and whether they can be read; `None` if there is none.
    fn open(&mut self) -> Option<bool>
        requires { current_left self.old.references ≡ [] }
        ensures { MatchOption result ((checked_left self.old ≡ []) × (self.new ≡ self.old))
            (λ opened. (checked_objects self.new ≡ checked_objects self.old)
            × (self.old.next < length (checked_objects self.old))
            × (self.new.next ≡ self.old.next + 1)
            × (checked_left self.old ≡ (if opened then checked_left self.new
            else (self.new.from, None) ∷ checked_left self.new))) }
    {
        let object = self.scope.objects().get(self.next)?;
        self.from = self.next;
        self.next += 1;
        match object.references() {
            Some(references) => {
                self.references = Some(references);
                Some(true)
            }
            None => {
                self.references = None;
                Some(false)
            }
        }
    }
}

impl<'a, E: LinkedSymbol> Iterator for CheckedBindings<'_, 'a, E> {
    type Item = Result<CheckedBinding<E>, usize>;

    ghost next_gives = { λ s r t. YieldsFirstBy (item_parts E.fields) checked_left s r t
        × (checked_objects t ≡ checked_objects s) };

    ghost remaining = { item_count checked_left };

    fn next(&mut self) -> Option<Result<CheckedBinding<E>, usize>> {
        loop {
            if let Some(reference) = self.next_reference() {
                return Some(Ok(CheckedBinding {
                    from: self.from,
                    reference,
                    bound: self.scope.bind(self.from, &reference),
                }));
            }
            match self.open() {
                None => return None,
                Some(true) => {}
                Some(false) => return Some(Err(self.from)),
            }
        }
    }
}
