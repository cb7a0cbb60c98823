//! The references of files whose checks passed that get no symbol (gABI, "Symbol Table", undefined
//! symbols and weak ones).

ghost use Rattle.std.specs.Prelude.{◌≡◌, option_map, slice_get};
ghost use Rattle.std.specs.Iterator.{YieldsFirstBy, item_count};
ghost use Rattle.elf_linking.specs.CheckedBindings.{all_unresolved, checked_objects, is_unresolved};
ghost use Rattle.elf_linking.specs.CheckedBindings.{is_weak, is_weak_in, item_parts, unresolved_left};

use crate::checked::bindings::{CheckedBinding, CheckedBindings};
use crate::checked::scope::CheckedScope;
use crate::view::LinkedSymbol;

/// `STB_WEAK`: the binding of a symbol without which a program runs.
const STB_WEAK: u8 = 2;

/// An iterator over the references of all objects of a scope that get no symbol and aren't weak, in
/// the order of `CheckedBindings`: a dynamic linker stops with an error at the first, or, of a
/// function that is bound later, when it is called.
///
/// An item is `Err` with the index of an object whose relocations can't be read, as in
/// `CheckedBindings`.
#[derive(Drop)]
pub struct Unresolved<'s, 'a, E: LinkedSymbol> {
    bindings: CheckedBindings<'s, 'a, E>,
}

impl<'s, 'a, E: LinkedSymbol> CheckedScope<'s, 'a, E> {
    /// An iterator over the references that get no symbol and aren't weak. A call of `next` goes on
    /// to the next such reference, so that all calls together cost what those of `bindings` do.
    pub fn unresolved(&self) -> Unresolved<'s, 'a, E>
        ensures { unresolved_left result ≡ all_unresolved self.now }
    {
        Unresolved {
            bindings: self.bindings(),
        }
    }
}

// Whether a symbol is weak, if there is one.
fn is_weak<E: LinkedSymbol>(symbol: Option<E>) -> bool
    ensures { result ≡ is_weak (option_map E.fields symbol) }
{
    match symbol {
        Some(symbol) => symbol.info() / 16 == STB_WEAK,
        None => false,
    }
}

impl<'s, 'a, E: LinkedSymbol> Unresolved<'s, 'a, E> {
    // Whether an item is of a reference that gets no symbol and isn't weak, or an error.
    fn is_unresolved(&self, item: &Result<CheckedBinding<E>, usize>) -> bool
        ensures { result ≡ is_unresolved (checked_objects self.now.bindings)
            (item_parts E.fields item.now) }
    {
        match item {
            Ok(binding) => binding.bound.is_none() && !self.is_weak(binding),
            Err(_) => true,
        }
    }

    // Whether the symbol that a reference names is weak.
    fn is_weak(&self, binding: &CheckedBinding<E>) -> bool
        ensures { result ≡ is_weak_in (slice_get (checked_objects self.now.bindings) binding.now.from)
            binding.now.reference.symbol }
    {
        match self.bindings.scope.objects().get(binding.from) {
            Some(object) => is_weak(object.symbol(binding.reference.symbol)),
            None => false,
        }
    }
}

impl<'a, E: LinkedSymbol> Iterator for Unresolved<'_, 'a, E> {
    type Item = Result<CheckedBinding<E>, usize>;

    ghost next_gives = { λ s r t. YieldsFirstBy (item_parts E.fields) unresolved_left s r t
        × (checked_objects t.bindings ≡ checked_objects s.bindings) };

    ghost remaining = { item_count unresolved_left };

    #[tactic(auto, using(crate::proofs::UnresolvedItems::missing_none, crate::proofs::UnresolvedItems::missing_first, crate::proofs::UnresolvedItems::missing_other))]
    fn next(&mut self) -> Option<Result<CheckedBinding<E>, usize>> {
        loop {
            let item = self.bindings.next()?;
            if self.is_unresolved(&item) {
                return Some(item);
            }
        }
    }
}
