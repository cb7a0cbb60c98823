//! What a checker of files and a loader ask of the words of relocations.

ghost use Rattle.std.specs.Prelude.{◌≡◌, ◌<◌, ◌+◌, ℕ, IfOk, IsSomeAnd, IsTrue, List, MatchOption, false};
ghost use Rattle.std.specs.Prelude.{length, slice_get, slice_index};
ghost use Rattle.elf_linking.specs.DynamicObject.{object_view};
ghost use Rattle.elf_linking.specs.DynamicView.{flag_in, view_entries};
ghost use Rattle.elf_loading.specs.CheckedImage.{image_result, image_words, mapped_at};
ghost use Rattle.elf_loading.specs.CheckedImage.{relocated_at, start_in};
ghost use Rattle.elf_loading.specs.ImageTables.{asks_for_text};
ghost use Rattle.elf_loading.specs.ImageWords.{AreWritten};
ghost use Rattle.elf_loading.specs.LoadScope.{loaded_objects, loaded_plans};
ghost use Rattle.elf_loading.specs.Plan.{IsImageBy};
ghost use Rattle.elf_loading.specs.OneWord.{IsByOneWordIn};
ghost use Rattle.elf_loading.specs.declared.mapping.Loader.TheVariants.{Glibc};
ghost use Rattle.elf_loading.specs.declared.words.Binding.TheVariants.{Now};

use elf_linking::view::{DT_FLAGS, DT_TEXTREL, LinkedSymbol};
use elf_loading::{
    Binding, CheckedImage, ImageError, LoadError, LoadPlan, LoadScope, Loader, Place,
};

// Whether a file has the flag DF_TEXTREL (4).
fn has_text_flag(flags: Option<u64>) -> bool
    ensures { result ≡ flag_in flags 4 }
{
    match flags {
        Some(flags) => flags / 4 % 2 == 1,
        None => false,
    }
}

/// Whether no relocation of the object at index `of` writes to memory that is not writable. `marks`
/// is that of `check_image`.
pub fn writes_no_read_only_memory<E: LinkedSymbol>(
    scope: &LoadScope<'_, '_, E>,
    of: usize,
    marks: &mut [u8],
) -> bool
    ensures { let objects = (loaded_objects scope.now).now in IsTrue result
        → IsSomeAnd (slice_get objects of) (λ own.
        (asks_for_text (view_entries (object_view own)) ≡ false)
        × MatchOption (slice_get (loaded_plans scope.now).now of) ⊥
        (AreWritten E.SIZE E.fields objects of own)) }
{
    let Some(own) = scope.objects().get(of) else {
        return false;
    };
    let view = own.view();
    if view.entry(DT_TEXTREL).is_some() || has_text_flag(view.entry(DT_FLAGS)) {
        return false;
    }
    scope.check_image(of, marks).is_ok()
}

// Fills an image with the bytes that glibc maps.
fn fill(plan: &LoadPlan<'_>, image: &mut [u8]) -> Result<(), LoadError>
    ensures { IfOk result (λ done. IsImageBy Glibc plan.now image.new) }
{
    plan.fill(Loader::Glibc, image)
}

/// Fills an image with the bytes of the object at index `of`, whose plan is `plan`, and writes the
/// words of its relocations. The result is the number of words without a number.
pub fn load_image<E: LinkedSymbol>(
    scope: &LoadScope<'_, '_, E>,
    of: usize,
    plan: &LoadPlan<'_>,
    places: &[Place],
    others: &[&[u8]],
    image: &mut [u8],
) -> Result<u64, LoadError>
    ensures { IfOk result (λ count. (mapped : List ℕ) × IsImageBy Glibc plan.now mapped
        × IsByOneWordIn E.fields (loaded_objects scope.now) (loaded_plans scope.now) of Now
        places.entry others.entry mapped image.new) }
{
    fill(plan, image)?;
    scope.relocate(of, Binding::Now, places, others, image)
}

/// The bytes of a checked object as glibc maps them, with the words of its relocations: the byte at
/// each address is that of the one word over it, otherwise that of the file. The result is the number
/// of words without a number.
pub fn load_checked<E: LinkedSymbol>(
    image: &CheckedImage<'_, '_, E>,
    places: &[Place],
    others: &[&[u8]],
    memory: &mut [u8],
) -> Result<u64, ImageError>
    ensures exact { result ≡ image_result image.now places.now others.now (length memory.old) }
    ensures bytes { let first = start_in image.now image.now.index in IfOk result (λ count. (i : ℕ)
        → i < length memory.new → slice_index memory.new i ≡ relocated_at image.now places.now
        others.now (image_words image.now) (first + i) (mapped_at image.now Glibc (first + i))) }
{
    image.fill(Loader::Glibc, memory)?;
    image.relocate(places, others, memory)
}
