//! What the slot of a symbol holds after relocation.

ghost use Rattle.std.specs.Prelude.{◌≡◌, ◌≤◌, ℕ, Err, IfErr, IfOk, length};
ghost use Rattle.std.specs.List.{count_by};
ghost use Rattle.elf_loading.specs.CheckedImage.{image_result, image_words};
ghost use Rattle.elf_loading.specs.ImageWords.{covers};
ghost use Rattle.elf_loading.specs.Slots.{HoldsSymbol, word_in};

use crate::word_callers::load_checked;
use elf_linking::view::LinkedSymbol;
use elf_loading::{CheckedImage, ImageError, Place};

/// Loads a checked object, and reads the slot at an address: if a relocation writes a symbol's address
/// to it, that is **the address of the definition that the scope binds**, the base of its object plus
/// its value.
pub fn slot_after<E: LinkedSymbol>(
    image: &CheckedImage<'_, '_, E>,
    places: &[Place],
    others: &[&[u8]],
    slot: u64,
    memory: &mut [u8],
) -> Result<Option<u64>, ImageError>
    requires apart { (address : ℕ) → count_by (covers address) (image_words image.now) ≤ 1 }
    ensures error { IfErr result (λ error. image_result image.now places.now others.now
        (length memory.old) ≡ Err error) }
    ensures read { IfOk result (λ word. word ≡ word_in image.now memory.new slot) }
    ensures bound { IfOk result (HoldsSymbol image.now places.now slot) }
{
    load_checked(image, places, others, memory)?;
    Ok(image.read_word(memory, slot))
}
