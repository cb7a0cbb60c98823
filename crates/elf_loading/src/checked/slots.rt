//! The words of images of objects that passed their checks.

ghost use Rattle.std.specs.Prelude.{◌≡◌, List, Some, ℕ};
ghost use Rattle.std.specs.Borrow.{Bor};
ghost use Rattle.elf_loading.specs.CheckedImage.{start_in};
ghost use Rattle.elf_loading.specs.Slots.{HasWords, HoldsSymbol, word_in};
ghost use Rattle.elf_loading.specs.Types.{Place};

use crate::checked::CheckedImage;
use elf_base::bytes::{Order, read_u64};
use elf_linking::view::LinkedSymbol;

// The byte order of an object, and the first address of its image.
fn layout_of<E: LinkedSymbol>(image: &CheckedImage<'_, '_, E>) -> Option<(Order, u64)>
    ensures { result ≡ Some (image.now.order, start_in image.now image.now.index) }
{
    let loads = image.loads();
    let own = loads.objects().get(image.index())?;
    let plan = loads.plans().get(image.index())?;
    Some((own.file().byte_order(), plan.span().start))
}

impl<E: LinkedSymbol> CheckedImage<'_, '_, E> {
    /// The number in the 8 bytes at an address of the object's image, which memory has, in the byte order
    /// of the object; `None` if not all of them are in it. Where a relocation writes the address of a
    /// symbol to 8 bytes, without an addend, it is that address after `relocate`. Relocations of class 32
    /// write 4 bytes.
    pub fn read_word(&self, memory: &[u8], address: u64) -> Option<u64>
        ensures word { result ≡ word_in self.now memory.now address }
        ensures slot { (places : List Place) (others : List (Bor (List ℕ)))
            → HasWords self.now places others memory.now
            → HoldsSymbol self.now places address result }
    {
        word_at(self, memory, address)
    }
}

// The number in the 8 bytes at an address of the image of an object.
fn word_at<E: LinkedSymbol>(
    image: &CheckedImage<'_, '_, E>,
    memory: &[u8],
    address: u64,
) -> Option<u64>
    ensures { result ≡ word_in image.now memory.now address }
{
    let (order, start) = layout_of(image)?;
    if address < start || address - start >= memory.len() as u64 {
        return None;
    }
    let place = (address - start) as usize;
    if memory.len() - place < 8 {
        return None;
    }
    Some(read_u64(memory, place, order))
}
