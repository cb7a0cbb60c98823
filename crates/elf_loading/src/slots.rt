//! The jump slots that get their symbols when they are called first, as glibc 2.36 fills them before
//! (`elf_machine_lazy_rel` and `elf_machine_runtime_setup` of each machine).

ghost use Rattle.std.specs.Prelude.{◌≡◌, ◌==◌, ◌/◌, ◌%◌, Ok, false, option_map, slice_get, unwrap_or};
ghost use Rattle.elf_base.specs.Table.{table_items};
ghost use Rattle.elf_linking.specs.DynamicObject.{object_records, object_view};
ghost use Rattle.elf_linking.specs.DynamicView.{view_entries};
ghost use Rattle.elf_loading.specs.Values.{low};
ghost use Rattle.elf_loading.specs.Words.{and_link, entry_of_slot, is_bound_at_once, is_later};
ghost use Rattle.elf_loading.specs.Words.{slot_number};
ghost use Rattle.elf_loading.specs.declared.value.Origin.TheVariants.{Base};
ghost use Rattle.elf_loading.specs.declared.value.Value.TheVariants.{Sum};

use crate::LoadError;
use crate::in_order::Relocation;
use crate::value::{Origin, Value, difference, low};
use crate::words::{Word, word_in_memory};
use elf_linking::references::types::{EM_386, EM_AARCH64, EM_X86_64};
use elf_linking::references::{Reference, row_of};
use elf_linking::view::{DT_PLTGOT, DynamicView, LinkedSymbol};
use elf_linking::{DynamicObject, LinkError};
use xmas_elf::ElfFile;

// The file has slots of functions that may use registers by another convention than most (AArch64
// psABI, "Dynamic Section").
const DT_AARCH64_VARIANT_PCS: u64 = 0x7000_0005;

// Whether the symbol at an index of an object is such a function: by the flag STO_AARCH64_VARIANT_PCS.
fn is_variant<E: LinkedSymbol>(object: &DynamicObject<'_, E>, index: u32) -> bool
    ensures { result ≡ unwrap_or (option_map (λ symbol. (E.fields symbol).other / 128 % 2 == 1)
        (slice_get (table_items (object_records object.now)) index)) false }
{
    match object.symbol(index) {
        Some(symbol) => symbol.other().raw() / 128 % 2 == 1,
        None => false,
    }
}

// Whether glibc binds a slot before the program runs although others get their symbols later.
fn is_bound_at_once<E: LinkedSymbol>(
    file: &ElfFile<'_>,
    own: &DynamicObject<'_, E>,
    relocation: &Relocation,
) -> bool
    ensures { result ≡ is_bound_at_once E.fields file.now own.now relocation.now }
{
    match file.header.pt2.machine().raw() {
        EM_386 => !relocation.in_place,
        EM_AARCH64 => {
            own.view().entry(DT_AARCH64_VARIANT_PCS).is_some()
                && is_variant(own, relocation.reference.symbol)
        }
        _ => false,
    }
}

// Whether a relocation is of a slot that gets its symbol later.
pub(crate) fn is_later<E: LinkedSymbol>(
    file: &ElfFile<'_>,
    own: &DynamicObject<'_, E>,
    lazy: bool,
    relocation: &Relocation,
) -> bool
    ensures { result ≡ is_later E.fields file.now own.now lazy relocation.now }
{
    lazy && relocation.slot
        && row_of(file.header.pt2.machine().raw(), relocation.reference.kind).slot
        && !is_bound_at_once(file, own, relocation)
}

// The entry of the procedure linkage table for the slot at an address, by that of the first slot.
fn entry_of_slot(machine: u16, width: u32, table: u64, first: u64, address: u64) -> u64
    ensures { result ≡ entry_of_slot machine width table first address }
{
    let begin = low(width, u128::from(table) + 3 * u128::from(width));
    let distance = u128::from(difference(width, u128::from(address), begin));
    let offset = match machine {
        EM_X86_64 => 2 * distance,
        EM_386 => 4 * distance,
        _ => 0,
    };
    low(width, u128::from(first) + offset)
}

// What a slot of a width at an address is until it is called, relative to the base of the file.
fn slot_number(
    file: &ElfFile<'_>,
    view: &DynamicView<'_>,
    width: u32,
    address: u64,
) -> Result<u64, LinkError>
    ensures { result ≡ slot_number file.now (view_entries view.now) width address }
{
    let Some(table) = view.entry(DT_PLTGOT) else {
        return word_in_memory(file, address);
    };
    let first = match word_in_memory(file, table.wrapping_add(u64::from(width))) {
        Ok(first) => first,
        Err(error) => return Err(error),
    };
    if first == 0 {
        return word_in_memory(file, address);
    }
    let machine = file.header.pt2.machine().raw();
    Ok(entry_of_slot(machine, width, table, first, address))
}

// The word of such a slot of the object at index `of`, whose type has a width.
pub(crate) fn slot_word<E: LinkedSymbol>(
    file: &ElfFile<'_>,
    own: &DynamicObject<'_, E>,
    of: usize,
    width: u32,
    reference: &Reference,
) -> Result<Word, LoadError>
    ensures { result ≡ and_link
        (slot_number file.now (view_entries (object_view own.now)) width reference.now.offset) (λ number.
        Ok (record { address = reference.now.offset; width = width; value = Sum (Base of) (low width number) })) }
{
    match slot_number(file, &own.view(), width, reference.offset) {
        Ok(number) => Ok(Word {
            address: reference.offset,
            width: u64::from(width),
            value: Value::Sum {
                origin: Origin::Base(of),
                offset: low(width, u128::from(number)),
            },
        }),
        Err(error) => Err(LoadError::Link(error)),
    }
}
