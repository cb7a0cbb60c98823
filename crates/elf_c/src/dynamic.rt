//! The dynamic entries of a section, and those of the dynamic segment, which needs no section headers
//! (gABI, "Dynamic Section").

ghost use Rattle.std.specs.Prelude.{◌≡◌};
ghost use Rattle.elf_base.specs.FirstError.{and_then};
ghost use Rattle.elf_c.specs.Batch.{Fills, Stores};
ghost use Rattle.elf_c.specs.Dynamics.{dynamic_entry_at, dynamic_entry_in, dynamic_record};
ghost use Rattle.elf_c.specs.Dynamics.{entry_among};
ghost use Rattle.elf_c.specs.Parsed.{file_of};
ghost use Rattle.elf_c.specs.Records.{record_among};
ghost use Rattle.elf_c.specs.Status.{and_so};
ghost use Rattle.xmas_elf.specs.SectionContent.{section_content_of};
ghost use Rattle.xmas_elf.specs.SectionHeader.{section_of};

use crate::batch::{Numbers, Rows, fill};
use crate::file::Parsed;
use crate::status::{AnyError, give};
use elf_base::bytes::Order;
use elf_base::{ElfError, P32, P64};
use elf_linking::view::dynamic_bytes;
use xmas_elf::ElfFile;
use xmas_elf::bytes::Table;
use xmas_elf::dynamic::Dynamic;
use xmas_elf::sections::SectionData;

/// A dynamic entry, as numbers.
#[repr(C)]
#[derive(Clone, Copy, Debug)]
pub struct DynamicEntry {
    /// The tag of the entry (d_tag).
    pub tag: u64,
    /// A value or a pointer, depending on the tag (d_un).
    pub value: u64,
}

impl Numbers for Dynamic<P32> {
    type Stored = DynamicEntry;

    ghost numbers_of = { dynamic_record };

    #[inline(always)]
    fn numbers(&self) -> DynamicEntry {
        DynamicEntry {
            tag: self.raw_tag(),
            value: self.raw_val(),
        }
    }
}

impl Numbers for Dynamic<P64> {
    type Stored = DynamicEntry;

    ghost numbers_of = { dynamic_record };

    #[inline(always)]
    fn numbers(&self) -> DynamicEntry {
        let (tag, value) = (self.raw_tag(), self.raw_val());
        DynamicEntry { tag, value }
    }
}

// Stores the dynamic entries of a section from an index on in `out`, and returns their number.
fn fill_from_section(
    file: &ElfFile<'_>,
    section: u64,
    first: u64,
    out: &mut [DynamicEntry],
) -> Result<u64, AnyError>
    ensures { Fills (λ index. and_so (and_then (section_of file.now section)
        (section_content_of file.now)) (dynamic_entry_in index)) first out.old result out.new }
{
    match file.section_header_at(section)?.get_data(file)? {
        SectionData::Dynamic32(table) => fill(Rows { table }, first, out),
        SectionData::Dynamic64(table) => fill(Rows { table }, first, out),
        _ => Err(AnyError::OtherData),
    }
}

/// The dynamic entries from index `first` on of the section at an index, whatever their tags: as many
/// as fit in `out`, or all. `count` is set to their number; the rest of `out` is unchanged.
///
/// Errors: those of `ElfFile::section_header_at` and `SectionHeader::get_data`; `OtherData` if the
/// section does not contain dynamic entries; `NoRecord` if it has no more than `first`; `out` and
/// `count` are then unchanged.
#[unsafe(no_mangle)]
pub extern "C" fn xmas_elf_dynamics(
    input: &[u8],
    header: &Parsed,
    section: u64,
    first: u64,
    out: &mut [DynamicEntry],
    count: &mut u64,
) -> u32
    ensures { Stores (λ index. and_so (and_then (section_of (file_of input.entry header.now) section)
        (section_content_of (file_of input.entry header.now))) (dynamic_entry_in index))
        first out.old out.new count.old result count.new }
{
    give(
        fill_from_section(&header.file(input), section, first, out),
        count,
    )
}

// Stores the records in bytes from an index on in `out`, and returns their number.
fn fill_from_bytes<T: Numbers>(
    bytes: &[u8],
    order: Order,
    first: u64,
    out: &mut [T::Stored],
) -> Result<u64, AnyError>
    ensures { Fills (record_among T.numbers_of T.SIZE (T.value order) bytes.now)
        first out.old result out.new }
{
    let table = Table::<T>::new(bytes, order)?;
    fill(Rows { table }, first, out)
}

// Stores the dynamic entries in bytes of a class from an index on in `out`, and returns their number.
fn fill_by_class(
    class: u8,
    order: Order,
    bytes: &[u8],
    first: u64,
    out: &mut [DynamicEntry],
) -> Result<u64, AnyError>
    ensures { Fills (entry_among class order bytes.now) first out.old result out.new }
{
    if class == 1 {
        return fill_from_bytes::<Dynamic<P32>>(bytes, order, first, out);
    }
    if class == 2 {
        return fill_from_bytes::<Dynamic<P64>>(bytes, order, first, out);
    }
    Err(AnyError::Elf(ElfError::UnknownClass))
}

// Stores the dynamic entries of the segment from an index on in `out`, and returns their number.
fn fill_from_segment(
    file: &ElfFile<'_>,
    first: u64,
    out: &mut [DynamicEntry],
) -> Result<u64, AnyError>
    ensures { Fills (dynamic_entry_at file.now) first out.old result out.new }
{
    let bytes = dynamic_bytes(file)?;
    let class = file.header.pt1.class.raw();
    fill_by_class(class, file.byte_order(), bytes, first, out)
}

/// The dynamic entries of the last segment of type Dynamic from index `first` on, whatever their
/// tags, also those after the entry with tag 0 (DT_NULL): as many as fit in `out`, or all. `count` is
/// set to their number; the rest of `out` is unchanged. It needs no section headers.
///
/// Errors: those of `elf_linking::view::dynamic_bytes`; `UnknownClass` if the
/// class is neither 1 nor 2; `NotMultiple` if the segment is not a whole number of entries; `NoRecord`
/// if it has no more than `first`; `out` and `count` are then unchanged.
#[unsafe(no_mangle)]
pub extern "C" fn xmas_elf_dynamic_entries(
    input: &[u8],
    header: &Parsed,
    first: u64,
    out: &mut [DynamicEntry],
    count: &mut u64,
) -> u32
    ensures { Stores (dynamic_entry_at (file_of input.entry header.now))
        first out.old out.new count.old result count.new }
{
    give(fill_from_segment(&header.file(input), first, out), count)
}
