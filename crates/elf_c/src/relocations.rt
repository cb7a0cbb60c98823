//! The relocations of a section, and those of the dynamic segment, which needs no section headers
//! (gABI, "Relocation" and "Dynamic Section").

ghost use Rattle.std.specs.Prelude.{◌≡◌, Bool};
ghost use Rattle.elf_base.specs.FirstError.{and_then};
ghost use Rattle.elf_c.specs.Batch.{Fills, Stores};
ghost use Rattle.elf_c.specs.Parsed.{file_of};
ghost use Rattle.elf_c.specs.Relocations.{dynamic_records, dynamic_relocation_at, is_rela};
ghost use Rattle.elf_c.specs.Relocations.{reference_record, rel_record, rela_record, relocation_in};
ghost use Rattle.elf_c.specs.Status.{and_so};
ghost use Rattle.elf_linking.specs.References.{each_left};
ghost use Rattle.elf_records.specs.Relocations.{symbol_in_32, symbol_in_64, type_in_32, type_in_64};
ghost use Rattle.xmas_elf.specs.SectionContent.{section_content_of};
ghost use Rattle.xmas_elf.specs.SectionHeader.{section_of};

use crate::batch::{Numbers, Rows, Sequence, fill, fill_in_order};
use crate::file::Parsed;
use crate::status::{AnyError, give};
use elf_base::{P32, P64};
use elf_linking::references::{Reference, RelocationTables};
use elf_linking::view::{DT_PLTREL, DT_RELA, DynamicView};
use xmas_elf::ElfFile;
use xmas_elf::sections::{Rel, Rela, SectionData};

/// A relocation, as numbers.
#[repr(C)]
#[derive(Clone, Copy, Debug)]
pub struct Relocation {
    /// The location to relocate: an offset in its section, or a virtual address.
    pub offset: u64,
    /// The addend; 0 in a table without addends.
    pub addend: u64,
    /// The index of its symbol in the symbol table.
    pub symbol: u32,
    /// The relocation type, which is processor-specific.
    pub type_: u32,
    /// 1 in a table with addends, otherwise 0.
    pub has_addend: u32,
}

impl Numbers for Rela<P32> {
    type Stored = Relocation;

    ghost numbers_of = { rela_record symbol_in_32 type_in_32 };

    #[inline(always)]
    fn numbers(&self) -> Relocation {
        Relocation {
            offset: u64::from(self.get_offset()),
            addend: u64::from(self.get_addend()),
            symbol: self.get_symbol_table_index(),
            type_: u32::from(self.get_type()),
            has_addend: 1,
        }
    }
}

impl Numbers for Rela<P64> {
    type Stored = Relocation;

    ghost numbers_of = { rela_record symbol_in_64 type_in_64 };

    #[inline(always)]
    fn numbers(&self) -> Relocation {
        Relocation {
            offset: self.get_offset(),
            addend: self.get_addend(),
            symbol: self.get_symbol_table_index(),
            type_: self.get_type(),
            has_addend: 1,
        }
    }
}

impl Numbers for Rel<P32> {
    type Stored = Relocation;

    ghost numbers_of = { rel_record symbol_in_32 type_in_32 };

    #[inline(always)]
    fn numbers(&self) -> Relocation {
        Relocation {
            offset: u64::from(self.get_offset()),
            addend: 0,
            symbol: self.get_symbol_table_index(),
            type_: u32::from(self.get_type()),
            has_addend: 0,
        }
    }
}

impl Numbers for Rel<P64> {
    type Stored = Relocation;

    ghost numbers_of = { rel_record symbol_in_64 type_in_64 };

    #[inline(always)]
    fn numbers(&self) -> Relocation {
        Relocation {
            offset: self.get_offset(),
            addend: 0,
            symbol: self.get_symbol_table_index(),
            type_: self.get_type(),
            has_addend: 0,
        }
    }
}

// Stores the relocations of a section from an index on in `out`, and returns their number.
fn fill_from_section(
    file: &ElfFile<'_>,
    section: u64,
    first: u64,
    out: &mut [Relocation],
) -> Result<u64, AnyError>
    ensures { Fills (λ index. and_so (and_then (section_of file.now section)
        (section_content_of file.now)) (relocation_in index)) first out.old result out.new }
{
    match file.section_header_at(section)?.get_data(file)? {
        SectionData::Rela32(table) => fill(Rows { table }, first, out),
        SectionData::Rela64(table) => fill(Rows { table }, first, out),
        SectionData::Rel32(table) => fill(Rows { table }, first, out),
        SectionData::Rel64(table) => fill(Rows { table }, first, out),
        _ => Err(AnyError::OtherData),
    }
}

/// The relocations from index `first` on of the section at an index: as many as fit in `out`, or all.
/// `count` is set to their number; the rest of `out` is unchanged. An addend of class 32 is a 32-bit
/// number.
///
/// Errors: those of `ElfFile::section_header_at` and `SectionHeader::get_data`; `OtherData` if the
/// section does not contain relocations; `NoRecord` if it has no more than `first`; `out` and `count`
/// are then unchanged.
#[unsafe(no_mangle)]
pub extern "C" fn xmas_elf_relocations(
    input: &[u8],
    header: &Parsed,
    section: u64,
    first: u64,
    out: &mut [Relocation],
    count: &mut u64,
) -> u32
    ensures { Stores (λ index. and_so (and_then (section_of (file_of input.entry header.now) section)
        (section_content_of (file_of input.entry header.now))) (relocation_in index))
        first out.old out.new count.old result count.new }
{
    give(
        fill_from_section(&header.file(input), section, first, out),
        count,
    )
}

impl Relocation {
    // The numbers of a relocation of a table with addends or without.
    fn of(reference: &Reference, addends: bool) -> Relocation
        ensures { result ≡ reference_record addends reference.now }
    {
        Relocation {
            offset: reference.offset,
            addend: reference.addend,
            symbol: reference.symbol,
            type_: reference.kind,
            has_addend: u32::from(addends),
        }
    }
}

// The remaining relocations of the dynamic segment: those of each table, and whether the third table
// has addends.
#[derive(Drop)]
struct DynamicRelocations<'a> {
    tables: RelocationTables<'a>,
    addends: bool,
}

impl Sequence for DynamicRelocations<'_> {
    type Record = Relocation;

    ghost left = { λ all. dynamic_records all.addends (each_left all.tables) };

    #[tactic(auto, using(crate::proofs::DynamicRelocations::first_of, crate::proofs::DynamicRelocations::none_of, crate::proofs::DynamicRelocations::last_of, crate::proofs::DynamicRelocations::no_last))]
    fn next(&mut self) -> Option<Relocation> {
        if let Some(reference) = self.tables.rela.next() {
            return Some(Relocation::of(&reference, true));
        }
        if let Some(reference) = self.tables.rel.next() {
            return Some(Relocation::of(&reference, false));
        }
        let reference = self.tables.plt.next()?;
        Some(Relocation::of(&reference, self.addends))
    }
}

// Whether a table of this kind (DT_PLTREL) has addends.
fn is_rela(kind: Option<u64>) -> bool
    ensures { result ≡ is_rela kind }
{
    match kind {
        Some(kind) => kind == DT_RELA,
        None => false,
    }
}

// Stores the relocations of the dynamic segment from an index on in `out`, and returns their number.
fn fill_from_segment(
    file: &ElfFile<'_>,
    first: u64,
    out: &mut [Relocation],
) -> Result<u64, AnyError>
    ensures { Fills (dynamic_relocation_at file.now) first out.old result out.new }
{
    let view = DynamicView::read(file)?;
    let all = DynamicRelocations {
        tables: view.relocation_tables(file)?,
        addends: is_rela(view.entry(DT_PLTREL)),
    };
    fill_in_order(all, first, out)
}

/// The relocations of the dynamic segment from index `first` on: those of the table DT_RELA, then those
/// of DT_REL, then those of DT_JMPREL, each in order. As many as fit in `out`, or all; `count` is set
/// to their number, and the rest of `out` is unchanged. A record that lies in two tables is there
/// twice; packed relocations are those of `xmas_elf_dynamic_packed_relocations`. It needs no section
/// headers, and reads the relocations before `first` anew.
///
/// Errors: those of `DynamicView::read` and `DynamicView::relocation_tables`; `NoRecord` if there are
/// no more than `first`; `out` and `count` are then unchanged.
#[unsafe(no_mangle)]
pub extern "C" fn xmas_elf_dynamic_relocations(
    input: &[u8],
    header: &Parsed,
    first: u64,
    out: &mut [Relocation],
    count: &mut u64,
) -> u32
    ensures { Stores (dynamic_relocation_at (file_of input.entry header.now))
        first out.old out.new count.old result count.new }
{
    give(fill_from_segment(&header.file(input), first, out), count)
}
