//! The program header table, prepared for repeated access (gABI, "Program Header").

ghost use Rattle.std.specs.Prelude.{◌≡◌, ◌+◌, ◌^◌, ◌<◌, ◌≤◌, ◌∷◌, []};
ghost use Rattle.std.specs.Prelude.{drop, length, slice_get, MatchOption, ℕ};
ghost use Rattle.std.specs.Iterator.{YieldsFirst, item_count};
ghost use Rattle.elf_base.specs.FileHeader.{file_class, file_order, header_fields};
ghost use Rattle.xmas_elf.specs.SectionHeader.{program_count_of};
ghost use Rattle.xmas_elf.specs.HeaderTable.{IsLaidOut, IsLongest};
ghost use Rattle.xmas_elf.specs.ProgramHeader.{HasProgram, program_at_index, program_at_place};
ghost use Rattle.xmas_elf.specs.ProgramHeader.{program_header_size, program_list, program_of};

use crate::ElfFile;
use crate::bytes::{Order, Record};
use crate::header::Class::{SixtyFour, ThirtyTwo};
use crate::program::{ProgramHeader, ProgramHeader32, ProgramHeader64, program_at_place};
use crate::ranges::entries_within;

/// The program headers of a file, for repeated access:
/// their place, class and byte order are determined once.
///
/// The table borrows the file, and each call decodes the header that it returns.
#[derive(Clone, Copy, Debug)]
pub struct ProgramTable<'b, 'a> {
    pub(crate) file: &'b ElfFile<'a>,
    pub(crate) offset: usize,
    pub(crate) entry_size: usize,
    pub(crate) len: usize,
    pub(crate) class: u8,
    pub(crate) order: Order,
    ghost counted: { len ≡ length (program_list file.now) },
    ghost laid: { IsLaidOut (program_of file.now)
        (λ place. program_at_place class order place file.now.input.now) offset entry_size
        (program_header_size class) len (length file.now.input.now) },
}

impl<'a> ElfFile<'a> {
    ghost use Rattle.xmas_elf.specs.ProgramTable.{program_table_file, table_program_headers};

    /// The program headers for repeated access: those of `program_iter`.
    #[inline(always)]
    pub fn program_table(&self) -> ProgramTable<'_, 'a>
        ensures file { program_table_file result ≡ self.now }
        ensures longest { IsLongest (program_of self.now) (program_count_of self.now)
            (table_program_headers result) }
    {
        ProgramTable {
            file: self,
            offset: self.header.pt2.ph_offset() as usize,
            entry_size: usize::from(self.header.pt2.ph_entry_size()),
            len: whole_program_headers(self),
            class: self.header.pt1.class.raw(),
            order: self.byte_order(),
        }
    }
}

// The number of program headers that lie within the input and are large enough, from index 0 on.
#[inline(always)]
fn whole_program_headers(file: &ElfFile<'_>) -> usize
    ensures few { result ≤ program_count_of file.now }
    ensures each { (i : ℕ) → i < result → HasProgram file.now i }
    ensures most { result < program_count_of file.now → ¬ HasProgram file.now result }
{
    let offset = file.header.pt2.ph_offset();
    let entry_size = file.header.pt2.ph_entry_size();
    let least = match file.header.pt1.class() {
        ThirtyTwo => ProgramHeader32::SIZE,
        SixtyFour => ProgramHeader64::SIZE,
        _ => return 0,
    };
    if offset == 0 || usize::from(entry_size) < least {
        return 0;
    }
    let count = u64::from(file.program_count());
    entries_within(file.input, offset, entry_size, count)
}

impl<'b, 'a> ProgramTable<'b, 'a> {
    ghost use Rattle.xmas_elf.specs.ProgramTable.{program_table_file, table_program_headers};
    ghost use Rattle.xmas_elf.specs.ProgramTable.{table_program_headers_rest};

    /// The number of program headers.
    #[inline(always)]
    pub fn len(&self) -> usize
        ensures { result ≡ length (table_program_headers self.now) }
    {
        self.len
    }

    /// The program header at `index`, or `None` if `index` is `len` or more.
    #[inline(always)]
    pub fn get(&self, index: usize) -> Option<ProgramHeader>
        ensures item { result ≡ slice_get (table_program_headers self.now) index }
        ensures value { MatchOption result (length (table_program_headers self.now) ≤ index)
            (λ program. (index < length (table_program_headers self.now)) × (program
            ≡ program_at_index (program_table_file self.now).input.now
            (program_table_file self.now).header index)) }
    {
        if index >= self.len {
            return None;
        }
        let place = self.offset + index * self.entry_size;
        Some(program_at_place(self.file.input, place, self.class, self.order))
    }

    // The program header at `index`, and the next index.
    #[inline(always)]
    fn step(&self, index: usize) -> Option<(ProgramHeader, usize)>
        ensures { MatchOption result (drop index (table_program_headers self.now) ≡ [])
            (λ step. drop index (table_program_headers self.now)
            ≡ step.0 ∷ drop step.1 (table_program_headers self.now)) }
    {
        let program = self.get(index)?;
        // This tells the proof that the sum is a number of 64 bits.
        prove!(index < self.len());
        Some((program, index + 1))
    }

    /// An iterator over the program headers, in order.
    #[inline(always)]
    pub fn iter(&self) -> ProgramTableIter<'b, 'a>
        ensures all { table_program_headers_rest result ≡ table_program_headers self.now }
        ensures fits { length (table_program_headers_rest result) < 2 ^ 64 }
    {
        // This tells the proof of `fits` that the length is a number of 64 bits.
        let _count = self.len();
        ProgramTableIter {
            table: *self,
            next_index: 0,
        }
    }
}

/// An iterator over the program headers of a table, in order.
#[derive(Clone, Debug, Drop)]
pub struct ProgramTableIter<'b, 'a> {
    table: ProgramTable<'b, 'a>,
    next_index: usize,
}

impl Iterator for ProgramTableIter<'_, '_> {
    ghost use Rattle.xmas_elf.specs.ProgramTable.{table_program_headers_rest};

    type Item = ProgramHeader;

    ghost next_gives = { YieldsFirst table_program_headers_rest };

    ghost remaining = { item_count table_program_headers_rest };

    #[inline(always)]
    fn next(&mut self) -> Option<ProgramHeader> {
        let (program, next_index) = self.table.step(self.next_index)?;
        self.next_index = next_index;
        Some(program)
    }
}
