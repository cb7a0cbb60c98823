//! The segments of a file, by index and in order (gABI, "Program Header").

ghost use Rattle.std.specs.Prelude.{◌≡◌, ◌↔◌, ◌+◌, ◌*◌, ◌^◌, ◌<◌, ◌≤◌, IfOk, IsOk, length};
ghost use Rattle.std.specs.Iterator.{YieldsFirst, item_count};
ghost use Rattle.xmas_elf.specs.Checks.{program_check};
ghost use Rattle.xmas_elf.specs.SectionHeader.{program_count_of};
ghost use Rattle.xmas_elf.specs.HeaderTable.{IsLongest};
ghost use Rattle.xmas_elf.specs.ProgramHeader.{HasProgram, HasProgramHeader, ProgramStep};
ghost use Rattle.xmas_elf.specs.ProgramHeader.{program_at_index, program_by_u16, program_list};
ghost use Rattle.xmas_elf.specs.ProgramHeader.{program_of, program_rest};

mod content;
mod program_header;
mod table;
mod text;

pub use crate::program::content::SegmentData;
pub use crate::program::program_header::{
    ProgramHeader, ProgramHeader32, ProgramHeader64, parse_program_header,
};
pub(crate) use crate::program::program_header::{program_at_place, program_entry};
pub use crate::program::table::{ProgramTable, ProgramTableIter};
pub(crate) use crate::program::text::SegmentType;
use crate::ranges::ends_inside;
use crate::{ElfError, ElfFile};
pub use elf_records::program::{
    FLAG_MASKOS, FLAG_MASKPROC, FLAG_R, FLAG_W, FLAG_X, Flags, TYPE_GNU_EH_FRAME,
    TYPE_GNU_PROPERTY, TYPE_GNU_RELRO, TYPE_GNU_STACK, TYPE_HIOS, TYPE_HIPROC, TYPE_LOOS,
    TYPE_LOPROC, Type, Type_,
};

impl<'a> ElfFile<'a> {
    /// The program header at `index`; the errors are those of `program::parse_program_header`.
    #[inline(always)]
    pub fn program_header(&self, index: u16) -> Result<ProgramHeader, ElfError>
        ensures readable { IsOk result ↔ HasProgramHeader self.now.input.now self.now.header index }
        ensures value { IfOk result (λ program. program
            ≡ program_at_index self.now.input.now self.now.header index) }
        ensures exact { result ≡ program_by_u16 self.now.input.now self.now.header index }
    {
        parse_program_header(self.input, self.header, index)
    }

    /// The program header at `index`, which may be any below `program_count`.
    ///
    /// Errors: `NoProgramHeaders`, `UnknownClass`, `ShortProgramHeader` and `SmallEntry`, under the
    /// conditions of `program::parse_program_header`.
    #[inline(always)]
    pub fn program_header_at(&self, index: u32) -> Result<ProgramHeader, ElfError>
        ensures readable { IsOk result ↔ HasProgram self.now index }
        ensures value { IfOk result (λ program. program
            ≡ program_at_index self.now.input.now self.now.header index) }
        ensures exact { result ≡ program_of self.now index }
    {
        program_entry(self.input, &self.header, self.program_count(), index)
    }

    /// An iterator over the program headers, from index 0 on.
    ///
    /// It ends before the first header that can't be read. To notice that, compare
    /// `program_iter().count()` with `program_count()`.
    pub fn program_iter(&self) -> ProgramIter<'_, 'a>
        ensures file { result.file.now ≡ self.now }
        ensures first { result.next_index ≡ 0 }
        ensures longest { IsLongest (program_of self.now) (program_count_of self.now)
            (program_rest result) }
        ensures all { program_rest result ≡ program_list self.now }
        ensures room { length (program_rest result) * 32 ≤ length self.now.input.now }
        ensures fits { length (program_rest result) < 2 ^ 59 }
    {
        // This tells the proof of `fits` that the length is a number of 64 bits.
        prove!(self.input.len() <= usize::MAX);
        ProgramIter {
            file: self,
            next_index: 0,
        }
    }
}

/// An iterator over the program headers of a file, up to their number or the first error.
#[derive(Clone, Debug, Drop)]
pub struct ProgramIter<'b, 'a> {
    /// The file with the segments.
    pub file: &'b ElfFile<'a>,
    /// The index of the next program header.
    pub next_index: u32,
}

impl ProgramIter<'_, '_> {
    /// Returns the program header at the next index, and advances the index. At the end it returns
    /// `None` and keeps the index, so that it returns only `None` from then on.
    ///
    /// It is `Iterator::next` with a contract for the index.
    #[inline(always)]
    pub fn next(&mut self) -> Option<ProgramHeader>
        ensures { ProgramStep self.old result self.new }
    {
        if self.next_index >= self.file.program_count() {
            return None;
        }
        let program = self.file.program_header_at(self.next_index).ok()?;
        self.next_index += 1;
        Some(program)
    }
}

impl Iterator for ProgramIter<'_, '_> {
    type Item = ProgramHeader;

    ghost next_gives = { YieldsFirst program_rest };

    ghost remaining = { item_count program_rest };

    #[inline(always)]
    fn next(&mut self) -> Option<ProgramHeader> {
        ProgramIter::next(self)
    }
}

/// Checks a program header against a file.
///
/// The error is the first that applies: `PhSizeMismatch` if the table's entry size is not that of
/// the header; `EntryPointRange` if the segment does not end before the end of the input (even if
/// it ends there, as in the Rust crate); `InvalidPhType`; `ShLibUsed` for type ShLib; `BadAlign` if
/// address and offset differ modulo an alignment above 1.
#[tactic(auto, unfolding(crate::specs::Checks::program_check))]
#[inline(always)]
pub fn sanity_check(program: ProgramHeader, file: &ElfFile<'_>) -> Result<(), ElfError>
    ensures { result ≡ program_check file.now program }
{
    if usize::from(file.header.pt2.ph_entry_size()) != program.record_size() {
        return Err(ElfError::PhSizeMismatch);
    }
    if !ends_inside(file.input, program.offset(), program.file_size()) {
        return Err(ElfError::EntryPointRange);
    }
    let Ok(kind) = program.get_type() else {
        return Err(ElfError::InvalidPhType);
    };
    if kind == Type::ShLib {
        return Err(ElfError::ShLibUsed);
    }
    let align = program.align();
    if align > 1 && program.virtual_addr() % align != program.offset() % align {
        return Err(ElfError::BadAlign);
    }
    Ok(())
}
