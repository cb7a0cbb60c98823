//! The segments of a file (gABI, "Program Header").

ghost use Rattle.std.specs.Prelude.{◌≡◌, Ok};
ghost use Rattle.elf_base.specs.FirstError.{and_then};
ghost use Rattle.elf_c.specs.Batch.{Stores};
ghost use Rattle.elf_c.specs.Parsed.{file_of};
ghost use Rattle.elf_c.specs.Records.{LiesIn, record_in, segment_data_range, segment_record};
ghost use Rattle.elf_c.specs.Status.{Gives};
ghost use Rattle.elf_records.specs.ProgramNumbers.{ph_type_number};
ghost use Rattle.xmas_elf.specs.Checks.{program_check};
ghost use Rattle.xmas_elf.specs.ProgramHeader.{program_fields, program_list, program_of};
ghost use Rattle.xmas_elf.specs.ProgramTable.{table_program_headers};

use crate::batch::{Records, fill};
use crate::file::Parsed;
use crate::names::Range;
use crate::status::{AnyError, give};
use elf_base::ElfError;
use xmas_elf::ElfFile;
use xmas_elf::program::{ProgramHeader, ProgramTable, sanity_check};

/// A program header, as numbers.
#[repr(C)]
#[derive(Clone, Copy, Debug)]
pub struct Segment {
    /// The file offset of the segment in bytes.
    pub offset: u64,
    /// The virtual address of the segment.
    pub virtual_addr: u64,
    /// The physical address of the segment, where that is relevant.
    pub physical_addr: u64,
    /// The size of the segment in the file, in bytes.
    pub file_size: u64,
    /// The size of the segment in memory, in bytes.
    pub mem_size: u64,
    /// The alignment of the segment in memory and in the file, in bytes; 0 and 1 mean none.
    pub align: u64,
    /// The type of the segment.
    pub type_: u32,
    /// The permissions of the segment.
    pub flags: u32,
}

// The type of the segment as a number, of either class.
#[inline(always)]
fn type_number(program: &ProgramHeader) -> u32
    ensures { result ≡ ph_type_number (program_fields program.now).type_ }
{
    match program {
        ProgramHeader::Ph32(header) => header.type_.raw(),
        ProgramHeader::Ph64(header) => header.type_.raw(),
    }
}

impl Segment {
    // The numbers of a program header.
    #[inline(always)]
    fn of(program: &ProgramHeader) -> Segment
        ensures { result ≡ segment_record (program_fields program.now) }
    {
        Segment {
            offset: program.offset(),
            virtual_addr: program.virtual_addr(),
            physical_addr: program.physical_addr(),
            file_size: program.file_size(),
            mem_size: program.mem_size(),
            align: program.align(),
            type_: type_number(program),
            flags: program.flags().raw(),
        }
    }
}

// The numbers of the program header at an index.
#[inline(always)]
fn segment_at(file: &ElfFile<'_>, index: u32) -> Result<Segment, ElfError>
    ensures { result ≡ and_then (program_of file.now index)
        (λ program. Ok (segment_record (program_fields program))) }
{
    Ok(Segment::of(&file.program_header_at(index)?))
}

/// The program header at an index; the errors are those of `ElfFile::program_header_at`.
#[unsafe(no_mangle)]
pub extern "C" fn xmas_elf_segment(
    input: &[u8],
    header: &Parsed,
    index: u32,
    out: &mut Segment,
) -> u32
    ensures { Gives (and_then (program_of (file_of input.entry header.now) index)
        (λ program. Ok (segment_record (program_fields program)))) out.old result out.new }
{
    give(segment_at(&header.file(input), index), out)
}

// Checks the program header at an index.
#[inline(always)]
fn check_at(file: &ElfFile<'_>, index: u32) -> Result<(), ElfError>
    ensures { result ≡ and_then (program_of file.now index) (program_check file.now) }
{
    sanity_check(file.program_header_at(index)?, file)
}

/// Checks the program header at an index against the input. The errors are those of
/// `ElfFile::program_header_at` and `program::sanity_check`.
#[unsafe(no_mangle)]
pub extern "C" fn xmas_elf_check_segment(input: &[u8], header: &Parsed, index: u32) -> u32
    ensures { Gives (and_then (program_of (file_of input.entry header.now) index)
        (program_check (file_of input.entry header.now))) tt result tt }
{
    give(check_at(&header.file(input), index), &mut ())
}

impl Records for ProgramTable<'_, '_> {
    type Item = ProgramHeader;

    type Record = Segment;

    ghost items = { table_program_headers };

    ghost record_of = { λ _ program. segment_record (program_fields program) };

    #[inline(always)]
    fn count(&self) -> usize {
        self.len()
    }

    #[inline(always)]
    fn record(&self, index: usize) -> Segment {
        match self.get(index) {
            Some(program) => Segment::of(&program),
            None => unreachable!(),
        }
    }
}

/// The program headers from index `first` on, each as in `xmas_elf_segment`: as many as fit in
/// `out`, or all, up to the number of segments or the first error. `count` is set to their number;
/// the rest of `out` is unchanged.
///
/// Error: `NoRecord` if there is none at `first`;
/// `out` and `count` are then unchanged.
#[unsafe(no_mangle)]
pub extern "C" fn xmas_elf_segments(
    input: &[u8],
    header: &Parsed,
    first: u64,
    out: &mut [Segment],
    count: &mut u64,
) -> u32
    ensures { Stores (record_in (λ program. segment_record (program_fields program))
        (program_list (file_of input.entry header.now)))
        first out.old out.new count.old result count.new }
{
    let file = header.file(input);
    give(fill(file.program_table(), first, out), count)
}

// The range of the data of the segment at an index. For an empty segment it is the empty range at
// 0.
#[tactic(auto, unfolding(xmas_elf::specs::ProgramHeader::segment_data_of))]
#[inline(always)]
fn segment_range_at(file: &ElfFile<'_>, index: u32) -> Result<Range, ElfError>
    ensures { result ≡ and_then (program_of file.now index)
        (λ program. segment_data_range file.now (program_fields program)) }
{
    let program = file.program_header_at(index)?;
    let bytes = program.raw_data(file)?;
    let size = bytes.len() as u64;
    let offset = if size == 0 { 0 } else { program.offset() };
    Ok(Range { offset, size })
}

/// The input range of the data of the segment at an index. The errors are those of
/// `ElfFile::program_header_at` and `ProgramHeader::file_range`.
#[unsafe(no_mangle)]
pub extern "C" fn xmas_elf_segment_data(
    input: &[u8],
    header: &Parsed,
    index: u32,
    out: &mut Range,
) -> u32
    ensures exact { Gives (and_then (program_of (file_of input.entry header.now) index)
        (λ program. segment_data_range (file_of input.entry header.now) (program_fields program)))
        out.old result out.new }
    ensures within { result ≡ 0 → LiesIn input.now out.new }
{
    give(segment_range_at(&header.file(input), index), out)
}
