//! Program headers of both classes: their layout and their fields (gABI, "Program Header":
//! Elf32_Phdr and Elf64_Phdr).

ghost use Rattle.std.specs.Prelude.{◌≡◌, ◌≢◌, ◌↔◌, ◌+◌, ◌≤◌, ◌<◌, [], ◌∷◌};
ghost use Rattle.std.specs.Prelude.{Err, IfOk, IsOk, MatchResult, Ok, drop, is_none, length};
ghost use Rattle.std.specs.Prelude.{nat_lt, not, take, unwrap_or};
ghost use Rattle.std.specs.Option.{ForSome};
ghost use Rattle.std.proofs.Common.{lit<};
ghost use Rattle.elf_base.specs.FileHeader.{file_class, header_fields};
ghost use Rattle.elf_base.specs.Lent.{Answers, IfPart};
ghost use Rattle.elf_base.specs.FirstError.{unless};
ghost use Rattle.xmas_elf.specs.HeaderTable.{is_known_class};
ghost use Rattle.xmas_elf.specs.Place.{LiesAsSegment};
ghost use Rattle.xmas_elf.specs.ProgramHeader.{HasProgramEntry, HasProgramHeader, HasSegmentData};
ghost use Rattle.xmas_elf.specs.ProgramHeader.{IsSegmentData, program_64, program_at_index};
ghost use Rattle.xmas_elf.specs.ProgramHeader.{program_at_place, program_by_u16, program_entry};
ghost use Rattle.xmas_elf.specs.ProgramHeader.{program_fields, program_header_32};
ghost use Rattle.xmas_elf.specs.ProgramHeader.{program_header_64, program_header_size};
ghost use Rattle.xmas_elf.specs.ProgramHeader.{program_record_size, segment_data_of, segment_type};

use crate::bytes::{Order, Record};
use crate::header::Class::{SixtyFour, ThirtyTwo};
use crate::header::Header;
use crate::program::{Flags, Type, Type_};
use crate::ranges::{entry_at, range_at};
use crate::{ElfError, ElfFile};
use elf_base::bytes::{read_u32, read_u64};
use elf_base::header::byte_order;

/// A program header of class 32 (gABI, "Program Header", Elf32_Phdr).
#[derive(Clone, Copy, Debug, Default)]
pub struct ProgramHeader32 {
    /// The type of the segment.
    pub type_: Type_,
    /// The file offset of the segment in bytes.
    pub offset: u32,
    /// The virtual address of the segment.
    pub virtual_addr: u32,
    /// The physical address of the segment, where that is relevant.
    pub physical_addr: u32,
    /// The size of the segment in the file, in bytes.
    pub file_size: u32,
    /// The size of the segment in memory, in bytes.
    pub mem_size: u32,
    /// The permissions of the segment.
    pub flags: Flags,
    /// The alignment of the segment in memory and in the file, in bytes; 0 and 1 mean none.
    pub align: u32,
}

/// A program header of class 64 (gABI, "Program Header", Elf64_Phdr).
#[derive(Clone, Copy, Debug, Default)]
pub struct ProgramHeader64 {
    /// The type of the segment.
    pub type_: Type_,
    /// The permissions of the segment.
    pub flags: Flags,
    /// The file offset of the segment in bytes.
    pub offset: u64,
    /// The virtual address of the segment.
    pub virtual_addr: u64,
    /// The physical address of the segment, where that is relevant.
    pub physical_addr: u64,
    /// The size of the segment in the file, in bytes.
    pub file_size: u64,
    /// The size of the segment in memory, in bytes.
    pub mem_size: u64,
    /// The alignment of the segment in memory and in the file, in bytes; 0 and 1 mean none.
    pub align: u64,
}

impl ProgramHeader32 {
    /// The type of the segment, or `InvalidPhType`.
    #[inline(always)]
    pub fn get_type(&self) -> Result<Type, ElfError>
        ensures { result ≡ segment_type (program_64 self.now) }
    {
        self.type_.as_type()
    }

    /// The bytes of the segment in the input, which live as long as the input.
    ///
    /// Errors: `InvalidPhType`; `NullData` for type Null; `DataRange` if the segment extends past
    /// the end of the input. An empty segment is any empty slice, whatever its offset.
    #[inline(always)]
    pub fn raw_data<'a>(&self, file: &ElfFile<'a>) -> Result<&'a [u8], ElfError>
        ensures readable { IsOk result ↔ HasSegmentData file.now (program_64 self.now) }
        ensures range { IfPart (IsSegmentData file.now (program_64 self.now)) result }
        ensures place { IfOk result (LiesAsSegment file.now (program_64 self.now)) }
        ensures exact { Answers (segment_data_of file.now (program_64 self.now)) result }
    {
        self.to_64().raw_data(file)
    }

    // The fields in the record of class 64.
    #[inline(always)]
    pub(crate) fn to_64(&self) -> ProgramHeader64
        ensures { result ≡ program_64 self.now }
    {
        ProgramHeader64 {
            type_: self.type_,
            flags: self.flags,
            offset: u64::from(self.offset),
            virtual_addr: u64::from(self.virtual_addr),
            physical_addr: u64::from(self.physical_addr),
            file_size: u64::from(self.file_size),
            mem_size: u64::from(self.mem_size),
            align: u64::from(self.align),
        }
    }

    // Reads the 32 bytes from `place` on.
    #[inline(always)]
    pub(crate) fn read(bytes: &[u8], place: usize, order: Order) -> ProgramHeader32
        requires { place + 32 ≤ length bytes.now }
        ensures { result ≡ program_header_32 order place bytes.now }
    {
        Self {
            type_: Type_::from_raw(read_u32(bytes, place, order)),
            offset: read_u32(bytes, place + 4, order),
            virtual_addr: read_u32(bytes, place + 8, order),
            physical_addr: read_u32(bytes, place + 12, order),
            file_size: read_u32(bytes, place + 16, order),
            mem_size: read_u32(bytes, place + 20, order),
            flags: Flags(read_u32(bytes, place + 24, order)),
            align: read_u32(bytes, place + 28, order),
        }
    }
}

impl Record for ProgramHeader32 {
    ghost SIZE = { 32 };

    const SIZE: usize = 32;

    ghost value = { λ order bytes. program_header_32 order 0 bytes };

    ghost size_above_zero = { lit< tt };

    fn decode(bytes: &[u8], order: Order) -> ProgramHeader32 {
        Self::read(bytes, 0, order)
    }
}

impl ProgramHeader64 {
    /// The type of the segment, or `InvalidPhType`.
    #[inline(always)]
    pub fn get_type(&self) -> Result<Type, ElfError>
        ensures { result ≡ segment_type self.now }
    {
        self.type_.as_type()
    }

    /// The bytes of the segment in the input, which live as long as the input.
    ///
    /// Errors: `InvalidPhType`; `NullData` for type Null; `DataRange` if the segment extends past
    /// the end of the input. An empty segment is any empty slice, whatever its offset.
    #[tactic(auto, unfolding(crate::specs::ProgramHeader::segment_data_of))]
    #[inline(always)]
    pub fn raw_data<'a>(&self, file: &ElfFile<'a>) -> Result<&'a [u8], ElfError>
        ensures readable { IsOk result ↔ HasSegmentData file.now self.now }
        ensures range { IfPart (IsSegmentData file.now self.now) result }
        ensures place { IfOk result (LiesAsSegment file.now self.now) }
        ensures exact { Answers (segment_data_of file.now self.now) result }
    {
        match self.get_type()? {
            Type::Null => Err(ElfError::NullData),
            _ if self.file_size == 0 => Ok(&[]),
            _ => range_at(file.input, self.offset, self.file_size),
        }
    }

    // Reads the 56 bytes from `place` on.
    #[inline(always)]
    pub(crate) fn read(bytes: &[u8], place: usize, order: Order) -> ProgramHeader64
        requires { place + 56 ≤ length bytes.now }
        ensures { result ≡ program_header_64 order place bytes.now }
    {
        Self {
            type_: Type_::from_raw(read_u32(bytes, place, order)),
            flags: Flags(read_u32(bytes, place + 4, order)),
            offset: read_u64(bytes, place + 8, order),
            virtual_addr: read_u64(bytes, place + 16, order),
            physical_addr: read_u64(bytes, place + 24, order),
            file_size: read_u64(bytes, place + 32, order),
            mem_size: read_u64(bytes, place + 40, order),
            align: read_u64(bytes, place + 48, order),
        }
    }
}

impl Record for ProgramHeader64 {
    ghost SIZE = { 56 };

    const SIZE: usize = 56;

    ghost value = { λ order bytes. program_header_64 order 0 bytes };

    ghost size_above_zero = { lit< tt };

    fn decode(bytes: &[u8], order: Order) -> ProgramHeader64 {
        Self::read(bytes, 0, order)
    }
}

/// A program header of either class (gABI, "Program Header").
#[derive(Clone, Copy, Debug)]
pub enum ProgramHeader {
    /// The 32 bytes of class 32.
    Ph32(ProgramHeader32),
    /// The 56 bytes of class 64.
    Ph64(ProgramHeader64),
}

impl ProgramHeader {
    // The type of the segment, as a number. Unlike that of a section it is private, as in the Rust
    // crate.
    pub(crate) fn type_(&self) -> Type_
        ensures { result ≡ (program_fields self.now).type_ }
    {
        match self {
            Self::Ph32(header) => header.type_,
            Self::Ph64(header) => header.type_,
        }
    }

    /// The permissions of the segment.
    pub fn flags(&self) -> Flags
        ensures { result ≡ (program_fields self.now).flags }
    {
        match self {
            Self::Ph32(header) => header.flags,
            Self::Ph64(header) => header.flags,
        }
    }

    /// The virtual address of the segment.
    pub fn virtual_addr(&self) -> u64
        ensures { result ≡ (program_fields self.now).virtual_addr }
    {
        match self {
            Self::Ph32(header) => u64::from(header.virtual_addr),
            Self::Ph64(header) => header.virtual_addr,
        }
    }

    /// The physical address of the segment, where that is relevant.
    pub fn physical_addr(&self) -> u64
        ensures { result ≡ (program_fields self.now).physical_addr }
    {
        match self {
            Self::Ph32(header) => u64::from(header.physical_addr),
            Self::Ph64(header) => header.physical_addr,
        }
    }

    /// The file offset of the segment in bytes.
    pub fn offset(&self) -> u64
        ensures { result ≡ (program_fields self.now).offset }
    {
        match self {
            Self::Ph32(header) => u64::from(header.offset),
            Self::Ph64(header) => header.offset,
        }
    }

    /// The size of the segment in the file, in bytes.
    pub fn file_size(&self) -> u64
        ensures { result ≡ (program_fields self.now).file_size }
    {
        match self {
            Self::Ph32(header) => u64::from(header.file_size),
            Self::Ph64(header) => header.file_size,
        }
    }

    /// The size of the segment in memory, in bytes.
    pub fn mem_size(&self) -> u64
        ensures { result ≡ (program_fields self.now).mem_size }
    {
        match self {
            Self::Ph32(header) => u64::from(header.mem_size),
            Self::Ph64(header) => header.mem_size,
        }
    }

    /// The alignment of the segment in memory and in the file, in bytes; 0 and 1 mean none.
    pub fn align(&self) -> u64
        ensures { result ≡ (program_fields self.now).align }
    {
        match self {
            Self::Ph32(header) => u64::from(header.align),
            Self::Ph64(header) => header.align,
        }
    }

    /// The type of the segment, or `InvalidPhType`.
    #[inline(always)]
    pub fn get_type(&self) -> Result<Type, ElfError>
        ensures { result ≡ segment_type (program_fields self.now) }
    {
        match self {
            Self::Ph32(header) => header.get_type(),
            Self::Ph64(header) => header.get_type(),
        }
    }

    /// The bytes of the segment in the input, which live as long as the input.
    ///
    /// Errors: `InvalidPhType`; `NullData` for type Null; `DataRange` if the segment extends past
    /// the end of the input. An empty segment is any empty slice, whatever its offset.
    #[inline(always)]
    pub fn raw_data<'a>(&self, file: &ElfFile<'a>) -> Result<&'a [u8], ElfError>
        ensures readable { IsOk result ↔ HasSegmentData file.now (program_fields self.now) }
        ensures range { IfPart (IsSegmentData file.now (program_fields self.now)) result }
        ensures place { IfOk result (LiesAsSegment file.now (program_fields self.now)) }
        ensures exact { Answers (segment_data_of file.now (program_fields self.now)) result }
    {
        match self {
            Self::Ph32(header) => header.raw_data(file),
            Self::Ph64(header) => header.raw_data(file),
        }
    }

    /// The range of the segment in the input: the offset of its first byte, and its length in
    /// bytes.
    ///
    /// The errors are those of `raw_data`, which returns these bytes. Both are 0 for an empty
    /// segment.
    #[tactic(auto, unfolding(crate::specs::ProgramHeader::segment_data_of))]
    pub fn file_range(&self, file: &ElfFile<'_>) -> Result<(usize, usize), ElfError>
        ensures readable { IsOk result ↔ HasSegmentData file.now (program_fields self.now) }
        ensures count { IfOk result (λ range. range.1 ≡ (program_fields self.now).file_size) }
        ensures start { IfOk result (λ range. (program_fields self.now).file_size ≢ 0
            → range.0 ≡ (program_fields self.now).offset) }
        ensures empty { IfOk result (λ range. (program_fields self.now).file_size ≡ 0
            → range.0 ≡ 0) }
        ensures exact { MatchResult result
            (λ range. segment_data_of file.now (program_fields self.now)
            ≡ Ok (take range.1 (drop range.0 file.now.input.now)))
            (λ error. segment_data_of file.now (program_fields self.now) ≡ Err error) }
    {
        let bytes = self.raw_data(file)?;
        if bytes.is_empty() {
            return Ok((0, 0));
        }
        Ok((self.offset() as usize, bytes.len()))
    }

    // The fields in the record of class 64.
    pub(crate) fn record_64(&self) -> ProgramHeader64
        ensures { result ≡ program_fields self.now }
    {
        match self {
            Self::Ph32(header) => header.to_64(),
            Self::Ph64(header) => *header,
        }
    }

    // The size of the record in bytes: 32 or 56.
    pub(crate) fn record_size(&self) -> usize
        ensures { result ≡ program_record_size self.now }
    {
        match self {
            Self::Ph32(_) => ProgramHeader32::SIZE,
            Self::Ph64(_) => ProgramHeader64::SIZE,
        }
    }
}

/// The program header at `index` of the program header table.
///
/// Errors: `NoProgramHeaders` if the index is not below the number of entries, or the offset or the
/// entry size of the table is 0; `UnknownClass` if the class is neither 1 nor 2;
/// `ShortProgramHeader` if the entry extends past the end of the input; `SmallEntry` if entries are
/// smaller than the header of the class.
#[inline(always)]
pub fn parse_program_header(
    input: &[u8],
    header: Header,
    index: u16,
) -> Result<ProgramHeader, ElfError>
    ensures readable { IsOk result ↔ HasProgramHeader input.now header index }
    ensures value { IfOk result (λ program. program ≡ program_at_index input.now header index) }
    ensures exact { result ≡ program_by_u16 input.now header index }
{
    let count = u32::from(header.pt2.ph_count());
    program_entry(input, &header, count, u32::from(index))
}

// The program header at any index below `count`; the errors are those of `parse_program_header`.
#[tactic(auto, unfolding(crate::specs::ProgramHeader::program_entry))]
#[inline(always)]
pub(crate) fn program_entry(
    input: &[u8],
    header: &Header,
    count: u32,
    index: u32,
) -> Result<ProgramHeader, ElfError>
    ensures readable { IsOk result ↔ HasProgramEntry input.now header.now count index }
    ensures value { IfOk result (λ program. program ≡ program_at_index input.now header.now index) }
    ensures exact { result ≡ program_entry input.now header.now count index }
{
    let offset = header.pt2.ph_offset();
    let entry_size = header.pt2.ph_entry_size();
    if index >= count || offset == 0 || entry_size == 0 {
        return Err(ElfError::NoProgramHeaders);
    }
    let place = entry_at(input, offset, entry_size, u64::from(index));
    // The byte order is chosen once for all fields.
    match byte_order(header.pt1.encoding) {
        Order::Little => read_at_place(input, place, header, Order::Little),
        Order::Big => read_at_place(input, place, header, Order::Big),
    }
}

// The program header at `place`, if there is one, in the layout of the class.
#[inline(always)]
fn read_at_place(
    input: &[u8],
    place: Option<usize>,
    header: &Header,
    order: Order,
) -> Result<ProgramHeader, ElfError>
    requires { ForSome place (λ start. start + (header_fields header.now.pt2).ph_entry_size
        ≤ length input.now) }
    ensures { result ≡ unless (
        (not (is_known_class (file_class header.now)), ElfError.UnknownClass)
        ∷ (is_none place, ElfError.ShortProgramHeader)
        ∷ (
          nat_lt (header_fields header.now.pt2).ph_entry_size
              (program_header_size (file_class header.now)),
          ElfError.SmallEntry,
        )
        ∷ []) (program_at_place (file_class header.now) order (unwrap_or place 0) input.now) }
{
    let entry_size = usize::from(header.pt2.ph_entry_size());
    match header.pt1.class() {
        ThirtyTwo => {
            let place = place.ok_or(ElfError::ShortProgramHeader)?;
            if entry_size < ProgramHeader32::SIZE {
                return Err(ElfError::SmallEntry);
            }
            let record = ProgramHeader32::read(input, place, order);
            Ok(ProgramHeader::Ph32(record))
        }
        SixtyFour => {
            let place = place.ok_or(ElfError::ShortProgramHeader)?;
            if entry_size < ProgramHeader64::SIZE {
                return Err(ElfError::SmallEntry);
            }
            let record = ProgramHeader64::read(input, place, order);
            Ok(ProgramHeader::Ph64(record))
        }
        _ => Err(ElfError::UnknownClass),
    }
}

// The program header at `place`, in the layout of class 32 for class 1, otherwise of class 64.
#[inline(always)]
pub(crate) fn program_at_place(input: &[u8], place: usize, class: u8, order: Order) -> ProgramHeader
    requires { place + program_header_size class ≤ length input.now }
    ensures { result ≡ program_at_place class order place input.now }
{
    // The byte order is chosen once for all fields.
    match (class, order) {
        (1, Order::Little) => {
            ProgramHeader::Ph32(ProgramHeader32::read(input, place, Order::Little))
        }
        (1, Order::Big) => ProgramHeader::Ph32(ProgramHeader32::read(input, place, Order::Big)),
        (_, Order::Little) => {
            ProgramHeader::Ph64(ProgramHeader64::read(input, place, Order::Little))
        }
        (_, Order::Big) => ProgramHeader::Ph64(ProgramHeader64::read(input, place, Order::Big)),
    }
}
