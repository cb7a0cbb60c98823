//! Section headers of both classes: their layout and their fields (gABI, "Sections": Elf32_Shdr and
//! Elf64_Shdr).

ghost use Rattle.std.specs.Prelude.{◌≡◌, ◌↔◌, ◌+◌, ◌≤◌, ◌<◌, [], ◌∷◌, Err, IfOk, IfSome, IsOk, IsTrue};
ghost use Rattle.std.specs.Prelude.{MatchResult, Ok, drop, length, nat_lt, not, take};
ghost use Rattle.std.proofs.Common.{lit<};
ghost use Rattle.elf_base.specs.FileHeader.{class_number};
ghost use Rattle.elf_base.specs.Lent.{Answers, IfPart};
ghost use Rattle.elf_base.specs.FirstError.{unless};
ghost use Rattle.elf_base.specs.Text.{lent_text};
ghost use Rattle.elf_records.specs.SectionNumbers.{sh_type_raw};
ghost use Rattle.xmas_elf.specs.HeaderTable.{is_known_class};
ghost use Rattle.xmas_elf.specs.NameTable.{HasName, HasNameBytes, LiesAsName, name_bytes_of};
ghost use Rattle.xmas_elf.specs.NameTable.{name_of, name_table_of};
ghost use Rattle.xmas_elf.specs.Place.{LiesAsSection};
ghost use Rattle.xmas_elf.specs.SectionData.{HasSectionData, IsSectionData, section_data_of};
ghost use Rattle.xmas_elf.specs.SectionData.{stored_range_of};
ghost use Rattle.xmas_elf.specs.SectionHeader.{HasSectionEntry, HasSectionHeader, record_fields};
ghost use Rattle.xmas_elf.specs.SectionHeader.{section_at_index, section_at_place, section_by_u16};
ghost use Rattle.xmas_elf.specs.SectionHeader.{section_entry, section_fields, section_header_32};
ghost use Rattle.xmas_elf.specs.SectionHeader.{section_header_64};
ghost use Rattle.xmas_elf.specs.SectionHeader.{section_header_size, section_type};
ghost use Rattle.xmas_elf.specs.declared.ElfFile.{ElfFile};

use crate::bytes::{Order, Record, is_found_at};
use crate::header::Class::{SixtyFour, ThirtyTwo};
use crate::header::{Class_, Header};
use crate::ranges::{entry_at, is_within, range_at};
use crate::sections::{SHN_LORESERVE, ShType, ShType_};
use crate::{ElfError, ElfFile, P32, P64};
use elf_base::bytes::{read_u32, read_u64};
use elf_base::header::byte_order;

// The types of sections without bytes in the file (gABI, "Sections", sh_type).
const SHT_NULL: u32 = 0;

const SHT_NOBITS: u32 = 8;

/// A section header with numbers of type `P`; `SectionHeader` has its getters (gABI, "Sections").
#[derive(Clone, Copy, Debug)]
pub struct SectionHeader_<P> {
    pub(crate) name: u32,
    pub(crate) type_: ShType_,
    pub(crate) flags: P,
    pub(crate) address: P,
    pub(crate) offset: P,
    pub(crate) size: P,
    pub(crate) link: u32,
    pub(crate) info: u32,
    pub(crate) align: P,
    pub(crate) entry_size: P,
}

impl SectionHeader_<P32> {
    // The fields in the record of class 64.
    #[inline(always)]
    pub(crate) fn to_64(&self) -> SectionHeader_<P64>
        ensures { result ≡ self.now }
    {
        SectionHeader_ {
            name: self.name,
            type_: self.type_,
            flags: u64::from(self.flags),
            address: u64::from(self.address),
            offset: u64::from(self.offset),
            size: u64::from(self.size),
            link: self.link,
            info: self.info,
            align: u64::from(self.align),
            entry_size: u64::from(self.entry_size),
        }
    }

    // Reads the 40 bytes from `place` on.
    #[inline(always)]
    pub(crate) fn read(bytes: &[u8], place: usize, order: Order) -> SectionHeader_<P32>
        requires { place + 40 ≤ length bytes.now }
        ensures { result ≡ section_header_32 order place bytes.now }
    {
        Self {
            name: read_u32(bytes, place, order),
            type_: ShType_::from_raw(read_u32(bytes, place + 4, order)),
            flags: read_u32(bytes, place + 8, order),
            address: read_u32(bytes, place + 12, order),
            offset: read_u32(bytes, place + 16, order),
            size: read_u32(bytes, place + 20, order),
            link: read_u32(bytes, place + 24, order),
            info: read_u32(bytes, place + 28, order),
            align: read_u32(bytes, place + 32, order),
            entry_size: read_u32(bytes, place + 36, order),
        }
    }
}

impl Record for SectionHeader_<P32> {
    ghost SIZE = { 40 };

    const SIZE: usize = 40;

    ghost value = { λ order bytes. section_header_32 order 0 bytes };

    ghost size_above_zero = { lit< tt };

    fn decode(bytes: &[u8], order: Order) -> SectionHeader_<P32> {
        Self::read(bytes, 0, order)
    }
}

impl SectionHeader_<P64> {
    // Reads the 64 bytes from `place` on.
    #[inline(always)]
    pub(crate) fn read(bytes: &[u8], place: usize, order: Order) -> SectionHeader_<P64>
        requires { place + 64 ≤ length bytes.now }
        ensures { result ≡ section_header_64 order place bytes.now }
    {
        Self {
            name: read_u32(bytes, place, order),
            type_: ShType_::from_raw(read_u32(bytes, place + 4, order)),
            flags: read_u64(bytes, place + 8, order),
            address: read_u64(bytes, place + 16, order),
            offset: read_u64(bytes, place + 24, order),
            size: read_u64(bytes, place + 32, order),
            link: read_u32(bytes, place + 40, order),
            info: read_u32(bytes, place + 44, order),
            align: read_u64(bytes, place + 48, order),
            entry_size: read_u64(bytes, place + 56, order),
        }
    }
}

impl Record for SectionHeader_<P64> {
    ghost SIZE = { 64 };

    const SIZE: usize = 64;

    ghost value = { λ order bytes. section_header_64 order 0 bytes };

    ghost size_above_zero = { lit< tt };

    fn decode(bytes: &[u8], order: Order) -> SectionHeader_<P64> {
        Self::read(bytes, 0, order)
    }
}

/// A section header of either class (gABI, "Sections").
#[derive(Clone, Copy, Debug)]
pub enum SectionHeader {
    /// The 40 bytes of class 32.
    Sh32(SectionHeader_<P32>),
    /// The 64 bytes of class 64.
    Sh64(SectionHeader_<P64>),
}

impl SectionHeader {
    /// The offset of the section's name in the name table, in bytes.
    pub fn name(&self) -> u32
        ensures { result ≡ (section_fields self.now).name }
    {
        match self {
            Self::Sh32(header) => header.name,
            Self::Sh64(header) => header.name,
        }
    }

    /// The type of the section, as a number.
    pub fn type_(&self) -> ShType_
        ensures { result ≡ sh_type_raw (section_fields self.now).type_ }
    {
        match self {
            Self::Sh32(header) => header.type_,
            Self::Sh64(header) => header.type_,
        }
    }

    /// The flags of the section, such as `SHF_WRITE`.
    pub fn flags(&self) -> u64
        ensures { result ≡ (section_fields self.now).flags }
    {
        match self {
            Self::Sh32(header) => u64::from(header.flags),
            Self::Sh64(header) => header.flags,
        }
    }

    /// The virtual address of the section, or 0.
    pub fn address(&self) -> u64
        ensures { result ≡ (section_fields self.now).address }
    {
        match self {
            Self::Sh32(header) => u64::from(header.address),
            Self::Sh64(header) => header.address,
        }
    }

    /// The file offset of the section in bytes.
    pub fn offset(&self) -> u64
        ensures { result ≡ (section_fields self.now).offset }
    {
        match self {
            Self::Sh32(header) => u64::from(header.offset),
            Self::Sh64(header) => header.offset,
        }
    }

    /// The size of the section in bytes.
    pub fn size(&self) -> u64
        ensures { result ≡ (section_fields self.now).size }
    {
        match self {
            Self::Sh32(header) => u64::from(header.size),
            Self::Sh64(header) => header.size,
        }
    }

    /// The index of a section that this one links to, for the types that have one.
    pub fn link(&self) -> u32
        ensures { result ≡ (section_fields self.now).link }
    {
        match self {
            Self::Sh32(header) => header.link,
            Self::Sh64(header) => header.link,
        }
    }

    /// Extra information, which depends on the type of the section.
    pub fn info(&self) -> u32
        ensures { result ≡ (section_fields self.now).info }
    {
        match self {
            Self::Sh32(header) => header.info,
            Self::Sh64(header) => header.info,
        }
    }

    /// The alignment of the section's address, in bytes.
    pub fn align(&self) -> u64
        ensures { result ≡ (section_fields self.now).align }
    {
        match self {
            Self::Sh32(header) => u64::from(header.align),
            Self::Sh64(header) => header.align,
        }
    }

    /// The size of an entry of the section in bytes, or 0.
    pub fn entry_size(&self) -> u64
        ensures { result ≡ (section_fields self.now).entry_size }
    {
        match self {
            Self::Sh32(header) => u64::from(header.entry_size),
            Self::Sh64(header) => header.entry_size,
        }
    }

    /// The type of the section, or `InvalidShType`.
    ///
    /// It is the error of `ShType_::as_sh_type`, for example for RELR, the type of `.relr.dyn` in
    /// recent C libraries. The other getters work for such a section.
    #[inline(always)]
    pub fn get_type(&self) -> Result<ShType, ElfError>
        ensures { result ≡ section_type self.now }
    {
        self.type_().as_sh_type()
    }

    /// The name of the section, which lives as long as the input.
    ///
    /// Errors: `InvalidShType`; `NullName` for type Null; those of `ElfFile::get_shstr`. For any
    /// type, even RELR or Null, `file.get_shstr(section.name())` returns the name.
    #[tactic(auto, unfolding(crate::specs::NameTable::name_of))]
    #[inline(always)]
    pub fn get_name<'a>(&self, file: &ElfFile<'a>) -> Result<&'a str, ElfError>
        ensures name { IfPart (HasName file.now self.now) result }
        ensures exact { Answers (name_of file.now self.now) result }
    {
        match self.get_type()? {
            ShType::Null => Err(ElfError::NullName),
            _ => file.get_shstr(self.name()),
        }
    }

    /// The bytes of the section's name, whether or not they are UTF-8: the text of `get_name`, where
    /// that is Ok.
    ///
    /// Errors: those of `get_name` except `TextUtf8`.
    #[tactic(auto, unfolding(crate::specs::NameTable::name_bytes_of, crate::specs::NameTable::name_of))]
    #[inline(always)]
    pub fn name_bytes<'a>(&self, file: &ElfFile<'a>) -> Result<&'a [u8], ElfError>
        ensures bytes { IfPart (HasNameBytes file.now self.now) result }
        ensures place { IfOk result (LiesAsName file.now (section_fields self.now).name) }
        ensures as_text { name_of file.now self.now ≡ lent_text result }
        ensures exact { Answers (name_bytes_of file.now self.now) result }
    {
        match self.get_type()? {
            ShType::Null => Err(ElfError::NullName),
            _ => file.get_shstr_bytes(self.name()),
        }
    }

    // Whether the section has this name; `names` is the name table of the file.
    #[inline(always)]
    pub(crate) fn has_name(&self, names: &[u8], name: &str) -> bool
        ensures { (file : ElfFile) → name_table_of file ≡ Ok names.now
            → (IsTrue result ↔ HasName file self.now name.now) }
    {
        // The name is compared first, since it rules out most sections.
        if !is_found_at(names, self.name() as usize, name) {
            return false;
        }
        match self.get_type() {
            Err(_) | Ok(ShType::Null) => false,
            Ok(_) => true,
        }
    }

    /// The bytes of the section in the input, which live as long as the input. For type NoBits
    /// these belong to other sections, or to none: such a section has no bytes in the file.
    ///
    /// Errors: `InvalidShType`; `NullData` for type Null; `DataRange` if the section extends past
    /// the end of the input, even if its type is NoBits or it is empty. For a type that is an
    /// error, such as RELR, `offset` and `size` return the range of the section.
    #[tactic(auto, unfolding(crate::specs::SectionData::section_data_of))]
    #[inline(always)]
    pub fn raw_data<'a>(&self, file: &ElfFile<'a>) -> Result<&'a [u8], ElfError>
        ensures readable { IsOk result ↔ HasSectionData file.now self.now }
        ensures range { IfPart (IsSectionData file.now self.now) result }
        ensures place { IfOk result (LiesAsSection file.now self.now) }
        ensures exact { Answers (section_data_of file.now self.now) result }
    {
        match self.get_type()? {
            ShType::Null => Err(ElfError::NullData),
            _ => range_at(file.input, self.offset(), self.size()),
        }
    }

    /// The range of the section in the input: the offset of its first byte, and its length in
    /// bytes. The errors are those of `raw_data`, which returns these bytes.
    #[tactic(auto, unfolding(crate::specs::SectionData::section_data_of))]
    pub fn file_range(&self, file: &ElfFile<'_>) -> Result<(usize, usize), ElfError>
        ensures readable { IsOk result ↔ HasSectionData file.now self.now }
        ensures range { IfOk result (λ range. (range.0 ≡ (section_fields self.now).offset)
            × (range.1 ≡ (section_fields self.now).size)) }
        ensures exact { MatchResult result
            (λ range. section_data_of file.now self.now
            ≡ Ok (take range.1 (drop range.0 file.now.input.now)))
            (λ error. section_data_of file.now self.now ≡ Err error) }
    {
        let bytes = self.raw_data(file)?;
        Ok((self.offset() as usize, bytes.len()))
    }

    /// The range of the bytes that the file stores for the section: the offset of the first, and
    /// their number; `None` for the types Null and NoBits, which have no bytes in the file. All
    /// other types have a range, RELR and unknown ones too.
    ///
    /// Error: `DataRange` if the range extends past the end of the input.
    pub fn stored_range(&self, file: &ElfFile<'_>) -> Result<Option<(usize, usize)>, ElfError>
        ensures within { IfOk result (λ found. IfSome found
            (λ range. range.0 + range.1 ≤ length file.now.input.now)) }
        ensures exact { result ≡ stored_range_of file.now self.now }
    {
        if matches!(self.type_().raw(), SHT_NULL | SHT_NOBITS) {
            return Ok(None);
        }
        if !is_within(file.input, self.offset(), self.size()) {
            return Err(ElfError::DataRange);
        }
        Ok(Some((self.offset() as usize, self.size() as usize)))
    }

    // The fields in the record of class 64.
    pub(crate) fn record_64(&self) -> SectionHeader_<P64>
        ensures { record_fields result ≡ section_fields self.now }
    {
        match self {
            Self::Sh32(header) => header.to_64(),
            Self::Sh64(header) => *header,
        }
    }
}

/// The section header at `index` of the section header table.
///
/// The index is not compared with the number of sections. Errors: `ReservedIndex` for 0xff00 or
/// more; `ShortSectionHeader` if the entry extends past the end of the input; `UnknownClass` if the
/// class is neither 1 nor 2; `SmallEntry` if entries are smaller than the header of the class.
#[tactic(auto, unfolding(crate::specs::SectionHeader::section_by_u16))]
#[inline(always)]
pub fn parse_section_header(
    input: &[u8],
    header: Header,
    index: u16,
) -> Result<SectionHeader, ElfError>
    ensures readable { IsOk result ↔ HasSectionHeader input.now header index }
    ensures value { IfOk result (λ section. section ≡ section_at_index input.now header index) }
    ensures exact { result ≡ section_by_u16 input.now header index }
{
    if index >= SHN_LORESERVE {
        return Err(ElfError::ReservedIndex);
    }
    section_entry(input, &header, u64::from(index))
}

// The section header at any index; the errors are those of `parse_section_header` except
// `ReservedIndex`.
#[tactic(auto, unfolding(crate::specs::SectionHeader::section_entry))]
#[inline(always)]
pub(crate) fn section_entry(
    input: &[u8],
    header: &Header,
    index: u64,
) -> Result<SectionHeader, ElfError>
    ensures readable { IsOk result ↔ HasSectionEntry input.now header.now index }
    ensures value { IfOk result (λ section. section ≡ section_at_index input.now header.now index) }
    ensures exact { result ≡ section_entry input.now header.now index }
{
    let entry_size = header.pt2.sh_entry_size();
    let Some(place) = entry_at(input, header.pt2.sh_offset(), entry_size, index) else {
        return Err(ElfError::ShortSectionHeader);
    };
    let class = header.pt1.class;
    // The byte order is chosen once for all fields.
    match byte_order(header.pt1.encoding) {
        Order::Little => read_at_place(input, place, entry_size, class, Order::Little),
        Order::Big => read_at_place(input, place, entry_size, class, Order::Big),
    }
}

// The section header at `place`, in the layout of the class, if an entry has room for it:
// `UnknownClass` if the class is neither 1 nor 2, `SmallEntry` if the entry is smaller.
#[inline(always)]
pub(crate) fn read_at_place(
    input: &[u8],
    place: usize,
    entry_size: u16,
    class: Class_,
    order: Order,
) -> Result<SectionHeader, ElfError>
    requires { place + entry_size ≤ length input.now }
    ensures { result ≡ unless (
        (not (is_known_class (class_number class)), ElfError.UnknownClass)
        ∷ (nat_lt entry_size (section_header_size (class_number class)), ElfError.SmallEntry)
        ∷ []) (section_at_place (class_number class) order place input.now) }
{
    let entry_size = usize::from(entry_size);
    match class.as_class() {
        ThirtyTwo => {
            if entry_size < SectionHeader_::<P32>::SIZE {
                return Err(ElfError::SmallEntry);
            }
            let record = SectionHeader_::<P32>::read(input, place, order);
            Ok(SectionHeader::Sh32(record))
        }
        SixtyFour => {
            if entry_size < SectionHeader_::<P64>::SIZE {
                return Err(ElfError::SmallEntry);
            }
            let record = SectionHeader_::<P64>::read(input, place, order);
            Ok(SectionHeader::Sh64(record))
        }
        _ => Err(ElfError::UnknownClass),
    }
}

// The section header at `place`, in the layout of class 32 for class 1, otherwise of class 64.
#[inline(always)]
pub(crate) fn section_at_place(input: &[u8], place: usize, class: u8, order: Order) -> SectionHeader
    requires { place + section_header_size class ≤ length input.now }
    ensures { result ≡ section_at_place class order place input.now }
{
    // The byte order is chosen once for all fields.
    match (class, order) {
        (1, Order::Little) => {
            SectionHeader::Sh32(SectionHeader_::<P32>::read(input, place, Order::Little))
        }
        (1, Order::Big) => {
            SectionHeader::Sh32(SectionHeader_::<P32>::read(input, place, Order::Big))
        }
        (_, Order::Little) => {
            SectionHeader::Sh64(SectionHeader_::<P64>::read(input, place, Order::Little))
        }
        (_, Order::Big) => {
            SectionHeader::Sh64(SectionHeader_::<P64>::read(input, place, Order::Big))
        }
    }
}
