//! The contents of a segment, by its type (gABI, "Program Header").

ghost use Rattle.std.specs.Prelude.{◌≡◌, ◌≢◌, ◌↔◌, Ok, Err, IfOk, IsOkAnd, MatchResult};
ghost use Rattle.elf_base.specs.FileHeader.{file_class, file_order};
ghost use Rattle.xmas_elf.specs.Content.{IsReadFrom};
ghost use Rattle.xmas_elf.specs.Place.{PartLies, segment_part};
ghost use Rattle.xmas_elf.specs.ProgramHeader.{IsSegmentData, program_64, program_fields};

use crate::bytes::Table;
use crate::dynamic::Dynamic;
use crate::header::Class::{SixtyFour, ThirtyTwo};
use crate::notes::first_note;
use crate::program::{ProgramHeader, ProgramHeader32, ProgramHeader64, Type};
use crate::sections::NoteHeader;
use crate::{ElfError, ElfFile, P32, P64};

/// The contents of a segment, by its type; variants with 32 or 64 are for that class (gABI,
/// "Program Header", p_type).
#[derive(Debug, Drop)]
pub enum SegmentData<'a> {
    /// `PT_NULL`: no bytes.
    Empty,
    /// `PT_LOAD` and all other types: uninterpreted bytes.
    Undefined(&'a [u8]),
    /// `PT_DYNAMIC`: the dynamic section.
    Dynamic32(Table<'a, Dynamic<P32>>),
    /// `PT_DYNAMIC`: the dynamic section.
    Dynamic64(Table<'a, Dynamic<P64>>),
    /// `PT_NOTE`: the header of the first note, and all bytes after it.
    Note64(NoteHeader, &'a [u8]),
}

impl ProgramHeader {
    ghost use Rattle.xmas_elf.specs.SegmentContent.{segment_content, segment_content_of};
    ghost use Rattle.xmas_elf.specs.Shapes.{HasSegmentShape, Shape, shape};

    /// The contents of the segment, by its type, in the class and byte order of the file. They live
    /// as long as the input.
    ///
    /// `Empty` for type Null. Errors: `InvalidPhType`; `DataRange` if the data is not empty and
    /// extends past the end of the input. For a dynamic section: `UnknownClass` if the class is
    /// neither 1 nor 2, `NotMultiple` if it is not a whole number of entries. For notes: `Note32`
    /// in class 1, `UnknownClass`, and `ShortData` if there are fewer than 12 bytes.
    #[inline(always)]
    pub fn get_data<'a>(&self, file: &ElfFile<'a>) -> Result<SegmentData<'a>, ElfError>
        ensures readable { (wanted : Shape)
            → IsOkAnd result (λ d. shape (segment_content d) ≡ wanted)
            ↔ HasSegmentShape file.now (program_fields self.now) wanted }
        ensures exact { MatchResult result
            (λ d. segment_content_of file.now (program_fields self.now) ≡ Ok (segment_content d))
            (λ e. segment_content_of file.now (program_fields self.now) ≡ Err e) }
        ensures holds { IfOk result (λ d. IsReadFrom (IsSegmentData file.now (program_fields self.now))
            (file_order file.now.header) (segment_content d)) }
        ensures place { IfOk result (λ d. (program_fields self.now).file_size ≢ 0
            → PartLies file.now.input (program_fields self.now).offset (segment_part d)) }
    {
        match self {
            Self::Ph32(header) => header.get_data(file),
            Self::Ph64(header) => header.get_data(file),
        }
    }
}

impl ProgramHeader32 {
    ghost use Rattle.xmas_elf.specs.SegmentContent.{segment_content, segment_content_of};
    ghost use Rattle.xmas_elf.specs.Shapes.{HasSegmentShape, Shape, shape};

    /// The contents of the segment, as in `ProgramHeader::get_data`.
    #[inline(always)]
    pub fn get_data<'a>(&self, file: &ElfFile<'a>) -> Result<SegmentData<'a>, ElfError>
        ensures readable { (wanted : Shape)
            → IsOkAnd result (λ d. shape (segment_content d) ≡ wanted)
            ↔ HasSegmentShape file.now (program_64 self.now) wanted }
        ensures exact { MatchResult result
            (λ d. segment_content_of file.now (program_64 self.now) ≡ Ok (segment_content d))
            (λ e. segment_content_of file.now (program_64 self.now) ≡ Err e) }
        ensures holds { IfOk result (λ d. IsReadFrom (IsSegmentData file.now (program_64 self.now))
            (file_order file.now.header) (segment_content d)) }
        ensures place { IfOk result (λ d. (program_64 self.now).file_size ≢ 0
            → PartLies file.now.input (program_64 self.now).offset (segment_part d)) }
    {
        self.to_64().get_data(file)
    }
}

impl ProgramHeader64 {
    ghost use Rattle.xmas_elf.specs.SegmentContent.{segment_content, segment_content_of};
    ghost use Rattle.xmas_elf.specs.Shapes.{HasSegmentShape, Shape, shape};

    /// The contents of the segment, as in `ProgramHeader::get_data`.
    #[tactic(auto, unfolding(crate::specs::SegmentContent::segment_content_of))]
    #[inline(always)]
    pub fn get_data<'a>(&self, file: &ElfFile<'a>) -> Result<SegmentData<'a>, ElfError>
        ensures readable { (wanted : Shape)
            → IsOkAnd result (λ d. shape (segment_content d) ≡ wanted)
            ↔ HasSegmentShape file.now self.now wanted }
        ensures exact { MatchResult result
            (λ d. segment_content_of file.now self.now ≡ Ok (segment_content d))
            (λ e. segment_content_of file.now self.now ≡ Err e) }
        ensures holds { IfOk result (λ d. IsReadFrom (IsSegmentData file.now self.now)
            (file_order file.now.header) (segment_content d)) }
        ensures place { IfOk result (λ d. self.now.file_size ≢ 0
            → PartLies file.now.input self.now.offset (segment_part d)) }
    {
        match self.get_type()? {
            Type::Null => Ok(SegmentData::Empty),
            kind => SegmentData::read(kind, file, self.raw_data(file)?),
        }
    }
}

impl<'a> SegmentData<'a> {
    ghost use Rattle.xmas_elf.specs.SegmentContent.{content_of_segment, segment_content};

    // The contents in `bytes` of a segment of this type, which is not Null.
    #[inline(always)]
    fn read(kind: Type, file: &ElfFile<'a>, bytes: &'a [u8]) -> Result<SegmentData<'a>, ElfError>
        ensures exact { MatchResult result
            (λ d. content_of_segment kind (file_class file.now.header) (file_order file.now.header)
            bytes.now ≡ Ok (segment_content d))
            (λ e. content_of_segment kind (file_class file.now.header) (file_order file.now.header)
            bytes.now ≡ Err e) }
        ensures place { IfOk result (λ d. PartLies bytes.entry 0 (segment_part d)) }
    {
        let order = file.byte_order();
        match (kind, file.header.pt1.class()) {
            (Type::Dynamic, ThirtyTwo) => Ok(Self::Dynamic32(Table::new(bytes, order)?)),
            (Type::Dynamic, SixtyFour) => Ok(Self::Dynamic64(Table::new(bytes, order)?)),
            (Type::Dynamic, _) => Err(ElfError::UnknownClass),
            (Type::Note, _) => {
                let (header, body) = first_note(file, bytes)?;
                Ok(Self::Note64(header, body))
            }
            _ => Ok(Self::Undefined(bytes)),
        }
    }
}
