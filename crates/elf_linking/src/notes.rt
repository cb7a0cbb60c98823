//! Notes, one after the other (gABI, "Note Section").

ghost use Rattle.std.specs.Prelude.{◌≡◌, ◌+◌, ◌^◌, ◌<◌, ◌≤◌, IfErr, IfOk, MatchOption};
ghost use Rattle.std.specs.Prelude.{MatchResult, length, Err, Ok};
ghost use Rattle.elf_base.specs.FileHeader.{file_order};
ghost use Rattle.elf_base.specs.Lent.{Answers, IfPart};
ghost use Rattle.elf_base.specs.Text.{IsText, TextError, text_of};
ghost use Rattle.xmas_elf.specs.Place.{LiesAsSection, LiesAsSegment};
ghost use Rattle.xmas_elf.specs.ProgramHeader.{IsSegmentData, program_fields, segment_data_of};
ghost use Rattle.xmas_elf.specs.SectionData.{section_data_of};
ghost use Rattle.xmas_elf.specs.SectionHeader.{section_fields};
ghost use Rattle.elf_linking.specs.Notes.{AreNotes, BeginsWithNote, after_note, first_note};
ghost use Rattle.elf_linking.specs.Notes.{next_step, note_item, note_parts, notes_align};
ghost use Rattle.elf_linking.specs.Notes.{notes_bytes, notes_left, notes_order};

use crate::LinkError;
use elf_base::ElfError;
use elf_base::bytes::{Order, read_u32, text_at};
use xmas_elf::ElfFile;
pub use xmas_elf::NT_GNU_BUILD_ID;
use xmas_elf::program::ProgramHeader;
use xmas_elf::sections::SectionHeader;

// The size of the three words at the start of a note, in bytes.
const HEADER_SIZE: usize = 12;

/// A note of either class.
#[derive(Clone, Copy, Debug)]
pub struct Note<'a> {
    type_: u32,
    name: &'a [u8],
    desc: &'a [u8],
}

impl<'a> Note<'a> {
    /// The type of the note, whose meaning depends on the name.
    pub fn type_(&self) -> u32
        ensures { result ≡ (note_parts self.now).type_ }
    {
        self.type_
    }

    /// The bytes of the name, as long as the note says, including the zero byte at its end.
    pub fn name_bytes(&self) -> &'a [u8]
        ensures { result ≡ (note_parts self.now).name }
    {
        self.name
    }

    /// The name as a text, without its zero byte; the errors are `TextEnd` and `TextUtf8`, as in
    /// `text_at`.
    ///
    /// An empty name has no zero byte either, so its error is `TextEnd`.
    pub fn name(&self) -> Result<&'a str, ElfError>
        ensures text { IfPart (IsText (note_parts self.now).name.now 0) result }
        ensures failed { IfErr result (TextError (note_parts self.now).name.now 0) }
        ensures exact { Answers (text_of (note_parts self.now).name.now 0) result }
    {
        text_at(self.name, 0)
    }

    /// The description.
    pub fn desc(&self) -> &'a [u8]
        ensures { result ≡ (note_parts self.now).desc }
    {
        self.desc
    }
}

/// An iterator over the notes of a section or a segment.
///
/// The padding after the last note may be missing. If the rest of the bytes does not contain a
/// whole note, the last item is the error `ShortNote`.
#[derive(Clone, Debug, Drop)]
pub struct Notes<'a> {
    rest: &'a [u8],
    order: Order,
    align: u64,
}

impl<'a> Notes<'a> {
    /// The notes in `bytes`, with the alignment of their section or segment: if it is 8, names and
    /// descriptions are padded to multiples of 8 bytes, otherwise of 4.
    #[tactic(auto, using(crate::proofs::NoteItems::notes_are, crate::proofs::NoteItems::notes_fit))]
    pub fn new(bytes: &'a [u8], order: Order, align: u64) -> Notes<'a>
        ensures items { AreNotes align order bytes.entry (notes_left result) }
        ensures bytes { notes_bytes result ≡ bytes.entry }
        ensures order { notes_order result ≡ order }
        ensures align { notes_align result ≡ align }
        ensures fits { length (notes_left result) ≤ length bytes.now }
    {
        Notes {
            rest: bytes,
            order,
            align,
        }
    }
}

// `place`, rounded up to a multiple of 8 or 4 bytes.
#[tactic(auto, unfolding(crate::specs::Notes::next_step), using(crate::proofs::NoteItems::next_step_above, crate::proofs::NoteItems::next_step_near))]
fn next_step(align: u64, place: u64) -> u64
    requires { place < 2 ^ 63 }
    ensures value { result ≡ next_step align place }
    ensures above { place ≤ result }
    ensures near { result < place + 8 }
{
    match align {
        8 => (place + 7) / 8 * 8,
        _ => (place + 3) / 4 * 4,
    }
}

// The note at the start of `bytes`, and the bytes from the next note on.
fn split_first<'a>(bytes: &'a [u8], order: Order, align: u64) -> Option<(Note<'a>, &'a [u8])>
    ensures { MatchOption result
        (¬ BeginsWithNote align order bytes.now)
        (λ split. BeginsWithNote align order bytes.now
        × (note_parts split.0 ≡ first_note align order bytes.entry)
        × (split.1 ≡ after_note align order bytes.entry)) }
{
    if bytes.len() < HEADER_SIZE {
        return None;
    }
    let name_end = 12 + u64::from(read_u32(bytes, 0, order));
    let desc_start = next_step(align, name_end);
    let desc_end = desc_start + u64::from(read_u32(bytes, 4, order));
    let len = bytes.len() as u64;
    if desc_end > len {
        return None;
    }
    let note = Note {
        type_: read_u32(bytes, 8, order),
        name: &bytes[HEADER_SIZE..name_end as usize],
        desc: &bytes[desc_start as usize..desc_end as usize],
    };
    let next = next_step(align, desc_end).min(len);
    Some((note, &bytes[next as usize..]))
}

impl<'a> Iterator for Notes<'a> {
    ghost use Rattle.std.specs.Iterator.{YieldsFirstBy, item_count};

    type Item = Result<Note<'a>, LinkError>;

    ghost next_gives = { YieldsFirstBy note_item notes_left };

    ghost remaining = { item_count notes_left };

    #[tactic(auto, using(crate::proofs::NoteItems::notes_end, crate::proofs::NoteItems::notes_first, crate::proofs::NoteItems::notes_short))]
    fn next(&mut self) -> Option<Result<Note<'a>, LinkError>> {
        if self.rest.is_empty() {
            return None;
        }
        match split_first(self.rest, self.order, self.align) {
            Some((note, rest)) => {
                self.rest = rest;
                Some(Ok(note))
            }
            None => {
                self.rest = &[];
                Some(Err(LinkError::ShortNote))
            }
        }
    }
}

/// The notes of a section of any type, in the byte order of the file and with the alignment of the
/// section.
///
/// The errors are those of `SectionHeader::raw_data`.
pub fn section_notes<'a>(
    file: &ElfFile<'a>,
    section: &SectionHeader,
) -> Result<Notes<'a>, LinkError>
    ensures bytes { MatchResult result
        (λ notes. section_data_of file.now section.now ≡ Ok (notes_bytes notes).now)
        (λ error. (why : ElfError) × (section_data_of file.now section.now ≡ Err why)
        × (error ≡ LinkError.Elf why)) }
    ensures place { IfOk result (λ notes. LiesAsSection file.now section.now (notes_bytes notes)) }
    ensures read { IfOk result (λ notes. (notes_order notes ≡ file_order file.now.header)
        × (notes_align notes ≡ (section_fields section.now).align)) }
    ensures items { IfOk result (λ notes. AreNotes (section_fields section.now).align
        (file_order file.now.header) (notes_bytes notes) (notes_left notes)) }
    ensures fits { IfOk result (λ notes. length (notes_left notes) < 2 ^ 64) }
{
    let bytes = section.raw_data(file)?;
    let order = file.byte_order();
    prove!(bytes.len() <= usize::MAX);
    Ok(Notes::new(bytes, order, section.align()))
}

/// The notes of a segment of any type, in the byte order of the file and with the alignment of the
/// segment.
///
/// The errors are those of `ProgramHeader::raw_data`.
pub fn segment_notes<'a>(
    file: &ElfFile<'a>,
    program: &ProgramHeader,
) -> Result<Notes<'a>, LinkError>
    ensures bytes { MatchResult result
        (λ notes. segment_data_of file.now (program_fields program.now)
        ≡ Ok (notes_bytes notes).now)
        (λ error. (why : ElfError)
        × (segment_data_of file.now (program_fields program.now) ≡ Err why)
        × (error ≡ LinkError.Elf why)) }
    ensures place { IfOk result (λ notes.
        LiesAsSegment file.now (program_fields program.now) (notes_bytes notes)) }
    ensures range { IfOk result (λ notes.
        IsSegmentData file.now (program_fields program.now) (notes_bytes notes).now) }
    ensures read { IfOk result (λ notes. (notes_order notes ≡ file_order file.now.header)
        × (notes_align notes ≡ (program_fields program.now).align)) }
    ensures items { IfOk result (λ notes. AreNotes (program_fields program.now).align
        (file_order file.now.header) (notes_bytes notes) (notes_left notes)) }
    ensures fits { IfOk result (λ notes. length (notes_left notes) < 2 ^ 64) }
{
    let bytes = program.raw_data(file)?;
    let order = file.byte_order();
    prove!(bytes.len() <= usize::MAX);
    Ok(Notes::new(bytes, order, program.align()))
}
