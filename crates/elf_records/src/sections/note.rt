//! Notes (gABI, "Note Section").

ghost use Rattle.std.specs.Prelude.{◌≡◌, ◌<◌, ◌+◌, length, IfErr, IfOk};
ghost use Rattle.std.proofs.Common.{lit<};
ghost use Rattle.elf_base.specs.Lent.{Answers, IfPart, LiesAt};
ghost use Rattle.elf_records.specs.Note.{IsNoteDescription, IsNoteName, NoteNameError};
ghost use Rattle.elf_records.specs.Note.{note_desc_of, note_desc_size, note_header, note_name_of};
ghost use Rattle.elf_records.specs.Note.{note_name_size, note_type, rounded_up};

use elf_base::ElfError;
use elf_base::bytes::{Order, Record, read_u32, text_at};

/// The header of a note, stored as its twelve bytes (gABI, "Note Section").
///
/// Its methods take the bytes after the header, up to the end of the section or segment.
#[derive(Clone, Copy, Debug)]
pub struct NoteHeader {
    bytes: [u8; 12],
    order: Order,
}

impl Record for NoteHeader {
    ghost SIZE = { 12 };

    const SIZE: usize = 12;

    ghost value = { note_header };

    ghost size_above_zero = { lit< tt };

    #[inline(always)]
    fn decode(bytes: &[u8], order: Order) -> NoteHeader {
        match <[u8; 12]>::try_from(bytes) {
            Ok(kept) => Self { bytes: kept, order },
            Err(_) => unreachable!(),
        }
    }
}

#[tactic(auto, unfolding(crate::specs::Note::note_name_size, crate::specs::Note::note_desc_size, crate::specs::Note::note_type))]
impl NoteHeader {
    /// The type of the note, whose meaning depends on the note's name.
    #[inline(always)]
    pub fn type_(&self) -> u32
        ensures { result ≡ note_type self.now }
    {
        read_u32(&self.bytes, 8, self.order)
    }

    // The size of the name in bytes, with its zero byte.
    #[inline(always)]
    fn name_size(&self) -> u32
        ensures { result ≡ note_name_size self.now }
    {
        read_u32(&self.bytes, 0, self.order)
    }

    // The size of the description in bytes.
    #[inline(always)]
    fn desc_size(&self) -> u32
        ensures { result ≡ note_desc_size self.now }
    {
        read_u32(&self.bytes, 4, self.order)
    }
}

impl NoteHeader {
    /// The name of the note, without its zero byte: `TextEnd` if no zero byte follows, `TextUtf8`
    /// if the name is not UTF-8, `NoteName` if the name with its zero byte does not have the size
    /// that the header says.
    #[tactic(auto, unfolding(crate::specs::Note::note_name_of))]
    #[inline(always)]
    pub fn name<'a>(&self, body: &'a [u8]) -> Result<&'a str, ElfError>
        ensures text { IfPart (IsNoteName body.now (note_name_size self.now)) result }
        ensures failed { IfErr result (NoteNameError body.now (note_name_size self.now)) }
        ensures exact { Answers (note_name_of body.now (note_name_size self.now)) result }
    {
        let text = text_at(body, 0)?;
        if text.len() as u64 + 1 != u64::from(self.name_size()) {
            return Err(ElfError::NoteName);
        }
        Ok(text)
    }

    /// The description of the note, a slice of `body`; `NoteDesc` if it extends past the end of
    /// `body`.
    #[tactic(auto, unfolding(crate::specs::Note::note_desc_of))]
    #[inline(always)]
    pub fn desc<'a>(&self, body: &'a [u8]) -> Result<&'a [u8], ElfError>
        ensures desc { IfPart (IsNoteDescription body.now (note_name_size self.now)
            (note_desc_size self.now)) result }
        ensures place { IfOk result (LiesAt body.entry (rounded_up (note_name_size self.now))) }
        ensures failed { IfErr result (λ error. (error ≡ ElfError.NoteDesc)
            × (length body.now < rounded_up (note_name_size self.now) + note_desc_size self.now)) }
        ensures exact { Answers (note_desc_of body.now (note_name_size self.now)
            (note_desc_size self.now)) result }
    {
        let start = (u64::from(self.name_size()) + 3) / 4 * 4;
        let end = start + u64::from(self.desc_size());
        if end > body.len() as u64 {
            return Err(ElfError::NoteDesc);
        }
        Ok(&body[start as usize..end as usize])
    }
}
