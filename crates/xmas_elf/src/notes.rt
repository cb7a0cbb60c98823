//! The first note of a section or a segment (gABI, "Note Section").

ghost use Rattle.std.specs.Prelude.{◌≡◌, ◌↔◌, ◌≤◌, Ok, Err, IfOk, IsOk, MatchResult, drop, length};
ghost use Rattle.std.specs.Prelude.{take};
ghost use Rattle.elf_base.specs.FileHeader.{file_class, file_order};
ghost use Rattle.elf_base.specs.Lent.{LiesAt};
ghost use Rattle.elf_records.specs.Note.{note_header};
ghost use Rattle.xmas_elf.specs.Content.{note_64, note_content};

use crate::bytes::Record;
use crate::header::Class::{SixtyFour, ThirtyTwo};
use crate::sections::NoteHeader;
use crate::{ElfError, ElfFile};

// The header of the note at the start of `bytes`, and all bytes after it.
//
// Errors: `Note32` in class 1, `UnknownClass` if the class is not 2, and `ShortData` if there are
// fewer than 12 bytes.
#[inline(always)]
pub(crate) fn first_note<'a>(
    file: &ElfFile<'_>,
    bytes: &'a [u8],
) -> Result<(NoteHeader, &'a [u8]), ElfError>
    ensures readable { IsOk result
        ↔ ((file_class file.now.header ≡ 2) × (12 ≤ length bytes.now)) }
    ensures header { IfOk result (λ note. note.0
        ≡ note_header (file_order file.now.header) (take 12 bytes.now)) }
    ensures body { IfOk result (λ note. note.1.now ≡ drop 12 bytes.now) }
    ensures place { IfOk result (λ note. LiesAt bytes.entry 12 note.1) }
    ensures exact { MatchResult result
        (λ note. note_content (file_class file.now.header) (file_order file.now.header) bytes.now
        ≡ Ok (note_64 note.0 note.1.now))
        (λ e. note_content (file_class file.now.header) (file_order file.now.header) bytes.now ≡ Err e) }
{
    match file.header.pt1.class() {
        ThirtyTwo => Err(ElfError::Note32),
        SixtyFour => {
            if bytes.len() < NoteHeader::SIZE {
                return Err(ElfError::ShortData);
            }
            let order = file.byte_order();
            let header = NoteHeader::decode(&bytes[..NoteHeader::SIZE], order);
            Ok((header, &bytes[NoteHeader::SIZE..]))
        }
        _ => Err(ElfError::UnknownClass),
    }
}
