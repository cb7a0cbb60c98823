//! Build ids (GNU's notes of type 3).

ghost use Rattle.std.specs.Prelude.{◌≡◌, ◌↔◌, IsTrue};
ghost use Rattle.elf_linking.specs.Notes.{note_parts, notes_left};
ghost use Rattle.elf_linking.specs.BuildIds.{IsBuildId, id_among};
ghost use Rattle.elf_linking.specs.BuildIds.{id_by_sections, id_by_segments};
ghost use Rattle.elf_linking.specs.BuildIds.{id_of_section, id_of_segment, is_build_id, is_notes};

use crate::notes::{NT_GNU_BUILD_ID, Note, Notes, section_notes};
use crate::{LinkError, Segment, Segments};
use xmas_elf::ElfFile;
use xmas_elf::sections::SectionHeader;

/// Whether a note is a build id.
pub fn is_build_id(note: &Note<'_>) -> bool
    ensures means { IsTrue result ↔ IsBuildId (note_parts note.now) }
    ensures is { result ≡ is_build_id (note_parts note.now) }
{
    note.type_() == NT_GNU_BUILD_ID && note.name_bytes() == b"GNU\0".as_slice()
}

/// The first build id among notes, of either class; an error if the notes are cut off before it.
#[tactic(auto, using(crate::proofs::BuildIdSearch::search_end, crate::proofs::BuildIdSearch::search_fault, crate::proofs::BuildIdSearch::search_found, crate::proofs::BuildIdSearch::search_other))]
pub fn build_id_among<'a>(notes: Notes<'a>) -> Result<Option<&'a [u8]>, LinkError>
    ensures { result ≡ id_among (notes_left notes.entry) }
{
    for note in notes {
        let note = note?;
        if is_build_id(&note) {
            return Ok(Some(note.desc()));
        }
    }
    Ok(None)
}

// The build id in a section of any type.
#[tactic(auto, unfolding(crate::specs::BuildIds::id_of_section))]
fn id_of_section<'a>(
    file: &ElfFile<'a>,
    section: &SectionHeader,
) -> Result<Option<&'a [u8]>, LinkError>
    ensures { result ≡ id_of_section file.now section.now }
{
    build_id_among(section_notes(file, section)?)
}

const PT_NOTE: u32 = 4;

// Whether a segment has type Note.
fn is_notes(segment: &Segment) -> bool
    ensures { result ≡ is_notes segment.now }
{
    segment.kind == PT_NOTE
}

// The build id in a segment of any type.
#[tactic(auto, unfolding(crate::specs::BuildIds::id_of_segment))]
fn id_of_segment<'a>(file: &ElfFile<'a>, segment: &Segment) -> Result<Option<&'a [u8]>, LinkError>
    ensures { result ≡ id_of_segment file.now segment.now }
{
    match segment.bytes(file) {
        Ok(bytes) => build_id_among(Notes::new(bytes, file.byte_order(), segment.align)),
        Err(error) => Err(LinkError::Elf(error)),
    }
}

/// The build id of a file of either class, by its section headers.
///
/// Errors: those of `section_notes`, and `ShortNote` if the notes are cut off before it.
pub fn build_id_of_section<'a>(file: &ElfFile<'a>) -> Result<Option<&'a [u8]>, LinkError>
    ensures { result ≡ id_by_sections file.now }
{
    match file.find_section_by_name(".note.gnu.build-id") {
        Some(section) => id_of_section(file, &section),
        None => Ok(None),
    }
}

/// The build id of a file of either class, by its program headers: that of the first segment of
/// type Note that has one. Section headers are not needed.
///
/// Errors: those of `Segment::bytes`, and `ShortNote` if the notes are cut off before it.
#[tactic(auto, using(crate::proofs::BuildIdSearch::segments_end, crate::proofs::BuildIdSearch::segments_fault, crate::proofs::BuildIdSearch::segments_found, crate::proofs::BuildIdSearch::segments_none, crate::proofs::BuildIdSearch::segments_other))]
pub fn build_id_of_segments<'a>(file: &ElfFile<'a>) -> Result<Option<&'a [u8]>, LinkError>
    ensures { result ≡ id_by_segments file.now }
{
    for segment in Segments::of(file) {
        if is_notes(&segment) {
            let id = id_of_segment(file, &segment)?;
            if id.is_some() {
                return Ok(id);
            }
        }
    }
    Ok(None)
}
