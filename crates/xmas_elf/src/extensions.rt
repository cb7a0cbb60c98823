//! Build ids and links to debug information, which GNU tools write in addition to the gABI.

ghost use Rattle.std.specs.Prelude.{◌≡◌, ◌+◌, IfSome, IsSomeAnd, List, length, ℕ};
ghost use Rattle.elf_base.specs.Lent.{LiesAt};
ghost use Rattle.elf_records.specs.Note.{note_name_size, rounded_up};
ghost use Rattle.elf_records.specs.declared.sections.note.NoteHeader.{NoteHeader};
ghost use Rattle.xmas_elf.specs.BuildId.{IsBuildId, IsBuildIdNote, IsNoteSection};
ghost use Rattle.xmas_elf.specs.Link.{IsAlternateLink, IsDebugLink, IsLink, IsTextAndRest};
ghost use Rattle.xmas_elf.specs.NameTable.{IsFirstNamed};
ghost use Rattle.xmas_elf.specs.SectionData.{IsDataNamed};
ghost use Rattle.xmas_elf.specs.Place.{LiesAsBuildId, LiesAsRest};
ghost use Rattle.xmas_elf.specs.SectionHeader.{section_fields};
ghost use Rattle.xmas_elf.specs.declared.sections.section_header.SectionHeader.{SectionHeader};

use crate::ElfFile;
use crate::bytes::{Order, text_at};
use crate::notes::first_note;
use crate::sections::{NoteHeader, SectionHeader, ShType};
use elf_base::bytes::read_u32;

/// `NT_GNU_BUILD_ID`: the type of build ids among the notes with the name `GNU`
/// (GNU binutils and glibc, `elf.h`).
pub const NT_GNU_BUILD_ID: u32 = 3;

/// The GNU extensions of a file. The returned slices live as long as the input.
///
/// Each call searches the section headers, and reads the first note of its section. It returns
/// `None` if the section is missing, its data can't be read, or its contents are malformed.
pub trait Extensions<'a> {
    /// The specs of the build id, the debug link with its checksum, and the alternate debug link.
    ghost BuildId: { Self → List ℕ → Type 0 };

    ghost DebugLink: { Self → List ℕ → ℕ → Type 0 };

    ghost AlternateLink: { Self → List ℕ → List ℕ → Type 0 };

    /// The build id, a unique number of the build: the description of the note of type 3 named
    /// `GNU` in section `.note.gnu.build-id`. `None` for files of class 32 (gABI, "Note Section").
    fn get_gnu_buildid(&self) -> Option<&'a [u8]>
        ensures found { IfSome result (λ id. BuildId self.now id.now) }
        ensures only { (id : List ℕ) → BuildId self.now id
            → IsSomeAnd result (λ lent. lent.now ≡ id) };

    /// The name of the file with the debug information and the CRC of its bytes, which follows the
    /// name at the next multiple of four: section `.gnu_debuglink`, of any type.
    fn get_gnu_debuglink(&self) -> Option<(&'a str, u32)>
        ensures found { IfSome result (λ link. DebugLink self.now link.0.now link.1) }
        ensures only { (text : List ℕ) (checksum : ℕ) → DebugLink self.now text checksum
            → IsSomeAnd result (λ link. (link.0.now ≡ text) × (link.1 ≡ checksum)) };

    /// The name of the file with shared debug information and its build id, which is the rest of
    /// the section after the name: section `.gnu_debugaltlink`, of any type.
    fn get_gnu_debugaltlink(&self) -> Option<(&'a str, &'a [u8])>
        ensures found { IfSome result (λ link. AlternateLink self.now link.0.now link.1.now) }
        ensures only { (text rest : List ℕ) → AlternateLink self.now text rest
            → IsSomeAnd result (λ link. (link.0.now ≡ text) × (link.1.now ≡ rest)) };
}

impl<'a> Extensions<'a> for ElfFile<'a> {
    ghost BuildId = { IsBuildId };

    ghost DebugLink = { IsDebugLink };

    ghost AlternateLink = { IsAlternateLink };

    fn get_gnu_buildid(&self) -> Option<&'a [u8]>
        ensures found { IfSome result (λ id. IsBuildId self.now id.now) }
        ensures only { (id : List ℕ) → IsBuildId self.now id
            → IsSomeAnd result (λ lent. lent.now ≡ id) }
        ensures place { IfSome result (LiesAsBuildId self.now) }
    {
        let section = self.find_section_by_name(".note.gnu.build-id")?;
        let (header, body) = section_note(self, &section)?;
        build_id(&header, body)
    }

    fn get_gnu_debuglink(&self) -> Option<(&'a str, u32)>
        ensures found { IfSome result (λ link. IsDebugLink self.now link.0.now link.1) }
        ensures only { (text : List ℕ) (checksum : ℕ) → IsDebugLink self.now text checksum
            → IsSomeAnd result (λ link. (link.0.now ≡ text) × (link.1 ≡ checksum)) }
    {
        let bytes = named_data(self, ".gnu_debuglink")?;
        debug_link(bytes, self.byte_order())
    }

    fn get_gnu_debugaltlink(&self) -> Option<(&'a str, &'a [u8])>
        ensures found { IfSome result (λ link. IsAlternateLink self.now link.0.now link.1.now) }
        ensures only { (text rest : List ℕ) → IsAlternateLink self.now text rest
            → IsSomeAnd result (λ link. (link.0.now ≡ text) × (link.1.now ≡ rest)) }
        ensures place { IfSome result (λ link. LiesAsRest self.now link.0.now link.1) }
    {
        let bytes = named_data(self, ".gnu_debugaltlink")?;
        alternate_link(bytes)
    }
}

// The first note in a section of type Note.
fn section_note<'a>(file: &ElfFile<'a>, section: &SectionHeader) -> Option<(NoteHeader, &'a [u8])>
    ensures found { IfSome result (λ note. IsNoteSection file.now section.now note.0 note.1.now) }
    ensures only { (header : NoteHeader) (body : List ℕ)
        → IsNoteSection file.now section.now header body
        → IsSomeAnd result (λ note. (note.0 ≡ header) × (note.1.now ≡ body)) }
    ensures place { IfSome result (λ note.
        LiesAt file.now.input ((section_fields section.now).offset + 12) note.1) }
{
    match section.get_type() {
        Ok(ShType::Note) => first_note(file, section.raw_data(file).ok()?).ok(),
        _ => None,
    }
}

// The description of this note, if it is a build id.
fn build_id<'a>(header: &NoteHeader, body: &'a [u8]) -> Option<&'a [u8]>
    ensures found { IfSome result (λ id. IsBuildIdNote header.now body.now id.now) }
    ensures only { (id : List ℕ) → IsBuildIdNote header.now body.now id
        → IsSomeAnd result (λ lent. lent.now ≡ id) }
    ensures place { IfSome result (LiesAt body.entry (rounded_up (note_name_size header.now))) }
{
    let Ok(name) = header.name(body) else {
        return None;
    };
    if header.type_() != NT_GNU_BUILD_ID || name != "GNU" {
        return None;
    }
    header.desc(body).ok()
}

// The data of the first section with this name.
fn named_data<'a>(file: &ElfFile<'a>, name: &str) -> Option<&'a [u8]>
    ensures found { IfSome result (λ bytes. IsDataNamed file.now name.now bytes.now) }
    ensures only { (bytes : List ℕ) → IsDataNamed file.now name.now bytes
        → IsSomeAnd result (λ lent. lent.now ≡ bytes) }
    ensures place { IfSome result (λ bytes. (index : ℕ) × (section : SectionHeader)
        × IsFirstNamed file.now name.now index section
        × LiesAt file.now.input (section_fields section).offset bytes) }
{
    match file.find_section_by_name(name) {
        Some(section) => section.raw_data(file).ok(),
        None => None,
    }
}

// The text at the start of `bytes`, and the number after it at the next multiple of four.
fn debug_link(bytes: &[u8], order: Order) -> Option<(&str, u32)>
    ensures found { IfSome result (λ link. IsLink order bytes.now link.0.now link.1) }
    ensures only { (text : List ℕ) (checksum : ℕ) → IsLink order bytes.now text checksum
        → IsSomeAnd result (λ link. (link.0.now ≡ text) × (link.1 ≡ checksum)) }
{
    let Ok(text) = text_at(bytes, 0) else {
        return None;
    };
    // The first multiple of four after the text and its zero byte.
    let place = text.len().checked_add(4)? / 4 * 4;
    let end = place.checked_add(4)?;
    if end > bytes.len() {
        return None;
    }
    Some((text, read_u32(bytes, place, order)))
}

// The text at the start of `bytes`, and all bytes after its zero byte.
fn alternate_link(bytes: &[u8]) -> Option<(&str, &[u8])>
    ensures found { IfSome result (λ link. IsTextAndRest bytes.now link.0.now link.1.now) }
    ensures only { (text rest : List ℕ) → IsTextAndRest bytes.now text rest
        → IsSomeAnd result (λ link. (link.0.now ≡ text) × (link.1.now ≡ rest)) }
    ensures place { IfSome result (λ link. LiesAt bytes.entry (length link.0.now + 1) link.1) }
{
    let Ok(text) = text_at(bytes, 0) else {
        return None;
    };
    Some((text, &bytes[text.len() + 1..]))
}
