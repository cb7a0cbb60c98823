//! Which notes sections and segments have.

use crate::tests::want::{open, want, want_at};
use elf_base::ElfError;
use elf_base::bytes::Order;
use elf_linking::LinkError;
use elf_linking::build_ids::{build_id_of_section, build_id_of_segments};
use elf_linking::notes::{Notes, section_notes, segment_notes};
use std::process::Abort;
use std::test::Fail;
use worked_files::files::put_section_32;
use worked_files::places::{Place, header_32, program_32, put, section_32, set};
use worked_files::rows;
use xmas_elf::Extensions;

const LITTLE: Order = Order::Little;

// What a note says: its type, its name's bytes and its description.
type Said<'a> = (u32, &'a [u8], &'a [u8]);

// Wants these notes, then this fault if there is one, and then the end,
// also when it is asked for again.
fn check(
    rt: &impl Abort,
    row: usize,
    mut notes: Notes<'_>,
    said: &[Said<'_>],
    fault: Option<LinkError>,
) {
    for wanted in said {
        want_at(rt, row, said_by(&mut notes), Some(*wanted));
    }
    if let Some(fault) = fault {
        let failed = notes.next().and_then(|note| note.err());
        want_at(rt, row, failed, Some(fault));
    }
    want_at(rt, row, notes.next().is_none(), true);
    want_at(rt, row, notes.next().is_none(), true);
}

// What the next note says.
fn said_by<'a>(notes: &mut Notes<'a>) -> Option<Said<'a>> {
    let note = notes.next()?.ok()?;
    Some((note.type_(), note.name_bytes(), note.desc()))
}

// As linkers wrote them: a build id, and a property of class 64 in steps of eight.
const BUILD_ID: &[u8] = b"\x04\0\0\0\x08\0\0\0\x03\0\0\0GNU\0\x01\x23\x45\x67\x89\xab\xcd\xef";

const PROPERTY: &[u8] =
    b"\x04\0\0\0\x10\0\0\0\x05\0\0\0GNU\0\x02\x80\0\xc0\x04\0\0\0\x02\0\0\0\0\0\0\0";

// A name of five bytes and a description of one, in steps of four and of eight,
// each without padding behind it.
const FOUR: &[u8] = b"\x05\0\0\0\x01\0\0\0\x07\0\0\0Name\0\0\0\0d";

const EIGHT: &[u8] = b"\x05\0\0\0\x01\0\0\0\x07\0\0\0Name\0\0\0\0\0\0\0\0d";

// Two of them, with the padding between.
const TWO: &[u8] = b"\x05\0\0\0\x01\0\0\0\x07\0\0\0Name\0\0\0\0d\0\0\0\
    \x05\0\0\0\x01\0\0\0\x08\0\0\0Next\0\0\0\0e\0";

const TWO_WIDE: &[u8] = b"\x05\0\0\0\x01\0\0\0\x07\0\0\0Name\0\0\0\0\0\0\0\0d\0\0\0\0\0\0\0\
    \x05\0\0\0\x01\0\0\0\x08\0\0\0Next\0\0\0\0\0\0\0\0e";

const PROPERTY_DESC: &[u8] = b"\x02\x80\0\xc0\x04\0\0\0\x02\0\0\0\0\0\0\0";

const ID: &[u8] = b"\x01\x23\x45\x67\x89\xab\xcd\xef";

const NAME: Said<'static> = (7, b"Name\0", b"d");

const NEXT: Said<'static> = (8, b"Next\0", b"e");

const WHOLE: &[(&[u8], u64, &[Said<'_>])] = &[
    (b"", 4, &[]),
    (BUILD_ID, 4, &[(3, b"GNU\0", ID)]),
    (BUILD_ID, 8, &[(3, b"GNU\0", ID)]),
    (PROPERTY, 8, &[(5, b"GNU\0", PROPERTY_DESC)]),
    (FOUR, 4, &[NAME]),
    (FOUR, 0, &[NAME]),
    (FOUR, 16, &[NAME]),
    (EIGHT, 8, &[NAME]),
    (TWO, 4, &[NAME, NEXT]),
    (TWO_WIDE, 8, &[NAME, NEXT]),
    // no name and no description
    (b"\0\0\0\0\0\0\0\0\x09\0\0\0", 4, &[(9, b"", b"")]),
    (b"\0\0\0\0\0\0\0\0\x09\0\0\0\0\0\0\0", 8, &[(9, b"", b"")]),
];

#[test]
fn notes_come_in_steps_of_four_or_eight(rt: HostRuntime) {
    for (row, (bytes, align, said)) in WHOLE.iter().enumerate() {
        check(&rt, row, Notes::new(bytes, LITTLE, *align), said, None);
    }
}

// Bytes up to an end, steps, and the notes before the fault.
const CUT: &[(&[u8], usize, u64, &[Said<'_>])] = rows! {
    // fewer bytes than the three words
    BUILD_ID, 11, 4, &[];
    // no name, no description, half of it
    BUILD_ID, 12, 4, &[]; BUILD_ID, 16, 4, &[]; BUILD_ID, 23, 4, &[];
    // the description stands one step later
    FOUR, 21, 8, &[];
    // a whole note, and too little behind it
    TWO, 25, 4, &[NAME]; TWO, 44, 4, &[NAME];
    // without the padding behind the name
    EIGHT, 17, 8, &[];
    // sizes that no data has
    &[0xff; 40], 40, 4, &[];
};

#[test]
fn notes_that_are_cut_off_end_the_list(rt: HostRuntime) {
    let fault = Some(LinkError::ShortNote);
    for (row, (bytes, len, align, said)) in CUT.iter().enumerate() {
        let bytes = bytes.get(..*len).unwrap_or(b"");
        check(&rt, row, Notes::new(bytes, LITTLE, *align), said, fault);
    }
}

const TEXTS: &[(&[u8], Result<&str, ElfError>)] = rows! {
    b"\0\0\0\x04\0\0\0\0\0\0\0\x01GNU\0", Ok("GNU");
    b"\0\0\0\x04\0\0\0\0\0\0\0\x01A\0B\0", Ok("A");
    b"\0\0\0\x04\0\0\0\0\0\0\0\x01CORE", Err(ElfError::TextEnd);
    b"\0\0\0\x02\0\0\0\0\0\0\0\x01\xff\0\0\0", Err(ElfError::TextUtf8);
    b"\0\0\0\0\0\0\0\0\0\0\0\x01", Err(ElfError::TextEnd);
};

#[test]
fn names_are_texts_where_they_end_in_zero(rt: HostRuntime) -> Result<(), Fail> {
    for (row, (bytes, name)) in TEXTS.iter().enumerate() {
        let note = Notes::new(bytes, Order::Big, 4).next().ok_or("no note")??;
        want_at(&rt, row, (note.type_(), note.name()), (1, *name));
    }
    Ok(())
}

// Where the headers of `note_file` begin.
const PROGRAM: usize = 52;

const NOTE_SECTION: usize = 164;

const NAMES: &[u8] = b"\0.note.gnu.build-id\0";

// The numbers of its ELF header and program header, and the steps of its sections.
const FIELDS: &[(usize, Place, u64)] = rows! {
    0, header_32::PH_OFFSET, 52; 0, header_32::PH_ENTRY_SIZE, 32; 0, header_32::PH_COUNT, 1;
    0, header_32::SH_OFFSET, 84; 0, header_32::SH_ENTRY_SIZE, 40; 0, header_32::SH_COUNT, 3;
    0, header_32::SH_STR_INDEX, 1;
    PROGRAM, program_32::TYPE, 4; PROGRAM, program_32::OFFSET, 224;
    PROGRAM, program_32::FILE_SIZE, 24; PROGRAM, program_32::ALIGN, 4;
    124, section_32::ALIGN, 4; NOTE_SECTION, section_32::ALIGN, 4;
};

// Class 32: a segment of type Note over the build id at 224, and a section of it, after the section
// of the names at 204.
fn note_file() -> [u8; 248] {
    let mut file = [0; 248];
    put(&mut file, 0, &[0x7f, b'E', b'L', b'F', 1, 1, 1]);
    for &(start, place, number) in FIELDS {
        set(&mut file, start, place, number, LITTLE);
    }
    put_section_32(&mut file, 124, [0, 3, 204, 20], LITTLE);
    put_section_32(&mut file, NOTE_SECTION, [1, 7, 224, 24], LITTLE);
    put(&mut file, 204, NAMES);
    put(&mut file, 224, BUILD_ID);
    file
}

// Wants these notes of the section and of the segment, then this fault if there is one.
fn check_both(
    rt: &impl Abort,
    bytes: &[u8],
    said: &[Said<'_>],
    fault: Option<LinkError>,
) -> Result<(), LinkError> {
    let file = open(rt, bytes);
    let section = section_notes(&file, &file.section_header(2)?)?;
    check(rt, 0, section, said, fault);
    let segment = segment_notes(&file, &file.program_header(0)?)?;
    check(rt, 1, segment, said, fault);
    Ok(())
}

#[test]
fn sections_and_segments_of_class_32_have_notes(rt: HostRuntime) -> Result<(), LinkError> {
    let bytes = note_file();
    check_both(&rt, &bytes, &[(3, b"GNU\0", ID)], None)?;
    let file = open(&rt, &bytes);
    want(&rt, build_id_of_section(&file), Ok(Some(ID)));
    want(&rt, build_id_of_segments(&file), Ok(Some(ID)));
    want(&rt, file.get_gnu_buildid(), None);
    Ok(())
}

#[test]
fn the_steps_are_those_of_the_header(rt: HostRuntime) -> Result<(), LinkError> {
    let mut bytes = note_file();
    // a name of five bytes and no description, in steps of four: eight bytes are left
    put(&mut bytes, 224, b"\x05\0\0\0\0\0\0\0\x07\0\0\0Name\0\0\0\0");
    set(&mut bytes, PROGRAM, program_32::FILE_SIZE, 20, LITTLE);
    set(&mut bytes, NOTE_SECTION, section_32::SIZE, 20, LITTLE);
    check_both(&rt, &bytes, &[(7, b"Name\0", b"")], None)?;
    // in steps of eight the description would begin at 24
    set(&mut bytes, PROGRAM, program_32::ALIGN, 8, LITTLE);
    set(&mut bytes, NOTE_SECTION, section_32::ALIGN, 8, LITTLE);
    check_both(&rt, &bytes, &[], Some(LinkError::ShortNote))?;
    let found = build_id_of_segments(&open(&rt, &bytes));
    want(&rt, found, Err(LinkError::ShortNote));
    Ok(())
}

// A field of the header of the section, or of the segment, and the error with this number.
const SECTIONS: &[(Place, u64, ElfError)] = &[
    (section_32::OFFSET, 225, ElfError::DataRange),
    (section_32::TYPE, 0, ElfError::NullData),
    (section_32::TYPE, 19, ElfError::InvalidShType),
];

const SEGMENTS: &[(Place, u64, ElfError)] = &[
    (program_32::OFFSET, 225, ElfError::DataRange),
    (program_32::TYPE, 0, ElfError::NullData),
    (program_32::TYPE, 8, ElfError::InvalidPhType),
];

#[test]
fn data_that_is_not_read_has_no_notes(rt: HostRuntime) -> Result<(), ElfError> {
    for &(place, number, error) in SECTIONS {
        let mut bytes = note_file();
        set(&mut bytes, NOTE_SECTION, place, number, LITTLE);
        let file = open(&rt, &bytes);
        let found = section_notes(&file, &file.section_header(2)?).err();
        want_at(&rt, number, found, Some(LinkError::Elf(error)));
    }
    for &(place, number, error) in SEGMENTS {
        let mut bytes = note_file();
        set(&mut bytes, PROGRAM, place, number, LITTLE);
        let file = open(&rt, &bytes);
        let found = segment_notes(&file, &file.program_header(0)?).err();
        want_at(&rt, number, found, Some(LinkError::Elf(error)));
    }
    Ok(())
}
