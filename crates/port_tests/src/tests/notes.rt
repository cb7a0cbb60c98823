//! Notes: their names and descriptions.

use crate::tests::want::{want, want_at};
use elf_base::ElfError;
use elf_base::bytes::{Order, Record};
use elf_records::sections::NoteHeader;
use worked_files::rows;

const LITTLE: Order = Order::Little;

// The header of a note with these sizes and the type 3.
fn note(name_size: u8, desc_size: u8) -> NoteHeader {
    let mut bytes = [0u8; 12];
    bytes[0] = name_size;
    bytes[4] = desc_size;
    bytes[8] = 3;
    NoteHeader::decode(&bytes, LITTLE)
}

const BODY: &[u8] = b"A\0\xff\xff\x07";

// The sizes of a note's name and description, the bytes behind its header, and its name.
const NAMES: &[(u8, u8, &[u8], Result<&str, ElfError>)] = rows! {
    2, 1, BODY, Ok("A"); 0, 0, b"\0", Err(ElfError::NoteName); 1, 0, b"\0", Ok("");
    3, 0, BODY, Err(ElfError::NoteName); 1, 0, b"A", Err(ElfError::TextEnd);
    3, 0, b"\xff\xff\0", Err(ElfError::TextUtf8);
};

#[test]
fn reads_names_of_notes(rt: HostRuntime) {
    for &(name_size, desc_size, body, name) in NAMES {
        let found = note(name_size, desc_size).name(body);
        want_at(&rt, (name_size, desc_size), found, name);
    }
}

// The same, and its description.
const DESCRIPTIONS: &[(u8, u8, &[u8], Result<&[u8], ElfError>)] = rows! {
    2, 1, BODY, Ok(b"\x07"); 2, 1, b"A\0\xff\xff", Err(ElfError::NoteDesc);
    2, 0, b"A\0\xff\xff", Ok(b""); 4, 1, BODY, Ok(b"\x07"); 0, 5, BODY, Ok(BODY);
    5, 0, BODY, Err(ElfError::NoteDesc);
};

#[test]
fn reads_descriptions_of_notes(rt: HostRuntime) {
    for &(name_size, desc_size, body, description) in DESCRIPTIONS {
        let found = note(name_size, desc_size).desc(body);
        want_at(&rt, (name_size, desc_size), found, description);
    }
}

#[test]
fn reads_the_numbers_of_notes(rt: HostRuntime) {
    want(&rt, note(2, 1).type_(), 3);
    let greatest = NoteHeader::decode(&[0xff; 12], Order::Big);
    want(&rt, greatest.type_(), u32::MAX);
    want(&rt, greatest.name(BODY), Err(ElfError::NoteName));
    want(&rt, greatest.desc(BODY), Err(ElfError::NoteDesc));
}
