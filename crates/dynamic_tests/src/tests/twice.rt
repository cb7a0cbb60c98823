//! Which of two tables is read, as `oracle/tables.py` shows for the linker of glibc.

use crate::tests::want::{open, want_at};
use elf_base::bytes::Order;
use elf_linking::LinkError;
use elf_linking::view::strings;
use worked_files::places::{Place, header_32, header_64, program_32, program_64, set};
use worked_files::versioned::{KINDS, set_entry, sizes, version_file};

// Where the records of the segments are put, behind the strings.
const PROGRAMS: usize = 0x150;

// Where further entries are, for strings of 3 bytes.
const SECOND: usize = 0xf0;

// A segment: its type, its offset, its address and its size in the file.
type Segment = (u64, u64, u64, u64);

const LOAD: Segment = (1, 0, 0x1000, 0x208);

// A load of the addresses of the first entries that has the second there.
const OTHER: Segment = (1, 0xf0, 0x10b0, 64);

const ENTRIES: Segment = (2, 0xb0, 0x10b0, 64);

// Segments, and the size of the strings.
type Row<'a> = (&'a [Segment], Result<usize, LinkError>);

const ROWS: &[Row<'_>] = &[
    (&[LOAD, ENTRIES], Ok(32)),
    // the last segment of type Dynamic, at its address
    (&[LOAD, ENTRIES, (2, 0xf0, 0x10f0, 64)], Ok(3)),
    (&[LOAD, (2, 0xf0, 0x10f0, 64), ENTRIES], Ok(32)),
    (&[LOAD, (2, 0xf0, 0x10b0, 64)], Ok(32)),
    (&[LOAD, (2, 0xb0, 0x10f0, 64)], Ok(3)),
    (
        &[LOAD, ENTRIES, (2, 0xf0, 0x10f0, 0)],
        Err(LinkError::NoDynamic),
    ),
    (&[LOAD, (2, 0xb0, 0x2000, 64)], Err(LinkError::Address)),
    // the last load with the bytes
    (&[LOAD, OTHER, ENTRIES], Ok(3)),
    (&[OTHER, LOAD, ENTRIES], Ok(32)),
];

// Writes a record of a segment.
fn set_segment(file: &mut [u8], start: usize, class: u8, segment: Segment, order: Order) {
    let (kind, offset, address, size) = segment;
    let places: [Place; 4] = if class == 1 {
        [
            program_32::TYPE,
            program_32::OFFSET,
            program_32::VIRTUAL_ADDR,
            program_32::FILE_SIZE,
        ]
    } else {
        [
            program_64::TYPE,
            program_64::OFFSET,
            program_64::VIRTUAL_ADDR,
            program_64::FILE_SIZE,
        ]
    };
    set(file, start, places[0], kind, order);
    set(file, start, places[1], offset, order);
    set(file, start, places[2], address, order);
    set(file, start, places[3], size, order);
}

// Writes these segments.
fn set_segments(file: &mut [u8], class: u8, segments: &[Segment], order: Order) {
    let (table, count) = if class == 1 {
        (header_32::PH_OFFSET, header_32::PH_COUNT)
    } else {
        (header_64::PH_OFFSET, header_64::PH_COUNT)
    };
    set(file, 0, table, PROGRAMS as u64, order);
    set(file, 0, count, segments.len() as u64, order);
    for (k, segment) in segments.iter().enumerate() {
        let start = PROGRAMS.wrapping_add(k.wrapping_mul(sizes(class).0));
        set_segment(file, start, class, *segment, order);
    }
}

#[test]
fn the_last_of_two_segments_is_read(rt: HostRuntime) {
    for (row, &(segments, size)) in ROWS.iter().enumerate() {
        for &(class, order) in KINDS {
            let mut bytes = version_file(class, order, &[]);
            let width = sizes(class).1;
            for (k, entry) in [(5, 0x1131), (10, 3)].iter().enumerate() {
                let start = SECOND.wrapping_add(k.wrapping_mul(width).wrapping_mul(2));
                set_entry(&mut bytes, start, width, *entry, order);
            }
            set_segments(&mut bytes, class, segments, order);
            let found = strings(&open(&rt, &bytes)).map(|table| table.len());
            want_at(&rt, row, found, size);
        }
    }
}

// Entries behind those of the strings, and the size of these.
const DOUBLED: &[(&[(u64, u64)], usize)] = &[
    (&[], 32),
    (&[(10, 3)], 3),
    (&[(10, 3), (10, 7)], 7),
    (&[(10, 3), (0, 0), (10, 7)], 3),
];

#[test]
fn the_last_of_two_entries_is_read(rt: HostRuntime) {
    for (row, &(entries, size)) in DOUBLED.iter().enumerate() {
        for &(class, order) in KINDS {
            let bytes = version_file(class, order, entries);
            let found = strings(&open(&rt, &bytes)).map(|table| table.len());
            want_at(&rt, row, found, Ok(size));
        }
    }
}
