//! What references get in files that glibc 2.36 binds otherwise, or doesn't start: changes of the
//! program and the libraries of class 64, by the sentences of docs/LINKING.md, "Not modelled".
//! `oracle/corners.toml` has what glibc does with the same files.

use crate::tests::bind::Answer;
use crate::tests::bind::files::{WIDE_CALLER, WIDE_FIRST, WIDE_SECOND};
use crate::tests::bind::linked::{Change, bound_at, make_changes};
use crate::tests::want::want_at;
use elf_base::ElfError;
use elf_linking::LinkError;
use worked_files::rows;
use xmas_elf::symbol_table::DynEntry64;

// Changes, the file of a reference and its place among the references of the file, and the file and
// the symbol that it gets.
type Row = (&'static [Change], (usize, usize), Answer);

// `only` is unique in both libraries, and a reference of the first one, in the place of `own`, names it.
const UNIQUE: &[Change] = &[(1, 0x1d4, 0xa1), (1, 0x464, 1)];

// A load of 8 bytes in the page of the second library's dynamic segment, in the place of the program
// header of the stack: its offset, address, sizes and alignment.
const SHARED_PAGE: &[Change] = &[
    (2, 0x120, 1),
    (2, 0x121, 0),
    (2, 0x122, 0),
    (2, 0x123, 0),
    (2, 0x129, 0x17),
    (2, 0x131, 0x17),
    (2, 0x140, 8),
    (2, 0x148, 8),
    (2, 0x150, 0),
    (2, 0x151, 0x10),
];

const ROWS: &[Row] = rows! {
    // glibc has that of the second library for both
    UNIQUE, (1, 4), Ok(Some((1, 1)));
    UNIQUE, (2, 0), Ok(Some((2, 4)));
    // two definitions with the number 2: V1, which is the first. glibc has V2, and finds no V1
    &[(1, 0x3bc, 2)], (0, 0), Ok(Some((1, 12)));
    &[(1, 0x3bc, 2)], (0, 1), Ok(Some((1, 4)));
    // two needs with the number 3: V2, which is the first, and number 2 is none. glibc has V1
    &[(0, 0x326, 3)], (0, 3), Ok(Some((1, 8)));
    &[(0, 0x326, 3)], (0, 1), Ok(Some((1, 4)));
    // the dynamic segment is in another load, as symbolic as before. glibc maps the page of the last
    SHARED_PAGE, (2, 0), Ok(Some((2, 4)));
    // DT_STRTAB is 0x1308, in the page of a load that begins at 0x1528. glibc has these bytes
    &[(1, 0x559, 0x13)], (0, 0), Err(LinkError::Address);
    // the first byte of V1 is 0xff in both files. glibc compares bytes
    &[(0, 0x2ed, 0xff), (1, 0x35d, 0xff)], (0, 1), Err(LinkError::Elf(ElfError::TextUtf8));
    // no DT_VERNEED: the program asks for no versions. glibc crashes
    &[(0, 0x540, 0xf1), (0, 0x541, 0xfe)], (0, 3), Ok(Some((1, 4)));
    // the number 0x7fff, which no need has: no version. glibc crashes
    &[(0, 0x2f2, 0xff), (0, 0x2f3, 0x7f)], (0, 1), Ok(Some((1, 4)));
    // a dynamic segment of 0x161 bytes. glibc reads up to DT_NULL
    &[(1, 0xd0, 0x61)], (0, 0), Err(LinkError::Elf(ElfError::NotMultiple));
};

#[test]
fn binds_where_glibc_does_not(rt: HostRuntime) {
    for (row, &(changes, at, wanted)) in ROWS.iter().enumerate() {
        let (mut program, mut first) = (*WIDE_CALLER, *WIDE_FIRST);
        let mut second = *WIDE_SECOND;
        make_changes(&mut program, &mut first, &mut second, changes);
        let files: [&[u8]; 3] = [&program, &first, &second];
        let bound = bound_at::<DynEntry64>(&rt, files, at);
        want_at(&rt, row, bound, wanted);
    }
}
