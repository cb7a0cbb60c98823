//! The differences of the parts of two files. Sizes are those of `size -A` and `nm -S` for two builds
//! of an object, and those of the sections that these leave out are those of `readelf -S`.

use crate::tests::want::want_at;
use elf_addresses::{Change, SizedPart, differences};
use std::alloc::{AllocError, Global};
use std::process::Abort;
use std::test::Fail;
use worked_files::rows;

// A part: its kind, its name, its place, and its number of bytes.
type Part = (usize, &'static str, usize, u64);

// A difference: the name, whether the part is gone (-1), new (1) or in both, and its sizes.
type Wanted = (&'static str, i32, u64, u64);

type Row = (&'static [Part], &'static [Part], &'static [Wanted]);

// Symbols, the largest first.
const SYMBOLS: &[Part] = &[
    (2, "table", 6, 32),
    (2, "helper", 5, 30),
    (2, "two", 9, 29),
    (2, "one", 7, 23),
    (2, "gone", 8, 12),
    (2, "helper", 3, 5),
];

// One name in two kinds.
const TWO_KINDS: &[Part] = &[(0, "a", 0, 5), (2, "a", 2, 6)];

const ROWS: &[Row] = rows! {
    // sections
    &[(0, ".text", 1, 87), (0, ".rela.text", 2, 24), (0, ".eh_frame", 3, 152),
        (0, ".rela.eh_frame", 4, 96), (0, ".data", 5, 44), (0, ".comment", 7, 80),
        (0, ".symtab", 9, 360), (0, ".strtab", 10, 31), (0, ".shstrtab", 11, 89)],
        &[(0, ".text", 1, 183), (0, ".rela.text", 2, 24), (0, ".rodata", 3, 24),
        (0, ".eh_frame", 4, 216), (0, ".rela.eh_frame", 5, 144), (0, ".data", 6, 32),
        (0, ".comment", 8, 80), (0, ".symtab", 10, 432), (0, ".strtab", 11, 47),
        (0, ".shstrtab", 12, 97)],
        &[(".text", 0, 87, 183), (".symtab", 0, 360, 432), (".eh_frame", 0, 152, 216),
        (".rela.eh_frame", 0, 96, 144), (".rodata", 1, 0, 24), (".strtab", 0, 31, 47),
        (".data", 0, 44, 32), (".shstrtab", 0, 89, 97), (".comment", 0, 80, 80),
        (".rela.text", 0, 24, 24)];
    // symbols, two of one name, with the largest first as a report of sizes has them
    SYMBOLS,
        &[(2, "two", 11, 54), (2, "helper", 5, 46), (2, "table", 7, 32), (2, "three", 12, 30),
        (2, "note", 10, 24), (2, "one", 8, 19), (2, "third", 6, 18), (2, "helper", 3, 5)],
        &[("three", 1, 0, 30), ("two", 0, 29, 54), ("note", 1, 0, 24), ("third", 1, 0, 18),
        ("helper", 0, 30, 46), ("gone", -1, 12, 0), ("one", 0, 23, 19), ("helper", 0, 5, 5),
        ("table", 0, 32, 32)];
    // one name in two kinds
    TWO_KINDS, &[(2, "a", 3, 7), (3, "a", 4, 4)],
        &[("a", -1, 5, 0), ("a", 1, 0, 4), ("a", 0, 6, 7)];
    // more of a name in one file than in the other, without a name, and of one size
    &[(1, "", 0, 8), (1, "", 4, 8), (1, "", 8, 8)], &[(1, "", 0, 8)],
        &[("", -1, 8, 0), ("", -1, 8, 0), ("", 0, 8, 8)];
    // a name that another begins with
    &[(0, "ab", 1, 1)], &[(0, "a", 1, 1), (0, "abc", 2, 1)],
        &[("a", 1, 0, 1), ("ab", -1, 1, 0), ("abc", 1, 0, 1)];
    // sizes at the limits
    &[(0, "a", 0, 0xffff_ffff_ffff_ffff), (0, "b", 4, 0)], &[(0, "b", 0, 0xffff_ffff_ffff_ffff)],
        &[("a", -1, 0xffff_ffff_ffff_ffff, 0), ("b", 0, 0, 0xffff_ffff_ffff_ffff)];
    // no parts in one file, and in both
    &[], &[(0, "a", 0, 1)], &[("a", 1, 0, 1)];
    &[(0, "a", 0, 1)], &[], &[("a", -1, 1, 0)];
    &[], &[], &[];
};

const NO_PART: SizedPart<'static> = SizedPart {
    kind: 0,
    name: b"",
    place: 0,
    size: 0,
};

fn parts_of(alloc: Global, row: &'static [Part]) -> Result<Vec<SizedPart<'static>>, AllocError> {
    let mut parts = Vec::new(alloc);
    for &(kind, name, place, size) in row {
        let name = name.as_bytes();
        parts.push(SizedPart {
            kind,
            name,
            place,
            size,
        })?;
    }
    Ok(parts)
}

// Whether a part is gone (-1), new (1) or in both files.
fn mark_of(change: &Change<'_>) -> i32 {
    match change {
        Change::Gone(_) => -1,
        Change::New(_) => 1,
        Change::Both(_, _) => 0,
    }
}

fn check_row(rt: &impl Abort, alloc: Global, index: usize, row: Row) -> Result<(), Fail> {
    let mut old = parts_of(alloc, row.0)?;
    let mut new = parts_of(alloc, row.1)?;
    let count = row.0.len().saturating_add(row.1.len());
    let mut changes = vec![in alloc; Change::New(NO_PART); count]?;
    let Some(found) = differences(&mut old, &mut new, &mut changes) else {
        want_at(rt, index, false, true);
        return Ok(());
    };
    want_at(rt, index, found.len(), row.2.len());
    for (place, change) in found.iter().enumerate() {
        let Some(&(name, mark, old_size, new_size)) = row.2.get(place) else {
            continue;
        };
        want_at(rt, (index, place), change.part().name, name.as_bytes());
        want_at(rt, (index, place), mark_of(change), mark);
        want_at(rt, (index, place), change.old_size(), old_size);
        want_at(rt, (index, place), change.new_size(), new_size);
    }
    Ok(())
}

#[test]
fn rows_of_two_files(rt: HostRuntime) -> Result<(), Fail> {
    for (index, &row) in ROWS.iter().enumerate() {
        check_row(&rt, rt.alloc(), index, row)?;
    }
    Ok(())
}

#[test]
fn too_little_room(rt: HostRuntime) -> Result<(), Fail> {
    let mut old = parts_of(rt.alloc(), TWO_KINDS)?;
    let mut changes = vec![in rt.alloc(); Change::New(NO_PART); 1]?;
    let found = differences(&mut old, &mut [], &mut changes).is_some();
    want_at(&rt, 2, found, false);
    Ok(())
}

// Wants parts to have these places.
fn want_places(rt: &impl Abort, parts: &[SizedPart<'_>], places: &[usize]) {
    for (index, &place) in places.iter().enumerate() {
        let found = parts.get(index).map(|part| part.place);
        want_at(rt, (places, index), found, Some(place));
    }
}

#[test]
fn parts_are_sorted_if_there_is_room(rt: HostRuntime) -> Result<(), Fail> {
    let mut old = parts_of(rt.alloc(), SYMBOLS)?;
    let mut changes = vec![in rt.alloc(); Change::New(NO_PART); 5]?;
    let found = differences(&mut old, &mut [], &mut changes).is_some();
    want_at(&rt, "5 of 6", found, false);
    want_places(&rt, &old, &[6, 5, 9, 7, 8, 3]);
    let mut changes = vec![in rt.alloc(); Change::New(NO_PART); 6]?;
    let found = differences(&mut old, &mut [], &mut changes).is_some();
    want_at(&rt, "6 of 6", found, true);
    want_places(&rt, &old, &[8, 3, 5, 7, 6, 9]);
    Ok(())
}
