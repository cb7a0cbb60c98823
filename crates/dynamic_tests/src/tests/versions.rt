//! Versions of symbols in files of both classes and orders, written field by field from the layouts
//! of the records.

use crate::tests::want::{open, want, want_at};
use elf_base::ElfError;
use elf_base::bytes::text_at;
use elf_linking::LinkError;
use elf_linking::versions::{Definitions, NamedVersion, Needs, SymbolVersion, Versions};
use elf_linking::view::{DynamicView, strings};
use linking_callers::callers::versions::definition_of;
use std::process::Abort;
use worked_files::linked::versions::{NARROW, NARROW_TABLES, WIDE, WIDE_TABLES};
use worked_files::places::put;
use worked_files::rows;
use worked_files::versioned::{
    ALL, DEFINITIONS, Field, KINDS, NEEDS, NUMBERS_ENTRY, set_fields, set_segment_end, version_file,
};

const SHORT: LinkError = LinkError::ShortVersion;

const MANY: LinkError = LinkError::VersionCount;

const SYMBOLS: u64 = 8;

// The versions in the bytes of a file.
fn read<'a>(rt: &impl Abort, bytes: &'a [u8], count: u64) -> Result<Versions<'a>, LinkError> {
    let file = open(rt, bytes);
    let view = DynamicView::read(&file)?;
    Versions::read(&view, &file, count)
}

/// The number of a version of a symbol, whether it is hidden, and the name of what has it; None
/// where the file has no numbers of symbols, and the error where the version or its name can't be
/// read.
pub fn parts(
    version: Result<Option<SymbolVersion<'_>>, LinkError>,
) -> Result<Option<(u16, bool, Option<&str>)>, LinkError> {
    let Some(version) = version? else {
        return Ok(None);
    };
    let name = match version.named {
        Some(named) => Some(named.name()?),
        None => None,
    };
    Ok(Some((version.number, version.hidden, name)))
}

// The library that a symbol's version is needed of, if it is needed of one.
fn library_of<'a>(versions: &Versions<'a>, index: u32) -> Result<Option<&'a str>, LinkError> {
    match versions
        .version_of(index)?
        .and_then(|version| version.named)
    {
        Some(NamedVersion::Needed(need)) => Ok(Some(need.file()?)),
        _ => Ok(None),
    }
}

// A list of versions: the tag of its dynamic entry, behind which comes that of its number of
// records, its address, and its place in the file.
type List = (u64, u64, usize);

const OF_DEFINITIONS: List = (0x6fff_fffc, 0x1160, DEFINITIONS);

const OF_NEEDS: List = (0x6fff_fffe, 0x11b8, NEEDS);

// The number of the next definition, or of the next need.
fn next_of(
    list: List,
    (definitions, needs): (&mut Definitions<'_>, &mut Needs<'_>),
) -> Option<Result<u16, LinkError>> {
    if list == OF_NEEDS {
        needs.next().map(|need| need.map(|need| need.number))
    } else {
        let next = definitions.next();
        next.map(|definition| definition.map(|definition| definition.number))
    }
}

// Wants definitions or needs of these numbers and no more, also when they are asked for once more.
fn check_items(
    rt: &impl Abort,
    row: usize,
    versions: &Versions<'_>,
    list: List,
    items: &[Result<u16, LinkError>],
) {
    let (mut definitions, mut needs) = (versions.definitions(), versions.needs());
    for item in items {
        let found = next_of(list, (&mut definitions, &mut needs));
        want_at(rt, row, found, Some(*item));
    }
    for _again in 0..2 {
        let found = next_of(list, (&mut definitions, &mut needs));
        want_at(rt, row, found, None);
    }
    let counts = (versions.definitions().count(), versions.needs().count());
    let count = if list == OF_NEEDS { counts.1 } else { counts.0 };
    want_at(rt, row, count, items.len());
}

// Changed fields of a list, the number of its records, and the numbers that are read, with the error
// at the end.
type Row<'a> = (&'a [Field], u64, &'a [Result<u16, LinkError>]);

fn check_rows(rt: &impl Abort, list: List, rows: &[Row<'_>]) -> Result<(), LinkError> {
    for (row, &(fields, count, items)) in rows.iter().enumerate() {
        let entries = [(list.0, list.1), (list.0.wrapping_add(1), count)];
        for &(class, order) in KINDS {
            let mut bytes = version_file(class, order, &entries);
            set_fields(&mut bytes, list.2, fields, order);
            let versions = read(rt, &bytes, SYMBOLS)?;
            check_items(rt, row, &versions, list, items);
        }
    }
    Ok(())
}

// What is left of a list, where the segment ends at most so many bytes after its begin.
type Cut<'a> = (usize, &'a [Result<u16, LinkError>]);

fn check_cuts(rt: &impl Abort, list: List, count: u64, cuts: &[Cut<'_>]) -> Result<(), LinkError> {
    let entries = [(list.0, list.1), (list.0.wrapping_add(1), count)];
    let mut len = 1;
    for &(end, items) in cuts {
        for cut in len..end {
            for &(class, order) in KINDS {
                let mut bytes = version_file(class, order, &entries);
                set_segment_end(&mut bytes, class, list.2.wrapping_add(cut), order);
                let versions = read(rt, &bytes, SYMBOLS)?;
                check_items(rt, cut, &versions, list, items);
            }
        }
        len = end;
    }
    Ok(())
}

const DEFINED: &[(u16, u16, u32, &str)] = rows! {
    1, 1, 0x672, "ab"; 0, 2, 0x591, "V1"; 0, 3, 0x592, "V2";
};

#[test]
fn reads_definitions(rt: HostRuntime) -> Result<(), LinkError> {
    for &(class, order) in KINDS {
        let bytes = version_file(class, order, ALL);
        let table = strings(&open(&rt, &bytes))?;
        let mut definitions = read(&rt, &bytes, SYMBOLS)?.definitions();
        for &(flags, number, hash, name) in DEFINED {
            let Some(Ok(definition)) = definitions.next() else {
                return Err(LinkError::Missing);
            };
            let found = (definition.flags, definition.number, definition.hash);
            want_at(&rt, number, found, (flags, number, hash));
            want_at(&rt, number, definition.name(), Ok(name));
            let offset = definition.name_offset()?;
            want_at(&rt, number, text_at(table, offset as usize), Ok(name));
            want_at(&rt, number, definition.is_base(), number == 1);
        }
        want(&rt, definitions.next().is_none(), true);
    }
    Ok(())
}

const NEEDED: &[(u16, u16, bool, u32, &str, &str)] = &[
    (0, 4, false, 0x593, "V3", "libc"),
    (2, 5, true, 0x594, "V4", "libc"),
    (0, 6, false, 0x595, "V5", "libm"),
];

#[test]
fn reads_needs(rt: HostRuntime) -> Result<(), LinkError> {
    for &(class, order) in KINDS {
        let bytes = version_file(class, order, ALL);
        let table = strings(&open(&rt, &bytes))?;
        let mut needs = read(&rt, &bytes, SYMBOLS)?.needs();
        for &(flags, number, hidden, hash, name, file) in NEEDED {
            let Some(Ok(need)) = needs.next() else {
                return Err(LinkError::Missing);
            };
            let found = (need.flags, need.number, need.hidden, need.hash);
            want_at(&rt, number, found, (flags, number, hidden, hash));
            want_at(&rt, number, need.name(), Ok(name));
            let offsets = [need.name_offset(), need.file_offset()];
            want_at(&rt, number, text_at(table, offsets[0] as usize), Ok(name));
            want_at(&rt, number, text_at(table, offsets[1] as usize), Ok(file));
            want_at(&rt, number, need.file(), Ok(file));
        }
        want(&rt, needs.next().is_none(), true);
    }
    Ok(())
}

// Whatever the number of records, as `oracle/tables.py` shows for the linker of glibc.
const DEFINITION_ROWS: &[Row<'_>] = &[
    (&[], 0, &[Ok(1), Ok(2), Ok(3)]),
    (&[], 2, &[Ok(1), Ok(2), Ok(3)]),
    (&[], 3, &[Ok(1), Ok(2), Ok(3)]),
    (&[], 0xffff_ffff, &[Ok(1), Ok(2), Ok(3)]),
    (&[(16, 4, 0)], 3, &[Ok(1)]),
    (&[(16, 4, 56)], 3, &[Ok(1), Ok(3)]),
    (&[(60, 2, 0x8003)], 3, &[Ok(1), Ok(2), Ok(0x8003)]),
    (&[(12, 4, 0xffff_ffff)], 1, &[Ok(1), Ok(2), Ok(3)]),
    // a record that lies over the one before
    (&[(16, 4, 1)], 2, &[Ok(1), Ok(0x100), Err(SHORT)]),
    // one that follows the last, and lies past the end
    (&[(72, 4, 0x100)], 3, &[Ok(1), Ok(2), Ok(3), Err(SHORT)]),
    (&[(16, 4, 0xffff_ffff)], 3, &[Ok(1), Err(SHORT)]),
];

#[test]
fn goes_from_definition_to_definition(rt: HostRuntime) -> Result<(), LinkError> {
    check_rows(&rt, OF_DEFINITIONS, DEFINITION_ROWS)
}

// The first part of the needs is at 16, and the third at 64. The bytes have room for five parts.
const NEED_ROWS: &[Row<'_>] = &[
    (&[], 0, &[Ok(4), Ok(5), Ok(6)]),
    (&[], 1, &[Ok(4), Ok(5), Ok(6)]),
    (&[], 2, &[Ok(4), Ok(5), Ok(6)]),
    (&[], 0xffff_ffff, &[Ok(4), Ok(5), Ok(6)]),
    // whatever the number of parts
    (&[(2, 2, 0)], 2, &[Ok(4), Ok(5), Ok(6)]),
    (&[(2, 2, 1)], 2, &[Ok(4), Ok(5), Ok(6)]),
    (&[(2, 2, 6)], 2, &[Ok(4), Ok(5), Ok(6)]),
    (&[(50, 2, 0xffff)], 2, &[Ok(4), Ok(5), Ok(6)]),
    (&[(28, 4, 0)], 2, &[Ok(4), Ok(6)]),
    (&[(12, 4, 0)], 2, &[Ok(4), Ok(5)]),
    // parts of one need that are read as those of others too: more than there is room for
    (
        &[(44, 4, 16), (54, 2, 7), (60, 4, 16), (72, 4, 0)],
        2,
        &[Ok(4), Ok(5), Ok(7), Ok(6), Ok(6), Err(MANY)],
    ),
    // a need that lies over the one before
    (&[(12, 4, 1)], 2, &[Ok(4), Ok(5), Err(SHORT)]),
    (&[(12, 4, 0x100)], 2, &[Ok(4), Ok(5), Err(SHORT)]),
    (&[(8, 4, 0x100)], 2, &[Err(SHORT)]),
    (&[(28, 4, 0xffff_ffff)], 2, &[Ok(4), Err(SHORT)]),
];

#[test]
fn goes_from_need_to_need(rt: HostRuntime) -> Result<(), LinkError> {
    check_rows(&rt, OF_NEEDS, NEED_ROWS)
}

const CUT_DEFINITIONS: &[Cut<'_>] = rows! {
    20, &[Err(SHORT)]; 48, &[Ok(1), Err(SHORT)]; 76, &[Ok(1), Ok(2), Err(SHORT)];
    85, &[Ok(1), Ok(2), Ok(3)];
};

#[test]
fn tells_definitions_that_are_cut_off(rt: HostRuntime) -> Result<(), LinkError> {
    check_cuts(&rt, OF_DEFINITIONS, 3, CUT_DEFINITIONS)
}

const CUT_NEEDS: &[Cut<'_>] = rows! {
    32, &[Err(SHORT)]; 48, &[Ok(4), Err(SHORT)]; 80, &[Ok(4), Ok(5), Err(SHORT)];
    81, &[Ok(4), Ok(5), Ok(6)];
};

#[test]
fn tells_needs_that_are_cut_off(rt: HostRuntime) -> Result<(), LinkError> {
    check_cuts(&rt, OF_NEEDS, 2, CUT_NEEDS)
}

// The name of the second definition, where the segment ends so many bytes after the first.
const CUT_NAMES: &[(usize, Result<&str, LinkError>)] = rows! {
    48, Err(SHORT); 55, Err(SHORT); 56, Ok("V1"); 84, Ok("V1");
};

#[test]
fn tells_names_that_are_cut_off(rt: HostRuntime) -> Result<(), LinkError> {
    let entries = [(0x6fff_fffc, 0x1160), (0x6fff_fffd, 3)];
    for &(cut, name) in CUT_NAMES {
        for &(class, order) in KINDS {
            let mut bytes = version_file(class, order, &entries);
            set_segment_end(&mut bytes, class, DEFINITIONS.wrapping_add(cut), order);
            let found = read(&rt, &bytes, SYMBOLS)?.definitions().nth(1);
            let Some(Ok(definition)) = found else {
                return Err(LinkError::Missing);
            };
            want_at(&rt, cut, definition.name(), name);
        }
    }
    Ok(())
}

// The index of a symbol, the number of its version, whether it is hidden, the name and the hash of
// what has the number, and the library that it is needed of.
const VERSIONS: &[(u32, u16, bool, Option<(&str, u32)>, Option<&str>)] = rows! {
    0, 0, false, None, None; 1, 1, false, None, None; 2, 2, false, Some(("V1", 0x591)), None;
    3, 3, true, Some(("V2", 0x592)), None; 4, 4, false, Some(("V3", 0x593)), Some("libc");
    5, 5, true, Some(("V4", 0x594)), Some("libc"); 6, 9, false, None, None; 7, 1, true, None, None;
};

#[test]
fn tells_the_version_of_a_symbol(rt: HostRuntime) -> Result<(), LinkError> {
    for &(class, order) in KINDS {
        let bytes = version_file(class, order, ALL);
        let versions = read(&rt, &bytes, SYMBOLS)?;
        for &(index, number, hidden, named, library) in VERSIONS {
            let found = versions
                .version_of(index)?
                .and_then(|version| version.named);
            let hash = found.map(|found| found.hash());
            want_at(&rt, index, hash, named.map(|named| named.1));
            let name = named.map(|named| named.0);
            let found = parts(versions.version_of(index));
            want_at(&rt, index, found, Ok(Some((number, hidden, name))));
            let raw = number | if hidden { 0x8000 } else { 0 };
            want_at(&rt, index, versions.number(index), Ok(Some(raw)));
            want_at(&rt, index, library_of(&versions, index), Ok(library));
        }
        let past = Err(LinkError::SymbolIndex);
        want(&rt, parts(versions.version_of(8)), past);
        want(&rt, versions.number(u32::MAX), Err(LinkError::SymbolIndex));
    }
    Ok(())
}

// Changed fields behind the start of the definitions, where the needs begin at 88, and what has
// the number 2 of symbol 2 then.
const VERSIONED: &[(&[Field], Result<Option<&str>, LinkError>)] = &[
    // a base, and a need, with this number
    (&[(4, 2, 2)], Ok(Some("V1"))),
    (&[(110, 2, 2)], Ok(Some("V1"))),
    // two definitions, and two parts, with it
    (&[(60, 2, 2)], Ok(Some("V1"))),
    (&[(32, 2, 7), (60, 2, 2)], Ok(Some("V2"))),
    (&[(32, 2, 7), (110, 2, 2), (126, 2, 2)], Ok(Some("V3"))),
    (&[(32, 2, 7), (126, 2, 0x8002)], Ok(Some("V4"))),
    // only a base
    (&[(30, 2, 1)], Ok(None)),
    // bits 0 to 14 of the number of a definition count
    (&[(32, 2, 0x8002)], Ok(Some("V1"))),
    (&[(32, 2, 0x4002)], Ok(None)),
    // records that are cut off before it and after it
    (&[(16, 4, 0x1000)], Err(SHORT)),
    (&[(44, 4, 0x1000)], Ok(Some("V1"))),
    (&[(32, 2, 7), (96, 4, 0x1000)], Err(SHORT)),
    // parts whose number isn't read
    (&[(32, 2, 7), (90, 2, 6)], Ok(None)),
    // a name that is cut off, or past the end of the strings
    (&[(40, 4, 0x1000)], Err(SHORT)),
    (&[(48, 4, 0x1000)], Err(LinkError::Elf(ElfError::TextStart))),
];

#[test]
fn tells_what_has_a_number(rt: HostRuntime) -> Result<(), LinkError> {
    for (row, &(fields, name)) in VERSIONED.iter().enumerate() {
        for &(class, order) in KINDS {
            let mut bytes = version_file(class, order, ALL);
            set_fields(&mut bytes, DEFINITIONS, fields, order);
            let found = parts(read(&rt, &bytes, SYMBOLS)?.version_of(2));
            let wanted = name.map(|name| Some((2, false, name)));
            want_at(&rt, row, found, wanted);
        }
    }
    Ok(())
}

// Dynamic entries, a number of symbols, and the failure.
const FAILED: &[(&[(u64, u64)], u64, LinkError)] = rows! {
    &[(0x6fff_fffc, 0x1208), (0x6fff_fffd, 1)], 8, LinkError::Address;
    &[(0x6fff_fffe, 0xfff), (0x6fff_ffff, 1)], 8, LinkError::Address;
    &[(0x6fff_fff0, 0xfff), (0x6fff_fffe, 0x11b8)], 8, LinkError::Address;
    &[NUMBERS_ENTRY, (0x6fff_fffe, 0x11b8)], 0x5d, LinkError::Address;
    &[NUMBERS_ENTRY, (0x6fff_fffc, 0x1160)], 1 << 63, LinkError::Address;
    &[(0x6fff_fffc, 0x1160), NUMBERS_ENTRY], u64::MAX, LinkError::Address;
};

#[test]
fn tells_why_no_tables_are_read(rt: HostRuntime) {
    for (row, &(entries, count, error)) in FAILED.iter().enumerate() {
        for &(class, order) in KINDS {
            let bytes = version_file(class, order, entries);
            want_at(&rt, row, read(&rt, &bytes, count).err(), Some(error));
        }
    }
}

// Entries of a file that defines and needs no version: also numbers of symbols, and numbers of
// records that aren't there.
const WITHOUT: &[&[(u64, u64)]] = &[
    &[],
    &[NUMBERS_ENTRY],
    &[(0x6fff_fff0, 0xfff), (0x6fff_fffd, 3), (0x6fff_ffff, 2)],
];

#[test]
fn reads_a_file_without_versions(rt: HostRuntime) -> Result<(), LinkError> {
    for (row, entries) in WITHOUT.iter().enumerate() {
        for &(class, order) in KINDS {
            let bytes = version_file(class, order, entries);
            let versions = read(&rt, &bytes, u64::MAX)?;
            check_items(&rt, row, &versions, OF_DEFINITIONS, &[]);
            check_items(&rt, row, &versions, OF_NEEDS, &[]);
            want_at(&rt, row, versions.number(0), Ok(None));
            let version = parts(versions.version_of(u32::MAX));
            want_at(&rt, row, version, Ok(None));
        }
    }
    Ok(())
}

const DEFINITIONS_OF: &[(&str, Option<u16>)] = rows! {
    "V1", Some(2); "V2", Some(3); "V3", None; "ab", None;
};

#[test]
fn finds_versions_by_their_names(rt: HostRuntime) -> Result<(), LinkError> {
    for &(class, order) in KINDS {
        let bytes = version_file(class, order, ALL);
        let versions = read(&rt, &bytes, SYMBOLS)?;
        for &(name, number) in DEFINITIONS_OF {
            let found = definition_of(&versions, name)?;
            want_at(&rt, name, found.map(|found| found.number), number);
        }
    }
    Ok(())
}

// The versions of a shared object, with as many symbols as its hash table says.
fn linked<'a>(rt: &impl Abort, bytes: &'a [u8]) -> Result<Versions<'a>, LinkError> {
    let file = open(rt, bytes);
    let view = DynamicView::read(&file)?;
    let count = view.symbol_count(&file)?;
    Versions::read(&view, &file, count)
}

// The versions of the symbols, as `readelf -V` shows them: those of `outer`, `V1`, `ab@@V2`,
// `ab@V1`, `call` and `V2`.
const LINKED: &[(u32, u16, bool, Option<&str>)] = rows! {
    0, 0, false, None; 1, 4, false, Some("w1"); 2, 2, false, Some("V1"); 3, 3, false, Some("V2");
    4, 2, true, Some("V1"); 5, 3, false, Some("V2"); 6, 3, false, Some("V2");
};

fn check_linked(rt: &impl Abort, versions: &Versions<'_>) {
    for &(index, number, hidden, name) in LINKED {
        let found = parts(versions.version_of(index));
        want_at(rt, index, found, Ok(Some((number, hidden, name))));
    }
    want(rt, versions.number(7), Err(LinkError::SymbolIndex));
    check_items(rt, 0, versions, OF_DEFINITIONS, &[Ok(1), Ok(2), Ok(3)]);
    check_items(rt, 0, versions, OF_NEEDS, &[Ok(4)]);
    want(rt, library_of(versions, 1), Ok(Some("libw.so")));
}

#[test]
fn reads_what_a_linker_wrote(rt: HostRuntime) -> Result<(), LinkError> {
    check_linked(&rt, &linked(&rt, NARROW)?);
    check_linked(&rt, &linked(&rt, WIDE)?);
    Ok(())
}

// Reads all that the tables of a damaged file say: each list is short, and each version has the
// number of its symbol.
fn check_damaged(rt: &impl Abort, place: usize, bytes: &[u8]) -> Result<(), LinkError> {
    let versions = linked(rt, bytes)?;
    want_at(rt, place, versions.definitions().count() <= 8, true);
    want_at(rt, place, versions.needs().count() <= 8, true);
    for index in 0..7 {
        let Some(raw) = versions.number(index)? else {
            return Err(LinkError::Missing);
        };
        if let Ok(Some(version)) = versions.version_of(index) {
            want_at(rt, place, version.number, raw % 0x8000);
            want_at(rt, place, version.hidden, raw >= 0x8000);
        }
    }
    Ok(())
}

const DAMAGES: &[u8] = &[0, 1, 2, 16, 0x7f, 0xff];

#[test]
fn reads_damaged_tables(rt: HostRuntime) -> Result<(), LinkError> {
    for place in NARROW_TABLES.0..NARROW_TABLES.1 {
        for damage in DAMAGES {
            let mut bytes = *NARROW;
            put(&mut bytes, place, &[*damage]);
            check_damaged(&rt, place, &bytes)?;
        }
    }
    for place in WIDE_TABLES.0..WIDE_TABLES.1 {
        for damage in DAMAGES {
            let mut bytes = *WIDE;
            put(&mut bytes, place, &[*damage]);
            check_damaged(&rt, place, &bytes)?;
        }
    }
    Ok(())
}
