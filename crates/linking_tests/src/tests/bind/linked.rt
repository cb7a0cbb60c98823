//! The references of a program and two libraries that a linker wrote, as `readelf -rW` shows them,
//! and the symbols that they get, by the rules from the sources. The dynamic linker of glibc 2.36
//! prints the same bindings under `LD_DEBUG=bindings LD_BIND_NOW=1`, in either order of the
//! libraries.

use crate::tests::bind::Answer;
use crate::tests::bind::files::{
    NARROW_CALLER, NARROW_FIRST, NARROW_SECOND, WIDE_CALLER, WIDE_FIRST, WIDE_SECOND,
};
use crate::tests::want::{open, want, want_at};
use elf_base::ElfError;
use elf_linking::references::Reference;
use elf_linking::scope::Scope;
use elf_linking::view::LinkedSymbol;
use elf_linking::{CheckedObject, CheckedScope, DynamicObject, LinkError};
use linking_callers::callers::second_file::is_of_second_file;
use std::process::Abort;
use worked_files::places::put;
use worked_files::rows;
use xmas_elf::symbol_table::{DynEntry32, DynEntry64};

// The offset, the type, the index of the symbol and the addend of each reference.
type Listed = (u64, u32, u32, u64);

const NARROW_REFERENCES: &[&[Listed]; 3] = rows! {
    &[(0x80493e8, 5, 7, 0), (0x80493d8, 7, 1, 0), (0x80493dc, 7, 5, 0), (0x80493e0, 7, 2, 0),
        (0x80493e4, 7, 3, 0)];
    &[(0x1484, 35, 6, 0), (0x1488, 36, 6, 0), (0x148c, 6, 12, 0), (0x14ac, 1, 2, 0),
        (0x14b4, 1, 10, 0), (0x149c, 7, 10, 0), (0x14a0, 7, 5, 0)];
    &[(0x141c, 6, 4, 0), (0x1420, 14, 9, 0), (0x1424, 6, 10, 0), (0x1450, 1, 12, 0),
        (0x1454, 1, 8, 0), (0x1458, 1, 8, 0), (0x1434, 7, 3, 0), (0x1438, 7, 12, 0),
        (0x1444, 41, 7, 0)];
};

const WIDE_REFERENCES: &[&[Listed]; 3] = rows! {
    &[(0x401608, 5, 7, 0), (0x4015e8, 7, 1, 0), (0x4015f0, 7, 5, 0), (0x4015f8, 7, 2, 0),
        (0x401600, 7, 3, 0)];
    &[(0x1690, 16, 6, 0), (0x1698, 17, 6, 0), (0x16a0, 6, 12, 0), (0x16e0, 1, 2, 0),
        (0x16f0, 1, 10, 0), (0x16c0, 7, 10, 0), (0x16c8, 7, 5, 0)];
    &[(0x1668, 6, 4, 0), (0x1670, 18, 9, 0), (0x1678, 6, 10, 0), (0x16e0, 1, 12, 0),
        (0x16f0, 1, 8, 4), (0x16f8, 1, 8, 0xffff_ffff_ffff_fffc), (0x16a0, 7, 3, 0),
        (0x16a8, 7, 12, 0), (0x16c0, 36, 7, 0)];
};

// The file and the symbol that each of them gets; the libraries in their order, and in the other.
type Bindings = &'static [&'static [Option<(usize, u32)>]; 3];

const BINDINGS: Bindings = rows! {
    // shared, version@V1, taken, version@@V2 and choose of the first library
    &[Some((1, 12)), Some((1, 4)), Some((1, 9)), Some((1, 8)), Some((1, 5))];
    // per_thread twice, shared of the program, kept, own of the program twice, and choose
    &[Some((1, 6)), Some((1, 6)), Some((0, 7)), Some((1, 2)), Some((0, 6)), Some((0, 6)),
        Some((1, 5))];
    // only, static_thread, absent, taken and twice shared of the program, version@V1, taken and
    // per_thread
    &[Some((2, 4)), Some((1, 7)), None, Some((0, 5)), Some((0, 7)), Some((0, 7)), Some((1, 4)),
        Some((1, 9)), Some((1, 6))];
};

const OTHER_BINDINGS: Bindings = rows! {
    // choose of the second library
    &[Some((2, 12)), Some((2, 4)), Some((2, 9)), Some((2, 8)), Some((1, 6))];
    &[Some((1, 4)), Some((2, 7)), None, Some((0, 5)), Some((0, 7)), Some((0, 7)), Some((2, 4)),
        Some((2, 9)), Some((2, 6))];
    &[Some((2, 6)), Some((2, 6)), Some((0, 7)), Some((2, 2)), Some((0, 6)), Some((0, 6)),
        Some((1, 6))];
};

// The dynamic symbols of a file, whose table and versions pass their checks.
fn loaded<'a, E: LinkedSymbol>(
    rt: &impl Abort,
    file: &'a [u8],
) -> Result<DynamicObject<'a, E>, LinkError> {
    let object = DynamicObject::read(&open(rt, file))?;
    object.check()?;
    object.check_versions()?;
    Ok(object)
}

// A program and its two libraries. An array with references can't be returned by itself.
#[derive(Drop)]
struct ThreeObjects<'a, E: LinkedSymbol> {
    objects: [DynamicObject<'a, E>; 3],
}

// The same of a program and its two libraries.
fn loaded_all<'a, E: LinkedSymbol>(
    rt: &impl Abort,
    files: [&'a [u8]; 3],
) -> Result<ThreeObjects<'a, E>, LinkError> {
    let [program, first, second] = files;
    let objects = [
        loaded(rt, program)?,
        loaded(rt, first)?,
        loaded(rt, second)?,
    ];
    Ok(ThreeObjects { objects })
}

// Wants these references of each file.
fn check_listed<E: LinkedSymbol>(
    rt: &impl Abort,
    files: [&[u8]; 3],
    listed: &[&[Listed]; 3],
) -> Result<(), LinkError> {
    for (file, listed) in files.iter().zip(listed) {
        let object = loaded::<E>(rt, file)?;
        let mut references = object.references()?;
        for &wanted in *listed {
            let found = references.next();
            let found = found.map(|it| (it.offset, it.kind, it.symbol, it.addend));
            want(rt, found, Some(wanted));
        }
        want(rt, references.next(), None);
    }
    Ok(())
}

// What a reference gets, where the symbol is that of the object at its index.
fn bound_in<E: LinkedSymbol>(
    rt: &impl Abort,
    objects: &[DynamicObject<'_, E>],
    from: usize,
    reference: &Reference,
) -> Answer {
    let Some(bound) = Scope::new(objects).bind(from, reference)? else {
        return Ok(None);
    };
    if let Some(object) = objects.get(bound.object) {
        let value = object.symbol(bound.index).map(|symbol| symbol.value());
        want(rt, Some(bound.symbol.value()), value);
    }
    Ok(Some((bound.object, bound.index)))
}

// Wants these bindings of the references of each object.
fn check_scope<E: LinkedSymbol>(
    rt: &impl Abort,
    objects: &[DynamicObject<'_, E>; 3],
    bindings: Bindings,
) -> Result<(), LinkError> {
    for (from, (object, bindings)) in objects.iter().zip(bindings).enumerate() {
        let mut wanted = bindings.iter();
        for reference in object.references()? {
            let found = bound_in(rt, objects, from, &reference)?;
            want_at(rt, reference, Some(&found), wanted.next());
        }
        want_at(rt, from, wanted.next(), None);
    }
    Ok(())
}

// Wants these bindings of the iterator over all references, in the order of the objects.
fn check_bindings<E: LinkedSymbol>(
    rt: &impl Abort,
    objects: &[DynamicObject<'_, E>; 3],
    bindings: Bindings,
) -> Result<(), LinkError> {
    let mut found = Scope::new(objects).bindings();
    for (from, wanted) in bindings.iter().enumerate() {
        for &wanted in *wanted {
            let Some(Ok(binding)) = found.next() else {
                panic!(rt; "no binding of object {from}");
            };
            want_at(rt, binding.reference, binding.from, from);
            want_at(rt, from, binding.asked.err(), None);
            let bound = binding.bound?.map(|bound| (bound.object, bound.index));
            want_at(rt, binding.reference, bound, wanted);
        }
    }
    want(rt, found.next().is_none(), true);
    Ok(())
}

// Wants these bindings of the iterator over all references of the same objects after their checks.
fn check_checked_bindings<E: LinkedSymbol>(
    rt: &impl Abort,
    objects: &[DynamicObject<'_, E>; 3],
    bindings: Bindings,
) -> Result<(), LinkError> {
    let program = CheckedObject::of(objects[0])?;
    let first = CheckedObject::of(objects[1])?;
    let second = CheckedObject::of(objects[2])?;
    let objects = [program, first, second];
    let mut found = CheckedScope::new(&objects).bindings();
    for (from, wanted) in bindings.iter().enumerate() {
        for &wanted in *wanted {
            let Some(Ok(binding)) = found.next() else {
                panic!(rt; "no binding of object {from}");
            };
            want_at(rt, binding.reference, binding.from, from);
            let bound = binding.bound.map(|bound| (bound.object, bound.index));
            want_at(rt, binding.reference, bound, wanted);
        }
    }
    want(rt, found.next().is_none(), true);
    // `absent`, which no object gives, is weak
    want(
        rt,
        CheckedScope::new(&objects).unresolved().next().is_none(),
        true,
    );
    Ok(())
}

// Wants these bindings of the references of each file.
fn check_bound<E: LinkedSymbol>(
    rt: &impl Abort,
    files: [&[u8]; 3],
    bindings: Bindings,
) -> Result<(), LinkError> {
    let objects = loaded_all::<E>(rt, files)?.objects;
    check_bindings(rt, &objects, bindings)?;
    check_checked_bindings(rt, &objects, bindings)?;
    check_scope(rt, &objects, bindings)
}

#[test]
fn lists_and_binds_references(rt: HostRuntime) -> Result<(), LinkError> {
    let files: [&[u8]; 3] = [NARROW_CALLER, NARROW_FIRST, NARROW_SECOND];
    check_listed::<DynEntry32>(&rt, files, NARROW_REFERENCES)?;
    check_bound::<DynEntry32>(&rt, files, BINDINGS)?;
    let files: [&[u8]; 3] = [WIDE_CALLER, WIDE_FIRST, WIDE_SECOND];
    check_listed::<DynEntry64>(&rt, files, WIDE_REFERENCES)?;
    check_bound::<DynEntry64>(&rt, files, BINDINGS)
}

// The number of the program's entry PltRel, at 0x4f8, is neither Rel nor Rela: an item tells it, and
// the next is of the first library.
#[test]
fn goes_on_after_relocations_that_are_not_read(rt: HostRuntime) -> Result<(), LinkError> {
    let mut program = *WIDE_CALLER;
    put(&mut program, 0x4f8, &[8]);
    let program = DynamicObject::<DynEntry64>::read(&open(&rt, &program))?;
    let first = loaded::<DynEntry64>(&rt, WIDE_FIRST)?;
    let objects = [program, first];
    let mut bindings = Scope::new(&objects).bindings();
    let failed = bindings.next().and_then(|item| item.err());
    want(&rt, failed, Some((0, LinkError::RelocationKind)));
    let next = bindings.next().and_then(|item| item.ok());
    want(&rt, next.map(|binding| binding.from), Some(1));
    let checked = [CheckedObject::of(program)?, CheckedObject::of(first)?];
    let mut bindings = CheckedScope::new(&checked).bindings();
    let unread = bindings.next().and_then(|item| item.err());
    want(&rt, unread, Some(0));
    let next = bindings.next().and_then(|item| item.ok());
    want(&rt, next.map(|binding| binding.from), Some(1));
    let unread = CheckedScope::new(&checked).unresolved().next();
    want(&rt, unread.and_then(|item| item.err()), Some(0));
    Ok(())
}

// Where the references are that the program, with a byte of it changed, doesn't get without its
// libraries.
fn check_unresolved(rt: &impl Abort, change: (usize, u8), wanted: &[u64]) -> Result<(), LinkError> {
    let mut program = *WIDE_CALLER;
    put(&mut program, change.0, &[change.1]);
    let program = DynamicObject::<DynEntry64>::read(&open(rt, &program))?;
    let checked = [CheckedObject::of(program)?];
    let mut found = CheckedScope::new(&checked).unresolved();
    for &offset in wanted {
        let item = found.next().and_then(|item| item.ok());
        let item = item.map(|item| (item.from, item.reference.offset));
        want(rt, item, Some((0, offset)));
    }
    want(rt, found.next().is_none(), true);
    Ok(())
}

// `ld.so` says of the program alone that it finds none of the five; at 516 is the binding of symbol 1,
// which is made weak.
#[test]
fn lists_unresolved_references(rt: HostRuntime) -> Result<(), LinkError> {
    let all = [0x401608, 0x4015e8, 0x4015f0, 0x4015f8, 0x401600];
    check_unresolved(&rt, (516, 0x12), &all)?;
    check_unresolved(&rt, (516, 0x22), &[0x401608, 0x4015f0, 0x4015f8, 0x401600])
}

#[test]
fn binds_in_another_order(rt: HostRuntime) -> Result<(), LinkError> {
    let files: [&[u8]; 3] = [NARROW_CALLER, NARROW_SECOND, NARROW_FIRST];
    check_bound::<DynEntry32>(&rt, files, OTHER_BINDINGS)?;
    let files: [&[u8]; 3] = [WIDE_CALLER, WIDE_SECOND, WIDE_FIRST];
    check_bound::<DynEntry64>(&rt, files, OTHER_BINDINGS)
}

/// A file, a place in it, and the byte there.
pub type Change = (usize, usize, u8);

// The changes in class 32 and in class 64, the file of a reference and its place among the
// references of the file, and the file and the symbol that it gets.
type Row = (
    &'static [Change],
    &'static [Change],
    (usize, usize),
    (usize, u32),
);

// What a reference gets where the binding or the visibility of a symbol is changed, by the rules.
// The dynamic linker of glibc 2.36 prints the same bindings for the files of class 64. The last rows
// change dynamic entries of the second library, by the rules alone.
const CHANGED: &[Row] = rows! {
    // `choose` of the first library is hidden, internal, protected or local
    &[(1, 401, 2)], &[(1, 565, 2)], (0, 4), (2, 6);
    &[(1, 401, 2)], &[(1, 565, 2)], (1, 6), (1, 5);
    &[(1, 401, 1)], &[(1, 565, 1)], (0, 4), (2, 6);
    &[(1, 401, 0xfe)], &[(1, 565, 0xfe)], (0, 4), (2, 6);
    &[(1, 401, 0xfc)], &[(1, 565, 0xfc)], (0, 4), (1, 5);
    &[(1, 401, 3)], &[(1, 565, 3)], (0, 4), (1, 5);
    &[(1, 401, 3)], &[(1, 565, 3)], (1, 6), (1, 5);
    &[(1, 400, 2)], &[(1, 564, 2)], (0, 4), (2, 6);
    &[(1, 400, 2)], &[(1, 564, 2)], (1, 6), (1, 5);
    // `own` of the first library is protected, whose address and whose jump slot are its own
    &[(1, 481, 3)], &[(1, 685, 3)], (1, 4), (1, 10);
    &[(1, 481, 3)], &[(1, 685, 3)], (1, 5), (1, 10);
    // `own` of the program is hidden
    &[(0, 421, 2)], &[(0, 637, 2)], (1, 4), (1, 10);
    // `shared` of the first library is protected: the program copies it, and the library doesn't
    // use the copy
    &[(1, 513, 3)], &[(1, 733, 3)], (0, 0), (1, 12);
    &[(1, 513, 3)], &[(1, 733, 3)], (1, 2), (1, 12);
    // `shared` of the program is protected, and is still copied from the library
    &[(0, 437, 3)], &[(0, 661, 3)], (0, 0), (1, 12);
    // `taken` of the first library is protected, and its address is that in the program
    &[(1, 465, 3)], &[(1, 661, 3)], (2, 3), (0, 5);
    &[(1, 465, 3)], &[(1, 661, 3)], (0, 2), (1, 9);
    // `only` of the second library, whose dynamic entries begin at 0x374 and 0x4f8
    &[], &[], (2, 0), (2, 4);
    // d_tag of the entry SYMBOLIC
    &[(2, 0x37c, 24)], &[(2, 0x508, 24)], (2, 0), (2, 4);
    // d_un of the entry FLAGS
    &[(2, 0x3e8, 0x10)], &[(2, 0x600, 0x10)], (2, 0), (2, 4);
    &[(2, 0x37c, 24), (2, 0x3e8, 0x10)], &[(2, 0x508, 24), (2, 0x600, 0x10)], (2, 0), (1, 1);
    // d_tag of the entry FLAGS
    &[(2, 0x37c, 24), (2, 0x3e4, 24)], &[(2, 0x508, 24), (2, 0x5f8, 24)], (2, 0), (1, 1);
};

/// Changes bytes of the program and of the libraries.
pub fn make_changes(program: &mut [u8], first: &mut [u8], second: &mut [u8], changes: &[Change]) {
    for &(file, place, byte) in changes {
        match file {
            0 => put(program, place, &[byte]),
            1 => put(first, place, &[byte]),
            _ => put(second, place, &[byte]),
        }
    }
}

/// What the reference at a place among those of a file gets.
pub fn bound_at<E: LinkedSymbol>(
    rt: &impl Abort,
    files: [&[u8]; 3],
    (from, place): (usize, usize),
) -> Answer {
    let objects = loaded_all::<E>(rt, files)?.objects;
    let Some(asking) = objects.get(from) else {
        return Ok(None);
    };
    for (index, reference) in asking.references()?.enumerate() {
        if index == place {
            return bound_in(rt, &objects, from, &reference);
        }
    }
    Ok(None)
}

#[test]
fn binds_after_a_change(rt: HostRuntime) {
    for (row, &(narrow, wide, at, found)) in CHANGED.iter().enumerate() {
        let (mut program, mut first) = (*NARROW_CALLER, *NARROW_FIRST);
        let mut second = *NARROW_SECOND;
        make_changes(&mut program, &mut first, &mut second, narrow);
        let files: [&[u8]; 3] = [&program, &first, &second];
        let bound = bound_at::<DynEntry32>(&rt, files, at);
        want_at(&rt, row, bound, Ok(Some(found)));
        let (mut program, mut first) = (*WIDE_CALLER, *WIDE_FIRST);
        let mut second = *WIDE_SECOND;
        make_changes(&mut program, &mut first, &mut second, wide);
        let files: [&[u8]; 3] = [&program, &first, &second];
        let bound = bound_at::<DynEntry64>(&rt, files, at);
        want_at(&rt, row, bound, Ok(Some(found)));
    }
}

// The names that the program refers to, whether it gets each from the second file, and whether it
// does where the libraries are in the other order.
const OF_SECOND: &[(&str, bool, bool)] = rows! {
    "choose", true, true; "shared", true, false; "version", true, false; "taken", true, false;
    "own", false, false; "only", false, false; "", false, false;
};

// Wants the answers for a program and two libraries.
fn check_second<E: LinkedSymbol>(rt: &impl Abort, files: [&[u8]; 3]) {
    let [program, first, second] = files;
    for &(name, wanted, other) in OF_SECOND {
        let found = is_of_second_file::<E>(program, first, second, name);
        want_at(rt, name, found, Ok(wanted));
        let found = is_of_second_file::<E>(program, second, first, name);
        want_at(rt, name, found, Ok(other));
    }
    let found = is_of_second_file::<E>(program, first, &[0x7f], "choose");
    want(rt, found, Err(LinkError::Elf(ElfError::ShortPart1)));
}

#[test]
fn tells_what_is_of_the_second_file(rt: HostRuntime) {
    check_second::<DynEntry32>(&rt, [NARROW_CALLER, NARROW_FIRST, NARROW_SECOND]);
    check_second::<DynEntry64>(&rt, [WIDE_CALLER, WIDE_FIRST, WIDE_SECOND]);
    let found = is_of_second_file::<DynEntry32>(WIDE_CALLER, WIDE_FIRST, WIDE_SECOND, "choose");
    want(&rt, found, Err(LinkError::UnknownClass));
}

// A machine, a type of a relocation with a symbol index other than 0, in two bytes, and whether it
// names the symbol: not if it is NONE or RELATIVE of the machine. IRELATIVE does.
const TYPES: &[(u8, [u8; 2], bool)] = rows! {
    62, [0, 0], false; 62, [8, 0], false; 62, [38, 0], false; 62, [37, 0], true; 62, [1, 0], true;
    62, [0, 1], true; 62, [3, 4], true; 3, [0, 0], false; 3, [8, 0], false; 3, [42, 0], true;
    3, [38, 0], true; 183, [0, 0], false; 183, [0, 1], true; 183, [3, 4], false; 183, [8, 4], true;
    183, [8, 0], true; 8, [0, 0], true; 8, [8, 0], true;
};

// How many references a file has.
fn reference_count<E: LinkedSymbol>(rt: &impl Abort, file: &[u8]) -> Result<usize, LinkError> {
    let object = DynamicObject::<E>::read(&open(rt, file))?;
    Ok(object.references()?.count())
}

// The type of the relocation of `kept` in the first library is at byte 780 in class 32, in one byte,
// and at 1096 in class 64. In class 32 it is in the table Rel, which isn't read for x86-64 and AArch64:
// the two jump slots alone are references then.
#[test]
fn names_a_symbol_by_its_type(rt: HostRuntime) {
    for &(machine, kind, named) in TYPES {
        let count = if named { 7 } else { 6 };
        let mut first = *WIDE_FIRST;
        put(&mut first, 18, &[machine]);
        put(&mut first, 1096, &kind);
        let found = reference_count::<DynEntry64>(&rt, &first);
        want_at(&rt, (machine, kind), found, Ok(count));
        if kind[1] == 0 {
            let mut first = *NARROW_FIRST;
            put(&mut first, 18, &[machine]);
            put(&mut first, 780, &[kind[0]]);
            let found = reference_count::<DynEntry32>(&rt, &first);
            let count = if machine == 62 || machine == 183 {
                2
            } else {
                count
            };
            want_at(&rt, (machine, kind), found, Ok(count));
        }
    }
}
