//! What objects ask for, and the versions that others lack.

use crate::tests::want::want_at;
use elf_base::bytes::Order;
use elf_linking::LinkError;
use elf_linking::versions::Versions;
use elf_linking::view::{DT_RPATH, DT_RUNPATH, DT_SONAME, DynamicView};
use elf_search::SearchError;
use elf_search::library::{DF_1_INITFIRST, DF_1_NODEFLIB, check_library, check_shared, has_flag_1};
use elf_search::names::{NameKind, last_text, needed_names};
use elf_search::versions::{Lack, MissingVersions, Provided, Provider, missing_versions};
use std::process::Abort;
use std::test::Fail;
use worked_files::linked::small::SMALL;
use worked_files::versioned::{ALL, version_file};
use xmas_elf::ElfFile;

// The file in these bytes.
fn open<'a>(rt: &impl Abort, bytes: &'a [u8]) -> ElfFile<'a> {
    ElfFile::new(bytes).expect(rt, "an ELF file")
}

// readelf -d prints one library, a name and a run path.
#[test]
fn names_are_those_of_readelf(rt: HostRuntime) -> Result<(), LinkError> {
    let file = open(&rt, SMALL);
    let view = DynamicView::read(&file)?;
    let mut names = needed_names(&view);
    let needed = names.next().expect(&rt, "a name");
    want_at(&rt, "kind", needed.kind, NameKind::Needed);
    want_at(&rt, "name", needed.name, Ok(b"libneed.so".as_slice()));
    want_at(&rt, "one name", names.next().is_none(), true);
    let texts = [
        last_text(&view, DT_SONAME),
        last_text(&view, DT_RUNPATH),
        last_text(&view, DT_RPATH),
    ];
    let wanted = [
        Some(Ok(b"libsmall.so".as_slice())),
        Some(Ok(b"/opt/lib".as_slice())),
        None,
    ];
    want_at(&rt, "texts", texts, wanted);
    want_at(&rt, "flag", has_flag_1(&view, DF_1_NODEFLIB), false);
    want_at(&rt, "library", check_library(&file), Ok(()));
    want_at(&rt, "shared", check_shared(&view), Ok(()));
    Ok(())
}

// The same names, as a caller gets them.
#[test]
fn names_of_needed_libraries(rt: HostRuntime) -> Result<(), Fail> {
    let file = ElfFile::new(SMALL)?;
    let view = DynamicView::read(&file)?;
    let mut names = Vec::new(rt.alloc());
    for needed in needed_names(&view) {
        names.extend_from_slice(needed.name?)?;
        names.push(b'\n')?;
    }
    want_at(&rt, "names", names.as_slice(), b"libneed.so\n");
    Ok(())
}

// Two bytes of DT_FLAGS_1, as gcc links a library with -z initfirst, -z nodefaultlib, both, or -z now, and
// whether readelf -d prints INITFIRST and NODEFLIB.
const FLAGS: &[([u8; 2], bool, bool)] = &[
    ([0x20, 0], true, false),
    ([0, 8], false, true),
    ([0x20, 8], true, true),
    ([1, 0], false, false),
];

#[test]
fn flags_are_those_of_readelf(rt: HostRuntime) -> Result<(), LinkError> {
    for &(flags, is_first, has_no_default) in FLAGS {
        let bytes = with_flags(flags);
        let file = open(&rt, &bytes);
        let view = DynamicView::read(&file)?;
        let found = has_flag_1(&view, DF_1_INITFIRST);
        want_at(&rt, flags, found, is_first);
        let found = has_flag_1(&view, DF_1_NODEFLIB);
        want_at(&rt, flags, found, has_no_default);
    }
    Ok(())
}

// The file with the entry DT_FLAGS_1 before its DT_NULL.
fn with_flags(flags: [u8; 2]) -> [u8; 912] {
    let mut bytes = *SMALL;
    bytes[784..788].copy_from_slice(&[0xfb, 0xff, 0xff, 0x6f]);
    bytes[792..794].copy_from_slice(&flags);
    bytes
}

// The names of the objects of a file with needs.
const LIBC: &[&[u8]] = &[b"/lib/libc", b"libc"];

const LIBM: &[&[u8]] = &[b"libm"];

const LIBN: &[&[u8]] = &[b"libn"];

// Of the needs of the file, V3 and the weak V4 of `libc` and V5 of `libm`, what is missing if another
// object has these names, and was found without versions or not at all.
fn missing(
    rt: &impl Abort,
    names: &'static [&'static [u8]],
    is_found: bool,
) -> Result<[Lacked; 4], LinkError> {
    let bytes = version_file(2, Order::Little, ALL);
    let file = open(rt, &bytes);
    let view = DynamicView::read(&file)?;
    let versions = Versions::read(&view, &file, 8)?;
    let provided = if is_found {
        Provided::NoVersions
    } else {
        Provided::NotFound
    };
    let libc = Provider {
        names: LIBC,
        provided: Provided::Versions(versions),
    };
    let providers = [libc, Provider { names, provided }];
    Ok(first_four(missing_versions(versions.needs(), &providers)))
}

// The place of the object that lacks a version, and why, or the error.
type Lacked = Option<Result<(usize, Lack), SearchError>>;

// The first four items.
fn first_four(mut items: MissingVersions<'_, '_>) -> [Lacked; 4] {
    let mut found = [None; 4];
    for place in 0..4 {
        found[place] = match items.next() {
            Some(Ok(item)) => Some(Ok((item.provider, item.lack))),
            Some(Err(error)) => Some(Err(error)),
            None => None,
        };
    }
    found
}

#[test]
fn versions_without_a_definition_are_missing(rt: HostRuntime) -> Result<(), LinkError> {
    let strong = Some(Ok((0, Lack::Strong)));
    let weak = Some(Ok((0, Lack::Weak)));
    let none = Some(Ok((1, Lack::NoInformation)));
    let error = Some(Err(SearchError::NoProvider));
    let found = missing(&rt, LIBM, true)?;
    want_at(&rt, "no versions", found, [strong, weak, none, None]);
    let found = missing(&rt, LIBM, false)?;
    want_at(&rt, "not found", found, [strong, weak, None, None]);
    let found = missing(&rt, LIBN, false)?;
    want_at(&rt, "not named", found, [strong, weak, error, None]);
    Ok(())
}
