//! The paths at which a name is looked for.

use crate::tests::want::want_at;
use elf_search::candidates::{Asker, Candidates, Surroundings};
use elf_search::tokens::TokenValues;
use std::alloc::{AllocError, Global};

const PROGRAM: TokenValues<'static> = TokenValues {
    origin: Some(b"/t/bin"),
    lib: Some(b"lib/x86_64-linux-gnu"),
    platform: None,
};

const DEFAULTS: &[u8] = b"/lib/x86_64-linux-gnu:/usr/lib/x86_64-linux-gnu:/lib:/usr/lib";

// No list but those of the objects.
const NOTHING: Surroundings<'static> = Surroundings {
    environment: b"",
    program: PROGRAM,
    cache: b"",
    conf: b"",
    defaults: b"",
    subdirectories: &[b""],
};

// The paths of some candidates, each with a line feed behind it.
fn lines(alloc: Global, candidates: Candidates<'_>) -> Result<Vec<u8>, AllocError> {
    let mut text = Vec::new(alloc);
    for candidate in candidates {
        for byte in candidate.path() {
            text.push(byte)?;
        }
        text.push(b'\n')?;
    }
    Ok(text)
}

// `ld.so` prints these for a program with this DT_RPATH and LD_LIBRARY_PATH.
#[test]
fn elements_are_those_of_the_loader(rt: HostRuntime) -> Result<(), AllocError> {
    let chain = [Asker {
        r_path: Some(
            b"$ORIGIN/x::$ORIGIN/x/:/a//://b:/a/../b:${LIB:$ORIGINAL/y:${ORIGIN}/$LIB:$ORIGIN_x:/$ORIGIN:/:$X",
        ),
        run_path: None,
        values: PROGRAM,
        no_default: false,
    }];
    let around = Surroundings {
        environment: b"/e1;/e2::/e1/",
        defaults: DEFAULTS,
        subdirectories: &[b"x86_64/", b""],
        ..NOTHING
    };
    let found = lines(rt.alloc(), Candidates::new(b"libq.so", &chain, &around))?;
    let wanted: &[u8] = b"/t/bin/x/x86_64/libq.so
/t/bin/x/libq.so
x86_64/libq.so
libq.so
/a/x86_64/libq.so
/a/libq.so
//b/x86_64/libq.so
//b/libq.so
/a/../b/x86_64/libq.so
/a/../b/libq.so
${LIB/x86_64/libq.so
${LIB/libq.so
$ORIGINAL/y/x86_64/libq.so
$ORIGINAL/y/libq.so
/t/bin/lib/x86_64-linux-gnu/x86_64/libq.so
/t/bin/lib/x86_64-linux-gnu/libq.so
$ORIGIN_x/x86_64/libq.so
$ORIGIN_x/libq.so
//t/bin/x86_64/libq.so
//t/bin/libq.so
/x86_64/libq.so
/libq.so
$X/x86_64/libq.so
$X/libq.so
/e1/x86_64/libq.so
/e1/libq.so
/e2/x86_64/libq.so
/e2/libq.so
x86_64/libq.so
libq.so
/lib/x86_64-linux-gnu/x86_64/libq.so
/lib/x86_64-linux-gnu/libq.so
/usr/lib/x86_64-linux-gnu/x86_64/libq.so
/usr/lib/x86_64-linux-gnu/libq.so
/lib/x86_64/libq.so
/lib/libq.so
/usr/lib/x86_64/libq.so
/usr/lib/libq.so
";
    want_at(&rt, "paths", found.as_slice(), wanted);
    Ok(())
}

const R_PATH: Asker<'static> = Asker {
    r_path: Some(b"/r1"),
    run_path: None,
    values: PROGRAM,
    no_default: false,
};

const OTHER: Asker<'static> = Asker {
    r_path: Some(b"/r2:/r1"),
    run_path: None,
    values: PROGRAM,
    no_default: false,
};

const RUN_PATH: Asker<'static> = Asker {
    r_path: Some(b"/r3"),
    run_path: Some(b"/run"),
    values: PROGRAM,
    no_default: false,
};

const EMPTY_RUN_PATH: Asker<'static> = Asker {
    r_path: Some(b"/r4"),
    run_path: Some(b""),
    values: PROGRAM,
    no_default: false,
};

const NO_DEFAULT: Asker<'static> = Asker {
    r_path: Some(b"/r1"),
    run_path: None,
    values: PROGRAM,
    no_default: true,
};

// A program, a library that it loads, and one with a list in which the third element is the first again.
const LOADER: Asker<'static> = Asker {
    r_path: Some(b"$ORIGIN/../lib:/t/none"),
    run_path: None,
    values: PROGRAM,
    no_default: false,
};

const LOADED: TokenValues<'static> = TokenValues {
    origin: Some(b"/t/bin/../lib"),
    ..PROGRAM
};

const NO_PATH: Asker<'static> = Asker {
    r_path: None,
    run_path: None,
    values: LOADED,
    no_default: false,
};

const TWICE: Asker<'static> = Asker {
    r_path: None,
    run_path: Some(b"$ORIGIN/x::$ORIGIN/x/"),
    values: LOADED,
    no_default: false,
};

// A chain of loaders, the path of the cache, and the paths that are tried.
const CHAINS: &[(&[Asker<'static>], &[u8], &[u8])] = &[
    (&[R_PATH], b"", b"/r1/l\n/e/l\n/d/l\n"),
    (&[R_PATH, OTHER], b"", b"/r1/l\n/r2/l\n/r1/l\n/e/l\n/d/l\n"),
    (
        &[R_PATH, RUN_PATH, OTHER],
        b"",
        b"/r1/l\n/r2/l\n/r1/l\n/e/l\n/d/l\n",
    ),
    (&[RUN_PATH, OTHER], b"", b"/e/l\n/run/l\n/d/l\n"),
    (&[EMPTY_RUN_PATH, OTHER], b"", b"/e/l\n/d/l\n"),
    (
        &[NO_PATH, LOADER],
        b"",
        b"/t/bin/../lib/l\n/t/none/l\n/e/l\n/d/l\n",
    ),
    (&[TWICE, LOADER], b"", b"/e/l\n/t/bin/../lib/x/l\nl\n/d/l\n"),
    (&[R_PATH], b"/d/cached", b"/r1/l\n/e/l\n/d/cached\n/d/l\n"),
    (&[NO_DEFAULT], b"/d/cached", b"/r1/l\n/e/l\n"),
    (&[NO_DEFAULT], b"/dd/cached", b"/r1/l\n/e/l\n/dd/cached\n"),
];

#[test]
fn lists_come_in_order(rt: HostRuntime) -> Result<(), AllocError> {
    for &(chain, cache, wanted) in CHAINS {
        let around = Surroundings {
            environment: b"/e",
            cache,
            defaults: b"/d",
            ..NOTHING
        };
        let found = lines(rt.alloc(), Candidates::new(b"l", chain, &around))?;
        want_at(&rt, wanted, found.as_slice(), wanted);
    }
    Ok(())
}

// The subdirectories that `ld.so` of class 32 tries on a processor of x86-64.
const OLD: &[&[u8]] = &[
    b"tls/i686/sse2/",
    b"tls/i686/",
    b"tls/sse2/",
    b"tls/",
    b"i686/sse2/",
    b"i686/",
    b"sse2/",
    b"",
];

// It prints these for a library with this DT_RUNPATH.
#[test]
fn a_loader_of_class_32_tries_folders_by_processor(rt: HostRuntime) -> Result<(), AllocError> {
    let chain = [Asker {
        r_path: None,
        run_path: Some(b"/t/x:lib"),
        values: PROGRAM,
        no_default: false,
    }];
    let around = Surroundings {
        subdirectories: OLD,
        ..NOTHING
    };
    let found = lines(rt.alloc(), Candidates::new(b"libnone.so", &chain, &around))?;
    let wanted: &[u8] = b"/t/x/tls/i686/sse2/libnone.so
/t/x/tls/i686/libnone.so
/t/x/tls/sse2/libnone.so
/t/x/tls/libnone.so
/t/x/i686/sse2/libnone.so
/t/x/i686/libnone.so
/t/x/sse2/libnone.so
/t/x/libnone.so
lib/tls/i686/sse2/libnone.so
lib/tls/i686/libnone.so
lib/tls/sse2/libnone.so
lib/tls/libnone.so
lib/i686/sse2/libnone.so
lib/i686/libnone.so
lib/sse2/libnone.so
lib/libnone.so
";
    want_at(&rt, "paths", found.as_slice(), wanted);
    Ok(())
}

#[test]
fn a_name_with_a_slash_is_the_path(rt: HostRuntime) -> Result<(), AllocError> {
    let around = Surroundings {
        environment: b"/e",
        defaults: b"/d",
        ..NOTHING
    };
    let found = lines(rt.alloc(), Candidates::new(b"a/l", &[R_PATH], &around))?;
    want_at(&rt, "path", found.as_slice(), b"a/l\n");
    Ok(())
}

#[test]
fn the_rest_of_a_list_is_left_out(rt: HostRuntime) -> Result<(), AllocError> {
    let around = Surroundings {
        environment: b"/e",
        ..NOTHING
    };
    let mut candidates = Candidates::new(b"l", &[OTHER], &around);
    let first = candidates.next();
    want_at(&rt, "first", first.is_some(), true);
    candidates.leave_list();
    let found = lines(rt.alloc(), candidates)?;
    want_at(&rt, "rest", found.as_slice(), b"/e/l\n");
    Ok(())
}
