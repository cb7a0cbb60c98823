//! Dynamic string tokens.

use crate::tests::want::want_at;
use elf_search::tokens::{TokenValues, expand, is_known};
use std::alloc::AllocError;

const VALUES: TokenValues<'static> = TokenValues {
    origin: Some(b"/t/bin"),
    lib: Some(b"lib64"),
    platform: None,
};

// Texts and what they are expanded to.
const TEXTS: &[(&[u8], &[u8])] = &[
    (b"libz.so", b"libz.so"),
    (b"$ORIGIN", b"/t/bin"),
    (b"$ORIGIN/../$LIB", b"/t/bin/../lib64"),
    (b"${ORIGIN}x", b"/t/binx"),
    (b"$ORIGINx", b"$ORIGINx"),
    (b"$ORIGIN_", b"$ORIGIN_"),
    (b"$ORIGIN9", b"$ORIGIN9"),
    (b"$ORIGIN-$ORIGIN", b"/t/bin-/t/bin"),
    (b"${ORIGIN", b"${ORIGIN"),
    (b"${ORIGIN/}", b"${ORIGIN/}"),
    (b"$$LIB", b"$lib64"),
    (b"$", b"$"),
    (b"${}", b"${}"),
    (b"$origin", b"$origin"),
    (b"/a/$LIB/$PLATFORM", b""),
    (b"$PLATFORMS", b"$PLATFORMS"),
];

#[test]
fn tokens_are_expanded(rt: HostRuntime) -> Result<(), AllocError> {
    for &(text, wanted) in TEXTS {
        let expanded: Vec<u8> = expand(text, &VALUES).collect(rt.alloc())?;
        want_at(&rt, text, expanded.as_slice(), wanted);
    }
    want_at(&rt, "known", is_known(b"$ORIGIN", &VALUES), true);
    want_at(&rt, "unknown", is_known(b"$PLATFORM", &VALUES), false);
    Ok(())
}
