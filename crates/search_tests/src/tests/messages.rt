//! The texts of errors, and their numbers.

use crate::tests::want::want_at;
use elf_linking::LinkError;
use elf_search::SearchError;
use std::alloc::AllocError;

const ERRORS: &[(SearchError, u32, &str)] = &[
    (SearchError::FileData, 501, "cannot read file data"),
    (
        SearchError::EntrySize,
        511,
        "ELF file's phentsize not the expected size",
    ),
    (
        SearchError::EmptyToken,
        516,
        "empty dynamic string token substitution",
    ),
];

#[test]
fn errors_have_numbers_and_texts(rt: HostRuntime) -> Result<(), AllocError> {
    for &(error, number, text) in ERRORS {
        want_at(&rt, number, error.number(), number);
        want_at(&rt, number, error.message(), text);
        want_at(&rt, number, SearchError::with_number(number), Some(error));
        let printed = format!(in rt.alloc(); "{error}")?;
        want_at(&rt, number, printed.as_str(), text);
    }
    let inner = SearchError::Link(LinkError::NoDynamic);
    want_at(&rt, 109, inner.number(), 109);
    want_at(&rt, 109, SearchError::with_number(109), None);
    Ok(())
}
