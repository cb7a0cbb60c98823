//! The texts of errors, and their numbers.

use crate::tests::want::want_at;
use elf_loading::LoadError;
use std::alloc::AllocError;

const ERRORS: &[(LoadError, u32, &str)] = &[
    (
        LoadError::Type,
        301,
        "Type is neither executable nor shared object",
    ),
    (
        LoadError::Overlap,
        311,
        "Load segment begins before the end of the one before it",
    ),
    (
        LoadError::ImageSize,
        318,
        "Image is not of the size of the span",
    ),
    (LoadError::Version, 339, "Version of the file is not 1"),
    (
        LoadError::Entry,
        342,
        "Entry point is past the address limit",
    ),
    (
        LoadError::FirstPacked,
        345,
        "First packed relocation is not an address",
    ),
    (
        LoadError::SlotType,
        347,
        "Type of a relocation is not for the procedure linkage table",
    ),
    (
        LoadError::CopyKind,
        349,
        "Symbol to copy is absolute or an indirect function",
    ),
    (
        LoadError::Addends,
        351,
        "Relocations with addends in a file of class 32",
    ),
];

#[test]
fn errors_have_numbers_and_texts(rt: HostRuntime) -> Result<(), AllocError> {
    for &(error, number, text) in ERRORS {
        want_at(&rt, number, error.number(), number);
        want_at(&rt, number, error.message(), text);
        want_at(&rt, number, LoadError::with_number(number), Some(error));
        let printed = format!(in rt.alloc(); "{error}")?;
        want_at(&rt, number, printed.as_str(), text);
    }
    want_at(&rt, 300, LoadError::with_number(300), None);
    want_at(&rt, 352, LoadError::with_number(352), None);
    Ok(())
}
