//! The texts of errors, and their numbers: those of `bindings/statuses.txt`.

use crate::tests::want::want;
use elf_base::ElfError;
use elf_linking::LinkError;
use std::alloc::AllocError;
use std::process::Abort;
use worked_files::rows;

// Wants this number and text of an error, by itself and printed.
fn check(
    rt: &(impl Abort + AllocGlobal),
    error: LinkError,
    number: u32,
    text: &str,
) -> Result<(), AllocError> {
    want(rt, error.number(), number);
    want(rt, error.message(), text);
    let printed = format!(in rt.alloc(); "{error}")?;
    want(rt, printed.as_str(), text);
    let options = format!(in rt.alloc(); "{error:>60}")?;
    want(rt, options.as_str(), text);
    Ok(())
}

const INNER: &[(ElfError, u32, &str)] = &[
    (ElfError::NoMagic, 2, "Did not find ELF magic number"),
    (ElfError::TextEnd, 15, "Text has no terminating zero"),
];

const ERRORS: &[(LinkError, u32, &str)] = rows! {
    LinkError::ShortTable, 101, "GNU hash table is too short";
    LinkError::UnknownClass, 102, "Class is neither 1 nor 2";
    LinkError::BloomCount, 103, "Number of Bloom words is not a power of two";
    LinkError::BucketIndex, 104, "Bucket index is out of range";
    LinkError::ChainIndex, 105, "Symbol index is before the first of the table";
    LinkError::ChainData, 106, "Chain is not in the data";
    LinkError::SymbolIndex, 107, "Symbol index is out of range";
    LinkError::Missing, 108, "Symbol is missing from the GNU hash table";
    LinkError::NoDynamic, 109, "No dynamic segment";
    LinkError::NoEntry, 110, "Dynamic segment has no such entry";
    LinkError::Address, 111, "Address is in no loaded segment";
    LinkError::ShortNote, 112, "Note is cut off";
    LinkError::NotMultiple, 113, "Data is not a whole number of words";
    LinkError::ShortVersion, 114, "Version record is cut off";
    LinkError::VersionCount, 115, "Version needs have more parts than bytes";
    LinkError::VersionChain, 118, "Version records are more or fewer than told";
    LinkError::RelocationKind, 116, "Kind of relocations is neither Rel nor Rela";
    LinkError::ObjectIndex, 117, "Object index is out of range";
};

#[test]
fn each_error_has_its_number_and_text(rt: HostRuntime) -> Result<(), AllocError> {
    for &(error, number, text) in ERRORS {
        check(&rt, error, number, text)?;
        want(&rt, LinkError::with_number(number), Some(error));
    }
    for &(inner, number, text) in INNER {
        check(&rt, LinkError::from(inner), number, text)?;
        want(&rt, LinkError::with_number(number), None);
    }
    want(&rt, LinkError::with_number(0), None);
    Ok(())
}
