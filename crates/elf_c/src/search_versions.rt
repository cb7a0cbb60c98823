//! Versions that an object needs of another and that are missing there (LSB, "Symbol Versioning").

ghost use Rattle.std.specs.Prelude.{◌≡◌, Ok, Err, MatchResult, Result, map};
ghost use Rattle.elf_c.specs.Batch.{Fills, Stores};
ghost use Rattle.elf_c.specs.Parsed.{file_of};
ghost use Rattle.elf_c.specs.SearchPaths.{item_of};
ghost use Rattle.elf_c.specs.SearchVersions.{lack_number, missing_record, missing_rows, not_read, provided_of};
ghost use Rattle.elf_c.specs.declared.status.AnyError.{AnyError};
ghost use Rattle.elf_search.specs.MissingVersions.{missing_item, missing_left, provided_parts};

use crate::batch::{Sequence, fill_in_order};
use crate::file::Parsed;
use crate::names::Range;
use crate::status::{AnyError, Numbered, give};
use crate::versions::{Version, tables_of};
use elf_linking::versions::Versions;
use elf_linking::view::{DT_VERDEF, DynamicView};
use elf_search::SearchError;
use elf_search::versions::{
    Lack, MissingVersion, MissingVersions, Provided, Provider, missing_versions,
};
use xmas_elf::ElfFile;

/// The other object has no versions at all; the program starts all the same.
pub const NO_INFORMATION: u32 = 1;
/// The version is needed weakly; the program starts all the same.
pub const WEAK: u32 = 2;
/// The program does not start.
pub const STRONG: u32 = 3;

/// A version that an object lacks, as numbers.
#[repr(C)]
#[derive(Clone, Copy, Debug)]
pub struct LackedVersion {
    /// The version that is needed, with its status.
    pub version: Version,
    /// Why it is missing: `NO_INFORMATION`, `WEAK` or `STRONG`; 0 if the status is an error.
    pub lack: u32,
}

// Why a version is missing, as a number.
fn lack_number(lack: Lack) -> u32
    ensures { result ≡ lack_number lack }
{
    match lack {
        Lack::NoInformation => NO_INFORMATION,
        Lack::Weak => WEAK,
        Lack::Strong => STRONG,
    }
}

// A version that can't be read.
fn not_read(error: SearchError) -> LackedVersion
    ensures { result ≡ not_read error }
{
    LackedVersion {
        version: Version {
            status: AnyError::Search(error).number(),
            ..Version::unnamed(0, false)
        },
        lack: 0,
    }
}

// A missing version, or why it can't be read.
fn missing_record(
    input: &[u8],
    strings: Result<Range, AnyError>,
    item: Result<MissingVersion<'_>, SearchError>,
) -> LackedVersion
    ensures { result ≡ missing_record input.now strings (missing_item item.entry) }
{
    let missing = match item {
        Ok(missing) => missing,
        Err(error) => return not_read(error),
    };
    let need = missing.need;
    LackedVersion {
        version: Version::needed(input, strings, need.number, need.hidden, &need),
        lack: lack_number(missing.lack),
    }
}

// The missing versions that are left.
#[derive(Drop)]
struct MissingList<'s, 'a> {
    missing: MissingVersions<'s, 'a>,
    strings: Result<Range, AnyError>,
    input: &'a [u8],
}

impl Sequence for MissingList<'_, '_> {
    type Record = LackedVersion;

    ghost left = { λ list.
        map (missing_record list.input.now list.strings) (missing_left list.missing) };

    fn next(&mut self) -> Option<LackedVersion> {
        let item = self.missing.next()?;
        Some(missing_record(self.input, self.strings, item))
    }
}

// What the file of an object provides.
fn provided_of<'a>(file: &ElfFile<'a>) -> Result<Provided<'a>, AnyError>
    ensures { MatchResult result (λ provided. provided_of file.now ≡ Ok (provided_parts provided))
        (λ why. provided_of file.now ≡ Err why) }
{
    let view = DynamicView::read(file)?;
    let versions = Versions::read(&view, file, 0)?;
    if view.entry(DT_VERDEF).is_none() {
        return Ok(Provided::NoVersions);
    }
    Ok(Provided::Versions(versions))
}

// Stores the versions that an object needs and another one lacks, from an index on, in `out`, and returns
// their number.
fn fill_missing(
    file: &ElfFile<'_>,
    name: &[u8],
    other: &ElfFile<'_>,
    first: u64,
    out: &mut [LackedVersion],
) -> Result<u64, AnyError>
    ensures { Fills (item_of (missing_rows file.now name.now other.now)) first out.old result out.new }
{
    let tables = tables_of(file, 0)?;
    let provided = provided_of(other)?;
    let names = [name];
    let providers = [Provider {
        names: &names,
        provided,
    }];
    let list = MissingList {
        missing: missing_versions(tables.versions.needs(), &providers),
        strings: tables.strings,
        input: file.input,
    };
    fill_in_order(list, first, out)
}

/// The versions that a file needs of the object that its needs call `name`, and that this object lacks,
/// from index `first` on, each with its own status: as many as fit in `out`, or all. `count` is set to their
/// number; the rest of `out` is unchanged. `provider` are the bytes of the object, and `provider_header` the
/// header that `xmas_elf_open` read of it.
///
/// They are those of `elf_search::versions::missing_versions` with this one provider, so a need of another
/// object has the status `NoProvider`. Other errors of a version: those of `missing_versions`. Errors of
/// the call: those of `xmas_elf_version_needs`; those of `DynamicView::read` and `Versions::read` for the
/// object; `NoRecord` if there are no more than `first`.
#[unsafe(no_mangle)]
pub extern "C" fn xmas_elf_missing_versions(
    input: &[u8],
    header: &Parsed,
    name: &[u8],
    provider: &[u8],
    provider_header: &Parsed,
    first: u64,
    out: &mut [LackedVersion],
    count: &mut u64,
) -> u32
    ensures { let file = file_of input.entry header.now in
        let other = file_of provider.entry provider_header.now in
        Stores (item_of (missing_rows file name.now other))
        first out.old out.new count.old result count.new }
{
    let (file, other) = (header.file(input), provider_header.file(provider));
    give(fill_missing(&file, name, &other, first, out), count)
}
