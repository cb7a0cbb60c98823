//! Versions of symbols (LSB, "Symbol Versioning"), found by the dynamic segment, without section
//! headers.

ghost use Rattle.std.specs.List.{range_with_len};
ghost use Rattle.std.specs.Prelude.{◌≡◌, ◌<◌, ◌^◌, ℕ, IfOk, MatchResult, Result, Ok, Err};
ghost use Rattle.std.specs.Prelude.{is_some, min};
ghost use Rattle.elf_c.specs.Batch.{Fills, Stores};
ghost use Rattle.elf_c.specs.Parsed.{file_of};
ghost use Rattle.elf_c.specs.Status.{GivesHere};
ghost use Rattle.elf_c.specs.Versions.{AllNamesLieIn, FillsVersions, defined_as, definition_record_at};
ghost use Rattle.elf_c.specs.Versions.{definition_items, need_record_at, need_items, needed_as};
ghost use Rattle.elf_c.specs.Versions.{strings_range_of, file_version_tables, unnamed, unreadable};
ghost use Rattle.elf_c.specs.Versions.{version_record, version_name_range};
ghost use Rattle.elf_c.specs.declared.status.AnyError.{AnyError};
ghost use Rattle.elf_c.specs.declared.status.AnyError.TheVariants.{Link};
ghost use Rattle.elf_linking.specs.VersionTables.{definition_parts, definitions_left, need_parts};
ghost use Rattle.elf_linking.specs.VersionTables.{needs_left};
ghost use Rattle.elf_linking.specs.Versions as linked;
ghost use Rattle.elf_linking.specs.Versions.{named_at, version_tables};

use crate::batch::{Records, Sequence, fill, fill_in_order};
use crate::dynamic_symbols::symbol_count;
use crate::dynamic_texts::{name_of, strings_of, text_by};
use crate::file::Parsed;
use crate::names::{Name, Range};
use crate::status::{AnyError, Numbered, OK, give};
use elf_linking::LinkError;
use elf_linking::versions::{
    Definition, Definitions, NamedVersion, Need, Needs, SymbolVersion, Versions,
};
use elf_linking::view::DynamicView;
use xmas_elf::ElfFile;

/// No definition and no need has the number of a version.
pub const UNNAMED: u32 = 0;
/// A definition of the file has the number of a version.
pub const DEFINED: u32 = 1;
/// A need of the file has the number of a version.
pub const NEEDED: u32 = 2;

// The range of no text.
const NO_TEXT: Range = Range { offset: 0, size: 0 };

/// The version of a symbol, or one that a file defines or needs, as numbers.
#[repr(C)]
#[derive(Clone, Copy, Debug)]
pub struct Version {
    /// The range of the version's name, without its zero byte; empty and at 0 if it has none.
    pub name: Range,
    /// The range of the name of the library that the version is needed of, without its zero byte;
    /// empty and at 0 if there is none.
    pub file: Range,
    /// 0, or the number of the error for this version; the other fields are then 0.
    pub status: u32,
    /// 0, or the number of the error for the version's name.
    pub name_status: u32,
    /// 0, or the number of the error for the library's name.
    pub file_status: u32,
    /// What has the number: `UNNAMED` (nothing), `DEFINED` or `NEEDED`.
    pub kind: u32,
    /// The number of the version: that of a symbol or of a need without its bit 15.
    pub number: u32,
    /// 1 if the symbol or the need is hidden (bit 15), otherwise 0.
    pub hidden: u32,
    /// The flags of the definition or the need, or 0.
    pub flags: u32,
    /// The hash number of the version's name, or 0.
    pub hash: u32,
}

// The range of the name at an offset in the string table, with its status.
fn version_name(
    input: &[u8],
    strings: Result<Range, AnyError>,
    offset: Result<u32, LinkError>,
) -> Name
    ensures { result ≡ version_name_range input.now strings offset }
{
    match offset {
        Ok(offset) => name_of(text_by(input, strings, u64::from(offset))),
        Err(error) => name_of(Err(AnyError::Link(error))),
    }
}

impl Version {
    // A version whose number nothing has.
    pub(crate) fn unnamed(number: u16, hidden: bool) -> Version
        ensures { result ≡ unnamed number hidden }
    {
        Version {
            name: NO_TEXT,
            file: NO_TEXT,
            status: OK,
            name_status: OK,
            file_status: OK,
            kind: UNNAMED,
            number: u32::from(number),
            hidden: u32::from(hidden),
            flags: 0,
            hash: 0,
        }
    }

    // A version that can't be read.
    fn unreadable(error: LinkError) -> Version
        ensures { result ≡ unreadable error }
    {
        Version {
            status: AnyError::Link(error).number(),
            ..Version::unnamed(0, false)
        }
    }

    // A version whose number a definition has.
    fn defined(
        input: &[u8],
        strings: Result<Range, AnyError>,
        number: u16,
        hidden: bool,
        definition: &Definition<'_>,
    ) -> Version
        ensures { result
            ≡ defined_as input.now strings number hidden (definition_parts definition.now) }
    {
        let name = version_name(input, strings, definition.name_offset());
        Version {
            name: name.range,
            name_status: name.status,
            kind: DEFINED,
            flags: u32::from(definition.flags),
            hash: definition.hash,
            ..Version::unnamed(number, hidden)
        }
    }

    // A version whose number a need has.
    pub(crate) fn needed(
        input: &[u8],
        strings: Result<Range, AnyError>,
        number: u16,
        hidden: bool,
        need: &Need<'_>,
    ) -> Version
        ensures { result ≡ needed_as input.now strings number hidden (need_parts need.now) }
    {
        let name = version_name(input, strings, Ok(need.name_offset()));
        let file = version_name(input, strings, Ok(need.file_offset()));
        Version {
            name: name.range,
            file: file.range,
            name_status: name.status,
            file_status: file.status,
            kind: NEEDED,
            flags: u32::from(need.flags),
            hash: need.hash,
            ..Version::unnamed(number, hidden)
        }
    }
}

// The version tables of a file, and the range of the string table of the dynamic segment.
#[derive(Drop)]
pub(crate) struct Tables<'a> {
    pub(crate) versions: Versions<'a>,
    pub(crate) strings: Result<Range, AnyError>,
}

// The version tables of a file with this number of symbols.
pub(crate) fn tables_of<'a>(file: &ElfFile<'a>, count: u64) -> Result<Tables<'a>, AnyError>
    ensures { MatchResult result
        (λ it. (file_version_tables file.now count ≡ Ok (version_tables it.versions))
        × (it.strings ≡ strings_range_of file.now))
        (λ why. (error : LinkError) × (why ≡ Link error) × (file_version_tables file.now count ≡ Err error)) }
{
    let view = DynamicView::read(file)?;
    Ok(Tables {
        versions: Versions::read(&view, file, count)?,
        strings: strings_of(file, &view),
    })
}

// The remaining definitions.
#[derive(Drop)]
struct DefinitionList<'a> {
    definitions: Definitions<'a>,
    strings: Result<Range, AnyError>,
    input: &'a [u8],
}

impl Sequence for DefinitionList<'_> {
    type Record = Version;

    ghost left = { λ list. definition_items list.input.now list.strings
        (definitions_left list.definitions) };

    fn next(&mut self) -> Option<Version> {
        match self.definitions.next()? {
            Ok(definition) => {
                let number = definition.number;
                Some(Version::defined(self.input, self.strings, number, false, &definition))
            }
            Err(error) => Some(Version::unreadable(error)),
        }
    }
}

// The remaining needs.
#[derive(Drop)]
struct NeedList<'a> {
    needs: Needs<'a>,
    strings: Result<Range, AnyError>,
    input: &'a [u8],
}

impl Sequence for NeedList<'_> {
    type Record = Version;

    ghost left = { λ list. need_items list.input.now list.strings (needs_left list.needs) };

    fn next(&mut self) -> Option<Version> {
        match self.needs.next()? {
            Ok(need) => {
                let (number, hidden) = (need.number, need.hidden);
                Some(Version::needed(self.input, self.strings, number, hidden, &need))
            }
            Err(error) => Some(Version::unreadable(error)),
        }
    }
}

// Stores the definitions from an index on in `out`, and returns their number.
fn fill_definitions(file: &ElfFile<'_>, first: u64, out: &mut [Version]) -> Result<u64, AnyError>
    ensures exact { Fills (definition_record_at file.now) first out.old result out.new }
    ensures within { IfOk result (λ count. AllNamesLieIn file.now.input.now count out.new) }
{
    let tables = tables_of(file, 0)?;
    let list = DefinitionList {
        definitions: tables.versions.definitions(),
        strings: tables.strings,
        input: file.input,
    };
    fill_in_order(list, first, out)
}

// Stores the needs from an index on in `out`, and returns their number.
fn fill_needs(file: &ElfFile<'_>, first: u64, out: &mut [Version]) -> Result<u64, AnyError>
    ensures exact { Fills (need_record_at file.now) first out.old result out.new }
    ensures within { IfOk result (λ count. AllNamesLieIn file.now.input.now count out.new) }
{
    let tables = tables_of(file, 0)?;
    let list = NeedList {
        needs: tables.versions.needs(),
        strings: tables.strings,
        input: file.input,
    };
    fill_in_order(list, first, out)
}

/// The versions that the file defines from index `first` on, those of `Versions::definitions` in
/// their order, the base included: as many as fit in `out`, or all. `count` is set to their number;
/// the rest of `out` is unchanged. It needs no section headers.
///
/// Error of a version: `ShortVersion` for the last, if a record extends past the end of its
/// segment. Errors of a name: `ShortVersion` if the record of the name does; those of
/// `xmas_elf_dynamic_text`, from `NoEntry` on. Errors of the call: those of `DynamicView::read`;
/// those of `Versions::read` for no symbols; `NoRecord` if there are no more than `first`
/// definitions; `out` and `count` are then unchanged.
#[unsafe(no_mangle)]
pub extern "C" fn xmas_elf_version_definitions(
    input: &[u8],
    header: &Parsed,
    first: u64,
    out: &mut [Version],
    count: &mut u64,
) -> u32
    ensures exact { Stores (definition_record_at (file_of input.entry header.now))
        first out.old out.new count.old result count.new }
    ensures within { result ≡ 0 → AllNamesLieIn input.now count.new out.new }
{
    give(fill_definitions(&header.file(input), first, out), count)
}

/// The versions that the file needs of libraries from index `first` on, those of `Versions::needs`
/// in their order: as many as fit in `out`, or all. `count` is set to their number; the rest of
/// `out` is unchanged. It needs no section headers.
///
/// Error of a version: `ShortVersion` or `VersionCount` for the last, as in `Versions::needs`.
/// Errors of a name: those of `xmas_elf_dynamic_text`, from `NoEntry` on. Errors of the call: those
/// of `DynamicView::read`; those of `Versions::read` for no symbols; `NoRecord` if there are no
/// more than `first` needs; `out` and `count` are then unchanged.
#[unsafe(no_mangle)]
pub extern "C" fn xmas_elf_version_needs(
    input: &[u8],
    header: &Parsed,
    first: u64,
    out: &mut [Version],
    count: &mut u64,
) -> u32
    ensures exact { Stores (need_record_at (file_of input.entry header.now))
        first out.old out.new count.old result count.new }
    ensures within { result ≡ 0 → AllNamesLieIn input.now count.new out.new }
{
    give(fill_needs(&header.file(input), first, out), count)
}

// The version of a symbol, or why it can't be read.
fn version_record(
    input: &[u8],
    strings: Result<Range, AnyError>,
    answer: Result<Option<SymbolVersion<'_>>, LinkError>,
) -> Version
    ensures { result ≡ version_record input.now strings (linked.version_item answer.entry) }
{
    let version = match answer {
        Ok(Some(version)) => version,
        Ok(None) => return Version::unnamed(0, false),
        Err(error) => return Version::unreadable(error),
    };
    let (number, hidden) = (version.number, version.hidden);
    match version.named {
        Some(NamedVersion::Defined(definition)) => {
            Version::defined(input, strings, number, hidden, &definition)
        }
        Some(NamedVersion::Needed(need)) => Version::needed(input, strings, number, hidden, &need),
        None => Version::unnamed(number, hidden),
    }
}

// The versions of the symbols of a file.
#[derive(Drop)]
struct SymbolVersions<'a> {
    tables: Tables<'a>,
    count: u64,
    input: &'a [u8],
}

impl Records for SymbolVersions<'_> {
    type Item = u64;

    type Record = Version;

    ghost items = { λ it. range_with_len 0 (min it.count (2 ^ 32)) };

    ghost record_of = { λ it index. version_record it.input.now it.tables.strings
        (named_at (version_tables it.tables.versions) index) };

    #[tactic(auto, using(crate::proofs::VersionRecords::index_count))]
    fn count(&self) -> usize {
        self.count.min(1 << 32) as usize
    }

    fn record(&self, index: usize) -> Version {
        let version = self.tables.versions.version_of(index as u32);
        version_record(self.input, self.tables.strings, version)
    }
}

// Whether a file has numbers of symbols.
fn has_numbers(versions: &Versions<'_>) -> bool
    ensures { result ≡ is_some (version_tables versions.now).numbers }
{
    match versions.number(0) {
        Ok(None) => false,
        _ => true,
    }
}

// Stores the versions of the symbols from an index on in `out`, and returns their number.
fn fill_versions(file: &ElfFile<'_>, first: u64, out: &mut [Version]) -> Result<u64, AnyError>
    ensures exact { FillsVersions file.now first out.old result out.new }
    ensures within { IfOk result (λ count. AllNamesLieIn file.now.input.now count out.new) }
{
    let count = symbol_count(file)?;
    let tables = tables_of(file, count)?;
    if !has_numbers(&tables.versions) {
        return Err(AnyError::NotFound);
    }
    let versions = SymbolVersions {
        tables,
        count,
        input: file.input,
    };
    fill(versions, first, out)
}

/// The versions of the symbols of the dynamic segment from index `first` on, those of
/// `Versions::version_of`, each with its own status: as many as fit in `out`, or all. `count` is
/// set to their number; the rest of `out` is unchanged. It needs no section headers.
///
/// The symbols are those of `xmas_elf_dynamic_symbols` with indices below 2 to the 32. Errors of a
/// version: `ShortVersion` and `VersionCount`, as in `Versions::version_of`. Errors of a name: as
/// in `xmas_elf_version_definitions`. Errors of the call: those of `xmas_elf_dynamic_symbol_count`;
/// those of `Versions::read`; `NotFound` if the file has no numbers of symbols; `NoRecord` if there
/// are no more than `first` symbols; `out` and `count` are then unchanged.
#[unsafe(no_mangle)]
pub extern "C" fn xmas_elf_dynamic_symbol_versions(
    input: &[u8],
    header: &Parsed,
    first: u64,
    out: &mut [Version],
    count: &mut u64,
) -> u32
    ensures exact { (answer : Result ℕ AnyError)
        × FillsVersions (file_of input.entry header.now) first out.old answer out.new
        × GivesHere answer count.old result count.new }
    ensures within { result ≡ 0 → AllNamesLieIn input.now count.new out.new }
{
    give(fill_versions(&header.file(input), first, out), count)
}
