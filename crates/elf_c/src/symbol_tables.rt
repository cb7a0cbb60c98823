//! The symbols of a section, found once and then read by their index (gABI, "Symbol Table").

ghost use Rattle.std.specs.Prelude.{◌≡◌, ◌<◌, ◌↔◌, ◌==◌, ℕ, IsOk, Ok};
ghost use Rattle.elf_base.specs.FileHeader.{order_of};
ghost use Rattle.elf_base.specs.FirstError.{and_then};
ghost use Rattle.elf_base.specs.Table.{table_items};
ghost use Rattle.elf_c.specs.Batch.{Fills, Stores};
ghost use Rattle.elf_c.specs.Parsed.{file_of};
ghost use Rattle.elf_c.specs.Records.{AllLieIn, record_in};
ghost use Rattle.elf_c.specs.Status.{GivesHere, and_so};
ghost use Rattle.elf_c.specs.SymbolTables.{AreSymbolsBy, AreSymbolsIn, LieWithin, symbol_count_in};
ghost use Rattle.elf_c.specs.SymbolTables.{symbol_name_range, name_range_in, symbol_by, table_of_section};
ghost use Rattle.elf_c.specs.Symbols.{symbol_record_in, symbol_name_at, symbol_record};
ghost use Rattle.xmas_elf.specs.SectionContent.{section_content, section_content_of};
ghost use Rattle.xmas_elf.specs.SectionHeader.{section_of};

use crate::batch::{Records, fill};
use crate::file::Parsed;
use crate::names::{Name, Range, bytes_in, text_in};
use crate::sections::section_range_at;
use crate::status::{AnyError, OK, give};
use crate::symbols::Symbol;
use elf_base::bytes::Order;
use xmas_elf::ElfFile;
use xmas_elf::bytes::{Record, Table};
use xmas_elf::sections::SectionData;
use xmas_elf::symbol_table::{DynEntry32, DynEntry64, Entry};

/// Symbols found once, of a section or of the dynamic segment: numbers that other calls take back.
#[repr(C)]
#[derive(Clone, Copy, Debug)]
pub struct SymbolTable {
    /// The range of the symbols.
    pub symbols: Range,
    /// The range of the string table of their names; empty and at 0 if there is an error for it.
    pub strings: Range,
    /// The number of symbols.
    pub count: u64,
    /// 0, or the number of the error for the string table.
    pub strings_status: u32,
    /// 1: symbols of class 32, any other number: of class 64.
    pub class: u16,
    /// 2: big-endian, any other number: little-endian.
    pub encoding: u16,
}

// The number of symbols in the data of a section.
fn count_in(held: &SectionData<'_>) -> Result<u64, AnyError>
    ensures { result ≡ symbol_count_in (section_content held.now) }
{
    match held {
        SectionData::SymbolTable32(table) => Ok(table.len() as u64),
        SectionData::SymbolTable64(table) => Ok(table.len() as u64),
        SectionData::DynSymbolTable32(table) => Ok(table.len() as u64),
        SectionData::DynSymbolTable64(table) => Ok(table.len() as u64),
        _ => Err(AnyError::OtherData),
    }
}

// The symbols of the section at an index, as numbers.
pub(crate) fn table_of_section(file: &ElfFile<'_>, section: u64) -> Result<SymbolTable, AnyError>
    ensures { result ≡ table_of_section file.now section }
{
    let header = file.section_header_at(section)?;
    let count = count_in(&header.get_data(file)?)?;
    let strings = Name::of(section_range_at(file, u64::from(header.link())));
    Ok(SymbolTable {
        symbols: Range {
            offset: header.offset(),
            size: header.size(),
        },
        strings: strings.range,
        count,
        strings_status: strings.status,
        class: u16::from(file.header.pt1.class.raw()),
        encoding: u16::from(file.header.pt1.encoding.raw()),
    })
}

/// The symbols of the section at an index, and the data of the section that it links to (sh_link),
/// which contains their names: found once, for `xmas_elf_symbols` and `xmas_elf_symbol_names`. Both
/// ranges lie in the input.
///
/// Errors: those of `ElfFile::section_header_at` and `SectionHeader::get_data`; `OtherData` if the
/// section does not contain symbols. `strings_status` is 0, or an error of `xmas_elf_section_data`
/// for the linked section.
#[unsafe(no_mangle)]
pub extern "C" fn xmas_elf_symbols_open(
    input: &[u8],
    header: &Parsed,
    section: u64,
    out: &mut SymbolTable,
) -> u32
    ensures exact { GivesHere (table_of_section (file_of input.entry header.now) section)
        out.old result out.new }
    ensures within { result ≡ 0 → LieWithin input.now out.new }
    ensures symbols { result ≡ 0 → (index : ℕ) → symbol_by symbol_record input.now out.new index
        ≡ and_so (and_then (section_of (file_of input.entry header.now) section)
        (section_content_of (file_of input.entry header.now))) (symbol_record_in index) }
    ensures names { result ≡ 0 → (index : ℕ)
        → symbol_by (symbol_name_range input.now out.new) input.now out.new index
        ≡ symbol_name_at (file_of input.entry header.now) section index }
    ensures counted { result ≡ 0 → (index : ℕ)
        → IsOk (symbol_by symbol_record input.now out.new index) ↔ (index < out.new.count) }
{
    give(table_of_section(&header.file(input), section), out)
}

/// The symbols of a table, in the layout of its class.
#[derive(Clone, Copy)]
pub(crate) enum AnySymbols<'a> {
    /// Of class 32.
    Narrow(Table<'a, DynEntry32>),
    /// Of class 64.
    Wide(Table<'a, DynEntry64>),
}

// The byte order of a number for it.
#[inline(always)]
pub(crate) fn order_of(encoding: u16) -> Order
    ensures { result ≡ order_of encoding }
{
    if encoding == 2 {
        Order::Big
    } else {
        Order::Little
    }
}

// The symbols in bytes, in the layout of class 32 or else of class 64.
fn symbols_in<'a>(narrow: bool, bytes: &'a [u8], order: Order) -> Result<AnySymbols<'a>, AnyError>
    ensures { AreSymbolsIn narrow order bytes.now result }
{
    match narrow {
        true => Ok(AnySymbols::Narrow(Table::new(bytes, order)?)),
        false => Ok(AnySymbols::Wide(Table::new(bytes, order)?)),
    }
}

// The symbols in the range of a record.
pub(crate) fn symbols_by<'a>(
    input: &'a [u8],
    table: &SymbolTable,
) -> Result<AnySymbols<'a>, AnyError>
    ensures { AreSymbolsBy input.now table.now result }
{
    let bytes = bytes_in(input, &table.symbols)?;
    symbols_in(table.class == 1, bytes, order_of(table.encoding))
}

// Stores the symbols of a record from an index on in `out`, and returns their number.
fn fill_symbols(
    input: &[u8],
    table: &SymbolTable,
    first: u64,
    out: &mut [Symbol],
) -> Result<u64, AnyError>
    ensures { Fills (symbol_by symbol_record input.now table.now) first out.old result out.new }
{
    match symbols_by(input, table) {
        Ok(AnySymbols::Narrow(symbols)) => fill(symbols, first, out),
        Ok(AnySymbols::Wide(symbols)) => fill(symbols, first, out),
        Err(failure) => Err(failure),
    }
}

/// The symbols from index `first` on, by the record of `xmas_elf_symbols_open` or
/// `xmas_elf_dynamic_symbols_open` for the same bytes: as many as fit in `out`, or all. `count` is set
/// to their number; the rest of `out` is unchanged. Any record may be given, as its range of symbols
/// is compared with the input in each call; its count is not read.
///
/// Errors: `DataRange` if the symbols extend past the end of the input; `NotMultiple` if they are not
/// a whole number of them; `NoRecord` if there are no more than `first`; `out` and `count` are then
/// unchanged.
#[unsafe(no_mangle)]
pub extern "C" fn xmas_elf_symbols(
    input: &[u8],
    table: &SymbolTable,
    first: u64,
    out: &mut [Symbol],
    count: &mut u64,
) -> u32
    ensures { Stores (symbol_by symbol_record input.now table.now)
        first out.old out.new count.old result count.new }
{
    give(fill_symbols(input, table, first, out), count)
}

// The symbols of a record, for their names.
#[derive(Drop)]
struct SymbolNames<'a, E: Record> {
    symbols: Table<'a, E>,
    table: SymbolTable,
    input: &'a [u8],
}

impl<E: Entry + Record> Records for SymbolNames<'_, E> {
    type Item = E;

    type Record = Name;

    ghost items = { λ names. table_items names.symbols };

    ghost record_of = { λ names entry. symbol_name_range names.input.now names.table (E.fields entry) };

    #[inline(always)]
    fn count(&self) -> usize {
        self.symbols.len()
    }

    #[inline(always)]
    fn record(&self, index: usize) -> Name {
        match self.symbols.get(index) {
            Some(entry) => name_by(self.input, &self.table, entry.name()),
            None => unreachable!(),
        }
    }
}

// The range of a name at an offset in the string table of a record, with its status.
#[inline(always)]
fn name_by(input: &[u8], table: &SymbolTable, name: u32) -> Name
    ensures { result ≡ name_range_in input.now table.now name }
{
    if table.strings_status == OK {
        Name::of(text_in(input, &table.strings, u64::from(name)))
    } else {
        Name {
            range: Range { offset: 0, size: 0 },
            status: table.strings_status,
        }
    }
}

// Stores the names of the symbols of a table from an index on in `out`, and returns their number.
fn fill_names_of<E: Entry + Record>(
    input: &[u8],
    table: &SymbolTable,
    symbols: Table<'_, E>,
    first: u64,
    out: &mut [Name],
) -> Result<u64, AnyError>
    ensures { Fills (record_in (λ e. symbol_name_range input.now table.now (E.fields e))
        (table_items symbols.entry)) first out.old result out.new }
{
    let names = SymbolNames {
        symbols,
        table: *table,
        input,
    };
    fill(names, first, out)
}

// Stores the names of the symbols of a record from an index on in `out`, and returns their number.
fn fill_names(
    input: &[u8],
    table: &SymbolTable,
    first: u64,
    out: &mut [Name],
) -> Result<u64, AnyError>
    ensures { Fills (symbol_by (symbol_name_range input.now table.now) input.now table.now)
        first out.old result out.new }
{
    match symbols_by(input, table) {
        Ok(AnySymbols::Narrow(symbols)) => fill_names_of(input, table, symbols, first, out),
        Ok(AnySymbols::Wide(symbols)) => fill_names_of(input, table, symbols, first, out),
        Err(failure) => Err(failure),
    }
}

/// The input ranges of the names of the symbols from index `first` on, each with its own status: as
/// many as fit in `out`, or all. `count` is set to their number; the rest of `out` is unchanged.
///
/// The symbols are those of `xmas_elf_symbols` for the same record. Each name is the text at the
/// symbol's `name` in the string table. Errors of a name: `strings_status` if it is not 0;
/// `DataRange` if the string table extends past the end of the input; those of `bytes::text_at`. The
/// errors of the call are those of `xmas_elf_symbols`; `out` and `count` are then unchanged.
#[unsafe(no_mangle)]
pub extern "C" fn xmas_elf_symbol_names(
    input: &[u8],
    table: &SymbolTable,
    first: u64,
    out: &mut [Name],
    count: &mut u64,
) -> u32
    ensures exact { Stores (symbol_by (symbol_name_range input.now table.now) input.now table.now)
        first out.old out.new count.old result count.new }
    ensures within { result ≡ 0 → AllLieIn input.now count.new out.new }
{
    give(fill_names(input, table, first, out), count)
}
