//! The symbols of the dynamic segment, which is found without section headers, and those of a file:
//! the ones of its symbol table, or else these (gABI, "Symbol Table", and "Dynamic Section":
//! DT_SYMTAB).

ghost use Rattle.std.specs.Prelude.{◌≡◌, ◌==◌, ◌<◌, ◌≤◌, ◌^◌, ◌*◌, ◌↔◌, ℕ, IsOk, List, Ok, Result};
ghost use Rattle.elf_base.specs.FileHeader.{file_class};
ghost use Rattle.elf_c.specs.DynamicSymbols.{AreDynamicSymbols, IsDynamicCount, IsFileTable};
ghost use Rattle.elf_c.specs.DynamicSymbols.{IsSegmentTable};
ghost use Rattle.elf_c.specs.DynamicSymbols.{dynamic_symbol_at, dynamic_symbol_name, symbol_size};
ghost use Rattle.elf_c.specs.DynamicSymbols.{table_at_address};
ghost use Rattle.elf_c.specs.DynamicTexts.{strings_range};
ghost use Rattle.elf_c.specs.FoundSymbols.{IsFoundBy};
ghost use Rattle.elf_c.specs.Parsed.{file_of};
ghost use Rattle.elf_c.specs.Status.{GivesHere};
ghost use Rattle.elf_c.specs.SymbolTables.{LieWithin, symbol_name_range, symbol_by};
ghost use Rattle.elf_c.specs.Symbols.{symbol_record};
ghost use Rattle.elf_c.specs.declared.found_symbols.FoundSymbol.{FoundSymbol};
ghost use Rattle.elf_c.specs.declared.status.AnyError.{AnyError};
ghost use Rattle.elf_c.specs.declared.symbol_tables.SymbolTable.{SymbolTable};
ghost use Rattle.elf_linking.specs.DynamicView.{number_with, view_entries};
ghost use Rattle.elf_linking.specs.declared.error.LinkError.{LinkError};
ghost use Rattle.elf_linking.specs.declared.view.tags.TheConstants.{DT_SYMTAB};

use crate::addresses::range_at;
use crate::dynamic_texts::{name_of, strings_of};
use crate::file::Parsed;
use crate::status::{AnyError, give};
use crate::symbol_tables::{SymbolTable, table_of_section};
use elf_addresses::symtab_index;
use elf_linking::LinkError;
use elf_linking::view::{DT_SYMTAB, DynamicView};
use xmas_elf::ElfFile;

// Whether a file is of class 32.
pub(crate) fn is_narrow(file: &ElfFile<'_>) -> bool
    ensures { result ≡ (file_class file.now.header == 1) }
{
    file.header.pt1.class.raw() == 1
}

// The number of symbols of the dynamic segment.
pub(crate) fn symbol_count(file: &ElfFile<'_>) -> Result<u64, LinkError>
    ensures { IsDynamicCount file.now result }
{
    DynamicView::read(file)?.symbol_count(file)
}

// The number of bytes of a number of symbols.
fn symbols_size(file: &ElfFile<'_>, count: u64) -> u64
    requires { count ≤ 2 ^ 32 }
    ensures { result ≡ count * symbol_size file.now }
{
    if is_narrow(file) {
        count * 16
    } else {
        count * 24
    }
}

// A number of symbols of the dynamic segment, as numbers.
fn table_of_view(
    file: &ElfFile<'_>,
    view: &DynamicView<'_>,
    count: u64,
) -> Result<SymbolTable, AnyError>
    requires { count ≤ 2 ^ 32 }
    ensures { let entries = view_entries view.now in result ≡ table_at_address file.now
        (strings_range file.now entries) (Ok count) (number_with DT_SYMTAB entries) }
{
    let Some(address) = view.entry(DT_SYMTAB) else {
        return Err(AnyError::Link(LinkError::NoEntry));
    };
    let symbols = range_at(file, address, symbols_size(file, count))?;
    let strings = name_of(strings_of(file, view));
    Ok(SymbolTable {
        symbols,
        strings: strings.range,
        count,
        strings_status: strings.status,
        class: u16::from(file.header.pt1.class.raw()),
        encoding: u16::from(file.header.pt1.encoding.raw()),
    })
}

// The symbols of the dynamic segment, as numbers.
fn table_of_segment(file: &ElfFile<'_>) -> Result<SymbolTable, AnyError>
    ensures { IsSegmentTable file.now result }
{
    let view = DynamicView::read(file)?;
    let count = view.symbol_count(file)?;
    table_of_view(file, &view, count)
}

/// The symbols of the dynamic segment and the string table of their names, found once, for
/// `xmas_elf_symbols` and `xmas_elf_symbol_names`. Both ranges lie in the input. It needs no section
/// headers.
///
/// Errors: those of `DynamicView::read` and `DynamicView::records` for the class. `strings_status` is
/// 0, or the error for the string table: `NoEntry` if there is no entry DT_STRTAB or DT_STRSZ; those
/// of `xmas_elf_bytes_at`.
#[unsafe(no_mangle)]
pub extern "C" fn xmas_elf_dynamic_symbols_open(
    input: &[u8],
    header: &Parsed,
    out: &mut SymbolTable,
) -> u32
    ensures exact { (answer : Result SymbolTable AnyError)
        × IsSegmentTable (file_of input.entry header.now) answer
        × GivesHere answer out.old result out.new }
    ensures within { result ≡ 0 → LieWithin input.now out.new }
    ensures symbols { result ≡ 0 → (bytes : Result (List ℕ) LinkError)
        → AreDynamicSymbols (file_of input.entry header.now) bytes → (index : ℕ)
        → symbol_by symbol_record input.now out.new index
        ≡ dynamic_symbol_at symbol_record (file_of input.entry header.now) bytes index }
    ensures names { result ≡ 0 → (bytes : Result (List ℕ) LinkError)
        → AreDynamicSymbols (file_of input.entry header.now) bytes → (index : ℕ)
        → symbol_by (symbol_name_range input.now out.new) input.now out.new index
        ≡ dynamic_symbol_at (dynamic_symbol_name (file_of input.entry header.now))
        (file_of input.entry header.now) bytes index }
    ensures found { result ≡ 0 → (name version : List ℕ) (said : FoundSymbol)
        → IsFoundBy (file_of input.entry header.now) name version (Ok said) → said.found ≡ 1
        → symbol_by symbol_record input.now out.new said.index ≡ Ok said.symbol }
    ensures number { result ≡ 0 → IsDynamicCount (file_of input.entry header.now) (Ok out.new.count) }
    ensures counted { result ≡ 0 → (index : ℕ)
        → IsOk (symbol_by symbol_record input.now out.new index) ↔ (index < out.new.count) }
{
    give(table_of_segment(&header.file(input)), out)
}

// The symbols of a file, as numbers.
fn table_of_file(file: &ElfFile<'_>) -> Result<SymbolTable, AnyError>
    ensures { IsFileTable file.now result }
{
    match symtab_index(file) {
        Some(index) => table_of_section(file, index as u64),
        None => table_of_segment(file),
    }
}

/// The symbols of a file and the string table of their names, found once, for `xmas_elf_symbols` and
/// `xmas_elf_symbol_names`: those of the first section of type SHT_SYMTAB (`.symtab`), as in
/// `xmas_elf_symbols_open`; of a file without such a section, as after `strip`, those of the dynamic
/// segment, as in `xmas_elf_dynamic_symbols_open`. Both ranges lie in the input.
///
/// The errors are those of the call for these symbols.
#[unsafe(no_mangle)]
pub extern "C" fn xmas_elf_file_symbols_open(
    input: &[u8],
    header: &Parsed,
    out: &mut SymbolTable,
) -> u32
    ensures exact { (answer : Result SymbolTable AnyError)
        × IsFileTable (file_of input.entry header.now) answer
        × GivesHere answer out.old result out.new }
    ensures within { result ≡ 0 → LieWithin input.now out.new }
    ensures counted { result ≡ 0 → (index : ℕ)
        → IsOk (symbol_by symbol_record input.now out.new index) ↔ (index < out.new.count) }
{
    give(table_of_file(&header.file(input)), out)
}
