//! Callers of symbols, of a known type and of any.

ghost use Rattle.std.specs.Prelude.{◌≡◌, ◌*◌, ◌<◌, ◌≤◌};
ghost use Rattle.std.specs.Prelude.{IfErr, IfOk, IsNone, IsSomeAnd, MatchOption};
ghost use Rattle.std.specs.Prelude.{None, Ok, Some, codes, drop, length, slice_get};
ghost use Rattle.std.specs.Prelude.{take, ℕ};
ghost use Rattle.elf_callers.specs.Names.{HasText, IsNameTotal, first_name_of};
ghost use Rattle.elf_callers.specs.Totals.{IsFirstWithout};
ghost use Rattle.xmas_elf.specs.First.{FindsFirstAt};
ghost use Rattle.xmas_elf.specs.Lent.{Answers};
ghost use Rattle.xmas_elf.specs.NameTable.{section_named};
ghost use Rattle.xmas_elf.specs.Number.{number};
ghost use Rattle.xmas_elf.specs.SectionHeader.{section_of};
ghost use Rattle.xmas_elf.specs.StringTables.{string_of, strtab_of};
ghost use Rattle.xmas_elf.specs.Symbol.{entry_64_fields};
ghost use Rattle.xmas_elf.specs.SymbolSection.{IsSectionIndex, symbol_section_of};
ghost use Rattle.xmas_elf.specs.Symbols.{symbols_of};
ghost use Rattle.xmas_elf.specs.Table.{table_data, table_items, table_order};
ghost use Rattle.xmas_elf.specs.Text.{text_of};
ghost use Rattle.xmas_elf.specs.Types.{ElfFile, SectionHeader};

use xmas_elf::bytes::{Order, Record, Table, text_at};
use xmas_elf::sections::SectionHeader;
use xmas_elf::symbol_table::{Entry, Entry64, SymbolTable};
use xmas_elf::{ElfError, ElfFile};

/// The index in a table of the first symbol with this value.
pub fn value_position<E: Entry + Record>(symbols: &Table<'_, E>, value: u64) -> Option<usize>
    ensures { FindsFirstAt (λ symbol. (E.fields symbol).value ≡ value)
        (table_items symbols.now) result }
{
    symbols.iter().position(|symbol| symbol.value() == value)
}

/// Why a symbol has no name where no section is named `.strtab`.
#[tactic(auto, unfolding(xmas_elf::specs::StringTables::string_of, xmas_elf::specs::StringTables::strtab_of))]
pub fn without_strtab(symbol: &Entry64, file: &ElfFile<'_>) -> Option<ElfError>
    requires { section_named file.now (codes ".strtab") ≡ None }
    ensures { result ≡ Some ElfError.NoStrtab }
{
    symbol.get_name(file).err()
}

/// Any symbol: its section is that at the index that it has, or the same error.
pub fn section_of_any<E: Entry>(
    symbol: &E,
    file: &ElfFile<'_>,
    place: usize,
) -> Result<SectionHeader, ElfError>
    ensures value { IfOk result (λ section. (index : ℕ)
        × IsSectionIndex file.now (E.fields symbol.now) place index
        × (section_of file.now index ≡ Ok section)) }
    ensures only { (index : ℕ) → IsSectionIndex file.now (E.fields symbol.now) place index
        → result ≡ section_of file.now index }
    ensures exact { result ≡ symbol_section_of file.now (E.fields symbol.now) place }
{
    symbol.get_section_header(file, place)
}

/// The value of a symbol of class 64: the number of eight bytes that is 8 after its place.
/// None where that is at the end of the table or past it.
#[tactic(auto, unfolding(xmas_elf::specs::Symbol::entry_64_fields))]
pub fn value_at(table: &Table<'_, Entry64>, index: usize) -> Option<u64>
    ensures { MatchOption result (length (table_data table.now) ≤ index * 24)
        (λ value. (index * 24 < length (table_data table.now)) × (value
        ≡ number (table_order table.now) 8 8
        (take 24 (drop (index * 24) (table_data table.now))))) }
{
    Some(table.get(index)?.value())
}

/// The name of a symbol by the bytes of a string table: in each file that has it,
/// what `get_name` returns.
#[tactic(auto, unfolding(xmas_elf::specs::StringTables::string_of))]
pub fn name_in<'a>(strings: &'a [u8], symbol: &Entry64) -> Result<&'a str, ElfError>
    ensures exact { Answers (text_of strings.now (entry_64_fields symbol.now).name) result }
    ensures in_files { (file : ElfFile) → strtab_of file ≡ Ok strings.now
        → Answers (string_of file (entry_64_fields symbol.now).name) result }
{
    text_at(strings, symbol.name() as usize)
}

/// The name of the symbol at an index by a string table of one's own, as the one that the section of
/// the symbols is linked to; `None` past the end of the symbols.
pub fn name_at<'a>(
    symbols: Table<'a, Entry64>,
    strings: &'a [u8],
    index: usize,
) -> Option<Result<&'a str, ElfError>>
    ensures { MatchOption (slice_get (table_items symbols.entry) index) (IsNone result)
        (λ symbol. IsSomeAnd result (Answers (text_of strings.now (entry_64_fields symbol).name))) }
{
    SymbolTable::with_strings(symbols, strings).name(index)
}

/// How many bytes the names of all symbols have together, or the greatest number if that is less.
/// Rejected as the name of the first symbol that has none.
pub fn name_bytes<E: Entry + Record>(
    file: &ElfFile<'_>,
    symbols: Table<'_, E>,
) -> Result<u64, ElfError>
    ensures sum { IfOk result (IsNameTotal (symbols_of E.fields E.text_in symbols.entry file.now)) }
    ensures failed { let all = symbols_of E.fields E.text_in symbols.entry file.now in
        IfErr result (λ _. (symbol : E) × IsFirstWithout (HasText all) all.items symbol) }
{
    let named = SymbolTable::new(symbols, file);
    let mut total = 0u64;
    for symbol in symbols {
        total = total.saturating_add(named.name_of(&symbol)?.len() as u64);
    }
    Ok(total)
}

/// The name of the first symbol in some bytes, which outlives the symbol and the `ElfFile`. Rejected
/// as the bytes of the file are, with `NotMultiple` where those of the symbols are no whole number
/// of them, with `SymbolIndex` where there are none, and as the name is.
pub fn first_name<'a>(input: &'a [u8], symbols: &[u8], order: Order) -> Result<&'a str, ElfError>
    ensures { Answers (first_name_of input.entry order symbols.now) result }
{
    let file = ElfFile::new(input)?;
    let table = Table::<Entry64>::new(symbols, order)?;
    let symbol = table.get(0).ok_or(ElfError::SymbolIndex)?;
    symbol.get_name(&file)
}
