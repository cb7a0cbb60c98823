//! The symbols of many addresses, by an index in words and numbers of the caller (gABI, "Symbol Table"; the
//! index is this project's own).

ghost use Rattle.std.specs.Prelude.{◌≡◌, ◌≤◌, ◌<◌, ℕ, Err, IfOk, MatchResult, OnErr, Ok, Result};
ghost use Rattle.std.specs.Prelude.{Some, length, map, slice_get};
ghost use Rattle.elf_addresses.specs.Index.{IsWellBuilt};
ghost use Rattle.elf_addresses.specs.SymbolClaims.{claim_of_symbols, range_of_symbols};
ghost use Rattle.elf_addresses.specs.SymbolClaims.{symbol_count, symbol_items};
ghost use Rattle.elf_base.specs.Table.{table_items};
ghost use Rattle.elf_c.specs.AddressIndex.{AreAnswered, AreStored, IsAnswer, IsAnswerIn, IsIndexIn};
ghost use Rattle.elf_c.specs.AddressIndex.{IsIndexOf, IsIndexWith, addresses_by, addresses_in_table};
ghost use Rattle.elf_c.specs.AddressIndex.{index_of, index_sizes_of, sizes_with, told};
ghost use Rattle.elf_c.specs.AddressIndex.{within_of, words_by};
ghost use Rattle.elf_c.specs.Status.{GivesHere};
ghost use Rattle.elf_c.specs.SymbolTables.{symbol_by};
ghost use Rattle.elf_c.specs.Symbols.{symbol_record};
ghost use Rattle.elf_c.specs.declared.address_index.SymbolAt.{SymbolAt};
ghost use Rattle.elf_c.specs.declared.status.AnyError.{AnyError};

use crate::file::Parsed;
use crate::names::{Range, bytes_in};
use crate::status::{AnyError, give};
use crate::symbol_tables::{AnySymbols, SymbolTable, order_of, symbols_by};
use crate::symbols::{NO_SYMBOL, Symbol};
use elf_addresses::{AddressSymbols, At, IndexSize, SymbolIndex};
use elf_base::bytes::Order;
use xmas_elf::bytes::{Record, Table};
use xmas_elf::symbol_table::{DynEntry32, DynEntry64, Entry};

/// An index of the symbols of a table by their addresses: numbers that other calls take back.
#[repr(C)]
#[derive(Clone, Copy, Debug)]
pub struct AddressIndex {
    /// The symbols, and the string table of their names.
    pub table: SymbolTable,
    /// The range of the section indices of symbols that need more than 16 bits; of size 0 if there
    /// are none.
    pub indices: Range,
    /// The number of words that the index takes.
    pub words: u64,
    /// The number of numbers of 64 bits that the index takes.
    pub numbers: u64,
    /// The number of symbols with a size in the index; 0 if it was not built.
    pub sized_count: u64,
    /// The number of symbols of size 0 in the index; 0 if it was not built.
    pub open_count: u64,
    /// The index of the section whose symbols alone name addresses, or 0 for all.
    pub within: u32,
    /// The processor architecture of the file.
    pub machine: u16,
}

/// The symbol of an address, as numbers.
#[repr(C)]
#[derive(Clone, Copy, Debug)]
pub struct SymbolAt {
    /// The symbol, or 0 in each field.
    pub symbol: Symbol,
    /// The index of the symbol in its table, or 0.
    pub index: u64,
    /// The address less the value of the symbol, or 0.
    pub offset: u64,
    /// 1 if a symbol is found, otherwise 0.
    pub found: u32,
    /// 1 if the size of the symbol is 0, so that its end is unknown, otherwise 0.
    pub is_open: u32,
}

/// The sizes of an index.
#[derive(Clone, Copy, Debug)]
pub(crate) struct Sizes {
    words: u64,
    numbers: u64,
    sized_count: u64,
    open_count: u64,
}

/// The symbols of a table of either class, and what says which of them name addresses.
#[derive(Drop)]
pub(crate) enum AnyAddresses<'a> {
    /// Of class 32.
    Narrow(AddressSymbols<'a, DynEntry32>),
    /// Of class 64.
    Wide(AddressSymbols<'a, DynEntry64>),
}

// The section that is asked for; 0 is none.
#[inline(always)]
pub(crate) fn within_of(section: u32) -> Option<u32>
    ensures { result ≡ within_of section }
{
    if section == 0 { None } else { Some(section) }
}

// The words in a range.
fn words_by<'a>(input: &'a [u8], part: &Range, order: Order) -> Result<Table<'a, u32>, AnyError>
    ensures { MatchResult result (λ table. words_by input.now part.now order ≡ Ok (table_items table))
        (λ why. words_by input.now part.now order ≡ Err why) }
{
    let bytes = bytes_in(input, part)?;
    Ok(Table::new(bytes, order)?)
}

// The symbols of a record, and what says which of them name addresses.
#[tactic(auto, using(crate::proofs::AddressIndexes::all_read, crate::proofs::AddressIndexes::no_symbols, crate::proofs::AddressIndexes::no_strings, crate::proofs::AddressIndexes::no_words))]
pub(crate) fn addresses_by<'a>(
    input: &'a [u8],
    table: &SymbolTable,
    indices: &Range,
    machine: u16,
) -> Result<AnyAddresses<'a>, AnyError>
    ensures { MatchResult result
        (λ all. addresses_by input.now table.now indices.now machine ≡ Ok (addresses_in_table all))
        (λ why. addresses_by input.now table.now indices.now machine ≡ Err why) }
{
    let symbols = symbols_by(input, table)?;
    let strings = bytes_in(input, &table.strings)?;
    let indices = words_by(input, indices, order_of(table.encoding))?;
    match symbols {
        AnySymbols::Narrow(table) => Ok(AnyAddresses::Narrow(AddressSymbols {
            table,
            strings,
            indices,
            machine,
        })),
        AnySymbols::Wide(table) => Ok(AnyAddresses::Wide(AddressSymbols {
            table,
            strings,
            indices,
            machine,
        })),
    }
}

// Builds an index in words and numbers, and returns its sizes; without words, how many it takes.
fn build<E: Entry + Record>(
    symbols: &AddressSymbols<'_, E>,
    within: Option<u32>,
    words: &mut [u32],
    numbers: &mut [u64],
) -> Result<Sizes, AnyError>
    ensures exact { result ≡ sizes_with (claim_of_symbols E.fields symbols.now within)
        (symbol_count symbols.now) words.old numbers.old }
    ensures built { IfOk result (λ sizes. sizes.words ≤ length words.old
        → IsIndexWith (claim_of_symbols E.fields symbols.now within)
        (range_of_symbols E.fields symbols.now) sizes.sized_count sizes.open_count words.new
        numbers.new) }
    ensures unchanged { IfOk result (λ sizes. length words.old < sizes.words
        → (words.new ≡ words.old) × (numbers.new ≡ numbers.old)) }
    ensures failed { OnErr result ((words.new ≡ words.old) × (numbers.new ≡ numbers.old)) }
{
    let size = SymbolIndex::size(symbols, within);
    let count = size.words();
    if words.is_empty() && count > 0 {
        return Ok(Sizes {
            words: count as u64,
            numbers: size.numbers() as u64,
            sized_count: 0,
            open_count: 0,
        });
    }
    SymbolIndex::build_sized(symbols, within, size, words, numbers)?;
    Ok(Sizes {
        words: count as u64,
        numbers: size.numbers() as u64,
        sized_count: size.sized as u64,
        open_count: size.open as u64,
    })
}

// Builds an index of symbols of either class.
fn build_in(
    all: &AnyAddresses<'_>,
    within: Option<u32>,
    words: &mut [u32],
    numbers: &mut [u64],
) -> Result<Sizes, AnyError>
    ensures exact { result
        ≡ index_sizes_of (addresses_in_table all.now) within words.old numbers.old }
    ensures built { IfOk result (λ sizes. sizes.words ≤ length words.old
        → IsIndexIn (addresses_in_table all.now) within sizes.sized_count sizes.open_count words.new
        numbers.new) }
    ensures unchanged { IfOk result (λ sizes. length words.old < sizes.words
        → (words.new ≡ words.old) × (numbers.new ≡ numbers.old)) }
    ensures failed { OnErr result ((words.new ≡ words.old) × (numbers.new ≡ numbers.old)) }
{
    match all {
        AnyAddresses::Narrow(symbols) => build(symbols, within, words, numbers),
        AnyAddresses::Wide(symbols) => build(symbols, within, words, numbers),
    }
}

// Builds an index of the symbols of a record.
fn build_by(
    input: &[u8],
    table: &SymbolTable,
    indices: &Range,
    machine: u16,
    within: u32,
    words: &mut [u32],
    numbers: &mut [u64],
) -> Result<AddressIndex, AnyError>
    ensures exact { result
        ≡ index_of input.now table.now indices.now machine within words.old numbers.old }
    ensures built { IfOk result (λ index. index.words ≤ length words.old
        → IsIndexOf input.now index words.new numbers.new) }
    ensures unchanged { IfOk result (λ index. length words.old < index.words
        → (words.new ≡ words.old) × (numbers.new ≡ numbers.old)) }
    ensures failed { OnErr result ((words.new ≡ words.old) × (numbers.new ≡ numbers.old)) }
{
    let all = addresses_by(input, table, indices, machine)?;
    let sizes = build_in(&all, within_of(within), words, numbers)?;
    Ok(AddressIndex {
        table: *table,
        indices: *indices,
        words: sizes.words,
        numbers: sizes.numbers,
        sized_count: sizes.sized_count,
        open_count: sizes.open_count,
        within,
        machine,
    })
}

/// Builds an index of the symbols of a table that name addresses (`elf_addresses::AddressSymbols`),
/// in the first of `words` and of `numbers`, for `xmas_elf_symbols_at`. If `words` is empty, only how
/// many of both the index takes is found: `out.words` and `out.numbers`.
///
/// `table` is the record of `xmas_elf_symbols_open` or `xmas_elf_dynamic_symbols_open` for the same
/// bytes. `indices` is the range of the section of type SHT_SYMTAB_SHNDX that belongs to the symbols,
/// of size 0 if there is none. `within` is the index of a section, if only its symbols are asked for,
/// in an object file, whose values are offsets in sections; otherwise 0.
///
/// Errors: `DataRange` if the symbols extend past the end of the input; `NotMultiple` if they are not
/// a whole number of them; `DataRange` if the string table extends past the end of the input;
/// `DataRange` if the range of indices does; `NotMultiple` if it is not a whole number of words;
/// `ManySymbols` if there are 2 to the 32 symbols or more; `FewWords` if there are words, and too few
/// of them, or too few numbers. After an error, and if only their number is asked for, `words` and
/// `numbers` are as they were.
#[unsafe(no_mangle)]
pub extern "C" fn xmas_elf_address_index(
    input: &[u8],
    header: &Parsed,
    table: &SymbolTable,
    indices: &Range,
    within: u32,
    words: &mut [u32],
    numbers: &mut [u64],
    out: &mut AddressIndex,
) -> u32
    ensures exact { GivesHere
        (index_of input.now table.now indices.now header.now.machine within words.old numbers.old)
        out.old result out.new }
    ensures built { result ≡ 0 → out.new.words ≤ length words.old
        → IsIndexOf input.now out.new words.new numbers.new }
    ensures unchanged { (result ≡ 0 → length words.old < out.new.words)
        → (words.new ≡ words.old) × (numbers.new ≡ numbers.old) }
{
    give(
        build_by(
            input,
            table,
            indices,
            header.machine,
            within,
            words,
            numbers,
        ),
        out,
    )
}

impl SymbolAt {
    // The numbers of the symbol that a question found, if any.
    #[inline(always)]
    fn of<E: Entry + Record>(found: Option<At<E>>) -> SymbolAt
        ensures { result ≡ told E.fields found }
    {
        match found {
            Some(at) => SymbolAt {
                symbol: Symbol::of(&at.symbol),
                index: at.index as u64,
                offset: at.offset,
                found: 1,
                is_open: u32::from(at.open),
            },
            None => SymbolAt {
                symbol: NO_SYMBOL,
                index: 0,
                offset: 0,
                found: 0,
                is_open: 0,
            },
        }
    }
}

// The symbol of an address by an index.
fn find_one<E: Entry + Record>(index: &SymbolIndex<'_, '_, '_, E>, address: u64) -> SymbolAt
    ensures { let claims = index.now.claims in
        let claim_of = claim_of_symbols E.fields claims.symbols.now claims.within in
        IsAnswer claim_of (map E.fields (symbol_items claims.symbols.now))
        (IsWellBuilt claim_of (range_of_symbols E.fields claims.symbols.now)
        index.now.sized.now index.now.begins.now index.now.sizes.now index.now.lasting.now
        index.now.starts.now) address result }
{
    SymbolAt::of(index.symbol_at(address))
}

// Stores the symbol of each address.
fn find_each<E: Entry + Record>(
    index: &SymbolIndex<'_, '_, '_, E>,
    addresses: &[u64],
    out: &mut [SymbolAt],
)
    ensures { let claims = index.now.claims in
        let claim_of = claim_of_symbols E.fields claims.symbols.now claims.within in
        AreStored (IsAnswer claim_of (map E.fields (symbol_items claims.symbols.now))
        (IsWellBuilt claim_of (range_of_symbols E.fields claims.symbols.now)
        index.now.sized.now index.now.begins.now index.now.sizes.now index.now.lasting.now
        index.now.starts.now))
        addresses.now out.old out.new }
{
    let count = addresses.len().min(out.len());
    for place in 0..count {
        out[place] = find_one(index, addresses[place]);
    }
}

// Stores the symbol of each address by the index in words and numbers.
fn find_all<E: Entry + Record>(
    symbols: &AddressSymbols<'_, E>,
    index: &AddressIndex,
    words: &[u32],
    numbers: &[u64],
    addresses: &[u64],
    out: &mut [SymbolAt],
)
    ensures { let claim_of = claim_of_symbols E.fields symbols.now
        (within_of index.now.within) in
        AreStored (IsAnswer claim_of (map E.fields (symbol_items symbols.now))
        (IsIndexWith claim_of (range_of_symbols E.fields symbols.now) index.now.sized_count
        index.now.open_count words.now numbers.now)) addresses.now out.old out.new }
{
    let within = within_of(index.within);
    let size = IndexSize {
        sized: index.sized_count as usize,
        open: index.open_count as usize,
    };
    let index = SymbolIndex::lend(symbols, within, size, words, numbers);
    find_each(&index, addresses, out);
}

// Stores the symbol of each address, of symbols of either class.
fn find_in(
    all: &AnyAddresses<'_>,
    index: &AddressIndex,
    words: &[u32],
    numbers: &[u64],
    addresses: &[u64],
    out: &mut [SymbolAt],
)
    ensures { AreStored (IsAnswerIn (addresses_in_table all.now) index.now words.now numbers.now)
        addresses.now out.old out.new }
{
    match all {
        AnyAddresses::Narrow(symbols) => find_all(symbols, index, words, numbers, addresses, out),
        AnyAddresses::Wide(symbols) => find_all(symbols, index, words, numbers, addresses, out),
    }
}

// Stores the symbol of each address by the index of a record.
fn find_by(
    input: &[u8],
    index: &AddressIndex,
    words: &[u32],
    numbers: &[u64],
    addresses: &[u64],
    out: &mut [SymbolAt],
) -> Result<(), AnyError>
    ensures { AreAnswered input.now index.now words.now numbers.now addresses.now out.old result
        out.new }
{
    let all = addresses_by(input, &index.table, &index.indices, index.machine)?;
    find_in(&all, index, words, numbers, addresses, out);
    Ok(())
}

/// The symbols of many addresses: for each the innermost of those that name addresses and cover it
/// (`elf_addresses::SymbolIndex::symbol_at`), as many as there are addresses, and as fit in `out`.
///
/// `index`, `words` and `numbers` are those of `xmas_elf_address_index` for the same bytes. Any others
/// may be given, as the ranges are compared with the input in each call, and the symbol that is found
/// with the address: it then covers the address too, but may be another than the innermost, or one
/// that names no address, and one may be missed.
///
/// Errors: those of `xmas_elf_address_index` for the ranges; `out` is then unchanged.
#[unsafe(no_mangle)]
pub extern "C" fn xmas_elf_symbols_at(
    input: &[u8],
    index: &AddressIndex,
    words: &[u32],
    numbers: &[u64],
    addresses: &[u64],
    out: &mut [SymbolAt],
) -> u32
    ensures exact { (answer : Result (Unit {0}) AnyError)
        × AreAnswered input.now index.now words.now numbers.now addresses.now out.old answer
        out.new
        × GivesHere answer tt result tt }
    ensures symbols { result ≡ 0 → (k : ℕ) (one : SymbolAt) → k < length addresses.now
        → slice_get out.new k ≡ Some one → one.found ≡ 1
        → symbol_by symbol_record input.now index.now.table one.index ≡ Ok one.symbol }
{
    give(
        find_by(input, index, words, numbers, addresses, out),
        &mut (),
    )
}
