//! Look-ups in a hash table that was found, many in one call, and its check (gABI, "Hash Table"; the
//! convention of GNU binutils and glibc).

ghost use Rattle.std.specs.Prelude.{◌≡◌, ◌<◌, ℕ, Err, IsOk, IsOkAnd, MatchResult, Result, Some};
ghost use Rattle.std.specs.Prelude.{length, slice_get, true};
ghost use Rattle.elf_c.specs.LookUps.{AreAnswered, ChecksBy, ChecksIn, IfUtf8, IsChecked};
ghost use Rattle.elf_c.specs.LookUps.{IsForRange, IsLookUp, IsNameFound, LooksByRecord, LooksIfRead, LooksIn};
ghost use Rattle.elf_c.specs.LookUps.{answered, look_up_answer, look_up_record};
ghost use Rattle.elf_c.specs.Status.{GivesHere};
ghost use Rattle.elf_c.specs.SymbolTables.{symbol_by};
ghost use Rattle.elf_c.specs.Symbols.{symbol_record};
ghost use Rattle.elf_c.specs.declared.look_ups.Answer.{Answer};
ghost use Rattle.elf_c.specs.declared.status.AnyError.{AnyError};
ghost use Rattle.xmas_elf.specs.SymbolTable.{table_symbols};

use crate::hash_tables::{HashParts, OpenedTable, parts_by};
use crate::names::{Range, bytes_in};
use crate::status::{AnyError, Numbered, OK, give};
use crate::symbol_tables::AnySymbols;
use elf_base::ElfError;
use elf_linking::{AnyTable, LinkError};
use std::str::from_utf8;
use xmas_elf::bytes::Record;
use xmas_elf::symbol_table::{Entry, SymbolTable};

/// The result of a look-up, as numbers.
#[derive(Clone, Copy, Debug)]
pub(crate) struct LookUp {
    found: u32,
    index: u32,
    looked_at: u32,
}

/// The result of one of many look-ups, as numbers.
#[repr(C)]
#[derive(Clone, Copy, Debug)]
pub struct Answer {
    /// 0, or the number of the error of this look-up; the other fields are then 0.
    pub status: u32,
    /// 1 if a symbol is found, otherwise 0.
    pub found: u32,
    /// The index of the symbol, or 0.
    pub index: u32,
    /// The number of table entries that the look-up visited.
    pub looked_at: u32,
}

impl LookUp {
    // The numbers of the symbol that a look-up found, if any.
    #[inline(always)]
    fn of<E: Copy>(found: Option<(u32, E)>, looked_at: u32) -> LookUp
        ensures { result ≡ look_up_record found looked_at }
    {
        match found {
            Some((index, _entry)) => LookUp {
                found: 1,
                index,
                looked_at,
            },
            None => LookUp {
                found: 0,
                index: 0,
                looked_at,
            },
        }
    }
}

impl Answer {
    // The record for the result of a look-up.
    #[inline(always)]
    fn of(answer: Result<LookUp, AnyError>) -> Answer
        ensures { result ≡ answered answer }
    {
        match answer {
            Ok(said) => Answer {
                status: OK,
                found: said.found,
                index: said.index,
                looked_at: said.looked_at,
            },
            Err(failure) => Answer {
                status: failure.number(),
                found: 0,
                index: 0,
                looked_at: 0,
            },
        }
    }
}

// The result of a look-up, as numbers.
#[inline(always)]
fn said<E: Copy>(
    found: Result<Option<(u32, E)>, LinkError>,
    looked_at: u32,
) -> Result<LookUp, AnyError>
    ensures { result ≡ look_up_answer found looked_at }
{
    Ok(LookUp::of(found?, looked_at))
}

// Looks a name up among symbols.
fn look_up<E: Entry + Record>(
    table: &AnyTable<'_>,
    name: &str,
    symbols: &SymbolTable<'_, E>,
) -> Result<LookUp, AnyError>
    ensures { IsLookUp table.now name.now (table_symbols symbols.now) result }
{
    let (found, looked_at) = table.lookup_counted(
        name,
        symbols,
        |_| -> bool
            ensures { result ≡ true }
        { true },
    );
    said(found, looked_at)
}

// Looks a name up in a hash table among its symbols.
fn look_up_in(parts: &HashParts<'_>, name: &str) -> Result<LookUp, AnyError>
    ensures { LooksIn parts.now name.now result }
{
    let (table, strings) = (&parts.table, parts.strings);
    match parts.symbols {
        AnySymbols::Narrow(symbols) => {
            look_up(table, name, &SymbolTable::with_strings(symbols, strings))
        }
        AnySymbols::Wide(symbols) => {
            look_up(table, name, &SymbolTable::with_strings(symbols, strings))
        }
    }
}

// The name in a range of `names`.
#[inline(always)]
fn name_at<'a>(names: &'a [u8], range: &Range) -> Result<&'a str, AnyError>
    ensures { IsForRange (IfUtf8 IsNameFound) names.now range.now result }
{
    match from_utf8(bytes_in(names, range)?) {
        Ok(name) => Ok(name),
        Err(_) => Err(AnyError::Elf(ElfError::TextUtf8)),
    }
}

// Looks a name up, or returns the error if there is no table.
#[inline(always)]
fn look_up_if_read(found: &Result<HashParts<'_>, AnyError>, name: &str) -> Result<LookUp, AnyError>
    ensures { LooksIfRead found.now name.now result }
{
    match found {
        Ok(parts) => look_up_in(parts, name),
        Err(failure) => Err(*failure),
    }
}

// Looks up the name in a range of `names`.
fn look_up_at(
    found: &Result<HashParts<'_>, AnyError>,
    names: &[u8],
    range: &Range,
) -> Result<LookUp, AnyError>
    ensures { IsForRange (IfUtf8 (LooksIfRead found.now)) names.now range.now result }
{
    match name_at(names, range) {
        Ok(name) => look_up_if_read(found, name),
        Err(failure) => Err(failure),
    }
}

// Stores the results of look-ups, each for the name in a range of `names`.
fn look_ups(
    found: &Result<HashParts<'_>, AnyError>,
    names: &[u8],
    ranges: &[Range],
    out: &mut [Answer],
)
    ensures { AreAnswered (IfUtf8 (LooksIfRead found.now)) names.now ranges.now out.old out.new }
{
    let count = ranges.len().min(out.len());
    for place in 0..count {
        out[place] = Answer::of(look_up_at(found, names, &ranges[place]));
    }
}

/// Many look-ups by the record of `xmas_elf_hash_open` for the same bytes, each for the name in a
/// range of `names`: as many as there are ranges, and as fit in `out`. Each result is that of
/// `AnyTable::lookup_counted` with a test that passes every symbol. Any record may be given, as its
/// ranges are compared with the input in each call; the count of its symbols is not read.
///
/// Errors of a look-up: `DataRange` if the range passes the end of `names`; `TextUtf8` if the name is
/// not UTF-8; `DataRange` if the table extends past the end of the input; those of `HashTable::read`
/// or `GnuHashTable::read`; `DataRange` if the symbols extend past the end of the input;
/// `NotMultiple` if they are not a whole number of them; `DataRange` if the string table extends past
/// the end of the input; those of the look-up, of which there are none if `xmas_elf_check_hash`
/// returns OK.
#[unsafe(no_mangle)]
pub extern "C" fn xmas_elf_look_ups(
    input: &[u8],
    table: &OpenedTable,
    names: &[u8],
    ranges: &[Range],
    out: &mut [Answer],
)
    ensures exact { AreAnswered (IfUtf8 (LooksByRecord input.now table.now))
        names.now ranges.now out.old out.new }
    ensures found { (k : ℕ) (one : Answer) → k < length ranges.now
        → slice_get out.new k ≡ Some one → one.found ≡ 1
        → IsOk (symbol_by symbol_record input.now table.now.symbols one.index) }
{
    look_ups(&parts_by(input, table), names, ranges, out);
}

// Checks a table with symbols.
fn check<E: Entry + Record>(
    table: &AnyTable<'_>,
    symbols: &SymbolTable<'_, E>,
) -> Result<(), AnyError>
    ensures { IsChecked table.now (table_symbols symbols.now) result }
{
    table.check(symbols)?;
    Ok(())
}

// Checks a hash table with its symbols.
fn check_in(parts: &HashParts<'_>) -> Result<(), AnyError>
    ensures { ChecksIn parts.now result }
{
    let (table, strings) = (&parts.table, parts.strings);
    match parts.symbols {
        AnySymbols::Narrow(symbols) => check(table, &SymbolTable::with_strings(symbols, strings)),
        AnySymbols::Wide(symbols) => check(table, &SymbolTable::with_strings(symbols, strings)),
    }
}

// Checks the hash table of a record.
fn check_by(input: &[u8], opened: &OpenedTable) -> Result<(), AnyError>
    ensures { ChecksBy input.now opened.now result }
{
    match parts_by(input, opened) {
        Ok(parts) => check_in(&parts),
        Err(failure) => Err(failure),
    }
}

/// Whether look-ups by the record of `xmas_elf_hash_open` for the same bytes find each symbol that
/// they should: the result of `AnyTable::check`, which states the cost. Any record may be given.
///
/// Errors: those of `xmas_elf_look_ups` for the table, the symbols and the string table; those of the
/// check.
#[unsafe(no_mangle)]
pub extern "C" fn xmas_elf_check_hash(input: &[u8], table: &OpenedTable) -> u32
    ensures { (answer : Result (Unit {0}) AnyError)
        × ChecksBy input.now table.now answer × GivesHere answer tt result tt }
{
    give(check_by(input, table), &mut ())
}
