//! A symbol table with the names of its symbols (gABI, "Symbol Table" and "String Table").

ghost use Rattle.std.specs.Prelude.{◌≡◌, ◌↔◌, ◌<◌, ◌≤◌, ◌+◌, ◌^◌, IfOk, IfSome, IsNone, IsSomeAnd, IsTrue};
ghost use Rattle.std.specs.Prelude.{Err, IsOkAnd, MatchOption, MatchResult, None, Ok, Some};
ghost use Rattle.std.specs.Prelude.{false, length, option_map, slice_get, true};
ghost use Rattle.std.specs.Result.{result_ok};
ghost use Rattle.std.specs.Str.{IsUtf8};
ghost use Rattle.elf_base.specs.Lent.{Answers};
ghost use Rattle.xmas_elf.specs.NamedSymbols.{TextBy, TextBy-prop};
ghost use Rattle.xmas_elf.specs.SymbolName.{name_in_table};
ghost use Rattle.xmas_elf.specs.SymbolRange.{symbol_range_of};
ghost use Rattle.xmas_elf.specs.Symbols.{named_symbols, symbols_by_bytes, symbols_of};

use crate::bytes::{Record, Table, TableIter, bytes_up_to_zero, text_at};
use crate::symbol_table::Entry;
use crate::symbol_table::file_ranges::symbol_range;
use crate::symbol_table::symbol_names::Names;
use crate::{ElfError, ElfFile};
use elf_base::bytes::{has_bytes_at, is_found_at};

/// A symbol table with the names of its symbols: the table, and the string table of the names, or
/// the file if names are not texts of one table.
#[derive(Drop)]
pub struct SymbolTable<'a, E: Entry + Record> {
    table: Table<'a, E>,
    names: Names<'a>,
    ghost text: { TextBy E.fields E.text_in names } by { TextBy-prop E.fields E.text_in names },
}

impl<'a, E: Entry + Record> SymbolTable<'a, E> {
    ghost use Rattle.elf_base.specs.Table.{table_items, table_rest};
    ghost use Rattle.elf_base.specs.Text.{lent_text};
    ghost use Rattle.xmas_elf.specs.SymbolTable.{AreNameBytes, IsNoText, LieAsNameBytes, NameIf};
    ghost use Rattle.xmas_elf.specs.SymbolTable.{carried_strings, carried_table, carries_bytes};
    ghost use Rattle.xmas_elf.specs.SymbolTable.{table_symbols};

    /// The symbols of a table of this file; their string table is found by `Entry::string_table`.
    #[inline(always)]
    pub fn new(table: Table<'a, E>, file: &ElfFile<'a>) -> Self
        ensures symbols { table_symbols result
            ≡ symbols_of E.fields E.text_in table.entry file.now }
        ensures table { carried_table result ≡ table.entry }
        ensures strings { IfSome (E.strings_in file.now)
            (λ strings. IsSomeAnd (carried_strings result) (Answers strings)) }
        ensures place { IfSome (carried_strings result)
            (λ found. IfOk found (E.strings_lie file.now)) }
        ensures as_texts { carries_bytes result ≡ false }
    {
        Self {
            table,
            names: Names::of::<E>(file),
        }
    }

    /// The symbols of a table with their names in this string table, whatever string table
    /// `Entry::get_name` reads.
    #[inline(always)]
    pub fn with_strings(table: Table<'a, E>, strings: &'a [u8]) -> Self
        ensures symbols { table_symbols result
            ≡ named_symbols E.fields strings.now table.entry }
        ensures table { carried_table result ≡ table.entry }
        ensures strings { carried_strings result ≡ Some (Ok strings.entry) }
        ensures as_texts { carries_bytes result ≡ false }
    {
        Self {
            table,
            names: Names::Strings(Ok(strings)),
        }
    }

    /// The symbols of a table with the bytes of their names in this string table, whether or not they
    /// are UTF-8: a look-up or a check compares names as bytes, as dynamic linkers do.
    #[inline(always)]
    pub fn with_byte_names(table: Table<'a, E>, strings: &'a [u8]) -> Self
        ensures symbols { table_symbols result
            ≡ symbols_by_bytes E.fields strings.now table.entry }
        ensures table { carried_table result ≡ table.entry }
        ensures strings { carried_strings result ≡ Some (Ok strings.entry) }
        ensures as_bytes { carries_bytes result ≡ true }
    {
        Self {
            table,
            names: Names::Bytes(strings),
        }
    }

    /// The number of symbols.
    #[inline(always)]
    pub fn len(&self) -> usize
        ensures { result ≡ length (table_symbols self.now).items }
    {
        self.table.len()
    }

    /// The table without the names.
    #[inline(always)]
    pub fn table(&self) -> Table<'a, E>
        ensures { result ≡ carried_table self.now }
    {
        self.table
    }

    /// The string table of the names, or the error for it; `None` if names are not texts of one
    /// table.
    pub fn strings(&self) -> Option<Result<&'a [u8], ElfError>>
        ensures { result ≡ carried_strings self.now }
    {
        match &self.names {
            Names::Strings(found) => Some(*found),
            Names::Bytes(strings) => Some(Ok(*strings)),
            Names::File(_) => None,
        }
    }

    /// The symbol at an index, or `None` past the end of the table.
    #[inline(always)]
    pub fn get(&self, index: usize) -> Option<E>
        ensures { result ≡ slice_get (table_symbols self.now).items index }
    {
        self.table.get(index)
    }

    /// An iterator over the symbols, in order.
    #[inline(always)]
    pub fn iter(&self) -> TableIter<'a, E>
        ensures starts { table_rest result ≡ carried_table self.now }
        ensures items { table_items (table_rest result) ≡ (table_symbols self.now).items }
        ensures fits { length (table_items (table_rest result)) < 2 ^ 64 }
    {
        self.table.iter()
    }

    /// The name of the symbol at an index, or `None` past the end of the table. The errors are
    /// those of `name_of`.
    #[inline(always)]
    pub fn name(&self, index: usize) -> Option<Result<&'a str, ElfError>>
        ensures text { MatchOption (slice_get (table_symbols self.now).items index)
            (IsNone result)
            (λ symbol. IsSomeAnd result (λ found. MatchResult found
            (λ name. (table_symbols self.now).text symbol ≡ Some name.now)
            (λ _. IsNoText (carries_bytes self.now) ((table_symbols self.now).text symbol)))) }
        ensures exact { IfSome (carried_strings self.now) (λ strings.
            IfSome (slice_get (table_symbols self.now).items index) (λ symbol.
            IsSomeAnd result (Answers (name_in_table strings (E.fields symbol).name)))) }
    {
        let symbol = self.table.get(index)?;
        Some(self.name_of(&symbol))
    }

    /// The name of a symbol of such a table.
    ///
    /// Errors: that of the string table; those of `bytes::text_at` in it at `name`; those of
    /// `Entry::get_name`, if names are not texts of one table.
    #[inline(always)]
    pub fn name_of(&self, symbol: &E) -> Result<&'a str, ElfError>
        ensures text { MatchResult result
            (λ name. (table_symbols self.now).text symbol.now ≡ Some name.now)
            (λ _. IsNoText (carries_bytes self.now) ((table_symbols self.now).text symbol.now)) }
        ensures exact { IfSome (carried_strings self.now)
            (λ found. Answers (name_in_table found (E.fields symbol.now).name) result) }
    {
        match &self.names {
            Names::Strings(found) => text_in(*found, symbol.name()),
            Names::Bytes(strings) => text_at(strings, symbol.name() as usize),
            Names::File(file) => symbol.get_name(file),
        }
    }

    /// The bytes of the name of the symbol at an index, or `None` past the end of the table. The
    /// errors are those of `name_bytes_of`.
    #[inline(always)]
    pub fn name_bytes(&self, index: usize) -> Option<Result<&'a [u8], ElfError>>
        ensures texts { MatchOption (slice_get (table_symbols self.now).items index)
            (IsNone result)
            (λ symbol. IsSomeAnd result
            (NameIf (carries_bytes self.now)
            (λ name. (table_symbols self.now).text symbol ≡ Some name))) }
        ensures place { IfSome (slice_get (table_symbols self.now).items index)
            (λ symbol. IfSome result (LieAsNameBytes self.now symbol)) }
        ensures exact { MatchOption (slice_get (table_symbols self.now).items index)
            (IsNone result)
            (λ symbol. IsSomeAnd result (AreNameBytes self.now symbol)) }
    {
        let symbol = self.get(index)?;
        Some(self.name_bytes_of(&symbol))
    }

    /// The bytes of the name of a symbol of such a table, whether or not they are UTF-8: the text of
    /// `name_of`, where that is Ok.
    ///
    /// Errors: that of the string table; those of `bytes::bytes_up_to_zero` in it at `name`; those
    /// of `Entry::get_name`, if names are not texts of one table.
    #[inline(always)]
    pub fn name_bytes_of(&self, symbol: &E) -> Result<&'a [u8], ElfError>
        ensures texts { NameIf (carries_bytes self.now)
            (λ name. (table_symbols self.now).text symbol.now ≡ Some name) result }
        ensures place { LieAsNameBytes self.now symbol.now result }
        ensures as_text { IfSome (carried_strings self.now) (λ found.
            name_in_table found (E.fields symbol.now).name ≡ lent_text result) }
        ensures exact { AreNameBytes self.now symbol.now result }
    {
        match &self.names {
            Names::Strings(found) => match *found {
                Ok(strings) => bytes_up_to_zero(strings, symbol.name() as usize),
                Err(error) => Err(error),
            },
            Names::Bytes(strings) => bytes_up_to_zero(strings, symbol.name() as usize),
            Names::File(file) => bytes_of(symbol.get_name(file)),
        }
    }

    /// The range of the bytes that the file stores for the symbol at an index: the offset of the
    /// first, and their number. They are in the symbol's section, in an object file from its value
    /// on, in other files from its address on: its value, or for a thread-local symbol (`Type::Tls`)
    /// the sum of its value and the address of the first segment of type Tls.
    ///
    /// `None` if the symbol has no section, as one that is undefined, absolute or common; if the
    /// file stores no bytes for its section, as for types NoBits and Null; if a file that is linked
    /// has no segment of type Tls for a thread-local symbol; and if not all of the bytes are in the
    /// section. A symbol of size 0 has an empty range.
    ///
    /// Errors: `SymbolIndex` past the end of the table; those of `Entry::get_section_header`, except
    /// `ReservedSymbolIndex`; those of `SectionHeader::stored_range`.
    pub fn file_range(
        &self,
        file: &ElfFile<'_>,
        index: usize,
    ) -> Result<Option<(usize, usize)>, ElfError>
        ensures within { IfOk result (λ found. IfSome found
            (λ range. range.0 + range.1 ≤ length file.now.input.now)) }
        ensures exact { MatchOption (slice_get (table_symbols self.now).items index)
            (result ≡ Err ElfError.SymbolIndex)
            (λ symbol. result ≡ symbol_range_of file.now (E.fields symbol) index) }
    {
        match self.table.get(index) {
            Some(symbol) => symbol_range(&symbol, file, index),
            None => Err(ElfError::SymbolIndex),
        }
    }

    /// The bytes of a symbol's name by which look-ups and checks know it: those of its text, or of
    /// its name where names are bytes. `None` if it has none.
    #[inline(always)]
    pub fn key_of(&self, symbol: &E) -> Option<&'a [u8]>
        ensures { option_map (λ name. name.now) result ≡ (table_symbols self.now).text symbol.now }
    {
        match &self.names {
            Names::Bytes(strings) => bytes_up_to_zero(strings, symbol.name() as usize).ok(),
            _ => bytes_of(self.name_of(symbol)).ok(),
        }
    }

    /// Whether a symbol has this name, which is compared in place.
    #[inline(always)]
    pub fn has_name(&self, symbol: &E, name: &str) -> bool
        ensures { IsTrue result ↔ ((table_symbols self.now).text symbol.now ≡ Some name.now) }
    {
        match &self.names {
            Names::Strings(found) => match *found {
                Ok(strings) => is_found_at(strings, symbol.name() as usize, name),
                Err(_) => false,
            },
            _ => self.has_key(symbol, name.as_bytes()),
        }
    }

    /// Whether a symbol has a name of these bytes.
    #[inline(always)]
    pub fn has_key(&self, symbol: &E, name: &[u8]) -> bool
        ensures { IsTrue result ↔ ((table_symbols self.now).text symbol.now ≡ Some name.now) }
    {
        match &self.names {
            Names::Bytes(strings) => has_bytes_at(strings, symbol.name() as usize, name),
            _ => matches!(self.key_of(symbol), Some(found) if found == name),
        }
    }
}

// The text at an index of a string table, or the error for it.
#[inline(always)]
fn text_in<'a>(found: Result<&'a [u8], ElfError>, index: u32) -> Result<&'a str, ElfError>
    ensures text { let text = result_ok (name_in_table found.entry index) in MatchResult result
        (λ name. text ≡ Some name.now) (λ _. text ≡ None) }
    ensures exact { Answers (name_in_table found.entry index) result }
{
    text_at(found?, index as usize)
}

// The bytes of a text, or the error for it.
#[inline(always)]
fn bytes_of<'a>(text: Result<&'a str, ElfError>) -> Result<&'a [u8], ElfError>
    ensures { MatchResult text.entry
        (λ name. IsOkAnd result (λ bytes. (bytes.now ≡ name.now) × IsUtf8 bytes.now))
        (λ error. result ≡ Err error) }
{
    match text {
        Ok(name) => Ok(name.as_bytes()),
        Err(error) => Err(error),
    }
}
