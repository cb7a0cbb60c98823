//! The symbols of a dynamic segment (gABI, "Dynamic Section": DT_SYMTAB).

ghost use Rattle.std.specs.Prelude.{◌≡◌, ◌%◌, ◌^◌, ◌<◌, ◌≤◌};
ghost use Rattle.std.specs.Prelude.{Ok, Err, IfOk, IsOkAnd, MatchResult, Some, length};
ghost use Rattle.elf_base.specs.FileHeader.{file_order};
ghost use Rattle.elf_base.specs.Table.{table_bytes, table_data, table_order};
ghost use Rattle.elf_linking.specs.DynamicView.{AreSymbols, AreSymbolsFailed, IsSymbolCount};
ghost use Rattle.elf_linking.specs.DynamicView.{LieAsSymbols, counted_symbols_of, view_strings};
ghost use Rattle.elf_linking.specs.DynamicView.{view_table};
ghost use Rattle.elf_linking.specs.References.{IsReachedCount, count_with, references_left};
ghost use Rattle.xmas_elf.specs.SymbolTable.{carried_strings, carried_table, table_symbols};
ghost use Rattle.xmas_elf.specs.Symbols.{named_symbols};
ghost use Rattle.elf_linking.specs.Loaded.{lent};

use crate::LinkError;
use crate::references::References;
use crate::view::dynamic::DynamicView;
use crate::view::linked_symbol::LinkedSymbol;
use crate::view::loaded::bytes_at;
use crate::view::tags::{DT_HASH, DT_SYMTAB};
use elf_base::bytes::{Record, Table};
use xmas_elf::ElfFile;
use xmas_elf::symbol_table::SymbolTable;

impl<'a> DynamicView<'a> {
    ghost use Rattle.elf_linking.specs.DynamicView.{view_entries};

    /// The number of symbols of the dynamic segment, which no entry says: the number of chains of
    /// the ELF standard's hash table, if there is one, otherwise `GnuHashTable::symbol_count` of
    /// GNU's.
    ///
    /// Errors: those of `hash_table` if there is an entry Hash; otherwise those of `gnu_hash_table`
    /// and of `GnuHashTable::symbol_count`.
    pub fn symbol_count(&self, file: &ElfFile<'a>) -> Result<u64, LinkError>
        ensures exact { IsSymbolCount file.now (view_entries self.now) result }
        ensures bound { IfOk result (λ count. count ≤ 2 ^ 32) }
    {
        match self.entry(DT_HASH) {
            Some(_) => match self.hash_table(file) {
                Ok(table) => Ok(u64::from(table.chain_count())),
                Err(error) => Err(error),
            },
            None => match self.gnu_hash_table(file) {
                Ok(table) => table.symbol_count(),
                Err(error) => Err(error),
            },
        }
    }

    /// The symbols of a file of the class of `E`, with their names: `symbol_count` symbols at the
    /// address in the entry SymTab, and the string table. The class of the file is not compared.
    ///
    /// Errors: those of `symbol_count`; `NoEntry` if there is no entry SymTab; those of `bytes_at`;
    /// those of `strings`.
    pub fn symbols<E: LinkedSymbol>(
        &self,
        file: &ElfFile<'a>,
    ) -> Result<SymbolTable<'a, E>, LinkError>
        ensures exact { MatchResult result
            (λ symbols. AreSymbols file.now (view_entries self.now) E.SIZE
            (Ok (table_data (carried_table symbols)))
            × (table_order (carried_table symbols) ≡ file_order file.now.header))
            (AreSymbolsFailed file.now (view_entries self.now) (view_strings self.now) E.SIZE) }
        ensures names { IfOk result (λ symbols. IsOkAnd (view_table self.now) (λ strings.
            (carried_strings symbols ≡ Some (Ok strings)) × (table_symbols symbols
            ≡ named_symbols E.fields strings.now (carried_table symbols)))) }
        ensures place { IfOk result (λ symbols. LieAsSymbols
            file.now (view_entries self.now) (table_bytes (carried_table symbols))) }
    {
        let symbols = self.records(file)?;
        let strings = self.strings()?;
        Ok(SymbolTable::with_strings(symbols, strings))
    }

    /// The symbols of `symbols` without their names, which need no string table.
    ///
    /// Errors: those of `symbol_count`; `NoEntry` if there is no entry SymTab; those of `bytes_at`.
    pub fn records<E: LinkedSymbol>(&self, file: &ElfFile<'a>) -> Result<Table<'a, E>, LinkError>
        ensures exact { let are = AreSymbols file.now (view_entries self.now) E.SIZE in
            MatchResult result
            (λ symbols. are (Ok (table_data symbols))
            × (table_order symbols ≡ file_order file.now.header))
            (λ error. are (Err error)) }
        ensures place { IfOk result (λ symbols.
            LieAsSymbols file.now (view_entries self.now) (table_bytes symbols)) }
    {
        let bytes = self.symbol_bytes(file, E::SIZE as u64)?;
        match Table::new(bytes, file.byte_order()) {
            Ok(symbols) => Ok(symbols),
            Err(_) => unreachable!(),
        }
    }

    /// As many symbols as are given at the address in the entry SymTab, without their names. The
    /// number is the caller's where the hash table does not count all symbols: `reached_count`, or
    /// that of a section of type DynSym.
    ///
    /// Errors: `SymbolIndex` if there are more than 2 to the 32; `NoEntry` if there is no entry
    /// SymTab; those of `bytes_at`.
    pub fn counted_records<E: LinkedSymbol>(
        &self,
        file: &ElfFile<'a>,
        count: u64,
    ) -> Result<Table<'a, E>, LinkError>
        ensures exact { let answer
            = counted_symbols_of file.now (view_entries self.now) count E.SIZE in MatchResult result
            (λ symbols. (answer ≡ Ok (table_data symbols))
            × (table_order symbols ≡ file_order file.now.header))
            (λ error. answer ≡ Err error) }
        ensures place { IfOk result (λ symbols.
            LieAsSymbols file.now (view_entries self.now) (table_bytes symbols)) }
    {
        let bytes = self.counted_bytes(file, count, E::SIZE as u64)?;
        match Table::new(bytes, file.byte_order()) {
            Ok(symbols) => Ok(symbols),
            Err(_) => unreachable!(),
        }
    }

    // The bytes of as many symbols as are given, where each has `size` bytes.
    pub(crate) fn counted_bytes(
        &self,
        file: &ElfFile<'a>,
        count: u64,
        size: u64,
    ) -> Result<&'a [u8], LinkError>
        requires above { 0 < size }
        requires below { size ≤ 24 }
        ensures exact { lent result
            ≡ counted_symbols_of file.now (view_entries self.now) count size }
        ensures whole { IfOk result (λ bytes. length bytes.now % size ≡ 0) }
        ensures place { IfOk result (LieAsSymbols file.now (view_entries self.now)) }
    {
        if count > 1 << 32 {
            return Err(LinkError::SymbolIndex);
        }
        match self.entry(DT_SYMTAB) {
            Some(address) => bytes_at(file, address, count * size),
            None => Err(LinkError::NoEntry),
        }
    }

    /// The number of symbols that look-ups and relocations reach: `symbol_count` if the hash table
    /// counts a symbol besides symbol 0, which is reserved. Otherwise one more than the greatest index
    /// of a symbol that a relocation of `references` names, or `symbol_count` if that is more.
    ///
    /// GNU's linker makes an empty hash table for a program that exports nothing, so that
    /// `symbol_count` counts none of the symbols that its relocations name. Of another file no
    /// relocation is read. The sections of a file, if it has them, say the number of all symbols.
    ///
    /// Errors: those of `symbol_count`; those of `references`, if the table counts no symbol.
    pub fn reached_count(&self, file: &ElfFile<'a>) -> Result<u64, LinkError>
        ensures exact { IsReachedCount file.now (view_entries self.now) result }
        ensures bound { IfOk result (λ count. count ≤ 2 ^ 32) }
    {
        let count = self.symbol_count(file)?;
        if count > 1 {
            return Ok(count);
        }
        let references = self.references(file)?;
        Ok(count_with(count, references))
    }

    // The bytes of the symbols, where each has `size` bytes.
    fn symbol_bytes(&self, file: &ElfFile<'a>, size: u64) -> Result<&'a [u8], LinkError>
        requires above { 0 < size }
        requires below { size ≤ 24 }
        ensures exact { AreSymbols file.now (view_entries self.now) size (lent result) }
        ensures whole { IfOk result (λ bytes. length bytes.now % size ≡ 0) }
        ensures place { IfOk result (LieAsSymbols file.now (view_entries self.now)) }
    {
        let count = self.symbol_count(file)?;
        self.counted_bytes(file, count, size)
    }
}

// The count, or one more than the greatest index of a symbol that a reference names.
fn count_with(count: u64, references: References<'_>) -> u64
    requires { count ≤ 2 ^ 32 }
    ensures value { result ≡ count_with count (references_left references.entry) }
    ensures bound { result ≤ 2 ^ 32 }
{
    let mut reached = count;
    for reference in references {
        if u64::from(reference.symbol) >= reached {
            reached = u64::from(reference.symbol) + 1;
        }
    }
    reached
}
