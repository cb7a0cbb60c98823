//! What is at an address of a file, by its section headers or by its dynamic segment.

ghost use Rattle.std.specs.Prelude.{◌≡◌, ◌<◌, ◌≤◌, IfOk, IfSome, MatchOption, None, ℕ};
ghost use Rattle.elf_addresses.specs.Claims.{IsInnermost};
ghost use Rattle.elf_addresses.specs.FileClaims.{byte_count};
ghost use Rattle.elf_addresses.specs.Owner.{IsOwner};
ghost use Rattle.elf_addresses.specs.SymbolAt.{claim_at};
ghost use Rattle.elf_addresses.specs.SymbolClaims.{claim_of_symbols};
ghost use Rattle.elf_addresses.specs.declared.owner.Owner.TheVariants.{Section};

use elf_addresses::dladdr::{DladdrSymbols, Reach, fill_reached};
use elf_addresses::{
    AddressSymbols, At, IndexError, Owner, Piece, Pieces, SymbolIndex, owner_of, symbol_at,
};
use elf_base::bytes::text_at;
use elf_linking::view::{DynamicView, LinkedSymbol, strings};
use elf_linking::{AnyTable, DynamicObject, LinkError};
use std::io;
use std::io::Write;
use xmas_elf::ElfFile;
use xmas_elf::bytes::{Record, Table};
use xmas_elf::sections::SectionData;
use xmas_elf::symbol_table::{Entry, Entry64};

/// The symbol of `.symtab` at an address, in a file of class 64 with fewer than 65,280 sections.
pub fn symbol_in(file: &ElfFile<'_>, address: u64) -> Option<At<Entry64>> {
    let section = file.find_section_by_name(".symtab")?;
    let Ok(SectionData::SymbolTable64(table)) = section.get_data(file) else {
        return None;
    };
    let symbols = AddressSymbols {
        table,
        strings: Entry64::string_table(file)?.ok()?,
        indices: Table::new(&[], file.byte_order()).ok()?,
        machine: file.header.pt2.machine().raw(),
    };
    symbol_at(&symbols, address, None)
}

/// The symbol at an address, by an index that is built in words and numbers.
pub fn symbol_by_index<E: Entry + Record>(
    symbols: &AddressSymbols<'_, E>,
    words: &mut [u32],
    numbers: &mut [u64],
    address: u64,
) -> Result<Option<At<E>>, IndexError>
    ensures { IfOk result (λ found. IsInnermost
        (claim_of_symbols E.fields symbols.now None) address (claim_at E.fields found)) }
{
    let size = SymbolIndex::size(symbols, None);
    SymbolIndex::build(symbols, None, words, numbers)?;
    let index = SymbolIndex::lend(symbols, None, size, words, numbers);
    Ok(index.symbol_at(address))
}

/// The name of the symbol of `.symtab` that an address is in, in a file of either class with fewer
/// than 65,280 sections; `None` if no symbol covers it.
pub fn symbol_name<'a>(file: &ElfFile<'a>, address: u64) -> Option<&'a str> {
    let section = file.find_section_by_name(".symtab")?;
    match section.get_data(file) {
        Ok(SectionData::SymbolTable32(table)) => name_in(file, table, address),
        Ok(SectionData::SymbolTable64(table)) => name_in(file, table, address),
        _ => None,
    }
}

// The name of the symbol of a table that an address is in.
fn name_in<'a, E: Entry + Record>(
    file: &ElfFile<'a>,
    table: Table<'a, E>,
    address: u64,
) -> Option<&'a str> {
    let symbols = AddressSymbols {
        table,
        strings: E::string_table(file)?.ok()?,
        indices: Table::new(&[], file.byte_order()).ok()?,
        machine: file.header.pt2.machine().raw(),
    };
    let at = symbol_at(&symbols, address, None)?;
    text_at(symbols.strings, at.symbol.name() as usize).ok()
}

/// The name of the dynamic symbol that an address is in, by the dynamic segment, in a file of the
/// class of `E`; `None` if no symbol covers it. The errors are those of `DynamicObject::read`.
pub fn linked_name<'a, E: LinkedSymbol>(
    file: &ElfFile<'a>,
    address: u64,
) -> Result<Option<&'a str>, LinkError> {
    let object = DynamicObject::<E>::read(file)?;
    let symbols = AddressSymbols {
        table: object.symbols().table(),
        strings: strings(file)?,
        indices: Table::new(&[], file.byte_order())?,
        machine: file.header.pt2.machine().raw(),
    };
    Ok(match symbol_at(&symbols, address, None) {
        Some(at) => text_at(symbols.strings, at.symbol.name() as usize).ok(),
        None => None,
    })
}

// The symbols that a hash table reaches, in words for GNU's.
fn reach_by<'w>(table: &AnyTable<'_>, words: &'w mut [u32]) -> Reach<'w> {
    match table {
        AnyTable::Gnu(table) => {
            fill_reached(table, words);
            Reach::Buckets(words)
        }
        AnyTable::Sysv(table) => Reach::Chains(table.chain_count()),
    }
}

/// The symbol that `dladdr` finds at an address, in a file of the class of `E`. There is a word for
/// each dynamic symbol that the hash table counts: GNU's, if there is one.
pub fn dladdr_in<E: LinkedSymbol>(
    file: &ElfFile<'_>,
    words: &mut [u32],
    address: u64,
) -> Result<Option<At<E>>, LinkError> {
    let view = DynamicView::read(file)?;
    let count = match AnyTable::read(&view, file)? {
        AnyTable::Gnu(table) => table.symbol_count()?,
        AnyTable::Sysv(table) => u64::from(table.chain_count()),
    };
    let object = DynamicObject::<E>::read_counted(file, count)?;
    let symbols = DladdrSymbols {
        table: object.symbols().table(),
        strings: strings(file)?,
        reach: reach_by(&object.table(), words),
    };
    Ok(symbols.symbol_at(address))
}

/// Prints the symbol and the offset in it of each address of a backtrace, by an index.
pub fn print_backtrace<E: Entry + Record, W: Write>(
    index: &SymbolIndex<'_, '_, '_, E>,
    addresses: &[u64],
    out: &mut W,
) -> io::Result<()> {
    let strings = index.claims.symbols.strings;
    for address in addresses {
        let Some(at) = index.symbol_at(*address) else {
            writeln!(out, "{address:x} ?")?;
            continue;
        };
        let name = text_at(strings, at.symbol.name() as usize).unwrap_or("?");
        writeln!(out, "{address:x} {name}+0x{:x}", at.offset)?;
    }
    Ok(())
}

/// The size of a file: the sum of the sizes of all its pieces. The words and the numbers are those of
/// an index (`Pieces::new`).
pub fn sum_of_pieces(
    file: &ElfFile<'_>,
    words: &mut [u32],
    numbers: &mut [u64],
) -> Result<usize, IndexError>
    ensures { IfOk result (λ sum. sum ≡ byte_count file.now) }
{
    Ok(Pieces::new(file, words, numbers)?.total())
}

/// The index of the section that the byte at an offset belongs to, if it belongs to one.
pub fn section_of_byte(file: &ElfFile<'_>, offset: usize) -> Option<usize>
    ensures own { IfSome result (λ index. IsOwner file.now offset (Section index)) }
    ensures none { result ≡ None → offset < byte_count file.now
        → (index : ℕ) → IsOwner file.now offset (Section index) → ⊥ }
{
    let owner = owner_of(file, offset)?;
    section_in(owner)
}

// The index of a section, if the owner is one.
fn section_in(owner: Owner) -> Option<usize>
    ensures { MatchOption result ((index : ℕ) → owner ≡ Section index → ⊥)
        (λ index. owner ≡ Section index) }
{
    match owner {
        Owner::Section(index) => Some(index),
        Owner::ElfHeader | Owner::ProgramHeaders | Owner::SectionHeaders => None,
        Owner::Segment(_) | Owner::Between | Owner::Behind => None,
    }
}

/// The piece that the byte at an offset is in; `None` at the end of the file and past it. The words
/// and the numbers are those of an index (`Pieces::new`).
pub fn piece_at(
    file: &ElfFile<'_>,
    words: &mut [u32],
    numbers: &mut [u64],
    offset: usize,
) -> Result<Option<Piece>, IndexError>
    ensures { IfOk result (λ found. MatchOption found (byte_count file.now ≤ offset)
        (λ piece. (piece.begin ≤ offset) × (offset < piece.end)
        × IsOwner file.now offset piece.owner)) }
{
    for piece in Pieces::new(file, words, numbers)? {
        if offset < piece.end {
            return Ok(Some(piece));
        }
    }
    Ok(None)
}
