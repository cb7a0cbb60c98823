//! The hash table of a section with its symbols, found once for many look-ups (gABI, "Hash Table";
//! the convention of GNU binutils and glibc).

ghost use Rattle.std.specs.Prelude.{◌≡◌, ◌==◌, ℕ, IsOk, Ok, Result};
ghost use Rattle.elf_base.specs.FileHeader.{order_of};
ghost use Rattle.elf_c.specs.HashTables.{ArePartsBy, IsGnuTableRecord, IsSysvTable, IsTableBy, IsTableIn};
ghost use Rattle.elf_c.specs.HashTables.{LieWithinBy, class_by, hash_range, opened_of, whole_range};
ghost use Rattle.elf_c.specs.Parsed.{file_of};
ghost use Rattle.elf_c.specs.Status.{GivesHere, and_so};
ghost use Rattle.elf_c.specs.SymbolTables.{symbol_by};
ghost use Rattle.elf_c.specs.Symbols.{linked_content, symbol_record_in, symbol_record};
ghost use Rattle.elf_c.specs.declared.status.AnyError.{AnyError};
ghost use Rattle.xmas_elf.specs.Content.{hash_table_content};

use crate::file::Parsed;
use crate::names::{Range, bytes_in};
use crate::status::{AnyError, give};
use crate::symbol_tables::{AnySymbols, SymbolTable, order_of, symbols_by, table_of_section};
use elf_base::bytes::Order;
use elf_base::header::Class;
use elf_linking::AnyTable;
use elf_linking::gnu_hash::GnuHashTable;
use elf_linking::sections::{SHT_GNU_HASH, section_gnu_hash};
use xmas_elf::ElfFile;
use xmas_elf::hash::HashTable;
use xmas_elf::sections::{SectionData, SectionHeader};

/// The hash table of a section with its symbols, found once: numbers that other calls take back.
#[repr(C)]
#[derive(Clone, Copy, Debug)]
pub struct OpenedTable {
    /// The range of the hash table.
    pub table: Range,
    /// The symbols, with the string table in which look-ups compare their names.
    pub symbols: SymbolTable,
    /// The type of the section: 0x6ffffff6 for GNU's table, any other number for that of the
    /// standard.
    pub kind: u32,
}

// The range of a section's data by its header.
#[inline(always)]
fn whole_range(header: &SectionHeader) -> Range
    ensures { result ≡ whole_range header.now }
{
    Range {
        offset: header.offset(),
        size: header.size(),
    }
}

// The range of the hash table in a section.
fn hash_range(file: &ElfFile<'_>, header: &SectionHeader) -> Result<Range, AnyError>
    ensures { result ≡ hash_range file.now header.now }
{
    match section_gnu_hash(file, header) {
        Some(Ok(_)) => Ok(whole_range(header)),
        Some(Err(error)) => Err(AnyError::Link(error)),
        None => match header.get_data(file)? {
            SectionData::HashTable(_) => Ok(whole_range(header)),
            _ => Err(AnyError::OtherData),
        },
    }
}

// The hash table in the section at an index, and the symbols of the section that it links to.
fn opened_of(file: &ElfFile<'_>, section: u64) -> Result<OpenedTable, AnyError>
    ensures { result ≡ opened_of file.now section }
{
    let header = file.section_header_at(section)?;
    let table = hash_range(file, &header)?;
    let symbols = table_of_section(file, u64::from(header.link()))?;
    Ok(OpenedTable {
        table,
        symbols,
        kind: header.type_().raw(),
    })
}

/// The hash table in the section at an index, of either kind, and the symbols that this section is
/// linked to (sh_link): found once, for `xmas_elf_look_ups` and `xmas_elf_check_hash`. All ranges lie
/// in the input, and `xmas_elf_symbols` reads a symbol of `symbols` by the index that a look-up finds.
///
/// Errors: those of `ElfFile::section_header_at` for the section; for type 0x6ffffff6 those of
/// `SectionHeader::raw_data` and `GnuHashTable::read`, for any other those of
/// `SectionHeader::get_data`, and `OtherData` if it holds no hash table; those of
/// `xmas_elf_symbols_open` for the linked section. `strings_status` of the symbols is as there: if it
/// is not 0, no symbol has a name.
#[unsafe(no_mangle)]
pub extern "C" fn xmas_elf_hash_open(
    input: &[u8],
    header: &Parsed,
    section: u64,
    out: &mut OpenedTable,
) -> u32
    ensures exact { GivesHere (opened_of (file_of input.entry header.now) section)
        out.old result out.new }
    ensures within { result ≡ 0 → LieWithinBy input.now out.new }
    ensures symbols { result ≡ 0 → (index : ℕ)
        → symbol_by symbol_record input.now out.new.symbols index
        ≡ and_so (linked_content (file_of input.entry header.now) section) (symbol_record_in index) }
    ensures reads { result ≡ 0 → (found : Result HashParts AnyError)
        → ArePartsBy input.now out.new found → IsOk found }
{
    give(opened_of(&header.file(input), section), out)
}

/// A hash table, its symbols, and the string table of their names.
#[derive(Clone, Copy)]
pub(crate) struct HashParts<'a> {
    pub(crate) table: AnyTable<'a>,
    pub(crate) symbols: AnySymbols<'a>,
    pub(crate) strings: &'a [u8],
}

// The class of a number.
#[inline(always)]
fn class_by(class: u16) -> Class
    ensures { result ≡ class_by class }
{
    if class == 1 {
        Class::ThirtyTwo
    } else {
        Class::SixtyFour
    }
}

// The hash table of the ELF standard in bytes.
#[inline(always)]
fn sysv_table_in<'a>(bytes: &'a [u8], order: Order) -> Result<AnyTable<'a>, AnyError>
    ensures { IsSysvTable (hash_table_content order bytes.now) result }
{
    let table = HashTable::read(bytes, order)?;
    Ok(AnyTable::Sysv(table))
}

// The GNU hash table in bytes.
#[inline(always)]
fn gnu_table_in<'a>(bytes: &'a [u8], class: Class, order: Order) -> Result<AnyTable<'a>, AnyError>
    ensures { IsGnuTableRecord class order bytes.now result }
{
    Ok(AnyTable::Gnu(GnuHashTable::read(bytes, class, order)?))
}

// The hash table in bytes, GNU's or else that of the ELF standard.
#[inline(always)]
fn table_in<'a>(
    is_gnu: bool,
    bytes: &'a [u8],
    class: Class,
    order: Order,
) -> Result<AnyTable<'a>, AnyError>
    ensures { IsTableIn is_gnu class order bytes.now result }
{
    match is_gnu {
        true => gnu_table_in(bytes, class, order),
        false => sysv_table_in(bytes, order),
    }
}

// The hash table in the range of a record.
#[inline(always)]
fn table_by<'a>(input: &'a [u8], opened: &OpenedTable) -> Result<AnyTable<'a>, AnyError>
    ensures { IsTableBy input.now opened.now result }
{
    let bytes = bytes_in(input, &opened.table)?;
    let (class, order) = (
        class_by(opened.symbols.class),
        order_of(opened.symbols.encoding),
    );
    table_in(opened.kind == SHT_GNU_HASH, bytes, class, order)
}

// What the ranges of a record contain.
pub(crate) fn parts_by<'a>(input: &'a [u8], opened: &OpenedTable) -> Result<HashParts<'a>, AnyError>
    ensures { ArePartsBy input.now opened.now result }
{
    let (table, symbols) = (table_by(input, opened), symbols_by(input, &opened.symbols));
    let strings = bytes_in(input, &opened.symbols.strings);
    Ok(HashParts {
        table: table?,
        symbols: symbols?,
        strings: strings?,
    })
}
