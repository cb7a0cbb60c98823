//! The pieces of a file and those of its symbols: which bytes belong to what (this project's own).

ghost use Rattle.std.specs.Prelude.{◌≡◌, ◌<◌, ◌^◌, ℕ, List, Ok, Result, length, map};
ghost use Rattle.std.specs.Prelude.{max};
ghost use Rattle.std.specs.Iterator.{Drains, IsFinite, size};
ghost use Rattle.elf_addresses.specs.FileClaims.{piece_numbers, piece_words};
ghost use Rattle.elf_addresses.specs.SymbolClaims.{claim_of_symbols, symbol_count};
ghost use Rattle.elf_c.specs.AddressIndex.{addresses_in_table, within_of};
ghost use Rattle.elf_c.specs.Parsed.{file_of};
ghost use Rattle.elf_c.specs.Pieces.{AreCounted, AreListed, AreListedIn, IsRows, Lists, few_words};
ghost use Rattle.elf_c.specs.Pieces.{IsWhole, owner_numbers, piece_record, put_from};
ghost use Rattle.elf_c.specs.Pieces.{AreRuns, run_numbers, run_record, runs_failed};
ghost use Rattle.elf_c.specs.Status.{GivesHere};
ghost use Rattle.elf_c.specs.declared.pieces.Piece.{Piece};
ghost use Rattle.elf_c.specs.declared.pieces.PieceSizes.{PieceSizes};
ghost use Rattle.elf_c.specs.declared.status.AnyError.{AnyError};

use crate::address_index::{AddressIndex, AnyAddresses, addresses_by, within_of};
use crate::file::Parsed;
use crate::status::{AnyError, give};
use elf_addresses::{AddressSymbols, Owner, Pieces, SymbolPiece, SymbolPieces};
use xmas_elf::ElfFile;
use xmas_elf::bytes::Record;
use xmas_elf::symbol_table::Entry;

/// A piece belongs to the ELF header.
pub const ELF_HEADER: u32 = 0;
/// A piece belongs to the program header table.
pub const PROGRAM_HEADERS: u32 = 1;
/// A piece belongs to the section header table.
pub const SECTION_HEADERS: u32 = 2;
/// A piece belongs to a section.
pub const SECTION: u32 = 3;
/// A piece belongs to a segment, and is in no section.
pub const SEGMENT: u32 = 4;
/// A piece is in no part, and a part begins after it.
pub const BETWEEN: u32 = 5;
/// A piece is in no part, and no part begins after it.
pub const BEHIND: u32 = 6;
/// A piece belongs to a symbol.
pub const IN_SYMBOL: u32 = 7;
/// A piece is in no symbol.
pub const IN_NO_SYMBOL: u32 = 8;

/// A longest run of bytes, or of addresses, with one owner.
#[repr(C)]
#[derive(Clone, Copy, Debug)]
pub struct Piece {
    /// The offset of the first byte, or the first address.
    pub begin: u64,
    /// The offset after the last byte, or the address after the last one; it is above `begin`.
    pub end: u64,
    /// The index of the section, the segment or the symbol, or 0.
    pub index: u64,
    /// What it belongs to: `ELF_HEADER` up to `IN_NO_SYMBOL`.
    pub owner: u32,
}

/// The sizes of the pieces of a file.
#[repr(C)]
#[derive(Clone, Copy, Debug)]
pub struct PieceSizes {
    /// The number of words that the call takes.
    pub words: u64,
    /// The number of numbers of 64 bits that the call takes.
    pub numbers: u64,
    /// The number of all pieces of the file; 0 if only the number of words was asked for.
    pub count: u64,
}

// What is stored as a piece.
trait Stored: Copy {
    ghost numbers_of: { Self → Piece };

    // The numbers of the piece.
    fn numbers(&self) -> Piece
        ensures { result ≡ numbers_of self.now };
}

// The number of an owner, and its index.
fn owner_numbers(owner: Owner) -> (u32, u64)
    ensures { result ≡ owner_numbers owner }
{
    match owner {
        Owner::ElfHeader => (ELF_HEADER, 0),
        Owner::ProgramHeaders => (PROGRAM_HEADERS, 0),
        Owner::SectionHeaders => (SECTION_HEADERS, 0),
        Owner::Section(index) => (SECTION, index as u64),
        Owner::Segment(index) => (SEGMENT, index as u64),
        Owner::Between => (BETWEEN, 0),
        Owner::Behind => (BEHIND, 0),
    }
}

impl Stored for elf_addresses::Piece {
    ghost numbers_of = { piece_record };

    fn numbers(&self) -> Piece {
        let (owner, index) = owner_numbers(self.owner);
        Piece {
            begin: self.begin as u64,
            end: self.end as u64,
            index,
            owner,
        }
    }
}

// The number for a symbol, or for none, and its index.
#[inline(always)]
fn run_numbers(symbol: Option<usize>) -> (u32, u64)
    ensures { result ≡ run_numbers symbol }
{
    match symbol {
        Some(index) => (IN_SYMBOL, index as u64),
        None => (IN_NO_SYMBOL, 0),
    }
}

impl Stored for SymbolPiece {
    ghost numbers_of = { run_record };

    fn numbers(&self) -> Piece {
        let (owner, index) = run_numbers(self.symbol);
        Piece {
            begin: self.begin,
            end: self.end,
            index,
            owner,
        }
    }
}

// Stores the item at an index of a list, if it has a place in the slice, whose first item is for
// the one at `first`.
#[inline(always)]
pub(crate) fn put<T: Copy>(out: &mut [T], first: u64, index: u64, item: T)
    ensures { out.new ≡ put_from first index item out.old }
{
    if first <= index && index - first < out.len() as u64 {
        out[(index - first) as usize] = item;
    }
}

// Stores the pieces from index `first` on, as many as fit, and returns the number of all.
fn store<I: Iterator + Drop>(pieces: I, first: u64, out: &mut [Piece]) -> u64
where
    I::Item: Stored,
    requires can { I.can_next pieces }
    requires finite { IsFinite (I.remaining pieces) }
    requires few { size (I.remaining pieces) < 2 ^ 64 }
    ensures { (all : List I.Item) × Drains I.next_gives pieces all
        × IsRows (map I.Item.numbers_of all) first out.old out.new × (result ≡ length all) }
{
    let mut count = 0;
    for piece in pieces {
        put(out, first, count, piece.numbers());
        count += 1;
    }
    count
}

// Stores the pieces of a file from index `first` on, and returns the number of all.
fn store_file(
    file: &ElfFile<'_>,
    first: u64,
    words: &mut [u32],
    numbers: &mut [u64],
    out: &mut [Piece],
) -> Result<u64, AnyError>
    ensures { Lists (few_words (piece_words file.now) (piece_numbers file.now) words.old numbers.old)
        (IsWhole file.now) piece_record first out.old result out.new }
{
    let pieces = Pieces::new(file, words, numbers)?;
    Ok(store(pieces, first, out))
}

// The same, with how many words and numbers it takes; without words, only that.
fn list_pieces(
    file: &ElfFile<'_>,
    first: u64,
    words: &mut [u32],
    numbers: &mut [u64],
    out: &mut [Piece],
) -> Result<PieceSizes, AnyError>
    ensures { AreCounted file.now first words.old numbers.old out.old result out.new }
{
    let needed = Pieces::words(file) as u64;
    if words.is_empty() && needed > 0 {
        return Ok(PieceSizes {
            words: needed,
            numbers: Pieces::numbers(file) as u64,
            count: 0,
        });
    }
    let count = store_file(file, first, words, numbers, out)?;
    Ok(PieceSizes {
        words: needed,
        numbers: Pieces::numbers(file) as u64,
        count,
    })
}

/// The pieces of a file from index `first` on, in the order of their offsets: as many as fit in `out`.
/// A piece is a longest run of bytes that belong to one part (`elf_addresses::Pieces`). Every byte of
/// the file is in exactly one piece, and the sizes of the pieces sum to the size of the file.
///
/// `sizes` is set to how many words and numbers the call takes, and to the number of all pieces. If
/// `words` is empty, and the call takes some, only how many it takes is found. The error is `FewWords`
/// if there are words, and too few of them or of the numbers; `out` and `sizes` are then unchanged.
/// `words` and `numbers` may hold anything before and after the call.
#[unsafe(no_mangle)]
pub extern "C" fn xmas_elf_pieces(
    input: &[u8],
    header: &Parsed,
    first: u64,
    words: &mut [u32],
    numbers: &mut [u64],
    out: &mut [Piece],
    sizes: &mut PieceSizes,
) -> u32
    ensures { (answer : Result PieceSizes AnyError)
        × AreCounted (file_of input.entry header.now) first words.old numbers.old out.old answer out.new
        × GivesHere answer sizes.old result sizes.new }
{
    give(
        list_pieces(&header.file(input), first, words, numbers, out),
        sizes,
    )
}

// Stores the pieces of a range of addresses by symbols, and returns the number of all.
fn store_symbols<E: Entry + Record>(
    symbols: &AddressSymbols<'_, E>,
    within: Option<u32>,
    range: (u64, u64),
    first: u64,
    words: &mut [u32],
    numbers: &mut [u64],
    out: &mut [Piece],
) -> Result<u64, AnyError>
    ensures { let claim_of = claim_of_symbols E.fields symbols.now within in
        Lists (runs_failed claim_of (symbol_count symbols.now) words.old numbers.old)
        (AreRuns claim_of (max range.0 range.1) range.0) run_record first out.old result out.new }
{
    let (begin, end) = range;
    let pieces = SymbolPieces::new(symbols, within, begin, end, words, numbers)?;
    Ok(store(pieces, first, out))
}

// The same of symbols of either class.
fn store_any(
    all: &AnyAddresses<'_>,
    within: Option<u32>,
    range: (u64, u64),
    first: u64,
    words: &mut [u32],
    numbers: &mut [u64],
    out: &mut [Piece],
) -> Result<u64, AnyError>
    ensures { AreListedIn (addresses_in_table all.now) within range first words.old numbers.old
        out.old result out.new }
{
    match all {
        AnyAddresses::Narrow(symbols) => store_symbols(
            symbols, within, range, first, words, numbers, out,
        ),
        AnyAddresses::Wide(symbols) => store_symbols(
            symbols, within, range, first, words, numbers, out,
        ),
    }
}

// The same of the symbols of a record.
fn list_symbols(
    input: &[u8],
    index: &AddressIndex,
    range: (u64, u64),
    first: u64,
    words: &mut [u32],
    numbers: &mut [u64],
    out: &mut [Piece],
) -> Result<u64, AnyError>
    ensures { AreListed input.now index.now range first words.old numbers.old out.old result out.new }
{
    let all = addresses_by(input, &index.table, &index.indices, index.machine)?;
    store_any(
        &all,
        within_of(index.within),
        range,
        first,
        words,
        numbers,
        out,
    )
}

/// The pieces of the addresses from `begin` up to `end`, from index `first` on, in their order: as many
/// as fit in `out`. A piece is a longest run of addresses that belong to one symbol, or to none
/// (`elf_addresses::SymbolPieces`). Every address is in exactly one piece. `count` is set to the number
/// of all pieces; there are none if `end` is not above `begin`.
///
/// `index` is the record of `xmas_elf_address_index` for the same bytes, of which the symbols and
/// `within` are used. The call takes `index.words` words and `index.numbers` numbers, which may hold
/// anything before and after the call. For a section the addresses are its own, in an object file the offsets in it,
/// and `within` is its index.
///
/// Errors: those of `xmas_elf_address_index`; `out` and `count` are then unchanged.
#[unsafe(no_mangle)]
pub extern "C" fn xmas_elf_symbol_pieces(
    input: &[u8],
    index: &AddressIndex,
    begin: u64,
    end: u64,
    first: u64,
    words: &mut [u32],
    numbers: &mut [u64],
    out: &mut [Piece],
    count: &mut u64,
) -> u32
    ensures { (answer : Result ℕ AnyError)
        × AreListed input.now index.now (begin, end) first words.old numbers.old out.old answer out.new
        × GivesHere answer count.old result count.new }
{
    give(
        list_symbols(input, index, (begin, end), first, words, numbers, out),
        count,
    )
}
