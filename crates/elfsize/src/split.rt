//! The runs of bytes of a file that belong to one part, with those of sections by symbol.

ghost use Rattle.std.specs.Prelude.{◌≡◌, ◌≤◌, ◌<◌, ◌+◌, ◌-◌, ◌^◌, ◌%◌, ◌++◌, ◌∷◌, [], All, IfOk, OnOk, List, Some, max};
ghost use Rattle.elf_addresses.specs.FileClaims.{byte_count};
ghost use Rattle.elf_addresses.specs.Pieces.{pieces_file, pieces_place};
ghost use Rattle.elf_addresses.specs.SymbolClaims.{symbol_count};
ghost use Rattle.elf_addresses.specs.SymbolPieces.{piece_claims, symbol_limit, symbol_place};
ghost use Rattle.elfsize.specs.Split.{AddsInner, AddsPiece, AreSplit, address_at, owner_section};
ghost use Rattle.elfsize.specs.Split.{rest_of};
ghost use Rattle.elfsize.specs.Split.{section_claims, section_place, symbol_part, symbol_run};
ghost use Rattle.elfsize.specs.Totals.{all_bytes};

use crate::parts::{numbered, run_of};
use crate::totals::{Run, push_size};
use elf_addresses::{
    AddressSymbols, Owner, Piece, Pieces, SectionCounts, SymbolIndex, SymbolPiece, SymbolPieces,
};
use std::alloc::{AllocError, Global};
use xmas_elf::ElfFile;
use xmas_elf::bytes::Record;
use xmas_elf::symbol_table::Entry;

const ET_REL: u16 = 1;

// The symbols of a table by section: how many each section has, and where those of a section end in
// a list of all, in which they are in order. If the list is another one, the runs are the same, and
// take longer.
#[derive(Drop)]
pub(crate) struct Grouped<'g, 'a, E: Entry + Record> {
    symbols: &'g AddressSymbols<'a, E>,
    counts: &'g SectionCounts<'g, 'a, 'g, E>,
    list: &'g [u32],
    ends: &'g [u32],
    ghost same: { counts.now.symbols.now ≡ symbols.now },
    ghost few: { symbol_count symbols.now < 2 ^ 32 },
}

/// The runs of a file with the bytes of sections by symbol, in the order of their offsets.
///
/// It sorts the symbols once. For each piece of a section it passes over those of the section.
pub fn split_runs<E: Entry + Record>(
    alloc: Global,
    file: &ElfFile<'_>,
    symbols: &AddressSymbols<'_, E>,
) -> Result<Vec<Run>, AllocError>
    requires { symbol_count symbols.now < 2 ^ 32 }
    ensures runs { IfOk result (λ runs. AreSplit (section_claims E.fields symbols.now) file.now
        runs.items) }
    ensures numbers { IfOk result (λ runs. All (λ run. run.part < 2 ^ 40) runs.items) }
    ensures sum { IfOk result (λ runs. all_bytes runs.items ≡ byte_count file.now) }
{
    let mut counted = vec![in alloc; 0u32; file.section_table().len()]?;
    let counts = match SectionCounts::new(symbols, &mut counted) {
        Ok(counts) => counts,
        Err(_) => unreachable!(),
    };
    let mut ends = ends_of(alloc, &counts, file.section_table().len())?;
    let list = listed_by_section(alloc, symbols, &mut ends)?;
    let groups = Grouped {
        symbols,
        counts: &counts,
        list: &list,
        ends: &ends,
    };
    split_by(alloc, file, &groups)
}

// The runs of a file by the symbols of its sections.
fn split_by<E: Entry + Record>(
    alloc: Global,
    file: &ElfFile<'_>,
    groups: &Grouped<'_, '_, E>,
) -> Result<Vec<Run>, AllocError>
    ensures runs { IfOk result (λ runs. AreSplit (section_claims E.fields groups.now.symbols.now)
        file.now runs.items) }
    ensures numbers { IfOk result (λ runs. All (λ run. run.part < 2 ^ 40) runs.items) }
    ensures sum { IfOk result (λ runs. all_bytes runs.items ≡ byte_count file.now) }
{
    let mut words = vec![in alloc; 0u32; Pieces::words(file)]?;
    let mut numbers = vec![in alloc; 0u64; Pieces::numbers(file)]?;
    match Pieces::new(file, &mut words, &mut numbers) {
        Ok(pieces) => split_pieces(alloc, file, groups, pieces),
        Err(_) => unreachable!(),
    }
}

// For each section the number of symbols in those before it, by their counts.
fn ends_of<E: Entry + Record>(
    alloc: Global,
    counts: &SectionCounts<'_, '_, '_, E>,
    sections: usize,
) -> Result<Vec<u32>, AllocError> {
    let mut ends = Vec::new(alloc);
    let mut end = 0u32;
    for section in 0..sections {
        ends.push(end)?;
        end = end.wrapping_add(count_of(counts, section) as u32);
    }
    Ok(ends)
}

// The number of symbols of a section.
fn count_of<E: Entry + Record>(counts: &SectionCounts<'_, '_, '_, E>, section: usize) -> usize
    ensures { result < 2 ^ 32 }
{
    match u32::try_from(section) {
        Ok(section) => counts.count(section),
        Err(_) => 0,
    }
}

// The indices of all symbols with a size by section, those of a section in order. It moves each end
// past the symbols of its section.
fn listed_by_section<E: Entry + Record>(
    alloc: Global,
    symbols: &AddressSymbols<'_, E>,
    ends: &mut [u32],
) -> Result<Vec<u32>, AllocError> {
    let size = SymbolIndex::size(symbols, None);
    let mut words = vec![in alloc; 0u32; size.words()]?;
    let mut numbers = vec![in alloc; 0u64; size.numbers()]?;
    let _built = SymbolIndex::build_sized(symbols, None, size, &mut words, &mut numbers);
    let sized = SymbolIndex::lend(symbols, None, size, &words, &numbers).sized;
    let mut list = vec![in alloc; 0u32; sized.len()]?;
    for index in sized {
        put(symbols, *index, ends, &mut list);
    }
    Ok(list)
}

// Puts a symbol after those of its section.
fn put<E: Entry + Record>(
    symbols: &AddressSymbols<'_, E>,
    index: u32,
    ends: &mut [u32],
    list: &mut [u32],
) {
    let Some(symbol) = symbols.table.get(index as usize) else {
        return;
    };
    let section = symbols.section_index(&symbol, index as usize);
    let Some(end) = ends.get_mut(section as usize) else {
        return;
    };
    let Some(place) = list.get_mut(*end as usize) else {
        return;
    };
    *place = index;
    *end = end.wrapping_add(1);
}

// The part of the list for a section.
fn group_of<'g, E: Entry + Record>(groups: &Grouped<'g, '_, E>, section: u32) -> &'g [u32] {
    let Some(end) = groups.ends.get(section as usize) else {
        return &[];
    };
    let end = *end as usize;
    let begin = end.saturating_sub(groups.counts.count(section));
    groups.list.get(begin..end).unwrap_or(&[])
}

// The runs of all pieces of a file.
#[tactic(auto, using(crate::proofs::SplitRuns::none_split, crate::proofs::SplitRuns::split_step, crate::proofs::SplitRuns::all_split, crate::proofs::SplitRuns::split_sum, crate::proofs::SplitRuns::split_small))]
fn split_pieces<E: Entry + Record>(
    alloc: Global,
    file: &ElfFile<'_>,
    groups: &Grouped<'_, '_, E>,
    pieces: Pieces<'_, '_, '_>,
) -> Result<Vec<Run>, AllocError>
    requires file { pieces_file pieces ≡ file.now }
    requires first { pieces_place pieces ≡ 0 }
    ensures runs { IfOk result (λ runs. AreSplit (section_claims E.fields groups.now.symbols.now) file.now
        runs.items) }
    ensures numbers { IfOk result (λ runs. All (λ run. run.part < 2 ^ 40) runs.items) }
    ensures sum { IfOk result (λ runs. all_bytes runs.items ≡ byte_count file.now) }
{
    let mut runs = Vec::new(alloc);
    for piece in pieces {
        push_piece(alloc, file, groups, &piece, &mut runs)?;
    }
    Ok(runs)
}

// Adds the runs of a piece.
fn push_piece<E: Entry + Record>(
    alloc: Global,
    file: &ElfFile<'_>,
    groups: &Grouped<'_, '_, E>,
    piece: &Piece,
    runs: &mut Vec<Run>,
) -> Result<(), AllocError>
    requires some { piece.now.begin < piece.now.end }
    ensures { OnOk result (AddsPiece (section_claims E.fields groups.now.symbols.now) file.now piece.now
        runs.old.items runs.new.items) }
{
    match owner_section(piece.owner) {
        Some(index) => push_section(alloc, file, groups, index, piece, runs),
        None => push_one(run_of(piece), runs),
    }
}

// Adds a run.
fn push_one(run: Run, runs: &mut Vec<Run>) -> Result<(), AllocError>
    ensures { OnOk result (runs.new.items ≡ runs.old.items ++ (run ∷ [])) }
{
    runs.push(run)?;
    Ok(())
}

// Adds the runs of a piece of a section.
fn push_section<E: Entry + Record>(
    alloc: Global,
    file: &ElfFile<'_>,
    groups: &Grouped<'_, '_, E>,
    index: usize,
    piece: &Piece,
    runs: &mut Vec<Run>,
) -> Result<(), AllocError>
    requires some { piece.now.begin < piece.now.end }
    requires owner { owner_section piece.now.owner ≡ Some index }
    ensures { OnOk result (AddsPiece (section_claims E.fields groups.now.symbols.now) file.now piece.now
        runs.old.items runs.new.items) }
{
    let place = section_place(file, index);
    let begin = address_at(place, piece.begin);
    let end = address_at(place, piece.end);
    push_symbols(alloc, groups, index, (begin, end), runs)?;
    push_size(runs, numbered(0, index), rest_of(piece, begin, end))
}

// Adds the runs of the addresses of a section from the first of two on up to the second.
fn push_symbols<E: Entry + Record>(
    alloc: Global,
    groups: &Grouped<'_, '_, E>,
    index: usize,
    range: (u64, u64),
    runs: &mut Vec<Run>,
) -> Result<(), AllocError>
    ensures { OnOk result (AddsInner (section_claims E.fields groups.now.symbols.now index) index
        range.0 (max range.0 range.1) runs.old.items runs.new.items) }
{
    let section = (index % 0x1_0000_0000) as u32;
    let group = group_of(groups, section);
    let mut lasting = vec![in alloc; 0u32; group.len()]?;
    let mut numbers = vec![in alloc; 0u64; 2 * group.len()]?;
    let (begin, end) = range;
    match SymbolPieces::in_order(
        groups.counts,
        section,
        begin,
        end,
        group,
        &mut lasting,
        &mut numbers,
    ) {
        Some(pieces) => push_runs(pieces, index, runs),
        None => push_slowly(alloc, groups.symbols, index, range, runs),
    }
}

// The same by a pass over all symbols.
fn push_slowly<E: Entry + Record>(
    alloc: Global,
    symbols: &AddressSymbols<'_, E>,
    index: usize,
    range: (u64, u64),
    runs: &mut Vec<Run>,
) -> Result<(), AllocError>
    requires { symbol_count symbols.now < 2 ^ 32 }
    ensures { OnOk result (AddsInner (section_claims E.fields symbols.now index) index range.0
        (max range.0 range.1) runs.old.items runs.new.items) }
{
    let within = Some((index % 0x1_0000_0000) as u32);
    let size = SymbolIndex::size(symbols, within);
    let mut words = vec![in alloc; 0u32; size.words()]?;
    let mut numbers = vec![in alloc; 0u64; size.numbers()]?;
    match SymbolPieces::new(symbols, within, range.0, range.1, &mut words, &mut numbers) {
        Ok(pieces) => push_runs(pieces, index, runs),
        Err(_) => unreachable!(),
    }
}

// Adds the runs of all pieces of a range of addresses.
fn push_runs<E: Entry + Record>(
    pieces: SymbolPieces<'_, '_, '_, E>,
    index: usize,
    runs: &mut Vec<Run>,
) -> Result<(), AllocError>
    ensures { OnOk result (AddsInner (piece_claims E.fields pieces.entry) index
        (symbol_place pieces.entry) (symbol_limit pieces.entry) runs.old.items runs.new.items) }
{
    for piece in pieces {
        push_one(symbol_run(index, &piece), runs)?;
    }
    Ok(())
}

// The run of a piece of a section.
fn symbol_run(index: usize, piece: &SymbolPiece) -> Run
    requires { piece.now.begin < piece.now.end }
    ensures value { result ≡ symbol_run index piece.now }
    ensures small { result.part < 2 ^ 40 }
{
    Run {
        part: symbol_part(index, piece.symbol),
        size: piece.end - piece.begin,
    }
}

// The number of the part of a run of addresses: that of a symbol, or of the section.
fn symbol_part(index: usize, symbol: Option<usize>) -> usize
    ensures value { result ≡ symbol_part index symbol }
    ensures small { result < 2 ^ 40 }
{
    match symbol {
        Some(symbol) => numbered(2, symbol),
        None => numbered(0, index),
    }
}

// The index of the section that an owner is.
fn owner_section(owner: Owner) -> Option<usize>
    ensures { result ≡ owner_section owner }
{
    match owner {
        Owner::Section(index) => Some(index),
        Owner::Segment(_) => None,
        Owner::ElfHeader => None,
        Owner::ProgramHeaders => None,
        Owner::SectionHeaders => None,
        Owner::Between => None,
        Owner::Behind => None,
    }
}

// The offset of a section, and its first address as symbols have it.
fn section_place(file: &ElfFile<'_>, index: usize) -> (u64, u64)
    ensures { result ≡ section_place file.now index }
{
    let Ok(section) = file.section_header_at(index as u64) else {
        return (0, 0);
    };
    if file.header.pt2.type_().raw() == ET_REL {
        return (section.offset(), 0);
    }
    (section.offset(), section.address())
}

// The address of a byte of a section, or the last address.
#[inline(always)]
fn address_at(place: (u64, u64), offset: usize) -> u64
    ensures { result ≡ address_at place offset }
{
    place
        .1
        .saturating_add((offset as u64).saturating_sub(place.0))
}

// The number of bytes of a piece that have no address.
#[inline(always)]
fn rest_of(piece: &Piece, begin: u64, end: u64) -> u64
    requires { piece.now.begin < piece.now.end }
    ensures { result ≡ rest_of piece.now begin end }
{
    let size = (piece.end - piece.begin) as u64;
    size.saturating_sub(end.saturating_sub(begin))
}
