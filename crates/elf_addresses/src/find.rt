//! The symbol at an address, by a pass over a table.

ghost use Rattle.std.specs.Prelude.{◌≡◌, ◌≤◌, ◌==◌, IfSome, MatchOption, None, Some, if◌then◌else◌};
ghost use Rattle.elf_addresses.specs.Candidates.{section_index};
ghost use Rattle.xmas_elf.specs.Table.{table_items};
ghost use Rattle.elf_addresses.specs.Claims.{IsClaimAt, IsInnermost};
ghost use Rattle.elf_addresses.specs.SymbolClaims.{claim_of_symbols, symbol_claim};
ghost use Rattle.elf_addresses.specs.SymbolAt.{IsOpenSymbol, TellsAt, claim_at};
ghost use Rattle.elf_addresses.specs.declared.find.At.{At};

use crate::claim::Claim;
use crate::claims::{innermost, open_below as open_claim_below};
use crate::symbols::{AddressSymbols, SymbolClaims};
use xmas_elf::bytes::Record;
use xmas_elf::symbol_table::Entry;

/// A symbol, and the place of an address in it.
#[derive(Clone, Copy, Debug)]
pub struct At<E> {
    /// The index of the symbol in its table.
    pub index: usize,
    /// The symbol.
    pub symbol: E,
    /// The address less the value of the symbol.
    pub offset: u64,
    /// Whether the size of the symbol is 0, so that its end is unknown.
    pub open: bool,
}

/// The innermost of the symbols that name addresses (`AddressSymbols`) and cover this one, by a pass
/// over the table.
///
/// A symbol covers `size` addresses from `value` on, and if its size is 0, the address `value`. Of
/// the symbols that cover the address, those with a size come first, then the one with the greatest
/// value, the smallest size, and the smallest rank (`SymbolClaims`), and last the first in the
/// table. `within` is the index of a section, if only its symbols are asked for: in an object file,
/// whose values are offsets in sections.
pub fn symbol_at<E: Entry + Record>(
    symbols: &AddressSymbols<'_, E>,
    address: u64,
    within: Option<u32>,
) -> Option<At<E>>
    ensures innermost { IsInnermost (claim_of_symbols E.fields symbols.now within) address
        (claim_at E.fields result) }
    ensures tells { IfSome result (TellsAt E.fields symbols.now address) }
{
    let claims = SymbolClaims { symbols, within };
    match innermost(&claims, address) {
        Some(claim) => Some(told(&claims, &claim, address)),
        None => None,
    }
}

/// The symbol of size 0 in a section that an address is after, if no symbol covers the address: of
/// the symbols with a value up to the address, the one with the greatest value, if its size is 0
/// and its section has this index. Of several with that value it is the first in the order of
/// `symbol_at`. Two passes over the table.
pub fn open_below<E: Entry + Record>(
    symbols: &AddressSymbols<'_, E>,
    address: u64,
    section: u32,
    within: Option<u32>,
) -> Option<At<E>>
    ensures { MatchOption result
        ((at : At E) → IsOpenSymbol E.fields symbols.now within address section at → ⊥)
        (IsOpenSymbol E.fields symbols.now within address section) }
{
    let claims = SymbolClaims { symbols, within };
    match open_claim_below(&claims, address) {
        Some(claim) => if_in_section(symbols, told(&claims, &claim, address), section),
        None => None,
    }
}

// A symbol, if its section has this index.
#[inline(always)]
pub(crate) fn if_in_section<E: Entry + Record>(
    symbols: &AddressSymbols<'_, E>,
    at: At<E>,
    section: u32,
) -> Option<At<E>>
    ensures { result ≡ (if section_index (table_items symbols.now.indices) (E.fields at.symbol)
        at.index == section then Some at else None) }
{
    if symbols.section_index(&at.symbol, at.index) == section {
        return Some(at);
    }
    None
}

// The symbol of a claim, and the place of an address in it.
#[inline(always)]
pub(crate) fn told<E: Entry + Record>(
    claims: &SymbolClaims<'_, '_, E>,
    claim: &Claim,
    address: u64,
) -> At<E>
    requires stands { IsClaimAt
        (claim_of_symbols E.fields claims.now.symbols.now claims.now.within)
        claim.now.index claim.now }
    requires begun { claim.now.begin ≤ address }
    ensures claim { symbol_claim result.index (E.fields result.symbol) ≡ claim.now }
    ensures tells { TellsAt E.fields claims.now.symbols.now address result }
{
    match claims.symbols.table.get(claim.index) {
        Some(symbol) => At {
            index: claim.index,
            symbol,
            offset: address - claim.begin,
            open: claim.size == 0,
        },
        None => unreachable!(),
    }
}
