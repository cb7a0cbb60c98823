//! The symbol that `dladdr` of the GNU C library finds at an address.

ghost use Rattle.std.specs.Prelude.{◌≡◌, ◌≤◌, length, IfSome};
ghost use Rattle.xmas_elf.specs.Table.{table_items};
ghost use Rattle.elf_addresses.specs.Claims.{IsClaimAt, IsInnermost};
ghost use Rattle.elf_addresses.specs.Dladdr.{IsDladdrAt, dladdr_at, dladdr_claim, dladdr_claims};
ghost use Rattle.elf_addresses.specs.Dladdr.{dladdr_known, dladdr_ranges, is_exported, is_found, reach_of};
ghost use Rattle.elf_addresses.specs.DladdrRanges.{dladdr_index, dladdr_knows, dladdr_ranged, dladdr_within};
ghost use Rattle.elf_addresses.specs.Reached.{AreReached};

mod reached;

use crate::claim::{Claim, no_claim};
use crate::claims::{Claims, innermost};
pub use crate::dladdr::reached::fill_reached;
use crate::find::At;
use xmas_elf::bytes::{Record, Table};
use xmas_elf::symbol_table::Entry;

/// Which symbols the hash table of a file reaches, and in which order.
#[derive(Clone, Copy, Debug)]
pub enum Reach<'a> {
    /// By GNU's table: for each symbol the number of the first bucket that reaches it, counted from
    /// 1, or 0 if none does (`fill_reached`). A symbol without a word is not reached.
    Buckets(&'a [u32]),
    /// By the table of the ELF standard: the number of its chains. Each symbol with a chain is
    /// reached that is global or weak, and neither internal nor hidden.
    Chains(u32),
}

impl Reach<'_> {
    // Where a symbol is in the order of the table, or 0 if it is not reached.
    #[inline(always)]
    fn of<E: Entry>(&self, symbol: &E, index: usize) -> u32
        ensures { result ≡ reach_of self.now index (E.fields symbol.now) }
    {
        match self {
            Reach::Buckets(words) => match words.get(index) {
                Some(word) => *word,
                None => 0,
            },
            Reach::Chains(count) => {
                if index < *count as usize && is_exported(symbol) {
                    1
                } else {
                    0
                }
            }
        }
    }
}

// The claim of a symbol, by its place in the order of the hash table.
#[inline(always)]
fn claim_of<E: Entry>(symbol: &E, reach: u32, index: usize) -> Claim
    ensures { result ≡ dladdr_claim reach index (E.fields symbol.now) }
{
    Claim {
        begin: symbol.value(),
        size: symbol.size().max(1),
        extent: 0,
        rank: reach,
        index,
    }
}

// Whether other files can use a symbol.
#[inline(always)]
fn is_exported<E: Entry>(symbol: &E) -> bool
    ensures { result ≡ is_exported (E.fields symbol.now) }
{
    let binding = symbol.info() / 16;
    let visibility = symbol.other().raw() % 4;
    (binding == 1 || binding == 2) && visibility != 1 && visibility != 2
}

/// The dynamic symbols of a file, of which `dladdr` finds those that the hash table reaches, except
/// thread-local, absolute, and undefined ones without a value.
///
/// A symbol covers `size` addresses from `value` on, and at least one. Of those that cover an
/// address `dladdr` finds the one with the greatest value, and of several with that value the first
/// in the order of the hash table. `ClaimIndex` is their index for many addresses.
#[derive(Drop)]
pub struct DladdrSymbols<'a, E: Entry + Record> {
    /// The dynamic symbols.
    pub table: Table<'a, E>,
    /// The string table with their names, of `DT_STRSZ` bytes.
    pub strings: &'a [u8],
    /// Which of them the hash table reaches.
    pub reach: Reach<'a>,
}

impl<E: Entry + Record> DladdrSymbols<'_, E> {
    /// The symbol that `dladdr` finds at an address of the file, by a pass over the table.
    pub fn symbol_at(&self, address: u64) -> Option<At<E>>
        ensures innermost { IsInnermost (dladdr_claims E.fields self.now) address
            (dladdr_at E.fields self.now result) }
        ensures tells { IfSome result (IsDladdrAt E.fields self.now address) }
    {
        match innermost(self, address) {
            Some(claim) => Some(self.told(&claim, address)),
            None => None,
        }
    }

    // The symbol of a claim, and the place of an address in it.
    fn told(&self, claim: &Claim, address: u64) -> At<E>
        requires stands { IsClaimAt (dladdr_claims E.fields self.now) claim.now.index claim.now }
        requires begun { claim.now.begin ≤ address }
        ensures claim { dladdr_claim (reach_of self.now.reach result.index (E.fields result.symbol))
            result.index (E.fields result.symbol) ≡ claim.now }
        ensures tells { IsDladdrAt E.fields self.now address result }
    {
        match self.table.get(claim.index) {
            Some(symbol) => At {
                index: claim.index,
                symbol,
                offset: address - claim.begin,
                open: symbol.size() == 0,
            },
            None => unreachable!(),
        }
    }

    // Whether a symbol is found, by its place in the order of the hash table.
    #[tactic(auto, unfolding(crate::specs::Dladdr::is_found))]
    #[inline(always)]
    fn is_found(&self, symbol: &E, reach: u32) -> bool
        ensures { result ≡ is_found self.now.strings.now reach (E.fields symbol.now) }
    {
        if reach == 0 || symbol.info() % 16 == 6 || symbol.shndx() == 0xfff1 {
            return false;
        }
        if symbol.shndx() == 0 && symbol.value() == 0 {
            return false;
        }
        (symbol.name() as usize) < self.strings.len()
    }
}

impl<E: Entry + Record> Claims for DladdrSymbols<'_, E> {
    ghost count = { λ symbols. length (table_items symbols.table) };

    ghost claim_of = { λ symbols. dladdr_claims E.fields symbols };

    ghost known_of = { λ symbols. dladdr_known E.fields symbols };

    ghost knows = { λ symbols i claim is. dladdr_knows E.fields symbols i claim is };

    ghost within = { λ symbols i claim is. dladdr_within E.fields symbols i claim is };

    ghost range_of = { λ symbols. dladdr_ranges E.fields symbols };

    ghost own = { λ symbols i claim is. dladdr_index E.fields symbols i claim is };

    ghost ranged = { λ symbols i claim is. dladdr_ranged E.fields symbols i claim is };

    #[inline(always)]
    fn count(&self) -> usize {
        self.table.len()
    }

    #[inline(always)]
    fn claim(&self, index: usize) -> Option<Claim> {
        let symbol = self.table.get(index)?;
        let reach = self.reach.of(&symbol, index);
        if !self.is_found(&symbol, reach) {
            return None;
        }
        Some(claim_of(&symbol, reach, index))
    }

    #[inline(always)]
    fn known(&self, index: usize) -> Claim {
        match self.table.get(index) {
            Some(symbol) => {
                let reach = self.reach.of(&symbol, index);
                claim_of(&symbol, reach, index)
            }
            None => no_claim(index),
        }
    }

    #[inline(always)]
    fn range(&self, index: usize) -> (u64, u64) {
        match self.table.get(index) {
            Some(symbol) => (symbol.value(), symbol.size().max(1)),
            None => (0, 1),
        }
    }
}
