//! The symbols of a table that name addresses (gABI, "Symbol Table").

ghost use Rattle.std.specs.Prelude.{◌≡◌, ◌≤◌, ◌+◌, ◌==◌, ◌&&◌, not, slice_get, slice_index};
ghost use Rattle.std.proofs.lemmas.Option.{option_and_then_some, slice_get_within};
ghost use Rattle.elf_addresses.specs.Candidates.{binding_rank, has_address, is_mapping};
ghost use Rattle.elf_addresses.specs.Candidates.{is_mapping_letter, is_named, is_within};
ghost use Rattle.elf_addresses.specs.Candidates.{section_index, symbol_rank, type_rank};
ghost use Rattle.elf_addresses.specs.SymbolClaims.{claim_if, claim_of_symbols, has_claim};
ghost use Rattle.elf_addresses.specs.SymbolClaims.{known_of_symbols, range_of_symbols, symbol_claim, symbol_count, symbol_items};
ghost use Rattle.elf_addresses.specs.SymbolRanges.{own_index, own_known, own_range};

use crate::claim::{Claim, no_claim};
use crate::claims::Claims;
use xmas_elf::bytes::{Record, Table};
use xmas_elf::sections::{SHN_LORESERVE, SHN_XINDEX};
use xmas_elf::symbol_table::Entry;

/// The symbols of a table, and what says which of them name addresses.
///
/// A symbol names addresses if it is in a section, has no type or is an object, a function or an
/// indirect function (`STT_GNU_IFUNC`), and has a name: `st_name` isn't 0. Its text may be empty or past
/// the end of the string table, as for `nm` and `addr2line`. Left out are local symbols without a type
/// whose names begin with `.L` or are those of mapping symbols of Arm, Arm 64-bit,
/// RISC-V and C-SKY.
#[derive(Drop)]
pub struct AddressSymbols<'a, E: Entry + Record> {
    /// The symbols.
    pub table: Table<'a, E>,
    /// The string table with their names.
    pub strings: &'a [u8],
    /// The section index of each symbol whose `shndx` is `SHN_XINDEX`: the data of the section of
    /// type `SHT_SYMTAB_SHNDX` that belongs to the table; empty if there is none.
    pub indices: Table<'a, u32>,
    /// The machine of the file, as a number (e_machine).
    pub machine: u16,
}

impl<E: Entry + Record> AddressSymbols<'_, E> {
    ghost use Rattle.xmas_elf.specs.Table.{table_items};

    /// The section index of a symbol, by its index in the table; 0 if it is in no section.
    #[inline(always)]
    pub fn section_index(&self, symbol: &E, index: usize) -> u32
        ensures { result
            ≡ section_index (table_items self.now.indices) (E.fields symbol.now) index }
    {
        let own = symbol.shndx();
        if own == SHN_XINDEX {
            return self.indices.get(index).unwrap_or(0);
        }
        if own < SHN_LORESERVE {
            u32::from(own)
        } else {
            0
        }
    }

    // Whether a symbol names addresses: those of a section, if one is given.
    #[tactic(auto, unfolding(crate::specs::SymbolClaims::has_claim))]
    #[inline(always)]
    pub(crate) fn is_candidate(&self, symbol: &E, index: usize, within: Option<u32>) -> bool
        ensures { result ≡ has_claim E.fields self.now within index symbol.now }
    {
        if !has_address(symbol.info() % 16) {
            return false;
        }
        if !is_within(within, self.section_index(symbol, index)) {
            return false;
        }
        self.has_name(symbol)
    }

    // Whether a symbol has a name that is not that of a mapping symbol or of a label. The bytes of the
    // name are read only if the symbol is local and has no type.
    #[tactic(auto, unfolding(crate::specs::Candidates::is_named))]
    #[inline(always)]
    fn has_name(&self, symbol: &E) -> bool
        ensures { result ≡ is_named self.now.machine self.now.strings.now (E.fields symbol.now) }
    {
        let name = symbol.name();
        is_name(name, self.is_label(symbol.info(), name))
    }

    // Whether a symbol is local and has no type, and has the name of a mapping symbol or of a label.
    #[inline(always)]
    fn is_label(&self, info: u8, name: u32) -> bool
        ensures { result ≡ (info == 0 && is_mapping self.now.machine
            (slice_index self.now.strings.now name) (slice_index self.now.strings.now (name + 1))
            (slice_index self.now.strings.now (name + 2))) }
    {
        info == 0 && self.is_mapping_name(name)
    }

    // Whether the name that begins at an offset is that of a mapping symbol or of a label.
    fn is_mapping_name(&self, name: u32) -> bool
        ensures { result ≡ is_mapping self.now.machine (slice_index self.now.strings.now name)
            (slice_index self.now.strings.now (name + 1))
            (slice_index self.now.strings.now (name + 2)) }
    {
        let start = name as usize;
        let first = byte_or_zero(self.strings, start);
        let second = byte_or_zero(self.strings, start + 1);
        let third = byte_or_zero(self.strings, start + 2);
        is_mapping(self.machine, first, second, third)
    }
}

/// The claims of the symbols of a table that name addresses.
///
/// The claim of a symbol is `size` addresses from `value` on. Of two symbols with the same range, a
/// function comes before an object, and this before one of no type; then a global symbol before a
/// weak one, and this before a local one; then the one with the smaller index.
#[derive(Drop)]
pub struct SymbolClaims<'s, 'a, E: Entry + Record> {
    /// The symbols.
    pub symbols: &'s AddressSymbols<'a, E>,
    /// The index of a section, if only the symbols of this section name addresses: in an object
    /// file, whose values are offsets in sections.
    pub within: Option<u32>,
}

impl<E: Entry + Record> Claims for SymbolClaims<'_, '_, E> {
    ghost count = { λ claims. symbol_count claims.symbols.now };

    ghost claim_of = { λ claims. claim_of_symbols E.fields claims.symbols.now claims.within };

    ghost known_of = { λ claims. known_of_symbols E.fields claims.symbols.now };

    ghost knows = { λ claims i claim is.
        own_known E.fields claims.symbols.now claims.within i claim is };

    ghost within = { λ claims i claim is. option_and_then_some
        (claim_if E.fields claims.symbols.now claims.within i)
        (slice_get (symbol_items claims.symbols.now) i) claim is
        (λ symbol there _. slice_get_within (symbol_items claims.symbols.now) i symbol there) };

    ghost range_of = { λ claims. range_of_symbols E.fields claims.symbols.now };

    ghost own = { λ claims i claim is.
        own_index E.fields claims.symbols.now claims.within i claim is };

    ghost ranged = { λ claims i claim is.
        own_range E.fields claims.symbols.now claims.within i claim is };

    #[inline(always)]
    fn count(&self) -> usize {
        self.symbols.table.len()
    }

    #[inline(always)]
    fn claim(&self, index: usize) -> Option<Claim> {
        let symbol = self.symbols.table.get(index)?;
        if !self.symbols.is_candidate(&symbol, index, self.within) {
            return None;
        }
        Some(claim_of(&symbol, index))
    }

    #[inline(always)]
    fn known(&self, index: usize) -> Claim {
        match self.symbols.table.get(index) {
            Some(symbol) => claim_of(&symbol, index),
            None => no_claim(index),
        }
    }

    #[inline(always)]
    fn range(&self, index: usize) -> (u64, u64) {
        match self.symbols.table.get(index) {
            Some(symbol) => (symbol.value(), symbol.size()),
            None => (0, 0),
        }
    }
}

// The claim of a symbol.
#[inline(always)]
fn claim_of<E: Entry>(symbol: &E, index: usize) -> Claim
    ensures { result ≡ symbol_claim index (E.fields symbol.now) }
{
    Claim {
        begin: symbol.value(),
        size: symbol.size(),
        extent: symbol.size(),
        rank: u32::from(rank_of(symbol.info())),
        index,
    }
}

// The byte at an index, or 0 past the end.
#[inline(always)]
fn byte_or_zero(bytes: &[u8], index: usize) -> u8
    ensures { result ≡ slice_index bytes.now index }
{
    match bytes.get(index) {
        Some(byte) => *byte,
        None => 0,
    }
}

// Whether a section is the one that is asked for, if one is; 0 is no section.
#[inline(always)]
fn is_within(within: Option<u32>, section: u32) -> bool
    ensures { result ≡ is_within within section }
{
    match within {
        Some(wanted) => section != 0 && section == wanted,
        None => section != 0,
    }
}

// Whether symbols of a type name addresses.
#[inline(always)]
fn has_address(kind: u8) -> bool
    ensures { result ≡ has_address kind }
{
    kind <= 2 || kind == 10
}

// Whether a name is one, and not that of a label.
#[inline(always)]
fn is_name(name: u32, label: bool) -> bool
    ensures { result ≡ (not (name == 0) && not label) }
{
    name != 0 && !label
}

// Whether a name is that of a mapping symbol, or begins as one that assemblers give to labels, by
// its first bytes.
#[inline(always)]
fn is_mapping(machine: u16, first: u8, second: u8, third: u8) -> bool
    ensures { result ≡ is_mapping machine first second third }
{
    if first == b'.' {
        return second == b'L';
    }
    if first != b'$' {
        return false;
    }
    if machine == 243 && second == b'x' {
        return true;
    }
    is_mapping_letter(machine, second) && (third == 0 || third == b'.')
}

// Whether the name of a mapping symbol of the machine is a dollar sign and this letter.
#[inline(always)]
fn is_mapping_letter(machine: u16, letter: u8) -> bool
    ensures { result ≡ is_mapping_letter machine letter }
{
    if machine == 40 {
        return letter == b'a' || letter == b'd' || letter == b't';
    }
    if machine == 183 {
        return letter == b'd' || letter == b'x';
    }
    if machine == 252 {
        return letter == b'd' || letter == b't';
    }
    machine == 243 && letter == b'd'
}

// The rank of a symbol among symbols with the same range, by its type and binding.
#[tactic(auto, unfolding(crate::specs::Candidates::symbol_rank))]
#[inline(always)]
fn rank_of(info: u8) -> u8
    ensures { result ≡ symbol_rank info }
{
    type_rank(info % 16) * 3 + binding_rank(info / 16)
}

// Functions come before objects, and objects before others.
#[inline(always)]
fn type_rank(kind: u8) -> u8
    ensures value { result ≡ type_rank kind }
    ensures bound { result ≤ 2 }
{
    if kind == 2 || kind == 10 {
        return 0;
    }
    if kind == 1 { 1 } else { 2 }
}

// Global and unique symbols come before weak ones, and weak ones before others.
#[inline(always)]
fn binding_rank(binding: u8) -> u8
    ensures value { result ≡ binding_rank binding }
    ensures bound { result ≤ 2 }
{
    if binding == 1 || binding == 10 {
        return 0;
    }
    if binding == 2 { 1 } else { 2 }
}
