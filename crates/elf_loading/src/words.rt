//! The words that relocations write when a file is loaded.

ghost use Rattle.std.specs.Prelude.{◌≡◌, ◌<◌, ◌≤◌, ◌^◌, Err, IfOk, IfSome, MatchResult, Ok, Some, slice_get};
ghost use Rattle.std.specs.Iterator.{YieldsFirst, YieldsFirstBy, item_count};
ghost use Rattle.elf_base.specs.FirstError.{unless};
ghost use Rattle.elf_linking.specs.DynamicView.{flag_in, view_entries};
ghost use Rattle.elf_linking.specs.References.{file_machine};
ghost use Rattle.elf_linking.specs.RelocationTypes.{relative_of};
ghost use Rattle.elf_linking.specs.Scope.{scope_objects};
ghost use Rattle.std.specs.List.{list_any};
ghost use Rattle.elf_loading.specs.Segments.{loads_of};
ghost use Rattle.elf_loading.specs.RelativeWords.{asks_as};
ghost use Rattle.elf_loading.specs.Words.{IsBoundIf, addend_of, addend_place, address_size};
ghost use Rattle.elf_loading.specs.Words.{binds_lazily, has_zeros, is_later, needs_symbol};
ghost use Rattle.elf_loading.specs.Words.{own_size, takes_addend, takes_symbol, value_rows};
ghost use Rattle.elf_loading.specs.Words.{value_word, word_in_memory, word_of};
ghost use Rattle.elf_loading.specs.WordsLeft.{AreWordsOf, HasWordOf, IsSame, own_relocations};
ghost use Rattle.elf_loading.specs.WordsLeft.{relocation_of, relocations_left};
ghost use Rattle.elf_loading.specs.WordsLeft.{words_objects};

use crate::LoadError;
use crate::in_order::{InOrder, Relocation};
use crate::loads::Loads;
use crate::relocate::relative_word;
use crate::slots::{is_later, slot_word};
use crate::value::{Terms, Value, bytes_of, is_elsewhere, value_of};
use elf_base::bytes::Record;
use elf_linking::references::types::Row;
use elf_linking::references::{Formula, Reference, relative_of, row_of};
use elf_linking::scope::{Bound, Scope};
use elf_linking::view::{DT_BIND_NOW, DT_FLAGS, DT_FLAGS_1, DynamicView, LinkedSymbol, word_at};
use elf_linking::{DynamicObject, LinkError, Segment};
use xmas_elf::ElfFile;

/// When jump slots get their symbols.
#[derive(Clone, Copy, Debug, PartialEq, Eq)]
pub enum Binding {
    /// Before the program runs.
    Now,
    /// When a function is called first, unless the file asks for `Now`: by DT_BIND_NOW, or by the
    /// flag DF_BIND_NOW or DF_1_NOW. On 386 slots with an addend in their records get their symbols
    /// before, and on AArch64 those of symbols with the flag STO_AARCH64_VARIANT_PCS in a file with an
    /// entry DT_AARCH64_VARIANT_PCS.
    Lazy,
}

/// What a relocation writes, and where.
#[derive(Clone, Copy, Debug, PartialEq, Eq)]
pub struct Word {
    /// The address of the first byte, relative to the base of the file.
    pub address: u64,
    /// The number of bytes that are written: 4 or 8 for a number, twice that for a descriptor, any
    /// number for a copy, and 0 if the word is unchanged.
    pub width: u64,
    /// What is written.
    pub value: Value,
}

/// A relocation, the symbol that it gets, and what it writes.
#[derive(Clone, Copy, Debug)]
pub struct Relocated<E> {
    /// The relocation.
    pub relocation: Relocation,
    /// The symbol that it gets: the result of `Scope::bind`; `None` if no symbol is needed.
    pub bound: Result<Option<Bound<E>>, LinkError>,
    /// What it writes.
    ///
    /// Errors: `WordType`; `Link` with those of the word in place if it is the addend, and then of
    /// the symbol; `NoSize`, `CopyKind` and `CallSymbol`. Of a slot that gets its symbol later: `Link`
    /// with those of the second word at DT_PLTGOT, and then of the word in place.
    pub word: Result<Word, LoadError>,
}

/// An iterator over the relocations of one object of a scope with the words that they write, in the
/// order in which glibc applies them: the packed relocations (DT_RELR), those of DT_RELA and DT_REL,
/// and those of the procedure linkage table (DT_JMPREL). Records at the end of DT_RELA or DT_REL that
/// are those of DT_JMPREL again are passed over.
///
/// With `Binding::Lazy` each jump slot takes a few passes over the dynamic entries of the file.
#[derive(Drop)]
pub struct Words<'s, 'a, E: Record> {
    scope: Scope<'s, 'a, E>,
    file: ElfFile<'a>,
    pub(crate) own: &'s DynamicObject<'a, E>,
    pub(crate) of: usize,
    pub(crate) lazy: bool,
    pub(crate) order: InOrder<'a>,
}

// Whether a number of flags, if there is one, has a flag.
pub(crate) fn flag_in(flags: Option<u64>, flag: u64) -> bool
    requires { 0 < flag }
    ensures { result ≡ flag_in flags flag }
{
    match flags {
        Some(flags) => flags / flag % 2 == 1,
        None => false,
    }
}

// Whether jump slots of a file get their symbols when they are called first.
pub(crate) fn binds_lazily(view: &DynamicView<'_>, when: Binding) -> bool
    ensures { result ≡ binds_lazily (view_entries view.now) when }
{
    match when {
        Binding::Now => false,
        Binding::Lazy => {
            view.entry(DT_BIND_NOW).is_none()
                && !flag_in(view.entry(DT_FLAGS), 8)
                && !flag_in(view.entry(DT_FLAGS_1), 1)
        }
    }
}

// Whether a formula has a symbol.
fn takes_symbol(formula: Formula) -> bool
    ensures { result ≡ takes_symbol formula }
{
    !matches!(formula, Formula::Unchanged | Formula::Base | Formula::Call)
}

// Whether a formula has an addend.
fn takes_addend(formula: Formula) -> bool
    ensures { result ≡ takes_addend formula }
{
    !matches!(
        formula,
        Formula::Unchanged
            | Formula::SymbolAlone
            | Formula::Module
            | Formula::OffsetAlone
            | Formula::Copy
    )
}

// Whether the word of a relocation depends on a symbol: not if its slot gets it later.
pub(crate) fn needs_symbol(machine: u16, later: bool, relocation: &Relocation) -> bool
    ensures { result ≡ needs_symbol machine later relocation.now }
{
    if later {
        return false;
    }
    match row_of(machine, relocation.reference.kind).formula {
        Some(formula) => takes_symbol(formula),
        None => false,
    }
}

// The address of the word in place that is the addend: the second word of a descriptor, of which only
// 386 has one without an addend in its record; otherwise the word of the relocation.
fn addend_place(formula: Formula, address: u64) -> u64
    ensures { result ≡ addend_place formula address }
{
    match formula {
        Formula::Descriptor => address.wrapping_add(4),
        _ => address,
    }
}

// The size of an address in bytes.
pub(crate) fn address_size(file: &ElfFile<'_>) -> u64
    ensures exact { result ≡ address_size file.now }
    ensures above { 0 < result }
    ensures most { result ≤ 8 }
{
    if file.header.pt1.class.raw() == 1 {
        4
    } else {
        8
    }
}

// Whether the bytes of a word at an address are zeros after the bytes that a load has in the file.
fn has_zeros(address: u64, width: u64, load: &Segment) -> bool
    ensures { result ≡ has_zeros address width load.now }
{
    let start = u128::from(load.address);
    start + u128::from(load.file_size) <= u128::from(address)
        && u128::from(address) + u128::from(width) <= start + u128::from(load.mem_size)
}

// Whether the bytes of a word at an address are zeros after the bytes that one of the loads has.
#[tactic(auto, using(crate::proofs::Lists::zeros_first, crate::proofs::Lists::zeros_rest, crate::proofs::Lists::zeros_end))]
fn is_in_zeros(file: &ElfFile<'_>, address: u64, width: u64) -> bool
    ensures { result ≡ list_any (has_zeros address width) (loads_of file.now) }
{
    for load in Loads::of(file) {
        if has_zeros(address, width, &load) {
            return true;
        }
    }
    false
}

// The word at an address in memory before relocation.
pub(crate) fn word_in_memory(file: &ElfFile<'_>, address: u64) -> Result<u64, LinkError>
    ensures { result ≡ word_in_memory file.now address }
{
    match word_at(file, address) {
        Ok(number) => Ok(number),
        Err(_) if is_in_zeros(file, address, address_size(file)) => Ok(0),
        Err(error) => Err(error),
    }
}

// Whether a relocation gets the symbol that another gets: it has the type and the symbol of it, is a
// slot if it is one, and has its addend where that has it.
fn asks_as(one: &Relocation, other: &Relocation) -> bool
    ensures { result ≡ asks_as one.now other.now }
{
    one.reference.symbol == other.reference.symbol
        && one.reference.kind == other.reference.kind
        && one.slot == other.slot
        && one.in_place == other.in_place
}

// The addend of a relocation, if the formula has one.
fn addend_of(
    file: &ElfFile<'_>,
    in_place: bool,
    formula: Formula,
    reference: &Reference,
) -> Result<u64, LinkError>
    ensures { result ≡ addend_of file.now in_place formula reference.now }
{
    if in_place && takes_addend(formula) {
        word_in_memory(file, addend_place(formula, reference.offset))
    } else {
        Ok(reference.addend)
    }
}

// The size of the symbol at an index of an object.
fn own_size<E: LinkedSymbol>(object: &DynamicObject<'_, E>, index: u32) -> u64
    ensures { result ≡ own_size E.fields object.now index }
{
    match object.symbol(index) {
        Some(symbol) => symbol.size(),
        None => 0,
    }
}

// The word with the value of a formula.
fn value_word<E: LinkedSymbol>(terms: &Terms, bound: &Option<Bound<E>>, formula: Formula) -> Word
    requires { terms.now.width < 2 ^ 31 }
    ensures { result ≡ value_word E.fields terms.now bound.now formula }
{
    let value = value_of(terms, bound, formula);
    Word {
        address: terms.address,
        width: bytes_of(terms.width, &value),
        value,
    }
}

// The word with the value of a formula, if that is modelled, by the symbol that is named, and the one
// that the relocation gets.
fn modelled_word<E: LinkedSymbol>(
    terms: &Terms,
    named: u32,
    bound: &Option<Bound<E>>,
    formula: Formula,
) -> Result<Word, LoadError>
    requires { terms.now.width < 2 ^ 31 }
    ensures { result ≡ unless (value_rows E.fields named bound.now formula)
        (value_word E.fields terms.now bound.now formula) }
{
    match formula {
        Formula::Size if bound.is_none() => Err(LoadError::NoSize),
        Formula::Copy if is_elsewhere(bound) => Err(LoadError::CopyKind),
        Formula::Call if named != 0 => Err(LoadError::CallSymbol),
        _ => Ok(value_word(terms, bound, formula)),
    }
}

// What a relocation of an object writes, by the symbol that it gets.
fn word_of<E: LinkedSymbol>(
    file: &ElfFile<'_>,
    own: &DynamicObject<'_, E>,
    of: usize,
    lazy: bool,
    relocation: &Relocation,
    bound: &Result<Option<Bound<E>>, LinkError>,
) -> Result<Word, LoadError>
    ensures { result ≡ word_of E.fields file.now own.now of
        (is_later E.fields file.now own.now lazy relocation.now) relocation.now bound.now }
{
    let reference = &relocation.reference;
    let row = row_of(file.header.pt2.machine().raw(), reference.kind);
    if is_later(file, own, lazy, relocation) {
        return slot_word(file, own, of, row.width, reference);
    }
    let Some(formula) = row.formula else {
        return Err(LoadError::WordType);
    };
    let addend = match addend_of(file, relocation.in_place, formula, reference) {
        Ok(addend) => addend,
        Err(error) => return Err(LoadError::Link(error)),
    };
    let terms = Terms {
        own: of,
        address: reference.offset,
        addend,
        size: own_size(own, reference.symbol),
        width: row.width,
    };
    match bound {
        Ok(bound) => modelled_word(&terms, reference.symbol, bound, formula),
        Err(error) => Err(LoadError::Link(*error)),
    }
}

impl<'s, 'a, E: LinkedSymbol> Words<'s, 'a, E> {
    /// The words that the relocations of the object at index `of` of a scope write.
    ///
    /// Errors: `ObjectIndex` if there is no object at `of`; those of `DynamicView::relr`; those of
    /// `DynamicView::relocations`.
    pub fn new(scope: Scope<'s, 'a, E>, of: usize, when: Binding) -> Result<Self, LinkError>
        ensures exact { let answer = own_relocations (slice_get (scope_objects scope.entry).now of) in
            MatchResult result (λ words. answer ≡ Ok (relocations_left words))
            (λ error. answer ≡ Err error) }
        ensures begun { IfOk result (AreWordsOf (scope_objects scope.entry) of when) }
    {
        let Some(own) = scope.objects().get(of) else {
            return Err(LinkError::ObjectIndex);
        };
        let (view, file) = (own.view(), own.file());
        let order = InOrder::read(&view, &file)?;
        Ok(Words {
            scope,
            file,
            own,
            of,
            lazy: binds_lazily(&view, when),
            order,
        })
    }

    // The next relocation.
    #[inline(always)]
    pub(crate) fn next_relocation(&mut self) -> Option<Relocation>
        ensures first { YieldsFirst relocations_left self.old result self.new }
        ensures same { IsSame self.old self.new }
    {
        self.order.next()
    }

    // The row of the type of relative relocations.
    pub(crate) fn relative_row(&self) -> Option<Row>
        ensures { result ≡ relative_of (file_machine self.now.file) }
    {
        relative_of(self.file.header.pt2.machine().raw())
    }

    // The symbol that a relocation gets, if its word depends on one.
    #[inline(always)]
    fn bound(&self, relocation: &Relocation) -> Result<Option<Bound<E>>, LinkError>
        ensures { IsBoundIf (needs_symbol (file_machine self.now.file)
            (is_later E.fields self.now.file self.now.own.now self.now.lazy relocation.now)
            relocation.now) E.fields (words_objects self.now).now self.now.of
            relocation.now.reference result }
    {
        let machine = self.file.header.pt2.machine().raw();
        let later = is_later(&self.file, self.own, self.lazy, relocation);
        if needs_symbol(machine, later, relocation) {
            self.scope.bind(self.of, &relocation.reference)
        } else {
            Ok(None)
        }
    }

    // A relocation with its word. It has 200 bytes and more, which a call would copy.
    #[inline(always)]
    fn item(&self, relocation: Relocation) -> Relocated<E>
        ensures relocation { result.relocation ≡ relocation }
        ensures word { HasWordOf E.fields self.now result }
    {
        let bound = self.bound(&relocation);
        self.item_with(relocation, bound)
    }

    // The same; that of a relative relocation is its addend, without a look-up.
    fn quick_item(&self, relocation: Relocation) -> Relocated<E>
        ensures relocation { result.relocation ≡ relocation }
        ensures word { HasWordOf E.fields self.now result }
    {
        match relative_word(self.of, &self.relative_row(), &relocation) {
            Some(word) => Relocated {
                relocation,
                bound: Ok(None),
                word: Ok(word),
            },
            None => self.item(relocation),
        }
    }

    // The same after an item. Linkers put relocations of one symbol one after the other, and each of
    // these gets the symbol of the last.
    #[inline(always)]
    pub(crate) fn item_after(
        &self,
        relocation: Relocation,
        last: &Option<Relocated<E>>,
    ) -> Relocated<E>
        requires { IfSome last.now (HasWordOf E.fields self.now) }
        ensures relocation { result.relocation ≡ relocation }
        ensures word { HasWordOf E.fields self.now result }
    {
        match last {
            Some(last) if asks_as(&last.relocation, &relocation) => {
                self.item_with(relocation, last.bound)
            }
            _ => self.item(relocation),
        }
    }

    // A relocation with its word, by the symbol that it gets.
    #[inline(always)]
    fn item_with(
        &self,
        relocation: Relocation,
        bound: Result<Option<Bound<E>>, LinkError>,
    ) -> Relocated<E>
        requires { IsBoundIf (needs_symbol (file_machine self.now.file)
            (is_later E.fields self.now.file self.now.own.now self.now.lazy relocation)
            relocation) E.fields (words_objects self.now).now self.now.of
            relocation.reference bound }
        ensures relocation { result.relocation ≡ relocation }
        ensures word { HasWordOf E.fields self.now result }
    {
        let word = word_of(
            &self.file,
            self.own,
            self.of,
            self.lazy,
            &relocation,
            &bound,
        );
        Relocated {
            relocation,
            bound,
            word,
        }
    }
}

impl<E: LinkedSymbol> Iterator for Words<'_, '_, E> {
    type Item = Relocated<E>;

    ghost next_gives = { λ s r t. YieldsFirstBy relocation_of relocations_left s r t × IsSame s t
        × IfSome r (HasWordOf E.fields s) };

    ghost remaining = { item_count relocations_left };

    fn next(&mut self) -> Option<Relocated<E>> {
        let relocation = self.next_relocation()?;
        Some(self.quick_item(relocation))
    }
}
