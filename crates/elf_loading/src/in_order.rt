//! The relocations of a file in the order in which glibc applies them (gABI, "Relocation" and
//! "Dynamic Section"; the order, and which records of a table are passed over, as glibc 2.36 has
//! it).

ghost use Rattle.std.specs.Prelude.{◌≡◌, ◌<◌, ◌^◌, ◌+◌, [], ◌∷◌, List, Err, IfSome};
ghost use Rattle.std.specs.Prelude.{MatchOption, MatchResult, Ok, Some, if◌then◌else◌, is_some};
ghost use Rattle.std.specs.Iterator.{YieldsFirst, item_count};
ghost use Rattle.elf_linking.specs.DynamicView.{view_entries};
ghost use Rattle.elf_linking.specs.References.{record_size, table_left, table_relocations};
ghost use Rattle.elf_linking.specs.TableLocations.{table_but_zero};
ghost use Rattle.elf_linking.specs.declared.references.Reference.{Reference};
ghost use Rattle.elf_linking.specs.declared.view.tags.TheConstants.{DT_RELA, DT_RELASZ};
ghost use Rattle.elf_loading.specs.InOrder.{ends_with, is_kind, kept_records, order_left};
ghost use Rattle.elf_loading.specs.InOrder.{HasRecords, first_left, packed_left, part_left};
ghost use Rattle.elf_loading.specs.InOrder.{records_left};
ghost use Rattle.elf_linking.specs.RelocationTypes.{relative_kind};
ghost use Rattle.elf_loading.specs.InOrder.{relocations_in_order, relr_addresses, relr_left};
ghost use Rattle.elf_loading.specs.InOrder.{take_most};
ghost use Rattle.elf_loading.specs.Words.{address_size};

use crate::words::address_size;
use elf_base::P64;
use elf_base::bytes::Table;
use elf_linking::LinkError;
use elf_linking::references::types::R_X86_64_RELATIVE;
use elf_linking::references::{Reference, Relocates, TableRelocations, relative_of};
use elf_linking::relr::Relr;
use elf_linking::view::{
    DT_JMPREL, DT_PLTREL, DT_PLTRELSZ, DT_REL, DT_RELA, DT_RELASZ, DT_RELSZ, DynamicView,
    TableLocation, bytes_at,
};
use elf_records::sections::Rela;
use xmas_elf::ElfFile;

/// A relocation of a file, and where its addend is.
#[derive(Clone, Copy, Debug, PartialEq, Eq)]
pub struct Relocation {
    /// The relocation. A packed one has the type of relative relocations, no symbol and the addend 0.
    pub reference: Reference,
    /// Whether the addend is the word at the address: the relocation is packed or of the kind Rel.
    pub in_place: bool,
    /// Whether the relocation is of the procedure linkage table (DT_JMPREL).
    pub slot: bool,
}

// The packed relocations that are left, and their type.
#[derive(Clone, Debug, Drop)]
pub(crate) struct Packed<'a> {
    kind: u32,
    pub(crate) rest: Option<Relr<'a>>,
}

// The records of DT_RELA in a file of class 64, of which those from `at` on, and before `end`, are left.
#[derive(Clone, Copy, Debug)]
pub(crate) struct Records<'a> {
    table: Table<'a, Rela<P64>>,
    pub(crate) at: usize,
    end: usize,
}

// The relocations that are left of a table, at most as many as are given. They are the first of
// those that are left of all tables.
#[derive(Clone, Debug, Drop)]
struct Part<'a> {
    rest: TableRelocations<'a>,
    most: Option<u64>,
    in_place: bool,
    slot: bool,
}

/// An iterator over all relocations of a file in the order in which glibc 2.36 applies them: the
/// packed ones (DT_RELR), then those of DT_RELA, then those of DT_REL, then those of the procedure
/// linkage table (DT_JMPREL). Records at the end of DT_RELA or DT_REL that are those of DT_JMPREL again
/// are passed over.
#[derive(Clone, Debug, Drop)]
pub struct InOrder<'a> {
    pub(crate) packed: Packed<'a>,
    pub(crate) records: Option<Records<'a>>,
    rela: Part<'a>,
    rel: Part<'a>,
    slots: Part<'a>,
}

// The type of relative relocations.
pub(crate) fn relative_type(machine: u16) -> u32
    ensures { result ≡ relative_kind machine }
{
    match relative_of(machine) {
        Some(row) => row.kind,
        None => R_X86_64_RELATIVE,
    }
}

impl Packed<'_> {
    #[inline(always)]
    fn next_address(&mut self) -> Option<u64>
        ensures first { YieldsFirst (λ packed. relr_left packed.rest) self.old result self.new }
        ensures kind { self.new.kind ≡ self.old.kind }
    {
        match &mut self.rest {
            Some(rest) => rest.next(),
            None => None,
        }
    }

    #[tactic(auto, using(crate::proofs::InOrders::relative_none, crate::proofs::InOrders::relative_first))]
    #[inline(always)]
    fn next(&mut self) -> Option<Relocation>
        ensures { YieldsFirst packed_left self.old result self.new }
    {
        let kind = self.kind;
        let offset = self.next_address()?;
        Some(Relocation {
            reference: Reference {
                offset,
                kind,
                symbol: 0,
                addend: 0,
            },
            in_place: true,
            slot: false,
        })
    }
}

impl Records<'_> {
    // The first relocation that is left.
    #[tactic(auto, using(crate::proofs::InOrders::left_past, crate::proofs::InOrders::none_left, crate::proofs::InOrders::left_first))]
    #[inline(always)]
    pub(crate) fn first(&self) -> Option<Relocation>
        ensures below { IfSome result (λ relocation. self.now.at + 1 < 2 ^ 64) }
        ensures first { MatchOption result (first_left self.now self.now.at ≡ []) (λ relocation.
            first_left self.now self.now.at ≡ relocation ∷ first_left self.now (self.now.at + 1)) }
    {
        if self.at >= self.end {
            return None;
        }
        let record = self.table.get(self.at)?;
        Some(Relocation {
            reference: record.reference(),
            in_place: false,
            slot: false,
        })
    }
}

// The next of the records.
#[inline(always)]
fn next_record(records: &mut Option<Records<'_>>) -> Option<Relocation>
    ensures { YieldsFirst records_left records.old result records.new }
{
    let Some(records) = records else {
        return None;
    };
    let relocation = records.first()?;
    records.at += 1;
    Some(relocation)
}

impl Part<'_> {
    #[tactic(auto, using(crate::proofs::InOrders::taken_none, crate::proofs::InOrders::taken_first))]
    #[inline(always)]
    fn next_reference(&mut self) -> Option<Reference>
        ensures first { YieldsFirst (λ part. take_most part.most (table_left part.rest))
            self.old result self.new }
        ensures in_place { self.new.in_place ≡ self.old.in_place }
        ensures slot { self.new.slot ≡ self.old.slot }
    {
        match self.most {
            Some(0) => return None,
            Some(most) => self.most = Some(most - 1),
            None => {}
        }
        self.rest.next()
    }

    #[tactic(auto, using(crate::proofs::InOrders::placed_none, crate::proofs::InOrders::placed_first))]
    #[inline(always)]
    fn next(&mut self) -> Option<Relocation>
        ensures { YieldsFirst part_left self.old result self.new }
    {
        let (in_place, slot) = (self.in_place, self.slot);
        let reference = self.next_reference()?;
        Some(Relocation {
            reference,
            in_place,
            slot,
        })
    }
}

// The size of a record of a table, with addends or without.
pub(crate) fn record_size(file: &ElfFile<'_>, addends: bool) -> u64
    ensures exact { result ≡ record_size (address_size file.now) addends }
    ensures above { 0 < result }
{
    let width = address_size(file);
    if addends { 3 * width } else { 2 * width }
}

// Whether there is a number, and it is this one.
pub(crate) fn is_kind(kind: u64, number: Option<u64>) -> bool
    ensures { result ≡ is_kind kind number }
{
    match number {
        Some(number) => number == kind,
        None => false,
    }
}

// Whether a table ends with another: both end at one address, and the other isn't longer.
fn ends_with(table: &TableLocation, other: &TableLocation) -> bool
    ensures { result ≡ ends_with table.now other.now }
{
    let (start, size) = (table.start.unwrap_or(0), table.size.unwrap_or(0));
    let (other_start, other_size) = (other.start.unwrap_or(0), other.size.unwrap_or(0));
    let end = u128::from(start) + u128::from(size);
    let other_end = u128::from(other_start) + u128::from(other_size);
    other.start.is_some() && other_size <= size && end == other_end
}

// The number of records of a table that are not those of the procedure linkage table again.
pub(crate) fn kept_records(view: &DynamicView<'_>, file: &ElfFile<'_>, kind: u64, size: u64) -> u64
    ensures { result ≡ kept_records file.now (view_entries view.now) kind size }
{
    let table = view.table_but_zero(kind, size);
    let slots = view.table_by(DT_JMPREL, DT_PLTRELSZ);
    let is_again = is_kind(kind, view.entry(DT_PLTREL)) && ends_with(&table, &slots);
    let again = if is_again { slots.size.unwrap_or(0) } else { 0 };
    table.size.unwrap_or(0).saturating_sub(again) / record_size(file, kind == DT_RELA)
}

// The records of DT_RELA in a file of class 64, of which as many are kept.
fn records_of<'a>(view: &DynamicView<'a>, file: &ElfFile<'a>, kept: u64) -> Option<Records<'a>>
    ensures { HasRecords (table_relocations file.now (table_but_zero (view_entries view.now) DT_RELA DT_RELASZ)
        (Some DT_RELA)) kept result }
{
    if file.header.pt1.class.raw() != 2 {
        return None;
    }
    let table = view.table_but_zero(DT_RELA, DT_RELASZ);
    let (Some(start), Some(size)) = (table.start, table.size) else {
        return None;
    };
    let Ok(bytes) = bytes_at(file, start, size) else {
        return None;
    };
    let Ok(table) = Table::new(bytes, file.byte_order()) else {
        return None;
    };
    Some(Records {
        table,
        at: 0,
        end: kept as usize,
    })
}

// The number of records of DT_RELA that are kept and not among these.
fn kept_after(records: &Option<Records<'_>>, kept: u64) -> u64
    ensures { result ≡ (if is_some records.now then 0 else kept) }
{
    if records.is_some() { 0 } else { kept }
}

// The packed relocations of a file.
fn packed_of<'a>(view: &DynamicView<'a>, file: &ElfFile<'a>) -> Result<Option<Relr<'a>>, LinkError>
    ensures { let answer = relr_addresses file.now (view_entries view.now) in MatchResult result
        (λ rest. answer ≡ Ok (relr_left rest)) (λ error. answer ≡ Err error) }
{
    match view.relr(file) {
        None => Ok(None),
        Some(Ok(relr)) => Ok(Some(relr)),
        Some(Err(error)) => Err(error),
    }
}

impl<'a> InOrder<'a> {
    /// The relocations of the file with this dynamic segment.
    ///
    /// Errors: those of `DynamicView::relr`, then those of `DynamicView::relocations`.
    #[tactic(auto, unfolding(crate::specs::InOrder::relocations_in_order))]
    pub fn read(view: &DynamicView<'a>, file: &ElfFile<'a>) -> Result<Self, LinkError>
        ensures { let answer = relocations_in_order file.now (view_entries view.now) in
            MatchResult result (λ order. answer ≡ Ok (order_left order))
            (λ error. answer ≡ Err error) }
    {
        let machine = file.header.pt2.machine().raw();
        let rest = packed_of(view, file)?;
        let tables = view.relocation_tables(file)?;
        let kept = kept_records(view, file, DT_RELA, DT_RELASZ);
        let records = records_of(view, file, kept);
        Ok(InOrder {
            packed: Packed {
                kind: relative_type(machine),
                rest,
            },
            records,
            rela: Part {
                rest: tables.rela,
                most: Some(kept_after(&records, kept)),
                in_place: false,
                slot: false,
            },
            rel: Part {
                rest: tables.rel,
                most: Some(kept_records(view, file, DT_REL, DT_RELSZ)),
                in_place: true,
                slot: false,
            },
            slots: Part {
                rest: tables.plt,
                most: None,
                in_place: is_kind(DT_REL, view.entry(DT_PLTREL)),
                slot: true,
            },
        })
    }
}

impl Iterator for InOrder<'_> {
    type Item = Relocation;

    ghost next_gives = { YieldsFirst order_left };

    ghost remaining = { item_count order_left };

    #[tactic(auto, using(crate::proofs::InOrders::begins, crate::proofs::InOrders::goes_on))]
    #[inline(always)]
    fn next(&mut self) -> Option<Relocation> {
        if let Some(relocation) = self.packed.next() {
            return Some(relocation);
        }
        if let Some(relocation) = next_record(&mut self.records) {
            return Some(relocation);
        }
        if let Some(relocation) = self.rela.next() {
            return Some(relocation);
        }
        if let Some(relocation) = self.rel.next() {
            return Some(relocation);
        }
        self.slots.next()
    }
}
