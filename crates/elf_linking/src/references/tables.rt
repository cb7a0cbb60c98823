//! The relocations of one table, of either class, with or without addends.

ghost use Rattle.std.specs.Prelude.{◌≡◌, ◌<◌, ◌%◌, ◌^◌, ◌==◌, ◌∷◌, [], not, Err, IfOk, MatchResult, Ok, length};
ghost use Rattle.std.specs.Iterator.{YieldsFirst};
ghost use Rattle.elf_base.specs.FileHeader.{file_class, file_order};
ghost use Rattle.elf_base.specs.FirstError.{unless};
ghost use Rattle.elf_base.specs.Table.{table_data, table_order, table_rest};
ghost use Rattle.elf_base.specs.declared.error.ElfError.TheVariants.{NotMultiple};
ghost use Rattle.elf_linking.specs.References.{relocations_in, relocations_left};
ghost use Rattle.elf_linking.specs.References.{table_relocations};
ghost use Rattle.elf_linking.specs.RelocationRecords.{references_by, rel_reference, rela_reference};
ghost use Rattle.elf_linking.specs.declared.error.LinkError.TheVariants.{Elf};
ghost use Rattle.elf_records.specs.Relocations.{symbol_in_32, symbol_in_64, type_in_32, type_in_64};

use crate::LinkError;
use crate::references::Reference;
use crate::view::{DT_REL, DT_RELA, TableLocation, bytes_at};
use elf_base::bytes::{Order, Record, Table, TableIter};
use elf_base::header::Class;
use elf_base::{P32, P64};
use elf_records::sections::{Rel, Rela};
use xmas_elf::ElfFile;

/// A record of a relocation: `Rel` or `Rela`, of either class.
pub trait Relocates: Record {
    ghost use Rattle.elf_linking.specs.declared.references.Reference.{Reference};

    ghost reference_of: { Self → Reference };

    /// The location, the type, the index of the symbol, and the addend, as numbers of either class.
    /// The addend of a `Rel` is 0; it is stored at the location.
    fn reference(&self) -> Reference
        ensures { result ≡ reference_of self.now };
}

impl Relocates for Rela<P32> {
    ghost reference_of = { rela_reference symbol_in_32 type_in_32 };

    #[inline(always)]
    fn reference(&self) -> Reference {
        Reference {
            offset: u64::from(self.get_offset()),
            kind: u32::from(self.get_type()),
            symbol: self.get_symbol_table_index(),
            addend: u64::from(self.get_addend()),
        }
    }
}

impl Relocates for Rela<P64> {
    ghost reference_of = { rela_reference symbol_in_64 type_in_64 };

    #[inline(always)]
    fn reference(&self) -> Reference {
        Reference {
            offset: self.get_offset(),
            kind: self.get_type(),
            symbol: self.get_symbol_table_index(),
            addend: self.get_addend(),
        }
    }
}

impl Relocates for Rel<P32> {
    ghost reference_of = { rel_reference symbol_in_32 type_in_32 };

    #[inline(always)]
    fn reference(&self) -> Reference {
        Reference {
            offset: u64::from(self.get_offset()),
            kind: u32::from(self.get_type()),
            symbol: self.get_symbol_table_index(),
            addend: 0,
        }
    }
}

impl Relocates for Rel<P64> {
    ghost reference_of = { rel_reference symbol_in_64 type_in_64 };

    #[inline(always)]
    fn reference(&self) -> Reference {
        Reference {
            offset: self.get_offset(),
            kind: self.get_type(),
            symbol: self.get_symbol_table_index(),
            addend: 0,
        }
    }
}

// An iterator over the records in `bytes`; `Elf` with `NotMultiple` if they are not whole records.
fn records_in<'a, T: Relocates>(
    bytes: &'a [u8],
    order: Order,
) -> Result<TableIter<'a, T>, LinkError>
    ensures exact { let answer = unless ((not (length bytes.now % T.SIZE == 0), Elf NotMultiple) ∷ [])
        (references_by T.SIZE T.value T.reference_of order bytes.now) in MatchResult result
        (λ rest. answer ≡ Ok (references_by T.SIZE T.value T.reference_of
        (table_order (table_rest rest)) (table_data (table_rest rest))))
        (λ error. answer ≡ Err error) }
    ensures room { IfOk result (λ rest. length (table_data (table_rest rest)) ≡ length bytes.now) }
{
    match Table::new(bytes, order) {
        Ok(table) => Ok(table.iter()),
        Err(error) => Err(LinkError::Elf(error)),
    }
}

// The first of the remaining records.
#[tactic(auto, using(crate::proofs::ReferenceItems::none_decoded))]
#[inline(always)]
fn first_of<T: Relocates>(rest: &mut TableIter<'_, T>) -> Option<Reference>
    ensures { YieldsFirst (λ iter. references_by T.SIZE T.value T.reference_of
        (table_order (table_rest iter)) (table_data (table_rest iter))) rest.old result rest.new }
{
    match rest.next() {
        Some(record) => Some(record.reference()),
        None => None,
    }
}

// The remaining relocations of a table; none of a table that the file doesn't have.
#[derive(Clone, Debug, Drop)]
pub(crate) enum Relocations<'a> {
    Absent,
    Rela32(TableIter<'a, Rela<P32>>),
    Rela64(TableIter<'a, Rela<P64>>),
    Rel32(TableIter<'a, Rel<P32>>),
    Rel64(TableIter<'a, Rel<P64>>),
}

impl<'a> Relocations<'a> {
    // The relocations of a table, whose kind is `DT_RELA` or `DT_REL`. The errors are those of
    // `DynamicView::references`.
    pub(crate) fn read(
        file: &ElfFile<'a>,
        table: &TableLocation,
        kind: Option<u64>,
    ) -> Result<Relocations<'a>, LinkError>
        ensures exact { let answer = table_relocations file.now table.now kind in MatchResult result
            (λ relocations. answer ≡ Ok (relocations_left relocations))
            (λ error. answer ≡ Err error) }
        ensures few { IfOk result (λ relocations.
            length (relocations_left relocations) < 2 ^ 61) }
    {
        let Some(address) = table.start else {
            return Ok(Relocations::Absent);
        };
        let (Some(size), Some(kind)) = (table.size, kind) else {
            return Err(LinkError::NoEntry);
        };
        if kind != DT_RELA && kind != DT_REL {
            return Err(LinkError::RelocationKind);
        }
        match bytes_at(file, address, size) {
            Ok(bytes) => Relocations::new(bytes, file, kind == DT_RELA),
            Err(error) => Err(error),
        }
    }

    // The relocations in these bytes of a file.
    #[tactic(auto, using(crate::proofs::ReferenceItems::records_few), unfolding(crate::specs::RelocationRecords::references_by))]
    fn new(bytes: &'a [u8], file: &ElfFile<'_>, addends: bool) -> Result<Relocations<'a>, LinkError>
        ensures exact { let answer = relocations_in
            (file_class file.now.header) (file_order file.now.header) addends bytes.now in
            MatchResult result
            (λ relocations. answer ≡ Ok (relocations_left relocations))
            (λ error. answer ≡ Err error) }
        ensures few { IfOk result (λ relocations.
            length (relocations_left relocations) < 2 ^ 61) }
    {
        let order = file.byte_order();
        // This tells the proof of `few` that the length is a number of 64 bits.
        prove!(bytes.len() <= usize::MAX);
        match (file.header.pt1.class(), addends) {
            (Class::ThirtyTwo, true) => Ok(Relocations::Rela32(records_in(bytes, order)?)),
            (Class::ThirtyTwo, false) => Ok(Relocations::Rel32(records_in(bytes, order)?)),
            (Class::SixtyFour, true) => Ok(Relocations::Rela64(records_in(bytes, order)?)),
            (Class::SixtyFour, false) => Ok(Relocations::Rel64(records_in(bytes, order)?)),
            (Class::None | Class::Other(_), _) => Err(LinkError::UnknownClass),
        }
    }

    // The first of the remaining relocations.
    #[tactic(auto, unfolding(crate::specs::RelocationRecords::references_by))]
    #[inline(always)]
    pub(crate) fn next(&mut self) -> Option<Reference>
        ensures { YieldsFirst relocations_left self.old result self.new }
    {
        match self {
            Relocations::Absent => None,
            Relocations::Rela32(rest) => first_of(rest),
            Relocations::Rela64(rest) => first_of(rest),
            Relocations::Rel32(rest) => first_of(rest),
            Relocations::Rel64(rest) => first_of(rest),
        }
    }
}
