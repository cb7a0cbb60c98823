//! The relocations of a file, and those that name a symbol (gABI, "Relocation" and "Dynamic
//! Section").

ghost use Rattle.std.specs.Prelude.{◌≡◌, ◌<◌, ◌^◌, Err, IfOk, MatchResult, Ok, length};
ghost use Rattle.std.specs.Iterator.{YieldsFirst, item_count};
ghost use Rattle.elf_linking.specs.LinkedSections.{IsRelr, relr_at};
ghost use Rattle.elf_linking.specs.Relr.{relr_rest};
ghost use Rattle.elf_linking.specs.References.{all_left, each_left, names_symbol, references_left};
ghost use Rattle.elf_linking.specs.References.{references_of, relocation_tables, relocations_left};
ghost use Rattle.elf_linking.specs.References.{relocations_of, table_left, tables_left};
ghost use Rattle.elf_linking.specs.References.{in_tables, tables_with, takes_rel};

mod names;
mod rows;
mod tables;
pub mod types;

use crate::LinkError;
pub use crate::references::names::relocation_name;
pub use crate::references::rows::{formula_of, relative_of, row_of, use_of, width_of};
pub use crate::references::tables::Relocates;
use crate::references::tables::Relocations;
pub use crate::references::types::Formula;
use crate::references::types::{EM_AARCH64, EM_X86_64};
use crate::relr::Relr;
use crate::view::{
    DT_JMPREL, DT_PLTREL, DT_PLTRELSZ, DT_REL, DT_RELA, DT_RELASZ, DT_RELR, DT_RELRSZ, DT_RELSZ,
    DynamicView, bytes_at,
};
use xmas_elf::ElfFile;

/// A relocation. Those of `DynamicView::references` name a symbol.
#[derive(Clone, Copy, Debug, PartialEq, Eq)]
pub struct Reference {
    /// The location to relocate: a virtual address.
    pub offset: u64,
    /// The relocation type, whose meaning is that of the machine.
    pub kind: u32,
    /// The index of the dynamic symbol; 0 if there is none, and never for a relocation that names a
    /// symbol.
    pub symbol: u32,
    /// The addend, as an unsigned number of the file's class; 0 in a record without one, whose
    /// addend is stored at the location.
    pub addend: u64,
}

/// An iterator over all relocations of a file but the packed ones: those of the table Rela, then
/// those of Rel, then those of the procedure linkage table (JmpRel), each table in order.
#[derive(Clone, Debug, Drop)]
pub struct AllRelocations<'a> {
    rela: Relocations<'a>,
    rel: Relocations<'a>,
    plt: Relocations<'a>,
}

/// An iterator over the relocations of one table, in order.
#[derive(Clone, Debug, Drop)]
pub struct TableRelocations<'a> {
    rest: Relocations<'a>,
}

/// The relocations of each table of a file; a table that the file doesn't have has none.
#[derive(Clone, Debug, Drop)]
pub struct RelocationTables<'a> {
    /// Those of the table Rela.
    pub rela: TableRelocations<'a>,
    /// Those of the table Rel.
    pub rel: TableRelocations<'a>,
    /// Those of the procedure linkage table (JmpRel).
    pub plt: TableRelocations<'a>,
}

/// An iterator over the relocations of a file that name a symbol, in the order of
/// `AllRelocations`; in a file for x86-64 or AArch64 without those of Rel.
///
/// A record names no symbol if its symbol index is 0, or if its type is `NONE` or `RELATIVE` of
/// x86-64, 386 or AArch64, whatever the index is. It is passed over, so that a call of `next` takes
/// constant time but for such records, and all calls together read each record once.
#[derive(Clone, Debug, Drop)]
pub struct References<'a> {
    all: AllRelocations<'a>,
    machine: u16,
}

impl<'a> DynamicView<'a> {
    ghost use Rattle.elf_linking.specs.DynamicView.{view_entries};

    /// An iterator over all relocations of the file, of the tables Rela, Rel and JmpRel in this
    /// order. A table without an entry for its address is absent. A record that lies in two tables
    /// is returned twice. Packed relocations are those of `relr`.
    ///
    /// This call searches the program headers for each of the three tables; `next` does not.
    ///
    /// Errors, of the first table that has one: `NoEntry` if there is no entry for its size or, for
    /// JmpRel, no entry PltRel; `RelocationKind` if the number in the entry PltRel is not that of Rel
    /// or Rela; those of `bytes_at`; `UnknownClass` if the class of the file is neither 1 nor 2;
    /// `Elf` with `NotMultiple` if the bytes are not a whole number of records.
    #[tactic(auto, unfolding(crate::specs::References::relocations_of, crate::specs::References::relocation_tables))]
    pub fn relocations(&self, file: &ElfFile<'a>) -> Result<AllRelocations<'a>, LinkError>
        ensures exact { let answer = relocations_of file.now (view_entries self.now) in
            MatchResult result (λ all. answer ≡ Ok (all_left all)) (λ error. answer ≡ Err error) }
        ensures fits { IfOk result (λ all. length (all_left all) < 2 ^ 64) }
    {
        self.all_of(true, file)
    }

    /// The relocations of each table. Those of Rela, of Rel and of JmpRel, one after the other, are those
    /// of `relocations`, which has the same errors.
    #[tactic(auto, unfolding(crate::specs::References::relocation_tables))]
    pub fn relocation_tables(&self, file: &ElfFile<'a>) -> Result<RelocationTables<'a>, LinkError>
        ensures exact { let answer = relocation_tables file.now (view_entries self.now) in
            MatchResult result (λ tables. answer ≡ Ok (each_left tables)) (λ error. answer ≡ Err error) }
    {
        let all = self.read_tables(true, file)?;
        Ok(RelocationTables {
            rela: TableRelocations { rest: all.rela },
            rel: TableRelocations { rest: all.rel },
            plt: TableRelocations { rest: all.plt },
        })
    }

    // The same, one table after the other.
    #[tactic(auto, using(crate::proofs::ReferenceItems::relocations_fit))]
    fn all_of(&self, with_rel: bool, file: &ElfFile<'a>) -> Result<AllRelocations<'a>, LinkError>
        ensures exact { let answer = in_tables (tables_with with_rel file.now (view_entries self.now)) in
            MatchResult result (λ all. answer ≡ Ok (all_left all)) (λ error. answer ≡ Err error) }
        ensures fits { IfOk result (λ all. length (all_left all) < 2 ^ 64) }
    {
        let all = self.read_tables(with_rel, file)?;
        Ok(all)
    }

    // The relocations of the three tables, or without those of DT_REL.
    #[tactic(auto, unfolding(crate::specs::References::tables_with))]
    fn read_tables(
        &self,
        with_rel: bool,
        file: &ElfFile<'a>,
    ) -> Result<AllRelocations<'a>, LinkError>
        ensures exact { let answer = tables_with with_rel file.now (view_entries self.now) in
            MatchResult result (λ all. answer ≡ Ok (tables_left all)) (λ error. answer ≡ Err error) }
        ensures rela { IfOk result (λ all. length (relocations_left all.rela) < 2 ^ 61) }
        ensures rel { IfOk result (λ all. length (relocations_left all.rel) < 2 ^ 61) }
        ensures plt { IfOk result (λ all. length (relocations_left all.plt) < 2 ^ 61) }
    {
        let rela = self.table_but_zero(DT_RELA, DT_RELASZ);
        let rela = Relocations::read(file, &rela, Some(DT_RELA))?;
        let rel = if with_rel {
            let table = self.table_but_zero(DT_REL, DT_RELSZ);
            Relocations::read(file, &table, Some(DT_REL))?
        } else {
            Relocations::Absent
        };
        let plt = self.table_by(DT_JMPREL, DT_PLTRELSZ);
        let plt = Relocations::read(file, &plt, self.entry(DT_PLTREL))?;
        Ok(AllRelocations { rela, rel, plt })
    }

    /// An iterator over the relocations of the file that name a symbol: those of `relocations` with
    /// another symbol index than 0 and a type that takes a symbol. In a file for x86-64 or AArch64,
    /// whose records all have addends, the table Rel is not read, as in glibc.
    ///
    /// The errors are those of `relocations`, of the tables that are read.
    #[tactic(auto, unfolding(crate::specs::References::references_of), using(crate::proofs::ReferenceItems::references_fit))]
    pub fn references(&self, file: &ElfFile<'a>) -> Result<References<'a>, LinkError>
        ensures exact { let answer = references_of file.now (view_entries self.now) in
            MatchResult result (λ references. answer ≡ Ok (references_left references))
            (λ error. answer ≡ Err error) }
        ensures fits { IfOk result (λ references. length (references_left references) < 2 ^ 64) }
    {
        let machine = file.header.pt2.machine().raw();
        let all = self.all_of(takes_rel(machine), file)?;
        Ok(References { all, machine })
    }

    /// The addresses of the packed relative relocations of the file; `None` if there is no entry
    /// with their address, DT_RELR. `section_relr` finds them by a section.
    ///
    /// Errors: `NoEntry` if there is no entry with their size, DT_RELRSZ; those of `bytes_at`; those
    /// of `Relr::new`.
    pub fn relr(&self, file: &ElfFile<'a>) -> Option<Result<Relr<'a>, LinkError>>
        ensures { IsRelr file.now (view_entries self.now) result }
    {
        let address = self.entry(DT_RELR)?;
        Some(relr_at(file, address, self.entry(DT_RELRSZ)))
    }
}

// The packed relative relocations at an address, by their size in bytes.
fn relr_at<'a>(file: &ElfFile<'a>, address: u64, size: Option<u64>) -> Result<Relr<'a>, LinkError>
    ensures { let addresses = relr_at file.now size address in MatchResult result
        (λ relr. addresses ≡ Ok (relr_rest relr)) (λ error. addresses ≡ Err error) }
{
    let Some(size) = size else {
        return Err(LinkError::NoEntry);
    };
    let bytes = bytes_at(file, address, size)?;
    Relr::new(bytes, file.header.pt1.class(), file.byte_order())
}

impl Iterator for AllRelocations<'_> {
    type Item = Reference;

    ghost next_gives = { YieldsFirst all_left };

    ghost remaining = { item_count all_left };

    #[tactic(auto, using(crate::proofs::ReferenceItems::begins, crate::proofs::ReferenceItems::goes_on))]
    fn next(&mut self) -> Option<Reference> {
        if let Some(relocation) = self.rela.next() {
            return Some(relocation);
        }
        if let Some(relocation) = self.rel.next() {
            return Some(relocation);
        }
        self.plt.next()
    }
}

impl Iterator for TableRelocations<'_> {
    type Item = Reference;

    ghost next_gives = { YieldsFirst table_left };

    ghost remaining = { item_count table_left };

    #[inline(always)]
    fn next(&mut self) -> Option<Reference> {
        self.rest.next()
    }
}

impl Iterator for References<'_> {
    type Item = Reference;

    ghost next_gives = { YieldsFirst references_left };

    ghost remaining = { item_count references_left };

    #[tactic(auto, using(crate::proofs::ReferenceItems::named_none, crate::proofs::ReferenceItems::named_first, crate::proofs::ReferenceItems::named_other))]
    fn next(&mut self) -> Option<Reference> {
        loop {
            let relocation = self.all.next()?;
            if names_symbol(self.machine, &relocation) {
                return Some(relocation);
            }
        }
    }
}

// Whether files for a machine can have relocations without addends.
fn takes_rel(machine: u16) -> bool
    ensures { result ≡ takes_rel machine }
{
    !matches!(machine, EM_X86_64 | EM_AARCH64)
}

// Whether a relocation in a file for a machine names a symbol.
fn names_symbol(machine: u16, relocation: &Reference) -> bool
    ensures { result ≡ names_symbol machine relocation.now }
{
    relocation.symbol != 0 && row_of(machine, relocation.kind).names
}
