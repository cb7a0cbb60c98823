//! The section header table, prepared for repeated access
//! (gABI, "Sections": the section header table).

ghost use Rattle.std.specs.Prelude.{◌≡◌, ◌+◌, ◌^◌, ◌<◌, ◌≤◌, ◌∷◌, [], drop, length, slice_get};
ghost use Rattle.std.specs.Prelude.{Err, IfOk, MatchOption, Ok, ℕ};
ghost use Rattle.std.specs.Result.{ForErr, ForOk};
ghost use Rattle.std.specs.Iterator.{YieldsFirst, item_count};
ghost use Rattle.elf_base.specs.FileHeader.{file_class, file_order, header_fields};
ghost use Rattle.elf_base.specs.Lent.{Answers, IfPart};
ghost use Rattle.elf_base.specs.Text.{lent_text};
ghost use Rattle.xmas_elf.specs.SectionHeader.{HasSectionEntry, section_at_index, section_at_place};
ghost use Rattle.xmas_elf.specs.SectionHeader.{section_count_of, section_header_size, section_list};
ghost use Rattle.xmas_elf.specs.SectionHeader.{section_fields, section_of};
ghost use Rattle.xmas_elf.specs.First.{FindsFirstAt};
ghost use Rattle.xmas_elf.specs.HeaderTable.{IsLaidOut, IsLongest};
ghost use Rattle.xmas_elf.specs.NameTable.{HasName, HasNameBytes, FindsNamed, IsNameTable};
ghost use Rattle.xmas_elf.specs.NameTable.{LiesAsNameTable, name_bytes_of, name_of};
ghost use Rattle.xmas_elf.specs.NameTable.{name_table_of, section_named};

use crate::bytes::{Order, Record, bytes_up_to_zero, text_at};
use crate::header::Class::{SixtyFour, ThirtyTwo};
use crate::ranges::entries_within;
use crate::sections::{SectionHeader, SectionHeader_, ShType, section_at_place};
use crate::{ElfError, ElfFile, P32, P64};

/// The section headers of a file, for repeated access: their place, class and byte order are
/// determined once, and so is the name table.
///
/// The table borrows the file, and each call decodes the header that it returns.
#[derive(Clone, Copy, Debug)]
pub struct SectionTable<'b, 'a> {
    pub(crate) file: &'b ElfFile<'a>,
    pub(crate) names: Result<&'a [u8], ElfError>,
    pub(crate) offset: usize,
    pub(crate) entry_size: usize,
    pub(crate) len: usize,
    pub(crate) class: u8,
    pub(crate) order: Order,
    ghost counted: { len ≡ length (section_list file.now) },
    ghost named: { ForOk names (λ table. name_table_of file.now ≡ Ok table.now) },
    ghost nameless: { ForErr names (λ error. name_table_of file.now ≡ Err error) },
    ghost laid: { IsLaidOut (section_of file.now)
        (λ place. section_at_place class order place file.now.input.now) offset entry_size
        (section_header_size class) len (length file.now.input.now) },
}

impl<'a> ElfFile<'a> {
    ghost use Rattle.xmas_elf.specs.SectionTable.{section_table_file, section_table_names};
    ghost use Rattle.xmas_elf.specs.SectionTable.{table_sections};

    /// The section headers for repeated access: those of `section_iter`.
    #[inline(always)]
    pub fn section_table(&self) -> SectionTable<'_, 'a>
        ensures file { section_table_file result ≡ self.now }
        ensures names { IfOk (section_table_names result) (LiesAsNameTable self.now) }
        ensures longest { IsLongest (section_of self.now) (section_count_of self.now)
            (table_sections result) }
    {
        SectionTable {
            file: self,
            names: self.name_table(),
            offset: self.header.pt2.sh_offset() as usize,
            entry_size: usize::from(self.header.pt2.sh_entry_size()),
            len: whole_sections(self),
            class: self.header.pt1.class.raw(),
            order: self.byte_order(),
        }
    }
}

// The number of section headers that lie within the input and are large enough, from index 0 on.
#[inline(always)]
fn whole_sections(file: &ElfFile<'_>) -> usize
    ensures few { result ≤ section_count_of file.now }
    ensures each { (i : ℕ) → i < result
        → HasSectionEntry file.now.input.now file.now.header i }
    ensures most { result < section_count_of file.now
        → ¬ HasSectionEntry file.now.input.now file.now.header result }
{
    let offset = file.header.pt2.sh_offset();
    let entry_size = file.header.pt2.sh_entry_size();
    let least = match file.header.pt1.class() {
        ThirtyTwo => SectionHeader_::<P32>::SIZE,
        SixtyFour => SectionHeader_::<P64>::SIZE,
        _ => return 0,
    };
    if usize::from(entry_size) < least {
        return 0;
    }
    let count = file.section_count();
    entries_within(file.input, offset, entry_size, count)
}

impl<'b, 'a> SectionTable<'b, 'a> {
    ghost use Rattle.xmas_elf.specs.SectionTable.{LiesInNames, section_table_file};
    ghost use Rattle.xmas_elf.specs.SectionTable.{section_table_names, table_sections};
    ghost use Rattle.xmas_elf.specs.SectionTable.{table_sections_rest};

    /// The number of section headers.
    #[inline(always)]
    pub fn len(&self) -> usize
        ensures { result ≡ length (table_sections self.now) }
    {
        self.len
    }

    /// The section header at `index`, or `None` if `index` is `len` or more.
    #[inline(always)]
    pub fn get(&self, index: usize) -> Option<SectionHeader>
        ensures item { result ≡ slice_get (table_sections self.now) index }
        ensures value { MatchOption result (length (table_sections self.now) ≤ index)
            (λ section. (index < length (table_sections self.now)) × (section
            ≡ section_at_index
            (section_table_file self.now).input.now (section_table_file self.now).header index)) }
    {
        if index >= self.len {
            return None;
        }
        let place = self.offset + index * self.entry_size;
        Some(section_at_place(self.file.input, place, self.class, self.order))
    }

    /// The name of a section, as in `SectionHeader::get_name`.
    #[tactic(auto, unfolding(crate::specs::NameTable::name_of, crate::specs::NameTable::shstr_of))]
    #[inline(always)]
    pub fn name_of(&self, section: &SectionHeader) -> Result<&'a str, ElfError>
        ensures name { IfPart (HasName (section_table_file self.now) section.now) result }
        ensures exact { Answers (name_of (section_table_file self.now) section.now) result }
    {
        match section.get_type()? {
            ShType::Null => Err(ElfError::NullName),
            _ => text_at(self.name_table()?, section.name() as usize),
        }
    }

    /// The bytes of a section's name, as in `SectionHeader::name_bytes`.
    #[tactic(auto, unfolding(crate::specs::NameTable::name_bytes_of, crate::specs::NameTable::name_of, crate::specs::NameTable::shstr_bytes_of, crate::specs::NameTable::shstr_of))]
    #[inline(always)]
    pub fn name_bytes_of(&self, section: &SectionHeader) -> Result<&'a [u8], ElfError>
        ensures bytes { IfPart (HasNameBytes (section_table_file self.now) section.now) result }
        ensures place { LiesInNames self.now (section_fields section.now).name result }
        ensures as_text { name_of (section_table_file self.now) section.now ≡ lent_text result }
        ensures exact { Answers (name_bytes_of (section_table_file self.now) section.now) result }
    {
        match section.get_type()? {
            ShType::Null => Err(ElfError::NullName),
            _ => bytes_up_to_zero(self.name_table()?, section.name() as usize),
        }
    }

    // The name table, or the error for it. A function by itself: its proof turns the ghost fields
    // `named` and `nameless` into the clauses by which `name_of`, `name_bytes_of` and
    // `position_of_name` prove theirs.
    #[inline(always)]
    fn name_table(&self) -> Result<&'a [u8], ElfError>
        ensures table { IfPart (IsNameTable (section_table_file self.now)) result }
        ensures same { result ≡ section_table_names self.now }
        ensures exact { Answers (name_table_of (section_table_file self.now)) result }
    {
        self.names
    }

    /// The first section with this name, as in `ElfFile::find_section_by_name`.
    #[inline(always)]
    pub fn find_by_name(&self, name: &str) -> Option<SectionHeader>
        ensures list { FindsNamed (section_table_file self.now) name.now result }
        ensures exact { result ≡ section_named (section_table_file self.now) name.now }
    {
        // A header is decoded whole only when it is found.
        let position = self.position_of_name(name)?;
        self.get(position)
    }

    // The index of the first section with this name.
    #[inline(always)]
    fn position_of_name(&self, name: &str) -> Option<usize>
        ensures { FindsFirstAt (λ section. HasName (section_table_file self.now) section name.now)
            (table_sections self.now) result }
    {
        let Ok(names) = self.name_table() else {
            return None;
        };
        self.iter()
            .position(|section| section.has_name(names, name))
    }

    // The section header at `index`, and the next index.
    #[inline(always)]
    fn step(&self, index: usize) -> Option<(SectionHeader, usize)>
        ensures { MatchOption result (drop index (table_sections self.now) ≡ [])
            (λ step. drop index (table_sections self.now)
            ≡ step.0 ∷ drop step.1 (table_sections self.now)) }
    {
        let section = self.get(index)?;
        // This tells the proof that the sum is a number of 64 bits.
        prove!(index < self.len());
        Some((section, index + 1))
    }

    /// An iterator over the section headers, in order.
    #[inline(always)]
    pub fn iter(&self) -> SectionTableIter<'b, 'a>
        ensures all { table_sections_rest result ≡ table_sections self.now }
        ensures fits { length (table_sections_rest result) < 2 ^ 64 }
    {
        // This tells the proof of `fits` that the length is a number of 64 bits.
        let _count = self.len();
        SectionTableIter {
            table: *self,
            next_index: 0,
        }
    }
}

/// An iterator over the section headers of a table, in order.
#[derive(Clone, Debug, Drop)]
pub struct SectionTableIter<'b, 'a> {
    table: SectionTable<'b, 'a>,
    next_index: usize,
}

impl Iterator for SectionTableIter<'_, '_> {
    ghost use Rattle.xmas_elf.specs.SectionTable.{table_sections_rest};

    type Item = SectionHeader;

    ghost next_gives = { YieldsFirst table_sections_rest };

    ghost remaining = { item_count table_sections_rest };

    #[inline(always)]
    fn next(&mut self) -> Option<SectionHeader> {
        let (section, next_index) = self.table.step(self.next_index)?;
        self.next_index = next_index;
        Some(section)
    }
}
