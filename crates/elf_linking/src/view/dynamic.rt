//! The dynamic segment of a file, and its entries (gABI, "Dynamic Section").

ghost use Rattle.std.specs.Prelude.{◌≡◌, ◌<◌, ◌^◌, Ok, Err, IfOk, MatchResult, length, map};
ghost use Rattle.elf_linking.specs.DynamicView.{LiesAsFileStrings, LiesAsStrings, entries_left};
ghost use Rattle.elf_linking.specs.DynamicView.{strings_by, dynamic_segment_of, dynamic_strings_of};
ghost use Rattle.elf_linking.specs.DynamicView.{LiesAsDynamic, dynamic_bytes_of, number_with};
ghost use Rattle.elf_linking.specs.DynamicView.{pairs_of, until_null};
ghost use Rattle.elf_linking.specs.Loaded.{lent};
ghost use Rattle.elf_linking.specs.declared.view.tags.TheConstants.{DT_RPATH};
ghost use Rattle.elf_linking.specs.declared.view.tags.TheConstants.{DT_RUNPATH, DT_SONAME};

use crate::LinkError;
use crate::segments::{Segment, Segments};
use crate::view::entries::{DynamicEntries, Pairs};
use crate::view::last_numbers::Entries;
use crate::view::loaded::bytes_at;
use crate::view::needed::{Needed, text_by};
use crate::view::needed_bytes::NeededBytes;
use crate::view::tags::{
    DT_FLAGS, DT_RPATH, DT_RUNPATH, DT_SONAME, DT_STRSZ, DT_STRTAB, DT_SYMBOLIC,
};
use xmas_elf::ElfFile;

/// The dynamic segment of a file, read without section headers.
#[derive(Clone, Copy, Debug)]
pub struct DynamicView<'a> {
    entries: Entries<'a>,
    strings: Result<&'a [u8], LinkError>,
}

const PT_DYNAMIC: u32 = 2;

/// The dynamic segment: as in glibc, the last of type Dynamic.
#[tactic(auto, unfolding(crate::specs::DynamicView::dynamic_segment_of), using(crate::proofs::Lasts::last_none, crate::proofs::Lasts::last_hit, crate::proofs::Lasts::last_other))]
pub fn dynamic_segment(file: &ElfFile<'_>) -> Option<Segment>
    ensures { result ≡ dynamic_segment_of file.now }
{
    let mut found = None;
    for segment in Segments::of(file) {
        if segment.kind == PT_DYNAMIC {
            found = Some(segment);
        }
    }
    found
}

/// The bytes of the dynamic segment, at its address, which live as long as the input.
///
/// Errors: `NoDynamic` if there is no such segment, or if it has no bytes in the file (p_filesz 0);
/// those of `bytes_at` for its bytes.
#[tactic(auto, unfolding(crate::specs::DynamicView::dynamic_bytes_of))]
pub fn dynamic_bytes<'a>(file: &ElfFile<'a>) -> Result<&'a [u8], LinkError>
    ensures exact { lent result ≡ dynamic_bytes_of file.now }
    ensures place { IfOk result (LiesAsDynamic file.now) }
{
    let Some(segment) = dynamic_segment(file) else {
        return Err(LinkError::NoDynamic);
    };
    if segment.file_size == 0 {
        return Err(LinkError::NoDynamic);
    }
    bytes_at(file, segment.address, segment.file_size)
}

impl<'a> DynamicView<'a> {
    ghost use Rattle.elf_linking.specs.DynamicView.{IsTextWith, needed_left, needed_of, view_table};
    ghost use Rattle.elf_linking.specs.DynamicView.{as_linked_text, needed_bytes_of, needed_table};
    ghost use Rattle.elf_linking.specs.DynamicView.{dynamic_entries_of, needed_bytes_left};
    ghost use Rattle.elf_linking.specs.DynamicView.{is_symbolic, view_entries, view_strings};

    /// Reads the result of `dynamic_bytes`. The entries end before the first with tag Null, or at the
    /// end of the segment.
    ///
    /// Errors: those of `dynamic_bytes`; `Elf` with `UnknownClass` if the class is neither 1 nor 2, and
    /// `NotMultiple` if the segment is no whole number of entries.
    #[tactic(auto, unfolding(crate::specs::DynamicView::dynamic_entries_of))]
    pub fn read(file: &ElfFile<'a>) -> Result<DynamicView<'a>, LinkError>
        ensures exact { MatchResult result
            (λ view. (dynamic_entries_of file.now ≡ Ok (view_entries view))
            × (view_strings view ≡ strings_by file.now (view_entries view)))
            (λ error. dynamic_entries_of file.now ≡ Err error) }
        ensures place { IfOk result (λ view.
            IfOk (view_table view) (LiesAsStrings file.now (view_entries view))) }
    {
        let entries = Entries::new(Pairs::new(dynamic_bytes(file)?, file)?);
        let strings = strings_by(file, &entries);
        Ok(DynamicView { entries, strings })
    }

    /// An iterator over the entries, in order.
    pub fn entries(&self) -> DynamicEntries<'a>
        ensures items { entries_left result ≡ view_entries self.now }
        ensures fits { length (entries_left result) < 2 ^ 64 }
    {
        self.entries.iter()
    }

    /// The number in the last entry with this tag.
    pub fn entry(&self, tag: u64) -> Option<u64>
        ensures { result ≡ number_with tag (view_entries self.now) }
    {
        self.entries.number(tag)
    }

    /// An iterator over the names of the needed libraries, in order.
    pub fn needed(&self) -> Needed<'a>
        ensures items { needed_left result ≡ needed_of self.now }
        ensures fits { length (needed_left result) < 2 ^ 64 }
    {
        Needed::new(self.entries(), self.strings)
    }

    /// An iterator over the names of the needed libraries as bytes, in order: the texts of `needed`,
    /// where these are Ok. `NeededBytes::next` says where a name is in the string table.
    #[tactic(auto, using(crate::proofs::NeededTexts::needed_texts))]
    pub fn needed_bytes(&self) -> NeededBytes<'a>
        ensures items { needed_bytes_left result ≡ needed_bytes_of self.now }
        ensures texts { needed_of self.now ≡ map as_linked_text (needed_bytes_left result) }
        ensures table { needed_table result ≡ view_table self.now }
        ensures fits { length (needed_bytes_left result) < 2 ^ 64 }
    {
        NeededBytes::new(self.entries(), self.strings)
    }

    /// Whether references of the file are bound within it first: it has the entry Symbolic, or the
    /// flag 2 (DF_SYMBOLIC) in the entry Flags.
    pub fn is_symbolic(&self) -> bool
        ensures { result ≡ is_symbolic (view_entries self.now) }
    {
        if self.entry(DT_SYMBOLIC).is_some() {
            return true;
        }
        match self.entry(DT_FLAGS) {
            Some(flags) => flags / 2 % 2 == 1,
            None => false,
        }
    }

    /// The name of the file as a library (DT_SONAME); the errors are those of the items of
    /// `needed`.
    pub fn soname(&self) -> Option<Result<&'a str, LinkError>>
        ensures { IsTextWith self.now DT_SONAME result }
    {
        self.text_with(DT_SONAME)
    }

    /// The library search path (DT_RUNPATH); the errors are those of the items of `needed`.
    pub fn run_path(&self) -> Option<Result<&'a str, LinkError>>
        ensures { IsTextWith self.now DT_RUNPATH result }
    {
        self.text_with(DT_RUNPATH)
    }

    /// The library search path of older files (DT_RPATH); the errors are those of the items of
    /// `needed`.
    pub fn r_path(&self) -> Option<Result<&'a str, LinkError>>
        ensures { IsTextWith self.now DT_RPATH result }
    {
        self.text_with(DT_RPATH)
    }

    /// The string table; the errors are those of `view::strings` once the entries are read.
    pub fn strings(&self) -> Result<&'a [u8], LinkError>
        ensures table { result ≡ view_table self.now }
        ensures value { lent result ≡ view_strings self.now }
    {
        self.strings
    }

    // The text at the offset in the last entry with this tag.
    fn text_with(&self, tag: u64) -> Option<Result<&'a str, LinkError>>
        ensures { IsTextWith self.now tag result }
    {
        match self.entries.number(tag) {
            Some(number) => Some(text_by(self.strings, number)),
            None => None,
        }
    }
}

// The bytes of the string table, by its address and its size.
fn strings_by<'a>(file: &ElfFile<'a>, entries: &Entries<'a>) -> Result<&'a [u8], LinkError>
    ensures exact { lent result ≡ strings_by file.now (until_null (pairs_of entries.now.pairs)) }
    ensures place { IfOk result (LiesAsStrings file.now (until_null (pairs_of entries.now.pairs))) }
{
    let Some(address) = entries.number(DT_STRTAB) else {
        return Err(LinkError::NoEntry);
    };
    let Some(size) = entries.number(DT_STRSZ) else {
        return Err(LinkError::NoEntry);
    };
    bytes_at(file, address, size)
}

/// The string table of the dynamic segment: the bytes at its entries StrTab and StrSize.
///
/// Errors: those of `DynamicView::read`; `NoEntry` if one of the two entries is missing; those of
/// `bytes_at`.
#[tactic(auto, unfolding(crate::specs::DynamicView::dynamic_strings_of))]
pub fn strings<'a>(file: &ElfFile<'a>) -> Result<&'a [u8], LinkError>
    ensures exact { lent result ≡ dynamic_strings_of file.now }
    ensures place { IfOk result (LiesAsFileStrings file.now) }
{
    DynamicView::read(file)?.strings
}
