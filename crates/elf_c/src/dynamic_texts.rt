//! Texts that entries of the dynamic segment name, such as the needed libraries
//! (gABI, "Dynamic Section": DT_NEEDED, DT_SONAME and DT_RUNPATH).

ghost use Rattle.std.specs.Prelude.{◌≡◌, IfOk};
ghost use Rattle.elf_c.specs.Batch.{Fills, Stores};
ghost use Rattle.elf_c.specs.DynamicTexts.{dynamic_text_at, linked_name, range_in_strings};
ghost use Rattle.elf_c.specs.DynamicTexts.{strings_range, texts_with};
ghost use Rattle.elf_c.specs.Parsed.{file_of};
ghost use Rattle.elf_c.specs.Records.{AllLieIn};
ghost use Rattle.elf_linking.specs.DynamicView.{entries_left, view_entries};

use crate::addresses::range_at;
use crate::batch::{Sequence, fill_in_order};
use crate::file::Parsed;
use crate::names::{Name, Range, text_in};
use crate::status::{AnyError, Numbered, OK, give};
use elf_linking::LinkError;
use elf_linking::view::{DT_STRSZ, DT_STRTAB, DynamicEntries, DynamicView};
use xmas_elf::ElfFile;

// The range of the string table of the dynamic segment.
pub(crate) fn strings_of(file: &ElfFile<'_>, view: &DynamicView<'_>) -> Result<Range, AnyError>
    ensures { result ≡ strings_range file.now (view_entries view.now) }
{
    match (view.entry(DT_STRTAB), view.entry(DT_STRSZ)) {
        (Some(address), Some(size)) => range_at(file, address, size),
        _ => Err(AnyError::Link(LinkError::NoEntry)),
    }
}

// The range of the text at an offset in a string table, which may be an error.
pub(crate) fn text_by(
    input: &[u8],
    strings: Result<Range, AnyError>,
    place: u64,
) -> Result<Range, AnyError>
    ensures { result ≡ range_in_strings input.now strings place }
{
    Ok(text_in(input, &strings?, place)?)
}

// The record for the range of a name, or for its error.
pub(crate) fn name_of(answer: Result<Range, AnyError>) -> Name
    ensures { result ≡ linked_name answer }
{
    match answer {
        Ok(range) => Name { range, status: OK },
        Err(error) => Name {
            range: Range { offset: 0, size: 0 },
            status: error.number(),
        },
    }
}

// The texts at the offsets in the remaining entries with a tag.
#[derive(Drop)]
struct Texts<'a> {
    tag: u64,
    entries: DynamicEntries<'a>,
    strings: Result<Range, AnyError>,
    input: &'a [u8],
}

impl Sequence for Texts<'_> {
    type Record = Name;

    ghost left = { λ texts.
        texts_with texts.tag texts.input.now texts.strings (entries_left texts.entries) };

    #[tactic(auto, using(crate::proofs::DynamicTexts::texts_none, crate::proofs::DynamicTexts::texts_first, crate::proofs::DynamicTexts::texts_other))]
    fn next(&mut self) -> Option<Name> {
        loop {
            let entry = self.entries.next()?;
            if entry.raw_tag() == self.tag {
                return Some(name_of(text_by(self.input, self.strings, entry.raw_val())));
            }
        }
    }
}

// Stores the texts of the entries with a tag from an index on in `out`, and returns their number.
fn fill_texts(file: &ElfFile<'_>, tag: u64, first: u64, out: &mut [Name]) -> Result<u64, AnyError>
    ensures exact { Fills (dynamic_text_at file.now tag) first out.old result out.new }
    ensures within { IfOk result (λ count. AllLieIn file.now.input.now count out.new) }
{
    let view = DynamicView::read(file)?;
    let texts = Texts {
        tag,
        entries: view.entries(),
        strings: strings_of(file, &view),
        input: file.input,
    };
    fill_in_order(texts, first, out)
}

/// The input ranges of the texts at the offsets in the entries of the dynamic segment with this tag,
/// from index `first` of them on, in the order of the entries, each with its own status: as many as
/// fit in `out`, or all. `count` is set to their number; the rest of `out` is unchanged. It needs no
/// section headers.
///
/// For tag 1 (DT_NEEDED) they are the names of the needed libraries, for tag 14 (DT_SONAME) that of the
/// library, for tag 29 (DT_RUNPATH) the library search path, and for tag 15 (DT_RPATH) that of older
/// files.
///
/// Errors of a text: `NoEntry` if there is no entry DT_STRTAB or DT_STRSZ; those of
/// `xmas_elf_bytes_at` for the string table; those of `bytes::text_at`. Errors of the call: those of
/// `DynamicView::read`; `NoRecord` if there are no more than `first` entries with the tag; `out` and
/// `count` are then unchanged.
#[unsafe(no_mangle)]
pub extern "C" fn xmas_elf_dynamic_texts(
    input: &[u8],
    header: &Parsed,
    tag: u64,
    first: u64,
    out: &mut [Name],
    count: &mut u64,
) -> u32
    ensures exact { Stores (dynamic_text_at (file_of input.entry header.now) tag)
        first out.old out.new count.old result count.new }
    ensures within { result ≡ 0 → AllLieIn input.now count.new out.new }
{
    give(fill_texts(&header.file(input), tag, first, out), count)
}
