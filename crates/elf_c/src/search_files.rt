//! What a file says about the search for its libraries, and whether it can be one (gABI, "Dynamic
//! Section" and "ELF Header"; what decides is `ld.so` of glibc 2.36).

ghost use Rattle.std.specs.Prelude.{◌≡◌};
ghost use Rattle.elf_c.specs.Batch.{Fills, Stores};
ghost use Rattle.elf_c.specs.LoadPlans.{default_limit, loader_of, page_of};
ghost use Rattle.elf_c.specs.Parsed.{file_of};
ghost use Rattle.elf_c.specs.SearchFiles.{fit_answer, last_entry_of, last_text_range};
ghost use Rattle.elf_c.specs.SearchFiles.{library_of, needed_kind, needed_name_at, needed_rows};
ghost use Rattle.elf_c.specs.Status.{GivesBy, GivesHere};
ghost use Rattle.elf_linking.specs.DynamicView.{entries_left};
ghost use Rattle.elf_loading.specs.LoaderCheck.{check_by};
ghost use Rattle.elf_loading.specs.Message.{load_number};
ghost use Rattle.elf_search.specs.Fits.{search_fit};

use crate::batch::{Sequence, fill_in_order};
use crate::dynamic_texts::{name_of, strings_of, text_by};
use crate::file::Parsed;
use crate::load_plans::{limit_of, loader_of, page_of};
use crate::names::Range;
use crate::status::{AnyError, give};
use elf_linking::view::{DT_AUXILIARY, DT_FILTER, DT_NEEDED, DynamicEntries, DynamicView};
use elf_loading::LoadPlan;
use elf_search::fits::{Fit, fits};
use elf_search::library::{check_library, check_shared};
use elf_search::names::last_entry;
use xmas_elf::ElfFile;

/// An object needs the library (DT_NEEDED).
pub const NEEDED: u32 = 1;
/// The library is searched before the object, if there is one (DT_AUXILIARY).
pub const AUXILIARY: u32 = 2;
/// The library is searched in place of the object (DT_FILTER).
pub const FILTER: u32 = 3;

/// A file is for another program.
pub const PASSED_OVER: u32 = 0;
/// A file is taken.
pub const TAKEN: u32 = 1;

/// A name that an object asks for, as numbers.
#[repr(C)]
#[derive(Clone, Copy, Debug)]
pub struct NeededName {
    /// The range of the name with its tokens, without its zero byte; empty and at 0 if there is an error.
    pub range: Range,
    /// 0, or the number of the error for this name.
    pub status: u32,
    /// What the object asks for: `NEEDED`, `AUXILIARY` or `FILTER`.
    pub kind: u32,
}

// What an entry with this tag asks for, if it asks for a library.
fn needed_kind(tag: u64) -> Option<u32>
    ensures { result ≡ needed_kind tag }
{
    match tag {
        DT_NEEDED => Some(NEEDED),
        DT_AUXILIARY => Some(AUXILIARY),
        DT_FILTER => Some(FILTER),
        _ => None,
    }
}

// The names that the remaining entries ask for.
#[derive(Drop)]
struct NeededList<'a> {
    entries: DynamicEntries<'a>,
    strings: Result<Range, AnyError>,
    input: &'a [u8],
}

impl Sequence for NeededList<'_> {
    type Record = NeededName;

    ghost left = { λ list. needed_rows list.input.now list.strings (entries_left list.entries) };

    #[tactic(auto, using(crate::proofs::SearchFiles::needed_none, crate::proofs::SearchFiles::needed_first, crate::proofs::SearchFiles::needed_other))]
    fn next(&mut self) -> Option<NeededName> {
        loop {
            let entry = self.entries.next()?;
            if let Some(kind) = needed_kind(entry.raw_tag()) {
                let name = name_of(text_by(self.input, self.strings, entry.raw_val()));
                return Some(NeededName {
                    range: name.range,
                    status: name.status,
                    kind,
                });
            }
        }
    }
}

// Stores the names that a file asks for from an index on in `out`, and returns their number.
fn fill_needed(file: &ElfFile<'_>, first: u64, out: &mut [NeededName]) -> Result<u64, AnyError>
    ensures { Fills (needed_name_at file.now) first out.old result out.new }
{
    let view = DynamicView::read(file)?;
    let names = NeededList {
        entries: view.entries(),
        strings: strings_of(file, &view),
        input: file.input,
    };
    fill_in_order(names, first, out)
}

/// The names of the libraries that a file asks for from index `first` on, in the order of their entries
/// (DT_NEEDED, DT_AUXILIARY, DT_FILTER): as many as fit in `out`, or all. `count` is set to their number;
/// the rest of `out` is unchanged. They are those of `elf_search::names::needed_names` with the input
/// ranges of the texts of `xmas_elf_dynamic_texts`, whose errors each has.
#[unsafe(no_mangle)]
pub extern "C" fn xmas_elf_needed_names(
    input: &[u8],
    header: &Parsed,
    first: u64,
    out: &mut [NeededName],
    count: &mut u64,
) -> u32
    ensures { Stores (needed_name_at (file_of input.entry header.now))
        first out.old out.new count.old result count.new }
{
    give(fill_needed(&header.file(input), first, out), count)
}

// The number in the last entry of a file with a tag.
fn last_entry_of(file: &ElfFile<'_>, tag: u64) -> Result<u64, AnyError>
    ensures { result ≡ last_entry_of file.now tag }
{
    let view = DynamicView::read(file)?;
    match last_entry(&view, tag) {
        Some(value) => Ok(value),
        None => Err(AnyError::NotFound),
    }
}

/// The number in the last entry of the dynamic segment with a tag, as
/// `elf_search::names::last_entry` finds it: `ld.so` reads the last of DT_SONAME, DT_RPATH, DT_RUNPATH
/// and DT_FLAGS_1. Errors: those of `DynamicView::read`; `NotFound` if there is none.
#[unsafe(no_mangle)]
pub extern "C" fn xmas_elf_last_entry(input: &[u8], header: &Parsed, tag: u64, out: &mut u64) -> u32
    ensures { GivesHere (last_entry_of (file_of input.entry header.now) tag) out.old result out.new }
{
    give(last_entry_of(&header.file(input), tag), out)
}

// The range of the text at the number in the last entry with a tag.
fn last_text_range(file: &ElfFile<'_>, tag: u64) -> Result<Range, AnyError>
    ensures { result ≡ last_text_range file.now tag }
{
    let view = DynamicView::read(file)?;
    match last_entry(&view, tag) {
        Some(place) => text_by(file.input, strings_of(file, &view), place),
        None => Err(AnyError::NotFound),
    }
}

/// The range of the text that the entry of `xmas_elf_last_entry` names: a DT_SONAME, DT_RPATH or
/// DT_RUNPATH. Errors: those of that call; those of a text of `xmas_elf_dynamic_texts`.
#[unsafe(no_mangle)]
pub extern "C" fn xmas_elf_last_text(
    input: &[u8],
    header: &Parsed,
    tag: u64,
    out: &mut Range,
) -> u32
    ensures { GivesHere (last_text_range (file_of input.entry header.now) tag) out.old result out.new }
{
    give(last_text_range(&header.file(input), tag), out)
}

// Whether a file with these first bytes is taken, as a number.
fn fit_answer(head: &[u8], len: u64, class: u8, machine: u16) -> Result<u32, AnyError>
    ensures { result ≡ fit_answer (search_fit class machine len head.now) }
{
    match fits(head, len, class, machine)? {
        Fit::Taken => Ok(TAKEN),
        Fit::PassedOver => Ok(PASSED_OVER),
    }
}

/// Whether the file with these first bytes is the library that a program of this class (1 for 32 bits, 2
/// for 64) and this machine looks for: `out` is set to `TAKEN` or `PASSED_OVER`. `head` are the first 64
/// bytes of the file or more, or all that it has, and `len` is the number of its bytes. The errors are
/// those of `elf_search::fits::fits`, with which `ld.so` ends the program.
#[unsafe(no_mangle)]
pub extern "C" fn xmas_elf_fits(
    head: &[u8],
    len: u64,
    file_class: u8,
    machine: u16,
    out: &mut u32,
) -> u32
    ensures { GivesHere (fit_answer (search_fit file_class machine len head.now)) out.old result out.new }
{
    give(fit_answer(head, len, file_class, machine), out)
}

// Why a file that is taken can't be loaded as a library.
fn check_taken(file: &ElfFile<'_>) -> Result<(), AnyError>
    ensures { result ≡ library_of file.now }
{
    check_library(file)?;
    let view = DynamicView::read(file)?;
    check_shared(&view)?;
    Ok(())
}

/// Whether a file that `xmas_elf_fits` takes has what a library must have. Errors: those of
/// `elf_search::library::check_library`, of `DynamicView::read` and of
/// `elf_search::library::check_shared`.
#[unsafe(no_mangle)]
pub extern "C" fn xmas_elf_check_library(input: &[u8], header: &Parsed) -> u32
    ensures { GivesHere (library_of (file_of input.entry header.now)) tt result tt }
{
    give(check_taken(&header.file(input)), &mut ())
}

/// Whether one loader maps a file: `loader` is 1 for glibc, which maps libraries, and any other number for
/// Linux, which maps a program. `page` and `limit` are as in `xmas_elf_load_plan`. The errors are those of
/// `elf_loading::LoadPlan::check_load_by`.
#[unsafe(no_mangle)]
pub extern "C" fn xmas_elf_check_load(
    input: &[u8],
    header: &Parsed,
    page: u64,
    limit: u64,
    loader: u32,
) -> u32
    ensures { let file = file_of input.entry header.now in GivesBy load_number
        (check_by (loader_of loader) (page_of page) (default_limit file limit) file) tt result tt }
{
    let file = header.file(input);
    let limit = limit_of(&file, limit);
    give(
        LoadPlan::check_load_by(&file, page_of(page), limit, loader_of(loader)),
        &mut (),
    )
}
