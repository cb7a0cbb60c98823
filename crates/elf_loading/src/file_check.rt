//! Whether a file can be loaded.

ghost use Rattle.std.specs.Prelude.{◌≡◌, ◌≤◌, ◌<◌, ◌+◌, nat_lt, length};
ghost use Rattle.std.specs.Prelude.{Err, IfOk, MatchResult, Ok, true, ◌==◌};
ghost use Rattle.elf_base.specs.FileHeader.{file_class};
ghost use Rattle.elf_base.specs.FirstError.{unless};
ghost use Rattle.elf_loading.specs.FileCheck.{check_file, header_rows, is_entry_past, kind_of};
ghost use Rattle.elf_loading.specs.FileCheck.{segment_rows};
ghost use Rattle.elf_loading.specs.LoadPass.{IsPassOf, is_elsewhere, is_past_covered};
ghost use Rattle.elf_loading.specs.LoadPass.{is_wrong_path, is_wrong_template, wanted_of};
ghost use Rattle.elf_loading.specs.Loads.{loads_left};
ghost use Rattle.elf_loading.specs.Others.{AreOthersOf};
ghost use Rattle.elf_linking.specs.Segments.{segment_size, table_size};
ghost use Rattle.elf_loading.specs.Segments.{loads_of};
ghost use Rattle.elf_loading.specs.Spans.{first_start};

use crate::LoadError;
use crate::load_pass::{Pass, Wanted, pass_loads};
use crate::loads::Loads;
use crate::pages::end_down;
use crate::plan::Tls;
use crate::segments::{Extent, Others, Sorted, sort};
use crate::span::Span;
use elf_linking::{Segment, Segments};
use xmas_elf::ElfFile;
use xmas_elf::header::Header;

// The type of a file, as a number.
#[inline(always)]
pub(crate) fn kind_of(header: &Header) -> u16
    ensures { result ≡ kind_of header.now }
{
    header.pt2.type_().raw()
}

// The size of a program header, by the class.
#[inline(always)]
fn entry_size(header: &Header) -> u64
    ensures value { result ≡ segment_size (file_class header.now == 1) }
    ensures bound { result ≤ 56 }
{
    if header.pt1.class.raw() == 1 {
        return 32;
    }
    56
}

// The size of the program header table.
#[inline(always)]
fn table_size(header: &Header) -> u64
    ensures { result ≡ table_size header.now }
{
    u64::from(header.pt2.ph_count()) * entry_size(header)
}

// Whether `count` bytes from `start` on extend past the end of the input.
#[inline(always)]
fn is_past_end(input: &[u8], start: u64, count: u64) -> bool
    ensures { result ≡ nat_lt (length input.now) (start + count) }
{
    let len = input.len() as u64;
    count > len || start > len - count
}

// Whether the program header table can be used.
#[inline(always)]
pub(crate) fn check_header(page: u64, file: &ElfFile<'_>) -> Result<(), LoadError>
    ensures { result ≡ unless (header_rows file.now page) tt }
{
    let header = &file.header;
    let kind = kind_of(header);
    if kind != 2 && kind != 3 {
        return Err(LoadError::Type);
    }
    if u64::from(header.pt2.ph_entry_size()) != entry_size(header) {
        return Err(LoadError::EntrySize);
    }
    let size = table_size(header);
    if header.pt2.ph_count() == 0 || size > page.min(65536) {
        return Err(LoadError::Count);
    }
    if is_past_end(file.input, header.pt2.ph_offset(), size) {
        return Err(LoadError::Table);
    }
    Ok(())
}

// Whether the loads put the program header table elsewhere than PT_PHDR says, where `is_placed` says
// whether they put it there.
#[inline(always)]
fn is_misplaced(file: &ElfFile<'_>, others: &Others, is_placed: bool) -> bool
    ensures { result ≡ is_elsewhere file.now others.now is_placed }
{
    if others.phdr.is_some() {
        return !is_placed;
    }
    kind_of(&file.header) == 3 && others.interpreter.is_some()
}

// Whether the path of the interpreter is not one.
pub(crate) fn is_no_path(input: &[u8], interpreter: Option<Extent>) -> bool
    ensures { result ≡ is_wrong_path input.now interpreter }
{
    let Some(path) = interpreter else {
        return false;
    };
    let size = path.size;
    if size < 2 || size > 4096 || is_past_end(input, path.start, size) {
        return true;
    }
    input[(path.start + size - 1) as usize] != 0
}

// Whether what is read-only after relocation extends past the first page from its start on that is in
// no load.
#[inline(always)]
fn is_uncovered(page: u64, relro: Option<Extent>, covered: u64) -> bool
    requires { 0 < page }
    ensures { result ≡ is_past_covered page covered relro }
{
    let Some(relro) = relro else {
        return false;
    };
    u128::from(covered) < end_down(page, relro.start, relro.size)
}

// Whether the template of thread-local storage can't be used, where `is_held` says whether its bytes
// are in the memory of one load.
#[inline(always)]
fn is_no_template(tls: Option<Tls>, is_held: bool) -> bool
    ensures { result ≡ is_wrong_template is_held tls }
{
    let Some(tls) = tls else {
        return false;
    };
    if tls.mem_size < tls.file_size || !tls.align.is_power_of_two() {
        return true;
    }
    tls.file_size != 0 && !is_held
}

// Whether the entry point of a program without an interpreter is at a limit or past it.
#[tactic(auto, using(crate::proofs::LoadPasses::entry_is))]
#[inline(always)]
pub(crate) fn is_entry_past(limit: u64, file: &ElfFile<'_>, others: &Others) -> bool
    requires { AreOthersOf file.now others.now }
    ensures { result ≡ is_entry_past limit file.now }
{
    others.interpreter.is_none() && limit <= file.header.pt2.entry_point()
}

// Whether the segments other than loads can be used.
#[tactic(auto, using(crate::proofs::LoadPasses::elsewhere_is, crate::proofs::LoadPasses::path_is, crate::proofs::LoadPasses::uncovered_is, crate::proofs::LoadPasses::template_is))]
#[inline(always)]
fn check_segments(
    page: u64,
    limit: u64,
    file: &ElfFile<'_>,
    others: &Others,
    pass: &Pass,
) -> Result<(), LoadError>
    requires page { 0 < page }
    requires found { AreOthersOf file.now others.now }
    requires passed { IsPassOf page (wanted_of page file.now others.now) (loads_of file.now)
        pass.now }
    ensures { result ≡ unless (segment_rows file.now page limit) tt }
{
    if is_misplaced(file, others, pass.is_placed) {
        return Err(LoadError::Headers);
    }
    if is_no_path(file.input, others.interpreter) {
        return Err(LoadError::Interpreter);
    }
    if is_uncovered(page, others.relro, pass.covered) {
        return Err(LoadError::Relro);
    }
    if is_no_template(others.tls, pass.is_held) {
        return Err(LoadError::Tls);
    }
    if is_entry_past(limit, file, others) {
        return Err(LoadError::Entry);
    }
    Ok(())
}

// What a check finds of a file that can be loaded.
#[derive(Clone, Copy, Debug)]
pub(crate) struct Checked<'a> {
    pub(crate) loads: Loads<'a>,
    pub(crate) others: Others,
    // The pages from the first load to the last.
    pub(crate) span: Span,
}

// What is found of a file whose program header table can be used, or the first reason why it can't be
// loaded.
#[tactic(auto, unfolding(crate::specs::FileCheck::check_file), using(crate::proofs::LoadPasses::passed_in, crate::proofs::Others::others_in))]
#[inline(always)]
fn check_table<'a>(page: u64, limit: u64, file: &ElfFile<'a>) -> Result<Checked<'a>, LoadError>
    requires page { 0 < page }
    requires header { unless (header_rows file.now page) (tt {0}) ≡ Ok (tt {0}) }
    ensures checked { MatchResult result
        (λ found. check_file file.now page limit ≡ Ok found.span.end)
        (λ error. check_file file.now page limit ≡ Err error) }
    ensures start { IfOk result (λ found. found.span.start ≡ first_start page (loads_of file.now)) }
    ensures others { IfOk result (λ found. AreOthersOf file.now found.others) }
    ensures loads { IfOk result (λ found. loads_left found.loads ≡ loads_of file.now) }
{
    let Sorted { others, loads } = sort(Segments::of(file));
    let wanted = Wanted::of(page, file, &others);
    let pass = pass_loads(page, limit, &wanted, file.input.len() as u64, loads)?;
    let Some(end) = pass.end else {
        return Err(LoadError::NoLoad);
    };
    check_segments(page, limit, file, &others, &pass)?;
    Ok(Checked {
        loads,
        others,
        span: Span {
            start: pass.start,
            end,
        },
    })
}

// What is found of a file, or the first reason why it can't be loaded.
#[tactic(auto, unfolding(crate::specs::FileCheck::check_file))]
pub(crate) fn check_file<'a>(
    page: u64,
    limit: u64,
    file: &ElfFile<'a>,
) -> Result<Checked<'a>, LoadError>
    requires { 0 < page }
    ensures checked { MatchResult result
        (λ found. check_file file.now page limit ≡ Ok found.span.end)
        (λ error. check_file file.now page limit ≡ Err error) }
    ensures start { IfOk result (λ found. found.span.start ≡ first_start page (loads_of file.now)) }
    ensures others { IfOk result (λ found. AreOthersOf file.now found.others) }
    ensures loads { IfOk result (λ found. loads_left found.loads ≡ loads_of file.now) }
{
    check_header(page, file)?;
    check_table(page, limit, file)
}
