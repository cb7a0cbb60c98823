//! One pass over the load segments: their checks, and what the checks of the other segments ask of them.

ghost use Rattle.std.specs.Prelude.{◌≡◌, ◌<◌, ◌+◌, ◌-◌, ◌==◌, Some, Err, IfOk, MatchResult, None, Ok};
ghost use Rattle.elf_loading.specs.FileCheck.{holds_offset};
ghost use Rattle.elf_loading.specs.LoadCheck.{check_loads, load_end};
ghost use Rattle.elf_loading.specs.LoadPass.{IsPassOf, covered_with, first_of, holds_some};
ghost use Rattle.elf_loading.specs.LoadPass.{pass_with, wanted_of};
ghost use Rattle.elf_loading.specs.Loads.{loads_left};

use crate::LoadError;
use crate::load_check::check_load;
use crate::loads::Loads;
use crate::pages::down;
use crate::plan::Tls;
use crate::segments::{Extent, Others};
use elf_linking::Segment;
use xmas_elf::ElfFile;

// What the checks of the other segments ask of the loads.
#[derive(Clone, Copy, Debug)]
pub(crate) struct Wanted {
    // The offset of the program header table.
    pub(crate) offset: u64,
    // The first page of what is read-only after relocation.
    pub(crate) first: u64,
    // The address of the table that PT_PHDR has, or 0 if there is none.
    pub(crate) phdr: u64,
    // The template of thread-local storage.
    pub(crate) tls: Option<Tls>,
}

impl Wanted {
    // What is asked for a file with these segments.
    #[inline(always)]
    pub(crate) fn of(page: u64, file: &ElfFile<'_>, others: &Others) -> Wanted
        requires { 0 < page }
        ensures { result ≡ wanted_of page file.now others.now }
    {
        Wanted {
            offset: file.header.pt2.ph_offset(),
            first: first_of(page, others.relro),
            phdr: others.phdr.unwrap_or(0),
            tls: others.tls,
        }
    }
}

// What a pass has found.
#[derive(Clone, Copy, Debug)]
pub(crate) struct Pass {
    // The start of the pages of the first load, or 0 if there is none.
    pub(crate) start: u64,
    // The end of the last load.
    pub(crate) end: Option<u64>,
    // Whether the last load with the first byte of the program header table puts it at the address of
    // PT_PHDR.
    pub(crate) is_placed: bool,
    // The first page, of those from the start of what is read-only after relocation on, that is in no
    // load.
    pub(crate) covered: u64,
    // Whether the bytes of the template are in the memory of one load.
    pub(crate) is_held: bool,
}

// The first page of what is read-only after relocation, or 0 if there is none.
#[inline(always)]
fn first_of(page: u64, relro: Option<Extent>) -> u64
    requires { 0 < page }
    ensures { result ≡ first_of page relro }
{
    match relro {
        Some(relro) => down(page, relro.start),
        None => 0,
    }
}

// Whether the bytes that a load has in the file contain the byte at an offset.
#[inline(always)]
fn holds_offset(offset: u64, load: &Segment) -> bool
    ensures { result ≡ holds_offset offset load.now }
{
    load.offset <= offset && offset - load.offset < load.file_size
}

// Whether a load puts the byte at an offset, which it has, at an address.
#[inline(always)]
fn is_put_at(offset: u64, address: u64, load: &Segment) -> bool
    ensures { result ≡ (load.now.address + (offset - load.now.offset) == address) }
{
    let start = load.address;
    start <= address && address - start == offset.saturating_sub(load.offset)
}

// Whether the bytes of a template are in the memory of a load.
#[inline(always)]
fn holds_template(tls: &Tls, load: &Segment) -> bool
    ensures { result ≡ holds_some (Some tls.now) load.now }
{
    if tls.address < load.address {
        return false;
    }
    let before = tls.address - load.address;
    before <= load.mem_size && tls.file_size <= load.mem_size - before
}

// Whether the bytes of a template, if there is one, are in the memory of a load.
#[inline(always)]
fn holds_some(tls: &Option<Tls>, load: &Segment) -> bool
    ensures { result ≡ holds_some tls.now load.now }
{
    match tls {
        Some(tls) => holds_template(tls, load),
        None => false,
    }
}

// The first page that is in no load, once a load follows, which ends at `end`.
#[inline(always)]
fn covered_with(page: u64, end: u64, covered: u64, load: &Segment) -> u64
    requires page { 0 < page }
    requires end { end ≡ load_end page load.now }
    ensures { result ≡ covered_with page covered load.now }
{
    if down(page, load.address) <= covered && covered < end {
        return end;
    }
    covered
}

impl Pass {
    // Keeps what is asked of the next load, which ends at `end`.
    #[inline(always)]
    fn keep(&mut self, page: u64, end: u64, wanted: &Wanted, load: &Segment)
        requires page { 0 < page }
        requires end { end ≡ load_end page load.now }
        ensures { self.new ≡ pass_with page wanted.now self.old load.now }
    {
        if self.end.is_none() {
            self.start = down(page, load.address);
        }
        self.end = Some(end);
        if holds_offset(wanted.offset, load) {
            self.is_placed = is_put_at(wanted.offset, wanted.phdr, load);
        }
        self.covered = covered_with(page, end, self.covered, load);
        self.is_held = self.is_held || holds_some(&wanted.tls, load);
    }
}

// What a pass over the loads of a file with `len` bytes finds, or the first reason why a load can't be
// mapped.
#[tactic(auto, using(crate::proofs::LoadPasses::all_passed))]
#[inline(always)]
pub(crate) fn pass_loads(
    page: u64,
    limit: u64,
    wanted: &Wanted,
    len: u64,
    loads: Loads<'_>,
) -> Result<Pass, LoadError>
    requires { 0 < page }
    ensures checked { let list = loads_left loads.entry in MatchResult result
        (λ pass. check_loads page limit len None list ≡ Ok pass.end)
        (λ error. check_loads page limit len None list ≡ Err error) }
    ensures found { IfOk result (IsPassOf page wanted.now (loads_left loads.entry)) }
{
    let mut pass = Pass {
        start: 0,
        end: None,
        is_placed: false,
        covered: wanted.first,
        is_held: false,
    };
    for load in loads {
        match check_load(page, limit, len, pass.end, &load) {
            Ok(end) => pass.keep(page, end, wanted, &load),
            Err(error) => return Err(error),
        }
    }
    Ok(pass)
}
