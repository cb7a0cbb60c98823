//! The plan of a load: what Linux and glibc put where in memory (gABI, "Program Loading").

ghost use Rattle.std.specs.Prelude.{◌≡◌, ◌<◌, ℕ, IfOk, None, Result, map};
ghost use Rattle.elf_c.specs.Batch.{Fills};
ghost use Rattle.elf_c.specs.LoadPlans.{contents_number, contents_offset, default_limit, loader_of};
ghost use Rattle.elf_c.specs.LoadPlans.{mapping_at, mapping_record, page_of, plan_of, plan_record};
ghost use Rattle.elf_c.specs.LoadPlans.{path_range, presence, span_record, stack_flags};
ghost use Rattle.elf_c.specs.LoadPlans.{template_record};
ghost use Rattle.elf_c.specs.Parsed.{file_of};
ghost use Rattle.elf_c.specs.Records.{LiesIn};
ghost use Rattle.elf_c.specs.Status.{GivesHere};
ghost use Rattle.elf_c.specs.declared.status.AnyError.{AnyError};
ghost use Rattle.elf_loading.specs.Mappings.{FollowEachOther, mappings_of};
ghost use Rattle.elf_loading.specs.MappingsLeft.{mappings_left};
ghost use Rattle.elf_loading.specs.Segments.{interpreter_of, loads_of, relro_of, stack_of, tls_of};
ghost use Rattle.elf_loading.specs.Spans.{span_of};
ghost use Rattle.elf_loading.specs.Plan.{plan_file};

use crate::batch::{Sequence, fill_in_order};
use crate::file::Parsed;
use crate::names::Range;
use crate::status::{AnyError, give};
use elf_loading::{Contents, LoadPlan, Loader, Mapping, Mappings};
use xmas_elf::ElfFile;

/// A mapping holds nothing that can be read.
pub const NO_ACCESS: u32 = 0;
/// A mapping holds pages of the file.
pub const FILE: u32 = 1;
/// A mapping holds zeros.
pub const ZERO: u32 = 2;

/// A range of addresses, relative to the base at which a file is loaded.
#[repr(C)]
#[derive(Clone, Copy, Debug)]
pub struct Span {
    /// The first address.
    pub start: u64,
    /// The first address after the range.
    pub end: u64,
}

/// The template of thread-local storage (gABI, "Thread-Local Storage"); 0 in each field if there is
/// none.
#[repr(C)]
#[derive(Clone, Copy, Debug)]
pub struct Template {
    /// The address of the bytes that the file has.
    pub address: u64,
    /// The number of these bytes.
    pub file_size: u64,
    /// The size of the storage; zeros follow the bytes of the file.
    pub mem_size: u64,
    /// The alignment of the storage, a power of two.
    pub align: u64,
}

/// The plan of a load, as numbers.
#[repr(C)]
#[derive(Clone, Copy, Debug)]
pub struct Plan {
    /// The addresses from the first page of the first load segment to the last of the last one.
    pub span: Span,
    /// The pages that are only readable after relocation; 0 if the file has no PT_GNU_RELRO.
    pub relro: Span,
    /// The template of thread-local storage.
    pub tls: Template,
    /// The range of the path of the program interpreter, without its zero byte; empty and at 0 if
    /// there is none.
    pub interpreter: Range,
    /// The address of the entry point.
    pub entry: u64,
    /// The permissions of the stack; 0 if the file has no PT_GNU_STACK.
    pub stack_flags: u32,
    /// 1 if the file has a PT_GNU_STACK, otherwise 0.
    pub has_stack: u32,
    /// 1 if the file has a PT_GNU_RELRO, otherwise 0.
    pub has_relro: u32,
    /// 1 if the file has a PT_INTERP, otherwise 0.
    pub has_interpreter: u32,
}

/// Pages that are mapped at once, as numbers.
#[repr(C)]
#[derive(Clone, Copy, Debug)]
pub struct LoadMapping {
    /// The first address, relative to the base.
    pub start: u64,
    /// The first address after the pages.
    pub end: u64,
    /// The offset in the file of the first byte, or 0.
    pub offset: u64,
    /// The permissions: those of the load segment, or 0.
    pub flags: u32,
    /// What the pages hold: `NO_ACCESS`, `FILE` or `ZERO`.
    pub contents: u32,
}

// The machine of AArch64 (EM_AARCH64).
const AARCH64: u16 = 183;

// The size of a page; 0 means 4096.
#[inline(always)]
pub(crate) fn page_of(page: u64) -> u64
    ensures value { result ≡ page_of page }
    ensures above { 0 < result }
{
    if page == 0 { 4096 } else { page }
}

// The end of the addresses that a loader may use; 0 means that of Linux.
#[inline(always)]
pub(crate) fn limit_of(file: &ElfFile<'_>, limit: u64) -> u64
    ensures { result ≡ default_limit file.now limit }
{
    if limit != 0 {
        return limit;
    }
    if file.header.pt1.class.raw() == 1 {
        return 0xffff_e000;
    }
    if file.header.pt2.machine().raw() == AARCH64 {
        return 0x1_0000_0000_0000;
    }
    0x7fff_ffff_f000
}

// The loader of a number.
#[inline(always)]
pub(crate) fn loader_of(loader: u32) -> Loader
    ensures { result ≡ loader_of loader }
{
    if loader == 1 {
        Loader::Glibc
    } else {
        Loader::Kernel
    }
}

impl Span {
    // The numbers of a range of addresses, if there is one.
    #[inline(always)]
    fn of(span: Option<elf_loading::Span>) -> Span
        ensures { result ≡ span_record span }
    {
        match span {
            Some(span) => Span {
                start: span.start,
                end: span.end,
            },
            None => Span { start: 0, end: 0 },
        }
    }
}

impl Template {
    // The numbers of the template of a plan.
    #[inline(always)]
    fn of(plan: &LoadPlan<'_>) -> Template
        ensures { result ≡ template_record (tls_of (plan_file plan.now)) }
    {
        match plan.tls() {
            Some(tls) => Template {
                address: tls.address,
                file_size: tls.file_size,
                mem_size: tls.mem_size,
                align: tls.align,
            },
            None => Template {
                address: 0,
                file_size: 0,
                mem_size: 0,
                align: 0,
            },
        }
    }
}

// The range of the path of the interpreter of a plan.
#[tactic(auto, using(crate::proofs::LoadPlans::path_is, crate::proofs::LoadPlans::path_lies))]
fn path_range(plan: &LoadPlan<'_>) -> Range
    ensures exact { result
        ≡ path_range (plan_file plan.now).input.now (interpreter_of (plan_file plan.now)) }
    ensures within { LiesIn (plan_file plan.now).input.now result }
{
    match (plan.interpreter_offset(), plan.interpreter()) {
        (Some(offset), Some(path)) => Range {
            offset,
            size: path.len() as u64,
        },
        _ => Range { offset: 0, size: 0 },
    }
}

// The permissions of the stack of a plan, and 1 if the file says them.
#[inline(always)]
fn stack_of(plan: &LoadPlan<'_>) -> (u32, u32)
    ensures flags { result.0 ≡ stack_flags (stack_of (plan_file plan.now)) }
    ensures presence { result.1 ≡ presence (stack_of (plan_file plan.now)) }
{
    match plan.stack() {
        Some(flags) => (flags.0, 1),
        None => (0, 0),
    }
}

impl Plan {
    // The numbers of a plan.
    fn of(plan: &LoadPlan<'_>) -> Plan
        ensures exact { result ≡ plan_record (plan_file plan.now) plan.now.page }
        ensures within { LiesIn (plan_file plan.now).input.now result.interpreter }
    {
        let relro = plan.relro();
        let (stack_flags, has_stack) = stack_of(plan);
        Plan {
            span: Span::of(Some(plan.span())),
            relro: Span::of(relro),
            tls: Template::of(plan),
            interpreter: path_range(plan),
            entry: plan.entry(),
            stack_flags,
            has_stack,
            has_relro: u32::from(relro.is_some()),
            has_interpreter: u32::from(plan.interpreter_offset().is_some()),
        }
    }
}

// The numbers of the plan of a file.
fn plan_of(file: &ElfFile<'_>, page: u64, limit: u64) -> Result<Plan, AnyError>
    ensures exact { result ≡ plan_of file.now (page_of page) (default_limit file.now limit) }
    ensures within { IfOk result (λ plan. LiesIn file.now.input.now plan.interpreter) }
{
    let plan = LoadPlan::check_load(file, page_of(page), limit_of(file, limit))?;
    Ok(Plan::of(&plan))
}

/// The plan of a load: what Linux and glibc put where, or why there is no plan. Addresses are
/// relative to a base: those of the file for type ET_EXEC.
///
/// `page` is the size of a page, a power of two; 0 means 4096. `limit` is the end of the
/// addresses that a loader may use; 0 means that of Linux on 386 for a file of class 32,
/// 0xffffe000, on AArch64 for another one for it, 0x1000000000000, and otherwise on x86-64,
/// 0x7ffffffff000. The range of the interpreter's path lies in the input. The errors are those of
/// `elf_loading::LoadPlan::check_load`.
#[unsafe(no_mangle)]
pub extern "C" fn xmas_elf_load_plan(
    input: &[u8],
    header: &Parsed,
    page: u64,
    limit: u64,
    out: &mut Plan,
) -> u32
    ensures exact { let file = file_of input.entry header.now in
        GivesHere (plan_of file (page_of page) (default_limit file limit)) out.old result out.new }
    ensures within { result ≡ 0 → LiesIn input.now out.new.interpreter }
{
    give(plan_of(&header.file(input), page, limit), out)
}

// The number for what a mapping holds.
#[inline(always)]
fn contents_number(contents: Contents) -> u32
    ensures { result ≡ contents_number contents }
{
    match contents {
        Contents::NoAccess => NO_ACCESS,
        Contents::File(_) => FILE,
        Contents::Zero => ZERO,
    }
}

// The offset of the first byte of a mapping in the file.
#[inline(always)]
fn contents_offset(contents: Contents) -> u64
    ensures { result ≡ contents_offset contents }
{
    match contents {
        Contents::File(offset) => offset,
        _ => 0,
    }
}

impl LoadMapping {
    // The numbers of a mapping.
    #[inline(always)]
    fn of(mapping: &Mapping) -> LoadMapping
        ensures { result ≡ mapping_record mapping.now }
    {
        LoadMapping {
            start: mapping.start,
            end: mapping.end,
            offset: contents_offset(mapping.contents),
            flags: mapping.flags.0,
            contents: contents_number(mapping.contents),
        }
    }
}

// The remaining mappings.
#[derive(Drop)]
struct MappingList<'a> {
    mappings: Mappings<'a>,
}

impl Sequence for MappingList<'_> {
    type Record = LoadMapping;

    ghost left = { λ list. map mapping_record (mappings_left list.mappings) };

    fn next(&mut self) -> Option<LoadMapping> {
        let mapping = self.mappings.next()?;
        Some(LoadMapping::of(&mapping))
    }
}

// Stores the mappings of a file from an index on in `out`, and returns their number.
fn fill_mappings(
    file: &ElfFile<'_>,
    page: u64,
    limit: u64,
    by: Loader,
    first: u64,
    out: &mut [LoadMapping],
) -> Result<u64, AnyError>
    requires { 0 < page }
    ensures exact { Fills (mapping_at file.now page limit by) first out.old result out.new }
    ensures follow { IfOk result (λ count. let span = span_of page (loads_of file.now) in
        FollowEachOther span.start span.end (mappings_of page by None (loads_of file.now))) }
{
    let plan = LoadPlan::check_load(file, page, limit)?;
    let list = MappingList {
        mappings: plan.mappings(by),
    };
    fill_in_order(list, first, out)
}

/// What a loader maps before relocation, from index `first` on, in the order of addresses: as many
/// mappings as fit in `out`, or all. `count` is set to their number; the rest of `out` is unchanged.
/// They are those of `elf_loading::LoadPlan::mappings`: not empty, and each begins at the end of the
/// one before it or after it.
///
/// `page` and `limit` are as in `xmas_elf_load_plan`. `loader` is 1 for glibc, which maps libraries,
/// and any other number for Linux, which maps a program and its interpreter. Errors: those of
/// `xmas_elf_load_plan`; `NoRecord` if there are no more than `first` mappings; `out` and `count` are
/// then unchanged.
#[unsafe(no_mangle)]
pub extern "C" fn xmas_elf_load_mappings(
    input: &[u8],
    header: &Parsed,
    page: u64,
    limit: u64,
    loader: u32,
    first: u64,
    out: &mut [LoadMapping],
    count: &mut u64,
) -> u32
    ensures exact { (answer : Result ℕ AnyError)
        × (let file = file_of input.entry header.now in
        Fills (mapping_at file (page_of page) (default_limit file limit) (loader_of loader))
        first out.old answer out.new)
        × GivesHere answer count.old result count.new }
    ensures follow { result ≡ 0 → let file = file_of input.entry header.now in
        let span = span_of (page_of page) (loads_of file) in
        FollowEachOther span.start span.end
        (mappings_of (page_of page) (loader_of loader) None (loads_of file)) }
{
    let file = header.file(input);
    let limit = limit_of(&file, limit);
    give(
        fill_mappings(&file, page_of(page), limit, loader_of(loader), first, out),
        count,
    )
}
