//! The plan of a load: what is put where in memory.

ghost use Rattle.std.specs.Prelude.{◌<◌, ◌≡◌, true};
ghost use Rattle.elf_loading.specs.FileCheck.{check_file};
ghost use Rattle.elf_loading.specs.Loads.{loads_left};
ghost use Rattle.elf_loading.specs.Others.{AreOthersOf};
ghost use Rattle.elf_loading.specs.Segments.{loads_of};
ghost use Rattle.elf_loading.specs.Spans.{ends_at, first_start};

use crate::LoadError;
use crate::file_check::check_file;
use crate::loads::Loads;
use crate::pages::{down, end_down};
use crate::segments::{Extent, Others};
use crate::span::Span;
use xmas_elf::ElfFile;
use xmas_elf::bytes::bytes_up_to_zero;
use xmas_elf::header::Header;
use xmas_elf::program::Flags;

/// What a loader puts into memory for a file that Linux and glibc load.
///
/// Addresses are relative to the base: the addresses of the file for a file of type 2 (ET_EXEC); for
/// type 3 (ET_DYN) a loader adds a number of its choice to each, such that the start of the span is
/// a multiple of the greatest alignment of the load segments.
#[derive(Clone, Copy, Debug)]
pub struct LoadPlan<'a> {
    // The file, whose type can't be copied.
    pub(crate) input: &'a [u8],
    pub(crate) header: Header,
    pub(crate) page: u64,
    pub(crate) limit: u64,
    pub(crate) start: u64,
    pub(crate) end: u64,
    pub(crate) loads: Loads<'a>,
    pub(crate) others: Others,
    ghost paged: { 0 < page },
    ghost checked: { ends_at (check_file (record { input = input; header = header }) page limit) end
        ≡ true },
    ghost begins: { first_start page (loads_of (record { input = input; header = header })) ≡ start },
    ghost found: { AreOthersOf (record { input = input; header = header }) others },
    ghost read: { loads_left loads ≡ loads_of (record { input = input; header = header }) },
}

/// The template of thread-local storage (gABI, "Thread-Local Storage").
#[derive(Clone, Copy, Debug, PartialEq, Eq)]
pub struct Tls {
    /// The address of the bytes that the file has.
    pub address: u64,
    /// The number of these bytes.
    pub file_size: u64,
    /// The size of the storage; zeros follow the bytes of the file.
    pub mem_size: u64,
    /// The alignment of the storage, a power of two.
    pub align: u64,
}

impl<'a> LoadPlan<'a> {
    ghost use Rattle.std.specs.Prelude.{Err, IfErr, IfNone, IfSome, MatchOption, MatchResult, None, Some};
    ghost use Rattle.std.specs.Prelude.{IsOk, Ok, option_map, ◌↔◌, ◌≤◌};
    ghost use Rattle.elf_loading.specs.FileCheck.{NoneApplies, all_rows};
    ghost use Rattle.elf_base.specs.FileHeader.{header_fields};
    ghost use Rattle.elf_base.specs.Text.{EndsInZero};
    ghost use Rattle.elf_base.specs.Lent.{LiesAt};
    ghost use Rattle.elf_loading.specs.Others.{data_of, memory_of};
    ghost use Rattle.elf_loading.specs.Plan.{IsPlanOf, plan_file, plan_loads, plan_relro, plan_span};
    ghost use Rattle.elf_loading.specs.Segments.{interpreter_of, relro_of, stack_of, tls_of};
    ghost use Rattle.elf_loading.specs.Spans.{HasUncovered, IsCovered, relro_span};
    ghost use Rattle.elf_loading.specs.declared.error.LoadError.TheVariants.{Relro};

    /// The plan for a file.
    ///
    /// `page` is the size of a page, a power of two such as 4096. `limit` is the end of the
    /// addresses that a loader may use: 2^47 - 4096 for x86-64, 0xffffe000 for 386. The error is the
    /// first that applies in the order of `LoadError`. The list is stricter than that of Linux, and
    /// than that of glibc but for its tests of the header, of PT_DYNAMIC and of large alignments:
    /// `check_load_by` returns the error of one loader.
    #[tactic(auto, using(crate::proofs::FileChecks::ok_ends, crate::proofs::Covered::error_uncovered, crate::proofs::Reasons::passes_means, crate::proofs::Reasons::error_means))]
    pub fn check_load(file: &ElfFile<'a>, page: u64, limit: u64) -> Result<LoadPlan<'a>, LoadError>
        requires { 0 < page }
        ensures exact { MatchResult result (IsPlanOf file.now page limit)
            (λ error. check_file file.now page limit ≡ Err error) }
        ensures accepts { IsOk result ↔ NoneApplies (all_rows file.now page limit) }
        ensures relro { IfErr result (λ error. error ≡ Relro → MatchOption (relro_of file.now) ⊥
            (λ relro. HasUncovered page (loads_of file.now) (relro_span page relro))) }
    {
        let found = check_file(page, limit, file)?;
        Ok(LoadPlan {
            input: file.input,
            header: file.header,
            page,
            limit,
            start: found.span.start,
            end: found.span.end,
            loads: found.loads,
            others: found.others,
        })
    }

    /// The addresses from the first page of the first load segment to the last of the last one.
    #[tactic(auto, using(crate::proofs::FileChecks::passes_end, crate::proofs::FileChecks::passes_order))]
    pub fn span(&self) -> Span
        ensures value { result ≡ plan_span self.now }
        ensures order { result.start ≤ result.end }
    {
        Span {
            start: self.start,
            end: self.end,
        }
    }

    /// The address of the entry point (e_entry).
    pub fn entry(&self) -> u64
        ensures { result ≡ (header_fields (plan_file self.now).header.pt2).entry_point }
    {
        self.header.pt2.entry_point()
    }

    // The load segments, in the order of the program headers.
    #[inline(always)]
    pub(crate) fn loads(&self) -> Loads<'a>
        ensures { loads_left result ≡ plan_loads self.now }
    {
        self.loads
    }

    // The memory of the last PT_GNU_RELRO.
    #[inline(always)]
    fn last_relro(&self) -> Option<Extent>
        ensures { result ≡ option_map memory_of (relro_of (plan_file self.now)) }
    {
        self.others.relro
    }

    // The bytes in the file of the first PT_INTERP.
    #[inline(always)]
    fn first_interpreter(&self) -> Option<Extent>
        ensures { result ≡ option_map data_of (interpreter_of (plan_file self.now)) }
    {
        self.others.interpreter
    }

    /// The pages that are only readable after relocation: of the last PT_GNU_RELRO, both ends
    /// rounded down to pages. The bytes after the last whole page stay writable.
    #[tactic(auto, using(crate::proofs::FileChecks::passes_relro_fits, crate::proofs::FileChecks::relro_some, crate::proofs::FileChecks::relro_none))]
    pub fn relro(&self) -> Option<Span>
        ensures exact { result ≡ plan_relro self.now }
        ensures covered { IfSome result (IsCovered self.now.page (plan_loads self.now)) }
    {
        // This tells the proof that the limit is a number of 64 bits.
        let _limit = self.limit;
        let relro = self.last_relro()?;
        Some(Span {
            start: down(self.page, relro.start),
            end: end_down(self.page, relro.start, relro.size) as u64,
        })
    }

    /// The template of thread-local storage: the last PT_TLS that is not empty.
    pub fn tls(&self) -> Option<Tls>
        ensures { result ≡ option_map (λ tls. record {
          address = tls.address;
          file_size = tls.file_size;
          mem_size = tls.mem_size;
          align = tls.align;
        }) (tls_of (plan_file self.now)) }
    {
        self.others.tls
    }

    /// The permissions of the stack: the flags of the last PT_GNU_STACK.
    ///
    /// Without one the machine's default holds. In a program for 386 all that is readable is then
    /// executable, in its libraries too.
    pub fn stack(&self) -> Option<Flags>
        ensures { result ≡ option_map (λ stack. stack.flags) (stack_of (plan_file self.now)) }
    {
        self.others.stack
    }

    /// The offset in the file of the path of the program interpreter: that of the first PT_INTERP.
    pub fn interpreter_offset(&self) -> Option<u64>
        ensures { result ≡ option_map (λ segment. segment.offset) (interpreter_of (plan_file self.now)) }
    {
        self.first_interpreter().map(|path| path.start)
    }

    /// The path of the program interpreter, which lives as long as the input: the bytes of the first
    /// PT_INTERP up to the first zero.
    #[tactic(auto, using(crate::proofs::FileChecks::passes_path, crate::proofs::FileChecks::path_none))]
    pub fn interpreter(&self) -> Option<&'a [u8]>
        ensures missing { IfNone result (interpreter_of (plan_file self.now) ≡ None) }
        ensures found { IfSome result (λ path. MatchOption (interpreter_of (plan_file self.now)) ⊥
            (λ segment. EndsInZero (plan_file self.now).input.now segment.offset path.now
            × LiesAt (plan_file self.now).input segment.offset path)) }
    {
        let place = self.first_interpreter()?;
        match bytes_up_to_zero(self.input, place.start as usize) {
            Ok(path) => Some(path),
            Err(_) => unreachable!(),
        }
    }
}
