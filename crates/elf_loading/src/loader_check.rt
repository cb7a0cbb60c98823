//! Which files one loader maps: Linux a program, glibc a library.

ghost use Rattle.std.specs.Prelude.{◌≡◌, ◌<◌, ◌≤◌, ◌+◌, ◌^◌, IsOk, Ok, length};
ghost use Rattle.elf_loading.specs.FileCheck.{check_file};
ghost use Rattle.elf_loading.specs.LoaderCheck.{check_by, has_lost_zeros, is_misaligned};
ghost use Rattle.elf_loading.specs.LoaderCheck.{is_past_offsets};
ghost use Rattle.elf_loading.specs.declared.mapping.Loader.TheVariants.{Kernel};

use crate::LoadError;
use crate::library_check::check_library;
use crate::mapping::Loader;
use crate::pages::{end_down, inside, is_past};
use crate::plan::LoadPlan;
use crate::program_check::check_program;
use elf_linking::Segment;
use xmas_elf::ElfFile;

// The last offset that a file can have.
pub(crate) const LAST_OFFSET: u64 = 0x7fff_ffff_ffff_ffff;

// Whether the address and the offset of a load differ modulo the page size.
pub(crate) fn is_misaligned(page: u64, load: &Segment) -> bool
    requires { 0 < page }
    ensures { result ≡ is_misaligned page load.now }
{
    inside(page, load.address) != inside(page, load.offset)
}

// Whether the pages of the bytes of a load extend past the offsets that a file can have.
pub(crate) fn is_past_offsets(page: u64, load: &Segment) -> bool
    requires { 0 < page }
    ensures { result ≡ is_past_offsets page load.now }
{
    is_past(page, LAST_OFFSET, load.offset, load.file_size)
}

// Whether a load has zeros that begin in a page of the file past its end.
pub(crate) fn has_lost_zeros(page: u64, len: u64, load: &Segment) -> bool
    requires { 0 < page }
    ensures { result ≡ has_lost_zeros page len load.now }
{
    let size = load.file_size;
    let end = u128::from(load.address) + u128::from(size);
    size < load.mem_size
        && end_down(page, load.address, size) != end
        && u128::from(len) <= end_down(page, load.offset, size)
}

impl LoadPlan<'_> {
    /// Whether a loader maps a file: `Loader::Kernel` as a program and `Loader::Glibc` as a library
    /// that a program starts with, with a page size and an end of addresses as for `check_load`. Linux
    /// maps each program that passes `check_load` (the clause `programs`); glibc may not map such a
    /// library: `ByteOrder` to `Version`, `Executable` or `NoDynamic`, or `Range` for an
    /// alignment.
    ///
    /// The error is the first of this loader's own list. Of Linux: `Type`, `EntrySize`, `Count`,
    /// `Table` and `Interpreter`, with which the program isn't started; `FileSize`, `Misaligned`,
    /// `Range` and `Data` of each load segment in turn, `Empty` and `Entry`, with which it is ended.
    /// Of glibc: `ByteOrder`, `IdentVersion`, `OsAbi`, `AbiVersion`, `Padding`, `Version`, `Type`,
    /// `EntrySize` and `Table`; `Misaligned` of each load segment; `NoLoad`, `Executable`, `Range`,
    /// `Data` and `Overlap`; `Overlap`, `FileSize` and `Data` of each load segment in turn;
    /// `NoDynamic`, `Relro` and `Tls`. Time: a few passes over the program headers.
    pub fn check_load_by(
        file: &ElfFile<'_>,
        page: u64,
        limit: u64,
        by: Loader,
    ) -> Result<(), LoadError>
        requires { 0 < page }
        ensures exact { result ≡ check_by by page limit file.now }
        ensures programs { by ≡ Kernel → IsOk (check_file file.now page limit)
            → length file.now.input.now + page ≤ 2 ^ 63 → result ≡ Ok tt }
    {
        match by {
            Loader::Kernel => check_program(page, limit, file),
            Loader::Glibc => check_library(page, limit, file),
        }
    }
}
