//! Which programs Linux maps (`load_elf_binary` of Linux 6.18).

ghost use Rattle.std.specs.Prelude.{◌≡◌, ◌<◌, length, slice_get};
ghost use Rattle.std.specs.List.{list_all};
ghost use Rattle.elf_base.specs.FirstError.{unless};
ghost use Rattle.elf_loading.specs.LoaderCheck.{are_nothing, check_each, check_program};
ghost use Rattle.elf_loading.specs.LoaderCheck.{is_nothing_at, kernel_rows, start_rows};
ghost use Rattle.elf_loading.specs.Loads.{loads_left};
ghost use Rattle.elf_loading.specs.Others.{AreOthersOf};
ghost use Rattle.elf_loading.specs.Segments.{loads_of};

use crate::LoadError;
use crate::file_check::{check_header, is_entry_past, is_no_path, kind_of};
use crate::loader_check::{has_lost_zeros, is_misaligned, is_past_offsets};
use crate::loads::Loads;
use crate::pages::down;
use crate::segments::{Others, Sorted, has_flag, sort};
use elf_linking::{Segment, Segments};
use xmas_elf::ElfFile;
use xmas_elf::program::FLAG_W;

// Why Linux doesn't map a load.
fn check_kernel_load(page: u64, limit: u64, len: u64, load: &Segment) -> Result<(), LoadError>
    requires { 0 < page }
    ensures { result ≡ unless (kernel_rows page limit len load.now) tt }
{
    let has_bytes = load.file_size != 0;
    if load.mem_size < load.file_size {
        return Err(LoadError::FileSize);
    }
    if has_bytes && is_misaligned(page, load) {
        return Err(LoadError::Misaligned);
    }
    if limit <= load.address || limit - load.address < load.mem_size {
        return Err(LoadError::Range);
    }
    if has_bytes && is_past_offsets(page, load) {
        return Err(LoadError::Data);
    }
    if has_bytes && has_flag(load, FLAG_W) && has_lost_zeros(page, len, load) {
        return Err(LoadError::Data);
    }
    Ok(())
}

// Why Linux doesn't map one of the loads.
#[tactic(auto, using(crate::proofs::LoaderChecks::each_error, crate::proofs::LoaderChecks::each_rest, crate::proofs::LoaderChecks::each_end))]
fn check_kernel_loads(page: u64, limit: u64, len: u64, loads: Loads<'_>) -> Result<(), LoadError>
    requires { 0 < page }
    ensures { result ≡ check_each (kernel_rows page limit len) (loads_left loads.entry) }
{
    for load in loads {
        match check_kernel_load(page, limit, len, &load) {
            Ok(()) => {}
            Err(error) => return Err(error),
        }
    }
    Ok(())
}

// Whether a load has no memory, and is at an address.
fn is_nothing_at(address: u64, load: &Segment) -> bool
    ensures { result ≡ is_nothing_at address load.now }
{
    load.mem_size == 0 && load.address == address
}

// Whether all of these loads have no memory, and are at an address.
#[tactic(auto, using(crate::proofs::LoaderChecks::all_miss, crate::proofs::LoaderChecks::all_rest, crate::proofs::LoaderChecks::all_end))]
fn are_nothing_at(address: u64, loads: Loads<'_>) -> bool
    ensures { result ≡ list_all (is_nothing_at address) (loads_left loads.entry) }
{
    for load in loads {
        if !is_nothing_at(address, &load) {
            return false;
        }
    }
    true
}

// The first load.
#[tactic(auto, using(crate::proofs::LoaderChecks::first_some, crate::proofs::LoaderChecks::first_none))]
pub(crate) fn first_load(loads: Loads<'_>) -> Option<Segment>
    ensures { result ≡ slice_get (loads_left loads.entry) 0 }
{
    let mut left = loads;
    left.step()
}

// Whether the loads have no memory.
#[tactic(auto, using(crate::proofs::LoaderChecks::nothing_some, crate::proofs::LoaderChecks::nothing_none))]
fn are_nothing(page: u64, loads: Loads<'_>) -> bool
    requires { 0 < page }
    ensures { result ≡ are_nothing page (loads_left loads.entry) }
{
    match first_load(loads) {
        Some(first) => are_nothing_at(down(page, first.address), loads),
        None => false,
    }
}

// Why Linux doesn't start a program, once its loads are mapped.
fn check_start(
    page: u64,
    limit: u64,
    file: &ElfFile<'_>,
    others: &Others,
    loads: Loads<'_>,
) -> Result<(), LoadError>
    requires page { 0 < page }
    requires found { AreOthersOf file.now others.now }
    requires read { loads_left loads ≡ loads_of file.now }
    ensures { result ≡ unless (start_rows page limit file.now) tt }
{
    if kind_of(&file.header) == 3 && are_nothing(page, loads) {
        return Err(LoadError::Empty);
    }
    if is_entry_past(limit, file, others) {
        return Err(LoadError::Entry);
    }
    Ok(())
}

// Why Linux doesn't map a program.
#[tactic(auto, unfolding(crate::specs::LoaderCheck::check_program), using(crate::proofs::Others::others_in, crate::proofs::LoadPasses::path_is))]
pub(crate) fn check_program(page: u64, limit: u64, file: &ElfFile<'_>) -> Result<(), LoadError>
    requires { 0 < page }
    ensures { result ≡ check_program page limit file.now }
{
    check_header(65536, file)?;
    let Sorted { others, loads } = sort(Segments::of(file));
    if is_no_path(file.input, others.interpreter) {
        return Err(LoadError::Interpreter);
    }
    check_kernel_loads(page, limit, file.input.len() as u64, loads)?;
    check_start(page, limit, file, &others, loads)
}
