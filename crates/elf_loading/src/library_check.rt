//! Which libraries glibc 2.36 maps (`_dl_map_object_from_fd`).

ghost use Rattle.std.specs.Prelude.{◌≡◌, ◌<◌, None, length, nat_lt, slice_get};
ghost use Rattle.std.specs.List.{last_or, list_any};
ghost use Rattle.elf_base.specs.FirstError.{unless};
ghost use Rattle.elf_library.specs.Fits.{header_of_library};
ghost use Rattle.elf_loading.specs.LoaderCheck.{check_between, check_each, check_ends, check_library};
ghost use Rattle.elf_loading.specs.LoaderCheck.{command_rows, has_template, header_error, kind_rows};
ghost use Rattle.elf_loading.specs.LoaderCheck.{is_relro_outside, is_template_unusable, is_too_aligned};
ghost use Rattle.elf_loading.specs.LoaderCheck.{maps_nothing, segment_rows_in, spread_rows, use_rows};
ghost use Rattle.elf_loading.specs.LoaderCheck.{with_header_error};
ghost use Rattle.elf_loading.specs.Loads.{loads_left};
ghost use Rattle.elf_loading.specs.Others.{AreOthersOf};
ghost use Rattle.elf_loading.specs.Segments.{loads_of};

use crate::LoadError;
use crate::file_check::kind_of;
use crate::loader_check::{LAST_OFFSET, has_lost_zeros, is_misaligned, is_past_offsets};
use crate::loads::Loads;
use crate::pages::{down, end_down, end_up, inside, is_past};
use crate::plan::Tls;
use crate::program_check::first_load;
use crate::segments::{Extent, Others, Sorted, sort};
use elf_library::segments::dynamic_address;
use elf_library::{HeaderError, fits as library};
use elf_linking::{Segment, Segments};
use xmas_elf::ElfFile;

// The error of a file for the error of its header.
fn header_error(error: HeaderError) -> LoadError
    ensures { result ≡ header_error error }
{
    match error {
        HeaderError::ShortFile | HeaderError::Magic | HeaderError::FileData => LoadError::Table,
        HeaderError::ByteOrder => LoadError::ByteOrder,
        HeaderError::IdentVersion => LoadError::IdentVersion,
        HeaderError::OsAbi => LoadError::OsAbi,
        HeaderError::AbiVersion => LoadError::AbiVersion,
        HeaderError::Padding => LoadError::Padding,
        HeaderError::Version => LoadError::Version,
        HeaderError::Type => LoadError::Type,
        HeaderError::EntrySize => LoadError::EntrySize,
    }
}

// Why the header is not that of a library.
fn check_library_header(input: &[u8]) -> Result<(), LoadError>
    ensures { result ≡ with_header_error (header_of_library (length input.now) input.now) }
{
    match library::check_header(input, input.len() as u64) {
        Ok(()) => Ok(()),
        Err(error) => Err(header_error(error)),
    }
}

// Why glibc doesn't read one of the loads.
#[tactic(auto, using(crate::proofs::LoaderChecks::each_error, crate::proofs::LoaderChecks::each_rest, crate::proofs::LoaderChecks::each_end))]
fn check_commands(page: u64, loads: Loads<'_>) -> Result<(), LoadError>
    requires { 0 < page }
    ensures { result ≡ check_each (command_rows page) (loads_left loads.entry) }
{
    for load in loads {
        if is_misaligned(page, &load) {
            return Err(LoadError::Misaligned);
        }
    }
    Ok(())
}

// The last load.
#[tactic(auto, using(crate::proofs::LoaderChecks::last_next, crate::proofs::LoaderChecks::last_end))]
fn last_load(loads: Loads<'_>) -> Option<Segment>
    ensures { result ≡ last_or None (loads_left loads.entry) }
{
    let mut last = None;
    for load in loads {
        last = Some(load);
    }
    last
}

// Whether there are not as many addresses as glibc asks for, for a library of `size` bytes with the
// alignment of a load.
fn is_too_aligned(page: u64, limit: u64, size: u64, load: &Segment) -> bool
    ensures { result ≡ is_too_aligned page limit size load.now }
{
    let align = load.align;
    if align <= page || !align.is_power_of_two() {
        return false;
    }
    let (limit, align) = (u128::from(limit), u128::from(align));
    limit <= u128::from(size) + align || limit <= 2 * align
}

// The same for the alignments of all loads.
#[tactic(auto, using(crate::proofs::LoaderChecks::any_hit, crate::proofs::LoaderChecks::any_rest, crate::proofs::LoaderChecks::any_end))]
fn are_too_aligned(page: u64, limit: u64, size: u64, loads: Loads<'_>) -> bool
    ensures { result ≡ list_any (is_too_aligned page limit size) (loads_left loads.entry) }
{
    for load in loads {
        if is_too_aligned(page, limit, size, &load) {
            return true;
        }
    }
    false
}

// Whether there is more than one load.
#[inline(always)]
fn are_several(loads: Loads<'_>) -> bool
    ensures { result ≡ nat_lt 1 (length (loads_left loads.entry)) }
{
    loads.left > 1
}

// Why glibc can't take the pages from the first load to the last.
fn check_spread(
    page: u64,
    limit: u64,
    loads: Loads<'_>,
    first: &Segment,
    last: &Segment,
) -> Result<(), LoadError>
    requires { 0 < page }
    ensures { result ≡ unless (spread_rows page limit (loads_left loads.entry) first.now last.now) tt }
{
    let start = u128::from(down(page, first.address));
    let end = u128::from(last.address) + u128::from(last.mem_size);
    if end <= start || start + u128::from(limit) <= end {
        return Err(LoadError::Range);
    }
    let size = (end - start) as u64;
    if are_too_aligned(page, limit, size, loads) {
        return Err(LoadError::Range);
    }
    if is_past(page, LAST_OFFSET, down(page, first.offset), size) {
        return Err(LoadError::Data);
    }
    let several = are_several(loads);
    let last_start = u128::from(down(page, last.address));
    if several && last_start < end_up(page, first.address, first.file_size) {
        return Err(LoadError::Overlap);
    }
    Ok(())
}

// Whether glibc maps no page of the file for a load behind the first.
fn maps_nothing(page: u64, load: &Segment) -> bool
    requires { 0 < page }
    ensures { result ≡ maps_nothing page load.now }
{
    load.file_size == 0 && inside(page, load.address) == 0
}

// The pages of a library.
#[derive(Clone, Copy)]
struct Pages {
    start: u64,
    end: u128,
}

// Why glibc doesn't map a load.
fn check_segment(page: u64, len: u64, pages: Pages, load: &Segment) -> Result<(), LoadError>
    requires { 0 < page }
    ensures { result ≡ unless (segment_rows_in page len pages.start pages.end load.now) tt }
{
    let address = u128::from(load.address);
    if down(page, load.address) < pages.start || pages.end < address + u128::from(load.mem_size) {
        return Err(LoadError::Overlap);
    }
    if pages.end < address + u128::from(load.file_size) {
        return Err(LoadError::FileSize);
    }
    if !maps_nothing(page, load) && is_past_offsets(page, load) {
        return Err(LoadError::Data);
    }
    if has_lost_zeros(page, len, load) {
        return Err(LoadError::Data);
    }
    Ok(())
}

// Why glibc doesn't map one of the loads.
#[tactic(auto, using(crate::proofs::LoaderChecks::each_error, crate::proofs::LoaderChecks::each_rest, crate::proofs::LoaderChecks::each_end))]
fn check_mapped(page: u64, len: u64, pages: Pages, loads: Loads<'_>) -> Result<(), LoadError>
    requires { 0 < page }
    ensures { result ≡ check_each (segment_rows_in page len pages.start pages.end) (loads_left loads.entry) }
{
    for load in loads {
        match check_segment(page, len, pages, &load) {
            Ok(()) => {}
            Err(error) => return Err(error),
        }
    }
    Ok(())
}

// Whether what is read-only after relocation has a page outside of those of the library.
fn is_relro_outside(page: u64, pages: Pages, relro: Option<Extent>) -> bool
    requires { 0 < page }
    ensures { result ≡ is_relro_outside page pages.start pages.end relro }
{
    let Some(relro) = relro else {
        return false;
    };
    let first = u128::from(down(page, relro.start));
    let last = end_down(page, relro.start, relro.size);
    first < last && (first < u128::from(pages.start) || pages.end < last)
}

// Whether the pages of a load have the bytes of a template.
fn has_template(page: u64, tls: Tls, load: &Segment) -> bool
    requires { 0 < page }
    ensures { result ≡ has_template page tls load.now }
{
    down(page, load.address) <= tls.address
        && u128::from(tls.address) + u128::from(tls.file_size)
            <= end_up(page, load.address, load.mem_size)
}

// Whether the pages of one of the loads have the bytes of a template.
#[tactic(auto, using(crate::proofs::LoaderChecks::any_hit, crate::proofs::LoaderChecks::any_rest, crate::proofs::LoaderChecks::any_end))]
fn has_some_template(page: u64, tls: Tls, loads: Loads<'_>) -> bool
    requires { 0 < page }
    ensures { result ≡ list_any (has_template page tls) (loads_left loads.entry) }
{
    for load in loads {
        if has_template(page, tls, &load) {
            return true;
        }
    }
    false
}

// Whether glibc can't lay out or fill thread-local storage when a program starts: the alignment is 0,
// or the template is larger in the file than in memory, or has bytes that are in the pages of no load.
fn is_template_unusable(page: u64, loads: Loads<'_>, tls: Option<Tls>) -> bool
    requires { 0 < page }
    ensures { result ≡ is_template_unusable page (loads_left loads.entry) tls }
{
    let Some(tls) = tls else {
        return false;
    };
    if tls.align == 0 || tls.mem_size < tls.file_size {
        return true;
    }
    tls.file_size != 0 && !has_some_template(page, tls, loads)
}

// Why glibc doesn't use a library, once its loads are mapped.
fn check_use(
    page: u64,
    pages: Pages,
    file: &ElfFile<'_>,
    others: &Others,
    loads: Loads<'_>,
) -> Result<(), LoadError>
    requires page { 0 < page }
    requires found { AreOthersOf file.now others.now }
    requires read { loads_left loads ≡ loads_of file.now }
    ensures { result ≡ unless (use_rows page pages.start pages.end file.now) tt }
{
    if dynamic_address(file) == 0 {
        return Err(LoadError::NoDynamic);
    }
    if is_relro_outside(page, pages, others.relro) {
        return Err(LoadError::Relro);
    }
    if is_template_unusable(page, loads, others.tls) {
        return Err(LoadError::Tls);
    }
    Ok(())
}

// Why glibc doesn't map the loads of a library, or doesn't use it then.
fn check_between(
    page: u64,
    limit: u64,
    file: &ElfFile<'_>,
    sorted: &Sorted<'_>,
    first: &Segment,
    last: &Segment,
) -> Result<(), LoadError>
    requires page { 0 < page }
    requires found { AreOthersOf file.now sorted.now.others }
    requires read { loads_left sorted.now.loads ≡ loads_of file.now }
    ensures { result ≡ check_between page limit file.now first.now last.now }
{
    let loads = sorted.loads;
    let pages = Pages {
        start: down(page, first.address),
        end: end_up(page, last.address, last.mem_size),
    };
    check_spread(page, limit, loads, first, last)?;
    check_mapped(page, file.input.len() as u64, pages, loads)?;
    check_use(page, pages, file, &sorted.others, loads)
}

// Why glibc doesn't map the loads of a library, if there are any.
fn check_ends(
    page: u64,
    limit: u64,
    file: &ElfFile<'_>,
    sorted: &Sorted<'_>,
) -> Result<(), LoadError>
    requires page { 0 < page }
    requires found { AreOthersOf file.now sorted.now.others }
    requires read { loads_left sorted.now.loads ≡ loads_of file.now }
    ensures { result ≡ check_ends page limit file.now (slice_get (loads_of file.now) 0)
        (last_or None (loads_of file.now)) }
{
    let Some(first) = first_load(sorted.loads) else {
        return Ok(());
    };
    let Some(last) = last_load(sorted.loads) else {
        return Ok(());
    };
    check_between(page, limit, file, sorted, &first, &last)
}

// Whether a file has loads and isn't a program at a fixed address.
#[tactic(auto, using(crate::proofs::LoaderChecks::none_is, crate::proofs::LoaderChecks::some_is))]
fn check_kind(file: &ElfFile<'_>, loads: Loads<'_>) -> Result<(), LoadError>
    requires { loads_left loads ≡ loads_of file.now }
    ensures { result ≡ unless (kind_rows file.now) tt }
{
    if loads.left == 0 {
        return Err(LoadError::NoLoad);
    }
    if kind_of(&file.header) == 2 {
        return Err(LoadError::Executable);
    }
    Ok(())
}

// Why glibc doesn't map a library.
#[tactic(auto, unfolding(crate::specs::LoaderCheck::check_library), using(crate::proofs::Others::others_in))]
pub(crate) fn check_library(page: u64, limit: u64, file: &ElfFile<'_>) -> Result<(), LoadError>
    requires { 0 < page }
    ensures { result ≡ check_library page limit file.now }
{
    check_library_header(file.input)?;
    let sorted = sort(Segments::of(file));
    check_commands(page, sorted.loads)?;
    check_kind(file, sorted.loads)?;
    check_ends(page, limit, file, &sorted)
}
