//! Whether each load segment can be mapped.

ghost use Rattle.std.specs.Prelude.{◌≡◌, ◌≤◌, ◌<◌, IfOk, true};
ghost use Rattle.elf_loading.specs.LoadCheck.{check_load, file_end, fits_below};
ghost use Rattle.elf_loading.specs.LoadCheck.{has_shut_zeros, holds_address, is_alignment, is_empty_load};
ghost use Rattle.elf_loading.specs.LoadCheck.{is_inside_page, is_past_data, load_end};

use crate::LoadError;
use crate::pages::{down, inside, is_past, up};
use crate::segments::has_flag;
use elf_linking::Segment;
use xmas_elf::program::{FLAG_R, FLAG_W};

// The end of the pages of a load that fits below a limit.
#[tactic(auto, using(crate::proofs::LoadChecks::fits_facts))]
#[inline(always)]
pub(crate) fn load_end(page: u64, limit: u64, load: &Segment) -> u64
    requires page { 0 < page }
    requires fits { fits_below page limit load.now ≡ true }
    ensures value { result ≡ load_end page load.now }
    ensures bound { result ≤ limit }
{
    // This tells the proof that the sums are numbers of 64 bits.
    let _limit = limit;
    up(page, load.address + load.mem_size)
}

// The end of the pages with bytes of the file, of a load that fits below a limit.
#[tactic(auto, using(crate::proofs::LoadChecks::fits_facts))]
#[inline(always)]
pub(crate) fn file_end(page: u64, limit: u64, load: &Segment) -> u64
    requires page { 0 < page }
    requires fits { fits_below page limit load.now ≡ true }
    ensures value { result ≡ file_end page load.now }
    ensures bound { result ≤ limit }
{
    // This tells the proof that the sums are numbers of 64 bits.
    let _limit = limit;
    up(page, load.address + load.file_size)
}

// Whether an address is in the pages of a load that fits below a limit.
#[inline(always)]
pub(crate) fn holds_address(page: u64, limit: u64, address: u64, load: &Segment) -> bool
    requires page { 0 < page }
    requires fits { fits_below page limit load.now ≡ true }
    ensures { result ≡ holds_address page address load.now }
{
    down(page, load.address) <= address && address < load_end(page, limit, load)
}

// Whether the address of a segment is not that of a page's first byte.
#[inline(always)]
fn is_inside_page(page: u64, load: &Segment) -> bool
    requires { 0 < page }
    ensures { result ≡ is_inside_page page load.now }
{
    inside(page, load.address) != 0
}

// Whether the first load has no bytes in the file, or a load has none in memory and begins inside a
// page.
#[inline(always)]
fn is_empty(page: u64, is_first: bool, load: &Segment) -> bool
    requires { 0 < page }
    ensures { result ≡ is_empty_load page is_first load.now }
{
    (is_first && load.file_size == 0) || (load.mem_size == 0 && is_inside_page(page, load))
}

// Whether an alignment means none, or is a power of two.
#[inline(always)]
fn is_alignment(align: u64) -> bool
    ensures { result ≡ is_alignment align }
{
    align == 0 || align.is_power_of_two()
}

// Whether the bytes extend past the end of a file of `len` bytes, or a load without bytes begins
// inside a page that the file has no byte of.
#[inline(always)]
fn is_past_data(page: u64, len: u64, load: &Segment) -> bool
    requires { 0 < page }
    ensures { result ≡ is_past_data page len load.now }
{
    if load.file_size > len || load.offset > len - load.file_size {
        return true;
    }
    load.file_size == 0 && is_inside_page(page, load) && len <= down(page, load.offset)
}

// Whether there are zeros after the bytes of a load that is not both readable and writable.
#[inline(always)]
fn has_shut_zeros(load: &Segment) -> bool
    ensures { result ≡ has_shut_zeros load.now }
{
    load.file_size < load.mem_size && !has_flag(load, FLAG_R | FLAG_W)
}

// The end of a load, or why it can't be mapped; `before` is the end of the load before it.
#[tactic(auto, unfolding(crate::specs::LoadCheck::check_load))]
#[inline(always)]
pub(crate) fn check_load(
    page: u64,
    limit: u64,
    len: u64,
    before: Option<u64>,
    load: &Segment,
) -> Result<u64, LoadError>
    requires { 0 < page }
    ensures value { result ≡ check_load page limit len before load.now }
    ensures end { IfOk result (λ end. end ≡ load_end page load.now) }
{
    let (address, size) = (load.address, load.mem_size);
    if load.file_size > size {
        return Err(LoadError::FileSize);
    }
    if is_empty(page, before.is_none(), load) {
        return Err(LoadError::Empty);
    }
    if inside(page, address) != inside(page, load.offset) {
        return Err(LoadError::Misaligned);
    }
    if !is_alignment(load.align) {
        return Err(LoadError::Alignment);
    }
    if limit <= address || is_past(page, limit, address, size) {
        return Err(LoadError::Range);
    }
    if is_past_data(page, len, load) {
        return Err(LoadError::Data);
    }
    if down(page, address) < before.unwrap_or(0) {
        return Err(LoadError::Overlap);
    }
    if has_shut_zeros(load) {
        return Err(LoadError::Zeros);
    }
    Ok(up(page, address + size))
}
