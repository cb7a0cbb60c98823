//! The byte at an address, and an image of all bytes.

ghost use Rattle.std.specs.Prelude.{◌≡◌, ◌+◌, ◌-◌, ◌<◌, ◌≤◌, ◌&&◌, length, nat_le, nat_lt};
ghost use Rattle.std.specs.Prelude.{if◌then◌else◌, slice_index, true, ℕ};
ghost use Rattle.elf_loading.specs.Bytes.{is_of_file, is_zeroed, load_byte, zeroed_end};
ghost use Rattle.elf_loading.specs.LoadCheck.{fits_below, holds_address, load_end, load_start};

use crate::LoadError;
use crate::load_check::{holds_address, load_end};
use crate::mapping::{Loader, mapped_end};
use crate::pages::down;
use crate::plan::LoadPlan;
use elf_linking::Segment;

/// The byte that is at an address.
#[derive(Clone, Copy, Debug, PartialEq, Eq)]
pub enum Byte {
    /// The byte of the file at this offset.
    File(u64),
    /// Zero.
    Zero,
}

// Whether a loader writes a zero at an address after the bytes of a load.
#[inline(always)]
fn is_zeroed(by: Loader, address: u64, load: &Segment) -> bool
    ensures { result ≡ is_zeroed by address load.now }
{
    let after = address >= load.address && address - load.address >= load.file_size;
    match by {
        Loader::Kernel => load.file_size < load.mem_size && after,
        Loader::Glibc => {
            after && u128::from(address) < u128::from(load.address) + u128::from(load.mem_size)
        }
    }
}

// The end of the zeros that a loader writes after the bytes of a load.
#[tactic(auto, using(crate::proofs::LoadChecks::fits_facts))]
#[inline(always)]
fn zeroed_end(page: u64, limit: u64, by: Loader, load: &Segment) -> u64
    requires page { 0 < page }
    requires fits { fits_below page limit load.now ≡ true }
    ensures { result ≡ zeroed_end page by load.now }
{
    // This tells the proof that the sums are numbers of 64 bits.
    let _limit = limit;
    if by == Loader::Kernel && load.file_size < load.mem_size {
        return load_end(page, limit, load);
    }
    load.address + load.mem_size
}

// Whether the byte at an address is one of the file, if the file has it.
#[inline(always)]
fn is_of_file(page: u64, limit: u64, by: Loader, address: u64, load: &Segment) -> bool
    requires page { 0 < page }
    requires fits { fits_below page limit load.now ≡ true }
    ensures { result ≡ is_of_file page by address load.now }
{
    address < mapped_end(page, limit, by, load) && !is_zeroed(by, address, load)
}

// The byte at an address in the pages of a load, of a file with `len` bytes.
#[inline(always)]
fn load_byte(page: u64, limit: u64, by: Loader, len: u64, address: u64, load: &Segment) -> Byte
    requires page { 0 < page }
    requires fits { fits_below page limit load.now ≡ true }
    requires held { holds_address page address load.now ≡ true }
    ensures { result ≡ load_byte page by len address load.now }
{
    let skipped = address - down(page, load.address);
    let offset = down(page, load.offset);
    if is_of_file(page, limit, by, address, load) && offset < len && skipped < len - offset {
        return Byte::File(offset + skipped);
    }
    Byte::Zero
}

// Copies bytes of a file from `offset` on to the places `start` to `end` of an image: as many as the
// file has.
fn copy_file(input: &[u8], offset: u64, image: &mut [u8], start: usize, end: usize)
    requires order { start ≤ end }
    requires within { end ≤ length image.old }
    ensures len { length image.new ≡ length image.old }
    ensures bytes { (i : ℕ) → slice_index image.new i
        ≡ (if nat_le start i && nat_lt i end && nat_lt (offset + (i - start)) (length input.now)
        then slice_index input.now (offset + (i - start)) else slice_index image.old i) }
{
    let len = input.len() as u64;
    if offset >= len {
        return;
    }
    let first = offset as usize;
    let count = (input.len() - first).min(end - start);
    image[start..start + count].copy_from_slice(&input[first..first + count]);
}

// Writes zeros to the places `start` to `end` of an image.
fn clear(image: &mut [u8], start: usize, end: usize)
    requires order { start ≤ end }
    requires within { end ≤ length image.old }
    ensures len { length image.new ≡ length image.old }
    ensures bytes { (i : ℕ) → slice_index image.new i
        ≡ (if nat_le start i && nat_lt i end then 0 else slice_index image.old i) }
{
    image[start..end].fill(0);
}

impl<'a> LoadPlan<'a> {
    ghost use Rattle.std.specs.Prelude.{◌+◌, ◌-◌, ◌↔◌, ◌≤◌, IfErr, IfOk, IsOk, None, Some, length, ℕ};
    ghost use Rattle.std.specs.List.{AllByRecursion, Contains};
    ghost use Rattle.elf_loading.specs.declared.bytes.Byte.TheVariants.{File, Zero};
    ghost use Rattle.elf_linking.specs.declared.segments.Segment.{Segment};
    ghost use Rattle.elf_loading.specs.Bytes.{IsByteOf, byte_number, byte_of};
    ghost use Rattle.elf_loading.specs.Mappings.{IsMapped, mappings_of};
    ghost use Rattle.elf_loading.specs.Plan.{plan_loads};
    ghost use Rattle.elf_loading.specs.Spans.{span_of};
    ghost use Rattle.elf_loading.specs.declared.error.LoadError.TheVariants.{ImageSize};

    // The byte at an address: that of the load whose pages contain it.
    #[tactic(auto, using(crate::proofs::Lists::held_first, crate::proofs::Lists::held_rest, crate::proofs::Lists::held_end, crate::proofs::Lists::fits_first, crate::proofs::Lists::fits_rest, crate::proofs::FileChecks::passes_fit))]
    fn find_byte(&self, address: u64, by: Loader) -> Option<Byte>
        ensures { result ≡ byte_of self.now.page by (length self.now.input.now) address
            (plan_loads self.now) }
    {
        let len = self.input.len() as u64;
        for load in self.loads() {
            if holds_address(self.page, self.limit, address, &load) {
                return Some(load_byte(self.page, self.limit, by, len, address, &load));
            }
        }
        None
    }

    /// The byte at an address once a loader has mapped the file, before relocation. `None` if no load
    /// segment has a page there, and for the pages that glibc maps without access.
    pub fn byte_at(&self, address: u64, by: Loader) -> Option<Byte>
        ensures exact { result ≡ byte_of self.now.page by (length self.now.input.now) address
            (plan_loads self.now) }
        ensures file { (load : Segment) → Contains (plan_loads self.now) load
            → load.address ≤ address → address < load.address + load.file_size
            → result ≡ Some (File (load.offset + (address - load.address))) }
        ensures zeros { (load : Segment) → Contains (plan_loads self.now) load
            → load.address + load.file_size ≤ address
            → address < load.address + load.mem_size → result ≡ Some Zero }
        ensures mapped { AllByRecursion (λ mapping. IsMapped address mapping
            → IsByteOf mapping address result)
            (mappings_of self.now.page by None (plan_loads self.now)) }
    {
        self.find_byte(address, by)
    }

    // Writes the bytes of a load to its pages in an image, which begins at `base`, and where they are
    // zero.
    fn fill_load(&self, by: Loader, base: u64, load: &Segment, image: &mut [u8])
        requires fits { fits_below self.now.page self.now.limit load.now ≡ true }
        requires begins { base ≤ load_start self.now.page load.now }
        requires ends { load_end self.now.page load.now ≤ base + length image.old }
        requires zeros { (i : ℕ) → holds_address self.now.page (base + i) load.now ≡ true
            → slice_index image.old i ≡ 0 }
        ensures len { length image.new ≡ length image.old }
        ensures bytes { (i : ℕ) → slice_index image.new i
            ≡ (if holds_address self.now.page (base + i) load.now
            then byte_number self.now.input.now (Some (load_byte self.now.page by
            (length self.now.input.now) (base + i) load.now)) else slice_index image.old i) }
    {
        let (page, limit) = (self.page, self.limit);
        let start = down(page, load.address) - base;
        let mapped = mapped_end(page, limit, by, load) - base;
        let offset = down(page, load.offset);
        copy_file(self.input, offset, image, start as usize, mapped as usize);
        let zeros = load.address + load.file_size - base;
        let end = zeroed_end(page, limit, by, load) - base;
        clear(image, zeros as usize, end as usize);
    }

    /// Writes the bytes of the span into `image`: byte `i` is that at the start of the span plus
    /// `i`, and 0 where no load segment has a page.
    ///
    /// The error is `ImageSize` if the length of `image` is not that of the span; nothing is written
    /// then.
    pub fn fill(&self, by: Loader, image: &mut [u8]) -> Result<(), LoadError>
        ensures size { IsOk result ↔ (length image.old
            ≡ (span_of self.now.page (plan_loads self.now)).end
            - (span_of self.now.page (plan_loads self.now)).start) }
        ensures error { IfErr result (λ error. (error ≡ ImageSize) × (image.new ≡ image.old)) }
        ensures bytes { IfOk result (λ done. (i : ℕ) → i < length image.new
            → slice_index image.new i ≡ byte_number self.now.input.now
            (byte_of self.now.page by (length self.now.input.now)
            ((span_of self.now.page (plan_loads self.now)).start + i) (plan_loads self.now))) }
    {
        let span = self.span();
        if image.len() as u64 != span.end - span.start {
            return Err(LoadError::ImageSize);
        }
        image.fill(0);
        for load in self.loads() {
            self.fill_load(by, span.start, &load, image);
        }
        Ok(())
    }
}
