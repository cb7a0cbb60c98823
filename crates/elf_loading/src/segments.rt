//! The segments that a loader asks for, by their type (gABI, "Program Header", p_type).

ghost use Rattle.std.specs.Prelude.{◌≡◌};
ghost use Rattle.elf_loading.specs.Loads.{loads_left};
ghost use Rattle.elf_loading.specs.Others.{AreOthersIn, data_of, is_kept, memory_of, others_with};
ghost use Rattle.elf_loading.specs.Others.{template_of};
ghost use Rattle.elf_loading.specs.LoadsAmong.{loads_among};
ghost use Rattle.elf_loading.specs.Segments.{has_flag};
ghost use Rattle.elf_linking.specs.SegmentsLeft.{segments_left};

use crate::loads::Loads;
use crate::plan::Tls;
use elf_linking::{Segment, Segments};
use xmas_elf::program::{Flags, TYPE_GNU_RELRO};

pub(crate) const PT_LOAD: u32 = 1;

const PT_INTERP: u32 = 3;

const PT_PHDR: u32 = 6;

const PT_TLS: u32 = 7;

// The permissions of the stack (GNU).
const PT_GNU_STACK: u32 = 0x6474_e551;

// Where the bytes of a segment are, in memory or in the file.
#[derive(Clone, Copy, Debug)]
pub(crate) struct Extent {
    pub(crate) start: u64,
    pub(crate) size: u64,
}

// Whether a segment has a permission, or several.
#[inline(always)]
pub(crate) fn has_flag(segment: &Segment, flag: u32) -> bool
    ensures { result ≡ has_flag flag segment.now }
{
    segment.flags.0 & flag == flag
}

// What a loader asks of the segments other than loads.
#[derive(Clone, Copy, Debug)]
pub(crate) struct Others {
    // The address of the last PT_PHDR.
    pub(crate) phdr: Option<u64>,
    // The memory of the last PT_GNU_RELRO.
    pub(crate) relro: Option<Extent>,
    // The flags of the last PT_GNU_STACK.
    pub(crate) stack: Option<Flags>,
    // The last PT_TLS that is not empty.
    pub(crate) tls: Option<Tls>,
    // The bytes in the file of the first PT_INTERP.
    pub(crate) interpreter: Option<Extent>,
}

// The memory of a segment.
#[inline(always)]
fn memory_of(segment: &Segment) -> Extent
    ensures { result ≡ memory_of segment.now }
{
    Extent {
        start: segment.address,
        size: segment.mem_size,
    }
}

// The bytes that a segment has in the file.
#[inline(always)]
fn data_of(segment: &Segment) -> Extent
    ensures { result ≡ data_of segment.now }
{
    Extent {
        start: segment.offset,
        size: segment.file_size,
    }
}

// The template that a segment describes.
#[inline(always)]
fn template_of(segment: &Segment) -> Tls
    ensures { result ≡ template_of segment.now }
{
    Tls {
        address: segment.address,
        file_size: segment.file_size,
        mem_size: segment.mem_size,
        align: segment.align,
    }
}

// Whether a loader asks for segments of this type, other than loads.
#[inline(always)]
fn is_kept(kind: u32) -> bool
    ensures { result ≡ is_kept kind }
{
    match kind {
        PT_PHDR | PT_INTERP | PT_TLS | TYPE_GNU_RELRO | PT_GNU_STACK => true,
        _ => false,
    }
}

impl Others {
    // Keeps a segment that a loader asks for.
    #[inline(always)]
    fn keep(&mut self, segment: &Segment)
        ensures { self.new ≡ others_with self.old segment.now }
    {
        match segment.kind {
            PT_PHDR => self.phdr = Some(segment.address),
            TYPE_GNU_RELRO => self.relro = Some(memory_of(segment)),
            PT_GNU_STACK => self.stack = Some(segment.flags),
            PT_TLS => {
                if segment.mem_size > 0 {
                    self.tls = Some(template_of(segment));
                }
            }
            PT_INTERP => {
                if self.interpreter.is_none() {
                    self.interpreter = Some(data_of(segment));
                }
            }
            _ => {}
        }
    }
}

// The segments of a file, by what a loader does with them.
#[derive(Clone, Copy, Debug)]
pub(crate) struct Sorted<'a> {
    pub(crate) others: Others,
    pub(crate) loads: Loads<'a>,
}

// The segments that a loader asks for, in one pass over the program headers.
#[tactic(auto, using(crate::proofs::Others::all_left, crate::proofs::Others::rest_left, crate::proofs::Others::rest_same, crate::proofs::Others::load_same, crate::proofs::Lists::count_load, crate::proofs::Lists::count_other, crate::proofs::Lists::count_all))]
#[inline(always)]
pub(crate) fn sort(segments: Segments<'_>) -> Sorted<'_>
    ensures others { AreOthersIn (segments_left segments.entry) result.others }
    ensures loads { loads_left result.loads ≡ loads_among segments.entry }
{
    let mut others = Others {
        phdr: None,
        relro: None,
        stack: None,
        tls: None,
        interpreter: None,
    };
    let mut count = 0;
    let mut left = segments;
    while left.count_left() > 0 {
        let kind = left.kind();
        if kind == PT_LOAD {
            count += 1;
        } else if is_kept(kind) {
            others.keep(&left.segment());
        }
        left = left.rest();
    }
    Sorted {
        others,
        loads: Loads {
            segments,
            left: count,
        },
    }
}
