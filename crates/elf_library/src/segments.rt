//! What glibc 2.36 asks of the segments of a library (gABI, "Program Header").

ghost use Rattle.std.specs.Prelude.{◌≡◌};
ghost use Rattle.elf_linking.specs.Segments.{segments_of};
ghost use Rattle.elf_library.specs.Segments.{address_of, dynamic_address};

use elf_linking::{Segment, Segments};
use xmas_elf::ElfFile;

const PT_DYNAMIC: u32 = 2;

// The address of a segment, 0 if there is none.
fn address_of(segment: Option<Segment>) -> u64
    ensures { result ≡ address_of segment }
{
    match segment {
        Some(segment) => segment.address,
        None => 0,
    }
}

/// The address of the last segment of type Dynamic, by which glibc 2.36 finds the dynamic segment of
/// a library. 0 if there is none, or if one of them has no bytes in the file: glibc doesn't load such
/// a library. Time: one pass over the program headers.
#[tactic(auto, using(crate::proofs::DynamicSearch::after_end, crate::proofs::DynamicSearch::after_empty, crate::proofs::DynamicSearch::after_full, crate::proofs::DynamicSearch::after_other))]
pub fn dynamic_address(file: &ElfFile<'_>) -> u64
    ensures { result ≡ dynamic_address (segments_of file.now) }
{
    let mut last = None;
    for segment in Segments::of(file) {
        if segment.kind == PT_DYNAMIC {
            if segment.file_size == 0 {
                return 0;
            }
            last = Some(segment);
        }
    }
    address_of(last)
}
