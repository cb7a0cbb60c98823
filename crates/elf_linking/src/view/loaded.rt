//! The bytes at addresses in the loaded segments (gABI, "Program Header": PT_LOAD).

ghost use Rattle.std.specs.Prelude.{◌≡◌, ◌≢◌, ◌↔◌, IfNone, IfOk, IfSome, IsErrOf};
ghost use Rattle.elf_linking.specs.Loaded.{IsAt, IsLastWithBytes, LiesAsLoaded, NoneHasFileBytes};
ghost use Rattle.elf_linking.specs.Loaded.{bytes_at_of, bytes_from_of, has_file_bytes, lent};
ghost use Rattle.elf_linking.specs.Loaded.{segment_at_of, word_at_of};
ghost use Rattle.elf_linking.specs.declared.error.LinkError.TheVariants.{Address};

use crate::LinkError;
use crate::segments::{Segment, Segments};
use elf_base::bytes::Record;
use elf_base::header::Class;
use xmas_elf::ElfFile;

const PT_LOAD: u32 = 1;

// Whether a segment is loaded and the file contains its bytes at `address .. address + count`.
fn has_file_bytes(segment: &Segment, address: u64, count: u64) -> bool
    ensures { result ≡ has_file_bytes address count segment.now }
{
    if segment.kind != PT_LOAD || address < segment.address {
        return false;
    }
    let skipped = address - segment.address;
    skipped <= segment.file_size && count <= segment.file_size - skipped
}

/// The last loaded segment for which the file contains the bytes at `address .. address + count`:
/// Linux and glibc map the segments in order, each over those before it.
#[tactic(auto, unfolding(crate::specs::Loaded::segment_at_of), using(crate::proofs::Lasts::last_none, crate::proofs::Lasts::last_hit, crate::proofs::Lasts::last_other))]
pub fn segment_at(file: &ElfFile<'_>, address: u64, count: u64) -> Option<Segment>
    ensures found { IfSome result (IsLastWithBytes file.now address count) }
    ensures missing { IfNone result (NoneHasFileBytes file.now address count 0) }
    ensures exact { result ≡ segment_at_of file.now address count }
{
    let mut found = None;
    for segment in Segments::of(file) {
        if has_file_bytes(&segment, address, count) {
            found = Some(segment);
        }
    }
    found
}

/// The file bytes for `address .. address + count`, in the last loaded segment with all of them.
/// They live as long as the input.
///
/// Errors: `Address` if no loaded segment has all of them in the file; those of
/// `Segment::bytes` if that segment extends past the end of the input.
#[tactic(auto, unfolding(crate::specs::Loaded::bytes_at_of))]
pub fn bytes_at<'a>(file: &ElfFile<'a>, address: u64, count: u64) -> Result<&'a [u8], LinkError>
    ensures found { IfOk result (λ part. IsAt file.now address count part.now) }
    ensures place { IfOk result (LiesAsLoaded file.now address count) }
    ensures missing { IsErrOf result Address ↔ NoneHasFileBytes file.now address count 0 }
    ensures exact { lent result ≡ bytes_at_of file.now address count }
{
    let Some(segment) = segment_at(file, address, count) else {
        return Err(LinkError::Address);
    };
    let data = match segment.bytes(file) {
        Ok(data) => data,
        Err(error) => return Err(LinkError::Elf(error)),
    };
    let start = (address - segment.address) as usize;
    Ok(&data[start..start + count as usize])
}

/// The file bytes from `address` on, in the last loaded segment with a byte there, up to the last
/// that the segment has in the file. They live as long as the input.
///
/// The errors are those of `bytes_at` for one byte.
#[tactic(auto, unfolding(crate::specs::Loaded::bytes_from_of))]
pub fn bytes_from<'a>(file: &ElfFile<'a>, address: u64) -> Result<&'a [u8], LinkError>
    ensures place { IfOk result (LiesAsLoaded file.now address 1) }
    ensures exact { lent result ≡ bytes_from_of file.now address }
{
    let Some(segment) = segment_at(file, address, 1) else {
        return Err(LinkError::Address);
    };
    let data = match segment.bytes(file) {
        Ok(data) => data,
        Err(error) => return Err(LinkError::Elf(error)),
    };
    Ok(&data[(address - segment.address) as usize..])
}

/// The number in the word at an address, in the byte order of the file. A word is as wide as the
/// addresses of the file's class: 4 bytes for class 32, 8 for class 64.
///
/// Errors: `UnknownClass` if the class is neither 1 nor 2; those of `bytes_at`.
pub fn word_at(file: &ElfFile<'_>, address: u64) -> Result<u64, LinkError>
    ensures { result ≡ word_at_of file.now address }
{
    match file.header.pt1.class() {
        Class::ThirtyTwo => {
            let word = bytes_at(file, address, 4)?;
            Ok(u64::from(u32::decode(word, file.byte_order())))
        }
        Class::SixtyFour => {
            let word = bytes_at(file, address, 8)?;
            Ok(u64::decode(word, file.byte_order()))
        }
        Class::None | Class::Other(_) => Err(LinkError::UnknownClass),
    }
}
