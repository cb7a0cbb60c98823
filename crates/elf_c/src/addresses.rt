//! The file bytes at addresses of the loaded segments (gABI, "Program Header": PT_LOAD).

ghost use Rattle.std.specs.Prelude.{◌≡◌};
ghost use Rattle.elf_c.specs.Addresses.{range_at_address};
ghost use Rattle.elf_c.specs.Parsed.{file_of};
ghost use Rattle.elf_c.specs.Records.{LiesIn};
ghost use Rattle.elf_c.specs.Status.{GivesHere};

use crate::file::Parsed;
use crate::names::Range;
use crate::status::{AnyError, give};
use elf_linking::LinkError;
use elf_linking::view::segment_at;
use xmas_elf::ElfFile;

// The range of the file bytes for `address .. address + count`.
// For an empty segment it is the empty range at 0.
#[tactic(auto, unfolding(elf_linking::specs::Loaded::segment_at_of))]
pub(crate) fn range_at(file: &ElfFile<'_>, address: u64, count: u64) -> Result<Range, AnyError>
    ensures { result ≡ range_at_address file.now address count }
{
    let Some(segment) = segment_at(file, address, count) else {
        return Err(AnyError::Link(LinkError::Address));
    };
    let size = segment.bytes(file)?.len();
    let offset = if size == 0 { 0 } else { segment.offset };
    Ok(Range {
        offset: offset + (address - segment.address),
        size: count,
    })
}

/// The input range of the file bytes for `address .. address + count`: those that
/// `elf_linking::view::bytes_at` returns, with the same errors.
#[unsafe(no_mangle)]
pub extern "C" fn xmas_elf_bytes_at(
    input: &[u8],
    header: &Parsed,
    address: u64,
    count: u64,
    out: &mut Range,
) -> u32
    ensures exact { GivesHere (range_at_address (file_of input.entry header.now) address count)
        out.old result out.new }
    ensures within { result ≡ 0 → LiesIn input.now out.new }
{
    give(range_at(&header.file(input), address, count), out)
}
