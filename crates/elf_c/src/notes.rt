//! Notes, one after the other (gABI, "Note Section").

ghost use Rattle.std.specs.Prelude.{◌≡◌, ◌+◌, ◌≤◌, ◌<◌, ◌^◌, ℕ, IfOk, length};
ghost use Rattle.elf_base.specs.FileHeader.{order_of};
ghost use Rattle.elf_c.specs.FirstNote.{EndsBy, note_at, note_in};
ghost use Rattle.elf_c.specs.Status.{GivesHere};
ghost use Rattle.elf_linking.specs.Notes.{next_step};

use crate::file::Parsed;
use crate::names::{Range, bytes_in};
use crate::status::{AnyError, give};
use elf_base::bytes::{Order, read_u32};
use elf_base::header::{Data_, byte_order};
use elf_linking::LinkError;

/// A note, and the range after it.
#[repr(C)]
#[derive(Clone, Copy, Debug)]
pub struct NoteRange {
    /// The name, as long as the note says, including the zero byte at its end.
    pub name: Range,
    /// The description.
    pub desc: Range,
    /// The bytes after the note and its padding, where the next note begins.
    pub rest: Range,
    /// The type of the note, whose meaning depends on the name.
    pub type_: u32,
}

// `place`, rounded up to a multiple of 8 if the alignment is 8, otherwise of 4.
#[tactic(auto, unfolding(elf_linking::specs::Notes::next_step))]
#[inline(always)]
fn next_step(align: u64, place: u64) -> u64
    requires { place < 2 ^ 63 }
    ensures value { result ≡ next_step align place }
    ensures near { result < place + 8 }
    ensures above { place ≤ result }
{
    match align {
        8 => (place + 7) / 8 * 8,
        _ => (place + 3) / 4 * 4,
    }
}

// The note at the start of these bytes, which begin at `start` in the input.
fn first_note(bytes: &[u8], start: u64, order: Order, align: u64) -> Result<NoteRange, AnyError>
    requires { start + length bytes.now < 2 ^ 64 }
    ensures exact { result ≡ note_at start align order bytes.now }
    ensures within { (end : ℕ) → start + length bytes.now ≤ end → IfOk result (EndsBy end) }
{
    if bytes.is_empty() {
        return Err(AnyError::NoRecord);
    }
    if bytes.len() < 12 {
        return Err(AnyError::Link(LinkError::ShortNote));
    }
    let (name_size, desc_size) = (read_u32(bytes, 0, order), read_u32(bytes, 4, order));
    let desc_start = next_step(align, 12 + u64::from(name_size));
    let desc_end = desc_start + u64::from(desc_size);
    let len = bytes.len() as u64;
    if desc_end > len {
        return Err(AnyError::Link(LinkError::ShortNote));
    }
    let after = next_step(align, desc_end);
    let next = if after <= len { after } else { len };
    Ok(NoteRange {
        name: Range {
            offset: start + 12,
            size: u64::from(name_size),
        },
        desc: Range {
            offset: start + desc_start,
            size: u64::from(desc_size),
        },
        rest: Range {
            offset: start + next,
            size: len - next,
        },
        type_: read_u32(bytes, 8, order),
    })
}

// The note at the start of a range.
#[inline(always)]
fn note_in(input: &[u8], header: &Parsed, part: &Range, align: u64) -> Result<NoteRange, AnyError>
    ensures exact { result ≡ note_in input.now (order_of header.now.encoding) part.now align }
    ensures within { IfOk result (EndsBy (length input.now)) }
{
    let bytes = bytes_in(input, part)?;
    prove!(input.len() <= usize::MAX);
    let order = byte_order(Data_::from_raw(header.encoding));
    first_note(bytes, part.offset, order, align)
}

/// The note at the start of a range, and the range of the bytes after it: the next item of
/// `elf_linking::notes::Notes`, with the alignment of the section or segment.
///
/// Errors: `DataRange` if the range extends past the end of the input; `NoRecord` if it is empty;
/// `ShortNote` if it does not contain a whole note.
#[unsafe(no_mangle)]
pub extern "C" fn xmas_elf_note(
    input: &[u8],
    header: &Parsed,
    part: &Range,
    align: u64,
    out: &mut NoteRange,
) -> u32
    ensures exact { GivesHere (note_in input.now (order_of header.now.encoding) part.now align)
        out.old result out.new }
    ensures within { result ≡ 0 → EndsBy (length input.now) out.new }
{
    give(note_in(input, header, part, align), out)
}
