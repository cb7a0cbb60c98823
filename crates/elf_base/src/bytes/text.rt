//! Texts and bytes ended by a zero byte (gABI, "String Table").

ghost use Rattle.std.specs.Prelude.{◌≡◌, ◌↔◌, ◌+◌, ◌<◌, ◌≤◌, Err, IfErr, IfOk, IsTrue};
ghost use Rattle.std.specs.Prelude.{MatchResult, Ok, drop, length, take};
ghost use Rattle.elf_base.specs.Lent.{Answers, IfPart, LiesAt};
ghost use Rattle.elf_base.specs.Text.{BytesError, EndsInZero, IsText, TextError};
ghost use Rattle.elf_base.specs.Text.{bytes_up_to_zero_of, lent_text, text_of};
ghost use Rattle.elf_base.specs.TextCompared.{FrontCompared, TextCompared};

use crate::ElfError;
use memchr::arch::all::is_equal;
use memchr::memchr;

/// The bytes from byte `start` of `data` up to the first zero byte, whether or not they are UTF-8.
///
/// Errors: `TextStart` if `start` is past the end of `data`, `TextEnd` if no zero byte follows.
#[inline(always)]
pub fn bytes_up_to_zero(data: &[u8], start: usize) -> Result<&[u8], ElfError>
    ensures bytes { IfPart (EndsInZero «data».now start) result }
    ensures place { IfOk result (LiesAt «data».entry start) }
    ensures failed { IfErr result (BytesError «data».now start) }
    ensures as_text { text_of «data».now start ≡ lent_text result }
    ensures exact { Answers (bytes_up_to_zero_of «data».now start) result }
{
    if start > data.len() {
        return Err(ElfError::TextStart);
    }
    let rest = &data[start..];
    match memchr(0, rest) {
        Some(end) => Ok(&rest[..end]),
        None => Err(ElfError::TextEnd),
    }
}

/// The text from byte `start` of `data` up to the first zero byte.
///
/// Errors: `TextStart` if `start` is past the end of `data`, `TextEnd` if no zero byte follows,
/// `TextUtf8` if the bytes before it are not UTF-8.
#[inline(always)]
pub fn text_at(data: &[u8], start: usize) -> Result<&str, ElfError>
    ensures text { IfPart (IsText «data».now start) result }
    ensures failed { IfErr result (TextError «data».now start) }
    ensures exact { Answers (text_of «data».now start) result }
{
    if start > data.len() {
        return Err(ElfError::TextStart);
    }
    let rest = &data[start..];
    let Some(end) = memchr(0, rest) else {
        return Err(ElfError::TextEnd);
    };
    match std::str::from_utf8(&rest[..end]) {
        Ok(text) => Ok(text),
        Err(_) => Err(ElfError::TextUtf8),
    }
}

/// The byte range in `data` of the text that begins at byte `start`: its first byte and its length.
///
/// The errors are those of `text_at`. The zero byte after the range is not part of it.
pub fn text_range(data: &[u8], start: usize) -> Result<(usize, usize), ElfError>
    ensures text { IfOk result (λ range. (range.0 ≡ start)
        × IsText «data».now start (take range.1 (drop start «data».now))) }
    ensures within { IfOk result (λ range. range.0 + range.1 < length «data».now) }
    ensures exact { MatchResult result
        (λ range. text_of «data».now start ≡ Ok (take range.1 (drop start «data».now)))
        (λ error. text_of «data».now start ≡ Err error) }
{
    let text = text_at(data, start)?;
    Ok((start, text.len()))
}

/// Whether the text from byte `start` of `data` up to the first zero byte equals `text`, and the
/// number of bytes compared.
///
/// No byte is compared if `start` is past the end of `data` or `text` contains a zero byte.
/// Otherwise `text` and a zero byte after it are compared, up to the first byte that `data` lacks
/// or that differs. The bytes of `data` are not checked for UTF-8, since `text` is UTF-8.
#[inline(always)]
pub fn text_is(data: &[u8], start: usize, text: &str) -> (bool, usize)
    ensures is { IsTrue result.0 ↔ IsText «data».now start text.now }
    ensures compared { TextCompared «data».now start text.now result.0 result.1 }
    ensures few { result.1 ≤ length text.now + 1 }
{
    let wanted = text.as_bytes();
    if start > data.len() || memchr(0, wanted).is_some() {
        return (false, 0);
    }
    front_is(&data[start..], wanted)
}

/// Whether the text from byte `start` of `data` up to the first zero byte equals `text`: `text_is`
/// without the number.
#[inline(always)]
pub fn is_found_at(data: &[u8], start: usize, text: &str) -> bool
    ensures { IsTrue result ↔ IsText «data».now start text.now }
{
    has_bytes_at(data, start, text.as_bytes())
}

/// Whether the bytes from byte `start` of `data` up to the first zero byte equal `wanted`, whether
/// or not they are UTF-8. The zero byte after them is checked first, since it rules out most bytes
/// of other lengths; `wanted` is searched for a zero byte only if all else agrees.
#[inline(always)]
pub fn has_bytes_at(data: &[u8], start: usize, wanted: &[u8]) -> bool
    ensures { IsTrue result ↔ EndsInZero «data».now start wanted.now }
{
    if data.len() < start {
        return false;
    }
    let rest = &data[start..];
    if wanted.len() >= rest.len() || rest[wanted.len()] != 0 {
        return false;
    }
    is_equal(&rest[..wanted.len()], wanted) && memchr(0, wanted).is_none()
}

// Whether `bytes` begin with `wanted` and a zero byte, and the number of bytes compared.
#[inline(always)]
fn front_is(bytes: &[u8], wanted: &[u8]) -> (bool, usize)
    ensures { FrontCompared bytes.now wanted.now result.0 result.1 }
{
    for place in 0..wanted.len() {
        if place >= bytes.len() {
            return (false, place);
        }
        if bytes[place] != wanted[place] {
            return (false, place + 1);
        }
    }
    let end = wanted.len();
    if end >= bytes.len() {
        return (false, end);
    }
    (bytes[end] == 0, end + 1)
}
