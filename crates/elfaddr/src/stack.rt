//! Lines of stacks, and the names that are written in place of addresses.

ghost use Rattle.std.specs.Prelude.{◌≡◌, ◌∷◌, [], IfSome, OnOk, drop, length, take};
ghost use Rattle.std.specs.Prelude.{◌-◌, ◌++◌, ◌≤◌, option_map};
ghost use Rattle.std.specs.Io.KnownBytes.{Appends};
ghost use Rattle.elfaddr.specs.Ends.{AreInputLines};
ghost use Rattle.elfaddr.specs.Stack.{IsAddress, IsPlace, IsStackLine, digits_of};
ghost use Rattle.elfaddr.specs.declared.Source.TheVariants.{Symtab};
ghost use Rattle.program_ends.specs.Appended.{AppendsSome};
ghost use Rattle.program_ends.specs.declared.json.Form.TheVariants.{Text};

use crate::{Source, print_input};
use memchr::{memchr, memrchr};
use program_ends::json::Form;
use std::alloc::Global;
use std::io::Write;
use std::{io, str};

/// Where a line names an address of a file.
#[derive(Clone, Copy, Debug)]
pub struct Place {
    /// The index at which the path of the file ends; it begins at 0.
    pub path_end: usize,
    /// The index at which the address begins.
    pub begin: usize,
    /// The index at which it ends.
    pub end: usize,
    /// The address.
    pub address: u64,
}

/// The path of the file that a line names an address of, if it is UTF-8.
pub fn path_of(line: &[u8]) -> Option<&str> {
    let place = place_in(line)?;
    str::from_utf8(line.get(..place.path_end)?).ok()
}

/// The address that a line names: in parentheses after a path, or after the last blank.
pub fn place_in(line: &[u8]) -> Option<Place>
    ensures { IfSome result (IsPlace line.now) }
{
    match place_in_parentheses(line) {
        Some(place) => Some(place),
        None => place_after_blank(line),
    }
}

// The address between the last opening parenthesis and the next closing one.
fn place_in_parentheses(line: &[u8]) -> Option<Place>
    ensures { IfSome result (IsPlace line.now) }
{
    let path_end = memrchr(b'(', line)?;
    let begin = path_end + 1;
    let size = memchr(b')', &line[begin..])?;
    let end = begin + size;
    let address = address_in(&line[begin..end])?;
    Some(Place {
        path_end,
        begin,
        end,
        address,
    })
}

// The address after the last blank, up to the end of the line.
#[tactic(auto, using(crate::proofs::Replaced::blank_place))]
fn place_after_blank(line: &[u8]) -> Option<Place>
    ensures { IfSome result (IsPlace line.now) }
{
    let path_end = memrchr(b' ', line)?;
    let begin = path_end + 1;
    let end = begin + memchr(b'\n', &line[begin..]).unwrap_or(line.len() - begin);
    let address = address_in(&line[begin..end])?;
    Some(Place {
        path_end,
        begin,
        end,
        address,
    })
}

// The address that a word is.
fn address_in(word: &[u8]) -> Option<u64>
    ensures { IfSome result (IsAddress word.now) }
{
    let digits = digits_of(word)?;
    let Ok(text) = str::from_utf8(digits) else {
        return None;
    };
    match u64::from_str_radix(text, 16) {
        Ok(address) => Some(address),
        Err(_) => None,
    }
}

// The digits of a number in hexadecimal after `+0x`, `0x` or a plus sign.
#[tactic(auto, using(crate::proofs::Replaced::rest_is))]
fn digits_of(word: &[u8]) -> Option<&[u8]>
    ensures { option_map (λ digits. digits.now) result ≡ digits_of word.now }
{
    if word.starts_with(b"+0x") {
        return Some(&word[3..]);
    }
    if word.starts_with(b"0x") {
        return Some(&word[2..]);
    }
    if word.starts_with(b"+") {
        return Some(&word[1..]);
    }
    None
}

/// Writes a line of a stack, with the name of the symbol and the offset in place of the address that it
/// names in a file. The line stays as it is if it names none, if the file has no symbols, if no section
/// contains the address, or if memory is short.
#[tactic(auto, using(crate::proofs::Replaced::line_kept, crate::proofs::Replaced::line_replaced))]
pub fn write_stack_line<W: Write>(
    alloc: Global,
    input: &[u8],
    line: &[u8],
    out: &mut W,
) -> io::Result<()>
    ensures { OnOk result (AppendsSome (IsStackLine input.entry line.now)
        (W.contents out.old) (W.contents out.new)) }
{
    let Some(place) = place_in(line) else {
        return out.write_all(line);
    };
    match text_at(alloc, input, place.address) {
        Some(text) => write_replaced(line, &place, &text, out),
        None => out.write_all(line),
    }
}

// The line of an address of a file; `None` if no section contains it, or there is no such line.
#[tactic(auto, using(crate::proofs::Replaced::only_line))]
fn text_at(alloc: Global, input: &[u8], address: u64) -> Option<Vec<u8>>
    ensures { IfSome result (λ text. AreInputLines Text Symtab (address ∷ []) input.entry text.items) }
{
    let lines = Vec::new(alloc);
    match print_input(
        alloc,
        "",
        input,
        Form::Text,
        Source::Symtab,
        &[address],
        lines,
    ) {
        Ok(text) if !text.starts_with(b"?\n") => Some(text),
        _ => None,
    }
}

// Writes a line with a text without its end in place of an address.
fn write_replaced<W: Write>(line: &[u8], place: &Place, text: &[u8], out: &mut W) -> io::Result<()>
    requires order { place.now.begin ≤ place.now.end }
    requires within { place.now.end ≤ length line.now }
    ensures { OnOk result (Appends (W.contents out.old) (W.contents out.new)
        (take place.now.begin line.now ++ (take (length text.now - 1) text.now
        ++ drop place.now.end line.now))) }
{
    out.write_all(&line[..place.begin])?;
    out.write_all(&text[..text.len().saturating_sub(1)])?;
    out.write_all(&line[place.end..])
}
