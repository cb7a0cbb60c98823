//! A line for each address: the symbol or the section that it is in, and the offset there.

ghost use Rattle.std.specs.Prelude.{◌≡◌, ◌-◌, ⊤, OnOk, Some, false, length, true};
ghost use Rattle.std.specs.Io.KnownBytes.{Appends};
ghost use Rattle.elf_addresses.specs.Claims.{IsInnermost};
ghost use Rattle.elf_addresses.specs.Index.{IsBuilt, IsWellBuilt, listed};
ghost use Rattle.elfaddr.specs.Lines.{AreLines, IsLine, IsSectionLine, nowhere_line, offset_text};
ghost use Rattle.elfaddr.specs.Lines.{place_line, place_record, place_text};
ghost use Rattle.program_ends.proofs.Flushed.{appended_flushed};
ghost use Rattle.program_ends.specs.Appended.{AppendsSome};
ghost use Rattle.program_ends.specs.declared.json.Form.TheVariants.{Json};

use crate::names::{Named, or_mark};
use elf_addresses::{Claim, ClaimIndex, IndexSize, build_sized, index_size, innermost, section_at};
use elf_linking::LinkError;
use program_ends::json::{Form, Member, Value, write_json};
use program_ends::{Output, Stop, write_name};
use std::alloc::Global;
use std::fmt::Display;
use std::io::Write;
use std::{fmt, io};
use xmas_elf::ElfFile;

// A line for each address, by the symbols of the file.
#[derive(Clone, Copy)]
pub(crate) struct Lines<'f, 'a, C> {
    pub(crate) alloc: Global,
    pub(crate) form: Form,
    pub(crate) file: &'f ElfFile<'a>,
    pub(crate) claims: &'f C,
    pub(crate) addresses: &'f [u64],
}

impl<C: Named> Output for Lines<'_, '_, C> {
    ghost Writes = { λ lines. AppendsSome (AreLines lines.form (C.claim_of lines.claims.now)
        (C.name_of lines.claims.now) lines.file.now lines.addresses.now) };

    ghost flushed = { λ lines. appended_flushed (AreLines lines.form (C.claim_of lines.claims.now)
        (C.name_of lines.claims.now) lines.file.now lines.addresses.now) };

    type Error = LinkError;

    ghost Fails = { λ lines error. ⊥ };

    ghost Begins = { λ lines. ⊤ };

    // Without memory for the words and numbers of an index the lines are the same, and take longer.
    fn write_to<W: Write>(&self, out: &mut W) -> Result<(), Stop<LinkError>> {
        let size = index_size(self.claims);
        let (words, numbers) = room_for(size, self.addresses.len());
        let words = vec![in self.alloc; 0; words];
        let mut words = words.unwrap_or(Vec::new(self.alloc));
        let numbers = vec![in self.alloc; 0; numbers];
        let mut numbers = numbers.unwrap_or(Vec::new(self.alloc));
        match build_sized(self.claims, size, &mut words, &mut numbers) {
            Ok(()) => match write_indexed(self, size, &words, &numbers, out) {
                Ok(()) => Ok(()),
                Err(_) => Err(Stop::Write),
            },
            Err(_) => match write_slowly(self, out) {
                Ok(()) => Ok(()),
                Err(_) => Err(Stop::Write),
            },
        }
    }
}

// How many words and numbers an index is given; none for few addresses, which passes over the symbols
// find sooner.
fn room_for(size: IndexSize, addresses: usize) -> (usize, usize) {
    if addresses < 4 {
        (0, 0)
    } else {
        (size.words(), size.numbers())
    }
}

// A line for each address, by an index of a size in words and numbers.
fn write_indexed<C: Named, W: Write>(
    lines: &Lines<'_, '_, C>,
    size: IndexSize,
    words: &[u32],
    numbers: &[u64],
    out: &mut W,
) -> io::Result<()>
    requires built { IsBuilt (C.claim_of lines.now.claims.now) (C.range_of lines.now.claims.now)
        (C.count lines.now.claims.now) words.now numbers.now }
    requires sized { size.sized ≡ length (listed (C.claim_of lines.now.claims.now) false
        (C.count lines.now.claims.now)) }
    requires open { size.open ≡ length (listed (C.claim_of lines.now.claims.now) true
        (C.count lines.now.claims.now)) }
    ensures { OnOk result (AppendsSome (AreLines lines.now.form (C.claim_of lines.now.claims.now)
        (C.name_of lines.now.claims.now) lines.now.file.now lines.now.addresses.now)
        (W.contents out.old) (W.contents out.new)) }
{
    let index = ClaimIndex::lend(lines.claims, size, words, numbers);
    write_each(lines, &index, out)
}

// A line for each address, by an index.
fn write_each<C: Named, W: Write>(
    lines: &Lines<'_, '_, C>,
    index: &ClaimIndex<'_, '_, C>,
    out: &mut W,
) -> io::Result<()>
    requires same { index.now.claims.now ≡ lines.now.claims.now }
    requires built { IsWellBuilt (C.claim_of index.now.claims.now)
        (C.range_of index.now.claims.now) index.now.sized.now index.now.begins.now
        index.now.sizes.now index.now.lasting.now index.now.starts.now }
    ensures { OnOk result (AppendsSome (AreLines lines.now.form (C.claim_of lines.now.claims.now)
        (C.name_of lines.now.claims.now) lines.now.file.now lines.now.addresses.now)
        (W.contents out.old) (W.contents out.new)) }
{
    for address in lines.addresses {
        let found = index.innermost(*address);
        write_line(lines, found, *address, out)?;
    }
    Ok(())
}

// A line for each address, by a pass over the symbols for each.
fn write_slowly<C: Named, W: Write>(lines: &Lines<'_, '_, C>, out: &mut W) -> io::Result<()>
    ensures { OnOk result (AppendsSome (AreLines lines.now.form (C.claim_of lines.now.claims.now)
        (C.name_of lines.now.claims.now) lines.now.file.now lines.now.addresses.now)
        (W.contents out.old) (W.contents out.new)) }
{
    for address in lines.addresses {
        let found = innermost(lines.claims, *address);
        write_line(lines, found, *address, out)?;
    }
    Ok(())
}

// The line of an address, by the innermost symbol that covers it.
fn write_line<C: Named, W: Write>(
    lines: &Lines<'_, '_, C>,
    found: Option<Claim>,
    address: u64,
    out: &mut W,
) -> io::Result<()>
    requires { IsInnermost (C.claim_of lines.now.claims.now) address found }
    ensures { OnOk result (AppendsSome (IsLine lines.now.form (C.claim_of lines.now.claims.now)
        (C.name_of lines.now.claims.now) lines.now.file.now address)
        (W.contents out.old) (W.contents out.new)) }
{
    match found {
        Some(claim) => {
            let name = lines.claims.name(claim.index);
            let offset = offset_from(address, claim.begin);
            write_place(lines.form, address, "symbol", name, offset, out)
        }
        None => write_section(lines.form, lines.file, address, out),
    }
}

// The line of an address in no symbol.
fn write_section<W: Write>(
    form: Form,
    file: &ElfFile<'_>,
    address: u64,
    out: &mut W,
) -> io::Result<()>
    ensures { OnOk result (AppendsSome (IsSectionLine form file.now address)
        (W.contents out.old) (W.contents out.new)) }
{
    match section_at(file, address) {
        Some((_index, section)) => {
            let name = or_mark(file.section_name(&section));
            let offset = offset_from(address, section.address());
            write_place(form, address, "section", name, offset, out)
        }
        None => write_nowhere(form, address, out),
    }
}

// The offset of an address from the first one of its symbol or section.
#[inline(always)]
fn offset_from(address: u64, first: u64) -> u64
    ensures { result ≡ address - first }
{
    address.saturating_sub(first)
}

// The line of an address in a symbol or a section, by its name and the offset there.
fn write_place<W: Write>(
    form: Form,
    address: u64,
    key: &str,
    name: &[u8],
    offset: u64,
    out: &mut W,
) -> io::Result<()>
    ensures { OnOk result (Appends (W.contents out.old) (W.contents out.new)
        (place_line form address key.now name.now offset)) }
{
    match form {
        Form::Text => write_text(name, offset, out),
        Form::Json => write_record(address, key, name, offset, out),
    }
}

// The line of an address that is in none.
fn write_nowhere<W: Write>(form: Form, address: u64, out: &mut W) -> io::Result<()>
    ensures { OnOk result (Appends (W.contents out.old) (W.contents out.new)
        (nowhere_line form address)) }
{
    match form {
        Form::Text => out.write_all(b"?\n"),
        Form::Json => write_null(address, out),
    }
}

// A name and an offset, as a line of text.
fn write_text<W: Write>(name: &[u8], offset: u64, out: &mut W) -> io::Result<()>
    ensures { OnOk result (Appends (W.contents out.old) (W.contents out.new)
        (place_text name.now offset)) }
{
    write_name(name, out)?;
    write!(out, "{}", Offset(offset))
}

// An address, a name and an offset, as JSON.
fn write_record<'x, W: Write>(
    address: u64,
    key: &'x str,
    name: &'x [u8],
    offset: u64,
    out: &mut W,
) -> io::Result<()>
    ensures { OnOk result (Appends (W.contents out.old) (W.contents out.new)
        (place_record address key.now name.now offset)) }
{
    let members = [
        Member {
            key: "address",
            value: Value::Number(address),
        },
        Member {
            key,
            value: Value::Name(name),
        },
        Member {
            key: "offset",
            value: Value::Number(offset),
        },
    ];
    write_json(&members, out)
}

// An address that is in no symbol and no section, as JSON.
fn write_null<W: Write>(address: u64, out: &mut W) -> io::Result<()>
    ensures { OnOk result (Appends (W.contents out.old) (W.contents out.new)
        (nowhere_line Json address)) }
{
    let members = [
        Member {
            key: "address",
            value: Value::Number(address),
        },
        Member {
            key: "symbol",
            value: Value::Null,
        },
        Member {
            key: "section",
            value: Value::Null,
        },
    ];
    write_json(&members, out)
}

// An offset in hexadecimal, and the end of its line.
#[derive(Clone, Copy)]
struct Offset(u64);

impl Display for Offset {
    ghost output = { λ offset. Some (offset_text offset.0) };

    fn fmt<W: fmt::Write>(&self, f: &mut fmt::Formatter<W>) -> fmt::Result {
        writeln!(f, "+0x{:x}", self.0)
    }
}
