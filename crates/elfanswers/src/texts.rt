//! The results of the calls that look for texts, names and links to debug information.

use crate::printed::{Answer, Found, Pair, Quoted, Told, tell};
use std::io;
use std::io::Write;
use xmas_elf::hash::hash;
use xmas_elf::{ElfFile, Extensions};

const NAMES: [&str; 10] = [
    ".strtab",
    ".dynstr",
    ".symtab",
    ".text",
    ".note.gnu.build-id",
    ".gnu_debuglink",
    ".gnu_debugaltlink",
    ".symtab_shndx",
    ".absent",
    "",
];

const INDICES: [u32; 7] = [0, 1, 2, 9, 100, 0x7fff_ffff, 0xffff_ffff];

/// Writes them.
pub fn write_texts<W: Write>(file: &ElfFile<'_>, out: &mut W) -> io::Result<()> {
    for index in INDICES {
        write_strings(file, index, out)?;
    }
    for name in NAMES {
        write_named(file, name, out)?;
    }
    write_links(file, out)
}

fn write_strings<W: Write>(file: &ElfFile<'_>, index: u32, out: &mut W) -> io::Result<()> {
    let text = Answer(file.get_shstr(index).map(|text| Quoted(text)));
    writeln!(out, "get_shstr {index} = {text}")?;
    let text = Answer(file.get_string(index).map(|text| Quoted(text)));
    writeln!(out, "get_string {index} = {text}")?;
    let text = Answer(file.get_dyn_string(index).map(|text| Quoted(text)));
    writeln!(out, "get_dyn_string {index} = {text}")
}

fn write_named<W: Write>(file: &ElfFile<'_>, name: &str, out: &mut W) -> io::Result<()> {
    let section = file.find_section_by_name(name);
    let found = Found(section.map(|it| Pair(it.name(), it.offset())));
    writeln!(out, "find_section_by_name {name} = {found}")?;
    writeln!(out, "hash {name} = {}", hash(name))
}

/// Writes the results of the calls that look for links to debug information.
pub fn write_links<W: Write>(file: &ElfFile<'_>, out: &mut W) -> io::Result<()> {
    let id = Found(file.get_gnu_buildid().map(|id| Told(id)));
    tell("extensions get_gnu_buildid", &id, out)?;
    let link = file.get_gnu_debuglink();
    let link = Found(link.map(|it| Pair(Quoted(it.0), it.1)));
    tell("extensions get_gnu_debuglink", &link, out)?;
    let link = file.get_gnu_debugaltlink();
    let link = Found(link.map(|it| Pair(Quoted(it.0), Told(it.1))));
    tell("extensions get_gnu_debugaltlink", &link, out)
}
