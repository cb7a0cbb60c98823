//! The symbol that each address of a file is in, as `name+0xoffset`, and what the other recipes of
//! `docs/RECIPES.md` print of the file: `elfrecipes FILE [ADDRESS..]`, with hexadecimal addresses.
#![tactic(auto)]

mod printed;

use anyhow::{Context, anyhow};
use elf_addresses::{AddressSymbols, SymbolIndex};
use elf_linking::FileSymbols;
use std::alloc::Global;
use std::env;
use std::fs::File;
use std::io::{BufWriter, Read, Write};
use xmas_elf::ElfFile;
use xmas_elf::bytes::{Record, Table};
use xmas_elf::symbol_table::{Entry, SymbolTable};

// Writes a line for each address; `??` if no symbol covers it.
fn write_places<E: Entry + Record, W: Write>(
    alloc: Global,
    file: &ElfFile<'_>,
    names: &SymbolTable<'_, E>,
    addresses: &[String],
    out: &mut W,
) -> anyhow::Result<()> {
    let symbols = AddressSymbols {
        table: names.table(),
        strings: names.strings().context("no string table")??,
        indices: Table::new(&[], file.byte_order())?,
        machine: file.header.pt2.machine().raw(),
    };
    let size = SymbolIndex::size(&symbols, None);
    let mut words = vec![in alloc; 0u32; size.words()]?;
    let mut numbers = vec![in alloc; 0u64; size.numbers()]?;
    SymbolIndex::build(&symbols, None, &mut words, &mut numbers)?;
    let index = SymbolIndex::lend(&symbols, None, size, &words, &numbers);
    for digits in addresses {
        match index.symbol_at(u64::from_str_radix(digits.as_str(), 16)?) {
            Some(at) => {
                out.write_all(names.name_bytes_of(&at.symbol).unwrap_or(b"?"))?;
                writeln!(out, "+0x{:x}", at.offset)?;
            }
            None => writeln!(out, "??")?,
        }
    }
    Ok(())
}

fn main(rt: HostRuntime) -> anyhow::Result<()> {
    let words: Vec<String> = env::args(&rt)?.skip(1).collect(rt.alloc())?;
    let [path, addresses @ ..] = words.as_slice() else {
        return Err(anyhow!("usage: elfrecipes FILE [ADDRESS..]"));
    };
    let mut input = Vec::new(rt.alloc());
    File::open(&rt, path.as_str())?.read_to_end(&mut input)?;
    let file = ElfFile::new(&input)?;
    let mut out = BufWriter::new(rt.alloc(), rt.stdout())?;
    match FileSymbols::read(&file).map_err(|error| anyhow!("{error}"))? {
        FileSymbols::Narrow(names) => write_places(rt.alloc(), &file, &names, addresses, &mut out)?,
        FileSymbols::Wide(names) => write_places(rt.alloc(), &file, &names, addresses, &mut out)?,
    }
    printed::write_recipes(&file, &mut out)?;
    out.flush()?;
    Ok(())
}
