//! Prints the sections of an ELF file, and the symbols of a 64-bit one: `elfnm PATH`. A name that
//! can't be read is `?`.
#![tactic(auto)]

use anyhow::Context;
use std::env;
use std::fs::File;
use std::io::{BufWriter, Read, Write};
use xmas_elf::ElfFile;
use xmas_elf::sections::{SectionData, ShType};
use xmas_elf::symbol_table::{Entry, SymbolTable};

fn main(rt: HostRuntime) -> anyhow::Result<()> {
    let path = env::args(&rt)?.nth(1).context("usage: elfnm PATH")?;
    let mut input = Vec::new(rt.alloc());
    File::open(&rt, path.as_str())?.read_to_end(&mut input)?;
    let file = ElfFile::new(&input)?;
    let mut out = BufWriter::new(rt.alloc(), rt.stdout())?;
    writeln!(out, "{} sections", file.section_count())?;
    for index in 0..file.section_count() {
        let section = file.section_header_at(index)?;
        let name = file.get_shstr_bytes(section.name()).unwrap_or(b"?");
        write!(out, "{:6} ", section.size())?;
        out.write_all(name)?;
        writeln!(out)?;
        if section.get_type() != Ok(ShType::SymTab) {
            continue;
        }
        if let SectionData::SymbolTable64(symbols) = section.get_data(&file)? {
            let names = SymbolTable::new(symbols, &file);
            for symbol in symbols {
                let name = names.name_bytes_of(&symbol).unwrap_or(b"?");
                write!(out, "    {:016x} ", symbol.value())?;
                out.write_all(name)?;
                writeln!(out)?;
            }
        }
    }
    out.flush()?;
    Ok(())
}
