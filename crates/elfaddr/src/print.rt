//! The lines of a file by the symbols that are asked for.

ghost use Rattle.std.specs.Prelude.{◌≡◌, MatchResult, Ok, length, ⊤};
ghost use Rattle.elf_addresses.specs.OfFile.{HasNoSymbols};
ghost use Rattle.elf_addresses.specs.SymbolClaims.{symbol_items};
ghost use Rattle.elf_linking.specs.DynamicObject.{IsObjectError};
ghost use Rattle.elf_linking.specs.DynamicView.{dynamic_strings_of};
ghost use Rattle.elfaddr.specs.Asked.{AreAsked, AreLinesBy, AreOfFile, AreFailed, AreFailedOfFile};
ghost use Rattle.elfaddr.specs.Asked.{AreThere, FromDladdr, FromDynamic, FromFile};
ghost use Rattle.elfaddr.specs.Asked.{claims_of, kind, parts_in};
ghost use Rattle.elfaddr.specs.Lines.{AreLines, name_in};
ghost use Rattle.elfaddr.specs.Tables.{IsDladdrObject, IsDladdrError};
ghost use Rattle.elfaddr.specs.Tables.{IsReach, IsTableCount};
ghost use Rattle.program_ends.specs.Appended.{AppendsSome};
ghost use Rattle.program_ends.specs.Ends.{IsFault};

use crate::Source;
use crate::lines::Lines;
use crate::names::Named;
use elf_addresses::dladdr::{DladdrSymbols, Reach, fill_reached};
use elf_addresses::{AddressSymbols, SymbolClaims};
use elf_linking::view::{DynamicView, LinkedSymbol, strings};
use elf_linking::{AnyTable, DynamicObject, LinkError};
use program_ends::json::Form;
use program_ends::{Fault, fault_of, write_buffered};
use std::alloc::Global;
use std::io::Write;
use xmas_elf::ElfFile;
use xmas_elf::bytes::Record;
use xmas_elf::symbol_table::{DynEntry32, DynEntry64, Entry};

// A line for each address, by the class of the file.
pub(crate) fn print_file<'a, W: Write + Drop>(
    alloc: Global,
    path: &'a str,
    file: &ElfFile<'_>,
    form: Form,
    source: Source,
    addresses: &[u64],
    out: W,
) -> Result<W, Fault<'a, LinkError>>
    ensures { let asked = AreOfFile file.now source in
        MatchResult result (λ back. AppendsSome (AreLinesBy form asked file.now addresses.now)
        (W.contents out) (W.contents back))
        (IsFault path.entry (AreFailedOfFile file.now source) (AreThere asked)) }
{
    if file.header.pt1.class.raw() == 1 {
        return print_by::<DynEntry32, W>(alloc, path, file, form, source, addresses, out);
    }
    // A file is of class 32 or 64.
    print_by::<DynEntry64, W>(alloc, path, file, form, source, addresses, out)
}

// The lines by symbols of this type.
fn print_by<'a, D: LinkedSymbol, W: Write + Drop>(
    alloc: Global,
    path: &'a str,
    file: &ElfFile<'_>,
    form: Form,
    source: Source,
    addresses: &[u64],
    out: W,
) -> Result<W, Fault<'a, LinkError>>
    ensures { let asked = AreAsked D.CLASS (kind D.SIZE D.value D.fields) file.now source in
        MatchResult result (λ back. AppendsSome (AreLinesBy form asked file.now addresses.now)
        (W.contents out) (W.contents back))
        (IsFault path.entry (AreFailed D.CLASS D.SIZE file.now source) (AreThere asked)) }
{
    match source {
        Source::Symtab => print_symtab::<D, W>(alloc, path, file, form, addresses, out),
        Source::Dynamic => print_dynamic::<D, W>(alloc, path, file, form, addresses, out),
        Source::Dladdr => print_dladdr::<D, W>(alloc, path, file, form, addresses, out),
    }
}

// The lines by the symbol table of the file, or else by the dynamic symbols.
fn print_symtab<'a, D: LinkedSymbol, W: Write + Drop>(
    alloc: Global,
    path: &'a str,
    file: &ElfFile<'_>,
    form: Form,
    addresses: &[u64],
    out: W,
) -> Result<W, Fault<'a, LinkError>>
    ensures { let asked = FromFile D.CLASS (kind D.SIZE D.value D.fields) file.now in
        MatchResult result (λ back. AppendsSome (AreLinesBy form asked file.now addresses.now)
        (W.contents out) (W.contents back))
        (IsFault path.entry (HasNoSymbols D.CLASS D.SIZE file.now) (AreThere asked)) }
{
    match AddressSymbols::<D>::of_file(file) {
        Ok(symbols) => print_symbols(alloc, path, file, &symbols, form, addresses, out),
        Err(error) => Err(Fault::Failed { path, error }),
    }
}

// The lines by the dynamic symbols.
fn print_dynamic<'a, D: LinkedSymbol, W: Write + Drop>(
    alloc: Global,
    path: &'a str,
    file: &ElfFile<'_>,
    form: Form,
    addresses: &[u64],
    out: W,
) -> Result<W, Fault<'a, LinkError>>
    ensures { let asked = FromDynamic D.CLASS (kind D.SIZE D.value D.fields) file.now in
        MatchResult result (λ back. AppendsSome (AreLinesBy form asked file.now addresses.now)
        (W.contents out) (W.contents back))
        (IsFault path.entry (IsObjectError D.CLASS D.SIZE file.now) (AreThere asked)) }
{
    match AddressSymbols::<D>::of_dynamic(file) {
        Ok(symbols) => print_symbols(alloc, path, file, &symbols, form, addresses, out),
        Err(error) => Err(Fault::Failed { path, error }),
    }
}

// The lines by symbols with their names.
fn print_symbols<'a, E: Entry + Record, W: Write + Drop>(
    alloc: Global,
    path: &'a str,
    file: &ElfFile<'_>,
    symbols: &AddressSymbols<'_, E>,
    form: Form,
    addresses: &[u64],
    out: W,
) -> Result<W, Fault<'a, LinkError>>
    ensures { MatchResult result
        (λ back. AppendsSome (AreLines form (claims_of E.fields (parts_in symbols.now))
        (name_in E.fields (symbol_items symbols.now) symbols.now.strings.now) file.now
        addresses.now) (W.contents out) (W.contents back))
        (IsFault path.entry (λ error. ⊥) ⊤) }
{
    let claims = SymbolClaims {
        symbols,
        within: None,
    };
    print_lines(alloc, path, file, &claims, form, addresses, out)
}

// The lines by the symbols that `dladdr` finds.
fn print_dladdr<'a, D: LinkedSymbol, W: Write + Drop>(
    alloc: Global,
    path: &'a str,
    file: &ElfFile<'_>,
    form: Form,
    addresses: &[u64],
    out: W,
) -> Result<W, Fault<'a, LinkError>>
    ensures { let asked = FromDladdr D.CLASS (kind D.SIZE D.value D.fields) file.now in
        MatchResult result (λ back. AppendsSome (AreLinesBy form asked file.now addresses.now)
        (W.contents out) (W.contents back))
        (IsFault path.entry (IsDladdrError D.CLASS D.SIZE file.now) (AreThere asked)) }
{
    match object_with_strings::<D>(file) {
        Ok((object, strings)) => {
            print_reached(alloc, path, file, &object, strings, form, addresses, out)
        }
        Err(error) => Err(Fault::Failed { path, error }),
    }
}

// The number of symbols by the hash table that `dladdr` reads: GNU's if there is one, whatever the
// chains of the other.
fn table_count(file: &ElfFile<'_>) -> Result<u64, LinkError>
    ensures { IsTableCount file.now result }
{
    let view = DynamicView::read(file)?;
    let table = AnyTable::read(&view, file)?;
    match table {
        AnyTable::Gnu(table) => table.symbol_count(),
        AnyTable::Sysv(table) => Ok(u64::from(table.chain_count())),
    }
}

// A file as an object with as many dynamic symbols as this table counts, and the string table of its
// dynamic segment.
fn object_with_strings<'a, D: LinkedSymbol>(
    file: &ElfFile<'a>,
) -> Result<(DynamicObject<'a, D>, &'a [u8]), LinkError>
    ensures { MatchResult result
        (λ parts. IsDladdrObject D.CLASS D.SIZE file.now parts.0
        × (dynamic_strings_of file.now ≡ Ok parts.1.now))
        (IsDladdrError D.CLASS D.SIZE file.now) }
{
    let count = table_count(file)?;
    let object = DynamicObject::<D>::read_counted(file, count)?;
    let Ok(strings) = strings(file) else {
        unreachable!();
    };
    Ok((object, strings))
}

// The lines by those symbols of an object that its hash table reaches.
fn print_reached<'a, 'f, D: LinkedSymbol, W: Write + Drop>(
    alloc: Global,
    path: &'a str,
    file: &ElfFile<'_>,
    object: &DynamicObject<'f, D>,
    strings: &'f [u8],
    form: Form,
    addresses: &[u64],
    out: W,
) -> Result<W, Fault<'a, LinkError>>
    requires object { IsDladdrObject D.CLASS D.SIZE file.now object.now }
    requires strings { dynamic_strings_of file.now ≡ Ok strings.now }
    ensures { let asked = FromDladdr D.CLASS (kind D.SIZE D.value D.fields) file.now in
        MatchResult result (λ back. AppendsSome (AreLinesBy form asked file.now addresses.now)
        (W.contents out) (W.contents back))
        (IsFault path.entry (IsDladdrError D.CLASS D.SIZE file.now) (AreThere asked)) }
{
    let table = object.symbols().table();
    let count = table.len();
    let Ok(mut words) = vec![in alloc; 0u32; count] else {
        return Err(Fault::Memory);
    };
    let hash = object.table();
    let reach = reach_by(&hash, &mut words);
    let symbols = DladdrSymbols {
        table,
        strings,
        reach,
    };
    print_lines(alloc, path, file, &symbols, form, addresses, out)
}

// The symbols that a hash table reaches, in words for GNU's.
fn reach_by<'w>(table: &AnyTable<'_>, words: &'w mut [u32]) -> Reach<'w>
    ensures { IsReach table.now (length words.old) result }
{
    match table {
        AnyTable::Gnu(table) => {
            fill_reached(table, words);
            Reach::Buckets(words)
        }
        AnyTable::Sysv(table) => Reach::Chains(table.chain_count()),
    }
}

// A line for each address by these symbols.
fn print_lines<'a, C: Named, W: Write + Drop>(
    alloc: Global,
    path: &'a str,
    file: &ElfFile<'_>,
    claims: &C,
    form: Form,
    addresses: &[u64],
    out: W,
) -> Result<W, Fault<'a, LinkError>>
    ensures { MatchResult result
        (λ back. AppendsSome (AreLines form (C.claim_of claims.now) (C.name_of claims.now) file.now
        addresses.now) (W.contents out) (W.contents back))
        (IsFault path.entry (λ error. ⊥) ⊤) }
{
    let lines = Lines {
        alloc,
        form,
        file,
        claims,
        addresses,
    };
    match write_buffered(alloc, &lines, out) {
        Ok(out) => Ok(out),
        Err(stop) => Err(fault_of(stop, path)),
    }
}
