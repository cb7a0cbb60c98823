//! The results of hash tables that are in no file, with symbols of class 32.

use crate::printed::{Answer, Found, Nothing, Pair};
use std::cell::Cell;
use std::io;
use std::io::Write;
use xmas_elf::bytes::Table;
use xmas_elf::hash::HashTable;
use xmas_elf::symbol_table::Entry32;
use xmas_elf::{ElfError, ElfFile};

/// A hash table and its symbols, whose names are in a file.
#[derive(Clone, Copy)]
pub struct Linked<'b, 'a> {
    file: &'b ElfFile<'a>,
    table: HashTable<'b>,
    symbols: Table<'b, Entry32>,
}

// What both look-ups answer with a test that passes all or none of the symbols: the index, whether
// it is the same of both, the number of symbols that are told, and how often each called the test.
#[derive(Clone, Copy)]
struct Looked {
    index: Result<Option<u32>, ElfError>,
    same: bool,
    number: u32,
    calls: (u32, u32),
}

impl<'b, 'a> Linked<'b, 'a> {
    /// Those that these bytes are, in the order of the file.
    pub fn new(
        file: &'b ElfFile<'a>,
        table: &'b [u8],
        symbols: &'b [u8],
    ) -> Result<Linked<'b, 'a>, ElfError> {
        Ok(Linked {
            file,
            table: HashTable::read(table, file.byte_order())?,
            symbols: Table::new(symbols, file.byte_order())?,
        })
    }

    /// Writes what a call returns, and nothing where there is no such call here.
    pub fn write_call<W: Write>(&self, call: &str, out: &mut W) -> io::Result<()> {
        let (call, argument) = call.split_once(' ').unwrap_or((call, ""));
        match call {
            "check" => {
                let check = self.table.check(&self.symbols, self.file);
                write!(out, "{}", Answer(check.map(|_| Nothing)))
            }
            "check_with" => self.write_lent_check(number(argument), out),
            "get_bucket" => write!(out, "{}", Answer(self.table.get_bucket(number(argument)))),
            "get_chain" => write!(out, "{}", Answer(self.table.get_chain(number(argument)))),
            "lookup" => write_index(&self.look_up(argument), out),
            "lookup_count" => write_count(&self.look_up(argument), out),
            "lookup_bound" => write!(out, "{}", self.is_bounded(&self.look_up(argument))),
            _ => Ok(()),
        }
    }

    // Writes what `check_with` answers with so many words, at most 64, which say something else before.
    fn write_lent_check<W: Write>(&self, count: u32, out: &mut W) -> io::Result<()> {
        let mut words = [u32::MAX; 64];
        let Some(words) = words.get_mut(..count as usize) else {
            return Ok(());
        };
        let check = self.table.check_with(&self.symbols, self.file, words);
        write!(out, "{}", Answer(check.map(|_| Nothing)))
    }

    // Looks a name up, behind `all` or `none` for what the test passes.
    fn look_up(&self, argument: &str) -> Looked {
        let (passed, name) = argument.split_once(' ').unwrap_or((argument, ""));
        let calls = Cell::new(0u32);
        let test = |_: &Entry32| {
            calls.set(calls.get().wrapping_add(1));
            passed == "all"
        };
        let (answer, number) = self
            .table
            .lookup_counted(name, &self.symbols, self.file, test);
        let index = answer.map(|found| found.map(|symbol| symbol.0));
        let counted = calls.get();
        calls.set(0);
        let test = |_: &Entry32| {
            calls.set(calls.get().wrapping_add(1));
            passed == "all"
        };
        let answer = self.table.lookup(name, &self.symbols, self.file, test);
        let again = answer.map(|found| found.map(|symbol| symbol.0));
        Looked {
            index,
            same: again == index,
            number,
            calls: (counted, calls.get()),
        }
    }

    // Whether no more symbols are told than there are, and the test was called for as many at most.
    fn is_bounded(&self, looked: &Looked) -> bool {
        let number = looked.number as usize;
        let calls = looked.calls.0.max(looked.calls.1);
        number <= self.symbols.len() && calls as usize <= number
    }
}

fn number(text: &str) -> u32 {
    text.parse::<u32>().unwrap_or(0)
}

fn write_index<W: Write>(looked: &Looked, out: &mut W) -> io::Result<()> {
    match looked.same {
        true => write!(out, "{}", Answer(looked.index.map(|found| Found(found)))),
        false => write!(out, "another answer of lookup"),
    }
}

fn write_count<W: Write>(looked: &Looked, out: &mut W) -> io::Result<()> {
    let calls = Pair(looked.calls.0, looked.calls.1);
    write!(out, "{}", Pair(looked.number, calls))
}
