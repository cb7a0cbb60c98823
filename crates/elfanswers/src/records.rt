//! The results of the records of a table.

use crate::printed::{Answer, Place, Shown, tell_of};
use std::io;
use std::io::Write;
use xmas_elf::bytes::{Record, Table};
use xmas_elf::dynamic::Dynamic;
use xmas_elf::sections::{Rel, Rela};
use xmas_elf::{P32, P64};

// So many records of a table are asked, and then the last.
const RECORDS: usize = 40;

/// Whether the record at this index of a table of so many is asked.
pub fn is_asked(index: usize, count: usize) -> bool {
    index < RECORDS || index >= count.saturating_sub(1)
}

/// A record whose results are lines.
pub trait Answered: Record {
    /// What it is called in a line.
    const KIND: &'static str;

    /// Writes the results of the record that is at this place.
    fn write_answers<W: Write>(&self, place: Place, out: &mut W) -> io::Result<()>;
}

/// Writes the kind of the table and how many records it has, and then their results.
pub fn write_table<T: Answered, W: Write>(
    place: Place,
    kind: &'static str,
    table: Table<'_, T>,
    out: &mut W,
) -> io::Result<()> {
    writeln!(out, "{place} get_data = ok {kind} {}", table.len())?;
    write_records(place, table, out)
}

/// Writes the results of the records.
pub fn write_records<T: Answered, W: Write>(
    place: Place,
    table: Table<'_, T>,
    out: &mut W,
) -> io::Result<()> {
    for (k, record) in table.iter().enumerate() {
        if is_asked(k, table.len()) {
            record.write_answers(place.record(T::KIND, k), out)?;
        }
    }
    Ok(())
}

impl Answered for u32 {
    const KIND: &'static str = "word";

    fn write_answers<W: Write>(&self, place: Place, out: &mut W) -> io::Result<()> {
        writeln!(out, "{place} = {self}")
    }
}

impl Answered for u64 {
    const KIND: &'static str = "word";

    fn write_answers<W: Write>(&self, place: Place, out: &mut W) -> io::Result<()> {
        writeln!(out, "{place} = {self}")
    }
}

impl Answered for Rel<P32> {
    const KIND: &'static str = "relocation";

    fn write_answers<W: Write>(&self, place: Place, out: &mut W) -> io::Result<()> {
        let (offset, index) = (self.get_offset(), self.get_symbol_table_index());
        writeln!(out, "{place} = ({offset}, {index}, {})", self.get_type())
    }
}

impl Answered for Rel<P64> {
    const KIND: &'static str = "relocation";

    fn write_answers<W: Write>(&self, place: Place, out: &mut W) -> io::Result<()> {
        let (offset, index) = (self.get_offset(), self.get_symbol_table_index());
        writeln!(out, "{place} = ({offset}, {index}, {})", self.get_type())
    }
}

impl Answered for Rela<P32> {
    const KIND: &'static str = "relocation";

    fn write_answers<W: Write>(&self, place: Place, out: &mut W) -> io::Result<()> {
        let (offset, index) = (self.get_offset(), self.get_symbol_table_index());
        let (kind, addend) = (self.get_type(), self.get_addend());
        writeln!(out, "{place} = ({offset}, {index}, {kind}, {addend})")
    }
}

impl Answered for Rela<P64> {
    const KIND: &'static str = "relocation";

    fn write_answers<W: Write>(&self, place: Place, out: &mut W) -> io::Result<()> {
        let (offset, index) = (self.get_offset(), self.get_symbol_table_index());
        let (kind, addend) = (self.get_type(), self.get_addend());
        writeln!(out, "{place} = ({offset}, {index}, {kind}, {addend})")
    }
}

impl Answered for Dynamic<P32> {
    const KIND: &'static str = "dynamic";

    fn write_answers<W: Write>(&self, place: Place, out: &mut W) -> io::Result<()> {
        let tag = Answer(self.get_tag().map(|tag| Shown(tag)));
        tell_of(place, "get_tag", &tag, out)?;
        tell_of(place, "get_val", &Answer(self.get_val()), out)?;
        tell_of(place, "get_ptr", &Answer(self.get_ptr()), out)
    }
}

impl Answered for Dynamic<P64> {
    const KIND: &'static str = "dynamic";

    fn write_answers<W: Write>(&self, place: Place, out: &mut W) -> io::Result<()> {
        let tag = Answer(self.get_tag().map(|tag| Shown(tag)));
        tell_of(place, "get_tag", &tag, out)?;
        tell_of(place, "get_val", &Answer(self.get_val()), out)?;
        tell_of(place, "get_ptr", &Answer(self.get_ptr()), out)
    }
}
