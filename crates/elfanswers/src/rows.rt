//! Rows: files, and the results that are wanted of them.
//!
//! Each line of their text is one of these:
//!
//! - `case NAME`: what the rows from here on are called;
//! - `file PATH`: the file that they are of;
//! - `put PLACE BYTES`: with these bytes from a place on, two hexadecimal digits each;
//! - `len FIRST LAST`: cut to each length from one to another;
//! - `under PATH`: read by the header of another file;
//! - `class NUMBER`: read as of another class;
//! - `record KIND BYTES`: with a header or a table that isn't the file's, of which the results are
//!   those of `made 0`;
//! - `symbols BYTES`: with the symbols of a hash table, which is the record;
//! - `is CALL = ANSWER`: the result that is wanted of a call.

use crate::case::{Case, unreadable};
use std::{fs, io, str};

// Where the reader of a text of rows is.
#[derive(Drop)]
struct Rows {
    // The folder of the files.
    folder: String,
    name: String,
    case: Case,
    // The lengths to which the file is cut.
    first: usize,
    last: usize,
    count: u64,
    others: u64,
}

/// How many results the rows of a text want; an error if one is another.
pub fn check_rows(rt: &HostRuntime, path: &str) -> io::Result<u64> {
    let text = fs::read_to_string(rt, path)?;
    let (folder, _) = path.rsplit_once('/').unwrap_or((".", path));
    let mut rows = Rows {
        folder: String::from_str(rt.alloc(), folder)?,
        name: String::new(rt.alloc()),
        case: Case::new(rt.alloc(), Vec::new(rt.alloc())),
        first: 0,
        last: 0,
        count: 0,
        others: 0,
    };
    for line in text.lines() {
        take(rt, &mut rows, line)?;
    }
    match rows.others {
        0 => Ok(rows.count),
        _ => Err(unreadable()),
    }
}

// Takes a line.
fn take(rt: &HostRuntime, rows: &mut Rows, line: &str) -> io::Result<()> {
    let (word, rest) = line.split_once(' ').unwrap_or((line, ""));
    match word {
        "case" => rows.name = String::from_str(rt.alloc(), rest)?,
        "file" => {
            rows.case = Case::new(rt.alloc(), read(rt, rows, rest)?);
            rows.first = rows.case.len();
            rows.last = rows.first;
        }
        "under" => {
            let bytes = read(rt, rows, rest)?;
            rows.case.set_header(bytes);
        }
        "put" => rows.case.put(rt.alloc(), rest)?,
        "class" => rows.case.set_class(rest)?,
        "record" => rows.case.set_record(rt.alloc(), rest)?,
        "symbols" => rows.case.set_symbols(rt.alloc(), rest)?,
        "len" => cut(rows, rest)?,
        "is" => check(rt, rows, rest)?,
        _ => return Err(unreadable()),
    }
    Ok(())
}

// The bytes of a file in the folder.
fn read(rt: &HostRuntime, rows: &Rows, name: &str) -> io::Result<Vec<u8>> {
    let path = format!(in rt.alloc(); "{}/{name}", rows.folder)?;
    fs::read(rt, path.as_str())
}

fn cut(rows: &mut Rows, lengths: &str) -> io::Result<()> {
    let (first, last) = lengths.split_once(' ').ok_or(unreadable())?;
    rows.first = first.parse::<usize>().map_err(|_| unreadable())?;
    rows.last = last.parse::<usize>().map_err(|_| unreadable())?;
    Ok(())
}

// Compares the answers of a row, at each length of the file, with the wanted one.
fn check(rt: &HostRuntime, rows: &mut Rows, row: &str) -> io::Result<()> {
    let (call, wanted) = row.split_once(" = ").ok_or(unreadable())?;
    rows.count = rows.count.saturating_add(1);
    for len in rows.first..=rows.last {
        check_at(rt, rows, call, wanted, len)?;
    }
    Ok(())
}

// Counts and prints the answer at one length where it isn't the wanted one.
fn check_at(
    rt: &HostRuntime,
    rows: &mut Rows,
    call: &str,
    wanted: &str,
    len: usize,
) -> io::Result<()> {
    let found = rows.case.answer(rt.alloc(), call, len)?;
    let found = str::from_utf8(&found).unwrap_or("");
    if found == wanted {
        return Ok(());
    }
    rows.others = rows.others.saturating_add(1);
    let name = rows.name.as_str();
    eprintln!(rt; "{name}, {len} bytes: {call} = {found}, and not {wanted}")
}
