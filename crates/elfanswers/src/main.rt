//! Prints each result of the library over files: `elfanswers PATH..`, a line for each call.
//!
//! `oracle/answers` prints the same lines of the Rust crate,
//! and `tools/compare/rust.py` compares them. Of a path that ends in `.rows` it prints how many
//! results its rows want (`rows`), and on standard error each that is another.
#![tactic(auto)]

mod answers;
mod calls;
mod case;
mod header;
mod lookups;
mod made;
mod printed;
mod records;
mod rows;
mod sections;
mod segments;
mod symbols;
mod texts;

use answers::write_answers;
use printed::Quoted;
use rows::check_rows;
use std::io::{BufWriter, Write};
use std::{env, fs, io};

fn main(rt: HostRuntime) -> io::Result<()> {
    let mut arguments = env::args(&rt)?;
    let _program = arguments.next();
    let mut out = BufWriter::new(rt.alloc(), rt.stdout())?;
    for path in arguments {
        if path.as_str().ends_with(".rows") {
            let count = check_rows(&rt, path.as_str())?;
            writeln!(out, "{}: {count} rows", path.as_str())?;
        } else {
            let input = fs::read(&rt, path.as_str())?;
            writeln!(out, "path {}", Quoted(path.as_str()))?;
            write_answers(&input, &mut out)?;
        }
    }
    out.flush()
}
