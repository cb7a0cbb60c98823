//! The lines of a tree: the objects below those that had them loaded, the versions that are missing,
//! and the order of starts.

use crate::records::write_record;
use crate::texts::write_text;
use program_ends::json::Form;
use program_ends::{Output, Stop};
use program_libraries::{Entry, LackedVersion, Object, Tree};
use std::io;
use std::io::Write;

/// What is written of a tree.
#[derive(Clone, Copy)]
pub(crate) struct Lines<'t> {
    // As text or JSON.
    pub(crate) form: Form,
    // Whether only the paths are written, and whether the order of starts is.
    pub(crate) is_list: bool,
    pub(crate) has_starts: bool,
    pub(crate) tree: &'t Tree,
    pub(crate) lacked: &'t [LackedVersion<'t>],
}

/// A line.
#[derive(Clone, Copy)]
pub(crate) enum Line<'t> {
    /// The program, with its place in the order in which names are looked up.
    Program {
        object: &'t Object,
        place: usize,
    },
    /// An object that an entry had loaded, with that place.
    Found {
        asked: Asked<'t>,
        object: &'t Object,
        place: usize,
    },
    /// An entry whose library is missing.
    Missing(Asked<'t>),
    /// A version that a library lacks.
    Version(&'t LackedVersion<'t>),
    /// The path of a library that starts.
    Start(&'t str),
    /// The path of an object that is in the list.
    Path(&'t str),
}

/// An entry, the object that has it, and how deep below the program its line is.
#[derive(Clone, Copy)]
pub(crate) struct Asked<'t> {
    pub(crate) depth: usize,
    pub(crate) object: &'t Object,
    pub(crate) entry: &'t Entry,
}

// An entry of an object that comes next, and how deep the object is.
#[derive(Clone, Copy)]
struct Place {
    object: u32,
    entry: u32,
    depth: usize,
}

impl Output for Lines<'_> {
    ghost use Rattle.std.specs.Prelude.{⊤};

    ghost Writes = { λ _ _ _. ⊤ };

    ghost flushed = { λ _ _ _ _ _ _. tt };

    type Error = ();

    ghost Fails = { λ _ _. ⊥ };

    ghost Begins = { λ _. ⊤ };

    fn write_to<W: Write>(&self, out: &mut W) -> Result<(), Stop<()>> {
        match write_lines(self, out) {
            Ok(()) => Ok(()),
            Err(_) => Err(Stop::Write),
        }
    }
}

// All lines.
fn write_lines<W: Write>(lines: &Lines<'_>, out: &mut W) -> io::Result<()> {
    if lines.is_list {
        return write_list(lines, out);
    }
    write_tree(lines, out)?;
    for lacked in lines.lacked {
        write_line(lines, Line::Version(lacked), out)?;
    }
    if lines.has_starts {
        write_starts(lines, out)?;
    }
    Ok(())
}

// A line, as text or JSON.
fn write_line<'t, W: Write>(lines: &Lines<'t>, line: Line<'t>, out: &mut W) -> io::Result<()> {
    match lines.form {
        Form::Text => write_text(line, out),
        Form::Json => write_record(program_path(lines.tree), line, out),
    }
}

// The path of the program.
fn program_path(tree: &Tree) -> &str {
    match tree.object(0) {
        Some(program) => &program.path,
        None => "",
    }
}

// The path of each object, in the order in which names are looked up.
fn write_list<W: Write>(lines: &Lines<'_>, out: &mut W) -> io::Result<()> {
    for number in &lines.tree.list {
        if let Some(object) = lines.tree.object(*number) {
            write_line(lines, Line::Path(&object.path), out)?;
        }
    }
    Ok(())
}

// The libraries in the order in which they start.
fn write_starts<W: Write>(lines: &Lines<'_>, out: &mut W) -> io::Result<()> {
    for number in &lines.tree.starts {
        if let Some(object) = lines.tree.object(*number) {
            write_line(lines, Line::Start(&object.path), out)?;
        }
    }
    Ok(())
}

// The program, and below each object those that it had loaded.
fn write_tree<W: Write>(lines: &Lines<'_>, out: &mut W) -> io::Result<()> {
    let Some(object) = lines.tree.object(0) else {
        return Ok(());
    };
    let program = Line::Program {
        object,
        place: lines.tree.place_of(0),
    };
    write_line(lines, program, out)?;
    let mut place = Place {
        object: 0,
        entry: 0,
        depth: 1,
    };
    for _ in 0..lines.tree.step_count() {
        match next_place(lines, place, out)? {
            Some(next) => place = next,
            None => return Ok(()),
        }
    }
    Ok(())
}

// Writes the line of an entry, if it has one, and returns the entry that comes next: of the object that
// it had loaded, of its own object, or behind the last that of the object which had this one loaded.
fn next_place<W: Write>(lines: &Lines<'_>, place: Place, out: &mut W) -> io::Result<Option<Place>> {
    let Some(object) = lines.tree.object(place.object) else {
        return Ok(None);
    };
    let Some(entry) = object.entries.get(place.entry as usize) else {
        return Ok(place_above(object, place));
    };
    let own = (place.object, place.entry);
    let asked = Asked {
        depth: place.depth,
        object,
        entry,
    };
    match lines.tree.found_by(own) {
        None if entry.is_passed_over => {}
        None => write_line(lines, Line::Missing(asked), out)?,
        Some((number, found)) if number > 0 && found.loader == own => {
            write_line(lines, found_line(lines.tree, asked, number, found), out)?;
            return Ok(Some(Place {
                object: number,
                entry: 0,
                depth: place.depth.saturating_add(1),
            }));
        }
        Some(_) => {}
    }
    Ok(Some(Place {
        entry: place.entry.saturating_add(1),
        ..place
    }))
}

// The entry after that by which an object was loaded; `None` after the last entry of the program.
fn place_above(object: &Object, place: Place) -> Option<Place> {
    if place.object == 0 {
        return None;
    }
    Some(Place {
        object: object.loader.0,
        entry: object.loader.1.saturating_add(1),
        depth: place.depth.saturating_sub(1),
    })
}

// The line of an entry that had an object loaded.
fn found_line<'t>(tree: &'t Tree, asked: Asked<'t>, number: u32, object: &'t Object) -> Line<'t> {
    Line::Found {
        asked,
        object,
        place: tree.place_of(number),
    }
}
