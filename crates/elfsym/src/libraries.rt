//! A line for each library that a file needs: its name.

ghost use Rattle.std.specs.Prelude.{◌≡◌, Err, IsOk, MatchResult, OnOk};
ghost use Rattle.std.specs.Io.KnownBytes.{Appends};
ghost use Rattle.elf_linking.specs.DynamicView.{needed_bytes_of};
ghost use Rattle.elf_linking.specs.Loaded.{lent};
ghost use Rattle.elfsym.specs.Libraries.{AreFileLibraries, AreFileLibrariesBegun};
ghost use Rattle.elfsym.specs.Libraries.{AreFileLibrariesFailed, AreInputLibraries};
ghost use Rattle.elfsym.specs.Libraries.{AreInputLibrariesBegun, AreInputLibrariesFailed};
ghost use Rattle.elfsym.specs.Libraries.{AreLibraryLines, HasFirstLibrary, IsLibraryLine};
ghost use Rattle.elfsym.specs.Libraries.{IsNameError, library_text};
ghost use Rattle.program_ends.proofs.Flushed.{appended_flushed};
ghost use Rattle.program_ends.specs.Appended.{AppendsSome};
ghost use Rattle.program_ends.specs.Stops.{IsStop};

use elf_linking::LinkError;
use elf_linking::view::DynamicView;
use program_ends::json::{Form, Member, Value, write_json};
use program_ends::{Output, Stop, write_name};
use std::io;
use std::io::Write;
use xmas_elf::ElfFile;

// A line for each library that the file that these bytes are needs.
#[derive(Clone, Copy)]
pub(crate) struct Libraries<'a> {
    pub(crate) input: &'a [u8],
    pub(crate) form: Form,
}

impl Output for Libraries<'_> {
    ghost Writes = { λ libraries. AppendsSome (AreInputLibraries libraries.form libraries.input) };

    ghost flushed = { λ libraries. appended_flushed (AreInputLibraries libraries.form libraries.input) };

    type Error = LinkError;

    ghost Fails = { λ libraries. AreInputLibrariesFailed libraries.form libraries.input };

    ghost Begins = { λ libraries. AreInputLibrariesBegun libraries.input };

    fn write_to<W: Write>(&self, out: &mut W) -> Result<(), Stop<LinkError>> {
        match ElfFile::new(self.input) {
            Ok(file) => write_libraries(&file, self.form, out),
            Err(error) => Err(Stop::Failed(LinkError::Elf(error))),
        }
    }
}

// The lines of a file.
fn write_libraries<W: Write>(
    file: &ElfFile<'_>,
    form: Form,
    out: &mut W,
) -> Result<(), Stop<LinkError>>
    ensures { MatchResult result
        (λ _. AppendsSome (AreFileLibraries form file.now) (W.contents out.old) (W.contents out.new))
        (IsStop (AreFileLibrariesFailed form file.now) (AreFileLibrariesBegun file.now) ⊥) }
{
    match DynamicView::read(file) {
        Ok(view) => write_needed(&view, form, out),
        Err(error) => Err(Stop::Failed(error)),
    }
}

// The lines by a view of the dynamic segment.
fn write_needed<W: Write>(
    view: &DynamicView<'_>,
    form: Form,
    out: &mut W,
) -> Result<(), Stop<LinkError>>
    ensures { let names = needed_bytes_of view.now in MatchResult result
        (λ _. AppendsSome (AreLibraryLines form names) (W.contents out.old) (W.contents out.new))
        (IsStop (IsNameError form names) (HasFirstLibrary names) ⊥) }
{
    for name in view.needed_bytes() {
        match write_library(name, form, out) {
            Ok(()) => {}
            Err(stop) => return Err(stop),
        }
    }
    Ok(())
}

// The line of a library, by its name.
fn write_library<W: Write>(
    name: Result<&[u8], LinkError>,
    form: Form,
    out: &mut W,
) -> Result<(), Stop<LinkError>>
    ensures { MatchResult result
        (λ _. AppendsSome (IsLibraryLine form (lent name.entry))
        (W.contents out.old) (W.contents out.new))
        (IsStop (λ error. lent name.entry ≡ Err error) (IsOk (lent name.entry)) ⊥) }
{
    match name {
        Ok(name) => Ok(write_text(name, form, out)?),
        Err(error) => Err(Stop::Failed(error)),
    }
}

// The line of a library, by the bytes of its name.
fn write_text<W: Write>(name: &[u8], form: Form, out: &mut W) -> io::Result<()>
    ensures { OnOk result (Appends (W.contents out.old) (W.contents out.new)
        (library_text form name.now)) }
{
    match form {
        Form::Text => {
            write_name(name, out)?;
            out.write_all(b"\n")
        }
        Form::Json => {
            let needed = Member {
                key: "needed",
                value: Value::Name(name),
            };
            write_json(&[needed], out)
        }
    }
}
