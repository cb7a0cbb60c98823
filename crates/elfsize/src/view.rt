//! The file as it is asked for: whole, without its section header table, or with its symbols.

ghost use Rattle.std.specs.Prelude.{◌≡◌, IfSome, IsSomeAnd};
ghost use Rattle.elfsize.specs.View.{shown, without_sections};

use program_ends::json::Form;
use program_ends::read_whole;
use std::alloc::Global;
use std::io::Read;

/// The parts of a file that are listed.
#[derive(Clone, Copy, Debug)]
pub enum View {
    /// All parts.
    Whole,
    /// Those of the file without its section header table: bytes in sections belong to segments.
    Segments,
    /// All parts, with the bytes of sections by the symbol that owns them.
    Symbols,
}

/// What is asked of files.
#[derive(Clone, Copy, Debug)]
pub struct Options<'a> {
    /// The parts that are listed.
    pub view: View,
    /// How lines are written.
    pub form: Form,
    /// The folder of debug files; `None` if no debug file is looked for.
    pub debug: Option<&'a str>,
}

/// All bytes that a reader has left, in a view; `None` where there is no reader, a read fails or
/// memory is short.
pub fn read_shown<R: Read + Drop>(alloc: Global, view: View, file: Option<R>) -> Option<Vec<u8>>
    ensures { IfSome result (λ input. IsSomeAnd file (λ reader. IfSome (R.remaining reader)
        (λ bytes. input.items ≡ shown view bytes))) }
{
    let mut input = read_whole(alloc, file)?;
    show(view, &mut input);
    Some(input)
}

// Changes a file to the view of it.
fn show(view: View, input: &mut [u8])
    ensures { input.new ≡ shown view input.old }
{
    match view {
        View::Whole => {}
        View::Segments => hide_sections(input),
        View::Symbols => {}
    }
}

// Sets the offset of the section header table to 0, which says that there is none.
fn hide_sections(input: &mut [u8])
    ensures { input.new ≡ without_sections input.old }
{
    if input.len() < 48 {
        return;
    }
    if input[4] == 1 {
        input[32..36].copy_from_slice(&[0; 4]);
    } else {
        input[40..48].copy_from_slice(&[0; 8]);
    }
}
