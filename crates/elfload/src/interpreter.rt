//! Which object is the interpreter of a program: its jump slots get their symbols at once.

ghost use Rattle.std.specs.Prelude.{◌≡◌, ◌<◌, length, option_map};
ghost use Rattle.elf_linking.specs.Loaded.{lent};
ghost use Rattle.elf_loading.specs.Segments.{interpreter_of};
ghost use Rattle.elfload.specs.Interpreter.{binding_of, interpreter_path, is_interpreter, is_last_part};
ghost use Rattle.elfload.specs.Interpreter.{is_name_of, program_path};

use elf_linking::view::LinkedSymbol;
use elf_linking::{DynamicObject, LinkError, Segment, Segments};
use elf_loading::Binding;
use xmas_elf::ElfFile;
use xmas_elf::bytes::bytes_up_to_zero;

const PT_INTERP: u32 = 3;

/// When jump slots of the object at an index get their symbols, where `when` is asked for: those of the
/// interpreter of the first object get them at once.
pub(crate) fn binding_of<E: LinkedSymbol>(
    objects: &[DynamicObject<'_, E>],
    when: Binding,
    of: usize,
) -> Binding
    requires { of < length objects.now }
    ensures { result ≡ binding_of objects.now when of }
{
    if is_interpreter(program_path(objects), &objects[of]) {
        Binding::Now
    } else {
        when
    }
}

// The path of the interpreter of the first object.
fn program_path<'a, E: LinkedSymbol>(objects: &[DynamicObject<'a, E>]) -> Option<&'a [u8]>
    ensures { option_map (λ path. path.now) result ≡ program_path objects.now }
{
    match objects.first() {
        Some(program) => interpreter_path(&program.file()),
        None => None,
    }
}

// The path of the interpreter that a file names, if it can be read.
fn interpreter_path<'a>(file: &ElfFile<'a>) -> Option<&'a [u8]>
    ensures { option_map (λ path. path.now) result ≡ interpreter_path file.now }
{
    match interpreter_segment(file) {
        Some(segment) => match bytes_up_to_zero(file.input, segment.offset as usize) {
            Ok(path) => Some(path),
            Err(_) => None,
        },
        None => None,
    }
}

// The first segment with the path of an interpreter.
#[tactic(auto, using(crate::proofs::Interpreters::segment_none, crate::proofs::Interpreters::segment_hit, crate::proofs::Interpreters::segment_other))]
fn interpreter_segment(file: &ElfFile<'_>) -> Option<Segment>
    ensures { result ≡ interpreter_of file.now }
{
    for segment in Segments::of(file) {
        if segment.kind == PT_INTERP {
            return Some(segment);
        }
    }
    None
}

// Whether an object is the interpreter with a path, by its name as a library.
fn is_interpreter<E: LinkedSymbol>(path: Option<&[u8]>, object: &DynamicObject<'_, E>) -> bool
    ensures { result ≡ is_interpreter (option_map (λ path. path.now) path.entry) object.now }
{
    match path {
        Some(path) => is_name_of(path, object.view().soname()),
        None => false,
    }
}

// Whether a name that can be read is the last part of a path.
fn is_name_of(path: &[u8], name: Option<Result<&str, LinkError>>) -> bool
    ensures { result ≡ is_name_of path.now (option_map lent name.entry) }
{
    match name {
        Some(Ok(name)) => is_last_part(name.as_bytes(), path),
        Some(Err(_)) => false,
        None => false,
    }
}

// Whether a path ends in a name, with a slash or nothing before it.
fn is_last_part(name: &[u8], path: &[u8]) -> bool
    ensures { result ≡ is_last_part name.now path.now }
{
    let before = path.len().saturating_sub(name.len());
    path.ends_with(name) && (before == 0 || path[before - 1] == b'/')
}
