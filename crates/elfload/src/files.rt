//! Whether the files have dynamic segments.

ghost use Rattle.std.specs.Prelude.{IsFalse, IsTrue};
ghost use Rattle.elfload.specs.Files.{AreAllStatic, AreDynamic, AreStatic, HasDynamic};

use elf_linking::view::dynamic_segment;
use linking_programs::Input;
use xmas_elf::ElfFile;

// Whether one of the files has a dynamic segment.
pub(crate) fn has_dynamic(inputs: &[Input<'_>]) -> bool
    ensures no { IsFalse result → AreAllStatic inputs.now }
    ensures yes { IsTrue result → HasDynamic inputs.now }
{
    for input in inputs {
        if is_dynamic(&input.bytes) {
            return true;
        }
    }
    false
}

// Whether bytes are a file with a dynamic segment.
fn is_dynamic(bytes: &[u8]) -> bool
    ensures no { IsFalse result → AreStatic bytes.now }
    ensures yes { IsTrue result → AreDynamic bytes.now }
{
    match ElfFile::new(bytes) {
        Ok(file) => dynamic_segment(&file).is_some(),
        Err(_) => false,
    }
}
