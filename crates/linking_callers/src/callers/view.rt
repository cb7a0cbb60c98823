//! Callers that read a file by its program headers alone.

ghost use Rattle.std.specs.Prelude.{◌≡◌, ◌-◌};
ghost use Rattle.std.specs.Prelude.{Ok, Err, IfOk};
ghost use Rattle.std.specs.Prelude.{MatchResult, length};
ghost use Rattle.elf_linking.specs.Loaded.{LiesAsLoaded};
ghost use Rattle.elf_linking.specs.Loaded.{bytes_from_of};

use elf_linking::LinkError;
use elf_linking::view::bytes_from;
use xmas_elf::ElfFile;

/// The bytes from an address on, as `bytes_from` returns them, and how many they are.
pub fn tail_at<'a>(file: &ElfFile<'a>, address: u64) -> Result<(&'a [u8], usize), LinkError>
    ensures bytes { MatchResult result
        (λ tail. (bytes_from_of file.now address ≡ Ok tail.0.now) × (tail.1 ≡ length tail.0.now))
        (λ error. bytes_from_of file.now address ≡ Err error) }
    ensures place { IfOk result (λ tail. LiesAsLoaded file.now address 1 tail.0) }
{
    let bytes = bytes_from(file, address)?;
    Ok((bytes, bytes.len()))
}
