//! Callers that read notes.

ghost use Rattle.std.specs.Prelude.{◌≡◌, ◌≢◌, ◌+◌};
ghost use Rattle.std.specs.Prelude.{List, MatchOption, Some, ℕ, length};
ghost use Rattle.xmas_elf.specs.Note.{IsNoteName, NoteNameError};
ghost use Rattle.xmas_elf.specs.Note.{note_name_size};
ghost use Rattle.xmas_elf.specs.Text.{IsText};
ghost use Rattle.xmas_elf.specs.Types.{NoteHeader};

use xmas_elf::ElfError;
use xmas_elf::sections::NoteHeader;

/// Why a note has no name, if it has none: `NoteName` exactly where there is a text whose length
/// and one more isn't the size of the name.
pub fn name_failure(header: &NoteHeader, body: &[u8]) -> Option<ElfError>
    ensures exact { MatchOption result
        ((text : List ℕ) × IsNoteName body.now (note_name_size header.now) text)
        (NoteNameError body.now (note_name_size header.now)) }
    ensures failed { result ≡ Some ElfError.NoteName → (text : List ℕ) × IsText body.now 0 text
        × (length text + 1 ≢ note_name_size header.now) }
    ensures fails { (text : List ℕ) → IsText body.now 0 text
        → length text + 1 ≢ note_name_size header.now → result ≡ Some ElfError.NoteName }
{
    header.name(body).err()
}
