//! Callers that want the index of a header with the header:
//! each index is that of `program_header_at`.

ghost use Rattle.std.specs.Prelude.{◌≡◌, IsOkAnd, MatchOption, Ok, length};
ghost use Rattle.elf_callers.specs.Executable.{IsExecutable};
ghost use Rattle.xmas_elf.specs.First.{FindsFirstAt};
ghost use Rattle.xmas_elf.specs.HeaderTable.{EachBelow};
ghost use Rattle.xmas_elf.specs.ProgramHeader.{program_list, program_of};

use xmas_elf::ElfFile;
use xmas_elf::program::ProgramHeader;

/// The position in the list of the first executable segment.
pub fn executable_position(file: &ElfFile<'_>) -> Option<usize>
    ensures { FindsFirstAt IsExecutable (program_list file.now) result }
{
    file.program_iter()
        .position(|program| program.flags().is_execute())
}

/// The index of the first executable segment: that of its program header.
#[tactic(auto, using(xmas_elf::proofs::lemmas::HeaderList::found_segment))]
pub fn first_executable(file: &ElfFile<'_>) -> Option<usize>
    ensures { MatchOption result
        (EachBelow (program_of file.now)
        (λ program. ¬ IsExecutable program) (length (program_list file.now)))
        (λ i. IsOkAnd (program_of file.now i) IsExecutable
        × EachBelow (program_of file.now) (λ program. ¬ IsExecutable program) i) }
{
    executable_position(file)
}

/// The first executable segment with its index, by a loop.
pub fn executable_with_index(file: &ElfFile<'_>) -> Option<(u64, ProgramHeader)>
    ensures { MatchOption result
        (EachBelow (program_of file.now)
        (λ program. ¬ IsExecutable program) (length (program_list file.now)))
        (λ p. (program_of file.now p.0 ≡ Ok p.1) × IsExecutable p.1
        × EachBelow (program_of file.now) (λ program. ¬ IsExecutable program) p.0) }
{
    let mut index = 0;
    for program in file.program_iter() {
        if program.flags().is_execute() {
            return Some((index, program));
        }
        index += 1;
    }
    None
}
