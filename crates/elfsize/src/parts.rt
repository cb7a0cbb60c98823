//! The runs of bytes of a file that belong to one part.

ghost use Rattle.std.specs.Prelude.{◌≡◌, ◌<◌, ◌^◌, ◌%◌, All, IfOk, ℕ};
ghost use Rattle.elfsize.specs.Parts.{AreRuns, numbered, part_number, run_of};
ghost use Rattle.elfsize.specs.Totals.{all_bytes};
ghost use Rattle.elf_addresses.specs.FileClaims.{byte_count};
ghost use Rattle.elf_addresses.specs.Pieces.{pieces_file, pieces_place};

use crate::totals::Run;
use elf_addresses::{Owner, Piece, Pieces};
use std::alloc::{AllocError, Global};
use xmas_elf::ElfFile;

/// The runs of a file, in the order of their offsets. It takes two words of 32 bits and two of 64 for
/// each section, and for each segment, and memory for the runs.
pub fn file_runs(alloc: Global, file: &ElfFile<'_>) -> Result<Vec<Run>, AllocError>
    ensures runs { IfOk result (λ runs. AreRuns file.now runs.items) }
    ensures numbers { IfOk result (λ runs. All (λ run. run.part < 2 ^ 40) runs.items) }
    ensures sum { IfOk result (λ runs. all_bytes runs.items ≡ byte_count file.now) }
{
    let mut words = vec![in alloc; 0u32; Pieces::words(file)]?;
    let mut numbers = vec![in alloc; 0u64; Pieces::numbers(file)]?;
    match Pieces::new(file, &mut words, &mut numbers) {
        Ok(pieces) => runs_of(alloc, pieces),
        Err(_) => unreachable!(),
    }
}

// The runs of all pieces of a file.
#[tactic(auto, using(crate::proofs::Runs::no_runs, crate::proofs::Runs::runs_step, crate::proofs::Runs::all_runs, crate::proofs::Runs::runs_sum))]
fn runs_of(alloc: Global, pieces: Pieces<'_, '_, '_>) -> Result<Vec<Run>, AllocError>
    requires { pieces_place pieces ≡ 0 }
    ensures runs { IfOk result (λ runs. AreRuns (pieces_file pieces.entry) runs.items) }
    ensures numbers { IfOk result (λ runs. All (λ run. run.part < 2 ^ 40) runs.items) }
    ensures sum { IfOk result (λ runs. all_bytes runs.items
        ≡ byte_count (pieces_file pieces.entry)) }
{
    let mut runs = Vec::new(alloc);
    for piece in pieces {
        runs.push(run_of(&piece))?;
    }
    Ok(runs)
}

// The run of a piece.
pub(crate) fn run_of(piece: &Piece) -> Run
    requires { piece.now.begin < piece.now.end }
    ensures value { result ≡ run_of piece.now }
    ensures small { result.part < 2 ^ 40 }
{
    Run {
        part: part_number(piece.owner),
        size: (piece.end - piece.begin) as u64,
    }
}

// The number of a part.
fn part_number(owner: Owner) -> usize
    ensures value { result ≡ part_number owner }
    ensures small { result < 2 ^ 40 }
{
    match owner {
        Owner::Section(index) => numbered(0, index),
        Owner::Segment(index) => numbered(1, index),
        Owner::ElfHeader => numbered(3, 0),
        Owner::ProgramHeaders => numbered(3, 1),
        Owner::SectionHeaders => numbered(3, 2),
        Owner::Between => numbered(3, 3),
        Owner::Behind => numbered(3, 4),
    }
}

// The number of a part by its kind and its index, which has 32 bits.
#[inline(always)]
pub(crate) fn numbered(kind: usize, index: usize) -> usize
    requires { kind < 4 }
    ensures value { result ≡ numbered kind index }
    ensures small { result < 2 ^ 40 }
{
    4 * (index % 0x1_0000_0000) + kind
}
