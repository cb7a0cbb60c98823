//! The steps of a start: which files have which of their functions run, in order.

ghost use Rattle.std.specs.Prelude.{◌≡◌, ◌≤◌, ◌++◌, ◌∷◌, [], ◌==◌, IfSome, length, position};
ghost use Rattle.elfload.specs.Starts.{library_steps, own_steps, place_in, start_steps, step};

use elf_linking::view::{DT_FLAGS_1, DynamicView};
use linking_programs::Input;
use std::alloc::Global;
use xmas_elf::ElfFile;

// The flag in DT_FLAGS_1 of a library that starts before all others.
const DF_1_INITFIRST: u64 = 0x20;

/// Which functions of a file run.
#[derive(Clone, Copy, Debug, PartialEq, Eq)]
pub enum Part {
    /// Those of DT_PREINIT_ARRAY.
    Preinit,
    /// That of DT_INIT.
    Init,
    /// Those of DT_INIT_ARRAY.
    InitArray,
    /// The entry point.
    Entry,
}

/// A step of a start: some functions of the file at an index.
#[derive(Clone, Copy, Debug, PartialEq, Eq)]
pub struct Step {
    /// Which functions.
    pub part: Part,
    /// The index of the file.
    pub of: usize,
}

/// How many libraries start before the functions of DT_PREINIT_ARRAY: the first, if it asks to start before all
/// others (DF_1_INITFIRST).
pub(crate) fn early_starts(list: &[u32], starts: &[u32], inputs: &[Input<'_>]) -> usize
    ensures { result ≤ length starts.now }
{
    let Some(number) = starts.first() else {
        return 0;
    };
    let place = place_in(list, *number);
    if place < inputs.len() && asks_to_be_first(&inputs[place].bytes) {
        1
    } else {
        0
    }
}

// Whether bytes are a file with the flag DF_1_INITFIRST.
fn asks_to_be_first(bytes: &[u8]) -> bool {
    let Ok(file) = ElfFile::new(bytes) else {
        return false;
    };
    match DynamicView::read(&file) {
        Ok(view) => view.entry(DT_FLAGS_1).unwrap_or(0) & DF_1_INITFIRST != 0,
        Err(_) => false,
    }
}

/// The steps of a start, by the numbers of the objects in the order in which names are looked up, and of the
/// libraries in the order in which they start, of which some start before the functions of DT_PREINIT_ARRAY;
/// `None` if there is no memory for them.
#[tactic(auto, using(crate::proofs::StartSteps::steps_all))]
pub(crate) fn start_steps(
    alloc: Global,
    list: &[u32],
    starts: &[u32],
    early: usize,
) -> Option<Vec<Step>>
    requires { early ≤ length starts.now }
    ensures { IfSome result (λ steps. steps.items ≡ start_steps list.now starts.now early) }
{
    let (first, others) = starts.split_at(early);
    let steps = with_libraries(Vec::new(alloc), list, first)?;
    let steps = with_step(steps, Part::Preinit, 0)?;
    let steps = with_libraries(steps, list, others)?;
    let steps = with_step(steps, Part::Entry, 0)?;
    match with_own(steps, 0) {
        Some(whole) => Some(whole),
        None => None,
    }
}

// Some steps and those of the libraries with these numbers; `None` if there is no memory for them.
fn with_libraries(steps: Vec<Step>, list: &[u32], numbers: &[u32]) -> Option<Vec<Step>>
    ensures { IfSome result (λ more. more.items ≡ steps.items ++ library_steps list.now numbers.now) }
{
    let mut steps = steps;
    for number in numbers {
        match with_own(steps, place_in(list, *number)) {
            Some(more) => steps = more,
            None => return None,
        }
    }
    Some(steps)
}

// Some steps and one more; `None` if there is no memory for it.
fn with_step(steps: Vec<Step>, part: Part, of: usize) -> Option<Vec<Step>>
    ensures { IfSome result (λ more. more.items ≡ steps.items ++ (step part of ∷ [])) }
{
    let mut steps = steps;
    match steps.push(Step { part, of }) {
        Ok(()) => Some(steps),
        Err(_) => None,
    }
}

// Some steps and those of what a file has run; `None` if there is no memory for them.
fn with_own(steps: Vec<Step>, of: usize) -> Option<Vec<Step>>
    ensures { IfSome result (λ more. more.items ≡ steps.items ++ own_steps of) }
{
    let steps = with_step(steps, Part::Init, of)?;
    with_step(steps, Part::InitArray, of)
}

// The index of a number in a list; that after the last if it isn't in it.
fn place_in(list: &[u32], number: u32) -> usize
    ensures { result ≡ place_in list.now number }
{
    match position_of(list, number) {
        Some(place) => place,
        None => list.len(),
    }
}

// The index of a number in a list, if it is in it.
fn position_of(list: &[u32], number: u32) -> Option<usize>
    ensures { result ≡ position (λ other. other == number) list.now }
{
    list.iter().position(|other| *other == number)
}
