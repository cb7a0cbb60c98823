//! What a checker of files asks a plan.

ghost use Rattle.std.specs.Prelude.{◌≡◌, ◌↔◌, All, IfOk, IsTrue, None, bit_and};
ghost use Rattle.elf_loading.specs.Mappings.{mappings_of};
ghost use Rattle.elf_loading.specs.Plan.{IsImageBy, plan_loads, plan_page, plan_relro};
ghost use Rattle.elf_loading.specs.Spans.{is_in};
ghost use Rattle.elf_loading.specs.declared.mapping.Loader.TheVariants.{Kernel};

use elf_loading::{LoadPlan, Loader, Mapping};
use std::alloc::{AllocError, Global};

// Whether a mapping is both writable (PF_W, 2) and executable (PF_X, 1).
fn is_writable_code(mapping: &Mapping) -> bool
    ensures { IsTrue result ↔ bit_and mapping.now.flags.0 3 ≡ 3 }
{
    mapping.flags.raw() & 3 == 3
}

/// Whether no mapping of a file is both writable and executable.
pub fn never_writable_and_executable(plan: &LoadPlan<'_>, by: Loader) -> bool
    ensures { IsTrue result ↔ All (λ mapping. ¬ (bit_and mapping.flags.0 3 ≡ 3))
        (mappings_of (plan_page plan.now) by None (plan_loads plan.now)) }
{
    plan.mappings(by).all(|mapping| !is_writable_code(&mapping))
}

/// Whether an address is on a page that is only readable after relocation.
pub fn is_read_only_after_relocation(plan: &LoadPlan<'_>, address: u64) -> bool
    ensures { result ≡ is_in (plan_relro plan.now) address }
{
    match plan.relro() {
        Some(span) => span.start <= address && address < span.end,
        None => false,
    }
}

/// The memory of a program once Linux has mapped it: byte `i` is that at the start of the span plus
/// `i`.
pub fn image_of(alloc: Global, plan: &LoadPlan<'_>) -> Result<Vec<u8>, AllocError>
    ensures { IfOk result (λ image. IsImageBy Kernel plan.now image.items) }
{
    let span = plan.span();
    let mut image = Vec::new(alloc);
    image.resize((span.end - span.start) as usize, 0)?;
    match plan.fill(Loader::Kernel, &mut image) {
        Ok(()) => Ok(image),
        Err(_) => unreachable!(),
    }
}
