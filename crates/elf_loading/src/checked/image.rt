//! Images of objects whose words can be written.

ghost use Rattle.std.specs.Prelude.{◌≡◌, true};
ghost use Rattle.elf_loading.specs.CheckedImage.{is_fault, load_error};

use crate::checked::CheckedLoadScope;
use crate::mapping::Loader;
use crate::relocate::Place;
use crate::words::Binding;
use crate::{LoadError, LoadPlan, LoadScope};
use elf_linking::view::LinkedSymbol;
use elf_linking::{DynamicObject, LinkError};
use std::marker::Model;

/// Why a checked image is not relocated.
#[derive(Clone, Copy, Debug, PartialEq, Eq)]
pub enum ImageError {
    /// The image is not of the size of the span, or there are not as many places or images as
    /// objects.
    Size,
    /// A relocation needs a symbol that no object has, and that is not weak.
    Unresolved,
    /// Bytes that are copied are not in the image of their object.
    CopySource,
}

// The error of an image for one of `relocate` of a scope.
fn image_error(error: &LoadError) -> ImageError
    requires { is_fault error.now ≡ true }
    ensures { load_error result ≡ error.now }
{
    match error {
        LoadError::ImageSize => ImageError::Size,
        LoadError::Unresolved => ImageError::Unresolved,
        LoadError::CopySource => ImageError::CopySource,
        _ => unreachable!(),
    }
}

/// An object of a scope whose relocations can be written before the program runs: `check_image`
/// returned `Ok` for it, and all objects of the scope passed their checks.
///
/// Contracts see it as lists: the objects, and the relocations with their addends. `loads` and `index`
/// return what it was made of.
#[derive(Drop)]
pub struct CheckedImage<'s, 'a, E: LinkedSymbol> {
    loads: LoadScope<'s, 'a, E>,
    index: usize,
    own: &'s DynamicObject<'a, E>,
    plan: &'s LoadPlan<'a>,
}

impl<'s, 'a, E: LinkedSymbol> Model for CheckedImage<'s, 'a, E> {
    ghost use Rattle.elf_loading.specs.CheckedImage.{ImageParts, IsCheckedImage, image_parts};
    ghost use Rattle.elf_loading.specs.LoadScope.{loaded_objects, loaded_plans};

    ghost Value = { ImageParts };

    ghost view = { λ inside. image_parts E.fields (loaded_objects inside.loads).now
        (loaded_plans inside.loads).now inside.index inside.own.now inside.plan.now };

    ghost invariant = { λ inside. ∥ IsCheckedImage E.fields (loaded_objects inside.loads).now
        (loaded_plans inside.loads).now inside.index inside.own.now inside.plan.now ∥₁ };
}

impl<'s, 'a, E: LinkedSymbol> CheckedImage<'s, 'a, E> {
    ghost use Rattle.std.specs.Prelude.{◌≤◌, ◌*◌, ◌↔◌, ℕ, IfOk, length, IfErr, IsOk, Ok, Some};
    ghost use Rattle.std.specs.List.{count_by};
    ghost use Rattle.elf_base.specs.FirstError.{and_then};
    ghost use Rattle.elf_loading.specs.CheckedImage.{AreWordsWritten, IsMappedImage};
    ghost use Rattle.elf_loading.specs.CheckedImage.{image_at_index, image_result, image_words};
    ghost use Rattle.elf_loading.specs.CheckedImage.{written_words};
    ghost use Rattle.elf_loading.specs.CheckedLoadScope.{checked_loads};
    ghost use Rattle.elf_loading.specs.ImageWords.{IsImageCheck, covers};
    ghost use Rattle.elf_loading.specs.LoadScope.{loaded_objects, loaded_plans};
    ghost use Rattle.elf_loading.specs.declared.checked.image.ImageError.TheVariants.{Size};

    /// The image of the object at an index of a scope, after `check_image`, whose errors and `marks`
    /// these are.
    #[tactic(auto, using(crate::proofs::ImageChecks::no_object, crate::proofs::ImageChecks::no_plan))]
    pub fn of(
        scope: &CheckedLoadScope<'s, 'a, E>,
        index: usize,
        marks: &mut [u8],
    ) -> Result<CheckedImage<'s, 'a, E>, LoadError>
        ensures value { let loads = checked_loads scope.now in IfOk result (λ image. image_at_index
            E.fields (loaded_objects loads).now (loaded_plans loads).now index ≡ Some image) }
        ensures apart { IfOk result (λ image. (address : ℕ)
            → count_by (covers address) (image_words image) ≤ 1) }
        ensures exact { let loads = checked_loads scope.now in IsImageCheck E.SIZE E.fields
            (loaded_objects loads).now (loaded_plans loads).now index (8 * length marks.old)
            (and_then result (λ _. Ok tt)) }
    {
        let loads = scope.loads;
        let Some(own) = loads.objects().get(index) else {
            return Err(LoadError::Link(LinkError::ObjectIndex));
        };
        let Some(plan) = loads.plans().get(index) else {
            return Err(LoadError::Link(LinkError::ObjectIndex));
        };
        match loads.check_image(index, marks) {
            Ok(()) => Ok(CheckedImage {
                loads,
                index,
                own,
                plan,
            }),
            Err(error) => Err(error),
        }
    }

    /// The scope that the object is in.
    pub fn loads(&self) -> LoadScope<'s, 'a, E>
        ensures { image_at_index E.fields (loaded_objects result).now (loaded_plans result).now
            self.now.index ≡ Some self.now }
    {
        self.loads
    }

    /// The index of the object in its scope.
    pub fn index(&self) -> usize
        ensures { result ≡ self.now.index }
    {
        self.index
    }

    /// Writes the bytes that a loader maps for the object into `image`, as `LoadPlan::fill` does.
    pub fn fill(&self, by: Loader, image: &mut [u8]) -> Result<(), ImageError>
        ensures size { IsOk result ↔ (length image.old ≡ self.now.size) }
        ensures error { IfErr result (λ error. (error ≡ Size) × (image.new ≡ image.old)) }
        ensures bytes { IfOk result (λ done. IsMappedImage self.now by image.new) }
    {
        match self.plan.fill(by, image) {
            Ok(()) => Ok(()),
            Err(_) => Err(ImageError::Size),
        }
    }

    /// Writes the words of the object to its image before the program runs, and returns how many have
    /// no number, as `LoadScope::relocate` does with `Binding::Now`.
    ///
    /// The byte at an address is then that of the one word over it; any other byte is the one before,
    /// which is that of the plan if `fill` wrote the image.
    ///
    /// If it returns `Unresolved` or `CopySource`, the words before that of the relocation with the
    /// error are written.
    pub fn relocate(
        &self,
        places: &[Place],
        others: &[&[u8]],
        image: &mut [u8],
    ) -> Result<u64, ImageError>
        ensures exact { result ≡ image_result self.now places.now others.now (length image.old) }
        ensures bytes { IfOk result (λ count. AreWordsWritten self.now places.now others.now
            (image_words self.now) image.old image.new) }
        ensures before { IfErr result (λ error. AreWordsWritten self.now places.now others.now
            (written_words self.now places.now others.now (length image.old)) image.old image.new) }
    {
        match self
            .loads
            .relocate(self.index, Binding::Now, places, others, image)
        {
            Ok(count) => Ok(count),
            Err(error) => Err(image_error(&error)),
        }
    }
}
