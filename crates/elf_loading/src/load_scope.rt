//! What relocations write to the memory of the objects of a scope.

ghost use Rattle.std.specs.Prelude.{◌≡◌, ◌*◌, MatchResult, IfErr, IfOk, Ok, Err, length, slice_get};
ghost use Rattle.elf_linking.specs.Scope.{scope_objects};

use crate::image_words::check_own;
use crate::relocate::{Place, Sources};
use crate::word_error::WordError;
use crate::words::{Binding, Words};
use crate::{LoadError, LoadPlan};
use elf_base::bytes::Record;
use elf_linking::scope::Scope;
use elf_linking::view::LinkedSymbol;
use elf_linking::{DynamicObject, LinkError};

// The error of an index at which there is no object or no plan.
const NO_OBJECT: WordError = WordError {
    error: LoadError::Link(LinkError::ObjectIndex),
    relocation: None,
};

/// The objects of a scope with their plans: the program first, then its libraries in the order in
/// which they are loaded.
#[derive(Clone, Copy)]
pub struct LoadScope<'s, 'a, E: Record> {
    scope: Scope<'s, 'a, E>,
    plans: &'s [LoadPlan<'a>],
}

impl<'s, 'a, E: LinkedSymbol> LoadScope<'s, 'a, E> {
    ghost use Rattle.elf_loading.specs.ImageWords.{AreWritten, IsImageCheck, MatchBoth};
    ghost use Rattle.elf_loading.specs.LoadScope.{loaded_objects, loaded_plans};
    ghost use Rattle.elf_loading.specs.OneWord.{HasErrorLeft, IsByOneWordIn};
    ghost use Rattle.elf_loading.specs.Relocate.{IsRelocationIn};
    ghost use Rattle.elf_loading.specs.WordErrors.{IsImageError, IsRelocationErrorIn, error_alone};
    ghost use Rattle.elf_loading.specs.WordsLeft.{AreWordsOf, relocations_left, own_relocations};

    /// The objects of a scope, with the plan of each object's file at the same index.
    pub fn new(scope: Scope<'s, 'a, E>, plans: &'s [LoadPlan<'a>]) -> LoadScope<'s, 'a, E>
        ensures objects { loaded_objects result ≡ scope_objects scope.entry }
        ensures plans { loaded_plans result ≡ plans.entry }
    {
        LoadScope { scope, plans }
    }

    /// The objects, the program first.
    pub fn objects(&self) -> &'s [DynamicObject<'a, E>]
        ensures { result ≡ loaded_objects self.now }
    {
        self.scope.objects()
    }

    /// The plans, at the indices of their objects.
    pub fn plans(&self) -> &'s [LoadPlan<'a>]
        ensures { result ≡ loaded_plans self.now }
    {
        self.plans
    }

    /// The words that the relocations of the object at index `of` write. The plans are not used.
    ///
    /// The errors are those of `Words::new`.
    pub fn words(&self, of: usize, when: Binding) -> Result<Words<'s, 'a, E>, LinkError>
        ensures exact { let answer = own_relocations (slice_get (loaded_objects self.now).now of) in
            MatchResult result (λ words. answer ≡ Ok (relocations_left words))
            (λ error. answer ≡ Err error) }
        ensures begun { IfOk result (AreWordsOf (loaded_objects self.now) of when) }
    {
        Words::new(self.scope, of, when)
    }

    /// Checks that the words of the object at index `of` can be written before the program runs:
    /// that its tables can be read, that each word is in the memory of one load segment, which is
    /// writable unless the file asks for writes elsewhere (DT_TEXTREL, DF_TEXTREL), and that no byte
    /// of it is in a table or in another word. Jump slots get their symbols then.
    ///
    /// `marks` has at least a bit for each byte of the span of the plan. What it holds is overwritten.
    ///
    /// Errors, the first of these: `Link` with `ObjectIndex` if there is no object or no plan at `of`;
    /// `Dynamic`; `NoEntry`; `NoAddends`; `Addends`; `NoSlots`; of DT_RELA, DT_REL and DT_RELR each
    /// `RelocationSize`, `NotMultiple` and `Unreadable`; of DT_RELR also `FirstPacked`; of DT_JMPREL
    /// `SlotKind`, `NotMultiple` and `Unreadable`; `Unreadable` of other tables; `Machine`; `Link` with
    /// those of `words`; `RelativeCount`; `SlotType`; `FewMarks`; of each word its own error,
    /// `WordAddress`, `ReadOnly`, `WordsOverlap` and `WordInTable`.
    ///
    /// The time is that of `Scope::bind` for each relocation, and linear in the bytes of the words; each
    /// word is looked for in the load segments.
    pub fn check_image(&self, of: usize, marks: &mut [u8]) -> Result<(), LoadError>
        ensures exact { IsImageCheck E.SIZE E.fields (loaded_objects self.now).now
            (loaded_plans self.now).now of (8 * length marks.old) result }
        ensures passes { IfOk result (λ done. let objects = (loaded_objects self.now).now in
            MatchBoth (slice_get objects of) (slice_get (loaded_plans self.now).now of) ⊥
            (AreWritten E.SIZE E.fields objects of)) }
    {
        match self.check_words(of, marks) {
            Ok(()) => Ok(()),
            Err(found) => Err(found.error),
        }
    }

    /// The result of `check_image`, and which relocation has the error: the first of `words` whose word
    /// has one. The errors that come before those of words name no relocation.
    #[tactic(auto, using(crate::proofs::ImageChecks::no_object, crate::proofs::ImageChecks::no_plan))]
    pub fn check_words(&self, of: usize, marks: &mut [u8]) -> Result<(), WordError>
        ensures exact { IsImageCheck E.SIZE E.fields (loaded_objects self.now).now
            (loaded_plans self.now).now of (8 * length marks.old) (error_alone result) }
        ensures passes { IfOk (error_alone result) (λ done. let objects = (loaded_objects self.now).now in
            MatchBoth (slice_get objects of) (slice_get (loaded_plans self.now).now of) ⊥
            (AreWritten E.SIZE E.fields objects of)) }
        ensures first { IfErr result (IsImageError E.SIZE E.fields (loaded_objects self.now).now
            (loaded_plans self.now).now of (8 * length marks.old)) }
    {
        let Some(own) = self.scope.objects().get(of) else {
            return Err(NO_OBJECT);
        };
        let Some(plan) = self.plans.get(of) else {
            return Err(NO_OBJECT);
        };
        check_own(self.scope, of, own, plan, marks)
    }

    /// Writes the words of the object at index `of` to its image, and returns how many have no
    /// number: what a function returns, which the caller must call, and descriptors of thread-local
    /// storage. Their bytes stay as they are.
    ///
    /// `image` holds the bytes of the span as `LoadPlan::fill` writes them. `places` and `others` have
    /// an element for each object, `others` the images of the objects whose bytes are copied
    /// (R_X86_64_COPY); these must be relocated before. The images of other objects, and that at `of`,
    /// may be empty.
    ///
    /// If `check_image` returned `Ok` for the object, the byte at each address is that of the one word
    /// over it, otherwise the one before: that of the plan. If jump slots get their symbols now, the
    /// only errors are `ImageSize`, `Unresolved` and `CopySource`.
    ///
    /// Errors: `Link` with `ObjectIndex` if there is no object or no plan at `of`; `ImageSize` if
    /// `image` is not of the size of the span, or there are not as many plans, places or images as
    /// objects; `Link` with those of `words`; then of the first word that has one, its own error,
    /// `Unresolved`, `WordAddress` and `CopySource`. The words before it are written, and the
    /// bytes of that word and of those after it stay as they are.
    pub fn relocate(
        &self,
        of: usize,
        when: Binding,
        places: &[Place],
        others: &[&[u8]],
        image: &mut [u8],
    ) -> Result<u64, LoadError>
        ensures exact { IsRelocationIn E.fields (loaded_objects self.now) (loaded_plans self.now) of when
            places.entry others.entry image.old image.new result }
        ensures once { IfOk result (λ count. IsByOneWordIn E.fields (loaded_objects self.now)
            (loaded_plans self.now) of when places.entry others.entry image.old image.new) }
        ensures len { length image.new ≡ length image.old }
        ensures errors { IfErr result (HasErrorLeft E.fields (loaded_objects self.now).now
            (loaded_plans self.now).now of when) }
    {
        match self.write_words(of, when, places, others, image) {
            Ok(count) => Ok(count),
            Err(found) => Err(found.error),
        }
    }

    /// Does what `relocate` does, and says which relocation has the error: the first of `words` whose word
    /// has one. The errors that come before those of words name no relocation.
    #[tactic(auto, using(crate::proofs::ImageChecks::no_object, crate::proofs::ImageChecks::no_plan))]
    pub fn write_words(
        &self,
        of: usize,
        when: Binding,
        places: &[Place],
        others: &[&[u8]],
        image: &mut [u8],
    ) -> Result<u64, WordError>
        ensures exact { IsRelocationIn E.fields (loaded_objects self.now) (loaded_plans self.now) of when
            places.entry others.entry image.old image.new (error_alone result) }
        ensures once { IfOk (error_alone result) (λ count. IsByOneWordIn E.fields (loaded_objects self.now)
            (loaded_plans self.now) of when places.entry others.entry image.old image.new) }
        ensures len { length image.new ≡ length image.old }
        ensures errors { IfErr (error_alone result) (HasErrorLeft E.fields (loaded_objects self.now).now
            (loaded_plans self.now).now of when) }
        ensures first { IfErr result (IsRelocationErrorIn E.fields (loaded_objects self.now)
            (loaded_plans self.now) of when places.entry others.entry (length image.old)) }
    {
        let objects = self.scope.objects();
        let Some(own) = objects.get(of) else {
            return Err(NO_OBJECT);
        };
        let Some(plan) = self.plans.get(of) else {
            return Err(NO_OBJECT);
        };
        let sources = Sources {
            objects,
            plans: self.plans,
            of,
            order: own.file().byte_order(),
            places,
            images: others,
        };
        sources.relocate(self.scope, own, plan, when, image)
    }
}
