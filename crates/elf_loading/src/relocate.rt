//! The bytes that relocations write to the image of an object.

ghost use Rattle.std.specs.Prelude.{if◌then◌else◌, ◌<◌, ◌/◌, ◌≡◌, ◌+◌, ◌%◌, ◌-◌, ◌*◌, ◌&&◌, ◌≤◌};
ghost use Rattle.std.specs.Prelude.{◌^◌, Some, nat_lt, slice_get, Err, MatchOption, Ok, IfErr, ℕ};
ghost use Rattle.std.specs.Prelude.{IfSome, true, false, slice_index, min, IfOk, nat_le, length};
ghost use Rattle.elf_base.specs.Table.{table_items};
ghost use Rattle.elf_linking.specs.DynamicObject.{object_records, object_view};
ghost use Rattle.elf_linking.specs.DynamicView.{view_entries};
ghost use Rattle.elf_linking.specs.References.{file_machine};
ghost use Rattle.elf_linking.specs.RelocationTypes.{relative_of};
ghost use Rattle.elf_linking.specs.Scope.{scope_objects};
ghost use Rattle.elf_loading.specs.RelativeWords.{IsItemWritten, IsRecordWritten, IsWrittenSoFar};
ghost use Rattle.elf_loading.specs.RelativeWords.{relative_word};
ghost use Rattle.elf_loading.specs.Relocate.{AreWordsFor, IsRelocation, IsWriting, byte_of_number};
ghost use Rattle.elf_loading.specs.Relocate.{has_no_number, image_at, image_start, is_copy_outside};
ghost use Rattle.elf_loading.specs.Relocate.{is_outside, is_unresolved, is_weak, is_wrong_size};
ghost use Rattle.elf_loading.specs.Relocate.{origin_sum, place_at, value_byte, value_number};
ghost use Rattle.elf_loading.specs.Relocate.{word_byte, write_item, write_word};
ghost use Rattle.elf_loading.specs.WordErrors.{IsFirstUnwritten, IsRelocationError, error_alone};
ghost use Rattle.elf_loading.specs.Words.{binds_lazily};
ghost use Rattle.elf_loading.specs.WordsLeft.{HasWordOf, IsSame, relocations_left};
ghost use Rattle.elf_loading.specs.declared.error.LoadError.TheVariants.{CopySource};

use crate::LoadError;
use crate::in_order::{Records, Relocation};
use crate::plan::LoadPlan;
use crate::slots::is_later;
use crate::value::{Origin, Value, low};
use crate::word_error::WordError;
use crate::words::{Binding, Relocated, Word, Words, binds_lazily, needs_symbol};
use elf_base::bytes::Record;
use elf_linking::DynamicObject;
use elf_linking::references::relative_of;
use elf_linking::references::types::Row;
use elf_linking::scope::Scope;
use elf_linking::view::LinkedSymbol;
use xmas_elf::bytes::Order;

/// Where an object is loaded.
#[derive(Clone, Copy, Debug, PartialEq, Eq)]
pub struct Place {
    /// The number that is added to its addresses.
    pub base: u64,
    /// The number of its module of thread-local storage.
    pub module: u64,
    /// The offset of its thread-local storage from the thread pointer, modulo 2^64.
    pub thread: u64,
}

/// What the bytes of the words of an object are computed from. The contracts of `LoadScope::relocate` and
/// `write_words` have such a value; no call takes one.
#[derive(Drop)]
pub struct Sources<'b, 's, 'a, E: Record> {
    /// The objects of the scope.
    pub objects: &'s [DynamicObject<'a, E>],
    /// The plan of each object.
    pub plans: &'s [LoadPlan<'a>],
    /// The index of the object whose words are written.
    pub of: usize,
    /// Its byte order.
    pub order: Order,
    /// Where each object is loaded.
    pub places: &'b [Place],
    /// The image of each object from which bytes are copied.
    pub images: &'b [&'b [u8]],
}

// The place of an object.
#[inline(always)]
fn place_at(places: &[Place], object: usize) -> Place
    ensures { result ≡ place_at places.now object }
{
    match places.get(object) {
        Some(place) => *place,
        None => Place {
            base: 0,
            module: 0,
            thread: 0,
        },
    }
}

// An origin plus a number.
#[inline(always)]
fn origin_sum(places: &[Place], origin: Origin, offset: u64) -> Option<u64>
    ensures { result ≡ origin_sum places.now origin offset }
{
    match origin {
        Origin::Zero => Some(offset),
        Origin::Base(object) => Some(place_at(places, object).base.wrapping_add(offset)),
        Origin::Call { .. } => None,
    }
}

// The number of a value.
#[inline(always)]
fn value_number(places: &[Place], own: usize, value: &Value) -> Option<u64>
    ensures { result ≡ value_number places.now own value.now }
{
    match *value {
        Value::Sum { origin, offset } => origin_sum(places, origin, offset),
        Value::Distance { origin, offset } => match origin_sum(places, origin, offset) {
            Some(number) => Some(number.wrapping_sub(place_at(places, own).base)),
            None => None,
        },
        Value::Module(object) => Some(place_at(places, object).module),
        Value::Thread { object, offset } => {
            Some(place_at(places, object).thread.wrapping_add(offset))
        }
        Value::ThreadNegated { object, offset } => {
            Some(offset.wrapping_sub(place_at(places, object).thread))
        }
        _ => None,
    }
}

// The byte of a number after its lowest `skipped` bytes.
#[tactic(auto, using(crate::proofs::NumberBytes::no_byte))]
fn byte_after(number: u64, skipped: usize) -> u8
    ensures { result ≡ number / 2 ^ (8 * skipped) % 256 }
{
    if skipped >= 8 {
        return 0;
    }
    ((number >> (8 * skipped)) % 256) as u8
}

// A byte of a number in `width` bytes.
fn byte_of_number(order: Order, width: usize, number: u64, place: usize) -> u8
    requires { place < width }
    ensures { result ≡ byte_of_number order width number place }
{
    match order {
        Order::Little => byte_after(number, place),
        Order::Big => byte_after(number, width - 1 - place),
    }
}

// Writes a number in `width` bytes to an image from an index on: 8 bytes at once, in one store.
#[inline(always)]
fn write_number(order: Order, image: &mut [u8], index: usize, width: usize, number: u64)
    requires { index + width ≤ length image.old }
    ensures len { length image.new ≡ length image.old }
    ensures bytes { (i : ℕ) → slice_index image.new i
        ≡ (if nat_le index i && nat_lt i (index + width)
        then byte_of_number order width number (i - index) else slice_index image.old i) }
{
    match (order, width) {
        (Order::Little, 8) => write_bytes(image, index, &number.to_le_bytes()),
        (Order::Big, 8) => write_bytes(image, index, &number.to_be_bytes()),
        _ => write_each(order, image, index, width, number),
    }
}

// The same, byte by byte.
fn write_each(order: Order, image: &mut [u8], index: usize, width: usize, number: u64)
    requires { index + width ≤ length image.old }
    ensures len { length image.new ≡ length image.old }
    ensures bytes { (i : ℕ) → slice_index image.new i
        ≡ (if nat_le index i && nat_lt i (index + width)
        then byte_of_number order width number (i - index) else slice_index image.old i) }
{
    for place in 0..width {
        image[index + place] = byte_of_number(order, width, number, place);
    }
}

// Writes bytes to an image from an index on.
#[inline(always)]
fn write_bytes(image: &mut [u8], index: usize, bytes: &[u8])
    requires { index + length bytes.now ≤ length image.old }
    ensures len { length image.new ≡ length image.old }
    ensures bytes { (i : ℕ) → slice_index image.new i
        ≡ (if nat_le index i && nat_lt i (index + length bytes.now)
        then slice_index bytes.now (i - index) else slice_index image.old i) }
{
    image[index..index + bytes.len()].copy_from_slice(bytes);
}

// The word of a relative relocation whose addend is in its record, for the object at index `of`.
#[inline(always)]
pub(crate) fn relative_word(
    of: usize,
    relative: &Option<Row>,
    relocation: &Relocation,
) -> Option<Word>
    ensures { result ≡ relative_word of relative.now relocation.now }
{
    let Some(relative) = relative else {
        return None;
    };
    let reference = &relocation.reference;
    if reference.kind != relative.kind || relocation.in_place {
        return None;
    }
    Some(Word {
        address: reference.offset,
        width: u64::from(relative.width),
        value: Value::Sum {
            origin: Origin::Base(of),
            offset: low(relative.width, u128::from(reference.addend)),
        },
    })
}

// Whether the symbol at an index of an object is weak.
fn is_weak<E: LinkedSymbol>(object: &DynamicObject<'_, E>, index: u32) -> bool
    ensures { result ≡ is_weak E.fields (slice_get (table_items (object_records object.now)) index) }
{
    match object.symbol(index) {
        Some(symbol) => symbol.info() / 16 == 2,
        None => false,
    }
}

// Whether a value that is written has no number.
fn has_no_number(value: &Value) -> bool
    ensures { result ≡ has_no_number value.now }
{
    match value {
        Value::Sum { origin, .. } | Value::Distance { origin, .. } => {
            matches!(origin, Origin::Call { .. })
        }
        Value::Descriptor { .. } => true,
        _ => false,
    }
}

// A number of words, with one more that may lack a number.
#[inline(always)]
fn counted(count: u64, lacks: bool) -> u64
    ensures { result ≡ min (count + (if lacks then 1 else 0)) (2 ^ 64 - 1) }
{
    if lacks {
        count.saturating_add(1)
    } else {
        count
    }
}

// The index of the first of some bytes in an image of `len` bytes that begins at `start`, if they are
// all in it.
#[inline(always)]
fn index_in(start: u64, len: usize, address: u64, width: u64) -> Option<usize>
    requires { 0 < width }
    ensures { MatchOption result (is_outside start len address width ≡ true)
        (λ index. (is_outside start len address width ≡ false) × (start + index ≡ address)
        × (index + width ≤ len)) }
{
    if address < start {
        return None;
    }
    let (index, len) = (address - start, len as u64);
    if index > len || width > len - index {
        return None;
    }
    Some(index as usize)
}

impl<'b, 's, 'a, E: LinkedSymbol> Sources<'b, 's, 'a, E> {
    // The first address of the image of an object.
    fn image_start(&self, object: usize) -> u64
        ensures { result ≡ image_start self.now object }
    {
        match self.plans.get(object) {
            Some(plan) => plan.span().start,
            None => 0,
        }
    }

    // The bytes of the image of an object.
    fn image_at(&self, object: usize) -> &'b [u8]
        ensures { result.now ≡ image_at self.now object }
    {
        match self.images.get(object) {
            Some(image) => image,
            None => &[],
        }
    }

    // Writes `width` bytes of an object to an image from an index on.
    fn copy(
        &self,
        image: &mut [u8],
        index: usize,
        width: usize,
        object: usize,
        offset: u64,
    ) -> Result<(), LoadError>
        requires some { 0 < width }
        requires within { index + width ≤ length image.old }
        ensures len { length image.new ≡ length image.old }
        ensures result { result ≡ (if is_outside (image_start self.now object)
            (length (image_at self.now object)) offset width then Err CopySource else Ok tt) }
        ensures bytes { IfOk result (λ done. (i : ℕ) → slice_index image.new i
            ≡ (if nat_le index i && nat_lt i (index + width)
            then slice_index (image_at self.now object) (offset - image_start self.now object + (i - index))
            else slice_index image.old i)) }
        ensures same { IfErr result (λ error. image.new ≡ image.old) }
    {
        let bytes = self.image_at(object);
        match index_in(self.image_start(object), bytes.len(), offset, width as u64) {
            Some(first) => write_bytes(image, index, &bytes[first..first + width]),
            None => return Err(LoadError::CopySource),
        }
        Ok(())
    }

    // Writes a value of `width` bytes to an image from an index on.
    #[inline(always)]
    fn write_value(
        &self,
        image: &mut [u8],
        index: usize,
        width: usize,
        value: &Value,
    ) -> Result<(), LoadError>
        requires some { 0 < width }
        requires within { index + width ≤ length image.old }
        ensures len { length image.new ≡ length image.old }
        ensures result { result ≡ (if is_copy_outside self.now width value.now then Err CopySource
            else Ok tt) }
        ensures bytes { IfOk result (λ done. (i : ℕ) → slice_index image.new i
            ≡ (if nat_le index i && nat_lt i (index + width)
            then value_byte self.now width value.now (i - index) (slice_index image.old i)
            else slice_index image.old i)) }
        ensures same { IfErr result (λ error. image.new ≡ image.old) }
    {
        if let Value::Copy { object, offset, .. } = *value {
            return self.copy(image, index, width, object, offset);
        }
        if let Some(number) = value_number(self.places, self.of, value) {
            write_number(self.order, image, index, width, number);
        }
        Ok(())
    }

    // Writes a word to an image that begins at `start`, and returns whether it has no number.
    #[inline(always)]
    fn write_word(&self, start: u64, image: &mut [u8], word: &Word) -> Result<bool, LoadError>
        requires start { start ≡ image_start self.now self.now.of }
        ensures len { length image.new ≡ length image.old }
        ensures result { result ≡ write_word self.now (length image.old) word.now }
        ensures bytes { IfOk result (λ lacks. (i : ℕ) → slice_index image.new i
            ≡ word_byte self.now (start + i) (Ok word.now) (slice_index image.old i)) }
        ensures same { IfErr result (λ error. image.new ≡ image.old) }
    {
        if word.width == 0 {
            return Ok(has_no_number(&word.value));
        }
        let Some(index) = index_in(start, image.len(), word.address, word.width) else {
            return Err(LoadError::WordAddress);
        };
        match self.write_value(image, index, word.width as usize, &word.value) {
            Ok(()) => Ok(has_no_number(&word.value)),
            Err(error) => Err(error),
        }
    }

    // Writes the word of a relocation, and returns whether it has no number.
    fn write_item(
        &self,
        own: &DynamicObject<'a, E>,
        lazy: bool,
        start: u64,
        image: &mut [u8],
        item: &Relocated<E>,
    ) -> Result<bool, LoadError>
        requires start { start ≡ image_start self.now self.now.of }
        ensures len { length image.new ≡ length image.old }
        ensures result { result ≡ write_item E.fields self.now own.now lazy (length image.old) item.now }
        ensures bytes { IfOk result (λ lacks. (i : ℕ) → slice_index image.new i
            ≡ word_byte self.now (start + i) item.now.word (slice_index image.old i)) }
        ensures same { IfErr result (λ error. image.new ≡ image.old) }
    {
        let word = item.word?;
        if is_unresolved(own, lazy, item) {
            return Err(LoadError::Unresolved);
        }
        self.write_word(start, image, &word)
    }

    // Writes the word of a relocation that may need a symbol, and returns whether it has no number.
    // `last` is the item of one before it, if there is one, and then its own.
    fn write_other(
        &self,
        words: &Words<'s, 'a, E>,
        start: u64,
        relocation: Relocation,
        last: &mut Option<Relocated<E>>,
        image: &mut [u8],
    ) -> Result<bool, LoadError>
        requires start { start ≡ image_start self.now self.now.of }
        requires words { AreWordsFor self.now.objects.now words.now.own.now self.now.of
            words.now.lazy words.now }
        requires last { IfSome last.old (HasWordOf E.fields words.now) }
        ensures last { IfSome last.new (HasWordOf E.fields words.now) }
        ensures len { length image.new ≡ length image.old }
        ensures item { IsItemWritten E.fields self.now words.now.own.now words.now.lazy
            relocation image.old image.new result }
    {
        let item = words.item_after(relocation, last);
        *last = Some(item);
        self.write_item(words.own, words.lazy, start, image, &item)
    }

    // Writes the word of the next relocation, and returns whether it has no number. A relative one
    // needs no item.
    #[inline(always)]
    fn write_next(
        &self,
        words: &Words<'s, 'a, E>,
        relative: &Option<Row>,
        start: u64,
        relocation: Relocation,
        last: &mut Option<Relocated<E>>,
        image: &mut [u8],
    ) -> Result<bool, LoadError>
        requires start { start ≡ image_start self.now self.now.of }
        requires words { AreWordsFor self.now.objects.now words.now.own.now self.now.of
            words.now.lazy words.now }
        requires relative { relative.now ≡ relative_of (file_machine words.now.file) }
        requires last { IfSome last.old (HasWordOf E.fields words.now) }
        ensures last { IfSome last.new (HasWordOf E.fields words.now) }
        ensures len { length image.new ≡ length image.old }
        ensures item { IsItemWritten E.fields self.now words.now.own.now words.now.lazy
            relocation image.old image.new result }
    {
        match relative_word(self.of, relative, &relocation) {
            Some(word) => self.write_word(start, image, &word),
            None => self.write_other(words, start, relocation, last, image),
        }
    }

    // Writes the word of the first of some records, if that is of a relative relocation and in the
    // image, and returns whether it is.
    #[inline(always)]
    fn write_record(
        &self,
        relative: &Option<Row>,
        start: u64,
        records: &mut Records<'_>,
        image: &mut [u8],
    ) -> bool
        requires start { start ≡ image_start self.now self.now.of }
        ensures len { length image.new ≡ length image.old }
        ensures first { IsRecordWritten self.now relative.now records.old records.new image.old image.new
            result }
    {
        let Some(relocation) = records.first() else {
            return false;
        };
        let Some(word) = relative_word(self.of, relative, &relocation) else {
            return false;
        };
        let Ok(_) = self.write_word(start, image, &word) else {
            return false;
        };
        records.at += 1;
        true
    }

    // Writes the words of the relative relocations that come next in records, and returns how many
    // these are.
    fn write_run(
        &self,
        words: &mut Words<'s, 'a, E>,
        relative: &Option<Row>,
        start: u64,
        image: &mut [u8],
    ) -> u64
        requires start { start ≡ image_start self.now self.now.of }
        requires words { AreWordsFor self.now.objects.now words.old.own.now self.now.of
            words.old.lazy words.old }
        requires relative { relative.now ≡ relative_of (file_machine words.old.file) }
        ensures same { IsSame words.old words.new }
        ensures len { length image.new ≡ length image.old }
        ensures run { IsWrittenSoFar E.fields self.now words.old.own.now words.old.lazy
            (relocations_left words.old) image.old (relocations_left words.new) image.new 0 result }
    {
        if words.order.packed.rest.is_some() {
            return 0;
        }
        let Some(mut records) = words.order.records else {
            return 0;
        };
        let mut count = 0u64;
        while self.write_record(relative, start, &mut records, image) {
            count = count.saturating_add(1);
        }
        words.order.records = Some(records);
        count
    }

    // Writes words, and returns how many have no number.
    fn write_words(
        &self,
        own: &DynamicObject<'a, E>,
        lazy: bool,
        words: Words<'s, 'a, E>,
        image: &mut [u8],
    ) -> Result<u64, WordError>
        requires words { AreWordsFor self.now.objects.now own.now self.now.of lazy words }
        ensures words { IsWriting E.fields self.now own.now lazy (relocations_left words.entry) image.old
            image.new (error_alone result) }
        ensures first { IfErr result (IsFirstUnwritten E.fields self.now own.now lazy
            (length image.old) (relocations_left words.entry)) }
    {
        let start = self.image_start(self.of);
        let relative = relative_of(own.file().header.pt2.machine().raw());
        let (mut words, mut last, mut count) = (words, None, 0u64);
        let mut index = self.write_run(&mut words, &relative, start, image);
        while let Some(relocation) = words.next_relocation() {
            match self.write_next(&words, &relative, start, relocation, &mut last, image) {
                Ok(lacks) => count = counted(count, lacks),
                Err(error) => {
                    return Err(WordError {
                        error,
                        relocation: Some(index),
                    });
                }
            }
            let run = self.write_run(&mut words, &relative, start, image);
            index = index.saturating_add(1).saturating_add(run);
        }
        Ok(count)
    }

    // Whether an image of this size is not that of a plan, or there are not as many plans, places or
    // images as objects.
    fn is_wrong_size(&self, plan: &LoadPlan<'_>, len: usize) -> bool
        ensures { result ≡ is_wrong_size self.now plan.now len }
    {
        let span = plan.span();
        let count = self.objects.len();
        len as u64 != span.end - span.start
            || self.plans.len() != count
            || self.places.len() != count
            || self.images.len() != count
    }

    // Writes the words of the own object to its image, which has this plan.
    pub(crate) fn relocate(
        &self,
        scope: Scope<'s, 'a, E>,
        own: &DynamicObject<'a, E>,
        plan: &LoadPlan<'_>,
        when: Binding,
        image: &mut [u8],
    ) -> Result<u64, WordError>
        requires scope { scope_objects scope ≡ self.now.objects }
        requires own { slice_get self.now.objects.now self.now.of ≡ Some own.now }
        ensures words { IsRelocation E.fields self.now own.now plan.now
            (binds_lazily (view_entries (object_view own.now)) when) image.old image.new
            (error_alone result) }
        ensures first { IfErr result (IsRelocationError E.fields self.now own.now plan.now
            (binds_lazily (view_entries (object_view own.now)) when) (length image.old)) }
    {
        if self.is_wrong_size(plan, image.len()) {
            return Err(WordError {
                error: LoadError::ImageSize,
                relocation: None,
            });
        }
        match Words::new(scope, self.of, when) {
            Ok(words) => self.write_words(own, binds_lazily(&own.view(), when), words, image),
            Err(error) => Err(WordError {
                error: LoadError::Link(error),
                relocation: None,
            }),
        }
    }
}

// Whether a relocation needs a symbol that no object has, and that is not weak.
fn is_unresolved<E: LinkedSymbol>(
    own: &DynamicObject<'_, E>,
    lazy: bool,
    item: &Relocated<E>,
) -> bool
    ensures { result ≡ is_unresolved E.fields own.now lazy item.now }
{
    // Most symbols are found, and their file isn't copied.
    if !matches!(item.bound, Ok(None)) {
        return false;
    }
    let file = own.file();
    let machine = file.header.pt2.machine().raw();
    let later = is_later(&file, own, lazy, &item.relocation);
    needs_symbol(machine, later, &item.relocation)
        && !is_weak(own, item.relocation.reference.symbol)
}
