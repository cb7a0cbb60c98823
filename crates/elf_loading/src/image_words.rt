//! Whether the words of an object can be written.

ghost use Rattle.std.specs.Prelude.{◌%◌, ◌<◌, [], ◌==◌, ◌≡◌, ◌+◌, ◌&&◌, ◌*◌, ◌≤◌, ◌||◌, Some, nat_lt};
ghost use Rattle.std.specs.Prelude.{slice_get, Err, IfErr, IfSome, MatchResult, not, Ok, ℕ, nat_le, length};
ghost use Rattle.std.specs.Prelude.{option_map};
ghost use Rattle.std.specs.List.{find, list_any};
ghost use Rattle.elf_linking.specs.References.{file_machine};
ghost use Rattle.elf_linking.specs.RelocationTypes.{relative_of};
ghost use Rattle.elf_linking.specs.Scope.{scope_objects};
ghost use Rattle.elf_loading.specs.ImageTables.{tables_of};
ghost use Rattle.elf_loading.specs.ImageWords.{AreMarksOf, AreWordsFrom, IsBegun, IsItemChecked};
ghost use Rattle.elf_loading.specs.ImageWords.{IsKnown, IsOwnCheck, IsWordCheck};
ghost use Rattle.elf_loading.specs.ImageWords.{checked_relocations, holds_word, is_held, is_marked};
ghost use Rattle.elf_loading.specs.ImageWords.{meet, some_marked, touch_one, touches, touches_at};
ghost use Rattle.elf_loading.specs.Plan.{plan_loads, plan_size, plan_span};
ghost use Rattle.elf_loading.specs.Segments.{has_flag};
ghost use Rattle.elf_loading.specs.WordErrors.{IsCheckError, IsFirstUnchecked, error_alone};
ghost use Rattle.elf_loading.specs.WordsLeft.{HasWordOf, relocations_left};

use crate::LoadError;
use crate::image_tables::{asks_for_text, check_records, check_tables, tables_of};
use crate::in_order::Relocation;
use crate::plan::LoadPlan;
use crate::relocate::relative_word;
use crate::segments::has_flag;
use crate::word_error::WordError;
use crate::words::{Binding, Relocated, Word, Words};
use elf_linking::references::types::Row;
use elf_linking::scope::Scope;
use elf_linking::view::{LinkedSymbol, TableLocation};
use elf_linking::{DynamicObject, Segment};
use xmas_elf::program::FLAG_W;

// What the check of a word asks of its object.
#[derive(Drop)]
struct Room<'b, 'a> {
    // The plan.
    plan: &'b LoadPlan<'a>,
    // The first address of its span, which has the first mark.
    start: u64,
    // Whether the file asks for writes to loads that are not writable.
    text: bool,
    tables: [TableLocation; 9],
}

// How many tables are before the dynamic segment, the last of all. In most files that one alone is in
// a load that is written to.
const READ_ONLY: usize = 8;

// A load that has a word, and what is known of it.
#[derive(Clone, Copy)]
struct Holder {
    load: Segment,
    // Whether its memory has no byte of a table before the dynamic segment.
    is_free: bool,
}

// Whether ranges of addresses have a byte in common.
fn meet(start: u64, size: u64, other: u64, many: u64) -> bool
    ensures { result ≡ meet start size other many }
{
    if other < start {
        return start - other < many && 0 < size;
    }
    other - start < size && 0 < many
}

// Whether bytes at an address and a table have a byte in common.
fn touches(address: u64, many: u64, table: &TableLocation) -> bool
    ensures { result ≡ touches_at address many table.now.start table.now.size }
{
    match (table.start, table.size) {
        (Some(start), Some(size)) => meet(address, many, start, size),
        _ => false,
    }
}

// Whether bytes at an address and one of these tables have a byte in common.
fn touches_one(address: u64, many: u64, tables: &[TableLocation]) -> bool
    ensures { result ≡ touch_one address many tables.now }
{
    tables.iter().any(|table| touches(address, many, table))
}

// Whether the memory of a load has all bytes of a word.
#[inline(always)]
fn holds_word(word: &Word, load: &Segment) -> bool
    ensures { result ≡ holds_word word.now load.now }
{
    if word.address < load.address {
        return false;
    }
    let skipped = word.address - load.address;
    skipped <= load.mem_size && word.width <= load.mem_size - skipped
}

// The first load whose memory has all bytes of a word.
#[tactic(auto, using(crate::proofs::ImageLoads::holder_first, crate::proofs::ImageLoads::holder_rest, crate::proofs::ImageLoads::holder_end))]
fn holder_of(word: &Word, plan: &LoadPlan<'_>) -> Option<Segment>
    ensures { result ≡ find (holds_word word.now) (plan_loads plan.now) }
{
    for load in plan.loads() {
        if holds_word(word, &load) {
            return Some(load);
        }
    }
    None
}

// The same, with what is known of it.
#[tactic(auto, using(crate::proofs::ImageLoads::holder_within))]
fn new_holder(room: &Room<'_, '_>, word: &Word) -> Option<Holder>
    ensures known { IfSome result (IsKnown (plan_loads room.now.plan.now) room.now.tables) }
    ensures first { option_map (λ holder. holder.load) result
        ≡ find (holds_word word.now) (plan_loads room.now.plan.now) }
{
    match holder_of(word, room.plan) {
        Some(load) => Some(Holder {
            load,
            is_free: !touches_one(load.address, load.mem_size, &room.tables[..READ_ONLY]),
        }),
        None => None,
    }
}

// Whether there is a load, and its memory has all bytes of a word.
#[inline(always)]
fn is_held(word: &Word, holder: &Option<Holder>) -> bool
    ensures { result ≡ is_held word.now holder.now }
{
    match holder {
        Some(holder) => holds_word(word, &holder.load),
        None => false,
    }
}

// Finds the first load whose memory has all bytes of a word. That of a word before it is tried first:
// loads are apart, so no other has the bytes if that has them.
#[tactic(auto, using(crate::proofs::ImageLoads::found_again))]
#[inline(always)]
fn find_holder(room: &Room<'_, '_>, word: &Word, holder: &mut Option<Holder>)
    requires some { 0 < word.now.width }
    requires known { IfSome holder.old (IsKnown (plan_loads room.now.plan.now) room.now.tables) }
    ensures known { IfSome holder.new (IsKnown (plan_loads room.now.plan.now) room.now.tables) }
    ensures first { option_map (λ holder. holder.load) holder.new
        ≡ find (holds_word word.now) (plan_loads room.now.plan.now) }
{
    if is_held(word, holder) {
        return;
    }
    *holder = new_holder(room, word);
}

// Whether a word in the memory of a load and a table have a byte in common.
#[inline(always)]
fn is_in_table(room: &Room<'_, '_>, holder: &Holder, word: &Word) -> bool
    requires known { IsKnown (plan_loads room.now.plan.now) room.now.tables holder.now }
    requires found { find (holds_word word.now) (plan_loads room.now.plan.now)
        ≡ Some holder.now.load }
    ensures { result ≡ list_any (touches word.now) room.now.tables }
{
    if holder.is_free {
        return touches_one(word.address, word.width, &room.tables[READ_ONLY..]);
    }
    touches_one(word.address, word.width, &room.tables)
}

// Sets a mark, and returns whether it was set.
fn mark(marks: &mut [u8], index: u128) -> bool
    requires { index < 8 * length marks.old }
    ensures was { result ≡ is_marked marks.old index }
    ensures len { length marks.new ≡ length marks.old }
    ensures set { (i : ℕ) → is_marked marks.new i ≡ (i == index || is_marked marks.old i) }
{
    let (byte, bit) = ((index / 8) as usize, (index % 8) as u32);
    let was = (marks[byte] >> bit) & 1 == 1;
    marks[byte] |= 1 << bit;
    was
}

// Sets the eight marks of a byte, from this index on, and returns whether one was set.
#[tactic(auto, using(crate::proofs::Marks::byte_was))]
fn mark_byte(marks: &mut [u8], start: u64) -> bool
    requires whole { start % 8 ≡ 0 }
    requires room { start + 8 ≤ 8 * length marks.old }
    ensures was { result ≡ some_marked marks.old start 8 }
    ensures len { length marks.new ≡ length marks.old }
    ensures set { (i : ℕ) → is_marked marks.new i
        ≡ ((nat_le start i && nat_lt i (start + 8)) || is_marked marks.old i) }
{
    let byte = (start / 8) as usize;
    let was = marks[byte] != 0;
    marks[byte] = 0xff;
    was
}

// Sets as many marks as are given from an index on, one by one, and returns whether one was set.
fn mark_each(marks: &mut [u8], start: u64, count: u64) -> bool
    requires { start + count ≤ 8 * length marks.old }
    ensures was { result ≡ some_marked marks.old start count }
    ensures len { length marks.new ≡ length marks.old }
    ensures set { (i : ℕ) → is_marked marks.new i
        ≡ ((nat_le start i && nat_lt i (start + count)) || is_marked marks.old i) }
{
    let mut was = false;
    for place in 0..count {
        was |= mark(marks, u128::from(start) + u128::from(place));
    }
    was
}

// The same. The words of most relocations have eight bytes at a multiple of eight: one byte of marks.
fn mark_all(marks: &mut [u8], start: u64, count: u64) -> bool
    requires { start + count ≤ 8 * length marks.old }
    ensures was { result ≡ some_marked marks.old start count }
    ensures len { length marks.new ≡ length marks.old }
    ensures set { (i : ℕ) → is_marked marks.new i
        ≡ ((nat_le start i && nat_lt i (start + count)) || is_marked marks.old i) }
{
    if count == 8 && start % 8 == 0 {
        return mark_byte(marks, start);
    }
    mark_each(marks, start, count)
}

// Whether a load is not writable, and the file doesn't ask for writes to such a load.
fn is_shut(room: &Room<'_, '_>, load: &Segment) -> bool
    ensures { result ≡ (not room.now.text && not (has_flag 2 load.now)) }
{
    !room.text && !has_flag(load, FLAG_W)
}

// Whether a word can be written after those that have marks; the word gets marks. `holder` is the load
// of a word before it, if there is one, and then its own.
#[inline(always)]
fn check_word(
    room: &Room<'_, '_>,
    word: &Word,
    holder: &mut Option<Holder>,
    marks: &mut [u8],
) -> Result<(), LoadError>
    requires start { room.now.start ≡ (plan_span room.now.plan.now).start }
    requires marks { plan_size room.now.plan.now ≤ 8 * length marks.old }
    requires holder { IfSome holder.old (IsKnown (plan_loads room.now.plan.now) room.now.tables) }
    ensures holder { IfSome holder.new (IsKnown (plan_loads room.now.plan.now) room.now.tables) }
    ensures len { length marks.new ≡ length marks.old }
    ensures exact { IsWordCheck (plan_loads room.now.plan.now) room.now.text room.now.tables
        room.now.start (Ok word.now) marks.old marks.new result }
{
    if word.width == 0 {
        return Ok(());
    }
    find_holder(room, word, holder);
    let Some(found) = *holder else {
        return Err(LoadError::WordAddress);
    };
    if is_shut(room, &found.load) {
        return Err(LoadError::ReadOnly);
    }
    if mark_all(marks, word.address - room.start, word.width) {
        return Err(LoadError::WordsOverlap);
    }
    if is_in_table(room, &found, word) {
        return Err(LoadError::WordInTable);
    }
    Ok(())
}

// Checks the word of a relocation that may need a symbol, after those that have marks. `last` is the
// item of a relocation before it, if there is one, and then its own.
fn check_other<E: LinkedSymbol>(
    room: &Room<'_, '_>,
    words: &Words<'_, '_, E>,
    relocation: Relocation,
    last: &mut Option<Relocated<E>>,
    holder: &mut Option<Holder>,
    marks: &mut [u8],
) -> Result<(), LoadError>
    requires start { room.now.start ≡ (plan_span room.now.plan.now).start }
    requires marks { plan_size room.now.plan.now ≤ 8 * length marks.old }
    requires last { IfSome last.old (HasWordOf E.fields words.now) }
    requires holder { IfSome holder.old (IsKnown (plan_loads room.now.plan.now) room.now.tables) }
    ensures last { IfSome last.new (HasWordOf E.fields words.now) }
    ensures holder { IfSome holder.new (IsKnown (plan_loads room.now.plan.now) room.now.tables) }
    ensures len { length marks.new ≡ length marks.old }
    ensures item { IsItemChecked E.fields (plan_loads room.now.plan.now) room.now.text
        room.now.tables room.now.start words.now relocation marks.old marks.new result }
{
    let item = words.item_after(relocation, last);
    *last = Some(item);
    match item.word {
        Ok(word) => check_word(room, &word, holder, marks),
        Err(error) => Err(error),
    }
}

// The same of the next relocation. A relative one needs no item.
#[inline(always)]
fn check_next<E: LinkedSymbol>(
    room: &Room<'_, '_>,
    words: &Words<'_, '_, E>,
    relative: &Option<Row>,
    relocation: Relocation,
    last: &mut Option<Relocated<E>>,
    holder: &mut Option<Holder>,
    marks: &mut [u8],
) -> Result<(), LoadError>
    requires start { room.now.start ≡ (plan_span room.now.plan.now).start }
    requires marks { plan_size room.now.plan.now ≤ 8 * length marks.old }
    requires relative { relative.now ≡ relative_of (file_machine words.now.file) }
    requires last { IfSome last.old (HasWordOf E.fields words.now) }
    requires holder { IfSome holder.old (IsKnown (plan_loads room.now.plan.now) room.now.tables) }
    ensures last { IfSome last.new (HasWordOf E.fields words.now) }
    ensures holder { IfSome holder.new (IsKnown (plan_loads room.now.plan.now) room.now.tables) }
    ensures len { length marks.new ≡ length marks.old }
    ensures item { IsItemChecked E.fields (plan_loads room.now.plan.now) room.now.text
        room.now.tables room.now.start words.now relocation marks.old marks.new result }
{
    match relative_word(words.of, relative, &relocation) {
        Some(word) => check_word(room, &word, holder, marks),
        None => check_other(room, words, relocation, last, holder, marks),
    }
}

// Clears all marks.
fn clear(marks: &mut [u8])
    ensures len { length marks.new ≡ length marks.old }
    ensures marks { (start : ℕ) → AreMarksOf start [] marks.new }
{
    marks.fill(0);
}

// Whether words can be written, by marks that are clear.
fn check_words<E: LinkedSymbol>(
    room: &Room<'_, '_>,
    words: Words<'_, '_, E>,
    marks: &mut [u8],
) -> Result<(), WordError>
    requires start { room.now.start ≡ (plan_span room.now.plan.now).start }
    requires room { plan_size room.now.plan.now ≤ 8 * length marks.old }
    requires clear { AreMarksOf room.now.start [] marks.old }
    ensures words { AreWordsFrom E.fields (plan_loads room.now.plan.now) room.now.text
        room.now.tables words.entry (error_alone result) }
    ensures first { IfErr result (IsFirstUnchecked (HasWordOf E.fields words.entry)
        (plan_loads room.now.plan.now) room.now.text room.now.tables (relocations_left words.entry)) }
{
    let relative = words.relative_row();
    let (mut words, mut last, mut holder, mut index) = (words, None, None, 0u64);
    while let Some(relocation) = words.next_relocation() {
        match check_next(
            room,
            &words,
            &relative,
            relocation,
            &mut last,
            &mut holder,
            marks,
        ) {
            Ok(()) => index = index.saturating_add(1),
            Err(error) => {
                return Err(WordError {
                    error,
                    relocation: Some(index),
                });
            }
        }
    }
    Ok(())
}

// The words of an object whose tables can be used, where this many marks are enough for its plan.
fn begin<'s, 'a, E: LinkedSymbol>(
    scope: Scope<'s, 'a, E>,
    of: usize,
    own: &DynamicObject<'a, E>,
    plan: &LoadPlan<'_>,
    tables: &[TableLocation; 9],
    bits: u128,
) -> Result<Words<'s, 'a, E>, LoadError>
    requires own { slice_get (scope_objects scope).now of ≡ Some own.now }
    requires tables { tables.now ≡ tables_of E.SIZE own.now }
    ensures { MatchResult result
        (IsBegun E.SIZE (scope_objects scope.entry) of own.now plan.now bits)
        (λ error. checked_relocations E.SIZE own.now plan.now bits ≡ Err error) }
{
    check_tables(own, tables)?;
    let words = match Words::new(scope, of, Binding::Now) {
        Ok(words) => words,
        Err(error) => return Err(LoadError::Link(error)),
    };
    check_records(&own.file(), &own.view())?;
    let span = plan.span();
    if bits < u128::from(span.end - span.start) {
        return Err(LoadError::FewMarks);
    }
    Ok(words)
}

// Whether the words of an object with this plan, which is at an index of a scope, can be written.
pub(crate) fn check_own<'a, E: LinkedSymbol>(
    scope: Scope<'_, 'a, E>,
    of: usize,
    own: &DynamicObject<'a, E>,
    plan: &LoadPlan<'_>,
    marks: &mut [u8],
) -> Result<(), WordError>
    requires { slice_get (scope_objects scope).now of ≡ Some own.now }
    ensures check { IsOwnCheck E.SIZE E.fields (scope_objects scope.entry).now of own.now plan.now
        (8 * length marks.old) (error_alone result) }
    ensures first { IfErr result (IsCheckError E.SIZE E.fields (scope_objects scope.entry).now of
        own.now plan.now (8 * length marks.old)) }
{
    let tables = tables_of(own);
    let words = match begin(scope, of, own, plan, &tables, 8 * marks.len() as u128) {
        Ok(words) => words,
        Err(error) => {
            return Err(WordError {
                error,
                relocation: None,
            });
        }
    };
    clear(marks);
    let room = Room {
        plan,
        start: plan.span().start,
        text: asks_for_text(&own.view()),
        tables,
    };
    check_words(&room, words, marks)
}
