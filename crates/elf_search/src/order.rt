//! The list of the objects that a program gets, in the order in which the loader finds them.

ghost use Rattle.std.specs.Prelude.{◌≡◌, ◌↔◌, ◌<◌, ◌≤◌, ◌+◌, ◌-◌, ◌*◌, ◌^◌, ℕ, true, max, min, nat_lt, None, Some, if◌then◌else◌, IfOk, IfSome, IsOk, MatchOption, OnErr, OnOk, length, slice_index, slice_set};

use crate::SearchError;

/// The edge of an entry whose name is missing.
pub const NO_OBJECT: u32 = u32::MAX;

// The state of an object whose entries are gone through. That of one that was put before an object is
// the number of that object, and that of others is `NO_OBJECT`.
const GONE: u32 = u32::MAX - 1;

// The parts of the words of an object: the place of the words of its entries is the first.
const NEXT: usize = 1;

const PREVIOUS: usize = 2;

const STATE: usize = 3;

/// The list of the objects that a program gets, in words of the caller: 4 for each object, and 1 for
/// each of their entries.
///
/// Objects have numbers in the order in which they are loaded, from 0, the program. `next` says which
/// entry of which object is to be found next; `found`, `add` or `missing` says what it found. The
/// objects are gone through in the order of the list, which is that of their numbers as long as
/// `found_before` and `add_before`, for auxiliary and filter entries, are not called.
#[derive(Drop)]
pub struct Order<'w> {
    objects: &'w mut [u32],
    edges: &'w mut [u32],
    count: usize,
    used: usize,
    current: usize,
    start: usize,
    place: usize,
    end: usize,
    gone: usize,
    passed: usize,
    first: usize,
    last: usize,
    placed: usize,
    plain: bool,
    ghost object_room: { 4 * count ≤ length objects.now },
    ghost edge_room: { used ≤ length edges.now },
    ghost few: { count < 2 ^ 32 },
    ghost few_words: { used + 1 < 2 ^ 32 },
    ghost current_in: { current < count },
    ghost start_in: { start ≤ place },
    ghost place_in: { place ≤ end },
    ghost end_in: { end ≤ used },
}

impl<'w> Order<'w> {
    ghost use Rattle.elf_search.specs.LoadOrder.{end_of, start_of};
    ghost use Rattle.elf_search.specs.Order.{IsPlainOrder, KeepsFields, KeepsLists, KeepsOthers};
    ghost use Rattle.elf_search.specs.Order.{KeepsPlace, KeepsState, before_of, edges_of};
    ghost use Rattle.elf_search.specs.Order.{last_of};

    /// The list of the program alone, with this number of entries.
    ///
    /// Error: `FewWords` if there are fewer than 4 words for objects, or fewer words for entries than
    /// it has, or if it has 2 to the 32 less 1.
    pub fn new(
        objects: &'w mut [u32],
        edges: &'w mut [u32],
        entries: u32,
    ) -> Result<Order<'w>, SearchError>
        ensures room { IsOk result ↔ ((4 ≤ length objects.old) × (entries ≤ length edges.old)
            × (entries + 1 < 2 ^ 32)) }
        ensures plain { IfOk result (λ order. IsPlainOrder order) }
        ensures program { IfOk result (λ order. (order.count ≡ 1) × (order.used ≡ entries)) }
    {
        if objects.len() < 4 || edges.len() < entries as usize || entries == u32::MAX {
            return Err(SearchError::FewWords);
        }
        write_object(objects, 0, 0, NO_OBJECT);
        Ok(Order {
            objects,
            edges,
            count: 1,
            used: entries as usize,
            current: 0,
            start: 0,
            place: 0,
            end: entries as usize,
            gone: 1,
            passed: 1,
            first: 0,
            last: 0,
            placed: usize::MAX,
            plain: true,
        })
    }

    /// The number of objects.
    pub fn count(&self) -> usize
        ensures { result ≡ self.now.count }
    {
        self.count
    }

    /// The entry that is to be found next: the number of its object, and its own among the entries of
    /// the object. `None` if all have been found or are missing. It stays the same until one of those calls. The time of all
    /// calls together is linear in the numbers of objects and entries.
    pub fn next(&mut self) -> Option<(u32, u32)>
        ensures plain { IsPlainOrder self.old → IsPlainOrder self.new
            × (self.new.place ≡ self.old.place) }
        ensures asked { MatchOption result (self.new.place ≡ self.new.end)
            (λ asked. (asked.0 ≡ self.new.current) × (self.new.start + asked.1 ≡ self.new.place)
            × (self.new.place < self.new.end)) }
        ensures all { IsPlainOrder self.old → MatchOption result (self.new.place ≡ self.new.used)
            (λ asked. self.new.place < self.new.used) }
        ensures lists { KeepsLists self.old self.new }
    {
        'objects: while self.place >= self.end {
            if self.gone >= self.count {
                return None;
            }
            let object = self.following_object();
            self.go_to(object);
        }
        Some((self.current as u32, (self.place - self.start) as u32))
    }

    // The object that is gone through after the current one. It is marked as gone through.
    fn following_object(&mut self) -> usize
        ensures inside { result < self.old.count }
        ensures plain { self.old.plain ≡ true → result ≡ min (self.old.current + 1) (self.old.count - 1) }
        ensures same { KeepsState self.old self.new }
    {
        if self.plain {
            return (self.current + 1).min(self.count - 1);
        }
        let object = self.waiting();
        self.set(object, STATE, GONE);
        object
    }

    // The first object that is not gone through, among those put before the current one and those
    // behind it in the list.
    fn waiting(&self) -> usize
        ensures { result < self.now.count }
    {
        let mut object = self.placed;
        if object >= self.count {
            object = self.word(self.current, NEXT);
        }
        for _ in 0..self.count {
            if object >= self.count {
                return self.current;
            }
            if object >= self.passed && self.word(object, STATE) != GONE as usize {
                return object;
            }
            object = self.word(object, NEXT);
        }
        self.current
    }

    // A word of an object.
    fn word(&self, object: usize, part: usize) -> usize
        requires inside { object < self.now.count }
        requires part_in { part < 4 }
        ensures value { result ≡ slice_index self.now.objects.now (4 * object + part) }
        ensures fits { result < 2 ^ 32 }
    {
        self.objects[4 * object + part] as usize
    }

    // Writes one of the last three words of an object, if it is one.
    fn set(&mut self, object: usize, part: usize, value: u32)
        requires part_in { part < 4 }
        requires part_above { 0 < part }
        ensures state { KeepsFields self.old self.new }
        ensures plain { self.new.plain ≡ self.old.plain }
        ensures length { length self.new.objects.now ≡ length self.old.objects.now }
        ensures words { (k : ℕ) → slice_index self.new.objects.now (4 * k)
            ≡ slice_index self.old.objects.now (4 * k) }
    {
        if object < self.count {
            set_word(self.objects, object, part, value);
        }
    }

    // Goes to the entries of an object.
    fn go_to(&mut self, object: usize)
        requires inside { object < self.old.count }
        requires more { self.old.gone < self.old.count }
        ensures moved { self.new.current ≡ object }
        ensures start { self.new.start
            ≡ min (start_of self.old.objects.now object) self.old.used }
        ensures place { self.new.place ≡ self.new.start }
        ensures end { self.new.end ≡ max
            (min (end_of self.old.objects.now self.old.count self.old.used object) self.old.used)
            self.new.start }
        ensures gone { self.new.gone ≡ self.old.gone + 1 }
        ensures lists { KeepsLists self.old self.new }
    {
        let start = self.start_of(object).min(self.used);
        let end = self.end_of(object).min(self.used).max(start);
        self.current = object;
        self.start = start;
        self.place = start;
        self.end = end;
        self.placed = usize::MAX;
        self.gone += 1;
    }

    /// The entry that is asked for found an object that is there.
    ///
    /// Error: `NoObject` if no object has this number, or no entry is asked for.
    pub fn found(&mut self, number: u32) -> Result<(), SearchError>
        ensures accepts { IsOk result ↔ ((number < self.old.count)
            × (self.old.place < self.old.end)) }
        ensures edge { OnOk result (self.new.edges.now
            ≡ slice_set self.old.edges.now self.old.place number) }
        ensures step { OnOk result (self.new.place ≡ self.old.place + 1) }
        ensures plain { IsPlainOrder self.old → IsPlainOrder self.new }
        ensures same { OnErr result (KeepsLists self.old self.new
            × (self.new.place ≡ self.old.place)) }
    {
        if self.place >= self.end || number as usize >= self.count {
            return Err(SearchError::NoObject);
        }
        self.record(number);
        Ok(())
    }

    /// As `found`, for an auxiliary or a filter entry: an object that comes after the one whose
    /// entry it is, is moved in the list, directly before that one.
    ///
    /// Error: `NoObject` if no object has this number, or no entry is asked for.
    pub fn found_before(&mut self, number: u32) -> Result<(), SearchError>
        ensures accepts { IsOk result ↔ ((number < self.old.count)
            × (self.old.place < self.old.end)) }
        ensures edge { OnOk result (self.new.edges.now
            ≡ slice_set self.old.edges.now self.old.place number) }
        ensures step { OnOk result (self.new.place ≡ self.old.place + 1) }
        ensures same { OnErr result (KeepsLists self.old self.new
            × (self.new.place ≡ self.old.place)) }
    {
        if self.place >= self.end || number as usize >= self.count {
            return Err(SearchError::NoObject);
        }
        self.move_before(number as usize);
        self.record(number);
        Ok(())
    }

    /// As `add`, for an auxiliary or a filter entry: the new object is put directly before the one whose
    /// entry it is, and after those that were put there before.
    ///
    /// The errors are those of `add`.
    pub fn add_before(&mut self, entries: u32) -> Result<u32, SearchError>
        ensures accepts { IsOk result ↔ ((self.old.place < self.old.end)
            × (4 * self.old.count + 4 ≤ length self.old.objects.now)
            × (self.old.used + entries ≤ length self.old.edges.now)
            × (self.old.used + entries + 1 < 2 ^ 32) × (self.old.count + 2 < 2 ^ 32)) }
        ensures number { IfOk result (λ number. (number ≡ self.old.count)
            × (self.new.count ≡ self.old.count + 1)
            × (self.new.used ≡ self.old.used + entries)
            × (self.new.edges.now ≡ slice_set self.old.edges.now self.old.place number)
            × (self.new.place ≡ self.old.place + 1)) }
        ensures same { OnErr result (KeepsLists self.old self.new
            × (self.new.place ≡ self.old.place)) }
    {
        let number = self.add(entries)?;
        self.move_before(number as usize);
        Ok(number)
    }

    /// The entry that is asked for found nothing. Nothing changes if no entry is asked for.
    pub fn missing(&mut self)
        ensures edge { self.old.place < self.old.end → self.new.edges.now
            ≡ slice_set self.old.edges.now self.old.place NO_OBJECT }
        ensures step { self.old.place < self.old.end → self.new.place ≡ self.old.place + 1 }
        ensures same { self.old.end ≤ self.old.place → KeepsLists self.old self.new
            × (self.new.place ≡ self.old.place) }
        ensures plain { IsPlainOrder self.old → IsPlainOrder self.new }
    {
        if self.place >= self.end {
            return;
        }
        self.record(NO_OBJECT);
    }

    /// The entry that is asked for found a new object, which has this number of entries. It is put at
    /// the end of the list. The value is its number.
    ///
    /// Errors: `NoObject` if no entry is asked for; `FewWords` if the words are too few for it, or the
    /// number of entries of all objects is 2 to the 32 less 1 or more.
    pub fn add(&mut self, entries: u32) -> Result<u32, SearchError>
        ensures accepts { IsOk result ↔ ((self.old.place < self.old.end)
            × (4 * self.old.count + 4 ≤ length self.old.objects.now)
            × (self.old.used + entries ≤ length self.old.edges.now)
            × (self.old.used + entries + 1 < 2 ^ 32) × (self.old.count + 2 < 2 ^ 32)) }
        ensures number { IfOk result (λ number. (number ≡ self.old.count)
            × (self.new.count ≡ self.old.count + 1)
            × (self.new.used ≡ self.old.used + entries)
            × (self.new.edges.now ≡ slice_set self.old.edges.now self.old.place number)
            × (self.new.place ≡ self.old.place + 1)) }
        ensures plain { IsPlainOrder self.old → IsPlainOrder self.new }
        ensures same { OnErr result (KeepsLists self.old self.new
            × (self.new.place ≡ self.old.place)) }
    {
        if self.place >= self.end {
            return Err(SearchError::NoObject);
        }
        let number = self.count;
        let used = self.used + entries as usize;
        if self.objects.len() < 4 * number + 4 || self.edges.len() < used {
            return Err(SearchError::FewWords);
        }
        if used >= u32::MAX as usize || number >= GONE as usize {
            return Err(SearchError::FewWords);
        }
        self.grow(used);
        self.record(number as u32);
        Ok(number as u32)
    }

    // The last object in the list.
    pub(crate) fn last(&self) -> usize
        ensures { result ≡ last_of self.now }
    {
        if self.plain {
            self.count - 1
        } else {
            self.last
        }
    }

    // The object before another one in the list, or a number that is no object's.
    pub(crate) fn before(&self, object: usize) -> usize
        requires { object < self.now.count }
        ensures { result ≡ before_of self.now object }
    {
        if !self.plain {
            return self.word(object, PREVIOUS);
        }
        if object == 0 {
            NO_OBJECT as usize
        } else {
            object - 1
        }
    }

    // Notes what the entry that is asked for found, and goes to the next entry.
    fn record(&mut self, number: u32)
        requires { self.old.place < self.old.end }
        ensures edge { self.new.edges.now ≡ slice_set self.old.edges.now self.old.place number }
        ensures step { self.new.place ≡ self.old.place + 1 }
        ensures same { KeepsOthers self.old self.new }
    {
        self.edges[self.place] = number;
        self.place += 1;
    }

    // Puts a new object at the end of the list, with the words of entries up to `used`.
    fn grow(&mut self, used: usize)
        requires object_room { 4 * self.old.count + 4 ≤ length self.old.objects.now }
        requires edge_room { used ≤ length self.old.edges.now }
        requires few { self.old.count + 1 < 2 ^ 32 }
        requires few_words { used + 1 < 2 ^ 32 }
        requires more { self.old.used ≤ used }
        ensures words { (k : ℕ) → k < self.old.count
            → slice_index self.new.objects.now (4 * k) ≡ slice_index self.old.objects.now (4 * k) }
        ensures new { slice_index self.new.objects.now (4 * self.old.count) ≡ self.old.used }
        ensures count { self.new.count ≡ self.old.count + 1 }
        ensures used { self.new.used ≡ used }
        ensures same { KeepsPlace self.old self.new }
        ensures length { length self.new.objects.now ≡ length self.old.objects.now }
    {
        let number = self.count;
        let last = self.last.min(NO_OBJECT as usize) as u32;
        write_object(self.objects, number, self.used as u32, last);
        self.set(self.last, NEXT, number as u32);
        self.count = number + 1;
        self.used = used;
        self.last = number;
    }

    // Puts an object directly before the current one in the list, unless it comes before it or is it.
    fn move_before(&mut self, number: usize)
        requires { number < self.old.count }
        ensures { KeepsFields self.old self.new }
    {
        self.leave_numbers();
        let state = self.word(number, STATE);
        if number < self.passed || state == GONE as usize || state == self.current {
            return;
        }
        self.unlink(number);
        self.insert(number);
    }

    // From here on the list is not in the order of numbers.
    fn leave_numbers(&mut self)
        ensures { KeepsFields self.old self.new }
    {
        if self.plain {
            self.passed = self.current + 1;
            self.plain = false;
        }
    }

    // Takes an object out of the list.
    fn unlink(&mut self, number: usize)
        requires { number < self.old.count }
        ensures { KeepsFields self.old self.new }
    {
        let previous = self.word(number, PREVIOUS);
        let next = self.word(number, NEXT);
        self.set(previous, NEXT, next as u32);
        self.set(next, PREVIOUS, previous as u32);
        if self.first == number {
            self.first = next;
        }
        if self.last == number {
            self.last = previous;
        }
    }

    // Puts an object directly before the current one in the list.
    fn insert(&mut self, number: usize)
        requires { number < self.old.count }
        ensures { KeepsFields self.old self.new }
    {
        let current = self.current;
        let previous = self.word(current, PREVIOUS);
        self.set(number, PREVIOUS, previous as u32);
        self.set(number, NEXT, current as u32);
        self.set(number, STATE, current as u32);
        self.set(current, PREVIOUS, number as u32);
        self.set(previous, NEXT, number as u32);
        if self.first == current {
            self.first = number;
        }
        if self.placed >= self.count {
            self.placed = number;
        }
    }

    /// The first object in the list.
    pub fn first(&self) -> u32
        ensures { self.now.plain ≡ true → result ≡ 0 }
    {
        if self.plain {
            return 0;
        }
        self.first.min(NO_OBJECT as usize) as u32
    }

    /// The object after another one in the list, if there is one. It is the one with the next number as
    /// long as `found_before` and `add_before` are not called.
    pub fn following(&self, number: u32) -> Option<u32>
        ensures plain { self.now.plain ≡ true → result
            ≡ (if nat_lt (number + 1) self.now.count then Some (number + 1) else None) }
        ensures inside { IfSome result (λ next. next < self.now.count) }
    {
        let number = number as usize;
        if number >= self.count {
            return None;
        }
        let next = if self.plain {
            number + 1
        } else {
            self.word(number, NEXT)
        };
        if next < self.count {
            Some(next as u32)
        } else {
            None
        }
    }

    /// What the entries of an object found: an object each, or `NO_OBJECT`. Those not yet
    /// asked for are words as the caller gave them. Empty if no object has the number.
    pub fn edges(&self, number: u32) -> &[u32]
        ensures edges { result.now ≡ edges_of self.now number }
        ensures few { length result.now ≤ self.now.used }
    {
        let number = number as usize;
        if number >= self.count {
            return &[];
        }
        let end = self.end_of(number).min(self.used);
        let start = self.start_of(number).min(end);
        &self.edges[start..end]
    }

    // The place of the words of an object's entries.
    fn start_of(&self, object: usize) -> usize
        requires { object < self.now.count }
        ensures value { result ≡ start_of self.now.objects.now object }
        ensures fits { result < 2 ^ 32 }
    {
        self.objects[4 * object] as usize
    }

    // The end of these words.
    fn end_of(&self, object: usize) -> usize
        requires { object < self.now.count }
        ensures value { result ≡ end_of self.now.objects.now self.now.count self.now.used object }
        ensures fits { result < 2 ^ 32 }
    {
        if object + 1 == self.count {
            return self.used;
        }
        self.start_of(object + 1)
    }
}

// Writes the words of an object.
fn write_object(objects: &mut [u32], object: usize, start: u32, previous: u32)
    requires { 4 * object + 4 ≤ length objects.old }
    ensures start { slice_index objects.new (4 * object) ≡ start }
    ensures others { (i : ℕ) → i < 4 * object → slice_index objects.new i
        ≡ slice_index objects.old i }
{
    objects[4 * object] = start;
    objects[4 * object + NEXT] = NO_OBJECT;
    objects[4 * object + PREVIOUS] = previous;
    objects[4 * object + STATE] = NO_OBJECT;
}

// Writes one of the last three words of an object.
fn set_word(objects: &mut [u32], object: usize, part: usize, value: u32)
    requires room { 4 * object + 4 ≤ length objects.old }
    requires part_in { part < 4 }
    requires part_above { 0 < part }
    ensures others { (k : ℕ) → slice_index objects.new (4 * k) ≡ slice_index objects.old (4 * k) }
{
    objects[4 * object + part] = value;
}
