//! The order in which the objects of a program are loaded, and in which they start, by what their entries
//! found (`ld.so` of glibc).

ghost use Rattle.std.specs.Prelude.{◌≡◌, ◌<◌, ◌≤◌, ℕ, IfOk, IfSome, Result, Some, false, length, slice_get, take, true};
ghost use Rattle.elf_c.specs.SearchOrder.{AreListed, HasFound, IsStartOrder, IsUnasked, are_needed};
ghost use Rattle.elf_c.specs.SearchOrder.{first_unasked, has_other_kind, next_answer, unasked_in};
ghost use Rattle.elf_c.specs.Status.{GivesHere};
ghost use Rattle.elf_search.specs.Order.{IsPlainOrder, edges_of};
ghost use Rattle.elf_c.specs.declared.status.AnyError.{AnyError};

use crate::search_files::{AUXILIARY, FILTER};
use crate::status::{AnyError, give};
use elf_search::SearchError;
use elf_search::order::{NO_OBJECT, Order};
use elf_search::start::start_order;

/// An entry that nothing was asked for so far.
pub const NOT_ASKED: u32 = u32::MAX - 1;

/// What the entries of an object ask for and found.
#[repr(C)]
#[derive(Clone, Copy, Debug)]
pub struct Dependencies<'d> {
    /// For each entry the number of the object that it found; 2 to the 32 less 1 if that is missing, and
    /// `NOT_ASKED` if it was not asked for.
    pub found: &'d [u32],
    /// What each asks for, as in a `NeededName`; `NEEDED` for those that are left out at the end.
    pub kinds: &'d [u32],
}

/// An entry of an object.
#[repr(C)]
#[derive(Clone, Copy, Debug)]
pub struct ObjectEntry {
    /// The number of the object.
    pub object: u64,
    /// The index of the entry.
    pub entry: u64,
}

// Whether some entry is an auxiliary or a filter entry.
fn has_other_kind(kinds: &[u32]) -> bool
    ensures { result ≡ has_other_kind kinds.now }
{
    kinds.contains(&AUXILIARY) || kinds.contains(&FILTER)
}

// Whether all entries are of libraries that are needed.
#[tactic(auto, using(crate::proofs::SearchOrder::needed_end, crate::proofs::SearchOrder::needed_not, crate::proofs::SearchOrder::needed_more))]
fn are_needed(dependencies: &[Dependencies<'_>]) -> bool
    ensures { result ≡ are_needed dependencies.now }
{
    for number in 0..dependencies.len() {
        if has_other_kind(dependencies[number].kinds) {
            return false;
        }
    }
    true
}

// The index of the first entry that was not asked for.
fn unasked_in(found: &[u32]) -> Option<usize>
    ensures { result ≡ unasked_in found.now }
{
    found.iter().position(|number| *number == NOT_ASKED)
}

// The first entry of the first object that has one that was not asked for.
#[tactic(auto, using(crate::proofs::SearchOrder::unasked_end, crate::proofs::SearchOrder::unasked_hit, crate::proofs::SearchOrder::unasked_more))]
fn first_unasked(dependencies: &[Dependencies<'_>]) -> Option<(usize, usize)>
    ensures { result ≡ first_unasked 0 dependencies.now }
{
    for number in 0..dependencies.len() {
        if let Some(entry) = unasked_in(dependencies[number].found) {
            return Some((number, entry));
        }
    }
    None
}

// What an entry of an object found, if there is one.
#[tactic(auto, using(crate::proofs::SearchOrder::found_there))]
fn found_by(dependencies: &[Dependencies<'_>], object: u32, entry: u32) -> Option<u32>
    ensures { IfSome result (λ number. HasFound number dependencies.now object entry) }
{
    let (object, entry) = (object as usize, entry as usize);
    if object >= dependencies.len() {
        return None;
    }
    let one = dependencies[object];
    if entry >= one.found.len() {
        return None;
    }
    Some(one.found[entry])
}

// Whether an entry of an object is an auxiliary or a filter entry.
fn is_before(dependencies: &[Dependencies<'_>], object: u32, entry: u32) -> bool {
    let (object, entry) = (object as usize, entry as usize);
    if object < dependencies.len() && entry < dependencies[object].kinds.len() {
        let kind = dependencies[object].kinds[entry];
        return kind == AUXILIARY || kind == FILTER;
    }
    false
}

// How many entries an object has.
fn entry_count(dependencies: &[Dependencies<'_>], object: usize) -> Result<u32, SearchError> {
    if object >= dependencies.len() {
        return Err(SearchError::NoObject);
    }
    let count = dependencies[object].found.len();
    if count >= NOT_ASKED as usize {
        return Err(SearchError::FewWords);
    }
    Ok(count as u32)
}

// Tells an order what the entry found that it asks for: nothing, an object that is there, or the next one.
fn tell(
    order: &mut Order<'_>,
    dependencies: &[Dependencies<'_>],
    number: u32,
    is_before: bool,
) -> Result<(), SearchError>
    ensures { is_before ≡ false → IsPlainOrder order.old → IsPlainOrder order.new }
{
    if number == NO_OBJECT {
        order.missing();
        return Ok(());
    }
    if (number as usize) < order.count() {
        if is_before {
            return order.found_before(number);
        }
        return order.found(number);
    }
    if number as usize != order.count() {
        return Err(SearchError::NoObject);
    }
    let entries = entry_count(dependencies, number as usize)?;
    let added = if is_before {
        order.add_before(entries)
    } else {
        order.add(entries)
    };
    match added {
        Ok(_) => Ok(()),
        Err(error) => Err(error),
    }
}

// Tells an order what the entries of objects found, up to the first that was not asked for.
fn go_through(
    order: &mut Order<'_>,
    dependencies: &[Dependencies<'_>],
    needed: bool,
    limit: usize,
) -> Result<Option<(u32, u32)>, SearchError>
    ensures unasked { IfOk result (λ asked. IfSome asked (λ own. IsUnasked dependencies.now own.0 own.1)) }
    ensures plain { needed ≡ true → IsPlainOrder order.old → IsPlainOrder order.new }
{
    for turn in 0..limit {
        let Some((object, entry)) = order.next() else {
            return Ok(None);
        };
        let Some(number) = found_by(dependencies, object, entry) else {
            return Err(SearchError::NoObject);
        };
        if number == NOT_ASKED {
            return Ok(Some((object, entry)));
        }
        let before = !needed && is_before(dependencies, object, entry);
        tell(order, dependencies, number, before)?;
    }
    Err(SearchError::FewWords)
}

// The entry that is to be asked for next, by an order.
fn next_in_order(
    dependencies: &[Dependencies<'_>],
    words: &mut [u32],
    edges: &mut [u32],
) -> Result<Option<(u32, u32)>, SearchError>
    ensures { IfOk result (λ asked. IfSome asked (λ own. IsUnasked dependencies.now own.0 own.1)) }
{
    let limit = edges.len().saturating_add(1);
    let mut order = Order::new(words, edges, entry_count(dependencies, 0)?)?;
    go_through(&mut order, dependencies, false, limit)
}

// The entry that is to be asked for next, if there is one.
fn next_answer(found: Option<(usize, usize)>) -> Result<ObjectEntry, AnyError>
    ensures { result ≡ next_answer found }
{
    match found {
        Some((object, entry)) => Ok(ObjectEntry {
            object: object as u64,
            entry: entry as u64,
        }),
        None => Err(AnyError::NoRecord),
    }
}

// The entry that is to be asked for next.
fn next_entry(
    dependencies: &[Dependencies<'_>],
    words: &mut [u32],
    edges: &mut [u32],
) -> Result<ObjectEntry, AnyError>
    ensures plain { are_needed dependencies.now ≡ true
        → result ≡ next_answer (first_unasked 0 dependencies.now) }
    ensures unasked { IfOk result (λ own. IsUnasked dependencies.now own.object own.entry) }
{
    if are_needed(dependencies) {
        return next_answer(first_unasked(dependencies));
    }
    match next_in_order(dependencies, words, edges)? {
        Some((object, entry)) => Ok(ObjectEntry {
            object: u64::from(object),
            entry: u64::from(entry),
        }),
        None => Err(AnyError::NoRecord),
    }
}

/// The entry whose name is to be looked for next, by what the entries of the objects found so far: the
/// first of the first object that was not asked for. Objects have numbers in the order in which they are
/// loaded, from 0, the program; a new one has the next number, and is put at the end of `objects`. With
/// auxiliary or filter entries the order is that of `elf_search::order::Order`, which needs 4 `words` for
/// each object and an edge for each entry; what they hold before and after has no meaning.
///
/// Each call goes through all entries. Errors: `NoRecord` if all were asked for; with auxiliary or filter
/// entries also `NoObject` if there is no object, or an entry found one that was not there; `FewWords` if
/// there are too few words.
#[unsafe(no_mangle)]
pub extern "C" fn xmas_elf_next_entry(
    dependencies: &[Dependencies<'_>],
    words: &mut [u32],
    edges: &mut [u32],
    out: &mut ObjectEntry,
) -> u32
    ensures plain { are_needed dependencies.now ≡ true
        → GivesHere (next_answer (first_unasked 0 dependencies.now)) out.old result out.new }
    ensures unasked { result ≡ 0 → IsUnasked dependencies.now out.new.object out.new.entry }
{
    give(next_entry(dependencies, words, edges), out)
}

// Whether what the entries of an object found is in an order.
#[tactic(auto, using(crate::proofs::SearchOrder::same_lists))]
fn is_listed(order: &Order<'_>, number: usize, one: &Dependencies<'_>) -> bool
    ensures { result ≡ true → edges_of order.now number ≡ one.now.found.now }
{
    if number >= u32::MAX as usize {
        return false;
    }
    order.edges(number as u32) == one.found
}

// Whether what the entries of the objects found is in an order.
#[tactic(auto, using(crate::proofs::SearchOrder::listed_none))]
fn are_listed(order: &Order<'_>, dependencies: &[Dependencies<'_>]) -> bool
    ensures { result ≡ true → AreListed (edges_of order.now) dependencies.now (length dependencies.now) }
{
    for number in 0..dependencies.len() {
        if !is_listed(order, number, &dependencies[number]) {
            return false;
        }
    }
    true
}

// Writes the numbers of the objects of an order, from its first on.
#[tactic(auto, using(crate::proofs::SearchOrder::written_more, crate::proofs::SearchOrder::next_is, crate::proofs::SearchOrder::none_is))]
fn write_list(order: &Order<'_>, list: &mut [u32])
    ensures { order.now.plain ≡ true → (k : ℕ) → k < order.now.count → k < length list.old
        → slice_get list.new k ≡ Some k }
{
    let mut next = Some(order.first());
    for place in 0..list.len() {
        let Some(number) = next else {
            return;
        };
        list[place] = number;
        next = order.following(number);
    }
}

// Whether all entries were asked for, and the objects and what their entries found are those of an order.
fn is_whole(order: &Order<'_>, dependencies: &[Dependencies<'_>], left: Option<(u32, u32)>) -> bool
    ensures { result ≡ true → (order.now.count ≡ length dependencies.now)
        × AreListed (edges_of order.now) dependencies.now (length dependencies.now) }
{
    if left.is_some() || order.count() != dependencies.len() {
        return false;
    }
    are_listed(order, dependencies)
}

// Writes the order of the objects and the order of their starts, by an order.
fn write_both(
    order: &Order<'_>,
    dependencies: &[Dependencies<'_>],
    list: &mut [u32],
    starts: &mut [u32],
) -> Result<u64, SearchError>
    requires count { order.now.count ≡ length dependencies.now }
    requires listed { AreListed (edges_of order.now) dependencies.now (length dependencies.now) }
    requires plain { are_needed dependencies.now ≡ true → IsPlainOrder order.now }
    requires room { length dependencies.now ≤ length list.old }
    ensures { IfOk result (λ number. IsStartOrder dependencies.now list.new (take number starts.new)) }
{
    write_list(order, list);
    match start_order(order, starts) {
        Ok(number) => Ok(number as u64),
        Err(error) => Err(error),
    }
}

// Writes the order of the objects and the order of their starts.
fn write_order(
    dependencies: &[Dependencies<'_>],
    words: &mut [u32],
    edges: &mut [u32],
    list: &mut [u32],
    starts: &mut [u32],
) -> Result<u64, AnyError>
    ensures { IfOk result (λ number. IsStartOrder dependencies.now list.new (take number starts.new)) }
{
    if list.len() < dependencies.len() {
        return Err(AnyError::Search(SearchError::FewWords));
    }
    let (needed, limit) = (are_needed(dependencies), edges.len().saturating_add(1));
    let mut order = Order::new(words, edges, entry_count(dependencies, 0)?)?;
    let left = go_through(&mut order, dependencies, needed, limit)?;
    if !is_whole(&order, dependencies, left) {
        return Err(AnyError::Search(SearchError::NoObject));
    }
    match write_both(&order, dependencies, list, starts) {
        Ok(number) => Ok(number),
        Err(error) => Err(AnyError::Search(error)),
    }
}

/// The order in which libraries start, by what the entries of all objects found: the numbers of the
/// objects other than the program are written to `starts`, and `count` is set to how many they are; the
/// rest of `starts` has no meaning. It is that of `elf_search::start::start_order`, in which an object with
/// the flag DF_1_INITFIRST is not yet the first. `list` gets the numbers of all objects in the order in which
/// symbols are looked up, which is that of their numbers without auxiliary and filter entries.
///
/// It needs 4 `words` and 3 `starts` for each object, an edge for each entry, and a word of `list` for
/// each object. Errors: `FewWords` if there are fewer; `NoObject` if there is no object, an entry was not
/// asked for, or the numbers are not those of objects in the order in which they are loaded. `count` is then
/// unchanged, and what the words hold has no meaning.
#[unsafe(no_mangle)]
pub extern "C" fn xmas_elf_start_order(
    dependencies: &[Dependencies<'_>],
    words: &mut [u32],
    edges: &mut [u32],
    list: &mut [u32],
    starts: &mut [u32],
    count: &mut u64,
) -> u32
    ensures exact { (answer : Result ℕ AnyError) × GivesHere answer count.old result count.new
        × IfOk answer (λ number. IsStartOrder dependencies.now list.new (take number starts.new)) }
{
    give(write_order(dependencies, words, edges, list, starts), count)
}
