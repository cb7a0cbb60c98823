//! The order in which objects start (glibc, `_dl_sort_maps`): depth first, over what their entries
//! found.

ghost use Rattle.std.specs.Prelude.{◌≡◌, ◌↔◌, ◌==◌, ◌&&◌, ◌<◌, ◌≤◌, ◌+◌, ◌-◌, ◌*◌, ℕ, List, [], ◌∷◌, IfOk, IsOk, length, nat_lt, slice_index, take, true};
ghost use Rattle.elf_search.specs.Order.{edges_of};
ghost use Rattle.elf_search.specs.Starts.{Continues, IsBetween, NeedsFirst, Starts};

use crate::SearchError;
use crate::order::{NO_OBJECT, Order};

/// Writes the objects of a list, other than the program, in the order in which they start: the number
/// of each to the first of the words, which are 3 for each object of the list. The value is how many
/// they are.
///
/// From the last object of the list to its first, each that is not yet visited is visited: it is marked,
/// then the ends of its edges are visited in order, and then it is written. So among the words what an object
/// needs, by an auxiliary or a filter entry too, is before it, unless that needs the object in turn other
/// than through the program. The program starts after all of them. The caller has to start an object with
/// the flag 0x20 (DF_1_INITFIRST) before all of them: of several the last one that was loaded. The time is
/// linear in the numbers of objects and edges.
///
/// Error: `FewWords` if there are fewer words.
pub fn start_order(order: &Order<'_>, words: &mut [u32]) -> Result<usize, SearchError>
    ensures room { IsOk result ↔ (3 * order.now.count ≤ length words.old) }
    ensures starts { IfOk result (λ number. Starts order.now (take number words.new)) }
    ensures needs { IfOk result (λ number. NeedsFirst order.now (take number words.new)) }
{
    let count = order.count();
    if words.len() < 3 * count {
        return Err(SearchError::FewWords);
    }
    let (written, rest) = words.split_at_mut(count);
    let (parents, cursors) = rest.split_at_mut(count);
    clear(cursors);
    cursors[0] = 0;
    Ok(visit_list(order, written, parents, cursors))
}

// Marks no object.
fn clear(cursors: &mut [u32])
    ensures { (k : ℕ) → k < length cursors.new → slice_index cursors.new k ≡ NO_OBJECT }
{
    for cursor in cursors.iter_mut() {
        *cursor = NO_OBJECT;
    }
}

// Visits all objects of the list but the program, from the last on, and returns how many are written.
fn visit_list(
    order: &Order<'_>,
    written: &mut [u32],
    parents: &mut [u32],
    cursors: &mut [u32],
) -> usize
    requires written { order.now.count ≤ length written.old }
    requires parents { order.now.count ≤ length parents.old }
    requires cursors { order.now.count ≤ length cursors.old }
    requires program { IsBetween order.now.count cursors.old (0 ∷ []) 0 }
    ensures starts { Starts order.now (take result written.new) }
    ensures few { result < order.now.count }
{
    let mut number = 0;
    let mut object = order.last();
    for turn in 0..order.count() {
        if object >= order.count() {
            return number;
        }
        number = visit_if_new(order, object, number, written, parents, cursors);
        object = order.before(object);
    }
    number
}

// Visits an object if it is not yet visited, and returns how many objects are written then.
fn visit_if_new(
    order: &Order<'_>,
    root: usize,
    from: usize,
    written: &mut [u32],
    parents: &mut [u32],
    cursors: &mut [u32],
) -> usize
    requires root { root < order.now.count }
    requires written { order.now.count ≤ length written.old }
    requires parents { order.now.count ≤ length parents.old }
    requires cursors { order.now.count ≤ length cursors.old }
    requires between { (m : List ℕ) × IsBetween order.now.count cursors.old m from }
    ensures { (m0 : List ℕ) → IsBetween order.now.count cursors.old m0 from
        → (m : List ℕ) × IsBetween order.now.count cursors.new m result
        × Continues (edges_of order.now) order.now.count root m0 (take from written.old) m
        (take result written.new) }
{
    if cursors[root] != NO_OBJECT {
        return from;
    }
    visit(order, root, from, written, parents, cursors)
}

// Visits an object that is not yet visited, and returns how many objects are written then. The objects
// that are being visited are those from `top` on over `parents`, as many as `depth` below it; `cursors`
// has the number of the next edge of each object that is visited, and `NO_OBJECT` for the others.
fn visit(
    order: &Order<'_>,
    root: usize,
    from: usize,
    written: &mut [u32],
    parents: &mut [u32],
    cursors: &mut [u32],
) -> usize
    requires root { root < order.now.count }
    requires written { order.now.count ≤ length written.old }
    requires parents { order.now.count ≤ length parents.old }
    requires cursors { order.now.count ≤ length cursors.old }
    requires new { slice_index cursors.old root ≡ NO_OBJECT }
    requires between { (m : List ℕ) × IsBetween order.now.count cursors.old m from }
    ensures { (m0 : List ℕ) → IsBetween order.now.count cursors.old m0 from
        → (m : List ℕ) × IsBetween order.now.count cursors.new m result
        × Continues (edges_of order.now) order.now.count root m0 (take from written.old) m
        (take result written.new) }
{
    let mut number = from;
    let mut top = root;
    let mut depth: usize = 0;
    cursors[root] = 0;
    'visit: loop {
        let cursor = cursors[top];
        let found = order.edges(top as u32);
        if cursor as usize >= found.len() {
            written[number] = top as u32;
            number += 1;
            if depth == 0 {
                return number;
            }
            top = parents[top] as usize;
            depth -= 1;
            continue 'visit;
        }
        let end = found[cursor as usize] as usize;
        cursors[top] = cursor + 1;
        if !is_new(order, cursors, end) {
            continue 'visit;
        }
        parents[end] = top as u32;
        cursors[end] = 0;
        top = end;
        depth += 1;
    }
}

// Whether a number is that of an object that is not yet visited.
fn is_new(order: &Order<'_>, cursors: &[u32], object: usize) -> bool
    requires { order.now.count ≤ length cursors.now }
    ensures value { result ≡ (nat_lt object order.now.count
        && slice_index cursors.now object == NO_OBJECT) }
    ensures inside { result ≡ true → object < order.now.count }
{
    object < order.count() && cursors[object] == NO_OBJECT
}
