//! A program with its libraries.

use crate::contents::bytes_in;
use crate::error::FindError;
use crate::objects::{Found, Object, view_of};
use crate::store::StoredFile;
use elf_search::library::{DF_1_INITFIRST, has_flag_1};
use elf_search::order::Order;
use elf_search::start::start_order;
use std::alloc::{AllocError, Global};

/// A program with its libraries.
#[derive(Drop)]
pub struct Tree {
    /// The objects by their numbers: in the order in which they are loaded, the program first.
    pub objects: Vec<Object>,
    /// Their numbers in the order in which names are looked up.
    pub list: Vec<u32>,
    /// The numbers of the libraries in the order in which they start.
    pub starts: Vec<u32>,
    /// The interpreter, if no entry finds it.
    pub interpreter: Option<Object>,
    /// The names that are missing, each with the number of objects that were loaded before it was asked
    /// for.
    pub missing: Vec<(usize, Vec<u8>)>,
}

impl Tree {
    /// The object with a number.
    pub fn object(&self, number: u32) -> Option<&Object> {
        self.objects.get(number as usize)
    }

    /// The object that an entry of an object found, with its number; `None` if it is missing.
    pub fn found_by(&self, entry: (u32, u32)) -> Option<(u32, &Object)> {
        let number = *self.object(entry.0)?.edges.get(entry.1 as usize)?;
        Some((number, self.object(number)?))
    }

    /// The place of an object in the list.
    pub fn place_of(&self, number: u32) -> usize {
        self.list
            .iter()
            .position(|other| *other == number)
            .unwrap_or(0)
    }

    // The last place in the list that has one of the first `count` objects that were loaded.
    pub(crate) fn last_of(&self, count: usize) -> Option<usize> {
        self.list
            .iter()
            .rposition(|number| (*number as usize) < count)
    }

    /// How many entries and objects there are.
    pub fn step_count(&self) -> usize {
        let mut count: usize = 0;
        for object in &self.objects {
            count = count.saturating_add(object.entries.len()).saturating_add(1);
        }
        count
    }
}

// The tree of objects in an order.
pub(crate) fn tree_of(
    alloc: Global,
    objects: Vec<Object>,
    interpreter: Option<Object>,
    missing: Vec<(usize, Vec<u8>)>,
    files: &[StoredFile],
    order: &Order<'_>,
) -> Result<Tree, FindError> {
    let list = list_of(alloc, order)?;
    let starts = starts_of(alloc, &objects, files, order)?;
    let mut objects = objects;
    set_edges(alloc, &mut objects, order)?;
    Ok(Tree {
        objects,
        list,
        starts,
        interpreter,
        missing,
    })
}

// Notes at each object what its entries found.
fn set_edges(
    alloc: Global,
    objects: &mut Vec<Object>,
    order: &Order<'_>,
) -> Result<(), AllocError> {
    let mut number = 0;
    for object in objects.iter_mut() {
        object.edges = Vec::from_slice(alloc, order.edges(number))?;
        number = number.saturating_add(1);
    }
    Ok(())
}

// The numbers of the objects in the order of the list.
fn list_of(alloc: Global, order: &Order<'_>) -> Result<Vec<u32>, AllocError> {
    let mut list = Vec::new(alloc);
    let mut next = Some(order.first());
    for _ in 0..order.count() {
        let Some(number) = next else {
            return Ok(list);
        };
        list.push(number)?;
        next = order.following(number);
    }
    Ok(list)
}

// The numbers of the libraries in the order in which they start.
fn starts_of(
    alloc: Global,
    objects: &[Object],
    files: &[StoredFile],
    order: &Order<'_>,
) -> Result<Vec<u32>, AllocError> {
    let mut words = Vec::from_elem(alloc, 0u32, order.count().saturating_mul(3))?;
    let number = start_order(order, &mut words).unwrap_or(0);
    let mut starts = Vec::new(alloc);
    let first = first_of_all(objects, files);
    if let Some(first) = first {
        starts.push(first)?;
    }
    for start in words.get(..number).unwrap_or(&[]) {
        if Some(*start) != first {
            starts.push(*start)?;
        }
    }
    Ok(starts)
}

// The number of the last library that asks to start before all others (DF_1_INITFIRST).
fn first_of_all(objects: &[Object], files: &[StoredFile]) -> Option<u32> {
    let place = objects.iter().rposition(|object| {
        matches!(object.how, Found::By(_)) && starts_first(bytes_in(files, object.file))
    })?;
    u32::try_from(place).ok()
}

// Whether a file has the flag DF_1_INITFIRST.
fn starts_first(bytes: &[u8]) -> bool {
    match view_of(bytes) {
        Ok(Some(view)) => has_flag_1(&view, DF_1_INITFIRST),
        _ => false,
    }
}
