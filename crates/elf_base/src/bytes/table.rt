//! Tables of records.

ghost use Rattle.std.specs.Prelude.{◌≡◌, ◌↔◌, ◌≢◌, ◌<◌, ◌≤◌, ◌*◌, ◌%◌, ◌^◌, ◌∷◌, [], ℕ, length};
ghost use Rattle.std.specs.Prelude.{get_or, slice_get, MatchOption, MatchResult, IsTrue, ⊤};
ghost use Rattle.std.specs.Iterator.{YieldsFirst, item_count};

use crate::ElfError;
use crate::bytes::{Order, Record};
use std::alloc::AllocError;
use std::marker::PhantomData;

/// Records of one type, one after the other in a slice, such as a symbol table.
///
/// The table borrows the bytes, and each call decodes the record that it returns.
#[derive(Debug)]
pub struct Table<'a, T: Record> {
    bytes: &'a [u8],
    order: Order,
    kind: PhantomData<T>,
    ghost whole: { length bytes.now % T.SIZE ≡ 0 },
}

impl<T: Record> Clone for Table<'_, T> {
    ghost is_clone = { λ x y. y ≡ x };

    ghost is_infallible = { λ _. ⊤ };

    fn clone(&self) -> Result<Self, AllocError> {
        Ok(*self)
    }
}

impl<T: Record> Copy for Table<'_, T> {}

impl<'a, T: Record> Table<'a, T> {
    ghost use Rattle.elf_base.specs.Table.{record_at, table_bytes, table_data};
    ghost use Rattle.elf_base.specs.Table.{table_items, table_order, table_rest};

    /// The table of the records in `bytes`; `NotMultiple` if the length of `bytes` is not a
    /// multiple of `SIZE`.
    #[inline(always)]
    pub fn new(bytes: &'a [u8], order: Order) -> Result<Self, ElfError>
        ensures { MatchResult result
            (λ t. (length bytes.now % T.SIZE ≡ 0) × (table_data t ≡ bytes.now)
            × (table_order t ≡ order) × (table_bytes t ≡ bytes.entry))
            (λ e. (length bytes.now % T.SIZE ≢ 0) × (e ≡ ElfError.NotMultiple)) }
    {
        if bytes.len() % T::SIZE != 0 {
            return Err(ElfError::NotMultiple);
        }
        Ok(Self {
            bytes,
            order,
            kind: PhantomData,
        })
    }

    /// The number of records.
    #[inline(always)]
    pub fn len(&self) -> usize
        ensures items { result ≡ length (table_items self.now) }
        ensures whole { result * T.SIZE ≡ length (table_data self.now) }
    {
        self.bytes.len() / T::SIZE
    }

    /// Whether the table has no records.
    pub fn is_empty(&self) -> bool
        ensures { IsTrue result ↔ (length (table_items self.now) ≡ 0) }
    {
        self.len() == 0
    }

    /// The bytes of the table: the slice that was given to `new`.
    pub fn bytes(&self) -> &'a [u8]
        ensures bytes { result.now ≡ table_data self.now }
        ensures place { result ≡ table_bytes self.now }
    {
        self.bytes
    }

    /// The record at `index`, or `None` if `index` is `len` or more.
    #[inline(always)]
    pub fn get(&self, index: usize) -> Option<T>
        ensures item { result ≡ slice_get (table_items self.now) index }
        ensures value { MatchOption result
            (length (table_data self.now) ≤ index * T.SIZE)
            (λ r. (index * T.SIZE < length (table_data self.now))
            × (r ≡ record_at T.SIZE (T.value (table_order self.now)) (table_data self.now) index)) }
    {
        if index >= self.len() {
            return None;
        }
        let start = index * T::SIZE;
        let end = start + T::SIZE;
        Some(T::decode(&self.bytes[start..end], self.order))
    }

    // The first record, and the table of the others.
    #[inline(always)]
    fn split_first(&self) -> Option<(T, Table<'a, T>)>
        ensures { MatchOption result
            (table_items self.now ≡ [])
            (λ p. (table_order p.1 ≡ table_order self.now)
            × (table_items self.now ≡ p.0 ∷ table_items p.1)) }
    {
        let first = self.get(0)?;
        let rest = Self {
            bytes: &self.bytes[T::SIZE..],
            order: self.order,
            kind: PhantomData,
        };
        Some((first, rest))
    }

    /// An iterator over the records, in order.
    #[inline(always)]
    pub fn iter(&self) -> TableIter<'a, T>
        ensures starts { table_rest result ≡ self.now }
        ensures fits { length (table_items (table_rest result)) < 2 ^ 64 }
        ensures counted { length (table_items self.now) * T.SIZE ≡ length (table_data self.now) }
        ensures each { (d : T) (i : ℕ) → i < length (table_items self.now)
            → get_or (table_items self.now) i d
            ≡ record_at T.SIZE (T.value (table_order self.now)) (table_data self.now) i }
    {
        let _count = self.len();
        TableIter { rest: *self }
    }
}

/// An iterator over the records of a table, in order.
#[derive(Clone, Debug, Drop)]
pub struct TableIter<'a, T: Record> {
    rest: Table<'a, T>,
}

impl<T: Record> Iterator for TableIter<'_, T> {
    ghost use Rattle.elf_base.specs.Table.{table_items, table_rest};

    type Item = T;

    ghost next_gives = { YieldsFirst (λ s. table_items (table_rest s)) };

    ghost remaining = { item_count (λ s. table_items (table_rest s)) };

    #[inline(always)]
    fn next(&mut self) -> Option<T> {
        let (first, rest) = self.rest.split_first()?;
        self.rest = rest;
        Some(first)
    }
}

impl<'a, T: Record> IntoIterator for Table<'a, T> {
    ghost use Rattle.elf_base.specs.Table.{table_items, table_rest};

    type Item = T;

    type IntoIter = TableIter<'a, T>;

    ghost into_iter_gives = { λ t it. (table_rest it ≡ t)
        × (length (table_items (table_rest it)) < 2 ^ 64) };

    #[inline(always)]
    fn into_iter(self) -> TableIter<'a, T> {
        self.iter()
    }
}
