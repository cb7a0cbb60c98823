//! Many records in one call (this project's own).

ghost use Rattle.std.specs.Prelude.{◌≡◌, ◌<◌, ℕ, List, Ok, Result, drop, length};
ghost use Rattle.std.specs.Iterator.{YieldsFirst};
ghost use Rattle.elf_base.specs.Table.{table_items};
ghost use Rattle.elf_c.specs.Batch.{Fills};
ghost use Rattle.elf_c.specs.Records.{record_in};

use crate::status::AnyError;
use xmas_elf::bytes::{Record, Table};

/// Items in order, with a record to store for each.
pub(crate) trait Records: Drop {
    /// An item of the file.
    type Item;

    /// The record to store for an item.
    type Record: Copy;

    /// The items in order.
    ghost items: { Self → List Self.Item };

    /// The record of an item.
    ghost record_of: { Self → Self.Item → Self.Record };

    /// The number of items.
    fn count(&self) -> usize
        ensures { result ≡ length (items self.now) };

    /// The record of the item at `index`, which is below the number of items.
    fn record(&self, index: usize) -> Self::Record
        requires { index < length (items self.now) }
        ensures { record_in (record_of self.now) (items self.now) index ≡ Ok result };
}

/// A record of a table, which is stored as numbers.
pub(crate) trait Numbers: Record {
    /// The numbers.
    type Stored: Copy;

    /// The numbers of a record.
    ghost numbers_of: { Self → Self.Stored };

    fn numbers(&self) -> Self::Stored
        ensures { result ≡ numbers_of self.now };
}

/// The records of a table, to be stored as numbers.
#[derive(Drop)]
pub(crate) struct Rows<'a, T: Record> {
    pub(crate) table: Table<'a, T>,
}

impl<T: Numbers> Records for Rows<'_, T> {
    type Item = T;

    type Record = T::Stored;

    ghost items = { λ rows. table_items rows.table };

    ghost record_of = { λ _ item. T.numbers_of item };

    #[inline(always)]
    fn count(&self) -> usize {
        self.table.len()
    }

    #[inline(always)]
    fn record(&self, index: usize) -> T::Stored {
        match self.table.get(index) {
            Some(item) => item.numbers(),
            None => unreachable!(),
        }
    }
}

// Stores the records of the items from index `first` on in `out`, and returns their number. It owns
// the items, so that nothing is read from them again after a record is written.
pub(crate) fn fill<R: Records>(
    records: R,
    first: u64,
    out: &mut [R::Record],
) -> Result<u64, AnyError>
    ensures { Fills (record_in (R.record_of records) (R.items records))
        first out.old result out.new }
{
    let (size, first) = (records.count(), first as usize);
    if first >= size {
        return Err(AnyError::NoRecord);
    }
    let count = (size - first).min(out.len());
    for place in 0..count {
        out[place] = records.record(first + place);
    }
    Ok(count as u64)
}

/// Records in order, which can be read in that order only.
pub(crate) trait Sequence {
    /// A record.
    type Record: Copy;

    /// The remaining records.
    ghost left: { Self → List Self.Record };

    /// The first remaining record.
    fn next(&mut self) -> Option<Self::Record>
        ensures { YieldsFirst left self.old result self.new };
}

// Leaves out the first `count` records.
#[tactic(auto, using(crate::proofs::InOrder::skipped_all, crate::proofs::InOrder::skipped_more))]
fn skip<S: Sequence>(records: &mut S, count: u64)
    ensures { S.left records.new ≡ drop count (S.left records.old) }
{
    for _place in 0..count {
        if records.next().is_none() {
            return;
        }
    }
}

// Stores the records from index `first` on in `out`, and returns their number.
#[tactic(auto, using(crate::proofs::InOrder::stored_none, crate::proofs::InOrder::stored_more, crate::proofs::InOrder::stored_full, crate::proofs::InOrder::stored_all, crate::proofs::InOrder::none_stored, crate::proofs::InOrder::yielded))]
pub(crate) fn fill_in_order<S: Sequence + Drop>(
    mut records: S,
    first: u64,
    out: &mut [S::Record],
) -> Result<u64, AnyError>
    ensures { Fills (record_in (λ one. one) (S.left records))
        first out.old result out.new }
{
    skip(&mut records, first);
    let mut next = records.next();
    if next.is_none() {
        return Err(AnyError::NoRecord);
    }
    for place in 0..out.len() {
        let Some(record) = next else {
            return Ok(place as u64);
        };
        out[place] = record;
        next = records.next();
    }
    Ok(out.len() as u64)
}
