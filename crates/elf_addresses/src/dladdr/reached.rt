//! The symbols that a GNU hash table reaches (the convention of GNU binutils and glibc).

ghost use Rattle.std.specs.Prelude.{◌≡◌, ◌<◌, ◌↔◌, length, IsTrue};
ghost use Rattle.elf_linking.specs.GnuHash.{gnu_bucket_count};
ghost use Rattle.elf_addresses.specs.Reached.{AreReached, AreStarts, GoesOn, earlier, start_word};
ghost use Rattle.elf_addresses.specs.Reached.{with_start};

use elf_linking::gnu_hash::GnuHashTable;

/// Writes for each symbol the number of the first bucket of a GNU hash table that reaches it,
/// counted from 1, or 0 if none does. There is a word for each symbol.
///
/// The run of a bucket begins at the symbol that the word of the bucket gives, and ends at the
/// first symbol from there on whose chain word is odd, or is not there. A bucket whose word is
/// before the first symbol of the table has none. One pass over the buckets, and one over the symbols.
pub fn fill_reached(table: &GnuHashTable<'_>, words: &mut [u32])
    ensures length { length words.new ≡ length words.old }
    ensures reached { AreReached table.now words.new }
{
    fill_starts(table, words);
    let mut first = 0;
    for index in 0..words.len() {
        first = earlier(first, words[index]);
        words[index] = first;
        if !goes_on(table, index) {
            first = 0;
        }
    }
}

// Writes for each symbol the number of the first bucket whose run begins there.
fn fill_starts(table: &GnuHashTable<'_>, words: &mut [u32])
    ensures length { length words.new ≡ length words.old }
    ensures starts { AreStarts table.now (gnu_bucket_count table.now) words.new }
{
    words.fill(0);
    for bucket in 0..table.bucket_count() {
        let start = start_of(table, bucket);
        put_start(words, start as usize, bucket + 1);
    }
}

// The symbol at which the run of a bucket begins, or 0 if it has none.
#[inline(always)]
fn start_of(table: &GnuHashTable<'_>, bucket: u32) -> u32
    requires { bucket < gnu_bucket_count table.now }
    ensures { result ≡ start_word table.now bucket }
{
    match table.get_bucket(bucket) {
        Ok(word) => if word < table.first_symbol() { 0 } else { word },
        Err(_) => unreachable!(),
    }
}

// Writes the number of a bucket at a symbol that has none. There is no symbol 0.
#[inline(always)]
fn put_start(words: &mut [u32], start: usize, number: u32)
    ensures { words.new ≡ with_start words.old start number }
{
    if start == 0 || start >= words.len() {
        return;
    }
    if words[start] == 0 {
        words[start] = number;
    }
}

// The smaller of two numbers that are not 0, or the one that is not 0.
#[inline(always)]
fn earlier(one: u32, other: u32) -> u32
    ensures { result ≡ earlier one other }
{
    if one == 0 {
        return other;
    }
    if other == 0 { one } else { one.min(other) }
}

// Whether a run goes on after a symbol.
#[inline(always)]
fn goes_on(table: &GnuHashTable<'_>, index: usize) -> bool
    ensures { IsTrue result ↔ GoesOn table.now index }
{
    if index >= u32::MAX as usize {
        return false;
    }
    match table.get_chain(index as u32) {
        Ok(word) => word % 2 == 0,
        Err(_) => false,
    }
}
