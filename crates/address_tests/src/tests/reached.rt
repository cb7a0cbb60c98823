//! The symbols that a GNU hash table reaches.

use crate::tests::want::want_at;
use elf_addresses::dladdr::fill_reached;
use elf_base::header::Class;
use elf_linking::gnu_hash::GnuHashTable;
use std::alloc::{AllocError, Global};
use std::test::Fail;
use worked_files::rows;
use xmas_elf::bytes::Order;

// Buckets, the index of the first symbol, the chain words from there on, and for each symbol the
// number of the first bucket that reaches it, counted from 1.
const ROWS: &[(&[u32], u32, &[u32], &[u32])] = rows! {
    // Two runs.
    &[1, 3], 1, &[2, 5, 4, 7], &[0, 1, 1, 2, 2];
    // Runs in another order, and one bucket without a run.
    &[3, 0, 1], 1, &[2, 5, 4, 7], &[0, 3, 3, 1, 1];
    // Runs that end together: the first bucket counts from where its run begins.
    &[2, 1], 1, &[2, 4, 7], &[0, 2, 1, 1]; &[1, 2], 1, &[2, 4, 7], &[0, 1, 1, 1];
    // Two buckets with the same run.
    &[1, 1], 1, &[2, 7], &[0, 1, 1];
    // Symbols that no bucket reaches: before the first, and after the end of a run.
    &[2], 1, &[2, 5, 6, 7], &[0, 0, 1, 0, 0];
    // A bucket with a symbol before the first of the table, or past all.
    &[1], 2, &[2, 7], &[0, 0, 0, 0]; &[9, 1], 1, &[3], &[0, 2];
    // A run that goes on past the chain words reaches the next symbol, and not the one after it.
    &[1], 1, &[2], &[0, 1, 1, 0]; &[1], 1, &[], &[0, 1, 0];
    // No buckets, no symbols, and symbol 0.
    &[], 1, &[3], &[0, 0]; &[1], 1, &[3], &[]; &[0], 0, &[2, 3], &[0, 0];
};

// A table of class 64 with one Bloom word.
fn table_bytes(
    alloc: Global,
    buckets: &[u32],
    first: u32,
    chains: &[u32],
) -> Result<Vec<u8>, AllocError> {
    let mut bytes = Vec::new(alloc);
    for word in [
        buckets.len().min(u32::MAX as usize) as u32,
        first,
        1,
        6,
        0,
        0,
    ] {
        bytes.extend_from_slice(&word.to_le_bytes())?;
    }
    for words in [buckets, chains] {
        for word in words {
            bytes.extend_from_slice(&word.to_le_bytes())?;
        }
    }
    Ok(bytes)
}

#[test]
fn each_symbol_has_its_first_bucket(rt: HostRuntime) -> Result<(), Fail> {
    for &(buckets, first, chains, wanted) in ROWS {
        let bytes = table_bytes(rt.alloc(), buckets, first, chains)?;
        let table = GnuHashTable::read(&bytes, Class::SixtyFour, Order::Little)?;
        let mut words = vec![in rt.alloc(); 5u32; wanted.len()]?;
        fill_reached(&table, &mut words);
        want_at(&rt, (buckets, chains), words.as_slice(), wanted);
    }
    Ok(())
}
