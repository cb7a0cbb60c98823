//! How many symbols each section has, and the pieces of a section by its own symbols.

use crate::tests::rows::{symbols, table_bytes};
use crate::tests::symbol_pieces::{CROSSING, NESTED, Run, SYMBOLS, check_runs};
use crate::tests::want::want_at;
use elf_addresses::{SectionCounts, SymbolPieces};
use std::process::Abort;
use std::test::Fail;
use xmas_elf::symbol_table::DynEntry64;

// How many symbols with a size each of the sections 0 to 3 has.
const COUNTS: [u32; 4] = [0, 4, 1, 0];

// The symbols of section 1 with a size, in order: the one that is further in is later.
const IN_ORDER: &[u32] = &[0, 1, 2, 3];

// Lists that are not these: one is too short, two have others, and one is in another order.
const OTHERS: &[&[u32]] = &[&[0, 1, 2], &[0, 1, 2, 4], &[0, 1, 2, 5], &[1, 0, 2, 3]];

// Wants these pieces of a range in section 1.
fn check(
    rt: &impl Abort,
    counts: &SectionCounts<'_, '_, '_, DynEntry64>,
    (begin, end): (u64, u64),
    wanted: &[Run],
) {
    let mut lasting = [0u32; 4];
    let mut numbers = [0u64; 8];
    let pieces = SymbolPieces::in_order(
        counts,
        1,
        begin,
        end,
        IN_ORDER,
        &mut lasting,
        &mut numbers,
    );
    let pieces = pieces.expect(rt, "the words are in order");
    check_runs(rt, begin, pieces, wanted);
}

// Wants no pieces by this list.
fn check_none(
    rt: &impl Abort,
    counts: &SectionCounts<'_, '_, '_, DynEntry64>,
    section: u32,
    list: &[u32],
    lasting: &mut [u32],
    numbers: &mut [u64],
) {
    let pieces = SymbolPieces::in_order(counts, section, 0, 1, list, lasting, numbers);
    let is_some = pieces.is_some();
    want_at(rt, (section, list), is_some, false);
}

#[test]
fn rows(rt: HostRuntime) -> Result<(), Fail> {
    let bytes = table_bytes(rt.alloc(), SYMBOLS)?;
    let symbols = symbols(&rt, &bytes, &[], 62);
    let mut words = [u32::MAX; 4];
    let counts = SectionCounts::new(&symbols, &mut words)?;
    for section in 0..4u32 {
        let wanted = COUNTS.get(section as usize).map(|count| *count as usize);
        want_at(&rt, section, Some(counts.count(section)), wanted);
    }
    want_at(&rt, 4, counts.count(4), 0);
    check(&rt, &counts, (0xff0, 0x1110), NESTED);
    check(&rt, &counts, (0x1208, 0x1228), CROSSING);
    check(&rt, &counts, (0x1100, 0x1000), &[]);
    Ok(())
}

#[test]
fn other_lists(rt: HostRuntime) -> Result<(), Fail> {
    let bytes = table_bytes(rt.alloc(), SYMBOLS)?;
    let symbols = symbols(&rt, &bytes, &[], 62);
    let mut words = [u32::MAX; 4];
    let counts = SectionCounts::new(&symbols, &mut words)?;
    for list in OTHERS {
        let mut lasting = vec![in rt.alloc(); 0u32; list.len()]?;
        let mut numbers = vec![in rt.alloc(); 0u64; list.len().wrapping_mul(2)]?;
        check_none(&rt, &counts, 1, list, &mut lasting, &mut numbers);
    }
    // Too few words, too few numbers, and a section without a count.
    check_none(&rt, &counts, 1, IN_ORDER, &mut [0; 3], &mut [0; 8]);
    check_none(&rt, &counts, 1, IN_ORDER, &mut [0; 4], &mut [0; 7]);
    check_none(&rt, &counts, 4, &[], &mut [], &mut []);
    Ok(())
}
