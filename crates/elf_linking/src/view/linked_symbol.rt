//! The types of the symbols of a dynamic segment, by class (gABI, "Symbol Table" and "Dynamic
//! Section", DT_SYMTAB).

ghost use Rattle.std.specs.Prelude.{◌≤◌, ℕ};
ghost use Rattle.std.proofs.Common.{lit≤};

use elf_base::bytes::Record;
use xmas_elf::symbol_table::{DynEntry32, DynEntry64, Entry};

/// A symbol of the dynamic segment, of one class.
///
/// The law of an implementation says that a symbol has at most 24 bytes.
pub trait LinkedSymbol: Entry + Record {
    ghost CLASS: { ℕ };

    /// The number of the class of the files that have such symbols: 1 or 2 (gABI, EI_CLASS).
    const CLASS: u8;

    ghost size_fits: { Self.SIZE ≤ 24 };
}

impl LinkedSymbol for DynEntry32 {
    ghost CLASS = { 1 };

    const CLASS: u8 = 1;

    ghost size_fits = { lit≤ tt };
}

impl LinkedSymbol for DynEntry64 {
    ghost CLASS = { 2 };

    const CLASS: u8 = 2;

    ghost size_fits = { lit≤ tt };
}
