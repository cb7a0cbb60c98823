//! The printed form of symbols: one line per field, the same for all types.

ghost use Rattle.std.specs.Prelude.{◌≡◌, Some};
ghost use Rattle.xmas_elf.specs.Symbol.{dyn_entry_32_fields, dyn_entry_64_fields};
ghost use Rattle.xmas_elf.specs.Symbol.{entry_32_fields, entry_64_fields};
ghost use Rattle.xmas_elf.specs.SymbolText.{symbol_fields_text, symbol_text};

use crate::symbol_table::Entry;
use crate::symbol_table::entries::{DynEntry32, DynEntry64, Entry32, Entry64};
use elf_base::print::{Field, PrintedResult};
use std::fmt;
use std::fmt::Display;

// The fields of any symbol, one per line.
#[derive(Clone, Copy)]
struct SymbolLines<'e, E>(&'e E);

impl<E: Entry> Display for SymbolLines<'_, E> {
    ghost output = { λ lines. Some (symbol_fields_text (E.fields lines.0.now)) };

    fn fmt<W: fmt::Write>(&self, f: &mut fmt::Formatter<W>) -> fmt::Result {
        write!(
            f,
            "{}{}{}{}{}{}{}",
            Field("name", self.0.name()),
            Field("binding", PrintedResult(self.0.get_binding())),
            Field("type", PrintedResult(self.0.get_type())),
            Field("other", self.0.get_other()),
            Field("shndx", self.0.shndx()),
            Field("value", self.0.value()),
            Field("size", self.0.size())
        )
    }
}

impl Display for Entry32 {
    ghost output = { λ entry. Some (symbol_text (entry_32_fields entry)) };

    fn fmt<W: fmt::Write>(&self, f: &mut fmt::Formatter<W>) -> fmt::Result {
        write!(f, "Symbol table entry:\n{}", SymbolLines(self))
    }
}

impl Display for Entry64 {
    ghost output = { λ entry. Some (symbol_text (entry_64_fields entry)) };

    fn fmt<W: fmt::Write>(&self, f: &mut fmt::Formatter<W>) -> fmt::Result {
        write!(f, "Symbol table entry:\n{}", SymbolLines(self))
    }
}

impl Display for DynEntry32 {
    ghost output = { λ entry. Some (symbol_text (dyn_entry_32_fields entry)) };

    fn fmt<W: fmt::Write>(&self, f: &mut fmt::Formatter<W>) -> fmt::Result {
        write!(f, "Symbol table entry:\n{}", SymbolLines(self))
    }
}

impl Display for DynEntry64 {
    ghost output = { λ entry. Some (symbol_text (dyn_entry_64_fields entry)) };

    fn fmt<W: fmt::Write>(&self, f: &mut fmt::Formatter<W>) -> fmt::Result {
        write!(f, "Symbol table entry:\n{}", SymbolLines(self))
    }
}
