//! Which symbols serve references of other files than their own (gABI, "Symbol Table").

ghost use Rattle.std.specs.Prelude.{◌≡◌};
ghost use Rattle.elf_linking.specs.Serves.{if_serving, serves_others};

use elf_base::bytes::Record;
use xmas_elf::symbol_table::Entry;

/// Whether a symbol serves references of other files than its own, and is found by `dlsym`: its
/// binding is global, weak or unique (`STB_GNU_UNIQUE`), and its visibility is the default or
/// protected. A local, hidden or internal symbol serves references of its own file alone.
pub fn serves_others<E: Entry>(symbol: &E) -> bool
    ensures { result ≡ serves_others (E.fields symbol.now) }
{
    matches!(symbol.info() / 16, 1 | 2 | 10) && matches!(symbol.other().raw() % 4, 0 | 3)
}

// The symbol that was found in a file, if it serves references of other files.
pub(crate) fn if_serving<E: Entry + Record>(found: &Option<(u32, E)>) -> Option<(u32, E)>
    ensures { result ≡ if_serving E.fields found.now }
{
    match *found {
        Some((index, symbol)) => {
            if serves_others(&symbol) {
                Some((index, symbol))
            } else {
                None
            }
        }
        None => None,
    }
}
