//! What a search for the symbol that a reference gets keeps of the symbols that it passes.

ghost use Rattle.std.specs.Prelude.{◌≡◌, ◌↔◌, IsTrue, false, true};
ghost use Rattle.elf_linking.specs.Find.{IsCandidate, dynamic_symbols, is_by_version, is_default};
ghost use Rattle.elf_linking.specs.Kept.{IsStep, kept_alone, kept_with};
ghost use Rattle.elf_linking.specs.VersionList.{VersionList};
ghost use Rattle.elf_linking.specs.Versions.{number_of, version_list};
ghost use Rattle.elf_linking.specs.declared.any_table.AnyTable.{AnyTable};
ghost use Rattle.xmas_elf.specs.SymbolTable.{table_symbols};

use crate::LinkError;
use crate::find::{Use, Wanted, is_default, serves};
use crate::versions::Versions;
use elf_base::bytes::Record;
use xmas_elf::symbol_table::{Entry, SymbolTable};

// The candidates that a reference may fall back on, as far as a search has come.
#[derive(Clone, Copy)]
pub(crate) enum Kept<E> {
    Nothing,
    One(u32, E),
    Several,
}

// What a search does after a symbol.
#[derive(Clone, Copy)]
pub(crate) enum Step<E> {
    // It goes on, and keeps this.
    On(Kept<E>),
    // It ends with this result.
    End(Result<Option<(u32, E)>, LinkError>),
}

impl<E: Entry + Record> Kept<E> {
    // The step after the symbol at an index.
    #[inline(always)]
    pub(crate) fn after(
        self,
        index: u32,
        name: &[u8],
        symbols: &SymbolTable<'_, E>,
        versions: &Versions<'_>,
        wanted: &Wanted<'_>,
        use_: Use,
    ) -> Step<E>
        ensures { (table : AnyTable) → let file = dynamic_symbols table (table_symbols symbols.now)
            (version_list versions.now) in
            IsStep file name.now wanted.now use_ self index result }
    {
        let Some(symbol) = symbols.get(index as usize) else {
            return Step::On(self);
        };
        if !is_candidate(&symbol, name, symbols, use_) {
            return Step::On(self);
        }
        match wanted.accepts(versions, index) {
            Ok(true) => Step::End(Ok(Some((index, symbol)))),
            Ok(false) => {
                if is_shown(versions, wanted, index) {
                    Step::On(self.with(index, symbol))
                } else {
                    Step::On(self)
                }
            }
            Err(error) => Step::End(Err(error)),
        }
    }

    // What is kept with one more candidate that the reference may fall back on. The same index again,
    // as in a chain that never ends, is no other candidate.
    #[inline(always)]
    fn with(self, index: u32, symbol: E) -> Kept<E>
        ensures { result ≡ kept_with index symbol self }
    {
        match self {
            Kept::Nothing => Kept::One(index, symbol),
            Kept::One(at, _) if at == index => self,
            Kept::One(_, _) | Kept::Several => Kept::Several,
        }
    }

    // The one that was kept, if there is exactly one.
    #[inline(always)]
    pub(crate) fn alone(self) -> Option<(u32, E)>
        ensures { result ≡ kept_alone self }
    {
        match self {
            Kept::One(index, symbol) => Some((index, symbol)),
            Kept::Nothing | Kept::Several => None,
        }
    }
}

// Whether a symbol has the name and serves the use.
#[inline(always)]
fn is_candidate<E: Entry + Record>(
    symbol: &E,
    name: &[u8],
    symbols: &SymbolTable<'_, E>,
    use_: Use,
) -> bool
    ensures { (table : AnyTable) (versions : VersionList) → IsTrue result
        ↔ IsCandidate (dynamic_symbols table (table_symbols symbols.now) versions) name.now use_
        symbol.now }
{
    symbols.has_key(symbol, name) && serves(symbol, use_)
}

// Whether a reference without a version may fall back on the symbol at an index.
#[inline(always)]
fn is_shown(versions: &Versions<'_>, wanted: &Wanted<'_>, index: u32) -> bool
    ensures { IsTrue result ↔ ((is_by_version wanted.now ≡ false)
        × (is_default (number_of (version_list versions.now).numbers index) ≡ true)) }
{
    !matches!(wanted, Wanted::Version { .. }) && is_default(versions, index)
}
