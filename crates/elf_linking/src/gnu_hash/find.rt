//! The search by GNU's table for the symbol that a reference gets, in one pass over the run of its
//! name.

ghost use Rattle.std.specs.Prelude.{◌≡◌, Some};
ghost use Rattle.elf_linking.specs.Find.{IsFound, dynamic_symbols};
ghost use Rattle.elf_linking.specs.GnuHash.{start_at};
ghost use Rattle.elf_linking.specs.Layouts.{gnu_hash_number};
ghost use Rattle.elf_linking.specs.Versions.{version_list};
ghost use Rattle.elf_linking.specs.declared.any_table.AnyTable.TheVariants.{Gnu};
ghost use Rattle.xmas_elf.specs.SymbolTable.{table_symbols};

use crate::LinkError;
use crate::find::kept::{Kept, Step};
use crate::find::{Use, Wanted};
use crate::gnu_hash::GnuHashTable;
use crate::gnu_hash::lookup::symbol_end;
use crate::versions::Versions;
use elf_base::bytes::Record;
use xmas_elf::symbol_table::{Entry, SymbolTable};

impl<'a> GnuHashTable<'a> {
    // The symbol that a reference gets, by the name and its hash number. Most files of a scope have no
    // symbol of a name, and for these no call is made: this part is inlined.
    #[inline(always)]
    pub(crate) fn find_in<E: Entry + Record>(
        &self,
        name: &[u8],
        hash: u32,
        symbols: &SymbolTable<'_, E>,
        versions: &Versions<'_>,
        wanted: &Wanted<'_>,
        use_: Use,
    ) -> Result<Option<(u32, E)>, LinkError>
        requires { hash ≡ gnu_hash_number name.now }
        ensures { IsFound (dynamic_symbols (Gnu self.now) (table_symbols symbols.now)
            (version_list versions.now)) name.now wanted.now use_ result }
    {
        match self.start(hash) {
            Some(from) => self.find_from(from, name, hash, symbols, versions, wanted, use_),
            None => Ok(None),
        }
    }

    // The symbol that a reference gets, from the first symbol of the run of its name on.
    fn find_from<E: Entry + Record>(
        &self,
        from: u32,
        name: &[u8],
        hash: u32,
        symbols: &SymbolTable<'_, E>,
        versions: &Versions<'_>,
        wanted: &Wanted<'_>,
        use_: Use,
    ) -> Result<Option<(u32, E)>, LinkError>
        requires hashed { hash ≡ gnu_hash_number name.now }
        requires starts { start_at self.now hash ≡ Some from }
        ensures { IsFound (dynamic_symbols (Gnu self.now) (table_symbols symbols.now)
            (version_list versions.now)) name.now wanted.now use_ result }
    {
        if from < self.first_symbol() {
            return Err(LinkError::ChainIndex);
        }
        let mut kept = Kept::Nothing;
        for index in u64::from(from)..symbol_end(symbols) {
            let word = match self.get_chain(index as u32) {
                Ok(word) => word,
                Err(error) => return Err(error),
            };
            if word / 2 == hash / 2 {
                kept = match kept.after(index as u32, name, symbols, versions, wanted, use_) {
                    Step::On(kept) => kept,
                    Step::End(answer) => return answer,
                };
            }
            if word % 2 == 1 {
                return Ok(kept.alone());
            }
        }
        Err(LinkError::SymbolIndex)
    }
}
