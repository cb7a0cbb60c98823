//! The search for the symbol that a reference gets, in one pass over the chain of its name.

ghost use Rattle.std.specs.Prelude.{◌≡◌, ◌+◌, ◌^◌, ◌<◌, MatchResult};
ghost use Rattle.elf_linking.specs.Find.{IsFound, dynamic_symbols};
ghost use Rattle.elf_linking.specs.Layouts.{gnu_hash_number};
ghost use Rattle.elf_linking.specs.Versions.{version_list};
ghost use Rattle.elf_linking.specs.declared.any_table.AnyTable.TheVariants.{Sysv};
ghost use Rattle.xmas_elf.specs.HashTable.{Halts, IsFoundAt, chains_of};
ghost use Rattle.xmas_elf.specs.SymbolTable.{table_symbols};

use crate::find::kept::{Kept, Step};
use crate::find::{Use, Wanted};
use crate::versions::Versions;
use crate::{AnyTable, LinkError};
use elf_base::bytes::Record;
use xmas_elf::ElfError;
use xmas_elf::hash::{HashTable, hash_of_bytes};
use xmas_elf::symbol_table::{Entry, SymbolTable};

impl<'a> AnyTable<'a> {
    // The symbol that a reference gets, by the name and its hash number of GNU's table.
    #[inline(always)]
    pub(crate) fn find_in<E: Entry + Record>(
        &self,
        name: &[u8],
        hash: u32,
        symbols: &SymbolTable<'_, E>,
        versions: &Versions<'_>,
        wanted: &Wanted<'_>,
        use_: Use,
    ) -> Result<Option<(u32, E)>, LinkError>
        requires { hash ≡ gnu_hash_number name.now }
        ensures { IsFound (dynamic_symbols self.now (table_symbols symbols.now)
            (version_list versions.now)) name.now wanted.now use_ result }
    {
        match self {
            AnyTable::Gnu(table) => table.find_in(name, hash, symbols, versions, wanted, use_),
            AnyTable::Sysv(table) => find_in_chain(table, name, symbols, versions, wanted, use_),
        }
    }
}

// The search by the standard's table, along the chain of the name's bucket.
fn find_in_chain<E: Entry + Record>(
    table: &HashTable<'_>,
    name: &[u8],
    symbols: &SymbolTable<'_, E>,
    versions: &Versions<'_>,
    wanted: &Wanted<'_>,
    use_: Use,
) -> Result<Option<(u32, E)>, LinkError>
    ensures { IsFound (dynamic_symbols (Sysv table.now) (table_symbols symbols.now)
        (version_list versions.now)) name.now wanted.now use_ result }
{
    let bucket_count = table.bucket_count();
    if bucket_count == 0 {
        return Ok(None);
    }
    let first = match table.get_bucket(hash_of_bytes(name) % bucket_count) {
        Ok(first) => first,
        Err(error) => return Err(LinkError::Elf(error)),
    };
    let mut index = first;
    let mut passed: u32 = 0;
    let mut kept = Kept::Nothing;
    while index != 0 {
        match check_place(table, index, passed, symbols) {
            Ok(()) => {}
            Err(halt) => return Err(LinkError::Elf(halt)),
        }
        kept = match kept.after(index, name, symbols, versions, wanted, use_) {
            Step::On(kept) => kept,
            Step::End(answer) => return answer,
        };
        index = match table.get_chain(index) {
            Ok(next) => next,
            Err(error) => return Err(LinkError::Elf(error)),
        };
        passed += 1;
    }
    Ok(kept.alone())
}

// Whether a search goes on at an index, which isn't the end, after `passed` symbols. After as many
// as there are chains or symbols it has passed one twice.
#[inline(always)]
fn check_place<E: Entry + Record>(
    table: &HashTable<'_>,
    index: u32,
    passed: u32,
    symbols: &SymbolTable<'_, E>,
) -> Result<(), ElfError>
    requires { 0 < index }
    ensures { let chains = chains_of table.now (table_symbols symbols.now).items in
        MatchResult result
        (λ _. ((e : E) × IsFoundAt chains index e) × (passed < chains.count)
        × (passed + 1 < 2 ^ 32))
        (Halts chains passed index) }
{
    let chain_count = table.chain_count();
    if index >= chain_count {
        return Err(ElfError::ChainIndex);
    }
    if index as usize >= symbols.len() {
        return Err(ElfError::SymbolIndex);
    }
    if passed >= chain_count || passed as usize >= symbols.len() {
        return Err(ElfError::HashCycle);
    }
    Ok(())
}
