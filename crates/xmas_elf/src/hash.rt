//! Hash tables of symbols (gABI, "Hash Table").

ghost use Rattle.std.specs.Borrow.{Bor};
ghost use Rattle.std.specs.Fn.{FnReturnsAt};
ghost use Rattle.std.specs.Prelude.{◌≡◌, ◌↔◌, ◌+◌, ◌^◌, ◌<◌, ◌≤◌, ℕ, true, false};
ghost use Rattle.std.specs.Prelude.{Err, IfOk, IsOk, MatchResult, Ok, Some, length, slice_get};

mod check;
mod lookup;

use crate::ElfError;
use crate::bytes::{Order, Record};
use crate::symbol_table::{Entry, SymbolTable};
use elf_base::bytes::read_u32;
pub use elf_records::hash::{hash, hash_of_bytes};

/// The hash table of a symbol table, in words of four bytes: the number of buckets, the number of
/// chains, the buckets, and the chains.
///
/// It borrows the data of its section, and has the byte order of the file.
#[derive(Clone, Copy, Debug)]
pub struct HashTable<'a> {
    bytes: &'a [u8],
    order: Order,
    ghost counted: { 12 ≤ length bytes.now },
}

impl<'a> HashTable<'a> {
    ghost use Rattle.xmas_elf.specs.HashTable.{Halts, HasBucket, HasChain, IsFoundAt, FollowsChain};
    ghost use Rattle.xmas_elf.specs.HashTable.{bucket_count_of, bucket_of, chain_count_of};
    ghost use Rattle.xmas_elf.specs.HashTable.{chain_of, chains_of, hash_bytes, hash_data};
    ghost use Rattle.xmas_elf.specs.HashTable.{hash_order, hash_word, start_of, word_of};
    ghost use Rattle.xmas_elf.specs.SymbolTable.{table_symbols};

    /// The hash table in `bytes`; `ShortData` if there are fewer than 12 bytes.
    pub fn read(bytes: &'a [u8], order: Order) -> Result<HashTable<'a>, ElfError>
        ensures { MatchResult result
            (λ table. (12 ≤ length bytes.now) × (hash_data table ≡ bytes.now)
            × (hash_order table ≡ order) × (hash_bytes table ≡ bytes.entry))
            (λ e. (length bytes.now < 12) × (e ≡ ElfError.ShortData)) }
    {
        if bytes.len() < 12 {
            return Err(ElfError::ShortData);
        }
        Ok(HashTable { bytes, order })
    }

    /// The number of buckets.
    pub fn bucket_count(&self) -> u32
        ensures { result ≡ bucket_count_of self.now }
    {
        read_u32(self.bytes, 0, self.order)
    }

    /// The number of chains, which is the number of symbols that its symbol table should have.
    pub fn chain_count(&self) -> u32
        ensures { result ≡ chain_count_of self.now }
    {
        read_u32(self.bytes, 4, self.order)
    }

    /// The word of a bucket: the index of the first symbol in its chain, or 0.
    ///
    /// Errors: `BucketIndex` if the index is not below `bucket_count`; `HashData` if the word
    /// extends past the end of the data.
    #[tactic(auto, unfolding(crate::specs::HashTable::bucket_of, crate::specs::HashTable::word_of))]
    pub fn get_bucket(&self, index: u32) -> Result<u32, ElfError>
        ensures readable { IsOk result ↔ HasBucket self.now index }
        ensures value { IfOk result (λ word. word ≡ hash_word self.now (2 + index)) }
        ensures exact { result ≡ bucket_of self.now index }
    {
        if index >= self.bucket_count() {
            return Err(ElfError::BucketIndex);
        }
        self.word(2 + u64::from(index))
    }

    /// The word of a chain: the index of the symbol after this one, or 0.
    ///
    /// Errors: `ChainIndex` if the index is not below `chain_count`; `ChainSum` if the sum of
    /// `bucket_count` and the index does not fit in 32 bits; `HashData` if the word extends past
    /// the end of the data.
    #[tactic(auto, unfolding(crate::specs::HashTable::chain_of, crate::specs::HashTable::word_of))]
    pub fn get_chain(&self, index: u32) -> Result<u32, ElfError>
        ensures readable { IsOk result ↔ HasChain self.now index }
        ensures value { IfOk result (λ word. word
            ≡ hash_word self.now (2 + bucket_count_of self.now + index)) }
        ensures exact { result ≡ chain_of self.now index }
    {
        if index >= self.chain_count() {
            return Err(ElfError::ChainIndex);
        }
        let behind = u64::from(self.bucket_count()) + u64::from(index);
        if behind > u64::from(u32::MAX) {
            return Err(ElfError::ChainSum);
        }
        self.word(2 + behind)
    }

    // The word of the bucket of a name, if there are buckets.
    #[tactic(auto, unfolding(crate::specs::HashTable::start_of))]
    #[inline(always)]
    fn start(&self, name: &[u8]) -> Option<Result<u32, ElfError>>
        ensures { result ≡ start_of self.now name.now }
    {
        let bucket_count = self.bucket_count();
        if bucket_count == 0 {
            return None;
        }
        Some(self.get_bucket(hash_of_bytes(name) % bucket_count))
    }

    // The symbol at an index, which isn't the end, of a pass along a chain after `passed` steps, or
    // why the pass stops there. After as many steps as there are chains or symbols it has passed
    // one twice.
    #[inline(always)]
    fn symbol_at<E: Entry + Record>(
        &self,
        index: u32,
        passed: u32,
        symbols: &SymbolTable<'_, E>,
    ) -> Result<E, ElfError>
        requires { 0 < index }
        ensures { let chains = chains_of self.now (table_symbols symbols.now).items in MatchResult result
            (λ entry. IsFoundAt chains index entry × (passed < chains.count)
            × (passed < length chains.symbols) × (passed + 1 < 2 ^ 32) × (index < 2 ^ 32))
            (Halts chains passed index) }
    {
        let chain_count = self.chain_count();
        if index >= chain_count {
            return Err(ElfError::ChainIndex);
        }
        let Some(entry) = symbols.get(index as usize) else {
            return Err(ElfError::SymbolIndex);
        };
        let symbol_count = symbols.len();
        if passed >= chain_count || passed as usize >= symbol_count {
            return Err(ElfError::HashCycle);
        }
        Ok(entry)
    }

    // A pass along a chain from an index on: the first symbol for which the test is true, with
    // its index; `None` if the chain ends before one; or the error where it stops. And the number
    // of symbols tested.
    fn follow_chain<E: Entry + Record, F: Fn(&(u32, E)) -> bool>(
        &self,
        first: u32,
        symbols: &SymbolTable<'_, E>,
        stops: F,
    ) -> (Result<Option<(u32, E)>, ElfError>, u32)
        requires { (at : Bor (ℕ × E)) → at.now.0 < 2 ^ 32
            → slice_get (table_symbols symbols.now).items at.now.0 ≡ Some at.now.1
            → F.pre stops at }
        ensures in_chains { result.1 ≤ chain_count_of self.now }
        ensures in_symbols { result.1 ≤ length (table_symbols symbols.now).items }
        ensures answer { FollowsChain (λ at. FnReturnsAt F.Fn stops at true)
            (λ at. (at.0 < 2 ^ 32) × FnReturnsAt F.Fn stops at false)
            (chains_of self.now (table_symbols symbols.now).items) first result.0 result.1 }
    {
        let mut index = first;
        let mut count: u32 = 0;
        while index != 0 {
            let entry = match self.symbol_at(index, count, symbols) {
                Ok(entry) => entry,
                Err(halt) => return (Err(halt), count),
            };
            count += 1;
            let at = (index, entry);
            if stops(&at) {
                return (Ok(Some(at)), count);
            }
            index = match self.get_chain(index) {
                Ok(next) => next,
                Err(error) => return (Err(error), count),
            };
        }
        (Ok(None), count)
    }

    // The word after `before` words.
    #[tactic(auto, unfolding(crate::specs::HashTable::word_of))]
    #[inline(always)]
    fn word(&self, before: u64) -> Result<u32, ElfError>
        requires { before < 2 ^ 33 }
        ensures { result ≡ word_of self.now before }
    {
        let place = 4 * before as usize;
        if self.bytes.len() < place + 4 {
            return Err(ElfError::HashData);
        }
        Ok(read_u32(self.bytes, place, self.order))
    }
}
