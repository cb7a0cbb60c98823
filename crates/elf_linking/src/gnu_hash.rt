//! GNU hash tables of symbols (the convention of GNU binutils and glibc: sections of type
//! 0x6ffffff6, `.gnu.hash`, and the dynamic entry `DT_GNU_HASH`).

ghost use Rattle.std.specs.Prelude.{◌≡◌, ◌↔◌, ◌+◌, ◌*◌, ◌/◌, ◌^◌, ◌==◌, ◌<◌, ◌≤◌};
ghost use Rattle.std.specs.Prelude.{◌%◌, length, IfOk, IsOk, IsTrue, MatchResult};
ghost use Rattle.elf_linking.specs.Layouts.{IsGnuTable, bloom_count_in, bloom_size, chains_in};
ghost use Rattle.elf_linking.specs.Layouts.{gnu_hash_number, gnu_table_of, is_known};
ghost use Rattle.std.specs.Int.{bit_at, is_power_of_two};

mod check;
mod count;
mod find;
mod lookup;

use crate::LinkError;
use elf_base::bytes::{Order, read_u32, read_u64};
use elf_base::header::Class;

/// The hash number of a name, which selects its bucket in a GNU hash table.
pub fn gnu_hash(name: &str) -> u32
    ensures { result ≡ gnu_hash_number name.now }
{
    gnu_hash_of_bytes(name.as_bytes())
}

/// The hash number of a name by its bytes, whether or not they are UTF-8.
#[tactic(auto, unfolding(crate::specs::Layouts::gnu_hash_number))]
pub fn gnu_hash_of_bytes(name: &[u8]) -> u32
    ensures { result ≡ gnu_hash_number name.now }
{
    let mut number: u32 = 5381;
    for byte in name {
        number = number.wrapping_mul(33).wrapping_add(u32::from(*byte));
    }
    number
}

// Whether the class is 32 or 64.
fn is_known(class: Class) -> bool
    ensures { result ≡ is_known class }
{
    matches!(class, Class::ThirtyTwo | Class::SixtyFour)
}

// The size of a Bloom word in files of a class, in bytes.
#[inline(always)]
fn bloom_size(class: Class) -> usize
    ensures value { result ≡ bloom_size class }
    ensures above { 4 ≤ result }
    ensures below { result ≤ 8 }
{
    match class {
        Class::ThirtyTwo => 4,
        _ => 8,
    }
}

// Whether a bit of a Bloom word is set.
#[tactic(auto, using(std::proofs::lemmas::Nat::Bits::shr_and_one))]
#[inline(always)]
fn is_set(word: u64, bit: u32) -> bool
    requires { bit < 64 }
    ensures { result ≡ (bit_at word bit == 1) }
{
    (word >> bit) & 1 == 1
}

// The remainder of a number by a power of two, without a division.
#[tactic(auto, using(crate::proofs::Shifts::masked, crate::proofs::Shifts::some_bit))]
#[inline(always)]
fn remainder(number: u32, power: u32) -> u32
    requires { IsTrue (is_power_of_two power) }
    ensures { result ≡ number % power }
{
    number & (power - 1)
}

// A hash number, shifted to the right by any number of bits.
#[tactic(auto, using(crate::proofs::Shifts::shifted_out))]
#[inline(always)]
fn shifted(hash: u32, shift: u32) -> u32
    ensures { result ≡ hash / 2 ^ shift }
{
    hash.checked_shr(shift).unwrap_or(0)
}

/// The hash table of the symbols that a file exports: four words, the Bloom words, which rule out
/// most names that are not in the table, the buckets, and a chain word for each symbol from the
/// first on.
///
/// It borrows the data of its section, and has the class and
/// the byte order of the file.
#[derive(Clone, Copy, Debug)]
pub struct GnuHashTable<'a> {
    bytes: &'a [u8],
    class: Class,
    order: Order,
    ghost counted: { 0 < bloom_count_in order bytes.now },
    ghost power: { IsTrue (is_power_of_two (bloom_count_in order bytes.now)) },
    ghost whole: { chains_in class order bytes.now ≤ length bytes.now },
}

impl<'a> GnuHashTable<'a> {
    ghost use Rattle.elf_linking.specs.GnuHash.{HasChain, bloom_count_of, bloom_of};
    ghost use Rattle.elf_linking.specs.GnuHash.{bloom_shift_of, bloom_word, gnu_bucket_count};
    ghost use Rattle.elf_linking.specs.GnuHash.{bucket_of, bucket_word, chain_of, chain_place};
    ghost use Rattle.elf_linking.specs.GnuHash.{chain_word, first_symbol_of, gnu_class, gnu_data};
    ghost use Rattle.elf_linking.specs.GnuHash.{gnu_order, may_hold, start_at};

    /// The hash table in `bytes`, which extend to the end of their section.
    ///
    /// Errors: `UnknownClass`; `ShortTable` if there are fewer than 16 bytes; `BloomCount` if the
    /// number of Bloom words is not a power of two; `ShortTable` if they and the buckets extend
    /// past the end of the bytes.
    #[tactic(auto, unfolding(crate::specs::Layouts::gnu_table_of))]
    pub fn read(bytes: &'a [u8], class: Class, order: Order) -> Result<GnuHashTable<'a>, LinkError>
        ensures accepts { IsOk result ↔ IsGnuTable class order bytes.now }
        ensures exact { MatchResult result
            (λ table. (gnu_data table ≡ bytes.now) × (gnu_class table ≡ class)
            × (gnu_order table ≡ order))
            (λ error. gnu_table_of class order bytes.now ≡ Err error) }
    {
        if !is_known(class) {
            return Err(LinkError::UnknownClass);
        }
        if bytes.len() < 16 {
            return Err(LinkError::ShortTable);
        }
        let bloom_count = read_u32(bytes, 8, order);
        if !bloom_count.is_power_of_two() {
            return Err(LinkError::BloomCount);
        }
        let buckets = 16 + bloom_size(class) * bloom_count as usize;
        if bytes.len() < buckets + 4 * read_u32(bytes, 0, order) as usize {
            return Err(LinkError::ShortTable);
        }
        Ok(GnuHashTable {
            bytes,
            class,
            order,
        })
    }

    /// The number of buckets.
    #[inline(always)]
    pub fn bucket_count(&self) -> u32
        ensures { result ≡ gnu_bucket_count self.now }
    {
        read_u32(self.bytes, 0, self.order)
    }

    /// The index of the first symbol of the table.
    #[inline(always)]
    pub fn first_symbol(&self) -> u32
        ensures { result ≡ first_symbol_of self.now }
    {
        read_u32(self.bytes, 4, self.order)
    }

    /// The number of Bloom words. `read` returns an error for one that is not a power of two.
    #[inline(always)]
    pub fn bloom_count(&self) -> u32
        ensures value { result ≡ bloom_count_of self.now }
        ensures power { IsTrue (is_power_of_two result) }
    {
        read_u32(self.bytes, 8, self.order)
    }

    /// The number of bits by which a hash number is shifted to the right for the second bit of a
    /// Bloom word.
    #[inline(always)]
    pub fn bloom_shift(&self) -> u32
        ensures { result ≡ bloom_shift_of self.now }
    {
        read_u32(self.bytes, 12, self.order)
    }

    /// A Bloom word, of 32 bits in class 32.
    ///
    /// Error: `BucketIndex` if the index is not below `bloom_count`.
    #[tactic(auto, unfolding(crate::specs::GnuHash::bloom_of))]
    pub fn get_bloom(&self, index: u32) -> Result<u64, LinkError>
        ensures readable { IsOk result ↔ (index < bloom_count_of self.now) }
        ensures value { IfOk result (λ word. word ≡ bloom_word self.now index) }
        ensures exact { result ≡ bloom_of self.now index }
    {
        if index >= self.bloom_count() {
            return Err(LinkError::BucketIndex);
        }
        Ok(self.bloom(index))
    }

    // The Bloom word at an index below their number.
    #[tactic(auto, unfolding(crate::specs::GnuHash::bloom_word))]
    #[inline(always)]
    fn bloom(&self, index: u32) -> u64
        requires { index < bloom_count_of self.now }
        ensures { result ≡ bloom_word self.now index }
    {
        match self.class {
            Class::ThirtyTwo => u64::from(read_u32(
                self.bytes,
                16 + 4 * index as usize,
                self.order,
            )),
            _ => read_u64(self.bytes, 16 + 8 * index as usize, self.order),
        }
    }

    /// The word of a bucket: the index of the first symbol of its run, or 0 if it has none.
    ///
    /// Error: `BucketIndex` if the index is not below `bucket_count`.
    #[tactic(auto, unfolding(crate::specs::GnuHash::bucket_of))]
    pub fn get_bucket(&self, index: u32) -> Result<u32, LinkError>
        ensures readable { IsOk result ↔ (index < gnu_bucket_count self.now) }
        ensures value { IfOk result (λ word. word ≡ bucket_word self.now index) }
        ensures exact { result ≡ bucket_of self.now index }
    {
        if index >= self.bucket_count() {
            return Err(LinkError::BucketIndex);
        }
        Ok(self.bucket(index))
    }

    // The word of the bucket at an index below their number.
    #[tactic(auto, unfolding(crate::specs::GnuHash::bucket_word))]
    #[inline(always)]
    fn bucket(&self, index: u32) -> u32
        requires { index < gnu_bucket_count self.now }
        ensures { result ≡ bucket_word self.now index }
    {
        let buckets = 16 + bloom_size(self.class) * self.bloom_count() as usize;
        read_u32(self.bytes, buckets + 4 * index as usize, self.order)
    }

    /// The chain word of a symbol: the hash number of its name, except for the lowest bit, which is
    /// set at the end of a run.
    ///
    /// Errors: `ChainIndex` if the index is below `first_symbol`; `ChainData` if the word extends
    /// past the end of the data.
    #[tactic(auto, unfolding(crate::specs::GnuHash::chain_of, crate::specs::GnuHash::chain_word, crate::specs::GnuHash::chain_place))]
    #[inline(always)]
    pub fn get_chain(&self, index: u32) -> Result<u32, LinkError>
        ensures readable { IsOk result ↔ HasChain self.now index }
        ensures value { IfOk result (λ word. word ≡ chain_word self.now index) }
        ensures exact { result ≡ chain_of self.now index }
    {
        let first = self.first_symbol();
        if index < first {
            return Err(LinkError::ChainIndex);
        }
        let buckets = 16 + bloom_size(self.class) * self.bloom_count() as usize;
        let chains = buckets + 4 * self.bucket_count() as usize;
        let place = chains + 4 * (index - first) as usize;
        if self.bytes.len() < place + 4 {
            return Err(LinkError::ChainData);
        }
        Ok(read_u32(self.bytes, place, self.order))
    }

    // Whether a name with this hash number may be in the table, by the Bloom words. Each class has a
    // call with a constant, so that the quotients by it are shifts.
    #[inline(always)]
    fn may_hold(&self, hash: u32) -> bool
        ensures { result ≡ may_hold self.now hash }
    {
        match self.class {
            Class::ThirtyTwo => self.may_hold_in(32, hash),
            _ => self.may_hold_in(64, hash),
        }
    }

    // The same, by the number of bits of a Bloom word.
    #[tactic(auto, unfolding(crate::specs::GnuHash::may_hold))]
    #[inline(always)]
    fn may_hold_in(&self, width: u32, hash: u32) -> bool
        requires { width ≡ 8 * bloom_size (gnu_class self.now) }
        ensures { result ≡ may_hold self.now hash }
    {
        let word = self.bloom(remainder(hash / width, self.bloom_count()));
        let shifted = shifted(hash, self.bloom_shift());
        is_set(word, hash % width) && is_set(word, shifted % width)
    }

    // The index of the first symbol of a look-up by this hash number, if any.
    #[tactic(auto, unfolding(crate::specs::GnuHash::start_at))]
    #[inline(always)]
    fn start(&self, hash: u32) -> Option<u32>
        ensures { result ≡ start_at self.now hash }
    {
        let bucket_count = self.bucket_count();
        if bucket_count == 0 || !self.may_hold(hash) {
            return None;
        }
        match self.bucket(hash % bucket_count) {
            0 => None,
            word => Some(word),
        }
    }
}
