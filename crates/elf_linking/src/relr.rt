//! Relative relocations packed into words (gABI, "Relocation", SHT_RELR).

ghost use Rattle.std.specs.Prelude.{◌≡◌, ◌<◌, ◌≤◌, ◌*◌, Ok, Err, IfOk, MatchResult, length};
ghost use Rattle.std.specs.Iterator.{YieldsFirst, item_count};
ghost use Rattle.elf_linking.specs.Relr.{MarkStep, addresses, marks, address_after, relr_of};
ghost use Rattle.elf_linking.specs.Relr.{relr_rest, word_size, words_left};

use crate::LinkError;
use elf_base::bytes::{Order, Table, TableIter};
use elf_base::header::Class;

/// An iterator over the addresses in RELR data: those of the words to which a dynamic linker adds
/// the load address.
///
/// A word of the data is as wide as the addresses of the file's class. An even word is an address;
/// an odd word is a bitmap of the words after the last address. Addresses are modulo 2 to the
/// width.
#[derive(Clone, Debug, Drop)]
pub struct Relr<'a> {
    words: Words<'a>,
    // The address of the word after those that were read.
    place: u64,
    // The last bitmap, the address of its first word, and the number of its bits that were read.
    bitmap: u64,
    base: u64,
    looked_at: u64,
}

// The remaining words, by their width.
#[derive(Clone, Debug, Drop)]
enum Words<'a> {
    Narrow(TableIter<'a, u32>),
    Wide(TableIter<'a, u64>),
}

impl<'a> Words<'a> {
    // The words in `bytes`; the errors are those of `Relr::new`.
    fn new(bytes: &'a [u8], class: Class, order: Order) -> Result<Words<'a>, LinkError>
        ensures { MatchResult result
            (λ words. relr_of class order bytes.now
            ≡ Ok (addresses (word_size words) 0 (words_left words)))
            (λ error. relr_of class order bytes.now ≡ Err error) }
    {
        match class {
            Class::ThirtyTwo => match Table::new(bytes, order) {
                Ok(table) => Ok(Words::Narrow(table.iter())),
                Err(_) => Err(LinkError::NotMultiple),
            },
            Class::SixtyFour => match Table::new(bytes, order) {
                Ok(table) => Ok(Words::Wide(table.iter())),
                Err(_) => Err(LinkError::NotMultiple),
            },
            Class::None | Class::Other(_) => Err(LinkError::UnknownClass),
        }
    }

    // The number of words in a bitmap: one for each bit except the lowest.
    fn marks(&self) -> u64
        ensures { result ≡ marks (word_size self.now) }
    {
        match self {
            Words::Narrow(_) => 31,
            Words::Wide(_) => 63,
        }
    }

    // The address `count` words after another.
    #[tactic(auto, using(crate::proofs::RelrItems::narrow_place, crate::proofs::RelrItems::wide_place))]
    fn after(&self, place: u64, count: u64) -> u64
        requires { count < 64 }
        ensures { result ≡ address_after (word_size self.now) place count }
    {
        match self {
            Words::Narrow(_) => place.wrapping_add(count * 4) % (1 << 32),
            Words::Wide(_) => place.wrapping_add(count * 8),
        }
    }

    // The first word.
    fn next(&mut self) -> Option<u64>
        ensures width { word_size self.new ≡ word_size self.old }
        ensures word { YieldsFirst words_left self.old result self.new }
    {
        match self {
            Words::Narrow(words) => words.next().map(u64::from),
            Words::Wide(words) => words.next(),
        }
    }
}

impl<'a> Relr<'a> {
    /// The addresses in `bytes`, in a file of this class.
    ///
    /// Errors: `UnknownClass` if the class is neither 1 nor 2; `NotMultiple` if `bytes` are not a
    /// whole number of words.
    #[tactic(auto, using(crate::proofs::RelrItems::marked_none))]
    pub fn new(bytes: &'a [u8], class: Class, order: Order) -> Result<Relr<'a>, LinkError>
        ensures exact { MatchResult result
            (λ relr. relr_of class order bytes.now ≡ Ok (relr_rest relr))
            (λ error. relr_of class order bytes.now ≡ Err error) }
        ensures room { IfOk result (λ relr. length (relr_rest relr) ≤ 8 * length bytes.now) }
    {
        let words = Words::new(bytes, class, order)?;
        let looked_at = words.marks();
        Ok(Relr {
            words,
            place: 0,
            bitmap: 0,
            base: 0,
            looked_at,
        })
    }

    // The next address in the current bitmap.
    #[tactic(auto, using(crate::proofs::RelrItems::marked_set, crate::proofs::RelrItems::marked_unset, crate::proofs::RelrItems::marked_none))]
    fn next_marked(&mut self) -> Option<u64>
        ensures { MarkStep self.old result self.new }
    {
        for count in self.looked_at..self.words.marks() {
            if (self.bitmap >> (count + 1)) % 2 == 1 {
                self.looked_at = count + 1;
                return Some(self.words.after(self.base, count));
            }
        }
        self.looked_at = self.words.marks();
        None
    }
}

impl Iterator for Relr<'_> {
    type Item = u64;

    ghost next_gives = { YieldsFirst relr_rest };

    ghost remaining = { item_count relr_rest };

    #[tactic(auto, using(crate::proofs::RelrItems::rest_end, crate::proofs::RelrItems::rest_even, crate::proofs::RelrItems::rest_odd))]
    fn next(&mut self) -> Option<u64> {
        loop {
            if let Some(address) = self.next_marked() {
                return Some(address);
            }
            let word = self.words.next()?;
            if word % 2 == 0 {
                self.place = self.words.after(word, 1);
                return Some(word);
            }
            self.bitmap = word;
            self.base = self.place;
            self.looked_at = 0;
            self.place = self.words.after(self.base, self.words.marks());
        }
    }
}
