//! The hash tables of a dynamic segment (gABI, "Dynamic Section": DT_HASH; DT_GNU_HASH of GNU
//! binutils and glibc).

ghost use Rattle.std.specs.Prelude.{◌≡◌, Ok, Err, MatchResult, ok_or};
ghost use Rattle.elf_base.specs.FileHeader.{class_of, file_class, file_order};
ghost use Rattle.elf_base.specs.FirstError.{and_then};
ghost use Rattle.elf_linking.specs.Loaded.{bytes_from_of, lent};

use crate::LinkError;
use crate::gnu_hash::GnuHashTable;
use crate::view::dynamic::DynamicView;
use crate::view::loaded::bytes_from;
use crate::view::tags::{DT_GNU_HASH, DT_HASH};
use xmas_elf::ElfFile;
use xmas_elf::hash::HashTable;

impl<'a> DynamicView<'a> {
    ghost use Rattle.elf_linking.specs.DynamicView.{gnu_hash_table_of, hash_table_of, number_with};
    ghost use Rattle.elf_linking.specs.DynamicView.{view_entries};
    ghost use Rattle.elf_linking.specs.GnuHash.{gnu_class, gnu_data, gnu_order};
    ghost use Rattle.xmas_elf.specs.HashTable.{hash_data, hash_order};

    /// The hash table of the ELF standard: the bytes from the address in the entry Hash on, up to
    /// the end of the segment in the file.
    ///
    /// Errors: `NoEntry` if there is no such entry; those of `bytes_from`; those of
    /// `HashTable::read`.
    pub fn hash_table(&self, file: &ElfFile<'a>) -> Result<HashTable<'a>, LinkError>
        ensures { let answer = hash_table_of file.now (view_entries self.now) in MatchResult result
            (λ table. (answer ≡ Ok (hash_data table))
            × (hash_order table ≡ file_order file.now.header))
            (λ error. answer ≡ Err error) }
    {
        let bytes = self.bytes_with(DT_HASH, file)?;
        match HashTable::read(bytes, file.byte_order()) {
            Ok(table) => Ok(table),
            Err(error) => Err(LinkError::Elf(error)),
        }
    }

    /// GNU's hash table: the bytes from the address in the entry GnuHash on,
    /// up to the end of the segment in the file.
    ///
    /// Errors: `NoEntry` if there is no such entry; those of `bytes_from`; those of
    /// `GnuHashTable::read`.
    #[tactic(auto, using(crate::proofs::ViewTables::gnu_accepted))]
    pub fn gnu_hash_table(&self, file: &ElfFile<'a>) -> Result<GnuHashTable<'a>, LinkError>
        ensures { let answer = gnu_hash_table_of file.now (view_entries self.now) in
            MatchResult result
            (λ table. (answer ≡ Ok (gnu_data table))
            × (gnu_class table ≡ class_of (file_class file.now.header))
            × (gnu_order table ≡ file_order file.now.header))
            (λ error. answer ≡ Err error) }
    {
        let bytes = self.bytes_with(DT_GNU_HASH, file)?;
        let class = file.header.pt1.class();
        match GnuHashTable::read(bytes, class, file.byte_order()) {
            Ok(table) => Ok(table),
            Err(error) => Err(error),
        }
    }

    // The bytes from the address in the last entry with this tag on.
    fn bytes_with(&self, tag: u64, file: &ElfFile<'a>) -> Result<&'a [u8], LinkError>
        ensures { lent result ≡ and_then (ok_or (number_with tag (view_entries self.now))
            LinkError.NoEntry) (bytes_from_of file.now) }
    {
        match self.entry(tag) {
            Some(address) => bytes_from(file, address),
            None => Err(LinkError::NoEntry),
        }
    }
}
