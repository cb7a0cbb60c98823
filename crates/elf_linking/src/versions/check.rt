//! Whether the versions of a file can be read (LSB, "Symbol Versioning").

ghost use Rattle.std.specs.Prelude.{◌≡◌, ◌↔◌, ◌+◌, ◌≤◌, IsOk, length};
ghost use Rattle.elf_linking.specs.VersionTables.{are_needs_told, definitions_in, has_told_parts};
ghost use Rattle.elf_linking.specs.VersionTables.{have_told_parts, is_counted, is_told};
ghost use Rattle.elf_linking.specs.VersionTables.{need_places, needs_in, records_data};
ghost use Rattle.elf_linking.specs.Versions.{CanBeRead, count_error, lacks_numbers, name_error};
ghost use Rattle.elf_linking.specs.Versions.{version_list};
ghost use Rattle.elf_linking.specs.Versions.{version_tables, versions_error};

use crate::LinkError;
use crate::versions::Versions;
use crate::versions::records::{Chain, Places, Records};

// Whether this is the number of records that the file tells.
fn is_told(told: Option<u64>, count: u64) -> bool
    ensures { result ≡ is_told told count }
{
    match told {
        Some(told) => told == count,
        None => false,
    }
}

// The number of needs.
fn need_count(records: &Records<'_>) -> u64
    ensures { result ≡ length (need_places (records_data records.now)) }
{
    Places::new(*records, 0).count() as u64
}

// Whether the need at a place has as many parts as it tells.
fn has_told_parts(records: &Records<'_>, place: usize) -> bool
    requires { place + 16 ≤ length (records_data records.now).bytes }
    ensures { result ≡ has_told_parts (records_data records.now) place }
{
    let parts = Places::new(*records, records.place_behind(place, 8)).count();
    parts == usize::from(records.u16_at(place, 2))
}

// Whether each need has as many parts as it tells.
#[tactic(auto, using(crate::proofs::VersionCounts::told_end, crate::proofs::VersionCounts::told_fault, crate::proofs::VersionCounts::told_other, crate::proofs::VersionCounts::told_false))]
fn have_told_parts(records: &Records<'_>) -> bool
    ensures { result ≡ have_told_parts (records_data records.now)
        (need_places (records_data records.now)) }
{
    let mut needs = Chain {
        place: 0,
        left: records.bytes.len() as u64,
    };
    loop {
        let Some(item) = needs.next(records, 12) else {
            return true;
        };
        if let Ok(place) = item {
            if !has_told_parts(records, place) {
                return false;
            }
        }
    }
}

// Whether there are as many needs and parts as the file tells.
fn are_needs_told(records: &Records<'_>) -> bool
    ensures { result ≡ are_needs_told (records_data records.now) }
{
    is_told(records.told, need_count(records)) && have_told_parts(records)
}

impl Versions<'_> {
    /// Checks that the versions of `symbol_count` symbols can be read: `version_of` is then no
    /// error for any of them, and the name of a version neither.
    ///
    /// Errors, the first of these: `SymbolIndex` if the file has numbers of symbols, but fewer than
    /// `symbol_count`; that of an item of `definitions`, or of its name; that of an item of
    /// `needs`, or of its name; `VersionChain` if there are more or fewer definitions, needs or parts
    /// of a need than the file tells in VerDefNum, VerNeedNum and vn_cnt, which is no error of glibc. A
    /// call goes through each list two times.
    #[tactic(auto, using(crate::proofs::VersionChecks::error_read))]
    pub fn check(&self, symbol_count: usize) -> Result<(), LinkError>
        ensures accepts { IsOk result ↔ CanBeRead (version_list self.now) symbol_count }
        ensures exact { result ≡ versions_error (version_list self.now) symbol_count }
    {
        if self.lacks_numbers(symbol_count) {
            return Err(LinkError::SymbolIndex);
        }
        match self.check_names() {
            Ok(()) => self.check_counts(),
            Err(error) => Err(error),
        }
    }

    // Whether each definition and each part of a need is whole and has a name.
    fn check_names(&self) -> Result<(), LinkError>
        ensures { result ≡ name_error (λ entry. entry.name) (version_list self.now).entries }
    {
        match self.check_definitions() {
            Ok(()) => self.check_needs(),
            Err(error) => Err(error),
        }
    }

    // Whether there are as many definitions, needs and parts as the file tells.
    fn check_counts(&self) -> Result<(), LinkError>
        ensures { result ≡ count_error (version_list self.now).counted }
    {
        if !self.is_counted() {
            return Err(LinkError::VersionChain);
        }
        Ok(())
    }

    // The same as a test.
    fn is_counted(&self) -> bool
        ensures { result ≡ is_counted (version_tables self.now) }
    {
        is_told(
            self.definitions.records.told,
            self.definitions().count() as u64,
        ) && are_needs_told(&self.needs)
    }

    // Whether the file has numbers of symbols, but fewer than symbols.
    fn lacks_numbers(&self, symbol_count: usize) -> bool
        ensures { result ≡ lacks_numbers (version_list self.now).numbers symbol_count }
    {
        match self.numbers {
            Some(numbers) => numbers.len() / 2 < symbol_count,
            None => false,
        }
    }

    // Whether each definition is whole and has a name.
    #[tactic(auto, using(crate::proofs::VersionChecks::names_end, crate::proofs::VersionChecks::names_fault, crate::proofs::VersionChecks::names_bad, crate::proofs::VersionChecks::names_other))]
    fn check_definitions(&self) -> Result<(), LinkError>
        ensures { result ≡ name_error (λ d. d.name)
            (definitions_in (version_tables self.now).definitions) }
    {
        for item in self.definitions() {
            match item {
                Ok(definition) => match definition.name() {
                    Ok(_) => {}
                    Err(error) => return Err(error),
                },
                Err(error) => return Err(error),
            }
        }
        Ok(())
    }

    // Whether each part of a need is whole and has a name.
    #[tactic(auto, using(crate::proofs::VersionChecks::names_end, crate::proofs::VersionChecks::names_fault, crate::proofs::VersionChecks::names_bad, crate::proofs::VersionChecks::names_other))]
    fn check_needs(&self) -> Result<(), LinkError>
        ensures { result ≡ name_error (λ need. need.name)
            (needs_in (version_tables self.now).needs) }
    {
        for item in self.needs() {
            let _name = item?.name()?;
        }
        Ok(())
    }
}
