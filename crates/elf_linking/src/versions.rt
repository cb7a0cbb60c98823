//! Versions of symbols (LSB, "Symbol Versioning"): the number of each symbol (`.gnu.version`), the
//! versions that a file defines (`.gnu.version_d`), and those that it needs of libraries
//! (`.gnu.version_r`), read by the dynamic segment.

ghost use Rattle.std.specs.Prelude.{◌≡◌, ◌<◌, ◌^◌, Ok, Err, MatchResult, Option, length, option_map};
ghost use Rattle.elf_linking.specs.DynamicView.{number_with, view_entries, view_strings};
ghost use Rattle.elf_linking.specs.VersionList.{VersionList, is_one_list, versions_in};
ghost use Rattle.elf_linking.specs.VersionTables.{numbers_address, numbers_at, records_by};
ghost use Rattle.elf_linking.specs.VersionTables.{records_data, result_map, tables_with};

mod check;
mod definitions;
mod marks;
mod needs;
mod records;
mod symbol;

use crate::LinkError;
pub use crate::versions::definitions::{Definition, Definitions};
use crate::versions::marks::Marked;
pub use crate::versions::needs::{Need, Needs};
use crate::versions::records::Records;
pub use crate::versions::symbol::{NamedVersion, SymbolVersion};
use crate::view::{
    DT_VERDEF, DT_VERDEFNUM, DT_VERNEED, DT_VERNEEDNUM, DT_VERSYM, DynamicView, bytes_at,
    bytes_from,
};
use xmas_elf::ElfFile;

/// The version tables of a file.
#[derive(Clone, Copy, Debug)]
pub struct Versions<'a> {
    numbers: Option<&'a [u8]>,
    definitions: Marked<'a>,
    needs: Records<'a>,
    // The versions in these tables as one list.
    ghost list: { (list : VersionList)
        × (list ≡ versions_in (tables_with numbers definitions.records needs)) } by { is_one_list },
}

impl<'a> Versions<'a> {
    ghost use Rattle.elf_linking.specs.VersionTables.{AreDefinitions, AreNeeds, definitions_in};
    ghost use Rattle.elf_linking.specs.VersionTables.{definitions_left, needs_in, needs_left};
    ghost use Rattle.elf_linking.specs.VersionTables.{version_tables_of};
    ghost use Rattle.elf_linking.specs.Versions.{version_tables};

    /// Reads the tables at the addresses in the entries VerSym, VerDef and VerNeed of the dynamic
    /// segment. A file can lack each table. As in glibc, one without VerDef and VerNeed has no
    /// numbers of symbols, and only `check` reads the numbers of records in VerDefNum and VerNeedNum.
    ///
    /// The number of symbols is that of `DynamicView::symbol_count`. Errors: those of `bytes_at`
    /// for two bytes a symbol at VerSym, `Address` if these are 2 to the 64 or more; those of
    /// `bytes_from` for VerDef and VerNeed.
    #[tactic(auto, unfolding(crate::specs::VersionTables::version_tables_of))]
    pub fn read(
        view: &DynamicView<'a>,
        file: &ElfFile<'a>,
        symbol_count: u64,
    ) -> Result<Versions<'a>, LinkError>
        ensures { let answer = version_tables_of file.now (view_entries view.now)
            (view_strings view.now) symbol_count in MatchResult result
            (λ versions. answer ≡ Ok (version_tables versions)) (λ error. answer ≡ Err error) }
    {
        let numbers = numbers_at(file, numbers_address(view), symbol_count)?;
        let definitions = records_by(view, file, DT_VERDEF, DT_VERDEFNUM)?;
        let needs = records_by(view, file, DT_VERNEED, DT_VERNEEDNUM)?;
        Ok(Versions {
            numbers,
            definitions: Marked::new(definitions),
            needs,
        })
    }

    /// An iterator over the versions that the file defines, in order, the base included.
    ///
    /// A record lies `next` bytes after the one before. As in glibc, the list ends after one whose
    /// `next` is 0, whatever the entry VerDefNum says. If a record extends past the end of its segment,
    /// the last item is the error `ShortVersion`. There are no more items than bytes from the table up
    /// to the end of its segment; each takes a fixed time.
    pub fn definitions(&self) -> Definitions<'a>
        ensures longest { AreDefinitions (version_tables self.now).definitions
            (definitions_left result) }
        ensures exact { definitions_left result
            ≡ definitions_in (version_tables self.now).definitions }
        ensures fits { length (definitions_left result) < 2 ^ 64 }
    {
        Definitions::new(self.definitions.records)
    }

    /// An iterator over the versions that the file needs of libraries, in order: the parts of each
    /// need, which names a library.
    ///
    /// Needs and parts are lists like that of `definitions`, whatever VerNeedNum and the number of
    /// parts in a need (vn_cnt) say, and the first record that is cut off ends the whole with the
    /// error `ShortVersion`. The last item is the error `VersionCount`, in place of a part, if there
    /// are more parts than the bytes from the table up to the end of its segment have room for, of 16
    /// bytes each. So the iterator reads at most one need and one part for each 16 of these bytes, and
    /// one more.
    pub fn needs(&self) -> Needs<'a>
        ensures longest { AreNeeds (version_tables self.now).needs (needs_left result) }
        ensures exact { needs_left result ≡ needs_in (version_tables self.now).needs }
        ensures fits { length (needs_left result) < 2 ^ 64 }
    {
        Needs::new(self.needs)
    }
}

// The address of the numbers of symbols, of a file that defines or needs versions.
fn numbers_address(view: &DynamicView<'_>) -> Option<u64>
    ensures { result ≡ numbers_address (view_entries view.now) }
{
    if view.entry(DT_VERDEF).is_none() && view.entry(DT_VERNEED).is_none() {
        return None;
    }
    view.entry(DT_VERSYM)
}

// The numbers of the symbols, of two bytes each.
fn numbers_at<'a>(
    file: &ElfFile<'a>,
    address: Option<u64>,
    count: u64,
) -> Result<Option<&'a [u8]>, LinkError>
    ensures { result_map (option_map (λ numbers. numbers.now)) result
        ≡ numbers_at file.now address count }
{
    let Some(address) = address else {
        return Ok(None);
    };
    if count >= 1 << 63 {
        return Err(LinkError::Address);
    }
    Ok(Some(bytes_at(file, address, count * 2)?))
}

// The records at the address in an entry, with the number that another tells.
fn records_by<'a>(
    view: &DynamicView<'a>,
    file: &ElfFile<'a>,
    at: u64,
    counted: u64,
) -> Result<Records<'a>, LinkError>
    ensures { result_map records_data result ≡ records_by file.now (view_strings view.now)
        (number_with at (view_entries view.now)) (number_with counted (view_entries view.now)) }
{
    let order = file.byte_order();
    let strings = view.strings();
    let Some(address) = view.entry(at) else {
        return Ok(Records {
            bytes: &[],
            told: Some(0),
            order,
            strings,
        });
    };
    Ok(Records {
        bytes: bytes_from(file, address)?,
        told: view.entry(counted),
        order,
        strings,
    })
}
