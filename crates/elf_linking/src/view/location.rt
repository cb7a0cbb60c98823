//! Where the tables of a file are.

ghost use Rattle.std.specs.Prelude.{◌≡◌};
ghost use Rattle.elf_linking.specs.DynamicView.{view_entries};
ghost use Rattle.elf_linking.specs.TableLocations.{table_but_zero, table_by};

use crate::view::DynamicView;

/// Where a table is by the entries of a dynamic segment.
#[derive(Clone, Copy, Debug, PartialEq, Eq)]
pub struct TableLocation {
    /// Its address, if there is an entry for it.
    pub start: Option<u64>,
    /// Its size in bytes, if it is known.
    pub size: Option<u64>,
}

impl DynamicView<'_> {
    /// The table whose address is in one entry, and whose size in another, such as `DT_RELA` and
    /// `DT_RELASZ`.
    pub fn table_by(&self, start: u64, size: u64) -> TableLocation
        ensures { result ≡ table_by (view_entries self.now) start size }
    {
        TableLocation {
            start: self.entry(start),
            size: self.entry(size),
        }
    }

    /// The table of `DT_RELA` or of `DT_REL`, by the entries for its address and its size in bytes:
    /// without a start if the address is 0, where glibc 2.36 applies none of its relocations.
    pub fn table_but_zero(&self, start: u64, size: u64) -> TableLocation
        ensures { result ≡ table_but_zero (view_entries self.now) start size }
    {
        TableLocation {
            start: self.entry(start).filter(|address| *address != 0),
            size: self.entry(size),
        }
    }
}
