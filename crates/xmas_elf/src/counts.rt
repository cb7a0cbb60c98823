//! The number of sections and segments of a file, and the section that contains the section names
//! (gABI, "ELF Header").

ghost use Rattle.std.specs.Prelude.{◌≡◌};
ghost use Rattle.elf_base.specs.FileHeader.{class_number, header_fields};
ghost use Rattle.xmas_elf.specs.SectionHeader.{first_by, first_section, program_count_of};
ghost use Rattle.xmas_elf.specs.SectionHeader.{section_count_of, shstr_index_of};

use crate::bytes::Order;
use crate::header::{Class_, HeaderPt2_};
use crate::ranges::entry_at;
use crate::sections::{SHN_LORESERVE, SHN_XINDEX, SectionHeader, read_at_place};
use crate::{ElfError, ElfFile, P64};

// PN_XNUM: the number of program headers is in section header 0.
pub(crate) const PN_XNUM: u16 = 0xffff;

impl ElfFile<'_> {
    /// The number of sections: that of the ELF header, or if it is 0, the size of section header 0;
    /// 0 if section header 0 cannot be read (gABI, "ELF Header", e_shnum).
    #[inline(always)]
    pub fn section_count(&self) -> u64
        ensures { result ≡ section_count_of self.now }
    {
        self.section_count_by(&self.header.pt2.numbers())
    }

    // The same, by the fields of part 2.
    #[tactic(auto, unfolding(crate::specs::SectionHeader::section_count_of))]
    #[inline(always)]
    pub(crate) fn section_count_by(&self, part: &HeaderPt2_<P64>) -> u64
        requires { part.now ≡ header_fields self.now.header.pt2 }
        ensures { result ≡ section_count_of self.now }
    {
        match part.sh_count {
            0 => self.first_section(part).map_or(0, |first| first.size()),
            count => u64::from(count),
        }
    }

    /// The number of segments: that of the ELF header, or if it is 0xffff, the info of section
    /// header 0; 0xffff if section header 0 cannot be read (gABI, "ELF Header", e_phnum).
    #[inline(always)]
    pub fn program_count(&self) -> u32
        ensures { result ≡ program_count_of self.now }
    {
        self.program_count_by(&self.header.pt2.numbers())
    }

    // The same, by the fields of part 2.
    #[tactic(auto, unfolding(crate::specs::SectionHeader::program_count_of))]
    #[inline(always)]
    pub(crate) fn program_count_by(&self, part: &HeaderPt2_<P64>) -> u32
        requires { part.now ≡ header_fields self.now.header.pt2 }
        ensures { result ≡ program_count_of self.now }
    {
        match part.ph_count {
            PN_XNUM => {
                let wide = self.first_section(part).map(|first| first.info());
                wide.unwrap_or(u32::from(PN_XNUM))
            }
            count => u32::from(count),
        }
    }

    /// The index of the section that contains the section names: that of the ELF header, or if it
    /// is 0xffff, the link of section header 0 (gABI, "ELF Header", e_shstrndx).
    ///
    /// Error: `ReservedIndex` for 0xff00 to 0xfffe,
    /// and for 0xffff if section header 0 cannot be read.
    #[tactic(auto, unfolding(crate::specs::SectionHeader::shstr_index_of))]
    #[inline(always)]
    pub fn shstr_index(&self) -> Result<u32, ElfError>
        ensures { result ≡ shstr_index_of self.now }
    {
        match self.header.pt2.sh_str_index() {
            SHN_XINDEX => {
                let part = self.header.pt2.numbers();
                let link = self.first_section(&part).map(|first| first.link());
                link.ok_or(ElfError::ReservedIndex)
            }
            index if index >= SHN_LORESERVE => Err(ElfError::ReservedIndex),
            index => Ok(u32::from(index)),
        }
    }

    // Section header 0, if there is a section header table and it can be read.
    #[tactic(auto, unfolding(crate::specs::SectionHeader::first_section, crate::specs::SectionHeader::section_entry))]
    #[inline(always)]
    fn first_section(&self, part: &HeaderPt2_<P64>) -> Option<SectionHeader>
        requires { part.now ≡ header_fields self.now.header.pt2 }
        ensures { result ≡ first_section self.now }
    {
        let order = self.byte_order();
        let class = self.header.pt1.class;
        first_at(self.input, part.sh_offset, part.sh_entry_size, class, order)
    }
}

// Section header 0 of the table at an offset, if the offset is not 0 and the header can be read.
// It takes numbers, so that the caller need not store its file in memory: this case is rare.
#[cold]
#[inline(never)]
pub(crate) fn first_at(
    input: &[u8],
    offset: u64,
    entry_size: u16,
    class: Class_,
    order: Order,
) -> Option<SectionHeader>
    ensures { result ≡ first_by input.now offset entry_size (class_number class) order }
{
    if offset == 0 {
        return None;
    }
    let place = entry_at(input, offset, entry_size, 0)?;
    read_at_place(input, place, entry_size, class, order).ok()
}
