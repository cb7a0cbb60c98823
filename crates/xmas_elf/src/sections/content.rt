//! The contents of a section, by its type (gABI, "Sections").

ghost use Rattle.std.specs.Prelude.{◌≡◌, ◌↔◌, Ok, Err, IfOk, IsOkAnd, MatchResult};
ghost use Rattle.elf_base.specs.FileHeader.{file_class, file_order};
ghost use Rattle.xmas_elf.specs.SectionData.{IsSectionData};
ghost use Rattle.xmas_elf.specs.SectionHeader.{section_fields};

use crate::bytes::{Order, Table};
use crate::dynamic::Dynamic;
use crate::hash::HashTable;
use crate::header::Class::{SixtyFour, ThirtyTwo};
use crate::notes::first_note;
use crate::ranges::range_at;
use crate::sections::{NoteHeader, Rel, Rela, SectionHeader, ShType};
use crate::symbol_table::{DynEntry32, DynEntry64, Entry32, Entry64};
use crate::{ElfError, ElfFile, P32, P64};
use elf_base::bytes::read_u32;

/// The contents of a section, by its type; variants with 32 or 64 are for that class (gABI,
/// "Sections", sh_type).
#[derive(Debug, Drop)]
pub enum SectionData<'a> {
    /// `SHT_NULL`, `SHT_NOBITS`: no bytes.
    Empty,
    /// `SHT_PROGBITS`, `SHT_SHLIB` and all from `SHT_LOOS` on: uninterpreted bytes.
    Undefined(&'a [u8]),
    /// `SHT_STRTAB`: texts ended by zero bytes.
    StrArray(&'a [u8]),
    /// `SHT_INIT_ARRAY`, `SHT_FINI_ARRAY`, `SHT_PREINIT_ARRAY`: pointers to functions.
    FnArray32(Table<'a, u32>),
    /// `SHT_INIT_ARRAY`, `SHT_FINI_ARRAY`, `SHT_PREINIT_ARRAY`: pointers to functions.
    FnArray64(Table<'a, u64>),
    /// `SHT_SYMTAB`: symbols.
    SymbolTable32(Table<'a, Entry32>),
    /// `SHT_SYMTAB`: symbols.
    SymbolTable64(Table<'a, Entry64>),
    /// `SHT_DYNSYM`: symbols for dynamic linking.
    DynSymbolTable32(Table<'a, DynEntry32>),
    /// `SHT_DYNSYM`: symbols for dynamic linking.
    DynSymbolTable64(Table<'a, DynEntry64>),
    /// `SHT_SYMTAB_SHNDX`: section indices of symbols that need more than 16 bits.
    SymTabShIndex(Table<'a, u32>),
    /// `SHT_NOTE`: the header of the first note, and all bytes after it.
    Note64(NoteHeader, &'a [u8]),
    /// `SHT_RELA`: relocations with addends.
    Rela32(Table<'a, Rela<P32>>),
    /// `SHT_RELA`: relocations with addends.
    Rela64(Table<'a, Rela<P64>>),
    /// `SHT_REL`: relocations without addends.
    Rel32(Table<'a, Rel<P32>>),
    /// `SHT_REL`: relocations without addends.
    Rel64(Table<'a, Rel<P64>>),
    /// `SHT_DYNAMIC`: the dynamic section.
    Dynamic32(Table<'a, Dynamic<P32>>),
    /// `SHT_DYNAMIC`: the dynamic section.
    Dynamic64(Table<'a, Dynamic<P64>>),
    /// `SHT_GROUP`: a group of sections.
    Group {
        /// The flags of the group, such as `GRP_COMDAT`.
        flags: u32,
        /// The section indices of its members.
        indicies: Table<'a, u32>,
    },
    /// `SHT_HASH`: a hash table of symbols.
    HashTable(HashTable<'a>),
}

impl SectionHeader {
    ghost use Rattle.xmas_elf.specs.Content.{IsReadFrom};
    ghost use Rattle.xmas_elf.specs.Place.{PartLies, section_part};
    ghost use Rattle.xmas_elf.specs.SectionContent.{section_content, section_content_of};
    ghost use Rattle.xmas_elf.specs.Shapes.{HasShape, Shape, shape};

    /// The contents of the section, by its type, in the class and byte order of the file. They live
    /// as long as the input.
    ///
    /// `Empty` for types Null and NoBits, whatever their offset and size. Errors: `InvalidShType`;
    /// `DataRange` if the data extends past the end of the input. For tables: `UnknownClass` if
    /// their records depend on the class and it is neither 1 nor 2, `NotMultiple` if they are not a
    /// whole number of records. For groups: `ShortData` if there are fewer than 4 bytes,
    /// `NotMultiple`. For notes: `Note32` in class 1, `UnknownClass`, and `ShortData` if there are
    /// fewer than 12 bytes. For hash tables: `ShortData` if there are fewer than 12 bytes.
    #[tactic(auto, unfolding(crate::specs::SectionContent::section_content_of))]
    #[inline(always)]
    pub fn get_data<'a>(&self, file: &ElfFile<'a>) -> Result<SectionData<'a>, ElfError>
        ensures readable { (wanted : Shape)
            → IsOkAnd result (λ d. shape (section_content d) ≡ wanted)
            ↔ HasShape file.now self.now wanted }
        ensures exact { MatchResult result
            (λ d. section_content_of file.now self.now ≡ Ok (section_content d))
            (λ e. section_content_of file.now self.now ≡ Err e) }
        ensures holds { IfOk result (λ d. IsReadFrom (IsSectionData file.now self.now)
            (file_order file.now.header) (section_content d)) }
        ensures place { IfOk result (λ d.
            PartLies file.now.input (section_fields self.now).offset (section_part d)) }
    {
        match self.get_type()? {
            ShType::Null | ShType::NoBits => Ok(SectionData::Empty),
            kind => {
                let bytes = range_at(file.input, self.offset(), self.size())?;
                SectionData::read(kind, file, bytes)
            }
        }
    }
}

impl<'a> SectionData<'a> {
    ghost use Rattle.xmas_elf.specs.SectionContent.{section_content, content_of_section};
    ghost use Rattle.xmas_elf.specs.Content.{group_content};
    ghost use Rattle.xmas_elf.specs.Place.{PartLies, section_part};

    // The contents in `bytes` of a section of this type, which is not Null or NoBits.
    #[inline(always)]
    fn read(kind: ShType, file: &ElfFile<'a>, bytes: &'a [u8]) -> Result<SectionData<'a>, ElfError>
        ensures exact { MatchResult result
            (λ d. content_of_section kind (file_class file.now.header) (file_order file.now.header)
            bytes.now ≡ Ok (section_content d))
            (λ e. content_of_section kind (file_class file.now.header) (file_order file.now.header)
            bytes.now ≡ Err e) }
        ensures place { IfOk result (λ d. PartLies bytes.entry 0 (section_part d)) }
    {
        let order = file.byte_order();
        // One `match`, though dear to prove: a function for each kind takes more instructions.
        match (kind, file.header.pt1.class()) {
            (ShType::StrTab, _) => Ok(Self::StrArray(bytes)),
            (ShType::SymTab, ThirtyTwo) => Table::new(bytes, order).map(Self::SymbolTable32),
            (ShType::SymTab, SixtyFour) => Table::new(bytes, order).map(Self::SymbolTable64),
            (ShType::DynSym, ThirtyTwo) => Table::new(bytes, order).map(Self::DynSymbolTable32),
            (ShType::DynSym, SixtyFour) => Table::new(bytes, order).map(Self::DynSymbolTable64),
            (ShType::InitArray | ShType::FiniArray | ShType::PreInitArray, ThirtyTwo) => {
                Table::new(bytes, order).map(Self::FnArray32)
            }
            (ShType::InitArray | ShType::FiniArray | ShType::PreInitArray, SixtyFour) => {
                Table::new(bytes, order).map(Self::FnArray64)
            }
            (ShType::Rela, ThirtyTwo) => Table::new(bytes, order).map(Self::Rela32),
            (ShType::Rela, SixtyFour) => Table::new(bytes, order).map(Self::Rela64),
            (ShType::Rel, ThirtyTwo) => Table::new(bytes, order).map(Self::Rel32),
            (ShType::Rel, SixtyFour) => Table::new(bytes, order).map(Self::Rel64),
            (ShType::Dynamic, ThirtyTwo) => Table::new(bytes, order).map(Self::Dynamic32),
            (ShType::Dynamic, SixtyFour) => Table::new(bytes, order).map(Self::Dynamic64),
            (ShType::SymTabShIndex, _) => Table::new(bytes, order).map(Self::SymTabShIndex),
            (ShType::Group, _) => Self::group(bytes, order),
            (ShType::Note, _) => {
                let (header, body) = first_note(file, bytes)?;
                Ok(Self::Note64(header, body))
            }
            (ShType::Hash, _) => HashTable::read(bytes, order).map(Self::HashTable),
            (
                ShType::Null
                | ShType::NoBits
                | ShType::ProgBits
                | ShType::ShLib
                | ShType::OsSpecific(_)
                | ShType::ProcessorSpecific(_)
                | ShType::User(_),
                _,
            ) => Ok(Self::Undefined(bytes)),
            _ => Err(ElfError::UnknownClass),
        }
    }

    // A group of sections.
    #[inline(always)]
    fn group(bytes: &'a [u8], order: Order) -> Result<SectionData<'a>, ElfError>
        ensures exact { MatchResult result
            (λ d. group_content order bytes.now ≡ Ok (section_content d))
            (λ e. group_content order bytes.now ≡ Err e) }
        ensures place { IfOk result (λ d. PartLies bytes.entry 0 (section_part d)) }
    {
        if bytes.len() < 4 {
            return Err(ElfError::ShortData);
        }
        Ok(Self::Group {
            flags: read_u32(bytes, 0, order),
            indicies: Table::new(&bytes[4..], order)?,
        })
    }
}
