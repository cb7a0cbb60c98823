//! Relocations (gABI, "Relocation").

ghost use Rattle.std.specs.Prelude.{◌≡◌};
ghost use Rattle.std.proofs.Common.{lit<};
ghost use Rattle.elf_records.specs.Relocations.{rel_32, rel_64, rel_info, rel_offset, rela_32};
ghost use Rattle.elf_records.specs.Relocations.{rela_64, rela_addend, rela_info, rela_offset};
ghost use Rattle.elf_records.specs.Relocations.{symbol_in_32, symbol_in_64, type_in_32, type_in_64};

use elf_base::bytes::{Order, Record, read_u32, read_u64};
use elf_base::{P32, P64};

/// A relocation whose addend is stored at the relocated location (gABI, "Relocation").
#[derive(Clone, Copy, Debug)]
pub struct Rel<P> {
    offset: P,
    info: P,
}

/// A relocation with an addend (gABI, "Relocation").
#[derive(Clone, Copy, Debug)]
pub struct Rela<P> {
    offset: P,
    info: P,
    addend: P,
}

impl Record for Rel<P32> {
    ghost SIZE = { 8 };

    const SIZE: usize = 8;

    ghost value = { rel_32 };

    ghost size_above_zero = { lit< tt };

    fn decode(bytes: &[u8], order: Order) -> Rel<P32> {
        Self {
            offset: read_u32(bytes, 0, order),
            info: read_u32(bytes, 4, order),
        }
    }
}

impl Record for Rel<P64> {
    ghost SIZE = { 16 };

    const SIZE: usize = 16;

    ghost value = { rel_64 };

    ghost size_above_zero = { lit< tt };

    fn decode(bytes: &[u8], order: Order) -> Rel<P64> {
        Self {
            offset: read_u64(bytes, 0, order),
            info: read_u64(bytes, 8, order),
        }
    }
}

impl Record for Rela<P32> {
    ghost SIZE = { 12 };

    const SIZE: usize = 12;

    ghost value = { rela_32 };

    ghost size_above_zero = { lit< tt };

    fn decode(bytes: &[u8], order: Order) -> Rela<P32> {
        Self {
            offset: read_u32(bytes, 0, order),
            info: read_u32(bytes, 4, order),
            addend: read_u32(bytes, 8, order),
        }
    }
}

impl Record for Rela<P64> {
    ghost SIZE = { 24 };

    const SIZE: usize = 24;

    ghost value = { rela_64 };

    ghost size_above_zero = { lit< tt };

    fn decode(bytes: &[u8], order: Order) -> Rela<P64> {
        Self {
            offset: read_u64(bytes, 0, order),
            info: read_u64(bytes, 8, order),
            addend: read_u64(bytes, 16, order),
        }
    }
}

// The symbol index in the info of class 32.
fn symbol_index_32(info: P32) -> u32
    ensures { result ≡ symbol_in_32 info }
{
    info / 256
}

// The relocation type in the info of class 32.
fn relocation_type_32(info: P32) -> u8
    ensures { result ≡ type_in_32 info }
{
    (info % 256) as u8
}

// The symbol index in the info of class 64.
fn symbol_index_64(info: P64) -> u32
    ensures { result ≡ symbol_in_64 info }
{
    (info / 0x1_0000_0000) as u32
}

// The relocation type in the info of class 64.
fn relocation_type_64(info: P64) -> u32
    ensures { result ≡ type_in_64 info }
{
    (info % 0x1_0000_0000) as u32
}

impl<P: Copy> Rel<P> {
    /// The location to relocate: an offset in a section, or a virtual address.
    pub fn get_offset(&self) -> P
        ensures { result ≡ rel_offset self.now }
    {
        self.offset
    }
}

impl Rel<P32> {
    /// The index of its symbol in the symbol table.
    pub fn get_symbol_table_index(&self) -> u32
        ensures { result ≡ symbol_in_32 (rel_info self.now) }
    {
        symbol_index_32(self.info)
    }

    /// The relocation type, which is processor-specific.
    pub fn get_type(&self) -> u8
        ensures { result ≡ type_in_32 (rel_info self.now) }
    {
        relocation_type_32(self.info)
    }
}

impl Rel<P64> {
    /// The index of its symbol in the symbol table.
    pub fn get_symbol_table_index(&self) -> u32
        ensures { result ≡ symbol_in_64 (rel_info self.now) }
    {
        symbol_index_64(self.info)
    }

    /// The relocation type, which is processor-specific.
    pub fn get_type(&self) -> u32
        ensures { result ≡ type_in_64 (rel_info self.now) }
    {
        relocation_type_64(self.info)
    }
}

impl<P: Copy> Rela<P> {
    /// The location to relocate: an offset in a section, or a virtual address.
    pub fn get_offset(&self) -> P
        ensures { result ≡ rela_offset self.now }
    {
        self.offset
    }

    /// The addend, as an unsigned number.
    pub fn get_addend(&self) -> P
        ensures { result ≡ rela_addend self.now }
    {
        self.addend
    }
}

impl Rela<P32> {
    /// The index of its symbol in the symbol table.
    pub fn get_symbol_table_index(&self) -> u32
        ensures { result ≡ symbol_in_32 (rela_info self.now) }
    {
        symbol_index_32(self.info)
    }

    /// The relocation type, which is processor-specific.
    pub fn get_type(&self) -> u8
        ensures { result ≡ type_in_32 (rela_info self.now) }
    {
        relocation_type_32(self.info)
    }
}

impl Rela<P64> {
    /// The index of its symbol in the symbol table.
    pub fn get_symbol_table_index(&self) -> u32
        ensures { result ≡ symbol_in_64 (rela_info self.now) }
    {
        symbol_index_64(self.info)
    }

    /// The relocation type, which is processor-specific.
    pub fn get_type(&self) -> u32
        ensures { result ≡ type_in_64 (rela_info self.now) }
    {
        relocation_type_64(self.info)
    }
}
