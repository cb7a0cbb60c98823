//! The ELF header, with which every file begins (gABI, "ELF Header").

ghost use Rattle.std.specs.Prelude.{◌≡◌, ◌↔◌, ◌==◌, ◌||◌, [], ◌∷◌, IfOk, IsOk, if◌then◌else◌};
ghost use Rattle.std.specs.Prelude.{length, nat_lt, not};
ghost use Rattle.elf_base.specs.FileHeader.{IsAccepted, class_number, class_of, encoding_number};
ghost use Rattle.elf_base.specs.FileHeader.{encoding_of, file_header, header_fields, header_of};
ghost use Rattle.elf_base.specs.FileHeader.{order_of, os_abi_number, os_abi_of, pt2_record};
ghost use Rattle.elf_base.specs.FileHeader.{pt2_size, version_number, version_of};
ghost use Rattle.elf_base.specs.FirstError.{unless};

mod layout;
mod numbers;
mod text;

use crate::bytes::{Order, Record};
use crate::header::Class::{SixtyFour, ThirtyTwo};
pub use crate::header::numbers::{
    Class, Class_, Data, Data_, Machine, Machine_, OsAbi, OsAbi_, Type, Type_, Version, Version_,
};
use crate::{ElfError, P32, P64};

/// `ELFMAG`: the four bytes that every ELF file begins with.
pub const MAGIC: [u8; 4] = [0x7f, b'E', b'L', b'F'];

/// The ELF header of a file, in two parts (gABI, "ELF Header").
#[derive(Clone, Copy, Debug)]
pub struct Header {
    /// The part that has one layout in both classes.
    pub pt1: HeaderPt1,
    /// The rest, in the layout of the file's class.
    pub pt2: HeaderPt2,
}

/// The first 16 bytes of a file (gABI, "ELF Header", e_ident).
#[derive(Clone, Copy, Debug)]
pub struct HeaderPt1 {
    /// `MAGIC` in every accepted file.
    pub magic: [u8; 4],
    /// The class: the width of addresses and offsets.
    pub class: Class_,
    /// The data encoding, whose meaning `data` returns.
    pub encoding: Data_,
    /// The version of the header.
    pub version: Version_,
    /// The operating system whose extensions the file uses.
    pub os_abi: OsAbi_,
    /// The version of the ABI that `os_abi` names.
    pub abi_version: u8,
    /// Padding, without a meaning.
    pub padding: [u8; 7],
}

/// The part of the header after the first 16 bytes, of either class (gABI, "ELF Header").
#[derive(Clone, Copy, Debug)]
pub enum HeaderPt2 {
    /// The 36 bytes of class 32.
    Header32(HeaderPt2_<P32>),
    /// The 48 bytes of class 64.
    Header64(HeaderPt2_<P64>),
}

/// Part 2 with addresses and offsets of type `P` (gABI, "ELF Header", Elf32_Ehdr and Elf64_Ehdr).
#[derive(Clone, Copy, Debug)]
pub struct HeaderPt2_<P> {
    /// The object file type.
    pub type_: Type_,
    /// The processor architecture.
    pub machine: Machine_,
    /// The version of the file.
    pub version: u32,
    /// The virtual address of the entry point, or 0.
    pub entry_point: P,
    /// The file offset of the program header table in bytes, or 0.
    pub ph_offset: P,
    /// The file offset of the section header table in bytes, or 0.
    pub sh_offset: P,
    /// Processor-specific flags.
    pub flags: u32,
    /// The size of the ELF header in bytes, as the header says.
    pub header_size: u16,
    /// The size of an entry of the program header table in bytes.
    pub ph_entry_size: u16,
    /// The number of entries of the program header table; 0xffff if section header 0 has the
    /// number.
    pub ph_count: u16,
    /// The size of an entry of the section header table in bytes.
    pub sh_entry_size: u16,
    /// The number of entries of the section header table; 0 if section header 0 has the number.
    pub sh_count: u16,
    /// The index of the section that contains the section names; 0xffff if section header 0 has the
    /// index.
    pub sh_str_index: u16,
}

impl HeaderPt1 {
    /// The class: the width of addresses and offsets.
    pub fn class(&self) -> Class
        ensures { result ≡ class_of (class_number self.now.class) }
    {
        self.class.as_class()
    }

    /// The data encoding: the byte order of the file.
    pub fn data(&self) -> Data
        ensures { result ≡ encoding_of (encoding_number self.now.encoding) }
    {
        self.encoding.as_data()
    }

    /// The version of the header.
    pub fn version(&self) -> Version
        ensures { result ≡ version_of (version_number self.now.version) }
    {
        self.version.as_version()
    }

    /// The operating system whose extensions the file uses.
    pub fn os_abi(&self) -> OsAbi
        ensures { result ≡ os_abi_of (os_abi_number self.now.os_abi) }
    {
        self.os_abi.as_os_abi()
    }
}

impl HeaderPt2_<P32> {
    // The part with the types of class 64.
    #[inline(always)]
    fn to_64(&self) -> HeaderPt2_<P64>
        ensures { result ≡ self.now }
    {
        HeaderPt2_ {
            type_: self.type_,
            machine: self.machine,
            version: self.version,
            entry_point: u64::from(self.entry_point),
            ph_offset: u64::from(self.ph_offset),
            sh_offset: u64::from(self.sh_offset),
            flags: self.flags,
            header_size: self.header_size,
            ph_entry_size: self.ph_entry_size,
            ph_count: self.ph_count,
            sh_entry_size: self.sh_entry_size,
            sh_count: self.sh_count,
            sh_str_index: self.sh_str_index,
        }
    }
}

impl HeaderPt2 {
    /// The size of this part in bytes: 36 or 48.
    pub fn size(&self) -> usize
        ensures { result ≡ pt2_size self.now }
    {
        match self {
            Self::Header32(_) => HeaderPt2_::<P32>::SIZE,
            Self::Header64(_) => HeaderPt2_::<P64>::SIZE,
        }
    }

    /// The object file type.
    pub fn type_(&self) -> Type_
        ensures { result ≡ (header_fields self.now).type_ }
    {
        match self {
            Self::Header32(part) => part.type_,
            Self::Header64(part) => part.type_,
        }
    }

    /// The processor architecture.
    pub fn machine(&self) -> Machine_
        ensures { result ≡ (header_fields self.now).machine }
    {
        match self {
            Self::Header32(part) => part.machine,
            Self::Header64(part) => part.machine,
        }
    }

    /// The version of the file.
    pub fn version(&self) -> u32
        ensures { result ≡ (header_fields self.now).version }
    {
        match self {
            Self::Header32(part) => part.version,
            Self::Header64(part) => part.version,
        }
    }

    /// The size of the ELF header in bytes, as the header says.
    pub fn header_size(&self) -> u16
        ensures { result ≡ (header_fields self.now).header_size }
    {
        match self {
            Self::Header32(part) => part.header_size,
            Self::Header64(part) => part.header_size,
        }
    }

    /// The virtual address of the entry point, or 0.
    pub fn entry_point(&self) -> u64
        ensures { result ≡ (header_fields self.now).entry_point }
    {
        match self {
            Self::Header32(part) => u64::from(part.entry_point),
            Self::Header64(part) => part.entry_point,
        }
    }

    /// The file offset of the program header table in bytes, or 0.
    pub fn ph_offset(&self) -> u64
        ensures { result ≡ (header_fields self.now).ph_offset }
    {
        match self {
            Self::Header32(part) => u64::from(part.ph_offset),
            Self::Header64(part) => part.ph_offset,
        }
    }

    /// The file offset of the section header table in bytes, or 0.
    pub fn sh_offset(&self) -> u64
        ensures { result ≡ (header_fields self.now).sh_offset }
    {
        match self {
            Self::Header32(part) => u64::from(part.sh_offset),
            Self::Header64(part) => part.sh_offset,
        }
    }

    /// The size of an entry of the program header table in bytes.
    pub fn ph_entry_size(&self) -> u16
        ensures { result ≡ (header_fields self.now).ph_entry_size }
    {
        match self {
            Self::Header32(part) => part.ph_entry_size,
            Self::Header64(part) => part.ph_entry_size,
        }
    }

    /// The number of entries of the program header table; 0xffff if section header 0 has the
    /// number.
    pub fn ph_count(&self) -> u16
        ensures { result ≡ (header_fields self.now).ph_count }
    {
        match self {
            Self::Header32(part) => part.ph_count,
            Self::Header64(part) => part.ph_count,
        }
    }

    /// The size of an entry of the section header table in bytes.
    pub fn sh_entry_size(&self) -> u16
        ensures { result ≡ (header_fields self.now).sh_entry_size }
    {
        match self {
            Self::Header32(part) => part.sh_entry_size,
            Self::Header64(part) => part.sh_entry_size,
        }
    }

    /// The number of entries of the section header table; 0 if section header 0 has the number.
    pub fn sh_count(&self) -> u16
        ensures { result ≡ (header_fields self.now).sh_count }
    {
        match self {
            Self::Header32(part) => part.sh_count,
            Self::Header64(part) => part.sh_count,
        }
    }

    /// The index of the section that contains the section names; 0xffff if section header 0 has the
    /// index.
    pub fn sh_str_index(&self) -> u16
        ensures { result ≡ (header_fields self.now).sh_str_index }
    {
        match self {
            Self::Header32(part) => part.sh_str_index,
            Self::Header64(part) => part.sh_str_index,
        }
    }

    /// All fields of this part, in the types of class 64: what the other calls return one by one,
    /// and the flags. The class is asked for once.
    #[inline(always)]
    pub fn numbers(&self) -> HeaderPt2_<P64>
        ensures { result ≡ header_fields self.now }
    {
        match self {
            Self::Header32(part) => part.to_64(),
            Self::Header64(part) => *part,
        }
    }
}

/// The byte order for a data encoding: big-endian for 2, little-endian for any other number.
#[inline(always)]
pub fn byte_order(encoding: Data_) -> Order
    ensures { result ≡ order_of (encoding_number encoding) }
{
    match encoding.as_data() {
        Data::BigEndian => Order::Big,
        Data::None | Data::LittleEndian | Data::Other(_) => Order::Little,
    }
}

/// Reads the ELF header at the start of `input`.
///
/// Errors: `ShortPart1` if there are fewer than 16 bytes, `NoMagic` if they do not begin with
/// `MAGIC`, `InvalidClass` if the class is neither 1 nor 2, `ShortHeaders` if the input ends before
/// the header of that class does.
#[tactic(auto, unfolding(crate::specs::FileHeader::header_of))]
#[inline(always)]
pub fn parse_header(input: &[u8]) -> Result<Header, ElfError>
    ensures accepts { IsOk result ↔ IsAccepted input.now }
    ensures value { IfOk result (λ header. header ≡ file_header input.now) }
    ensures exact { result ≡ header_of input.now }
{
    if input.len() < HeaderPt1::SIZE {
        return Err(ElfError::ShortPart1);
    }
    let pt1 = HeaderPt1::read(input);
    if pt1.magic != MAGIC {
        return Err(ElfError::NoMagic);
    }
    // The byte order is chosen once for all fields.
    let pt2 = match byte_order(pt1.encoding) {
        Order::Little => read_pt2(input, pt1.class, Order::Little)?,
        Order::Big => read_pt2(input, pt1.class, Order::Big)?,
    };
    Ok(Header { pt1, pt2 })
}

// Part 2, in the layout of the class.
#[inline(always)]
fn read_pt2(input: &[u8], class: Class_, order: Order) -> Result<HeaderPt2, ElfError>
    ensures { result ≡ unless (
        (not (class_number class == 1 || class_number class == 2), ElfError.InvalidClass)
        ∷ (
          nat_lt (length input.now) (if class_number class == 1 then 52 else 64),
          ElfError.ShortHeaders,
        )
        ∷ []) (pt2_record (class_number class) order input.now) }
{
    match class.as_class() {
        ThirtyTwo => {
            if input.len() < HeaderPt1::SIZE + HeaderPt2_::<P32>::SIZE {
                return Err(ElfError::ShortHeaders);
            }
            let part = HeaderPt2_::<P32>::read(input, HeaderPt1::SIZE, order);
            Ok(HeaderPt2::Header32(part))
        }
        SixtyFour => {
            if input.len() < HeaderPt1::SIZE + HeaderPt2_::<P64>::SIZE {
                return Err(ElfError::ShortHeaders);
            }
            let part = HeaderPt2_::<P64>::read(input, HeaderPt1::SIZE, order);
            Ok(HeaderPt2::Header64(part))
        }
        _ => Err(ElfError::InvalidClass),
    }
}
