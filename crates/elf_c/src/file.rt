//! A file: its header as numbers, and the number of its sections and segments.

ghost use Rattle.std.specs.Prelude.{◌≡◌, IfOk, Ok};
ghost use Rattle.elf_base.specs.FileHeader.{header_of};
ghost use Rattle.elf_base.specs.FirstError.{and_then};
ghost use Rattle.elf_c.specs.Parsed.{file_of, header_from, numbers_of, part_1, part_2_with};
ghost use Rattle.elf_c.specs.Records.{counts_of};
ghost use Rattle.elf_c.specs.Status.{Gives};
ghost use Rattle.xmas_elf.specs.Checks.{header_check};
ghost use Rattle.xmas_elf.specs.SectionHeader.{shstr_index_of};

use crate::status::give;
use elf_base::ElfError;
use elf_base::header::{
    Class_, Data_, Header, HeaderPt1, HeaderPt2, HeaderPt2_, MAGIC, Machine_, OsAbi_, Type_,
    Version_,
};
use xmas_elf::ElfFile;

/// The ELF header of a file, as numbers (gABI, "ELF Header").
///
/// `xmas_elf_open` fills it, and the calls for parts of the file take it,
/// so that the header is read once.
#[repr(C)]
#[derive(Clone, Copy, Debug)]
pub struct Parsed {
    /// The virtual address of the entry point, or 0.
    pub entry_point: u64,
    /// The file offset of the program header table in bytes, or 0.
    pub ph_offset: u64,
    /// The file offset of the section header table in bytes, or 0.
    pub sh_offset: u64,
    /// The version of the file.
    pub version: u32,
    /// Processor-specific flags.
    pub flags: u32,
    /// The object file type.
    pub type_: u16,
    /// The processor architecture.
    pub machine: u16,
    /// The size of the ELF header in bytes, as the header says.
    pub header_size: u16,
    /// The size of an entry of the program header table in bytes.
    pub ph_entry_size: u16,
    /// The number of entries of the program header table, or 0xffff.
    pub ph_count: u16,
    /// The size of an entry of the section header table in bytes.
    pub sh_entry_size: u16,
    /// The number of entries of the section header table, or 0.
    pub sh_count: u16,
    /// The index of the section that contains the section names, or 0xffff.
    pub sh_str_index: u16,
    /// 1 for class 32, 2 for class 64.
    pub class: u8,
    /// 2 for big-endian, any other number for little-endian.
    pub encoding: u8,
    /// The version of the header.
    pub header_version: u8,
    /// The operating system whose extensions the file uses.
    pub os_abi: u8,
    /// The version of the ABI that `os_abi` names.
    pub abi_version: u8,
    /// Padding, without a meaning.
    pub padding: [u8; 7],
}

/// The number of sections and segments of a file.
#[repr(C)]
#[derive(Clone, Copy, Debug)]
pub struct Counts {
    /// The number of sections.
    pub sections: u64,
    /// The number of segments.
    pub segments: u32,
}

impl Parsed {
    // The numbers of a header.
    #[inline(always)]
    fn of(header: &Header) -> Parsed
        ensures { result ≡ numbers_of header.now }
    {
        let first = &header.pt1;
        let second = header.pt2.numbers();
        Parsed {
            entry_point: second.entry_point,
            ph_offset: second.ph_offset,
            sh_offset: second.sh_offset,
            version: second.version,
            flags: second.flags,
            type_: second.type_.raw(),
            machine: second.machine.raw(),
            header_size: second.header_size,
            ph_entry_size: second.ph_entry_size,
            ph_count: second.ph_count,
            sh_entry_size: second.sh_entry_size,
            sh_count: second.sh_count,
            sh_str_index: second.sh_str_index,
            class: first.class.raw(),
            encoding: first.encoding.raw(),
            header_version: first.version.raw(),
            os_abi: first.os_abi.raw(),
            abi_version: first.abi_version,
            padding: by_bytes(first.padding),
        }
    }

    // Part 1 of the header with these numbers.
    #[inline(always)]
    fn first_part(&self) -> HeaderPt1
        ensures { result ≡ part_1 self.now }
    {
        HeaderPt1 {
            magic: MAGIC,
            class: Class_::from_raw(self.class),
            encoding: Data_::from_raw(self.encoding),
            version: Version_::from_raw(self.header_version),
            os_abi: OsAbi_::from_raw(self.os_abi),
            abi_version: self.abi_version,
            padding: self.padding,
        }
    }

    // Part 2 with this address and these offsets.
    #[inline(always)]
    fn second_part<P>(&self, entry_point: P, ph_offset: P, sh_offset: P) -> HeaderPt2_<P>
        ensures { result ≡ part_2_with self.now entry_point ph_offset sh_offset }
    {
        HeaderPt2_ {
            type_: Type_::from_raw(self.type_),
            machine: Machine_::from_raw(self.machine),
            version: self.version,
            entry_point,
            ph_offset,
            sh_offset,
            flags: self.flags,
            header_size: self.header_size,
            ph_entry_size: self.ph_entry_size,
            ph_count: self.ph_count,
            sh_entry_size: self.sh_entry_size,
            sh_count: self.sh_count,
            sh_str_index: self.sh_str_index,
        }
    }

    /// The file in `input` whose header has these numbers.
    #[inline(always)]
    pub(crate) fn file<'a>(&self, input: &'a [u8]) -> ElfFile<'a>
        ensures { result ≡ file_of input.entry self.now }
    {
        let pt2 = if self.class == 1
            && self.entry_point < 0x1_0000_0000
            && self.ph_offset < 0x1_0000_0000
            && self.sh_offset < 0x1_0000_0000
        {
            HeaderPt2::Header32(self.second_part(
                self.entry_point as u32,
                self.ph_offset as u32,
                self.sh_offset as u32,
            ))
        } else {
            HeaderPt2::Header64(self.second_part(self.entry_point, self.ph_offset, self.sh_offset))
        };
        let header = Header {
            pt1: self.first_part(),
            pt2,
        };
        ElfFile { input, header }
    }
}

// The same padding. As single bytes it needs no place in memory between `input` and `out`.
#[inline(always)]
fn by_bytes(padding: [u8; 7]) -> [u8; 7]
    ensures { result ≡ padding }
{
    let [first, second, third, fourth, fifth, sixth, last] = padding;
    [first, second, third, fourth, fifth, sixth, last]
}

// The numbers of the header of these bytes.
#[inline(always)]
fn read_header(input: &[u8]) -> Result<Parsed, ElfError>
    ensures exact { result ≡ and_then (header_of input.now) (λ header. Ok (numbers_of header)) }
    ensures opened { IfOk result (λ numbers. header_of input.now ≡ Ok (header_from numbers)) }
{
    let file = ElfFile::new(input)?;
    Ok(Parsed::of(&file.header))
}

// Stores the numbers of the header of these bytes.
#[inline(always)]
fn store_header(input: &[u8], out: &mut Parsed) -> u32
    ensures exact { Gives (and_then (header_of input.now) (λ header. Ok (numbers_of header)))
        out.old result out.new }
    ensures opened { result ≡ 0 → header_of input.now ≡ Ok (header_from out.new) }
{
    give(read_header(input), out)
}

// The same, compiled for every layout.
#[inline(never)]
fn store_any_header(input: &[u8], out: &mut Parsed) -> u32
    ensures exact { Gives (and_then (header_of input.now) (λ header. Ok (numbers_of header)))
        out.old result out.new }
    ensures opened { result ≡ 0 → header_of input.now ≡ Ok (header_from out.new) }
{
    store_header(input, out)
}

/// The header of the file in `input`; the errors are those of `ElfFile::new`. The calls that take
/// these numbers with the same bytes read the file that `ElfFile::new` returns.
#[unsafe(no_mangle)]
pub extern "C" fn xmas_elf_open(input: &[u8], out: &mut Parsed) -> u32
    ensures exact { Gives (and_then (header_of input.now) (λ header. Ok (numbers_of header)))
        out.old result out.new }
    ensures opened { result ≡ 0 → header_of input.now ≡ Ok (header_from out.new) }
{
    // Most files are of class 64 and little-endian. Where these bytes are known, the compiler
    // leaves out all other layouts, and copies most fields in groups.
    if input.len() >= 64 && input[4] == 2 && input[5] == 1 {
        store_header(input, out)
    } else {
        store_any_header(input, out)
    }
}

/// The number of sections and segments of the file; there are no errors.
#[unsafe(no_mangle)]
pub extern "C" fn xmas_elf_counts(input: &[u8], header: &Parsed, out: &mut Counts) -> u32
    ensures { Gives (Ok (counts_of (file_of input.entry header.now))) out.old result out.new }
{
    let file = header.file(input);
    let counts = Counts {
        sections: file.section_count(),
        segments: file.program_count(),
    };
    give(Ok::<Counts, ElfError>(counts), out)
}

/// The index of the section that contains the section names; the errors are those of
/// `ElfFile::shstr_index`.
#[unsafe(no_mangle)]
pub extern "C" fn xmas_elf_names_index(input: &[u8], header: &Parsed, out: &mut u32) -> u32
    ensures { Gives (shstr_index_of (file_of input.entry header.now)) out.old result out.new }
{
    give(header.file(input).shstr_index(), out)
}

/// Checks the header against the input; the errors are those of `header::sanity_check`.
#[unsafe(no_mangle)]
pub extern "C" fn xmas_elf_check_header(input: &[u8], header: &Parsed) -> u32
    ensures { Gives (header_check (file_of input.entry header.now)) tt result tt }
{
    give(xmas_elf::header::sanity_check(&header.file(input)), &mut ())
}
