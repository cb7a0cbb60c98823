//! Whether an opened file is a library for a search (gABI, "ELF Header"), and whether such a file can
//! be loaded as one, as `ld.so` of glibc 2.36 decides on Debian.

ghost use Rattle.std.specs.Prelude.{◌≡◌, ◌≤◌, ◌||◌, ◌==◌, Err, Ok, length, not};
ghost use Rattle.elf_base.specs.FirstError.{and_then, unless};
ghost use Rattle.elf_library.specs.Fits.{are_headers_past, entry_size, first_row, fits_of};
ghost use Rattle.elf_library.specs.Fits.{given_count, given_offset, given_size, header_size};
ghost use Rattle.elf_library.specs.Fits.{ident_rows, is_abi, is_abi_version, is_elf};
ghost use Rattle.elf_library.specs.Fits.{is_ident_other, is_machine_other, is_padded, is_type};
ghost use Rattle.elf_library.specs.Fits.{header_of_library, is_version_other, later_rows, shape_rows};
ghost use Rattle.elf_library.specs.declared.fits.Fit.TheVariants.{Taken};

use crate::HeaderError;
use elf_base::bytes::{Order, read_u16, read_u32, read_u64};

/// What a search does with a file that was opened.
#[derive(Clone, Copy, Debug, PartialEq, Eq)]
pub enum Fit {
    /// The file is the one that is looked for; no other is tried.
    Taken,
    /// The file is for another class or machine, and the search goes on.
    PassedOver,
}

// The size of a file header of a class.
fn header_size(class: u8) -> usize
    ensures { result ≡ header_size class }
{
    if class == 1 { 52 } else { 64 }
}

// The size of a program header of a class.
fn entry_size(class: u8) -> u16
    ensures { result ≡ entry_size class }
{
    if class == 1 { 32 } else { 56 }
}

// Whether these are the first bytes of an ELF file.
fn is_elf(head: &[u8]) -> bool
    requires { 52 ≤ length head.now }
    ensures { result ≡ is_elf head.now }
{
    read_u32(head, 0, Order::Little) == 0x464c_457f
}

// Whether the ABI of the operating system is that of System V or of GNU.
fn is_abi(head: &[u8]) -> bool
    requires { 52 ≤ length head.now }
    ensures { result ≡ is_abi head.now }
{
    head[7] == 0 || head[7] == 3
}

// Whether the version of that ABI is one that glibc has.
fn is_abi_version(head: &[u8]) -> bool
    requires { 52 ≤ length head.now }
    ensures { result ≡ is_abi_version head.now }
{
    head[8] == 0 || (head[7] == 3 && head[8] < 4)
}

// Whether the bytes 9 to 15 are 0.
fn is_padded(head: &[u8]) -> bool
    requires { 52 ≤ length head.now }
    ensures { result ≡ is_padded head.now }
{
    head[9] == 0 && read_u16(head, 10, Order::Little) == 0 && read_u32(head, 12, Order::Little) == 0
}

// Whether the bytes 5 to 15 are those of a library, or why not.
fn check_ident(head: &[u8]) -> Result<(), HeaderError>
    requires { 52 ≤ length head.now }
    ensures { result ≡ unless (ident_rows head.now) tt }
{
    if head[5] != 1 {
        return Err(HeaderError::ByteOrder);
    }
    if head[6] != 1 {
        return Err(HeaderError::IdentVersion);
    }
    if !is_abi(head) {
        return Err(HeaderError::OsAbi);
    }
    if !is_abi_version(head) {
        return Err(HeaderError::AbiVersion);
    }
    if !is_padded(head) {
        return Err(HeaderError::Padding);
    }
    Ok(())
}

// Whether the machine is another.
fn is_machine_other(head: &[u8], machine: u16) -> bool
    requires { 52 ≤ length head.now }
    ensures { result ≡ is_machine_other machine head.now }
{
    read_u16(head, 18, Order::Little) != machine
}

// Whether the type is that of an executable or of a shared object.
fn is_type(head: &[u8]) -> bool
    requires { 52 ≤ length head.now }
    ensures { result ≡ is_type head.now }
{
    let kind = read_u16(head, 16, Order::Little);
    kind == 2 || kind == 3
}

// The size of a program header that the file gives.
fn given_size(head: &[u8], class: u8) -> u16
    requires { header_size class ≤ length head.now }
    ensures { result ≡ given_size class head.now }
{
    if class == 1 {
        read_u16(head, 42, Order::Little)
    } else {
        read_u16(head, 54, Order::Little)
    }
}

// The number of program headers.
fn given_count(head: &[u8], class: u8) -> u16
    requires { header_size class ≤ length head.now }
    ensures { result ≡ given_count class head.now }
{
    if class == 1 {
        read_u16(head, 44, Order::Little)
    } else {
        read_u16(head, 56, Order::Little)
    }
}

// The offset of the program headers.
fn given_offset(head: &[u8], class: u8) -> u64
    requires { header_size class ≤ length head.now }
    ensures { result ≡ given_offset class head.now }
{
    if class == 1 {
        u64::from(read_u32(head, 28, Order::Little))
    } else {
        read_u64(head, 32, Order::Little)
    }
}

// Whether the program headers extend past the end of the file.
fn are_headers_past(head: &[u8], len: u64, class: u8) -> bool
    requires { header_size class ≤ length head.now }
    ensures { result ≡ are_headers_past class len head.now }
{
    let offset = given_offset(head, class);
    let count = given_count(head, class);
    if count == 0 {
        return offset >= 1 << 63 && offset > len;
    }
    let size = u64::from(count) * u64::from(entry_size(class));
    offset > len || size > len - offset
}

// Whether the type and the program headers are those of a library, or why not.
fn check_shape(head: &[u8], len: u64, class: u8) -> Result<(), HeaderError>
    requires { header_size class ≤ length head.now }
    ensures { result ≡ unless (shape_rows class len head.now) tt }
{
    if !is_type(head) {
        return Err(HeaderError::Type);
    }
    if given_size(head, class) != entry_size(class) {
        return Err(HeaderError::EntrySize);
    }
    if are_headers_past(head, len, class) {
        return Err(HeaderError::FileData);
    }
    Ok(())
}

// Whether the version of the file is another than 1.
fn is_version_other(head: &[u8]) -> bool
    requires { 52 ≤ length head.now }
    ensures { result ≡ is_version_other head.now }
{
    read_u32(head, 20, Order::Little) != 1
}

// What follows from the tests of the rest of the header.
fn fits_later(head: &[u8], len: u64, class: u8, machine: u16) -> Result<Fit, HeaderError>
    requires { header_size class ≤ length head.now }
    ensures { result ≡ first_row (later_rows class machine head.now)
        (and_then (unless (shape_rows class len head.now) (tt {0})) (λ _. Ok Taken)) }
{
    if is_version_other(head) {
        return Err(HeaderError::Version);
    }
    if is_machine_other(head, machine) {
        return Ok(Fit::PassedOver);
    }
    match check_shape(head, len, class) {
        Ok(()) => Ok(Fit::Taken),
        Err(error) => Err(error),
    }
}

/// Whether the header of a file is that of a library for a program of the class and the machine that
/// it names itself: 32 if byte 4 is 1, otherwise 64. No file that `ElfFile::new` opens has another
/// number there than 1 or 2. `head` and `len` are as in `fits`, and so is the order of the errors.
pub fn check_header(head: &[u8], len: u64) -> Result<(), HeaderError>
    ensures { result ≡ header_of_library len head.now }
{
    if head.len() < 52 || head.len() < header_size(head[4]) {
        return Err(HeaderError::ShortFile);
    }
    if !is_elf(head) {
        return Err(HeaderError::Magic);
    }
    match check_ident(head) {
        Ok(()) => {}
        Err(error) => return Err(error),
    }
    if is_version_other(head) {
        return Err(HeaderError::Version);
    }
    check_shape(head, len, head[4])
}

/// Whether the file with these first bytes is the library that is looked for by a program of this
/// class (1 for 32 bits, 2 for 64) and this machine (e_machine).
///
/// `head` are the first 64 bytes of the file or more, or all that it has, and `len` is the number
/// of its bytes. The tests come in a fixed order, and the first that fails decides: a file of
/// another class is passed over whatever follows the class, and one for another machine before the
/// errors `ByteOrder` to `Padding`. The errors come in the order of `HeaderError`.
pub fn fits(head: &[u8], len: u64, class: u8, machine: u16) -> Result<Fit, HeaderError>
    ensures { result ≡ fits_of class machine len head.now }
{
    if head.len() < header_size(class) {
        return Err(HeaderError::ShortFile);
    }
    if !is_elf(head) {
        return Err(HeaderError::Magic);
    }
    if head[4] != class {
        return Ok(Fit::PassedOver);
    }
    match check_ident(head) {
        Ok(()) => fits_later(head, len, class, machine),
        Err(error) => {
            if is_machine_other(head, machine) {
                return Ok(Fit::PassedOver);
            }
            Err(error)
        }
    }
}
