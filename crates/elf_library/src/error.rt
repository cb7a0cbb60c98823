//! Why the header of a file is not that of a library.

/// Why the header of a file is not that of a library, in the order of glibc's tests. `elf_search` and
/// `elf_loading` have a text for each.
#[derive(Clone, Copy, Debug, PartialEq, Eq)]
pub enum HeaderError {
    /// The file has fewer bytes than a file header: 64, in class 32 52.
    ShortFile,
    /// The file does not begin with the four bytes of an ELF file.
    Magic,
    /// The byte order of the file is not little-endian.
    ByteOrder,
    /// The version in the first 16 bytes is not 1.
    IdentVersion,
    /// The ABI of the operating system is neither 0 nor 3 (GNU).
    OsAbi,
    /// The version of that ABI is neither 0 nor, of ABI 3, below 4.
    AbiVersion,
    /// One of the bytes 9 to 15 is not 0.
    Padding,
    /// The version of the file is not 1.
    Version,
    /// The type of the file is neither 2 (ET_EXEC) nor 3 (ET_DYN).
    Type,
    /// The program headers are not of 56 bytes, in class 32 32.
    EntrySize,
    /// The program headers extend past the end of the file.
    FileData,
}
