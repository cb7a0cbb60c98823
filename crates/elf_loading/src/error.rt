//! Why a file can't be loaded, or its words can't be written.

ghost use Rattle.std.specs.Prelude.{◌≡◌, ◌<◌, IfSome, Some};
ghost use Rattle.elf_loading.specs.Message.{load_message, load_number};

use elf_linking::LinkError;
use std::error::Error;
use std::fmt;

/// Why a file can't be loaded, or its words can't be written. Each error has one text.
///
/// Those from `Type` to `Entry` are of `LoadPlan::check_load`, which returns the first that applies in
/// this order; those from `FileSize` to `Zeros` are of one load segment, and of several such segments
/// the first decides. `LoadPlan::check_load_by` has an order of its own, and of Linux or glibc alone
/// some of these errors mean something else: what is said of them below. Those from `Dynamic` to `WordInTable` are of `LoadScope::check_image`, which
/// lists their order: one table after the other, then one word after the other.
#[derive(Clone, Copy, Debug, PartialEq, Eq)]
pub enum LoadError {
    /// The type of the file is neither 2 (ET_EXEC) nor 3 (ET_DYN).
    Type,
    /// The entries of the program header table are not of 56 bytes (class 32: 32).
    EntrySize,
    /// The program header table has no entry, or more bytes than a page or than 65,536. Of Linux: more
    /// than 65,536.
    Count,
    /// The program header table extends past the end of the file.
    Table,
    /// A load segment has more bytes in the file than in memory. Of glibc: its bytes extend past the
    /// pages from the first load segment to the last.
    FileSize,
    /// The first load segment has no bytes in the file, or one has none in memory and begins inside
    /// a page. Of Linux: the file is of type 3, and no load segment has memory.
    Empty,
    /// The address and the offset of a load segment differ modulo the page size. Of Linux: and it has
    /// bytes in the file.
    Misaligned,
    /// The alignment of a load segment is neither 0 nor a power of two.
    Alignment,
    /// The pages of a load segment extend past the limit, or it begins there. Of glibc: from the first
    /// load segment to the end of the last there are no bytes, or too many for the limit and for the
    /// alignments.
    Range,
    /// The bytes of a load segment extend past the end of the file; or it has none, begins inside a
    /// page, and its page of the file is past the end. Of Linux and glibc: the pages extend past the
    /// offsets that a file can have, or zeros begin in a page of the file past its end.
    Data,
    /// The first page of a load segment is before the end of the pages of the one before it. Of glibc:
    /// the last begins before the end of the first, or one is not between these two.
    Overlap,
    /// A load segment has more bytes in memory than in the file, and is not both readable and
    /// writable.
    Zeros,
    /// The file has no load segment.
    NoLoad,
    /// The last PT_PHDR has another address than the one at which the load segments put the program
    /// header table; or there is none, and the file is of type 3 and has a PT_INTERP.
    Headers,
    /// The path of the first PT_INTERP has fewer than 2 bytes or more than 4096, extends past the
    /// end of the file, or does not end with a zero.
    Interpreter,
    /// A page of the last PT_GNU_RELRO is in no load segment. Of glibc: it is outside of the pages from
    /// the first load segment to the last.
    Relro,
    /// The last PT_TLS that is not empty has more bytes in the file than in memory, has an alignment
    /// that is no power of two, or has bytes that are not in the memory of one load segment. Of glibc:
    /// the alignment is 0, or the bytes are not in the pages of one load segment.
    Tls,
    /// A file without a PT_INTERP has an entry point at the limit or past it; the base is not counted.
    Entry,
    /// The length of an image is not that of the span, or there are not as many places or images as
    /// objects. Returned by `LoadPlan::fill` and `LoadScope::relocate`.
    ImageSize,
    /// The bytes of the dynamic segment are not in the file for a readable load segment, or the
    /// segment is writable and that load segment is not.
    Dynamic,
    /// There is no entry DT_STRTAB or DT_SYMTAB, no DT_VERSYM although there is a DT_VERDEF or a
    /// DT_VERNEED, or no DT_PLTGOT although slots get their symbols later: glibc crashes.
    NoEntry,
    /// A file of class 64 has relocations without addends (DT_REL, or DT_PLTREL is DT_REL): glibc
    /// doesn't apply the former, and ends with an assertion for the latter.
    NoAddends,
    /// A file of class 32 has relocations with addends (DT_RELA, or DT_PLTREL is DT_RELA): glibc adds
    /// these where the supplement of 386 has none, applies them after those of DT_REL, and binds no
    /// slot later.
    Addends,
    /// There is a DT_PLTREL and no DT_JMPREL: glibc reads the table at address 0.
    NoSlots,
    /// The first word at DT_RELR is odd, a bitmap: glibc has no address for it.
    FirstPacked,
    /// DT_RELACOUNT or DT_RELCOUNT is above the number of relative relocations that its table begins
    /// with, without those of the procedure linkage table: glibc ends with an assertion, or takes the
    /// others, and records past the table, for relative ones.
    RelativeCount,
    /// A relocation of the procedure linkage table is neither a jump slot nor a descriptor, and doesn't
    /// write what a function returns; and the file doesn't ask for its symbols before it runs: glibc
    /// loads it only with LD_BIND_NOW.
    SlotType,
    /// The entry with the size of a relocation (DT_RELAENT, DT_RELENT, DT_RELRENT) has another number
    /// than the class has, or is missing.
    RelocationSize,
    /// The size of a table of relocations is not a multiple of the size of a relocation.
    NotMultiple,
    /// The bytes of a table of the dynamic segment are not in the file for a readable load segment, or
    /// no entry says how many there are.
    Unreadable,
    /// The relocations of the procedure linkage table are neither those of DT_RELA nor of DT_REL.
    SlotKind,
    /// The machine is not x86-64 or AArch64 in class 64, and not 386 in class 32.
    Machine,
    /// There are fewer bits for marks than the load segments have bytes.
    FewMarks,
    /// The machine has no such relocation type, or glibc doesn't apply it. Also the error of a word.
    WordType,
    /// A relocation writes the size of a symbol that no object has: glibc crashes. Also the error of a
    /// word.
    NoSize,
    /// A relocation copies bytes at an absolute address, or where an indirect function returns. Also
    /// the error of a word.
    CopyKind,
    /// A relocation that writes what a function returns names a symbol: glibc looks it up, and ends if
    /// it is strong and no object has it. Also the error of a word.
    CallSymbol,
    /// The bytes of a word are not in the memory of one load segment; in `LoadScope::relocate`, not in
    /// the image.
    WordAddress,
    /// The load segment of a word is not writable, and the file does not ask for writes there
    /// (DT_TEXTREL).
    ReadOnly,
    /// A byte of a word is also one of an earlier word.
    WordsOverlap,
    /// A byte of a word is also one of the dynamic segment or of a table that a dynamic linker reads
    /// while it relocates.
    WordInTable,
    /// No object has the symbol of a relocation, and the symbol is not weak. Returned by
    /// `LoadScope::relocate`.
    Unresolved,
    /// The bytes that a relocation copies are not in the image of their object. Returned by
    /// `LoadScope::relocate`.
    CopySource,
    /// The byte order of a library is not little-endian. Returned by
    /// `LoadPlan::check_load_by`.
    ByteOrder,
    /// The version in the first 16 bytes of a library is not 1. Returned by
    /// `LoadPlan::check_load_by`.
    IdentVersion,
    /// The ABI of the operating system of a library is neither 0 nor 3 (GNU). Returned by
    /// `LoadPlan::check_load_by`.
    OsAbi,
    /// The version of that ABI is neither 0 nor, of ABI 3, below 4. Returned by
    /// `LoadPlan::check_load_by`.
    AbiVersion,
    /// One of the bytes 9 to 15 of a library is not 0. Returned by
    /// `LoadPlan::check_load_by`.
    Padding,
    /// The version of a library is not 1. Returned by
    /// `LoadPlan::check_load_by`.
    Version,
    /// A library is of type 2 (ET_EXEC). Returned by
    /// `LoadPlan::check_load_by`.
    Executable,
    /// A library has no dynamic segment, one without bytes in the file, or the last is at address 0.
    /// Returned by `LoadPlan::check_load_by`.
    NoDynamic,
    /// A part of the file, a name, a version or a word in place can't be read.
    Link(LinkError),
}

// All errors but those in `Link`.
const ERRORS: [LoadError; 51] = [
    LoadError::Type,
    LoadError::EntrySize,
    LoadError::Count,
    LoadError::Table,
    LoadError::FileSize,
    LoadError::Empty,
    LoadError::Misaligned,
    LoadError::Alignment,
    LoadError::Range,
    LoadError::Data,
    LoadError::Overlap,
    LoadError::Zeros,
    LoadError::NoLoad,
    LoadError::Headers,
    LoadError::Interpreter,
    LoadError::Relro,
    LoadError::Tls,
    LoadError::ImageSize,
    LoadError::Dynamic,
    LoadError::NoEntry,
    LoadError::RelocationSize,
    LoadError::NotMultiple,
    LoadError::Unreadable,
    LoadError::SlotKind,
    LoadError::Machine,
    LoadError::FewMarks,
    LoadError::WordType,
    LoadError::WordAddress,
    LoadError::ReadOnly,
    LoadError::WordsOverlap,
    LoadError::WordInTable,
    LoadError::Unresolved,
    LoadError::CopySource,
    LoadError::ByteOrder,
    LoadError::IdentVersion,
    LoadError::OsAbi,
    LoadError::AbiVersion,
    LoadError::Padding,
    LoadError::Version,
    LoadError::Executable,
    LoadError::NoDynamic,
    LoadError::Entry,
    LoadError::NoAddends,
    LoadError::NoSlots,
    LoadError::FirstPacked,
    LoadError::RelativeCount,
    LoadError::SlotType,
    LoadError::NoSize,
    LoadError::CopyKind,
    LoadError::CallSymbol,
    LoadError::Addends,
];

impl LoadError {
    ghost use Rattle.elf_loading.specs.declared.error.LoadError.{LoadError};

    /// The number of the error, which never changes; for `Link` that of the inner error, which is
    /// below 300.
    pub fn number(&self) -> u32
        ensures { result ≡ load_number self.now }
    {
        self.row().0
    }

    /// The text of the error; for `Link` that of the inner error.
    pub fn message(&self) -> &'static str
        ensures { result.now ≡ load_message self.now }
    {
        self.row().1
    }

    /// The error with this number. `None` if no error has it, and for the number of a `LinkError`,
    /// which is below 300.
    pub fn with_number(number: u32) -> Option<LoadError>
        ensures own { IfSome result (λ error. (300 < number) × (load_number error ≡ number)) }
        ensures only { (error : LoadError) → load_number error ≡ number → 300 < number
            → result ≡ Some error }
    {
        if number <= 300 {
            return None;
        }
        ERRORS
            .iter()
            .find(|error| error.number() == number)
            .copied()
    }

    // The number and the text.
    fn row(&self) -> (u32, &'static str)
        ensures number { result.0 ≡ load_number self.now }
        ensures text { result.1.now ≡ load_message self.now }
    {
        match self {
            LoadError::Type => (301, "Type is neither executable nor shared object"),
            LoadError::EntrySize => (302, "Program headers are not of the size of the class"),
            LoadError::Count => (303, "Program header table is empty or larger than a page"),
            LoadError::Table => (304, "Program header table is past the end of the file"),
            LoadError::FileSize => (305, "Load segment is larger in the file than in memory"),
            LoadError::Empty => (306, "Load segment is empty"),
            LoadError::Misaligned => (
                307,
                "Address and offset of a load segment differ modulo the page size",
            ),
            LoadError::Alignment => (308, "Alignment of a load segment is not a power of two"),
            LoadError::Range => (309, "Load segment is past the address limit"),
            LoadError::Data => (310, "Load segment is past the end of the file"),
            LoadError::Overlap => (
                311,
                "Load segment begins before the end of the one before it",
            ),
            LoadError::Zeros => (
                312,
                "Load segment has zeros but is not readable and writable",
            ),
            LoadError::NoLoad => (313, "No load segment"),
            LoadError::Headers => (
                314,
                "Program headers are not where the file says they are in memory",
            ),
            LoadError::Interpreter => (315, "Path of the interpreter is not valid"),
            LoadError::Relro => (
                316,
                "Part that is read-only after relocation is in no load segment",
            ),
            LoadError::Tls => (317, "Thread-local storage is not valid"),
            LoadError::ImageSize => (318, "Image is not of the size of the span"),
            LoadError::Dynamic => (319, "Dynamic segment is in no readable load segment"),
            LoadError::NoEntry => (320, "No string table or no symbols"),
            LoadError::RelocationSize => (321, "Size of relocations is not that of the class"),
            LoadError::NotMultiple => (322, "Table of relocations is not a whole number of them"),
            LoadError::Unreadable => (
                323,
                "Table of the dynamic segment is in no readable load segment",
            ),
            LoadError::SlotKind => (
                324,
                "Kind of relocations of the procedure linkage table is neither Rel nor Rela",
            ),
            LoadError::Machine => (325, "Machine is not supported"),
            LoadError::FewMarks => (
                326,
                "Marks have fewer bits than the load segments have bytes",
            ),
            LoadError::WordType => (327, "Type of a relocation is not supported"),
            LoadError::WordAddress => (328, "Word is in no load segment"),
            LoadError::ReadOnly => (329, "Word is in a load segment that is not writable"),
            LoadError::WordsOverlap => (330, "Words overlap"),
            LoadError::WordInTable => (331, "Word is in a table of the dynamic segment"),
            LoadError::Unresolved => (332, "Symbol is in no object"),
            LoadError::CopySource => (333, "Bytes to copy are not in the image of their object"),
            LoadError::ByteOrder => (334, "Byte order is not little-endian"),
            LoadError::IdentVersion => (335, "Version in the first bytes is not 1"),
            LoadError::OsAbi => (
                336,
                "ABI of the operating system is neither System V nor GNU",
            ),
            LoadError::AbiVersion => (337, "Version of the ABI is not known"),
            LoadError::Padding => (338, "Bytes 9 to 15 are not zero"),
            LoadError::Version => (339, "Version of the file is not 1"),
            LoadError::Executable => (340, "Program at a fixed address is no library"),
            LoadError::NoDynamic => (341, "No dynamic segment"),
            LoadError::Entry => (342, "Entry point is past the address limit"),
            LoadError::NoAddends => (343, "Relocations without addends in a file of class 64"),
            LoadError::NoSlots => (
                344,
                "No table of the procedure linkage table for its kind of relocations",
            ),
            LoadError::FirstPacked => (345, "First packed relocation is not an address"),
            LoadError::RelativeCount => (346, "Fewer relative relocations than are counted"),
            LoadError::SlotType => (
                347,
                "Type of a relocation is not for the procedure linkage table",
            ),
            LoadError::NoSize => (348, "Size of a symbol that is in no object"),
            LoadError::CopyKind => (349, "Symbol to copy is absolute or an indirect function"),
            LoadError::CallSymbol => (350, "Relocation by a function that names a symbol"),
            LoadError::Addends => (351, "Relocations with addends in a file of class 32"),
            LoadError::Link(error) => (error.number(), error.message()),
        }
    }
}

impl fmt::Display for LoadError {
    ghost output = { λ error. Some (load_message error) };

    ghost styled_output = { λ error spec. Some (load_message error) };

    fn fmt<W: fmt::Write>(&self, f: &mut fmt::Formatter<W>) -> fmt::Result {
        f.write_str(self.message())
    }
}

impl Error for LoadError {}
