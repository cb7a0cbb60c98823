//! What derived `Debug` prints of each public type: as in Rust,
//! the names of the type and its fields.

use crate::tests::want::{open, want};
use std::alloc::{AllocError, Global};
use std::fmt::Debug;
use std::process::Abort;
use std::test::Fail;
use worked_files::files::{debug_link_file, strtab_file};
use xmas_elf::bytes::{Order, Record, Table};
use xmas_elf::dynamic::{Dynamic, Tag, Tag_};
use xmas_elf::hash::HashTable;
use xmas_elf::report::ReportFault;
use xmas_elf::sections::{NoteHeader, Rel, Rela, SectionData, ShType, ShType_};
use xmas_elf::symbol_table::{
    Binding, Binding_, DynEntry32, DynEntry64, Entry32, Entry64, Visibility, Visibility_,
};
use xmas_elf::{ElfError, P32, P64, header, program, symbol_table};

const LITTLE: Order = Order::Little;

// Wants this text of a value.
fn check<T: Debug>(rt: &impl Abort, alloc: Global, value: &T, wanted: &str) {
    match format!(in alloc; "{value:?}") {
        Ok(text) => want(rt, text.as_str(), wanted),
        Err(_) => panic!(rt; "no memory for {wanted}"),
    }
}

// Wants these parts of a text, one behind the other.
fn check_parts<T: Debug>(
    rt: &impl Abort,
    alloc: Global,
    value: &T,
    parts: &[&str],
) -> Result<(), AllocError> {
    let mut wanted = String::new(alloc);
    for part in parts {
        wanted.push_str(part)?;
    }
    check(rt, alloc, value, wanted.as_str());
    Ok(())
}

#[test]
fn numbers_print_their_number(rt: HostRuntime) {
    let alloc = rt.alloc();
    check(&rt, alloc, &header::Class_::from_raw(2), "Class_(2)");
    check(&rt, alloc, &header::Data_::from_raw(1), "Data_(1)");
    check(&rt, alloc, &header::Version_::from_raw(1), "Version_(1)");
    check(&rt, alloc, &header::OsAbi_::from_raw(3), "OsAbi_(3)");
    check(&rt, alloc, &header::Type_(3), "Type_(3)");
    check(&rt, alloc, &header::Machine_::from_raw(62), "Machine_(62)");
    check(&rt, alloc, &ShType_::from_raw(3), "ShType_(3)");
    check(&rt, alloc, &program::Type_::from_raw(1), "Type_(1)");
    check(&rt, alloc, &program::Flags(5), "Flags(5)");
    check(&rt, alloc, &Visibility_::from_raw(2), "Visibility_(2)");
    check(&rt, alloc, &Binding_::from_raw(1), "Binding_(1)");
    check(&rt, alloc, &symbol_table::Type_::from_raw(2), "Type_(2)");
    check(&rt, alloc, &Tag_::<P32>::from_raw(1), "Tag_(1)");
    check(&rt, alloc, &Tag_::<P64>::from_raw(1), "Tag_(1)");
}

#[test]
fn meanings_print_their_name(rt: HostRuntime) {
    let alloc = rt.alloc();
    check(&rt, alloc, &header::Class::Other(9), "Other(9)");
    check(&rt, alloc, &header::Data::BigEndian, "BigEndian");
    check(&rt, alloc, &header::Version::Current, "Current");
    check(&rt, alloc, &header::OsAbi::OpenVMS, "OpenVMS");
    check(&rt, alloc, &header::Type::SharedObject, "SharedObject");
    check(&rt, alloc, &header::Machine::RISC_V, "RISC_V");
    let kind = ShType::OsSpecific(0x6000_0000);
    check(&rt, alloc, &kind, "OsSpecific(1610612736)");
    check(&rt, alloc, &program::Type::GnuRelro, "GnuRelro");
    check(&rt, alloc, &Visibility::Hidden, "Hidden");
    check(&rt, alloc, &Binding::Weak, "Weak");
    check(&rt, alloc, &symbol_table::Type::Tls, "Tls");
    check(&rt, alloc, &Tag::<P32>::SoName, "SoName");
    check(&rt, alloc, &Tag::<P64>::OsSpecific(7), "OsSpecific(7)");
}

#[test]
fn errors_print_their_name(rt: HostRuntime) {
    let alloc = rt.alloc();
    check(&rt, alloc, &LITTLE, "Little");
    check(&rt, alloc, &ElfError::NoteDesc, "NoteDesc");
    let fault = ReportFault::Elf(ElfError::NoMagic);
    check(&rt, alloc, &fault, "Elf(NoMagic)");
    check(&rt, alloc, &ReportFault::Write, "Write");
}

const PT1: &str = "HeaderPt1 { magic: [127, 69, 76, 70], class: Class_(1), encoding: Data_(1), \
    version: Version_(1), os_abi: OsAbi_(0), abi_version: 0, padding: [0, 0, 0, 0, 0, 0, 0] }";

const PT2: &str = "Header32(HeaderPt2_ { type_: Type_(0), machine: Machine_(0), version: 0, \
    entry_point: 0, ph_offset: 0, sh_offset: 52, flags: 0, header_size: 52, ph_entry_size: 0, \
    ph_count: 0, sh_entry_size: 40, sh_count: 2, sh_str_index: 1 })";

const SECTION: &str = "Sh32(SectionHeader_ { name: 1, type_: ShType_(3), flags: 0, address: 0, \
    offset: 132, size: 12, link: 0, info: 0, align: 1, entry_size: 0 })";

const HEADER: [&str; 5] = ["Header { pt1: ", PT1, ", pt2: ", PT2, " }"];

#[test]
fn headers_print_their_fields(rt: HostRuntime) -> Result<(), Fail> {
    let alloc = rt.alloc();
    let bytes = strtab_file(LITTLE);
    let file = open(&rt, &bytes);
    check(&rt, alloc, &file.header.pt1, PT1);
    check(&rt, alloc, &file.header.pt2, PT2);
    check_parts(&rt, alloc, &file.header, &HEADER)?;
    check(&rt, alloc, &file.section_header(1)?, SECTION);
    Ok(())
}

#[test]
fn files_print_their_fields(rt: HostRuntime) -> Result<(), AllocError> {
    let alloc = rt.alloc();
    let bytes = strtab_file(LITTLE);
    let file = open(&rt, &bytes);
    let input = format!(in alloc; "ElfFile {{ input: {bytes:?}, header: Header {{ pt1: {PT1}")?;
    let file_text = format!(in alloc; "{input}, pt2: {PT2} }} }}")?;
    let text = file_text.as_str();
    check(&rt, alloc, &file, text);
    let parts = ["SectionIter { file: ", text, ", next_index: 0 }"];
    check_parts(&rt, alloc, &file.section_iter(), &parts)?;
    let parts = ["ProgramIter { file: ", text, ", next_index: 0 }"];
    check_parts(&rt, alloc, &file.program_iter(), &parts)
}

const SEGMENT: &str = "{ type_: Type_(0), offset: 0, virtual_addr: 0, physical_addr: 0, \
    file_size: 0, mem_size: 0, flags: Flags(0), align: 0 }";

const WIDE_SEGMENT: &str = "{ type_: Type_(0), flags: Flags(0), offset: 0, virtual_addr: 0, \
    physical_addr: 0, file_size: 0, mem_size: 0, align: 0 }";

#[test]
fn program_headers_print_their_fields(rt: HostRuntime) -> Result<(), AllocError> {
    let alloc = rt.alloc();
    let narrow = program::ProgramHeader32::default();
    check_parts(&rt, alloc, &narrow, &["ProgramHeader32 ", SEGMENT])?;
    let parts = ["Ph32(ProgramHeader32 ", SEGMENT, ")"];
    check_parts(&rt, alloc, &program::ProgramHeader::Ph32(narrow), &parts)?;
    let wide = program::ProgramHeader64::default();
    check_parts(&rt, alloc, &wide, &["ProgramHeader64 ", WIDE_SEGMENT])?;
    let parts = ["Ph64(ProgramHeader64 ", WIDE_SEGMENT, ")"];
    check_parts(&rt, alloc, &program::ProgramHeader::Ph64(wide), &parts)
}

const WORDS: [u8; 24] = [
    1, 0, 0, 0, 2, 0, 0, 0, 3, 0, 0, 0, 0, 0, 0, 0, 0, 0, 0, 0, 0, 0, 0, 0,
];

#[test]
fn records_print_their_fields(rt: HostRuntime) {
    let alloc = rt.alloc();
    let rel = Rel::<P32>::decode(&WORDS[..8], LITTLE);
    check(&rt, alloc, &rel, "Rel { offset: 1, info: 2 }");
    let rel = Rel::<P64>::decode(&WORDS[8..], LITTLE);
    check(&rt, alloc, &rel, "Rel { offset: 3, info: 0 }");
    let rela = Rela::<P32>::decode(&WORDS[..12], LITTLE);
    check(&rt, alloc, &rela, "Rela { offset: 1, info: 2, addend: 3 }");
    let entry = Dynamic::<P32>::decode(&WORDS[..8], LITTLE);
    check(&rt, alloc, &entry, "Dynamic { tag: Tag_(1), value: 2 }");
}

// What the first twelve of those words, sixteen and all print.
const TWELVE: &str = "{ bytes: [1, 0, 0, 0, 2, 0, 0, 0, 3, 0, 0, 0], order: Little }";

const SIXTEEN: &str = "{ bytes: [1, 0, 0, 0, 2, 0, 0, 0, 3, 0, 0, 0, 0, 0, 0, 0], order: Little }";

const ALL: &str = "{ bytes: [1, 0, 0, 0, 2, 0, 0, 0, 3, 0, 0, 0, 0, 0, 0, 0, 0, 0, 0, 0, 0, 0, \
    0, 0], order: Little }";

#[test]
fn notes_and_tables_print_their_bytes(rt: HostRuntime) -> Result<(), Fail> {
    let note = NoteHeader::decode(&WORDS[..12], LITTLE);
    check_parts(&rt, rt.alloc(), &note, &["NoteHeader ", TWELVE])?;
    let table = HashTable::read(&WORDS[..12], LITTLE)?;
    check_parts(&rt, rt.alloc(), &table, &["HashTable ", TWELVE])?;
    Ok(())
}

#[test]
fn symbols_print_their_bytes(rt: HostRuntime) -> Result<(), AllocError> {
    let alloc = rt.alloc();
    let symbol = Entry32::decode(&WORDS[..16], LITTLE);
    check_parts(&rt, alloc, &symbol, &["Entry32 ", SIXTEEN])?;
    let symbol = DynEntry32::decode(&WORDS[..16], LITTLE);
    check_parts(&rt, alloc, &symbol, &["DynEntry32 ", SIXTEEN])?;
    let symbol = Entry64::decode(&WORDS, LITTLE);
    check_parts(&rt, alloc, &symbol, &["Entry64 ", ALL])?;
    let symbol = DynEntry64::decode(&WORDS, LITTLE);
    check_parts(&rt, alloc, &symbol, &["DynEntry64 ", ALL])
}

#[test]
fn data_prints_its_bytes(rt: HostRuntime) {
    let alloc = rt.alloc();
    check(&rt, alloc, &SectionData::Empty, "Empty");
    check(&rt, alloc, &program::SegmentData::Empty, "Empty");
    let data = SectionData::Undefined(&WORDS[..2]);
    check(&rt, alloc, &data, "Undefined([1, 0])");
}

// The link to debug information: `a.debug` with its zero byte, and the checksum.
const LINK: &str = "Undefined([97, 46, 100, 101, 98, 117, 103, 0, 120, 86, 52, 18])";

#[test]
fn data_of_a_file_prints_its_bytes(rt: HostRuntime) -> Result<(), ElfError> {
    let bytes = debug_link_file();
    let file = open(&rt, &bytes);
    let data = file.section_header(2)?.get_data(&file)?;
    check(&rt, rt.alloc(), &data, LINK);
    Ok(())
}

#[test]
fn texts_print_their_bytes(rt: HostRuntime) {
    let alloc = rt.alloc();
    let texts = SectionData::StrArray(b"a\0");
    check(&rt, alloc, &texts, "StrArray([97, 0])");
    match texts.strings() {
        Ok(strings) => check(&rt, alloc, &strings, "SectionStrings { rest: [97, 0] }"),
        Err(()) => panic!(rt; "no texts"),
    }
}

// Rust's own would name the type that the table is of.
const TABLE: &str = "Table { bytes: [1, 0, 0, 0], order: Little, kind: PhantomData<_> }";

#[test]
fn words_print_their_bytes(rt: HostRuntime) -> Result<(), Fail> {
    let alloc = rt.alloc();
    let words = Table::<u32>::new(&WORDS[..4], LITTLE)?;
    check(&rt, alloc, &words, TABLE);
    let parts = ["TableIter { rest: ", TABLE, " }"];
    check_parts(&rt, alloc, &words.iter(), &parts)?;
    let array = SectionData::FnArray32(words);
    check_parts(&rt, alloc, &array, &["FnArray32(", TABLE, ")"])?;
    Ok(())
}
