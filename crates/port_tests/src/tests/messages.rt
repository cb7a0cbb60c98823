//! The texts of errors, and that options change no printed form. That each error has a message of
//! its own is the clause of `message`.

use crate::tests::want::{open, want};
use std::alloc::{AllocError, Global};
use std::fmt::Display;
use std::io::Write;
use std::process::Abort;
use std::string::ToString;
use std::test::Fail;
use worked_files::files::strtab_file;
use worked_files::rows;
use xmas_elf::ElfError;
use xmas_elf::bytes::Order;
use xmas_elf::header::{Class, Data, Machine, OsAbi, Type as FileType, Version};
use xmas_elf::program::{Flags, Type};
use xmas_elf::report::ReportFault;
use xmas_elf::sections::ShType;
use xmas_elf::symbol_table::{Binding, Type as SymbolType, Visibility};

const MESSAGES: &[(ElfError, &str)] = rows! {
    ElfError::ShortPart1, "File is shorter than the first ELF header part";
    ElfError::NoMagic, "Did not find ELF magic number";
    ElfError::TextUtf8, "Text is not valid UTF-8";
    ElfError::Note32, "32-bit binaries not implemented";
    ElfError::NoStrtab, "no .strtab section";
    ElfError::HeaderSize, "header_size does not match size of header";
    ElfError::ShLibUsed, "Shouldn't use ShLib";
    ElfError::BadAlign, "Invalid combination of virtual_addr, offset, and align";
    ElfError::HashMissing, "Symbol is missing from the hash table";
};

#[test]
fn each_error_has_its_message(rt: HostRuntime) -> Result<(), AllocError> {
    for &(error, text) in MESSAGES {
        want(&rt, error.message(), text);
        want(&rt, error.to_string(rt.alloc())?.as_str(), text);
        let fault = ReportFault::Elf(error);
        want(&rt, fault.to_string(rt.alloc())?.as_str(), text);
    }
    let fault = ReportFault::Write;
    want(&rt, fault.to_string(rt.alloc())?.as_str(), "cannot write");
    Ok(())
}

#[test]
fn options_change_no_message(rt: HostRuntime) {
    let mut text = Vec::new(rt.alloc());
    let error = ElfError::InvalidClass;
    let fault = ReportFault::Elf(error);
    let written = write!(text, "{error:>19}|{error:.3}|{fault:<19}|");
    want(&rt, written.is_ok(), true);
    let wanted = b"Invalid ELF class|Invalid ELF class|Invalid ELF class|";
    want(&rt, text.as_slice(), wanted);
}

// Wants this name of a value, whatever the options are.
fn check_name<T: Display>(
    rt: &impl Abort,
    alloc: Global,
    value: &T,
    name: &str,
) -> Result<(), Fail> {
    let found = format!(in alloc; "{value:>30}|{value:^9}|{value:.1}")?;
    let wanted = format!(in alloc; "{name}|{name}|{name}")?;
    want(rt, found.as_str(), wanted.as_str());
    Ok(())
}

#[test]
fn options_change_no_name(rt: HostRuntime) -> Result<(), Fail> {
    let alloc = rt.alloc();
    check_name(&rt, alloc, &ShType::Null, "Null")?;
    check_name(&rt, alloc, &Type::Load, "Load")?;
    check_name(&rt, alloc, &Flags::from_raw(5), "X R")?;
    check_name(&rt, alloc, &ShType::User(7), "User(7)")?;
    check_name(&rt, alloc, &Type::OsSpecific(8), "OsSpecific(8)")?;
    check_name(&rt, alloc, &Binding::Local, "Local")?;
    check_name(&rt, alloc, &SymbolType::Func, "Func")?;
    check_name(&rt, alloc, &Visibility::Hidden, "Hidden")?;
    check_name(&rt, alloc, &Class::SixtyFour, "SixtyFour")?;
    check_name(&rt, alloc, &Data::LittleEndian, "LittleEndian")?;
    check_name(&rt, alloc, &Version::Current, "Current")?;
    check_name(&rt, alloc, &OsAbi::Linux, "Linux")?;
    check_name(&rt, alloc, &FileType::Executable, "Executable")?;
    check_name(&rt, alloc, &Machine::X86_64, "X86_64")
}

// Wants the same text of a value with options.
fn check_plain<T: Display>(rt: &impl Abort, alloc: Global, value: &T) -> Result<(), Fail> {
    let plain = value.to_string(alloc)?;
    let padded = format!(in alloc; "{value:>900}")?;
    want(rt, padded.as_str(), plain.as_str());
    Ok(())
}

#[test]
fn options_change_no_printed_form(rt: HostRuntime) -> Result<(), Fail> {
    let bytes = strtab_file(Order::Little);
    let file = open(&rt, &bytes);
    for section in file.section_iter() {
        check_plain(&rt, rt.alloc(), &section)?;
    }
    check_plain(&rt, rt.alloc(), &file.header)
}
