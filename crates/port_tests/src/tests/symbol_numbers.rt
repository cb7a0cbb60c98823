//! The names of the numbers of symbols, and how they are printed.

use crate::tests::want::{want, want_at};
use elf_base::ElfError;
use elf_records::symbol_table::{Binding, Binding_, Type, Type_, Visibility, Visibility_};
use std::fmt::{Debug, Display};
use std::process::Abort;
use std::test::Fail;
use worked_files::rows;

const VISIBILITIES: &[(u8, Visibility, &str)] = rows! {
    0, Visibility::Default, "Default"; 1, Visibility::Internal, "Internal";
    2, Visibility::Hidden, "Hidden"; 3, Visibility::Protected, "Protected";
    4, Visibility::Default, "Default"; 255, Visibility::Protected, "Protected";
};

#[test]
fn names_the_visibilities(rt: HostRuntime) -> Result<(), Fail> {
    for &(number, visibility, text) in VISIBILITIES {
        let found = Visibility_::from_raw(number).as_visibility();
        want_at(&rt, number, found, visibility);
        let printed = format!(in rt.alloc(); "{visibility}")?;
        want(&rt, printed.as_str(), text);
    }
    Ok(())
}

// Wants this meaning of a number, and how it is printed, or this error.
fn check<T: PartialEq + Debug + Display + Copy>(
    rt: &(impl Abort + AllocGlobal),
    number: u8,
    found: Result<T, ElfError>,
    wanted: Result<(T, &str), ElfError>,
) -> Result<(), Fail> {
    match wanted {
        Ok((meaning, text)) => {
            want_at(rt, number, found, Ok(meaning));
            let printed = format!(in rt.alloc(); "{meaning}")?;
            want(rt, printed.as_str(), text);
        }
        Err(error) => want_at(rt, number, found, Err(error)),
    }
    Ok(())
}

const INVALID_BINDING: Result<(Binding, &str), ElfError> = Err(ElfError::InvalidBinding);

const BINDINGS: &[(u8, Result<(Binding, &str), ElfError>)] = rows! {
    0, Ok((Binding::Local, "Local"));
    1, Ok((Binding::Global, "Global"));
    2, Ok((Binding::Weak, "Weak"));
    3, INVALID_BINDING;
    9, INVALID_BINDING;
    10, Ok((Binding::OsSpecific(10), "OsSpecific(10)"));
    12, Ok((Binding::OsSpecific(12), "OsSpecific(12)"));
    13, Ok((Binding::ProcessorSpecific(13), "ProcessorSpecific(13)"));
    15, Ok((Binding::ProcessorSpecific(15), "ProcessorSpecific(15)"));
    16, INVALID_BINDING;
    255, INVALID_BINDING;
};

#[test]
fn names_the_bindings(rt: HostRuntime) -> Result<(), Fail> {
    for &(number, wanted) in BINDINGS {
        let found = Binding_::from_raw(number).as_binding();
        check(&rt, number, found, wanted)?;
    }
    Ok(())
}

const INVALID_TYPE: Result<(Type, &str), ElfError> = Err(ElfError::InvalidSymbolType);

const TYPES: &[(u8, Result<(Type, &str), ElfError>)] = rows! {
    0, Ok((Type::NoType, "NoType"));
    1, Ok((Type::Object, "Object"));
    2, Ok((Type::Func, "Func"));
    3, Ok((Type::Section, "Section"));
    4, Ok((Type::File, "File"));
    5, Ok((Type::Common, "Common"));
    6, Ok((Type::Tls, "Tls"));
    7, INVALID_TYPE;
    9, INVALID_TYPE;
    10, Ok((Type::OsSpecific(10), "OsSpecific(10)"));
    12, Ok((Type::OsSpecific(12), "OsSpecific(12)"));
    13, Ok((Type::ProcessorSpecific(13), "ProcessorSpecific(13)"));
    15, Ok((Type::ProcessorSpecific(15), "ProcessorSpecific(15)"));
    16, INVALID_TYPE;
};

#[test]
fn names_the_types(rt: HostRuntime) -> Result<(), Fail> {
    for &(number, wanted) in TYPES {
        let found = Type_::from_raw(number).as_type();
        check(&rt, number, found, wanted)?;
    }
    Ok(())
}
