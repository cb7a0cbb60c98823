//! Printed forms shared by several crates.

ghost use Rattle.std.specs.Prelude.{◌≡◌, Some, option_map, replicate};
ghost use Rattle.elf_base.specs.Printed.{bytes_text, field_line, hex_text, printed_result};

use crate::ElfError;
use std::fmt;
use std::fmt::Display;

/// A line of a printed header: four spaces, the label and a colon,
/// spaces up to the value's column, the value.
#[derive(Clone, Copy, Debug)]
pub struct Field<'a, T>(pub &'a str, pub T);

impl<T: Display> Display for Field<'_, T> {
    ghost output = { λ field. option_map (field_line field.0.now) (T.output field.1) };

    fn fmt<W: fmt::Write>(&self, f: &mut fmt::Formatter<W>) -> fmt::Result {
        let fill = Spaces(17usize.saturating_sub(self.0.len()));
        writeln!(f, "    {}:{}{}", self.0, fill, self.1)
    }
}

// A number of spaces.
#[derive(Clone, Copy)]
struct Spaces(usize);

impl Display for Spaces {
    ghost output = { λ spaces. Some (replicate spaces.0 32) };

    fn fmt<W: fmt::Write>(&self, f: &mut fmt::Formatter<W>) -> fmt::Result {
        for _space in 0..self.0 {
            f.write_str(" ")?;
        }
        Ok(())
    }
}

/// Bytes, printed in decimal as `[127, 69]`.
#[derive(Clone, Copy, Debug)]
pub struct Bytes<'a>(pub &'a [u8]);

impl Display for Bytes<'_> {
    ghost output = { λ bytes. Some (bytes_text bytes.0.now) };

    fn fmt<W: fmt::Write>(&self, f: &mut fmt::Formatter<W>) -> fmt::Result {
        fmt::Debug::fmt(&self.0, f)
    }
}

/// A result, printed as `Ok(StrTab)` or `Err("Invalid sh type")`.
#[derive(Clone, Copy, Debug)]
pub struct PrintedResult<T>(pub Result<T, ElfError>);

impl<T: Display> Display for PrintedResult<T> {
    ghost output = { λ printed. printed_result T.output printed.0 };

    fn fmt<W: fmt::Write>(&self, f: &mut fmt::Formatter<W>) -> fmt::Result {
        match &self.0 {
            Ok(value) => write!(f, "Ok({value})"),
            Err(error) => write!(f, "Err(\"{error}\")"),
        }
    }
}

/// A number in hexadecimal, as `0x7f`.
#[derive(Clone, Copy, Debug)]
pub struct Hex(pub u64);

impl Display for Hex {
    ghost output = { λ number. Some (hex_text number.0) };

    fn fmt<W: fmt::Write>(&self, f: &mut fmt::Formatter<W>) -> fmt::Result {
        write!(f, "0x{:x}", self.0)
    }
}
