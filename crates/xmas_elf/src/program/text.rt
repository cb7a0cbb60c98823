//! The printed form of a program header: one line per field.

ghost use Rattle.std.specs.Prelude.{◌≡◌, Some};
ghost use Rattle.elf_records.specs.ProgramNumbers.{ph_type_number};
ghost use Rattle.xmas_elf.specs.ProgramHeader.{program_64, program_fields};
ghost use Rattle.xmas_elf.specs.ProgramText.{program_fields_text, program_text, segment_type_text};

use crate::program::{ProgramHeader, ProgramHeader32, ProgramHeader64, Type_};
use elf_base::print::{Field, Hex, PrintedResult};
use std::fmt;
use std::fmt::Display;

// The type of a segment, or the error for an unknown number.
#[derive(Clone, Copy)]
pub(crate) struct SegmentType(pub(crate) Type_);

impl Display for SegmentType {
    ghost output = { λ kind. Some (segment_type_text (ph_type_number kind.0)) };

    fn fmt<W: fmt::Write>(&self, f: &mut fmt::Formatter<W>) -> fmt::Result {
        write!(f, "{}", PrintedResult(self.0.as_type()))
    }
}

// The fields, one per line.
#[derive(Clone, Copy)]
struct ProgramFields(ProgramHeader64);

impl Display for ProgramFields {
    ghost output = { λ fields. Some (program_fields_text fields.0) };

    fn fmt<W: fmt::Write>(&self, f: &mut fmt::Formatter<W>) -> fmt::Result {
        write!(
            f,
            "{}{}{}{}{}{}{}{}",
            Field("type", SegmentType(self.0.type_)),
            Field("flags", self.0.flags),
            Field("offset", Hex(self.0.offset)),
            Field("virtual address", Hex(self.0.virtual_addr)),
            Field("physical address", Hex(self.0.physical_addr)),
            Field("file size", Hex(self.0.file_size)),
            Field("memory size", Hex(self.0.mem_size)),
            Field("align", Hex(self.0.align))
        )
    }
}

impl Display for ProgramHeader64 {
    ghost output = { λ segment. Some (program_text segment) };

    fn fmt<W: fmt::Write>(&self, f: &mut fmt::Formatter<W>) -> fmt::Result {
        write!(f, "Program header:\n{}", ProgramFields(*self))
    }
}

impl Display for ProgramHeader32 {
    ghost output = { λ program. Some (program_text (program_64 program)) };

    fn fmt<W: fmt::Write>(&self, f: &mut fmt::Formatter<W>) -> fmt::Result {
        self.to_64().fmt(f)
    }
}

impl Display for ProgramHeader {
    ghost output = { λ program. Some (program_text (program_fields program)) };

    fn fmt<W: fmt::Write>(&self, f: &mut fmt::Formatter<W>) -> fmt::Result {
        self.record_64().fmt(f)
    }
}
