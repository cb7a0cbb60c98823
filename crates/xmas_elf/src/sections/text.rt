//! The printed form of a section header: one line per field, except `info`.

ghost use Rattle.std.specs.Prelude.{◌≡◌, Some};
ghost use Rattle.elf_records.specs.SectionNumbers.{sh_type_number};
ghost use Rattle.xmas_elf.specs.SectionHeader.{record_fields, section_fields};
ghost use Rattle.xmas_elf.specs.SectionText.{section_fields_text, section_text, section_type_text};

use crate::P64;
use crate::sections::{SectionHeader, SectionHeader_, ShType_};
use elf_base::print::{Field, PrintedResult};
use std::fmt;
use std::fmt::Display;

// The type of a section, or the error for an unknown number.
#[derive(Clone, Copy)]
pub(crate) struct SectionType(pub(crate) ShType_);

impl Display for SectionType {
    ghost output = { λ kind. Some (section_type_text (sh_type_number kind.0)) };

    fn fmt<W: fmt::Write>(&self, f: &mut fmt::Formatter<W>) -> fmt::Result {
        write!(f, "{}", PrintedResult(self.0.as_sh_type()))
    }
}

// The fields, one per line.
#[derive(Clone, Copy)]
struct SectionFields(SectionHeader_<P64>);

impl Display for SectionFields {
    ghost output = { λ fields. Some (section_fields_text (record_fields fields.0)) };

    fn fmt<W: fmt::Write>(&self, f: &mut fmt::Formatter<W>) -> fmt::Result {
        write!(
            f,
            "{}{}{}{}{}{}{}{}{}",
            Field("name", self.0.name),
            Field("type", SectionType(self.0.type_)),
            Field("flags", self.0.flags),
            Field("address", self.0.address),
            Field("offset", self.0.offset),
            Field("size", self.0.size),
            Field("link", self.0.link),
            Field("align", self.0.align),
            Field("entry size", self.0.entry_size)
        )
    }
}

impl Display for SectionHeader {
    ghost output = { λ section. Some (section_text (section_fields section)) };

    fn fmt<W: fmt::Write>(&self, f: &mut fmt::Formatter<W>) -> fmt::Result {
        write!(f, "Section header:\n{}", SectionFields(self.record_64()))
    }
}
