//! Callers that step an iterator on from any index.

ghost use Rattle.std.specs.Prelude.{◌≡◌, ◌<◌, ◌+◌, IfNone, IfSome, Ok, Some};
ghost use Rattle.xmas_elf.specs.SectionHeader.{section_count_of, section_of};
ghost use Rattle.xmas_elf.specs.Types.{SectionHeader};

use xmas_elf::sections::{SectionHeader, SectionIter};

/// The next section: the header at the iterator's index exactly where that is below the count and
/// can be read, whoever wrote the index; then the index goes on by one, and else it stays.
pub fn next_section(sections: &mut SectionIter<'_, '_>) -> Option<SectionHeader>
    ensures there { (section : SectionHeader)
        → sections.old.next_index < section_count_of sections.old.file.now
        → section_of sections.old.file.now sections.old.next_index ≡ Ok section
        → result ≡ Some section }
    ensures given { IfSome result (λ section.
        (sections.old.next_index < section_count_of sections.old.file.now)
        × (section_of sections.old.file.now sections.old.next_index ≡ Ok section)
        × (sections.new.next_index ≡ sections.old.next_index + 1)) }
    ensures stays { IfNone result (sections.new.next_index ≡ sections.old.next_index) }
{
    sections.next()
}
