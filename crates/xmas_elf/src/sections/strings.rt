//! The texts of a string table in order (gABI, "String Table").

ghost use Rattle.std.specs.Prelude.{◌≡◌, ◌<◌, ◌^◌, None, Some, IfOk, MatchResult, length};

use crate::ElfError;
use crate::bytes::text_at;
use crate::sections::SectionData;

/// An iterator over the texts of a string table, up to its end or an empty text (gABI, "String
/// Table").
///
/// An error is the last item: `TextEnd` if no zero byte follows, or `TextUtf8`.
#[derive(Clone, Debug, Drop)]
pub struct SectionStrings<'a> {
    rest: &'a [u8],
}

impl<'a> SectionData<'a> {
    ghost use Rattle.xmas_elf.specs.SectionContent.{section_content};
    ghost use Rattle.xmas_elf.specs.Strings.{AreStringItems, string_data, strings_bytes, string_items_left};

    /// The texts of a string table; an error for all other contents.
    ///
    /// An ordinary string table begins with an empty text, so it has no items.
    #[tactic(auto, using(crate::proofs::StringItems::strings_are, crate::proofs::StringItems::strings_fit))]
    pub fn strings(&self) -> Result<SectionStrings<'a>, ()>
        ensures items { IfOk result (λ s. AreStringItems (strings_bytes s) (string_items_left s)) }
        ensures fits { IfOk result (λ s. length (string_items_left s) < 2 ^ 64) }
        ensures exact { MatchResult result
            (λ s. string_data (section_content self.now) ≡ Some (strings_bytes s))
            (λ e. string_data (section_content self.now) ≡ None) }
    {
        match self {
            Self::StrArray(bytes) => {
                // This tells the proof of `fits` that the length is a number of 64 bits.
                prove!(bytes.len() <= usize::MAX);
                Ok(SectionStrings { rest: bytes })
            }
            _ => Err(()),
        }
    }
}

impl<'a> Iterator for SectionStrings<'a> {
    ghost use Rattle.std.specs.Iterator.{YieldsFirstBy, item_count};
    ghost use Rattle.xmas_elf.specs.Strings.{string_item, string_items_left};

    type Item = Result<&'a str, ElfError>;

    ghost next_gives = { YieldsFirstBy string_item string_items_left };

    ghost remaining = { item_count string_items_left };

    /// The next text; `TextEnd` or `TextUtf8` if there is none at the front of the bytes,
    /// and `None` from then on.
    #[tactic(auto, using(crate::proofs::StringItems::text_within))]
    fn next(&mut self) -> Option<Result<&'a str, ElfError>> {
        if self.rest.is_empty() {
            return None;
        }
        match text_at(self.rest, 0) {
            Ok(text) if text.is_empty() => None,
            Ok(text) => {
                self.rest = &self.rest[text.len() + 1..];
                Some(Ok(text))
            }
            Err(error) => {
                self.rest = &[];
                Some(Err(error))
            }
        }
    }
}
