//! The texts of the statuses.

ghost use Rattle.std.specs.Prelude.{◌≡◌, ◌<◌, ℕ, IfSome, List, Some, length};
ghost use Rattle.elf_addresses.specs.Message.{index_number};
ghost use Rattle.elf_addresses.specs.declared.error.IndexError.{IndexError};
ghost use Rattle.elf_linking.specs.Message.{link_number};
ghost use Rattle.elf_linking.specs.declared.error.LinkError.{LinkError};
ghost use Rattle.elf_loading.specs.Message.{load_number};
ghost use Rattle.elf_loading.specs.declared.error.LoadError.{LoadError};
ghost use Rattle.elf_search.specs.Message.{search_number};
ghost use Rattle.elf_search.specs.declared.error.SearchError.{SearchError};
ghost use Rattle.elf_c.specs.Status.{failure_message, failure_number};
ghost use Rattle.elf_c.specs.Texts.{HasNumber, IsStatusText, error_within, written};
ghost use Rattle.elf_c.specs.declared.status.AnyError.{AnyError};
ghost use Rattle.elf_c.specs.declared.status.AnyError.TheVariants.{Index, Link, Load, Search};

use crate::status::AnyError;
use elf_addresses::IndexError;
use elf_base::ElfError;
use elf_linking::LinkError;
use elf_loading::LoadError;
use elf_search::SearchError;

// The error of `elf_linking`, `elf_loading`, `elf_addresses` or `elf_search` with a number.
#[tactic(auto, using(crate::proofs::Statuses::link_below, crate::proofs::Statuses::load_below, crate::proofs::Statuses::index_within, crate::proofs::Statuses::index_below))]
fn library_failure(number: u32) -> Option<AnyError>
    ensures found { IfSome result (λ failure. (100 < number)
        × (failure_number failure ≡ number)) }
    ensures link { (error : LinkError) → link_number error ≡ number → 100 < number
        → result ≡ Some (Link error) }
    ensures load { (error : LoadError) → load_number error ≡ number → 300 < number
        → result ≡ Some (Load error) }
    ensures index { (error : IndexError) → index_number error ≡ number
        → result ≡ Some (Index error) }
    ensures search { (error : SearchError) → search_number error ≡ number → 500 < number
        → result ≡ Some (Search error) }
{
    if number < 300 {
        let error = LinkError::with_number(number)?;
        return Some(AnyError::Link(error));
    }
    if number < 400 {
        let error = LoadError::with_number(number)?;
        return Some(AnyError::Load(error));
    }
    if number < 500 {
        let error = IndexError::with_number(number)?;
        return Some(AnyError::Index(error));
    }
    let error = SearchError::with_number(number)?;
    Some(AnyError::Search(error))
}

// The error with a number; `AnyError::Elf` for an error that `elf_linking` passes on, too.
fn failure_with(number: u32) -> Option<AnyError>
    ensures found { HasNumber number result }
    ensures only { (failure : AnyError) → failure_number failure ≡ number
        → result ≡ Some (error_within failure) }
{
    match number {
        1 => Some(AnyError::Elf(ElfError::ShortPart1)),
        2 => Some(AnyError::Elf(ElfError::NoMagic)),
        3 => Some(AnyError::Elf(ElfError::InvalidClass)),
        4 => Some(AnyError::Elf(ElfError::ShortHeaders)),
        5 => Some(AnyError::Elf(ElfError::ReservedIndex)),
        6 => Some(AnyError::Elf(ElfError::ShortSectionHeader)),
        7 => Some(AnyError::Elf(ElfError::UnknownClass)),
        8 => Some(AnyError::Elf(ElfError::SmallEntry)),
        9 => Some(AnyError::Elf(ElfError::NoProgramHeaders)),
        10 => Some(AnyError::Elf(ElfError::ShortProgramHeader)),
        11 => Some(AnyError::Elf(ElfError::InvalidShType)),
        12 => Some(AnyError::Elf(ElfError::NullName)),
        13 => Some(AnyError::Elf(ElfError::ShortSectionOffset)),
        14 => Some(AnyError::Elf(ElfError::TextStart)),
        15 => Some(AnyError::Elf(ElfError::TextEnd)),
        16 => Some(AnyError::Elf(ElfError::TextUtf8)),
        17 => Some(AnyError::Elf(ElfError::NullData)),
        18 => Some(AnyError::Elf(ElfError::DataRange)),
        19 => Some(AnyError::Elf(ElfError::NotMultiple)),
        20 => Some(AnyError::Elf(ElfError::ShortData)),
        21 => Some(AnyError::Elf(ElfError::Note32)),
        22 => Some(AnyError::Elf(ElfError::NoteName)),
        23 => Some(AnyError::Elf(ElfError::NoteDesc)),
        24 => Some(AnyError::Elf(ElfError::NoStrtab)),
        25 => Some(AnyError::Elf(ElfError::StrtabType)),
        26 => Some(AnyError::Elf(ElfError::NoDynstr)),
        27 => Some(AnyError::Elf(ElfError::InvalidPhType)),
        28 => Some(AnyError::Elf(ElfError::InvalidTag)),
        29 => Some(AnyError::Elf(ElfError::InvalidValue)),
        30 => Some(AnyError::Elf(ElfError::InvalidPtr)),
        31 => Some(AnyError::Elf(ElfError::InvalidBinding)),
        32 => Some(AnyError::Elf(ElfError::InvalidSymbolType)),
        33 => Some(AnyError::Elf(ElfError::ReservedSymbolIndex)),
        34 => Some(AnyError::Elf(ElfError::NoShIndex)),
        35 => Some(AnyError::Elf(ElfError::ExpectedShIndex)),
        36 => Some(AnyError::Elf(ElfError::SymbolIndex)),
        37 => Some(AnyError::Elf(ElfError::WideIndex)),
        38 => Some(AnyError::Elf(ElfError::BadMagic)),
        39 => Some(AnyError::Elf(ElfError::HeaderSize)),
        40 => Some(AnyError::Elf(ElfError::NoClass)),
        41 => Some(AnyError::Elf(ElfError::ClassMismatch)),
        42 => Some(AnyError::Elf(ElfError::NoVersion)),
        43 => Some(AnyError::Elf(ElfError::NoDataFormat)),
        44 => Some(AnyError::Elf(ElfError::PhTableRange)),
        45 => Some(AnyError::Elf(ElfError::ShTableRange)),
        46 => Some(AnyError::Elf(ElfError::PhSizeMismatch)),
        47 => Some(AnyError::Elf(ElfError::EntryPointRange)),
        48 => Some(AnyError::Elf(ElfError::ShLibUsed)),
        49 => Some(AnyError::Elf(ElfError::BadAlign)),
        50 => Some(AnyError::Elf(ElfError::BucketIndex)),
        51 => Some(AnyError::Elf(ElfError::ChainIndex)),
        52 => Some(AnyError::Elf(ElfError::ChainSum)),
        53 => Some(AnyError::Elf(ElfError::HashData)),
        54 => Some(AnyError::Elf(ElfError::HashCycle)),
        55 => Some(AnyError::Elf(ElfError::HashMissing)),
        201 => Some(AnyError::OtherData),
        202 => Some(AnyError::NoRecord),
        203 => Some(AnyError::NotFound),
        204 => Some(AnyError::ManyObjects),
        211 => Some(AnyError::NoBuildId),
        212 => Some(AnyError::OtherBuildId),
        213 => Some(AnyError::OtherChecksum),
        _ => library_failure(number),
    }
}

impl AnyError {
    /// The text of the error; for an error of a library, its text.
    pub fn message(&self) -> &'static str
        ensures { result.now ≡ failure_message self.now }
    {
        match self {
            AnyError::Elf(error) => error.message(),
            AnyError::Link(error) => error.message(),
            AnyError::Load(error) => error.message(),
            AnyError::Index(error) => error.message(),
            AnyError::Search(error) => error.message(),
            AnyError::OtherData => "A section holds other data than what is asked for",
            AnyError::NoRecord => "A table has no record with this index",
            AnyError::NotFound => "Nothing has this name",
            AnyError::ManyObjects => "There are more than 64 objects",
            AnyError::NoBuildId => "A debug file has no build id",
            AnyError::OtherBuildId => "A debug file has another build id",
            AnyError::OtherChecksum => "A debug file has another CRC",
        }
    }
}

// The text of a status, which is empty if no error has it.
fn text_with(status: u32) -> &'static str
    ensures text { IsStatusText status result.now }
    ensures means { (failure : AnyError) → failure_number failure ≡ status
        → result.now ≡ failure_message failure }
{
    match failure_with(status) {
        Some(failure) => failure.message(),
        None => "",
    }
}

// Writes as much of a text as fits to the start of `out`, and returns the length of the text.
fn put(text: &str, out: &mut [u8]) -> usize
    ensures size { result ≡ length text.now }
    ensures text { out.new ≡ written text.now out.old }
{
    let text = text.as_bytes();
    let count = text.len().min(out.len());
    out[..count].copy_from_slice(&text[..count]);
    text.len()
}

/// Writes the text of a status to the start of `out`, as much as fits, and returns the length of
/// the text in bytes. It is ASCII, without a zero byte at its end. A status that is not an error,
/// such as 0, has an empty text.
#[unsafe(no_mangle)]
pub extern "C" fn xmas_elf_message(status: u32, out: &mut [u8]) -> usize
    ensures text { (text : List ℕ) × IsStatusText status text × (result ≡ length text)
        × (out.new ≡ written text out.old) }
    ensures means { (failure : AnyError) → failure_number failure ≡ status
        → (result ≡ length (failure_message failure))
        × (out.new ≡ written (failure_message failure) out.old) }
{
    put(text_with(status), out)
}
