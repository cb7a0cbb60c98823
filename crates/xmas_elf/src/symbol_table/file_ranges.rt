//! Where the bytes that a symbol names are in the file (gABI, "Symbol Table", st_value and st_size).

ghost use Rattle.std.specs.Prelude.{◌≡◌, ◌+◌, ◌≤◌, ◌<◌, ◌^◌, IfOk, IfSome, length};
ghost use Rattle.xmas_elf.specs.SymbolRange.{is_template, symbol_address, symbol_offset};
ghost use Rattle.xmas_elf.specs.SymbolRange.{symbol_range_in, symbol_range_of, template_of};

use crate::program::ProgramHeader;
use crate::sections::SectionHeader;
use crate::symbol_table::Entry;
use crate::{ElfError, ElfFile};

// The type of object files (gABI, "ELF Header", e_type).
const ET_REL: u16 = 1;

// The type of the template of thread-local data (gABI, "Program Header", p_type).
const PT_TLS: u32 = 7;

// The type of thread-local symbols (gABI, "Symbol Table", ELF32_ST_TYPE).
const STT_TLS: u8 = 6;

// The range of the bytes that the file stores for a symbol, by the index of the symbol in its table.
pub(crate) fn symbol_range<E: Entry>(
    symbol: &E,
    file: &ElfFile<'_>,
    self_index: usize,
) -> Result<Option<(usize, usize)>, ElfError>
    ensures within { IfOk result (λ found. IfSome found
        (λ range. range.0 + range.1 ≤ length file.now.input.now)) }
    ensures exact { result ≡ symbol_range_of file.now (E.fields symbol.now) self_index }
{
    match symbol.get_section_header(file, self_index) {
        Ok(section) => range_in(symbol, file, &section),
        Err(ElfError::ReservedSymbolIndex) => Ok(None),
        Err(error) => Err(error),
    }
}

// The same for a symbol of this section.
#[tactic(auto, unfolding(crate::specs::SymbolRange::symbol_range_in))]
fn range_in<E: Entry>(
    symbol: &E,
    file: &ElfFile<'_>,
    section: &SectionHeader,
) -> Result<Option<(usize, usize)>, ElfError>
    ensures within { IfOk result (λ found. IfSome found
        (λ range. range.0 + range.1 ≤ length file.now.input.now)) }
    ensures exact { result ≡ symbol_range_in file.now (E.fields symbol.now) section.now }
{
    let Some((start, len)) = section.stored_range(file)? else {
        return Ok(None);
    };
    let Some(offset) = offset_in(symbol, file, section) else {
        return Ok(None);
    };
    if offset + u128::from(symbol.size()) > len as u128 {
        return Ok(None);
    }
    Ok(Some((start + offset as usize, symbol.size() as usize)))
}

// The offset of a symbol in its section. 128 bits are enough for the sum of two numbers of 64.
#[tactic(auto, unfolding(crate::specs::SymbolRange::symbol_offset))]
fn offset_in<E: Entry>(symbol: &E, file: &ElfFile<'_>, section: &SectionHeader) -> Option<u128>
    ensures value { result ≡ symbol_offset file.now (E.fields symbol.now) section.now }
    ensures bound { IfSome result (λ offset. offset < 2 ^ 65) }
{
    if file.header.pt2.type_().raw() == ET_REL {
        return Some(u128::from(symbol.value()));
    }
    let address = address_of(symbol, file)?;
    address.checked_sub(u128::from(section.address()))
}

// The address of a symbol in a file that is linked.
fn address_of<E: Entry>(symbol: &E, file: &ElfFile<'_>) -> Option<u128>
    ensures value { result ≡ symbol_address file.now (E.fields symbol.now) }
    ensures bound { IfSome result (λ address. address < 2 ^ 65) }
{
    let value = u128::from(symbol.value());
    if symbol.info() % 16 != STT_TLS {
        return Some(value);
    }
    let program = template(file)?;
    Some(u128::from(program.virtual_addr()) + value)
}

// Whether a segment is the template of thread-local data.
fn is_template(program: &ProgramHeader) -> bool
    ensures { result ≡ is_template program.now }
{
    program.type_().raw() == PT_TLS
}

// The first segment that is the template of thread-local data.
#[tactic(auto, unfolding(crate::specs::SymbolRange::template_of), using(crate::proofs::Firsts::find_none, crate::proofs::Firsts::find_hit, crate::proofs::Firsts::find_other))]
fn template(file: &ElfFile<'_>) -> Option<ProgramHeader>
    ensures { result ≡ template_of file.now }
{
    for program in file.program_iter() {
        if is_template(&program) {
            return Some(program);
        }
    }
    None
}
