//! The symbols that own the bytes of a file: its own, or those of its separate debug file.

ghost use Rattle.std.specs.Prelude.{IfOk, IfSome, MatchResult};
ghost use Rattle.elfsize.specs.Sides.{AreNamedSymbols, AreSymbolsBy, IsAskedDebug, IsErrorBy};
ghost use Rattle.elfsize.specs.Sides.{IsInputError, IsSide};
ghost use Rattle.elfsize.specs.Symbols.{AreFew};

use crate::NAME;
use crate::lines::AnyError;
use crate::side::Side;
use crate::symbols::{Symbols, read_symbols};
use crate::view::{Options, View};
use program_debug::{Seeker, find_debug_file};
use std::alloc::{AllocError, Global};
use std::io::Write;
use std::rt::Files;
use xmas_elf::ElfFile;

/// The bytes of the debug file of a file with these bytes, if symbols are asked for, the file has no
/// symbol table, and debug files are looked for.
pub fn debug_bytes<R: Files, E: Write>(
    alloc: Global,
    rt: &R,
    options: Options<'_>,
    path: &str,
    input: &[u8],
    err: &mut E,
) -> Result<Option<Vec<u8>>, AllocError>
    ensures { IfOk result (λ found. IfSome found
        (λ bytes. IsAskedDebug options.entry input.now bytes.items)) }
{
    let (View::Symbols, Some(directory)) = (options.view, options.debug) else {
        return Ok(None);
    };
    let seeker = Seeker {
        name: NAME,
        directory,
    };
    find_debug_file(alloc, rt, seeker, path, input, err)
}

/// The file that these bytes are, with the symbols that are asked for: those of its debug file, if
/// it was found, or its own.
#[tactic(auto, using(crate::proofs::Inputs::side_is, crate::proofs::Inputs::header_error))]
pub fn side_of<'a>(
    options: Options<'_>,
    input: &'a [u8],
    found: &'a Option<Vec<u8>>,
) -> Result<Side<'a>, AnyError>
    requires { IfSome found.now (λ bytes. IsAskedDebug options input.now bytes.items) }
    ensures { MatchResult result (IsSide options.entry input.entry)
        (IsInputError options.entry input.entry) }
{
    let symbols = match named_symbols(options, input, found) {
        Ok(symbols) => symbols,
        Err(failure) => return Err(failure),
    };
    match ElfFile::new(input) {
        Ok(file) => Ok(Side { file, symbols }),
        Err(error) => Err(AnyError::Elf(error)),
    }
}

// The symbols of the debug file, if it was found, or those of the file itself.
#[tactic(auto, using(crate::proofs::Inputs::by_debug, crate::proofs::Inputs::by_own))]
fn named_symbols<'a>(
    options: Options<'_>,
    input: &'a [u8],
    found: &'a Option<Vec<u8>>,
) -> Result<Symbols<'a>, AnyError>
    requires { IfSome found.now (λ bytes. IsAskedDebug options input.now bytes.items) }
    ensures symbols { MatchResult result (AreNamedSymbols options.entry input.entry)
        (IsInputError options.entry input.entry) }
    ensures few { IfOk result AreFew }
{
    match found {
        Some(debug) => symbols_by(options.view, debug),
        None => symbols_by(options.view, input),
    }
}

// The symbols that a view asks for, of the file that these bytes are.
#[tactic(auto, using(crate::proofs::Inputs::by_bytes))]
fn symbols_by<'a>(view: View, bytes: &'a [u8]) -> Result<Symbols<'a>, AnyError>
    ensures symbols { MatchResult result (AreSymbolsBy view bytes.entry) (IsErrorBy view bytes.entry) }
    ensures few { IfOk result AreFew }
{
    let file = match ElfFile::new(bytes) {
        Ok(file) => file,
        Err(error) => return Err(AnyError::Elf(error)),
    };
    read_symbols(view, &file)
}
