//! The separate debug file of a file without a symbol table, whose symbols name the addresses of the file.

ghost use Rattle.std.specs.Prelude.{IfOk, IfSome};
ghost use Rattle.elfaddr.specs.Debug.{IsAskedDebug};

use crate::{NAME, Options, Source};
use program_debug::{Seeker, find_debug_file};
use std::alloc::AllocError;
use std::io::Write;

/// The bytes of the debug file of a file with these bytes, if the options ask for `.symtab`, the file
/// has none, and debug files are looked for.
pub fn debug_bytes<E: Write>(
    rt: &HostRuntime,
    path: &str,
    options: Options<'_>,
    input: &[u8],
    err: &mut E,
) -> Result<Option<Vec<u8>>, AllocError>
    ensures { IfOk result (λ found. IfSome found
        (λ bytes. IsAskedDebug options.entry input.now bytes.items)) }
{
    let (Source::Symtab, Some(directory)) = (options.source, options.debug) else {
        return Ok(None);
    };
    let seeker = Seeker {
        name: NAME,
        directory,
    };
    find_debug_file(rt.alloc(), rt, seeker, path, input, err)
}
