//! The row of a relocation type, and what is read from it.

ghost use Rattle.std.specs.Prelude.{◌≡◌, option_map, unwrap_or};
ghost use Rattle.elf_linking.specs.RelocationTypes.{relative_kind, relative_of, row_of, rows_of};

use crate::find::Use;
use crate::references::types::{
    AARCH64, EM_386, EM_AARCH64, EM_X86_64, Formula, I386, Row, X86_64,
};

// The relocation types of a machine.
fn rows_of(machine: u16) -> &'static [Row]
    ensures { result.now ≡ rows_of machine }
{
    match machine {
        EM_X86_64 => &X86_64,
        EM_386 => &I386,
        EM_AARCH64 => &AARCH64,
        _ => &[],
    }
}

/// The row of a relocation type in a file for a machine (`e_machine`). A type that a dynamic linker
/// doesn't apply, or of another machine than x86-64, 386 and AArch64, has no formula and may name
/// any symbol.
pub fn row_of(machine: u16, kind: u32) -> Row
    ensures { result ≡ row_of machine kind }
{
    let unknown = Row {
        kind,
        formula: None,
        width: if machine == EM_386 { 4 } else { 8 },
        use_: Use::Any,
        names: true,
        slot: false,
    };
    rows_of(machine)
        .iter()
        .find(|row| row.kind == kind)
        .copied()
        .unwrap_or(unknown)
}

/// The formula of a relocation type in a file for a machine (`e_machine`), as glibc 2.36 applies it;
/// `None` for types that only a static linker applies, and for machines other than x86-64, 386 and
/// AArch64.
pub fn formula_of(machine: u16, kind: u32) -> Option<Formula>
    ensures { result ≡ (row_of machine kind).formula }
{
    row_of(machine, kind).formula
}

/// The number of bytes of the number that a relocation of this type writes: 4 for each type of 386,
/// and for `R_X86_64_32`, `R_X86_64_PC32` and `R_X86_64_SIZE32`; otherwise 8.
pub fn width_of(machine: u16, kind: u32) -> u32
    ensures { result ≡ (row_of machine kind).width }
{
    row_of(machine, kind).width
}

/// What a relocation of this type wants of its symbol, in a file for this machine (`e_machine`):
/// `Copy` for a copy relocation; `Defined` for a jump slot and for thread-local storage; otherwise
/// `Any`. The machines are x86-64, 386 and AArch64; for others it is always `Any`.
pub fn use_of(machine: u16, kind: u32) -> Use
    ensures { result ≡ (row_of machine kind).use_ }
{
    row_of(machine, kind).use_
}

/// The row of the relative relocations of a machine (`e_machine`), whose formula is `B + A`; `None`
/// for machines other than x86-64, 386 and AArch64.
pub fn relative_of(machine: u16) -> Option<Row>
    ensures exact { result ≡ relative_of machine }
    ensures kind { unwrap_or (option_map (λ row. row.kind) result) 8 ≡ relative_kind machine }
{
    rows_of(machine)
        .iter()
        .find(|row| matches!(row.formula, Some(Formula::Base)))
        .copied()
}
