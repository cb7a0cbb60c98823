//! The relocation types that a dynamic linker applies, by machine: a row for each
//! (the processor supplements of the System V ABI; which of them take an addend, and which want a
//! defined symbol, as glibc 2.36 has it). `references::relocation_name` names all types.

use crate::find::Use;
use crate::references::types::Formula::{
    Base, Call, Descriptor, Distance, Module, Offset, OffsetAlone, Size, Symbol, SymbolAlone,
    Thread, ThreadNegated, Unchanged,
};

/// `EM_386`: the machine of the 386 (gABI, "ELF Header", e_machine).
pub const EM_386: u16 = 3;

/// `EM_X86_64`: the machine x86-64 (gABI, "ELF Header", e_machine).
pub const EM_X86_64: u16 = 62;

/// `EM_AARCH64`: the machine AArch64 (gABI, "ELF Header", e_machine).
pub const EM_AARCH64: u16 = 183;

/// `R_X86_64_NONE`: relocates nothing (x86-64 psABI, "Relocation Types").
pub const R_X86_64_NONE: u32 = 0;

/// `R_X86_64_64`: the symbol and the addend, in 64 bits (x86-64 psABI, "Relocation Types").
pub const R_X86_64_64: u32 = 1;

/// `R_X86_64_PC32`: the symbol and the addend less the location, in 32 bits (x86-64 psABI).
pub const R_X86_64_PC32: u32 = 2;

/// `R_X86_64_COPY`: copies the object of the symbol (x86-64 psABI, "Relocation Types").
pub const R_X86_64_COPY: u32 = 5;

/// `R_X86_64_GLOB_DAT`: the symbol, in an entry of the global offset table (x86-64 psABI).
pub const R_X86_64_GLOB_DAT: u32 = 6;

/// `R_X86_64_JUMP_SLOT`: an entry of the procedure linkage table (x86-64 psABI).
pub const R_X86_64_JUMP_SLOT: u32 = 7;

/// `R_X86_64_RELATIVE`: the load address and the addend (x86-64 psABI).
pub const R_X86_64_RELATIVE: u32 = 8;

/// `R_X86_64_32`: the symbol and the addend, in 32 bits (x86-64 psABI).
pub const R_X86_64_32: u32 = 10;

/// `R_X86_64_DTPMOD64`: the module of a thread-local variable (x86-64 psABI).
pub const R_X86_64_DTPMOD64: u32 = 16;

/// `R_X86_64_DTPOFF64`: the offset of a thread-local variable in its module (x86-64 psABI).
pub const R_X86_64_DTPOFF64: u32 = 17;

/// `R_X86_64_TPOFF64`: the offset of a thread-local variable from the thread pointer (x86-64
/// psABI).
pub const R_X86_64_TPOFF64: u32 = 18;

/// `R_X86_64_SIZE32`: the size of the symbol and the addend, in 32 bits (x86-64 psABI).
pub const R_X86_64_SIZE32: u32 = 32;

/// `R_X86_64_SIZE64`: the size of the symbol and the addend, in 64 bits (x86-64 psABI).
pub const R_X86_64_SIZE64: u32 = 33;

/// `R_X86_64_TLSDESC`: the descriptor of a thread-local variable (x86-64 psABI).
pub const R_X86_64_TLSDESC: u32 = 36;

/// `R_X86_64_IRELATIVE`: the result of the function at the load address and the addend (x86-64
/// psABI).
pub const R_X86_64_IRELATIVE: u32 = 37;

/// `R_X86_64_RELATIVE64`: the load address and the addend, in 64 bits (x86-64 psABI, ILP32).
pub const R_X86_64_RELATIVE64: u32 = 38;

/// `R_386_NONE`: relocates nothing (386 psABI, "Relocation Types").
pub const R_386_NONE: u32 = 0;

/// `R_386_32`: the symbol and the addend (386 psABI, "Relocation Types").
pub const R_386_32: u32 = 1;

/// `R_386_PC32`: the symbol and the addend less the location (386 psABI).
pub const R_386_PC32: u32 = 2;

/// `R_386_COPY`: copies the object of the symbol (386 psABI, "Relocation Types").
pub const R_386_COPY: u32 = 5;

/// `R_386_GLOB_DAT`: the symbol, in an entry of the global offset table (386 psABI).
pub const R_386_GLOB_DAT: u32 = 6;

/// `R_386_JMP_SLOT`: an entry of the procedure linkage table (386 psABI).
pub const R_386_JMP_SLOT: u32 = 7;

/// `R_386_RELATIVE`: the load address and the addend (386 psABI).
pub const R_386_RELATIVE: u32 = 8;

/// `R_386_TLS_TPOFF`: the offset of a thread-local variable from the thread pointer, which is
/// negative (386 psABI).
pub const R_386_TLS_TPOFF: u32 = 14;

/// `R_386_TLS_DTPMOD32`: the module of a thread-local variable (386 psABI).
pub const R_386_TLS_DTPMOD32: u32 = 35;

/// `R_386_TLS_DTPOFF32`: the offset of a thread-local variable in its module (386 psABI).
pub const R_386_TLS_DTPOFF32: u32 = 36;

/// `R_386_TLS_TPOFF32`: the offset of a thread-local variable from the thread pointer, negated (386
/// psABI).
pub const R_386_TLS_TPOFF32: u32 = 37;

/// `R_386_SIZE32`: the size of the symbol and the addend (386 psABI).
pub const R_386_SIZE32: u32 = 38;

/// `R_386_TLS_DESC`: the descriptor of a thread-local variable (386 psABI).
pub const R_386_TLS_DESC: u32 = 41;

/// `R_386_IRELATIVE`: the result of the function at the load address and the addend (386 psABI).
pub const R_386_IRELATIVE: u32 = 42;

/// `R_AARCH64_NONE`: relocates nothing (AArch64 psABI, "Relocation types").
pub const R_AARCH64_NONE: u32 = 0;

/// `R_AARCH64_ABS64`: the symbol and the addend, in 64 bits (AArch64 psABI).
pub const R_AARCH64_ABS64: u32 = 257;

/// `R_AARCH64_ABS32`: the symbol and the addend, in 32 bits (AArch64 psABI). glibc 2.36 writes 64
/// bits (sysdeps/aarch64/dl-machine.h, elf_machine_rela).
pub const R_AARCH64_ABS32: u32 = 258;

/// `R_AARCH64_COPY`: copies the object of the symbol (AArch64 psABI, "Dynamic relocations").
pub const R_AARCH64_COPY: u32 = 1024;

/// `R_AARCH64_GLOB_DAT`: the symbol and the addend, in an entry of the global offset table (AArch64
/// psABI).
pub const R_AARCH64_GLOB_DAT: u32 = 1025;

/// `R_AARCH64_JUMP_SLOT`: an entry of the procedure linkage table (AArch64 psABI).
pub const R_AARCH64_JUMP_SLOT: u32 = 1026;

/// `R_AARCH64_RELATIVE`: the load address and the addend (AArch64 psABI).
pub const R_AARCH64_RELATIVE: u32 = 1027;

/// `R_AARCH64_TLS_DTPMOD`: the module of a thread-local variable (AArch64 psABI).
pub const R_AARCH64_TLS_DTPMOD: u32 = 1028;

/// `R_AARCH64_TLS_DTPREL`: the offset of a thread-local variable in its module (AArch64 psABI).
pub const R_AARCH64_TLS_DTPREL: u32 = 1029;

/// `R_AARCH64_TLS_TPREL`: the offset of a thread-local variable from the thread pointer (AArch64
/// psABI).
pub const R_AARCH64_TLS_TPREL: u32 = 1030;

/// `R_AARCH64_TLSDESC`: the descriptor of a thread-local variable (AArch64 psABI).
pub const R_AARCH64_TLSDESC: u32 = 1031;

/// `R_AARCH64_IRELATIVE`: the result of the function at the load address and the addend (AArch64
/// psABI).
pub const R_AARCH64_IRELATIVE: u32 = 1032;

/// How a dynamic linker computes the word that a relocation writes.
///
/// In the letters of the processor supplements S is the address of the symbol, Z its size, A the
/// addend, P the address of the word, and B the base of the own file.
#[derive(Clone, Copy, Debug, PartialEq, Eq)]
pub enum Formula {
    /// No word is written.
    Unchanged,
    /// `B + A`: the base of the own file plus the addend. These are the relative relocations.
    Base,
    /// `S + A`: the symbol plus the addend.
    Symbol,
    /// `S`: the symbol. The addend isn't used.
    SymbolAlone,
    /// `S + A - P`: the symbol plus the addend, less the address of the word.
    Distance,
    /// `Z + A`: the size of the symbol plus the addend.
    Size,
    /// `LDM(S)` (AArch64): the number of the module of thread-local storage with the symbol.
    Module,
    /// `DTPREL(S + A)` (AArch64): the offset of the symbol in its module of thread-local storage,
    /// plus the addend.
    Offset,
    /// `DTPREL(S)`: the offset of the symbol in its module. The addend isn't used.
    OffsetAlone,
    /// `TPREL(S + A)` (AArch64): the offset of the symbol from the thread pointer, plus the addend.
    Thread,
    /// `A - TPREL(S)`: the addend, less the offset of the symbol from the thread pointer.
    ThreadNegated,
    /// `TLSDESC(S + A)` (AArch64): the descriptor of a thread-local symbol plus the addend: two
    /// words.
    Descriptor,
    /// `indirect (B + A)` (x86-64): what the function at the base of the own file plus the addend
    /// returns.
    Call,
    /// The bytes of the symbol's object.
    Copy,
}

/// A relocation type.
#[derive(Clone, Copy, Debug, PartialEq, Eq)]
pub struct Row {
    /// Its number.
    pub kind: u32,
    /// What it writes; `None` if only a static linker applies it.
    pub formula: Option<Formula>,
    /// The number of bytes of the number that it writes: 4 or 8.
    pub width: u32,
    /// What it wants of its symbol.
    pub use_: Use,
    /// Whether it names a symbol; otherwise it takes none, whatever the index is. The type IRELATIVE
    /// names the symbol at its index, as glibc's linker has it: it is looked up, and what is found
    /// isn't used.
    pub names: bool,
    /// Whether it is that of the jump slots of the procedure linkage table.
    pub slot: bool,
}

/// The types of x86-64 (x86-64 psABI, "Relocation Types").
#[rattlefmt::skip]
pub const X86_64: [Row; 16] = [
    Row { kind: R_X86_64_NONE,       formula: Some(Unchanged),     width: 8, use_: Use::Any,     names: false, slot: false },
    Row { kind: R_X86_64_64,         formula: Some(Symbol),        width: 8, use_: Use::Any,     names: true,  slot: false },
    Row { kind: R_X86_64_PC32,       formula: Some(Distance),      width: 4, use_: Use::Any,     names: true,  slot: false },
    Row { kind: R_X86_64_COPY,       formula: Some(Formula::Copy), width: 8, use_: Use::Copy,    names: true,  slot: false },
    Row { kind: R_X86_64_GLOB_DAT,   formula: Some(SymbolAlone),   width: 8, use_: Use::Any,     names: true,  slot: false },
    Row { kind: R_X86_64_JUMP_SLOT,  formula: Some(SymbolAlone),   width: 8, use_: Use::Defined, names: true,  slot: true },
    Row { kind: R_X86_64_RELATIVE,   formula: Some(Base),          width: 8, use_: Use::Any,     names: false, slot: false },
    Row { kind: R_X86_64_32,         formula: Some(Symbol),        width: 4, use_: Use::Any,     names: true,  slot: false },
    Row { kind: R_X86_64_DTPMOD64,   formula: Some(Module),        width: 8, use_: Use::Defined, names: true,  slot: false },
    Row { kind: R_X86_64_DTPOFF64,   formula: Some(Offset),        width: 8, use_: Use::Defined, names: true,  slot: false },
    Row { kind: R_X86_64_TPOFF64,    formula: Some(Thread),        width: 8, use_: Use::Defined, names: true,  slot: false },
    Row { kind: R_X86_64_SIZE32,     formula: Some(Size),          width: 4, use_: Use::Any,     names: true,  slot: false },
    Row { kind: R_X86_64_SIZE64,     formula: Some(Size),          width: 8, use_: Use::Any,     names: true,  slot: false },
    Row { kind: R_X86_64_TLSDESC,    formula: Some(Descriptor),    width: 8, use_: Use::Defined, names: true,  slot: false },
    Row { kind: R_X86_64_IRELATIVE,  formula: Some(Call),          width: 8, use_: Use::Any,     names: true,  slot: false },
    Row { kind: R_X86_64_RELATIVE64, formula: Some(Base),          width: 8, use_: Use::Any,     names: false, slot: false },
];

/// The types of the 386 (386 psABI, "Relocation Types"), each of 4 bytes.
#[rattlefmt::skip]
pub const I386: [Row; 14] = [
    Row { kind: R_386_NONE,         formula: Some(Unchanged),     width: 4, use_: Use::Any,     names: false, slot: false },
    Row { kind: R_386_32,           formula: Some(Symbol),        width: 4, use_: Use::Any,     names: true,  slot: false },
    Row { kind: R_386_PC32,         formula: Some(Distance),      width: 4, use_: Use::Any,     names: true,  slot: false },
    Row { kind: R_386_COPY,         formula: Some(Formula::Copy), width: 4, use_: Use::Copy,    names: true,  slot: false },
    Row { kind: R_386_GLOB_DAT,     formula: Some(SymbolAlone),   width: 4, use_: Use::Any,     names: true,  slot: false },
    Row { kind: R_386_JMP_SLOT,     formula: Some(SymbolAlone),   width: 4, use_: Use::Defined, names: true,  slot: true },
    Row { kind: R_386_RELATIVE,     formula: Some(Base),          width: 4, use_: Use::Any,     names: false, slot: false },
    Row { kind: R_386_TLS_TPOFF,    formula: Some(Thread),        width: 4, use_: Use::Defined, names: true,  slot: false },
    Row { kind: R_386_TLS_DTPMOD32, formula: Some(Module),        width: 4, use_: Use::Defined, names: true,  slot: false },
    Row { kind: R_386_TLS_DTPOFF32, formula: Some(OffsetAlone),   width: 4, use_: Use::Defined, names: true,  slot: false },
    Row { kind: R_386_TLS_TPOFF32,  formula: Some(ThreadNegated), width: 4, use_: Use::Defined, names: true,  slot: false },
    Row { kind: R_386_SIZE32,       formula: Some(Size),          width: 4, use_: Use::Any,     names: true,  slot: false },
    Row { kind: R_386_TLS_DESC,     formula: Some(Descriptor),    width: 4, use_: Use::Defined, names: true,  slot: false },
    Row { kind: R_386_IRELATIVE,    formula: Some(Call),          width: 4, use_: Use::Any,     names: true,  slot: false },
];

/// The types of AArch64 (AArch64 psABI, "Static Data relocations" and "Dynamic relocations").
#[rattlefmt::skip]
pub const AARCH64: [Row; 12] = [
    Row { kind: R_AARCH64_NONE,       formula: Some(Unchanged),     width: 8, use_: Use::Any,     names: false, slot: false },
    Row { kind: R_AARCH64_ABS64,      formula: Some(Symbol),        width: 8, use_: Use::Any,     names: true,  slot: false },
    Row { kind: R_AARCH64_ABS32,      formula: Some(Symbol),        width: 8, use_: Use::Any,     names: true,  slot: false },
    Row { kind: R_AARCH64_COPY,       formula: Some(Formula::Copy), width: 8, use_: Use::Copy,    names: true,  slot: false },
    Row { kind: R_AARCH64_GLOB_DAT,   formula: Some(Symbol),        width: 8, use_: Use::Any,     names: true,  slot: false },
    Row { kind: R_AARCH64_JUMP_SLOT,  formula: Some(Symbol),        width: 8, use_: Use::Defined, names: true,  slot: true },
    Row { kind: R_AARCH64_RELATIVE,   formula: Some(Base),          width: 8, use_: Use::Any,     names: false, slot: false },
    Row { kind: R_AARCH64_TLS_DTPMOD, formula: Some(Module),        width: 8, use_: Use::Defined, names: true,  slot: false },
    Row { kind: R_AARCH64_TLS_DTPREL, formula: Some(Offset),        width: 8, use_: Use::Defined, names: true,  slot: false },
    Row { kind: R_AARCH64_TLS_TPREL,  formula: Some(Thread),        width: 8, use_: Use::Defined, names: true,  slot: false },
    Row { kind: R_AARCH64_TLSDESC,    formula: Some(Descriptor),    width: 8, use_: Use::Defined, names: true,  slot: false },
    Row { kind: R_AARCH64_IRELATIVE,  formula: Some(Call),          width: 8, use_: Use::Any,     names: true,  slot: false },
];
