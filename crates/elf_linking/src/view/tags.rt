//! The tags of dynamic entries (gABI, "Dynamic Section", d_tag).

/// `DT_NULL`: the end of the entries (gABI).
pub const DT_NULL: u64 = 0;

/// `DT_NEEDED`: the name of a library that the file needs, as an offset in the string table (gABI).
pub const DT_NEEDED: u64 = 1;

/// `DT_PLTRELSZ`: the size of the relocations of the procedure linkage table, in bytes (gABI).
pub const DT_PLTRELSZ: u64 = 2;

/// `DT_PLTGOT`: an address that the processor's ABI defines, of the global offset table or the
/// procedure linkage table (gABI).
pub const DT_PLTGOT: u64 = 3;

/// `DT_HASH`: the address of the symbol hash table of the ELF standard (gABI).
pub const DT_HASH: u64 = 4;

/// `DT_STRTAB`: the address of the string table (gABI).
pub const DT_STRTAB: u64 = 5;

/// `DT_SYMTAB`: the address of the symbol table (gABI).
pub const DT_SYMTAB: u64 = 6;

/// `DT_RELA`: the address of the relocations with addends (gABI).
pub const DT_RELA: u64 = 7;

/// `DT_RELASZ`: the size of the relocations with addends, in bytes (gABI).
pub const DT_RELASZ: u64 = 8;

/// `DT_RELAENT`: the size of a relocation with an addend in bytes (gABI).
pub const DT_RELAENT: u64 = 9;

/// `DT_STRSZ`: the size of the string table, in bytes (gABI).
pub const DT_STRSZ: u64 = 10;

/// `DT_SYMENT`: the size of a symbol in bytes (gABI).
pub const DT_SYMENT: u64 = 11;

/// `DT_INIT`: the address of the function that runs first (gABI).
pub const DT_INIT: u64 = 12;

/// `DT_FINI`: the address of the function that runs last (gABI).
pub const DT_FINI: u64 = 13;

/// `DT_SONAME`: the name of this library, as an offset in the string table (gABI).
pub const DT_SONAME: u64 = 14;

/// `DT_RPATH`: the search path for libraries of older files, as an offset in the string table
/// (gABI).
pub const DT_RPATH: u64 = 15;

/// `DT_SYMBOLIC`: references of this library are bound within it first (gABI).
pub const DT_SYMBOLIC: u64 = 16;

/// `DT_REL`: the address of the relocations without addends (gABI).
pub const DT_REL: u64 = 17;

/// `DT_RELSZ`: the size of the relocations without addends, in bytes (gABI).
pub const DT_RELSZ: u64 = 18;

/// `DT_RELENT`: the size of a relocation without an addend in bytes (gABI).
pub const DT_RELENT: u64 = 19;

/// `DT_PLTREL`: the kind of the relocations of the procedure linkage table: the number of `DT_REL`
/// or of `DT_RELA` (gABI).
pub const DT_PLTREL: u64 = 20;

/// `DT_DEBUG`: a place for a debugger (gABI).
pub const DT_DEBUG: u64 = 21;

/// `DT_TEXTREL`: relocations may change a segment that is not writable (gABI).
pub const DT_TEXTREL: u64 = 22;

/// `DT_JMPREL`: the address of the relocations of the procedure linkage table (gABI).
pub const DT_JMPREL: u64 = 23;

/// `DT_BIND_NOW`: all references are resolved before the program runs (gABI).
pub const DT_BIND_NOW: u64 = 24;

/// `DT_INIT_ARRAY`: the address of the addresses of functions that run first (gABI).
pub const DT_INIT_ARRAY: u64 = 25;

/// `DT_FINI_ARRAY`: the address of the addresses of functions that run last (gABI).
pub const DT_FINI_ARRAY: u64 = 26;

/// `DT_INIT_ARRAYSZ`: the size of DT_INIT_ARRAY's array in bytes (gABI).
pub const DT_INIT_ARRAYSZ: u64 = 27;

/// `DT_FINI_ARRAYSZ`: the size of DT_FINI_ARRAY's array in bytes (gABI).
pub const DT_FINI_ARRAYSZ: u64 = 28;

/// `DT_RUNPATH`: the search path for libraries, as an offset in the string table (gABI).
pub const DT_RUNPATH: u64 = 29;

/// `DT_FLAGS`: flags of the file, among them `DF_SYMBOLIC`, 2, with the meaning of `DT_SYMBOLIC`
/// (gABI).
pub const DT_FLAGS: u64 = 30;

/// `DT_PREINIT_ARRAY`: the address of the addresses of functions that run before the first (gABI).
pub const DT_PREINIT_ARRAY: u64 = 32;

/// `DT_PREINIT_ARRAYSZ`: the size of DT_PREINIT_ARRAY's array in bytes (gABI).
pub const DT_PREINIT_ARRAYSZ: u64 = 33;

/// `DT_SYMTAB_SHNDX`: the address of section indices of symbols that need more than 16 bits (gABI).
pub const DT_SYMTAB_SHNDX: u64 = 34;

/// `DT_RELRSZ`: the size of the packed relative relocations, in bytes (gABI).
pub const DT_RELRSZ: u64 = 35;

/// `DT_RELR`: the address of the packed relative relocations (gABI).
pub const DT_RELR: u64 = 36;

/// `DT_RELRENT`: the size of a word of the relative relocations in bytes (gABI).
pub const DT_RELRENT: u64 = 37;

/// `DT_GNU_PRELINKED`: the time of prelinking (`elf.h` of glibc).
pub const DT_GNU_PRELINKED: u64 = 0x6fff_fdf5;

/// `DT_CHECKSUM`: a checksum of the file (Solaris and GNU, `elf.h`).
pub const DT_CHECKSUM: u64 = 0x6fff_fdf8;

/// `DT_FEATURE_1`: features that the file uses (Solaris and GNU, `elf.h`).
pub const DT_FEATURE_1: u64 = 0x6fff_fdfc;

/// `DT_GNU_HASH`: the address of GNU's hash table (GNU binutils and glibc, `elf.h`).
pub const DT_GNU_HASH: u64 = 0x6fff_fef5;

/// `DT_TLSDESC_PLT`: the address of the code that resolves descriptors of thread-local storage
/// (`elf.h` of glibc).
pub const DT_TLSDESC_PLT: u64 = 0x6fff_fef6;

/// `DT_TLSDESC_GOT`: the address that this code uses (`elf.h` of glibc).
pub const DT_TLSDESC_GOT: u64 = 0x6fff_fef7;

/// `DT_DEPAUDIT`: shared objects that watch the file's dependencies, an index of the string table
/// (Solaris and GNU, `elf.h`).
pub const DT_DEPAUDIT: u64 = 0x6fff_fefb;

/// `DT_AUDIT`: shared objects that watch the file, an index of the string table (Solaris and GNU,
/// `elf.h`).
pub const DT_AUDIT: u64 = 0x6fff_fefc;

/// `DT_VERSYM`: the address of the numbers of symbols' versions (LSB, "Symbol Versioning").
pub const DT_VERSYM: u64 = 0x6fff_fff0;

/// `DT_RELACOUNT`: the number of relative relocations with addends (Solaris and GNU, `elf.h`).
pub const DT_RELACOUNT: u64 = 0x6fff_fff9;

/// `DT_RELCOUNT`: the number of relative relocations without addends (Solaris and GNU, `elf.h`).
pub const DT_RELCOUNT: u64 = 0x6fff_fffa;

/// `DT_FLAGS_1`: more flags (DF_1_) (Solaris and GNU, `elf.h`).
pub const DT_FLAGS_1: u64 = 0x6fff_fffb;

/// `DT_VERDEF`: the address of the versions that the file defines (LSB, "Symbol Versioning").
pub const DT_VERDEF: u64 = 0x6fff_fffc;

/// `DT_VERDEFNUM`: the number of versions that the file defines (LSB, "Symbol Versioning").
pub const DT_VERDEFNUM: u64 = 0x6fff_fffd;

/// `DT_VERNEED`: the address of the versions that the file needs of libraries (LSB, "Symbol
/// Versioning").
pub const DT_VERNEED: u64 = 0x6fff_fffe;

/// `DT_VERNEEDNUM`: the number of libraries of which the file needs versions (LSB, "Symbol
/// Versioning").
pub const DT_VERNEEDNUM: u64 = 0x6fff_ffff;

/// `DT_AUXILIARY`: a shared object that is searched first, an index of the string table (Solaris
/// and GNU, `elf.h`).
pub const DT_AUXILIARY: u64 = 0x7fff_fffd;

/// `DT_FILTER`: a shared object that is searched in place of this one, an index of the string table
/// (Solaris and GNU, `elf.h`).
pub const DT_FILTER: u64 = 0x7fff_ffff;
