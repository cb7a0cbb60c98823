//! The dynamic symbols of a file, in one value (gABI, "Dynamic Section", "Hash Table" and "Symbol
//! Table"; LSB, "Symbol Versioning").

ghost use Rattle.std.specs.Borrow.{Bor};
ghost use Rattle.std.specs.Prelude.{◌≡◌, ◌↔◌, ℕ, Contains, Err, IfOk, IfSome, IsOk, IsOkAnd, MatchOption};
ghost use Rattle.std.specs.Prelude.{MatchResult, Ok, Option, Result, Some, length, slice_get};
ghost use Rattle.std.specs.Prelude.{◌<◌, ◌^◌, ⊤, true};
ghost use Rattle.std.specs.Result.{result_ok};
ghost use Rattle.elf_base.specs.FileHeader.{file_order};
ghost use Rattle.elf_base.specs.Lent.{LiesAt};
ghost use Rattle.elf_base.specs.Table.{table_bytes, table_data, table_order};
ghost use Rattle.elf_linking.specs.DynamicView.{LieAsSymbols, as_linked_text, is_symbolic};
ghost use Rattle.elf_linking.specs.DynamicView.{view_entries};
ghost use Rattle.elf_linking.specs.Loaded.{lent};
ghost use Rattle.elf_linking.specs.declared.error.LinkError.{LinkError};

use crate::find::{Use, Wanted};
use crate::gnu_hash::gnu_hash_of_bytes;
use crate::references::References;
use crate::versions::{SymbolVersion, Versions};
use crate::view::{DynamicView, LinkedSymbol, text_by};
use crate::{AnyTable, LinkError};
use elf_base::bytes::{Record, Table};
use elf_base::header::Header;
use std::alloc::AllocError;
use xmas_elf::ElfFile;
use xmas_elf::symbol_table::SymbolTable;

/// The dynamic segment of a file with its symbols: the hash table, the symbols, the string table of
/// their names, and the version tables.
///
/// They are read once, so that no call on this value except `references` reads the program headers
/// or the dynamic segment again, and none looks for a string table.
pub struct DynamicObject<'a, E: Record> {
    view: DynamicView<'a>,
    table: AnyTable<'a>,
    symbols: Table<'a, E>,
    strings: &'a [u8],
    versions: Versions<'a>,
    // The file, whose type can't be copied.
    input: &'a [u8],
    header: Header,
}

impl<E: Record> Clone for DynamicObject<'_, E> {
    ghost is_clone = { λ x y. y ≡ x };

    ghost is_infallible = { λ _. ⊤ };

    fn clone(&self) -> Result<Self, AllocError> {
        Ok(*self)
    }
}

impl<E: Record> Copy for DynamicObject<'_, E> {}

impl<'a, E: LinkedSymbol> DynamicObject<'a, E> {
    ghost use Rattle.elf_linking.specs.AnyTable.{FindsAllBy, IsDefinedBy, LooksBy, LooksForDefined};
    ghost use Rattle.elf_linking.specs.AnyTable.{IsCheckBy, IsGoodBy};
    ghost use Rattle.elf_linking.specs.DynamicObject.{AreOfClassFor, object_file, object_symbols};
    ghost use Rattle.elf_linking.specs.DynamicObject.{IsNameAt, IsObjectError, IsReachedObject};
    ghost use Rattle.elf_linking.specs.DynamicObject.{IsObject, object_name, object_view};
    ghost use Rattle.elf_linking.specs.DynamicObject.{IsObjectFor, object_machine, object_versions};
    ghost use Rattle.elf_linking.specs.DynamicObject.{IsObjectErrorFor, object_dynamic_symbols};
    ghost use Rattle.elf_linking.specs.DynamicObject.{IsObjectErrorOf, IsObjectOfBytes};
    ghost use Rattle.elf_linking.specs.DynamicObject.{IsReachedError, object_name_bytes};
    ghost use Rattle.elf_linking.specs.DynamicObject.{object_records, object_strings, object_table};
    ghost use Rattle.elf_linking.specs.Find.{AreReadable, FindsRight, IsFound};
    ghost use Rattle.elf_linking.specs.Layouts.{gnu_hash_number};
    ghost use Rattle.elf_linking.specs.References.{references_left, references_of};
    ghost use Rattle.elf_linking.specs.Versions.{HasReadableName, version_tables, versions_error};
    ghost use Rattle.elf_linking.specs.Versions.{IsVersion, entry_item, version_item, version_list};
    ghost use Rattle.elf_linking.specs.Versions.{named_at, version_at};
    ghost use Rattle.xmas_elf.specs.SymbolTable.{carried_strings, carried_table, carries_bytes};
    ghost use Rattle.xmas_elf.specs.SymbolTable.{table_symbols};
    ghost use Rattle.xmas_elf.specs.Symbols.{Decides, IsMatch};

    /// Reads the dynamic segment of a file of the class of `E`, and what it leads to.
    ///
    /// Errors, the first of these: those of `DynamicView::read`; those of `AnyTable::read`;
    /// `UnknownClass` if the file has another class; those of `DynamicView::symbols`; those of
    /// `DynamicView::strings`; those of `Versions::read`.
    pub fn read(file: &ElfFile<'a>) -> Result<Self, LinkError>
        ensures { MatchResult result (IsObject E.CLASS E.SIZE file.now)
            (IsObjectError E.CLASS E.SIZE file.now) }
    {
        Self::read_for(file, None)
    }

    /// Reads the same with as many symbols as are given. `read` has those that the hash table counts,
    /// which are none of a program that exports nothing and was made by GNU's linker:
    /// `DynamicView::reached_count` counts those that its relocations name too.
    ///
    /// Errors, the first of these: those of `DynamicView::read`; those of `AnyTable::read`;
    /// `UnknownClass` if the file has another class; those of `DynamicView::counted_records`; those
    /// of `DynamicView::strings`; those of `Versions::read`.
    pub fn read_counted(file: &ElfFile<'a>, count: u64) -> Result<Self, LinkError>
        ensures { MatchResult result (IsObjectFor (Some count) E.CLASS E.SIZE file.now)
            (IsObjectErrorFor (Some count) E.CLASS E.SIZE file.now) }
    {
        Self::read_for(file, Some(count))
    }

    /// Reads the same with as many symbols as look-ups and relocations reach: the result of
    /// `read_counted` for that of `DynamicView::reached_count`.
    ///
    /// Errors, the first of these: those of `DynamicView::read`; those of
    /// `DynamicView::reached_count`; those of `read_counted`.
    pub fn read_reached(file: &ElfFile<'a>) -> Result<Self, LinkError>
        ensures { MatchResult result (IsReachedObject E.CLASS E.SIZE file.now)
            (IsReachedError E.CLASS E.SIZE file.now) }
    {
        let view = DynamicView::read(file)?;
        let count = view.reached_count(file)?;
        Self::read_counted(file, count)
    }

    /// Reads the same of the file in these bytes.
    ///
    /// Errors, the first of these: those of `ElfFile::new`; those of `read_reached`.
    pub fn of_bytes(bytes: &'a [u8]) -> Result<Self, LinkError>
        ensures exact { MatchResult result (IsObjectOfBytes E.CLASS E.SIZE bytes.now)
            (IsObjectErrorOf E.CLASS E.SIZE bytes.now) }
        ensures place { IfOk result (λ object. (object_file object).input ≡ bytes.entry) }
    {
        match ElfFile::new(bytes) {
            Ok(file) => Self::read_reached(&file),
            Err(error) => Err(LinkError::Elf(error)),
        }
    }

    // Reads the dynamic segment of a file with as many symbols as are given, otherwise with as many
    // as the hash table counts.
    fn read_for(file: &ElfFile<'a>, count: Option<u64>) -> Result<Self, LinkError>
        ensures { MatchResult result (IsObjectFor count E.CLASS E.SIZE file.now)
            (IsObjectErrorFor count E.CLASS E.SIZE file.now) }
    {
        let view = DynamicView::read(file)?;
        let table = AnyTable::read(&view, file)?;
        let symbols = Self::symbols_of_class(&view, file, count)?;
        let strings = view.strings()?;
        let versions = Versions::read(&view, file, symbols.len() as u64)?;
        Ok(Self {
            view,
            table,
            symbols,
            strings,
            versions,
            input: file.input,
            header: file.header,
        })
    }

    /// The dynamic segment: its entries, the libraries that the file needs, and the file's own name.
    pub fn view(&self) -> DynamicView<'a>
        ensures { result ≡ object_view self.now }
    {
        self.view
    }

    /// The file that it was read from.
    pub fn file(&self) -> ElfFile<'a>
        ensures { result ≡ object_file self.now }
    {
        ElfFile {
            input: self.input,
            header: self.header,
        }
    }

    /// The hash table of the symbols.
    pub fn table(&self) -> AnyTable<'a>
        ensures { result ≡ object_table self.now }
    {
        self.table
    }

    /// The version tables.
    pub fn versions(&self) -> Versions<'a>
        ensures { result ≡ object_versions self.now }
    {
        self.versions
    }

    /// Whether references of the file are bound within it first: the result of
    /// `DynamicView::is_symbolic`.
    pub fn is_symbolic(&self) -> bool
        ensures { result ≡ is_symbolic (view_entries (object_view self.now)) }
    {
        self.view.is_symbolic()
    }

    // The machine of the file (gABI, "ELF Header", e_machine).
    pub(crate) fn machine(&self) -> u16
        ensures { result ≡ object_machine self.now }
    {
        self.header.pt2.machine().raw()
    }

    /// The symbols with the bytes of their names, which look-ups and checks compare whether or not
    /// they are UTF-8, as in glibc.
    pub fn symbols(&self) -> SymbolTable<'a, E>
        ensures symbols { table_symbols result ≡ object_symbols E.fields self.now }
        ensures table { carried_table result ≡ object_records self.now }
        ensures strings { carried_strings result ≡ Some (Ok (object_strings self.now)) }
        ensures as_bytes { carries_bytes result ≡ true }
    {
        SymbolTable::with_byte_names(self.symbols, self.strings)
    }

    /// The number of symbols.
    pub fn symbol_count(&self) -> usize
        ensures { result ≡ length (object_symbols E.fields self.now).items }
    {
        self.symbols.len()
    }

    /// The symbol at an index, or `None` if it is `symbol_count` or more.
    pub fn symbol(&self, index: u32) -> Option<E>
        ensures { result ≡ slice_get (object_symbols E.fields self.now).items index }
    {
        self.symbols.get(index as usize)
    }

    /// The name of the symbol at an index, which lives as long as the input.
    ///
    /// Errors: `SymbolIndex` if there is no such symbol; `Elf` with those of `bytes::text_at`.
    pub fn name(&self, index: u32) -> Result<&'a str, LinkError>
        ensures text { let all = object_symbols E.fields self.now in
            IsNameAt all.text (slice_get all.items index) result }
        ensures exact { lent result ≡ object_name E.fields self.now index }
    {
        match self.symbol(index) {
            Some(symbol) => text_by(Ok(self.strings), u64::from(symbol.name())),
            None => Err(LinkError::SymbolIndex),
        }
    }

    /// The bytes of the name of the symbol at an index, whether or not they are UTF-8: the text of
    /// `name`, where that is Ok.
    ///
    /// Errors: those of `name` except `TextUtf8`.
    #[tactic(auto, using(crate::proofs::NeededTexts::text_as_bytes))]
    pub fn name_bytes(&self, index: u32) -> Result<&'a [u8], LinkError>
        ensures named { let all = object_symbols E.fields self.now in
            MatchOption (slice_get all.items index) (result ≡ Err LinkError.SymbolIndex)
            (λ symbol. result_ok (lent result) ≡ all.text symbol) }
        ensures place { let all = object_symbols E.fields self.now in
            IfSome (slice_get all.items index) (λ symbol.
            IfOk result (LiesAt (object_strings self.now) (E.fields symbol).name)) }
        ensures as_text { object_name E.fields self.now index ≡ as_linked_text (lent result) }
        ensures exact { lent result ≡ object_name_bytes E.fields self.now index }
    {
        let Some(symbol) = self.symbol(index) else {
            return Err(LinkError::SymbolIndex);
        };
        match self.symbols().name_bytes_of(&symbol) {
            Ok(name) => Ok(name),
            Err(error) => Err(LinkError::Elf(error)),
        }
    }

    /// The version of the symbol at an index: the result of `Versions::version_of`. If
    /// `check_versions` is Ok and there is such a symbol, there is no error, and the name of the
    /// version can be read.
    pub fn version(&self, index: u32) -> Result<Option<SymbolVersion<'a>>, LinkError>
        ensures answer { IsVersion (version_list (object_versions self.now)) index
            (entry_item result) }
        ensures exact { entry_item result
            ≡ version_at (version_list (object_versions self.now)) index }
        ensures named { version_item result
            ≡ named_at (version_tables (object_versions self.now)) index }
        ensures readable { let file = object_dynamic_symbols E.fields self.now in AreReadable file
            → index < length file.symbols.items → IsOkAnd (entry_item result) HasReadableName }
    {
        self.versions.version_of(index)
    }

    /// An iterator over the relocations of the file that name a symbol: the result of
    /// `DynamicView::references`, which searches the program headers for each of the three tables.
    pub fn references(&self) -> Result<References<'a>, LinkError>
        ensures exact { let answer = references_of (object_file self.now)
            (view_entries (object_view self.now)) in
            MatchResult result (λ references. answer ≡ Ok (references_left references))
            (λ error. answer ≡ Err error) }
        ensures fits { IfOk result (λ references. length (references_left references) < 2 ^ 64) }
    {
        self.view.references(&self.file())
    }

    /// Checks that look-ups find every symbol that the hash table is for: the result of
    /// `AnyTable::check`.
    pub fn check(&self) -> Result<(), LinkError>
        ensures accepts { IsOk result
            ↔ IsGoodBy (object_table self.now) (object_symbols E.fields self.now) }
        ensures exact { IsCheckBy (object_table self.now)
            (object_symbols E.fields self.now) result }
    {
        self.table.check(&self.symbols())
    }

    /// Checks that the versions of the symbols can be read: the result of `Versions::check` for
    /// their number.
    pub fn check_versions(&self) -> Result<(), LinkError>
        ensures accepts { IsOk result
            ↔ AreReadable (object_dynamic_symbols E.fields self.now) }
        ensures exact { result ≡ versions_error (version_list (object_versions self.now))
            (length (object_symbols E.fields self.now).items) }
    {
        self.versions.check(self.symbols.len())
    }

    /// The result of `AnyTable::lookup`, with the same contract.
    pub fn lookup<F: Fn(&E) -> bool>(&self, name: &str, f: F) -> Result<Option<(u32, E)>, LinkError>
        requires callable { (e : Bor E)
            → Contains (object_symbols E.fields self.now).items e.now → F.pre f e }
        ensures answer { let all = object_symbols E.fields self.now in
            Decides all F.Fn f → (count : ℕ)
            × LooksBy (IsMatch all F.Fn f name.now) (object_table self.now) all.items name.now
            result count }
        ensures good { let all = object_symbols E.fields self.now in
            Decides all F.Fn f → IsGoodBy (object_table self.now) all
            → FindsAllBy (object_table self.now) all name.now (IsMatch all F.Fn f name.now) result }
    {
        self.table.lookup(name, &self.symbols(), f)
    }

    /// The result of `AnyTable::defined_symbol`, with the same contract.
    pub fn defined_symbol(&self, name: &str) -> Result<Option<(u32, E)>, LinkError>
        ensures checked { let all = object_symbols E.fields self.now in MatchResult result
            (λ _. IsGoodBy (object_table self.now) all)
            (λ error. IsCheckBy (object_table self.now) all (Err error)) }
        ensures found { IfOk result (IsDefinedBy (object_table self.now)
            (object_symbols E.fields self.now) name.now) }
        ensures answer { IfOk result (LooksForDefined (object_table self.now)
            (object_symbols E.fields self.now) name.now) }
    {
        self.table.defined_symbol(name, &self.symbols())
    }

    /// The symbol that a reference gets, with its index. A candidate is a symbol with the name that
    /// serves the use: its type is none, object, function, common, thread-local or IFUNC; it has a
    /// value, is absolute or is thread-local; and for `Use::Defined` it is defined.
    ///
    /// The symbol is the first candidate in the chain of the name that `Wanted::accepts`. If there
    /// is none, `Unversioned` and `Newest` get the one candidate that isn't hidden, if there is
    /// exactly one. Otherwise the result is `None`.
    ///
    /// Errors: those of `AnyTable::lookup_where`; those of `Wanted::accepts` for a candidate before
    /// the first that is accepted. If `check` and `check_versions` are Ok, there is no error, and
    /// no symbol is missed. A call goes through the chain of the name once at most. For
    /// `Wanted::Version` it asks for the version of each candidate that it comes to, as
    /// `Versions::version_of` does.
    pub fn find(
        &self,
        name: &str,
        wanted: &Wanted<'_>,
        use_: Use,
    ) -> Result<Option<(u32, E)>, LinkError>
        ensures answer { IsFound (object_dynamic_symbols E.fields self.now) name.now
            wanted.now use_ result }
        ensures good { let file = object_dynamic_symbols E.fields self.now in
            IsGoodBy file.table file.symbols → AreReadable file
            → FindsRight file name.now wanted.now use_ result }
    {
        self.find_bytes(name.as_bytes(), wanted, use_)
    }

    /// The result of `find` for a name of these bytes, whether or not they are UTF-8.
    pub fn find_bytes(
        &self,
        name: &[u8],
        wanted: &Wanted<'_>,
        use_: Use,
    ) -> Result<Option<(u32, E)>, LinkError>
        ensures answer { IsFound (object_dynamic_symbols E.fields self.now) name.now
            wanted.now use_ result }
        ensures good { let file = object_dynamic_symbols E.fields self.now in
            IsGoodBy file.table file.symbols → AreReadable file
            → FindsRight file name.now wanted.now use_ result }
    {
        self.find_hashed(name, gnu_hash_of_bytes(name), wanted, use_)
    }

    // The result of `find_bytes`, by the hash number of the name for GNU's table, so that a look-up in
    // many objects computes it once.
    #[inline(always)]
    pub(crate) fn find_hashed(
        &self,
        name: &[u8],
        hash: u32,
        wanted: &Wanted<'_>,
        use_: Use,
    ) -> Result<Option<(u32, E)>, LinkError>
        requires { hash ≡ gnu_hash_number name.now }
        ensures { IsFound (object_dynamic_symbols E.fields self.now) name.now wanted.now use_ result }
    {
        self.table
            .find_in(name, hash, &self.symbols(), &self.versions, wanted, use_)
    }

    // The symbols of a file, if it has their class.
    fn symbols_of_class(
        view: &DynamicView<'a>,
        file: &ElfFile<'a>,
        count: Option<u64>,
    ) -> Result<Table<'a, E>, LinkError>
        ensures exact { let are
            = AreOfClassFor count E.CLASS E.SIZE file.now (view_entries view.now) in
            MatchResult result
            (λ symbols. are (Ok (table_data symbols))
            × (table_order symbols ≡ file_order file.now.header))
            (λ error. are (Err error)) }
        ensures place { IfOk result (λ symbols.
            LieAsSymbols file.now (view_entries view.now) (table_bytes symbols)) }
    {
        if file.header.pt1.class.raw() != E::CLASS {
            return Err(LinkError::UnknownClass);
        }
        match count {
            Some(count) => view.counted_records(file, count),
            None => view.records(file),
        }
    }
}
