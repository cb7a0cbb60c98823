//! The tables that a dynamic linker reads while it relocates a file, and whether it can.

ghost use Rattle.std.specs.Prelude.{◌≡◌, ◌<◌, ◌≤◌, ◌*◌, ◌^◌, IfSome};
ghost use Rattle.std.specs.List.{list_any};
ghost use Rattle.elf_base.specs.FirstError.{unless};
ghost use Rattle.elf_linking.specs.DynamicView.{view_entries};
ghost use Rattle.elf_linking.specs.References.{table_left};
ghost use Rattle.elf_loading.specs.ImageTables.{asks_for_text, check_all_relocations};
ghost use Rattle.elf_loading.specs.ImageTables.{check_tables, has_odd_first, hash_size, hash_tag};
ghost use Rattle.elf_loading.specs.ImageTables.{holds_dynamic, is_dynamic_lost, is_no_multiple};
ghost use Rattle.elf_loading.specs.ImageTables.{is_other_machine, is_overcounted, is_readable};
ghost use Rattle.elf_loading.specs.ImageTables.{is_unreadable, kind_rows, is_for_calls, is_no_slot};
ghost use Rattle.elf_loading.specs.ImageTables.{lacks_entry, lacks_kind};
ghost use Rattle.elf_loading.specs.ImageTables.{relocation_rows, segment_extent, slot_rows};
ghost use Rattle.elf_loading.specs.ImageTables.{symbol_number, table_of_size, tables_of};
ghost use Rattle.elf_loading.specs.ImageWords.{check_records};

use crate::LoadError;
use crate::in_order::{is_kind, kept_records, record_size, relative_type};
use crate::segments::has_flag;
use crate::words::{Binding, address_size, binds_lazily, flag_in};
use elf_linking::references::types::{EM_386, EM_AARCH64, EM_X86_64};
use elf_linking::references::{Formula, Reference, TableRelocations, row_of};
use elf_linking::view::{
    DT_FLAGS, DT_GNU_HASH, DT_HASH, DT_JMPREL, DT_PLTGOT, DT_PLTREL, DT_PLTRELSZ, DT_REL, DT_RELA,
    DT_RELACOUNT, DT_RELAENT, DT_RELASZ, DT_RELCOUNT, DT_RELENT, DT_RELR, DT_RELRENT, DT_RELRSZ,
    DT_RELSZ, DT_STRSZ, DT_STRTAB, DT_SYMTAB, DT_TEXTREL, DT_VERDEF, DT_VERNEED, DT_VERSYM,
    DynamicView, LinkedSymbol, TableLocation, dynamic_segment, segment_at, word_at,
};
use elf_linking::{AnyTable, DynamicObject, Segment};
use xmas_elf::ElfFile;
use xmas_elf::program::{FLAG_R, FLAG_W};

// Whether a segment is readable.
fn is_readable(segment: &Option<Segment>) -> bool
    ensures { result ≡ is_readable segment.now }
{
    match segment {
        Some(segment) => has_flag(segment, FLAG_R),
        None => false,
    }
}

// Whether the file has not all bytes of a table for a readable load.
fn is_unreadable(file: &ElfFile<'_>, table: &TableLocation) -> bool
    ensures { result ≡ is_unreadable file.now table.now }
{
    let Some(start) = table.start else {
        return false;
    };
    match table.size {
        Some(size) => !is_readable(&segment_at(file, start, size)),
        None => true,
    }
}

// A table of a known size, by the entry with its address.
fn table_of_size(view: &DynamicView<'_>, start: u64, size: u64) -> TableLocation
    ensures { result ≡ table_of_size (view_entries view.now) start size }
{
    TableLocation {
        start: view.entry(start),
        size: Some(size),
    }
}

// Whether a size that is known is no multiple of another.
fn is_no_multiple(each: u64, size: Option<u64>) -> bool
    requires { 0 < each }
    ensures { result ≡ is_no_multiple each size }
{
    match size {
        Some(size) => size % each != 0,
        None => false,
    }
}

// Whether relocations can be read; each has a size, and `told` is the number in the entry for it.
fn check_relocations(
    file: &ElfFile<'_>,
    each: u64,
    told: Option<u64>,
    table: &TableLocation,
) -> Result<(), LoadError>
    requires { 0 < each }
    ensures { result ≡ unless (relocation_rows file.now each told table.now) tt }
{
    let is_there = table.start.is_some();
    if is_there && !is_kind(each, told) {
        return Err(LoadError::RelocationSize);
    }
    if is_there && is_no_multiple(each, table.size) {
        return Err(LoadError::NotMultiple);
    }
    if is_unreadable(file, table) {
        return Err(LoadError::Unreadable);
    }
    Ok(())
}

// Whether an entry is missing that glibc reads.
fn lacks_entry(view: &DynamicView<'_>) -> bool
    ensures { result ≡ lacks_entry (view_entries view.now) }
{
    let has_versions = view.entry(DT_VERDEF).is_some() || view.entry(DT_VERNEED).is_some();
    let has_slots = binds_lazily(view, Binding::Lazy) && view.entry(DT_JMPREL).is_some();
    view.entry(DT_STRTAB).is_none()
        || view.entry(DT_SYMTAB).is_none()
        || (view.entry(DT_VERSYM).is_none() && has_versions)
        || (has_slots && view.entry(DT_PLTGOT).is_none())
}

// Whether glibc can apply relocations of these kinds as the supplements have them: in class 64 it has
// none without addends, in class 32 it adds addends where there are none, and it reads the table of
// the procedure linkage table where there is an entry for its kind.
fn check_kinds(file: &ElfFile<'_>, view: &DynamicView<'_>) -> Result<(), LoadError>
    ensures { result ≡ unless (kind_rows file.now (view_entries view.now)) tt }
{
    let kind = view.entry(DT_PLTREL);
    let lacks_addends = view.entry(DT_REL).is_some() || is_kind(DT_REL, kind);
    if file.header.pt1.class.raw() != 1 && lacks_addends {
        return Err(LoadError::NoAddends);
    }
    let has_addends = view.entry(DT_RELA).is_some() || is_kind(DT_RELA, kind);
    if file.header.pt1.class.raw() == 1 && has_addends {
        return Err(LoadError::Addends);
    }
    if kind.is_some() && view.entry(DT_JMPREL).is_none() {
        return Err(LoadError::NoSlots);
    }
    Ok(())
}

// Whether a table has bytes, and its first word, as wide as an address, is odd.
fn has_odd_first(file: &ElfFile<'_>, table: &TableLocation) -> bool
    ensures { result ≡ has_odd_first file.now table.now }
{
    let Some(start) = table.start else {
        return false;
    };
    let Some(size) = table.size else {
        return false;
    };
    match word_at(file, start) {
        Ok(word) => word % 2 == 1 && size != 0,
        Err(_) => false,
    }
}

// Whether the relocations of the procedure linkage table can be read, by the number in the entry
// for their kind.
fn check_slots(
    file: &ElfFile<'_>,
    kind: Option<u64>,
    table: &TableLocation,
) -> Result<(), LoadError>
    ensures { result ≡ unless (slot_rows file.now kind table.now) tt }
{
    let is_there = table.start.is_some();
    let with_addends = is_kind(DT_RELA, kind);
    if is_there && !with_addends && !is_kind(DT_REL, kind) {
        return Err(LoadError::SlotKind);
    }
    let each = record_size(file, with_addends);
    if is_there && is_no_multiple(each, table.size) {
        return Err(LoadError::NotMultiple);
    }
    if is_unreadable(file, table) {
        return Err(LoadError::Unreadable);
    }
    Ok(())
}

// Whether a load has the bytes of the dynamic segment, from the same offset of the file, and their
// permissions.
fn holds_dynamic(dynamic: &Segment, holder: &Option<Segment>) -> bool
    requires { IfSome holder.now (λ load. load.address ≤ dynamic.now.address) }
    ensures { result ≡ holds_dynamic dynamic.now holder.now }
{
    let Some(load) = holder else {
        return false;
    };
    let offset = u128::from(load.offset) + u128::from(dynamic.address - load.address);
    has_flag(load, FLAG_R)
        && (!has_flag(dynamic, FLAG_W) || has_flag(load, FLAG_W))
        && offset == u128::from(dynamic.offset)
}

// Whether no load has the dynamic segment.
#[tactic(auto, using(crate::proofs::ImageTables::holder_begins))]
fn is_dynamic_lost(file: &ElfFile<'_>, dynamic: &Option<Segment>) -> bool
    ensures { result ≡ is_dynamic_lost file.now dynamic.now }
{
    let Some(dynamic) = dynamic else {
        return true;
    };
    let size = dynamic.mem_size.max(dynamic.file_size);
    let holder = segment_at(file, dynamic.address, size);
    !holds_dynamic(dynamic, &holder)
}

// Whether the machine and the class are not supported.
fn is_other_machine(file: &ElfFile<'_>) -> bool
    ensures { result ≡ is_other_machine file.now }
{
    let machine = file.header.pt2.machine().raw();
    match file.header.pt1.class.raw() {
        1 => machine != EM_386,
        2 => machine != EM_X86_64 && machine != EM_AARCH64,
        _ => true,
    }
}

// The number of symbols that an index of 32 bits can name.
fn symbol_number<E: LinkedSymbol>(object: &DynamicObject<'_, E>) -> u64
    ensures exact { result ≡ symbol_number object.now }
    ensures most { result ≤ 2 ^ 32 }
{
    (object.symbol_count() as u64).min(1 << 32)
}

// The size of a hash table in bytes, for a file with this many symbols.
fn hash_size(file: &ElfFile<'_>, table: &AnyTable<'_>, count: u64) -> u64
    requires { count ≤ 2 ^ 32 }
    ensures { result ≡ hash_size file.now table.now count }
{
    match table {
        AnyTable::Sysv(table) => {
            8 + 4 * (u64::from(table.bucket_count()) + u64::from(table.chain_count()))
        }
        AnyTable::Gnu(table) => {
            let bloom = address_size(file) * u64::from(table.bloom_count());
            let chains = count.saturating_sub(u64::from(table.first_symbol()));
            16 + bloom + 4 * (u64::from(table.bucket_count()) + chains)
        }
    }
}

// The entry with the address of a hash table.
fn hash_tag(table: &AnyTable<'_>) -> u64
    ensures { result ≡ hash_tag table.now }
{
    match table {
        AnyTable::Sysv(_) => DT_HASH,
        AnyTable::Gnu(_) => DT_GNU_HASH,
    }
}

// The bytes of a segment, as many as it has in memory or in the file: entries are read in the file.
fn segment_extent(segment: &Option<Segment>) -> TableLocation
    ensures { result ≡ segment_extent segment.now }
{
    match segment {
        Some(segment) => TableLocation {
            start: Some(segment.address),
            size: Some(segment.mem_size.max(segment.file_size)),
        },
        None => TableLocation {
            start: None,
            size: None,
        },
    }
}

// The size of the symbols in bytes, of which there are this many.
fn symbols_size<E: LinkedSymbol>(count: u64) -> u64
    requires { count ≤ 2 ^ 32 }
    ensures { result ≡ E.SIZE * count }
{
    E::SIZE as u64 * count
}

// All tables that a dynamic linker reads while it relocates an object: four of relocations, four of
// symbols, and the dynamic segment.
pub(crate) fn tables_of<E: LinkedSymbol>(object: &DynamicObject<'_, E>) -> [TableLocation; 9]
    ensures { result ≡ tables_of E.SIZE object.now }
{
    let (view, file, table) = (object.view(), object.file(), object.table());
    let count = symbol_number(object);
    [
        view.table_but_zero(DT_RELA, DT_RELASZ),
        view.table_but_zero(DT_REL, DT_RELSZ),
        view.table_by(DT_RELR, DT_RELRSZ),
        view.table_by(DT_JMPREL, DT_PLTRELSZ),
        view.table_by(DT_STRTAB, DT_STRSZ),
        table_of_size(&view, DT_SYMTAB, symbols_size::<E>(count)),
        table_of_size(&view, hash_tag(&table), hash_size(&file, &table, count)),
        table_of_size(&view, DT_VERSYM, 2 * count),
        segment_extent(&dynamic_segment(&file)),
    ]
}

// Whether all relocations can be read.
#[tactic(auto, unfolding(crate::specs::ImageTables::check_all_relocations))]
fn check_all_relocations(file: &ElfFile<'_>, view: &DynamicView<'_>) -> Result<(), LoadError>
    ensures { result ≡ check_all_relocations file.now (view_entries view.now) }
{
    check_kinds(file, view)?;
    let rela = view.table_but_zero(DT_RELA, DT_RELASZ);
    check_relocations(file, record_size(file, true), view.entry(DT_RELAENT), &rela)?;
    let rel = view.table_but_zero(DT_REL, DT_RELSZ);
    check_relocations(file, record_size(file, false), view.entry(DT_RELENT), &rel)?;
    let packed = view.table_by(DT_RELR, DT_RELRSZ);
    check_relocations(file, address_size(file), view.entry(DT_RELRENT), &packed)?;
    if has_odd_first(file, &packed) {
        return Err(LoadError::FirstPacked);
    }
    let slots = view.table_by(DT_JMPREL, DT_PLTRELSZ);
    check_slots(file, view.entry(DT_PLTREL), &slots)
}

// Whether one of these tables can't be read.
fn are_unreadable(file: &ElfFile<'_>, tables: &[TableLocation]) -> bool
    ensures { result ≡ list_any (is_unreadable file.now) tables.now }
{
    tables.iter().any(|table| is_unreadable(file, table))
}

// Whether the tables of an object can be used.
#[tactic(auto, unfolding(crate::specs::ImageTables::check_tables))]
pub(crate) fn check_tables<E: LinkedSymbol>(
    object: &DynamicObject<'_, E>,
    tables: &[TableLocation; 9],
) -> Result<(), LoadError>
    requires { tables.now ≡ tables_of E.SIZE object.now }
    ensures { result ≡ check_tables E.SIZE object.now }
{
    let (view, file) = (object.view(), object.file());
    if is_dynamic_lost(&file, &dynamic_segment(&file)) {
        return Err(LoadError::Dynamic);
    }
    if lacks_entry(&view) {
        return Err(LoadError::NoEntry);
    }
    check_all_relocations(&file, &view)?;
    if are_unreadable(&file, &tables[4..8]) {
        return Err(LoadError::Unreadable);
    }
    if is_other_machine(&file) {
        return Err(LoadError::Machine);
    }
    Ok(())
}

// Whether a table doesn't begin with this many relocations of a type.
#[tactic(auto, using(crate::proofs::RecordChecks::passed_first, crate::proofs::RecordChecks::other_first, crate::proofs::RecordChecks::none_wanted, crate::proofs::RecordChecks::none_there))]
fn lacks_kind(rest: TableRelocations<'_>, kind: u32, count: u64) -> bool
    ensures { result ≡ lacks_kind kind count (table_left rest.entry) }
{
    let mut wanted = count;
    for one in rest {
        if wanted == 0 {
            return false;
        }
        if one.kind != kind {
            return true;
        }
        wanted -= 1;
    }
    wanted != 0
}

// Whether an entry counts more relative relocations than its table begins with, without those of the
// procedure linkage table again.
fn is_overcounted(
    file: &ElfFile<'_>,
    view: &DynamicView<'_>,
    kind: u64,
    size: u64,
    counted: u64,
    rest: TableRelocations<'_>,
) -> bool
    ensures { result ≡ is_overcounted file.now (view_entries view.now) kind size counted
        (table_left rest.entry) }
{
    let count = view.entry(counted).unwrap_or(0);
    let relative = relative_type(file.header.pt2.machine().raw());
    view.table_but_zero(kind, size).start.is_some()
        && (kept_records(view, file, kind, size) < count || lacks_kind(rest, relative, count))
}

// Whether a relocation of a formula writes a descriptor, or what a function returns.
fn is_for_calls(formula: Option<Formula>) -> bool
    ensures { result ≡ is_for_calls formula }
{
    matches!(formula, Some(Formula::Descriptor | Formula::Call))
}

// Whether a relocation is not one for the procedure linkage table.
fn is_no_slot(machine: u16, one: &Reference) -> bool
    ensures { result ≡ is_no_slot machine one.now }
{
    let row = row_of(machine, one.kind);
    !(row.slot || is_for_calls(row.formula))
}

// Whether one of these relocations is not one for the procedure linkage table.
#[tactic(auto, using(crate::proofs::RecordChecks::slot_first, crate::proofs::RecordChecks::slot_rest, crate::proofs::RecordChecks::slot_end))]
fn has_no_slot(machine: u16, slots: TableRelocations<'_>) -> bool
    ensures { result ≡ list_any (is_no_slot machine) (table_left slots.entry) }
{
    for one in slots {
        if is_no_slot(machine, &one) {
            return true;
        }
    }
    false
}

// Whether glibc can apply the relocations of the tables.
pub(crate) fn check_records(file: &ElfFile<'_>, view: &DynamicView<'_>) -> Result<(), LoadError>
    ensures { result ≡ check_records file.now (view_entries view.now) }
{
    let tables = match view.relocation_tables(file) {
        Ok(tables) => tables,
        Err(error) => return Err(LoadError::Link(error)),
    };
    if is_overcounted(file, view, DT_RELA, DT_RELASZ, DT_RELACOUNT, tables.rela)
        || is_overcounted(file, view, DT_REL, DT_RELSZ, DT_RELCOUNT, tables.rel)
    {
        return Err(LoadError::RelativeCount);
    }
    let machine = file.header.pt2.machine().raw();
    if binds_lazily(view, Binding::Lazy) && has_no_slot(machine, tables.plt) {
        return Err(LoadError::SlotType);
    }
    Ok(())
}

// Whether the file asks for writes to loads that are not writable.
pub(crate) fn asks_for_text(view: &DynamicView<'_>) -> bool
    ensures { result ≡ asks_for_text (view_entries view.now) }
{
    view.entry(DT_TEXTREL).is_some() || flag_in(view.entry(DT_FLAGS), 4)
}
