//! The plan of a file: its header, and what each loader maps.

ghost use Rattle.std.specs.Prelude.{◌≡◌, ◌<◌, IsOk, MatchResult, None, OnOk, Some, option_map};
ghost use Rattle.std.specs.Io.KnownBytes.{Appends};
ghost use Rattle.elf_loading.specs.MappingsLeft.{mappings_left};
ghost use Rattle.elfload.specs.Plans.{IsFilePlan, IsFileError, IsInputLoaded, IsInputPlan};
ghost use Rattle.elfload.specs.Plans.{IsInputError, IsInterpreterText, IsLoaded, IsPlanIn, IsPlanRecords};
ghost use Rattle.elfload.specs.Plans.{IsPlanText};
ghost use Rattle.elfload.specs.PlanRecords.{head_record, mapping_record, mapping_records, relro_edges};
ghost use Rattle.elfload.specs.PlanRecords.{rest_record, template_of};
ghost use Rattle.elfload.specs.Plans.{head_of, header_limit, limit_of};
ghost use Rattle.elfload.specs.Texts.{contents_text, head_text, letter, mapping_text};
ghost use Rattle.elfload.specs.Texts.{mappings_text, permissions_text, range_text, span_text};
ghost use Rattle.elfload.specs.Texts.{stack_text, tls_text};
ghost use Rattle.program_ends.proofs.Flushed.{appended_flushed};
ghost use Rattle.program_ends.specs.Appended.{AppendsSome};
ghost use Rattle.program_ends.specs.Stops.{IsStop};
ghost use Rattle.program_ends.specs.declared.Stop.TheVariants as stops_are;
ghost use Rattle.elf_loading.specs.Plan.{plan_file};

use crate::records::flags_or_null;
use elf_loading::{Contents, LoadError, LoadPlan, Loader, Mapping, Mappings, Span, Tls};
use program_ends::json::{Form, Member, write_json};
use program_ends::{Output, Stop, json, write_name};
use std::fmt::Display;
use std::io::Write;
use std::{fmt, io};
use thiserror::Error;
use xmas_elf::header::Header;
use xmas_elf::program::{FLAG_R, FLAG_W, FLAG_X, Flags};
use xmas_elf::{ElfError, ElfFile};

/// Why a file has no plan.
#[derive(Clone, Copy, Debug, Drop, Error)]
pub enum AnyError {
    /// It isn't an ELF file.
    #[error("{0}")]
    Elf(ElfError),
    /// The end of addresses of its machine isn't known here.
    #[error("Limit of addresses is not known for this machine")]
    Machine,
    /// An error of `check_load`.
    #[error("{0}")]
    Load(LoadError),
}

// The plan of the file that these bytes are, with pages of a size.
#[derive(Clone, Copy)]
pub(crate) struct Plan<'a> {
    pub(crate) form: Form,
    pub(crate) path: &'a str,
    pub(crate) input: &'a [u8],
    pub(crate) page: u64,
    ghost paged: { 0 < page },
}

impl Output for Plan<'_> {
    ghost Writes = { λ plan. AppendsSome (IsInputPlan plan.form plan.page plan.path plan.input) };

    ghost flushed = { λ plan. appended_flushed (IsInputPlan plan.form plan.page plan.path plan.input) };

    type Error = AnyError;

    ghost Fails = { λ plan. IsInputError plan.page plan.input };

    ghost Begins = { λ plan. IsInputLoaded plan.page plan.input };

    fn write_to<W: Write>(&self, out: &mut W) -> Result<(), Stop<AnyError>> {
        match ElfFile::new(self.input) {
            Ok(file) => write_file(self.form, self.page, self.path, &file, out),
            Err(error) => Err(Stop::Failed(AnyError::Elf(error))),
        }
    }
}

// The end of the addresses that Linux gives a program, by its class and its machine.
pub(crate) fn limit_of(header: &Header) -> Option<u64>
    ensures { result ≡ header_limit header.now }
{
    let class = header.pt1.class.raw();
    let machine = header.pt2.machine().raw();
    if class == 2 && machine == 62 {
        return Some(0x7fff_ffff_f000);
    }
    if class == 2 && machine == 183 {
        return Some(0x1_0000_0000_0000);
    }
    if class == 1 && (machine == 3 || machine == 62) {
        return Some(0xffff_e000);
    }
    None
}

// The plan of a file.
fn write_file<W: Write>(
    form: Form,
    page: u64,
    path: &str,
    file: &ElfFile<'_>,
    out: &mut W,
) -> Result<(), Stop<AnyError>>
    requires { 0 < page }
    ensures { MatchResult result
        (λ _. AppendsSome (IsFilePlan form page path.entry file.now)
        (W.contents out.old) (W.contents out.new))
        (IsStop (IsFileError page file.now) (IsLoaded page file.now) ⊥) }
{
    match limit_of(&file.header) {
        Some(limit) => write_within(form, page, limit, path, file, out),
        None => Err(Stop::Failed(AnyError::Machine)),
    }
}

// The plan of a file, for addresses up to the limit of its machine.
fn write_within<W: Write>(
    form: Form,
    page: u64,
    limit: u64,
    path: &str,
    file: &ElfFile<'_>,
    out: &mut W,
) -> Result<(), Stop<AnyError>>
    requires page { 0 < page }
    requires limit { header_limit file.now.header ≡ Some limit }
    ensures { MatchResult result
        (λ _. AppendsSome (IsFilePlan form page path.entry file.now)
        (W.contents out.old) (W.contents out.new))
        (IsStop (IsFileError page file.now) (IsLoaded page file.now) ⊥) }
{
    match LoadPlan::check_load(file, page, limit) {
        Ok(plan) => ended(write_plan(form, path, file, &plan, out)),
        Err(error) => Err(Stop::Failed(AnyError::Load(error))),
    }
}

// How the output ends after all writes, or after one that failed.
fn ended(written: io::Result<()>) -> Result<(), Stop<AnyError>>
    ensures { MatchResult result (λ _. IsOk written) (λ stop. stop ≡ stops_are.Write) }
{
    match written {
        Ok(()) => Ok(()),
        Err(_) => Err(Stop::Write),
    }
}

// The plan: the header, the rest that a loader asks for, and the mappings of both loaders.
fn write_plan<W: Write>(
    form: Form,
    path: &str,
    file: &ElfFile<'_>,
    plan: &LoadPlan<'_>,
    out: &mut W,
) -> io::Result<()>
    requires { (plan_file plan.now) ≡ file.now }
    ensures { OnOk result (AppendsSome (IsPlanIn form plan.now.page path.entry file.now)
        (W.contents out.old) (W.contents out.new)) }
{
    match form {
        Form::Text => write_text(path, file, plan, out),
        Form::Json => write_records(path, file, plan, out),
    }
}

// The same as JSON.
fn write_records<W: Write>(
    path: &str,
    file: &ElfFile<'_>,
    plan: &LoadPlan<'_>,
    out: &mut W,
) -> io::Result<()>
    requires { (plan_file plan.now) ≡ file.now }
    ensures { OnOk result (AppendsSome (IsPlanRecords plan.now.page path.entry file.now)
        (W.contents out.old) (W.contents out.new)) }
{
    let head = head_of(path, &file.header, plan);
    write_head(head, out)?;
    write_rest(head, plan.interpreter(), out)?;
    write_mapping_records(path, "kernel", plan.mappings(Loader::Kernel), out)?;
    write_mapping_records(path, "glibc", plan.mappings(Loader::Glibc), out)
}

// The header and the span of the segments, as JSON.
fn write_head<W: Write>(head: Head<'_>, out: &mut W) -> io::Result<()>
    ensures { OnOk result (Appends (W.contents out.old) (W.contents out.new) (head_record head.entry)) }
{
    let members = [
        Member {
            key: "file",
            value: json::Value::Text(head.path),
        },
        Member {
            key: "class",
            value: json::Value::Number(u64::from(head.class)),
        },
        Member {
            key: "type",
            value: json::Value::Number(u64::from(head.kind)),
        },
        Member {
            key: "machine",
            value: json::Value::Number(u64::from(head.machine)),
        },
        Member {
            key: "entry",
            value: json::Value::Number(head.entry),
        },
        Member {
            key: "start",
            value: json::Value::Number(head.span.start),
        },
        Member {
            key: "end",
            value: json::Value::Number(head.span.end),
        },
    ];
    write_json(&members, out)
}

// What else a loader asks for, as JSON.
fn write_rest<'x, W: Write>(
    head: Head<'x>,
    interpreter: Option<&'x [u8]>,
    out: &mut W,
) -> io::Result<()>
    ensures { OnOk result (Appends (W.contents out.old) (W.contents out.new)
        (rest_record head.entry (option_map (λ path. path.now) interpreter.entry))) }
{
    let interpreter = match interpreter {
        Some(path) => json::Value::Name(path),
        None => json::Value::Null,
    };
    let (relro, tls) = (relro_edges(head.relro), template_of(head.tls));
    let members = [
        Member {
            key: "file",
            value: json::Value::Text(head.path),
        },
        Member {
            key: "relro_start",
            value: relro.start,
        },
        Member {
            key: "relro_end",
            value: relro.end,
        },
        Member {
            key: "tls_address",
            value: tls.address,
        },
        Member {
            key: "tls_file_size",
            value: tls.file_size,
        },
        Member {
            key: "tls_size",
            value: tls.size,
        },
        Member {
            key: "tls_align",
            value: tls.align,
        },
        Member {
            key: "stack_flags",
            value: flags_or_null(head.stack),
        },
        Member {
            key: "interpreter",
            value: interpreter,
        },
    ];
    write_json(&members, out)
}

// The first address and the one after the last, as members of JSON objects have them.
#[derive(Clone, Copy)]
struct Edges<'a> {
    start: json::Value<'a>,
    end: json::Value<'a>,
}

// Those of pages that are only readable, if there are any.
fn relro_edges<'a>(relro: Option<Span>) -> Edges<'a>
    ensures { result ≡ relro_edges relro }
{
    match relro {
        Some(span) if span.start < span.end => Edges {
            start: json::Value::Number(span.start),
            end: json::Value::Number(span.end),
        },
        _ => Edges {
            start: json::Value::Null,
            end: json::Value::Null,
        },
    }
}

// The numbers of thread-local storage, as members of JSON objects have them.
#[derive(Clone, Copy)]
struct Template<'a> {
    address: json::Value<'a>,
    file_size: json::Value<'a>,
    size: json::Value<'a>,
    align: json::Value<'a>,
}

// Those of a template, if there is one.
fn template_of<'a>(tls: Option<Tls>) -> Template<'a>
    ensures { result ≡ template_of tls }
{
    match tls {
        Some(tls) => Template {
            address: json::Value::Number(tls.address),
            file_size: json::Value::Number(tls.file_size),
            size: json::Value::Number(tls.mem_size),
            align: json::Value::Number(tls.align),
        },
        None => Template {
            address: json::Value::Null,
            file_size: json::Value::Null,
            size: json::Value::Null,
            align: json::Value::Null,
        },
    }
}

// The mappings of a loader as JSON.
fn write_mapping_records<'x, W: Write>(
    path: &'x str,
    by: &'x str,
    mappings: Mappings<'_>,
    out: &mut W,
) -> io::Result<()>
    ensures { OnOk result (Appends (W.contents out.old) (W.contents out.new)
        (mapping_records path.now by.now (mappings_left mappings.entry))) }
{
    for mapping in mappings {
        write_mapping(path, by, mapping, out)?;
    }
    Ok(())
}

// A mapping as JSON.
fn write_mapping<'x, W: Write>(
    path: &'x str,
    by: &'x str,
    mapping: Mapping,
    out: &mut W,
) -> io::Result<()>
    ensures { OnOk result (Appends (W.contents out.old) (W.contents out.new)
        (mapping_record path.now by.now mapping)) }
{
    let (holds, offset) = match mapping.contents {
        Contents::File(offset) => (json::Value::Text("file"), json::Value::Number(offset)),
        Contents::Zero => (json::Value::Text("zero"), json::Value::Null),
        Contents::NoAccess => (json::Value::Text("none"), json::Value::Null),
    };
    let members = [
        Member {
            key: "file",
            value: json::Value::Text(path),
        },
        Member {
            key: "by",
            value: json::Value::Text(by),
        },
        Member {
            key: "start",
            value: json::Value::Number(mapping.start),
        },
        Member {
            key: "end",
            value: json::Value::Number(mapping.end),
        },
        Member {
            key: "flags",
            value: json::Value::Number(u64::from(mapping.flags.raw())),
        },
        Member {
            key: "holds",
            value: holds,
        },
        Member {
            key: "offset",
            value: offset,
        },
    ];
    write_json(&members, out)
}

// The plan as text.
fn write_text<W: Write>(
    path: &str,
    file: &ElfFile<'_>,
    plan: &LoadPlan<'_>,
    out: &mut W,
) -> io::Result<()>
    requires { (plan_file plan.now) ≡ file.now }
    ensures { OnOk result (AppendsSome (IsPlanText plan.now.page path.entry file.now)
        (W.contents out.old) (W.contents out.new)) }
{
    write!(out, "{}", head_of(path, &file.header, plan))?;
    write_interpreter(plan, out)?;
    out.write_all(b"\nkernel\n")?;
    write_mappings(plan.mappings(Loader::Kernel), out)?;
    out.write_all(b"glibc\n")?;
    write_mappings(plan.mappings(Loader::Glibc), out)
}

// The head of the text of a plan.
fn head_of<'a>(path: &'a str, header: &Header, plan: &LoadPlan<'_>) -> Head<'a>
    requires { (plan_file plan.now).header ≡ header.now }
    ensures { result ≡ head_of plan.now.page path.entry (plan_file plan.now) }
{
    Head {
        path,
        class: 32 * u16::from(header.pt1.class.raw()),
        kind: header.pt2.type_().raw(),
        machine: header.pt2.machine().raw(),
        entry: plan.entry(),
        span: plan.span(),
        relro: plan.relro(),
        tls: plan.tls(),
        stack: plan.stack(),
    }
}

// The path of the interpreter, or that there is none.
fn write_interpreter<W: Write>(plan: &LoadPlan<'_>, out: &mut W) -> io::Result<()>
    ensures { OnOk result (AppendsSome (IsInterpreterText (plan_file plan.now))
        (W.contents out.old) (W.contents out.new)) }
{
    match plan.interpreter() {
        Some(path) => write_name(path, out),
        None => out.write_all(b"none"),
    }
}

// The lines of mappings.
fn write_mappings<W: Write>(mappings: Mappings<'_>, out: &mut W) -> io::Result<()>
    ensures { OnOk result (Appends (W.contents out.old) (W.contents out.new)
        (mappings_text (mappings_left mappings.entry))) }
{
    for mapping in mappings {
        write!(out, "{}", Line(mapping))?;
    }
    Ok(())
}

// What is written of a plan before the path of the interpreter.
#[derive(Clone, Copy)]
struct Head<'a> {
    path: &'a str,
    class: u16,
    kind: u16,
    machine: u16,
    entry: u64,
    span: Span,
    relro: Option<Span>,
    tls: Option<Tls>,
    stack: Option<Flags>,
}

impl Display for Head<'_> {
    ghost output = { λ head. Some (head_text head) };

    fn fmt<W: fmt::Write>(&self, f: &mut fmt::Formatter<W>) -> fmt::Result {
        write!(
            f,
            "{}\nclass {}\ntype {}\nmachine {}\nentry {:x}\nspan {}\nrelro {}\ntls {}\nstack {}\ninterpreter ",
            self.path,
            self.class,
            self.kind,
            self.machine,
            self.entry,
            Range(self.span.start, self.span.end),
            Part(self.relro),
            Storage(self.tls),
            Stack(self.stack)
        )
    }
}

// The line of a mapping, as in /proc/PID/maps, with the kind of what it holds.
#[derive(Clone, Copy)]
struct Line(Mapping);

impl Display for Line {
    ghost output = { λ line. Some (mapping_text line.0) };

    fn fmt<W: fmt::Write>(&self, f: &mut fmt::Formatter<W>) -> fmt::Result {
        let mapping = self.0;
        writeln!(
            f,
            "{} {}p {}",
            Range(mapping.start, mapping.end),
            Permissions(mapping.flags),
            Held(mapping.contents)
        )
    }
}

// The first address of a range, and the first after it.
#[derive(Clone, Copy)]
struct Range(u64, u64);

impl Display for Range {
    ghost output = { λ range. Some (range_text range.0 range.1) };

    fn fmt<W: fmt::Write>(&self, f: &mut fmt::Formatter<W>) -> fmt::Result {
        write!(f, "{:x}-{:x}", self.0, self.1)
    }
}

// Permissions by the flags of a segment.
#[derive(Clone, Copy)]
struct Permissions(Flags);

impl Display for Permissions {
    ghost output = { λ permissions. Some (permissions_text permissions.0) };

    fn fmt<W: fmt::Write>(&self, f: &mut fmt::Formatter<W>) -> fmt::Result {
        let flags = self.0.raw();
        let read = letter(FLAG_R, flags, "r");
        let write = letter(FLAG_W, flags, "w");
        write!(f, "{}{}{}", read, write, letter(FLAG_X, flags, "x"))
    }
}

// A letter if a flag is set, or else a dash.
fn letter(flag: u32, flags: u32, name: &'static str) -> &'static str
    ensures { result.now ≡ letter flag flags name.now }
{
    if flags & flag == 0 { "-" } else { name }
}

// What a mapping holds.
#[derive(Clone, Copy)]
struct Held(Contents);

impl Display for Held {
    ghost output = { λ held. Some (contents_text held.0) };

    fn fmt<W: fmt::Write>(&self, f: &mut fmt::Formatter<W>) -> fmt::Result {
        match self.0 {
            Contents::File(offset) => write!(f, "{:x} file", offset),
            Contents::Zero => write!(f, "0 zero"),
            Contents::NoAccess => write!(f, "0 none"),
        }
    }
}

// A range, or that there is none or it is empty.
#[derive(Clone, Copy)]
struct Part(Option<Span>);

impl Display for Part {
    ghost output = { λ part. Some (span_text part.0) };

    fn fmt<W: fmt::Write>(&self, f: &mut fmt::Formatter<W>) -> fmt::Result {
        match self.0 {
            Some(span) if span.start < span.end => write!(f, "{}", Range(span.start, span.end)),
            _ => write!(f, "none"),
        }
    }
}

// Thread-local storage, or that there is none.
#[derive(Clone, Copy)]
struct Storage(Option<Tls>);

impl Display for Storage {
    ghost output = { λ storage. Some (tls_text storage.0) };

    fn fmt<W: fmt::Write>(&self, f: &mut fmt::Formatter<W>) -> fmt::Result {
        match self.0 {
            Some(tls) => write!(
                f,
                "{:x} {:x} {:x} {:x}",
                tls.address, tls.file_size, tls.mem_size, tls.align
            ),
            None => write!(f, "none"),
        }
    }
}

// The permissions of the stack, or that the machine's default holds.
#[derive(Clone, Copy)]
struct Stack(Option<Flags>);

impl Display for Stack {
    ghost output = { λ stack. Some (stack_text stack.0) };

    fn fmt<W: fmt::Write>(&self, f: &mut fmt::Formatter<W>) -> fmt::Result {
        match self.0 {
            Some(flags) => write!(f, "{}", Permissions(flags)),
            None => write!(f, "default"),
        }
    }
}
