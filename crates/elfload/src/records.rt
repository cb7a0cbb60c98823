//! The values of words as members of JSON objects.

ghost use Rattle.std.specs.Prelude.{◌≡◌};
ghost use Rattle.elfload.specs.Records.{flags_or_null, origin_numbers, value_kind, value_numbers};
ghost use Rattle.program_ends.specs.Json.{number_or_null};

use elf_loading::{Origin, Value};
use program_ends::json;
use xmas_elf::program::Flags;

/// The numbers of a value.
#[derive(Clone, Copy)]
pub(crate) struct Numbers {
    /// The index of a file.
    pub(crate) object: Option<usize>,
    /// The address of the function whose result the value is.
    pub(crate) resolver: Option<u64>,
    /// What is added, or an address.
    pub(crate) offset: Option<u64>,
    /// How many bytes are copied.
    pub(crate) size: Option<u64>,
}

/// An index, or null.
pub(crate) fn index_or_null<'a>(index: Option<usize>) -> json::Value<'a>
    ensures { result ≡ number_or_null index }
{
    match index {
        Some(index) => json::Value::Number(index as u64),
        None => json::Value::Null,
    }
}

/// The flags of a segment, or null.
pub(crate) fn flags_or_null<'a>(flags: Option<Flags>) -> json::Value<'a>
    ensures { result ≡ flags_or_null flags }
{
    match flags {
        Some(flags) => json::Value::Number(u64::from(flags.raw())),
        None => json::Value::Null,
    }
}

/// The name of the kind of a value.
pub(crate) fn value_kind(value: &Value) -> &'static str
    ensures { result.now ≡ value_kind value.now }
{
    match value {
        Value::Unchanged => "unchanged",
        Value::Sum { .. } => "sum",
        Value::Distance { .. } => "distance",
        Value::Module(_) => "module",
        Value::Thread { .. } => "thread",
        Value::ThreadNegated { .. } => "thread_negated",
        Value::Descriptor { .. } => "descriptor",
        Value::Copy { .. } => "copy",
    }
}

/// The numbers of a value.
pub(crate) fn value_numbers(value: &Value) -> Numbers
    ensures { result ≡ value_numbers value.now }
{
    match *value {
        Value::Unchanged => numbers_of(None, None, None, None),
        Value::Sum { origin, offset } => origin_numbers(origin, offset),
        Value::Distance { origin, offset } => origin_numbers(origin, offset),
        Value::Module(object) => numbers_of(Some(object), None, None, None),
        Value::Thread { object, offset } => numbers_of(Some(object), None, Some(offset), None),
        Value::ThreadNegated { object, offset } => numbers_of(
            Some(object),
            None,
            Some(offset),
            None,
        ),
        Value::Descriptor { object, offset } => numbers_of(object, None, Some(offset), None),
        Value::Copy {
            object,
            offset,
            size,
        } => numbers_of(Some(object), None, Some(offset), Some(size)),
    }
}

// The numbers of a sum.
fn origin_numbers(origin: Origin, offset: u64) -> Numbers
    ensures { result ≡ origin_numbers origin offset }
{
    match origin {
        Origin::Zero => numbers_of(None, None, Some(offset), None),
        Origin::Base(object) => numbers_of(Some(object), None, Some(offset), None),
        Origin::Call {
            object,
            offset: resolver,
        } => numbers_of(object, Some(resolver), Some(offset), None),
    }
}

fn numbers_of(
    object: Option<usize>,
    resolver: Option<u64>,
    offset: Option<u64>,
    size: Option<u64>,
) -> Numbers
    ensures { result ≡ record { object = object; resolver = resolver; offset = offset; size = size } }
{
    Numbers {
        object,
        resolver,
        offset,
        size,
    }
}
