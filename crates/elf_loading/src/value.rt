//! What a relocation writes, in terms of the addresses at which files are loaded (the processor
//! supplements of the System V ABI; the values without a symbol, and of indirect functions, as
//! glibc 2.36 has them).

ghost use Rattle.std.specs.Prelude.{◌≡◌, ◌<◌, ◌^◌};
ghost use Rattle.elf_loading.specs.Values.{absent_value, bound_value, bytes_of, difference};
ghost use Rattle.elf_loading.specs.Values.{is_elsewhere, is_indirect, low, module_value, object_of};
ghost use Rattle.elf_loading.specs.Values.{origin_of, size_of, target_of, value_of};

use elf_linking::references::Formula;
use elf_linking::scope::Bound;
use elf_linking::view::LinkedSymbol;

/// What a sum begins with.
#[derive(Clone, Copy, Debug, PartialEq, Eq)]
pub enum Origin {
    /// Nothing: the offset is the number.
    Zero,
    /// The base of the object at this index of the scope.
    Base(usize),
    /// What a function returns: the resolver of an indirect function (STT_GNU_IFUNC), or the
    /// function of an indirect relative relocation.
    Call {
        /// The index of the object from whose base the function is counted; `None` for an absolute
        /// address.
        object: Option<usize>,
        /// The function, relative to that base.
        offset: u64,
    },
}

/// What a relocation writes. Objects are given by their indices in the scope. All numbers are modulo
/// 2 to the number of the word's bits.
#[derive(Clone, Copy, Debug, PartialEq, Eq)]
pub enum Value {
    /// The word stays as it is.
    Unchanged,
    /// The origin plus a number.
    Sum {
        /// What the sum begins with.
        origin: Origin,
        /// The number.
        offset: u64,
    },
    /// The origin plus a number, less the base of the file with the relocation.
    Distance {
        /// What the sum begins with.
        origin: Origin,
        /// The number.
        offset: u64,
    },
    /// The number of the module of thread-local storage of an object.
    Module(usize),
    /// The offset from the thread pointer of the thread-local storage of an object, plus a number.
    Thread {
        /// The object.
        object: usize,
        /// The number.
        offset: u64,
    },
    /// A number, less the offset from the thread pointer of the thread-local storage of an object.
    ThreadNegated {
        /// The object.
        object: usize,
        /// The number.
        offset: u64,
    },
    /// Two words: the descriptor of an address in the thread-local storage of an object.
    Descriptor {
        /// The object; `None` if the relocation gets no symbol.
        object: Option<usize>,
        /// The address, relative to the start of the storage.
        offset: u64,
    },
    /// Bytes of an object.
    Copy {
        /// The object.
        object: usize,
        /// The address of the first byte, relative to the base of the object.
        offset: u64,
        /// The number of bytes: the size of the symbol in that object, or in the own file if that is
        /// less.
        size: u64,
    },
}

// The numbers of a relocation that a value is made of.
#[derive(Clone, Copy, Debug)]
pub(crate) struct Terms {
    // The index of the own object.
    pub(crate) own: usize,
    // The address of the word.
    pub(crate) address: u64,
    pub(crate) addend: u64,
    // The size of the symbol in the own file.
    pub(crate) size: u64,
    // The number of bytes of the word.
    pub(crate) width: u32,
}

// What a symbol is: an origin plus a number.
#[derive(Clone, Copy, Debug)]
pub(crate) struct Target {
    pub(crate) origin: Origin,
    pub(crate) number: u64,
}

const STT_GNU_IFUNC: u8 = 10;

const SHN_UNDEF: u16 = 0;

const SHN_ABS: u16 = 0xfff1;

// The low bytes of a number.
#[inline(always)]
pub(crate) fn low(width: u32, number: u128) -> u64
    ensures { result ≡ low width number }
{
    if width == 4 {
        (number % 0x1_0000_0000) as u64
    } else {
        (number % 0x1_0000_0000_0000_0000) as u64
    }
}

// The low bytes of a number less another.
pub(crate) fn difference(width: u32, one: u128, other: u64) -> u64
    requires { one < 2 ^ 66 }
    ensures { result ≡ difference width one other }
{
    low(width, one + 0x1_0000_0000_0000_0000 - u128::from(other))
}

// Whether a symbol is a defined indirect function.
fn is_indirect<E: LinkedSymbol>(symbol: &E) -> bool
    ensures { result ≡ is_indirect (E.fields symbol.now) }
{
    symbol.info() % 16 == STT_GNU_IFUNC && symbol.shndx() != SHN_UNDEF
}

// The object from whose base a symbol is counted.
fn object_of<E: LinkedSymbol>(bound: &Bound<E>) -> Option<usize>
    ensures { result ≡ object_of E.fields bound.now }
{
    if bound.symbol.shndx() == SHN_ABS {
        None
    } else {
        Some(bound.object)
    }
}

// The base of an object, or nothing.
fn origin_of(object: Option<usize>) -> Origin
    ensures { result ≡ origin_of object }
{
    match object {
        Some(object) => Origin::Base(object),
        None => Origin::Zero,
    }
}

// What the symbol that a relocation gets is.
fn target_of<E: LinkedSymbol>(bound: &Option<Bound<E>>) -> Target
    ensures { result ≡ target_of E.fields bound.now }
{
    let Some(bound) = bound else {
        return Target {
            origin: Origin::Zero,
            number: 0,
        };
    };
    let object = object_of(bound);
    let value = bound.symbol.value();
    if is_indirect(&bound.symbol) {
        return Target {
            origin: Origin::Call {
                object,
                offset: value,
            },
            number: 0,
        };
    }
    Target {
        origin: origin_of(object),
        number: value,
    }
}

// The size of the symbol that a relocation gets.
fn size_of<E: LinkedSymbol>(bound: &Option<Bound<E>>) -> u64
    ensures { result ≡ size_of E.fields bound.now }
{
    match bound {
        Some(bound) => bound.symbol.size(),
        None => 0,
    }
}

// Whether there is a symbol whose bytes are not at its value in its object.
pub(crate) fn is_elsewhere<E: LinkedSymbol>(bound: &Option<Bound<E>>) -> bool
    ensures { result ≡ is_elsewhere E.fields bound.now }
{
    match bound {
        Some(bound) => is_indirect(&bound.symbol) || object_of(bound).is_none(),
        None => false,
    }
}

// The value of a relocation without a symbol, for a formula of a module or of an object's bytes.
fn absent_value(terms: &Terms, formula: Formula) -> Value
    ensures { result ≡ absent_value terms.now formula }
{
    match formula {
        Formula::Descriptor => Value::Descriptor {
            object: None,
            offset: low(terms.width, u128::from(terms.addend)),
        },
        _ => Value::Unchanged,
    }
}

// The value of a relocation with a symbol, for a formula of a module or of an object's bytes.
fn bound_value<E: LinkedSymbol>(terms: &Terms, bound: &Bound<E>, formula: Formula) -> Value
    ensures { result ≡ bound_value E.fields terms.now bound.now formula }
{
    let object = bound.object;
    let value = bound.symbol.value();
    let sum = u128::from(value) + u128::from(terms.addend);
    match formula {
        Formula::Module => Value::Module(object),
        Formula::Offset => Value::Sum {
            origin: Origin::Zero,
            offset: low(terms.width, sum),
        },
        Formula::OffsetAlone => Value::Sum {
            origin: Origin::Zero,
            offset: low(terms.width, u128::from(value)),
        },
        Formula::Thread => Value::Thread {
            object,
            offset: low(terms.width, sum),
        },
        Formula::ThreadNegated => Value::ThreadNegated {
            object,
            offset: difference(terms.width, u128::from(terms.addend), value),
        },
        Formula::Descriptor => Value::Descriptor {
            object: Some(object),
            offset: low(terms.width, sum),
        },
        Formula::Copy => Value::Copy {
            object,
            offset: value,
            size: bound.symbol.size().min(terms.size),
        },
        _ => Value::Unchanged,
    }
}

// The value of a relocation, by its formula, its numbers, and the symbol that it gets.
pub(crate) fn value_of<E: LinkedSymbol>(
    terms: &Terms,
    bound: &Option<Bound<E>>,
    formula: Formula,
) -> Value
    ensures { result ≡ value_of E.fields terms.now bound.now formula }
{
    let width = terms.width;
    let addend = u128::from(terms.addend);
    let target = target_of(bound);
    let (origin, number) = (target.origin, u128::from(target.number));
    match formula {
        Formula::Unchanged => Value::Unchanged,
        Formula::Base => Value::Sum {
            origin: Origin::Base(terms.own),
            offset: low(width, addend),
        },
        Formula::Call => Value::Sum {
            origin: Origin::Call {
                object: Some(terms.own),
                offset: low(width, addend),
            },
            offset: 0,
        },
        Formula::Symbol => Value::Sum {
            origin,
            offset: low(width, number + addend),
        },
        Formula::SymbolAlone => Value::Sum {
            origin,
            offset: low(width, number),
        },
        Formula::Distance => Value::Distance {
            origin,
            offset: difference(width, number + addend, terms.address),
        },
        Formula::Size => Value::Sum {
            origin: Origin::Zero,
            offset: low(width, u128::from(size_of(bound)) + addend),
        },
        _ => module_value(terms, bound, formula),
    }
}

// The value of a relocation for a formula of a module or of an object's bytes.
fn module_value<E: LinkedSymbol>(terms: &Terms, bound: &Option<Bound<E>>, formula: Formula) -> Value
    ensures { result ≡ module_value E.fields terms.now bound.now formula }
{
    match bound {
        Some(bound) => bound_value(terms, bound, formula),
        None => absent_value(terms, formula),
    }
}

// The number of bytes that a value takes, where a number takes as many as are given.
pub(crate) fn bytes_of(width: u32, value: &Value) -> u64
    requires { width < 2 ^ 31 }
    ensures { result ≡ bytes_of width value.now }
{
    match value {
        Value::Unchanged => 0,
        Value::Descriptor { .. } => u64::from(2 * width),
        Value::Copy { size, .. } => *size,
        _ => u64::from(width),
    }
}
