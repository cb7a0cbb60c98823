//! The words that relocations of 386 write.

use crate::tests::words::{MINUS_4, Row};
use elf_loading::{Origin, Value};

// On 386 the word in place is the addend, of 32 bits.
pub const I386: &[Row] = &[
    (
        3,
        8,
        0,
        MINUS_4,
        (
            4,
            Value::Sum {
                origin: Origin::Base(1),
                offset: 0xffff_fffc,
            },
        ),
    ),
    (
        3,
        1,
        1,
        0x10,
        (
            4,
            Value::Sum {
                origin: Origin::Base(0),
                offset: 0x510,
            },
        ),
    ),
    (
        3,
        1,
        1,
        MINUS_4,
        (
            4,
            Value::Sum {
                origin: Origin::Base(0),
                offset: 0x4fc,
            },
        ),
    ),
    (
        3,
        6,
        1,
        0x10,
        (
            4,
            Value::Sum {
                origin: Origin::Base(0),
                offset: 0x500,
            },
        ),
    ),
    (
        3,
        7,
        1,
        MINUS_4,
        (
            4,
            Value::Sum {
                origin: Origin::Base(0),
                offset: 0x500,
            },
        ),
    ),
    (
        3,
        2,
        1,
        MINUS_4,
        (
            4,
            Value::Distance {
                origin: Origin::Base(0),
                offset: 0xffff_eefc,
            },
        ),
    ),
    (
        3,
        38,
        1,
        0x10,
        (
            4,
            Value::Sum {
                origin: Origin::Zero,
                offset: 0x18,
            },
        ),
    ),
    (3, 35, 3, 0x10, (4, Value::Module(0))),
    (
        3,
        36,
        3,
        0x10,
        (
            4,
            Value::Sum {
                origin: Origin::Zero,
                offset: 0x10,
            },
        ),
    ),
    (
        3,
        14,
        3,
        MINUS_4,
        (
            4,
            Value::Thread {
                object: 0,
                offset: 0xc,
            },
        ),
    ),
    (
        3,
        37,
        3,
        4,
        (
            4,
            Value::ThreadNegated {
                object: 0,
                offset: 0xffff_fff4,
            },
        ),
    ),
    (
        3,
        41,
        3,
        4,
        (
            8,
            Value::Descriptor {
                object: Some(0),
                offset: 0x14,
            },
        ),
    ),
];
