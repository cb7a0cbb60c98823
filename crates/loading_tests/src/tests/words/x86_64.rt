//! The words that relocations of x86-64 write.

use crate::tests::words::{MINUS_4, RESOLVED, Row};
use elf_loading::{Origin, Value};

pub const X86_64: &[Row] = &[
    (62, 0, 1, 4, (0, Value::Unchanged)),
    (
        62,
        8,
        0,
        0x10,
        (
            8,
            Value::Sum {
                origin: Origin::Base(1),
                offset: 0x10,
            },
        ),
    ),
    (
        62,
        8,
        0,
        MINUS_4,
        (
            8,
            Value::Sum {
                origin: Origin::Base(1),
                offset: MINUS_4,
            },
        ),
    ),
    (
        62,
        1,
        1,
        0x10,
        (
            8,
            Value::Sum {
                origin: Origin::Base(0),
                offset: 0x510,
            },
        ),
    ),
    (
        62,
        1,
        1,
        MINUS_4,
        (
            8,
            Value::Sum {
                origin: Origin::Base(0),
                offset: 0x4fc,
            },
        ),
    ),
    (
        62,
        1,
        0,
        0x10,
        (
            8,
            Value::Sum {
                origin: Origin::Base(1),
                offset: 0x10,
            },
        ),
    ),
    (
        62,
        1,
        2,
        0x10,
        (
            8,
            Value::Sum {
                origin: Origin::Zero,
                offset: 0x10,
            },
        ),
    ),
    (
        62,
        1,
        4,
        MINUS_4,
        (
            8,
            Value::Sum {
                origin: Origin::Zero,
                offset: 0x1230,
            },
        ),
    ),
    (
        62,
        1,
        5,
        0x10,
        (
            8,
            Value::Sum {
                origin: RESOLVED,
                offset: 0x10,
            },
        ),
    ),
    (
        62,
        10,
        1,
        MINUS_4,
        (
            4,
            Value::Sum {
                origin: Origin::Base(0),
                offset: 0x4fc,
            },
        ),
    ),
    (
        62,
        10,
        2,
        MINUS_4,
        (
            4,
            Value::Sum {
                origin: Origin::Zero,
                offset: 0xffff_fffc,
            },
        ),
    ),
    (
        62,
        6,
        1,
        0x10,
        (
            8,
            Value::Sum {
                origin: Origin::Base(0),
                offset: 0x500,
            },
        ),
    ),
    (
        62,
        7,
        1,
        MINUS_4,
        (
            8,
            Value::Sum {
                origin: Origin::Base(0),
                offset: 0x500,
            },
        ),
    ),
    (
        62,
        6,
        2,
        0x10,
        (
            8,
            Value::Sum {
                origin: Origin::Zero,
                offset: 0,
            },
        ),
    ),
    (
        62,
        2,
        1,
        MINUS_4,
        (
            4,
            Value::Distance {
                origin: Origin::Base(0),
                offset: 0xffff_eefc,
            },
        ),
    ),
    (
        62,
        33,
        1,
        0x10,
        (
            8,
            Value::Sum {
                origin: Origin::Zero,
                offset: 0x18,
            },
        ),
    ),
    (
        62,
        32,
        1,
        MINUS_4,
        (
            4,
            Value::Sum {
                origin: Origin::Zero,
                offset: 4,
            },
        ),
    ),
    (62, 16, 3, 0x10, (8, Value::Module(0))),
    (62, 16, 0, 0, (8, Value::Module(1))),
    (62, 16, 2, 0, (0, Value::Unchanged)),
    (
        62,
        17,
        3,
        MINUS_4,
        (
            8,
            Value::Sum {
                origin: Origin::Zero,
                offset: 0xc,
            },
        ),
    ),
    (
        62,
        18,
        3,
        0x10,
        (
            8,
            Value::Thread {
                object: 0,
                offset: 0x20,
            },
        ),
    ),
    // a function of a file without thread-local storage: glibc 2.36 crashes (oracle/corners.toml)
    (
        62,
        18,
        1,
        0x10,
        (
            8,
            Value::Thread {
                object: 0,
                offset: 0x510,
            },
        ),
    ),
    (
        62,
        36,
        1,
        0x10,
        (
            16,
            Value::Descriptor {
                object: Some(0),
                offset: 0x510,
            },
        ),
    ),
    (62, 18, 2, 0x10, (0, Value::Unchanged)),
    (
        62,
        36,
        3,
        MINUS_4,
        (
            16,
            Value::Descriptor {
                object: Some(0),
                offset: 0xc,
            },
        ),
    ),
    (
        62,
        36,
        2,
        0x10,
        (
            16,
            Value::Descriptor {
                object: None,
                offset: 0x10,
            },
        ),
    ),
    (
        62,
        37,
        0,
        0x540,
        (
            8,
            Value::Sum {
                origin: Origin::Call {
                    object: Some(1),
                    offset: 0x540,
                },
                offset: 0,
            },
        ),
    ),
    (
        62,
        5,
        1,
        0x10,
        (
            8,
            Value::Copy {
                object: 1,
                offset: 0x500,
                size: 8,
            },
        ),
    ),
    (62, 5, 2, 0, (0, Value::Unchanged)),
];
