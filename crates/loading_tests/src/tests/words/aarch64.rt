//! The words that relocations of AArch64 write.

use crate::tests::words::{MINUS_4, Row};
use elf_loading::{Origin, Value};

pub const AARCH64: &[Row] = &[
    (183, 0, 1, 4, (0, Value::Unchanged)),
    (
        183,
        258,
        1,
        0x10,
        (
            8,
            Value::Sum {
                origin: Origin::Base(0),
                offset: 0x510,
            },
        ),
    ),
    (
        183,
        1027,
        0,
        MINUS_4,
        (
            8,
            Value::Sum {
                origin: Origin::Base(1),
                offset: MINUS_4,
            },
        ),
    ),
    (
        183,
        257,
        1,
        0x10,
        (
            8,
            Value::Sum {
                origin: Origin::Base(0),
                offset: 0x510,
            },
        ),
    ),
    (
        183,
        1025,
        1,
        MINUS_4,
        (
            8,
            Value::Sum {
                origin: Origin::Base(0),
                offset: 0x4fc,
            },
        ),
    ),
    (
        183,
        1026,
        1,
        0x10,
        (
            8,
            Value::Sum {
                origin: Origin::Base(0),
                offset: 0x510,
            },
        ),
    ),
    (183, 1028, 3, 0, (8, Value::Module(0))),
    (
        183,
        1029,
        3,
        MINUS_4,
        (
            8,
            Value::Sum {
                origin: Origin::Zero,
                offset: 0xc,
            },
        ),
    ),
    (
        183,
        1030,
        3,
        0x10,
        (
            8,
            Value::Thread {
                object: 0,
                offset: 0x20,
            },
        ),
    ),
    (
        183,
        1031,
        3,
        0x10,
        (
            16,
            Value::Descriptor {
                object: Some(0),
                offset: 0x20,
            },
        ),
    ),
    (
        183,
        1024,
        1,
        0,
        (
            8,
            Value::Copy {
                object: 1,
                offset: 0x500,
                size: 8,
            },
        ),
    ),
];
