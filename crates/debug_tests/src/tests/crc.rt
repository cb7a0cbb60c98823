//! The checksum of a debug file.

use crate::tests::want::want_at;
use elf_debug::debug_crc;
use std::alloc::AllocError;

// What Python's `zlib.crc32` returns.
const CHECKSUMS: &[(&[u8], u32)] = &[
    (b"", 0),
    (b"a", 0xe8b7_be43),
    (b"123456789", 0xcbf4_3926),
    (b"The quick brown fox jumps over the lazy dog", 0x414f_a339),
    (b"\xff\xff\xff\xff\xff", 0xd2fd_1072),
];

#[test]
fn checksums_are_those_of_zlib(rt: HostRuntime) -> Result<(), AllocError> {
    for &(bytes, wanted) in CHECKSUMS {
        want_at(&rt, bytes.len(), debug_crc(bytes), wanted);
    }
    let zeros = vec![in rt.alloc(); 0u8; 1000]?;
    want_at(&rt, zeros.len(), debug_crc(&zeros), 0x060b_1780);
    let mut each = Vec::new(rt.alloc());
    for byte in 0..=u8::MAX {
        each.push(byte)?;
    }
    want_at(&rt, each.len(), debug_crc(&each), 0x2905_8c73);
    Ok(())
}
