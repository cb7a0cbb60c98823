//! Texts compared in place, and texts up to a zero byte.

use crate::tests::want::{want, want_at};
use elf_base::ElfError;
use elf_base::bytes::{bytes_up_to_zero, is_found_at, text_at, text_is};
use worked_files::rows;

const COMPARED: &[(usize, &str, (bool, usize))] = rows! {
    0, "", (true, 1); 0, "a", (false, 1); 1, "ab", (true, 3); 1, "", (false, 1); 1, "a", (false, 2);
    1, "ac", (false, 2); 1, "abc", (false, 3); 1, "ab\0", (false, 0); 1, "\0", (false, 0);
    2, "b", (true, 2); 4, "\u{ff}", (false, 1); 5, "", (true, 1); 6, "", (false, 1);
    6, "c", (false, 2); 6, "cd", (false, 2); 6, "cde", (false, 2); 8, "", (false, 0);
    8, "ab", (false, 0); 9, "", (false, 0); usize::MAX, "ab", (false, 0);
};

#[test]
fn texts_are_compared_in_place(rt: HostRuntime) {
    let bytes = b"\0ab\0\xff\0cd";
    for &(start, text, answer) in COMPARED {
        let found = (text_is(bytes, start, text), is_found_at(bytes, start, text));
        want_at(&rt, (text, start), found, (answer, answer.0));
    }
    want(&rt, text_is(b"", 0, ""), (false, 0));
}

// The bytes up to the first zero byte from each place on, and the text that they are.
type Texts = (
    usize,
    Result<&'static [u8], ElfError>,
    Result<&'static str, ElfError>,
);

const TEXTS: &[Texts] = rows! {
    0, Ok(b""), Ok("");
    1, Ok(b"ab"), Ok("ab");
    2, Ok(b"b"), Ok("b");
    3, Ok(b""), Ok("");
    4, Ok(b"\xff"), Err(ElfError::TextUtf8);
    5, Ok(b""), Ok("");
    6, Err(ElfError::TextEnd), Err(ElfError::TextEnd);
    8, Err(ElfError::TextEnd), Err(ElfError::TextEnd);
    9, Err(ElfError::TextStart), Err(ElfError::TextStart);
    usize::MAX, Err(ElfError::TextStart), Err(ElfError::TextStart);
};

#[test]
fn texts_end_at_a_zero_byte(rt: HostRuntime) {
    let bytes = b"\0ab\0\xff\0cd";
    for &(start, up_to_zero, text) in TEXTS {
        want_at(&rt, start, bytes_up_to_zero(bytes, start), up_to_zero);
        want_at(&rt, start, text_at(bytes, start), text);
    }
    want(&rt, bytes_up_to_zero(b"", 0), Err(ElfError::TextEnd));
}
