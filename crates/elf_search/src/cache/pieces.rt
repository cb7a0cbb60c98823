//! Comparison of the names of libraries: runs of digits as numbers (glibc, `_dl_cache_libcmp`).

ghost use Rattle.std.specs.Prelude.{◌≡◌, ◌↔◌, ◌<◌, ◌+◌, ◌∷◌, [], Some, None, length, IsTrue};
ghost use Rattle.elf_search.specs.Pieces.{are_small, is_digit, name_order, piece_order, pieces, pieces_after};
ghost use Rattle.elf_search.specs.Pieces.{IsNumber, StartsWith, number_order};
ghost use Rattle.elf_search.specs.declared.cache.pieces.Piece.TheVariants.{Byte};
ghost use Rattle.std.specs.declared.cmp.Ordering.TheVariants.{Equal};

use std::cmp::Ordering;

// A piece of a name. The end of a name is the byte 0.
#[derive(Clone, Copy, Debug, PartialEq, Eq)]
pub(crate) enum Piece {
    // A run of digits, as a number modulo 2 to the 32.
    Number(u32),
    // A byte that is no digit.
    Byte(u8),
}

/// The order of two names in a cache. Where both have a run of digits, the runs are compared as
/// numbers, so `lib1.so` equals `lib01.so`: their difference modulo 2 to the 32, as a signed number,
/// decides. A digit is after all else, other bytes are compared as signed numbers, and the end of a
/// name, which is the first zero byte if it has one, as 0.
///
/// The time is linear in the shorter name with all digits of the last run in each.
pub fn compare(one: &[u8], other: &[u8]) -> Ordering
    ensures { result ≡ name_order one.now other.now }
{
    let (mut left, mut right) = (one, other);
    loop {
        let (piece, rest) = first_piece(left);
        let (other_piece, other_rest) = first_piece(right);
        let order = compare_pieces(piece, other_piece);
        if !is_equal(order) {
            return order;
        }
        if is_end(piece) {
            return order;
        }
        left = rest;
        right = other_rest;
    }
}

// Whether the numbers in a name are below 2 to the 31.
pub(crate) fn are_small(bytes: &[u8]) -> bool
    ensures { result ≡ are_small (pieces bytes.now) }
{
    let mut rest = bytes;
    loop {
        let (piece, others) = first_piece(rest);
        if is_end(piece) {
            return true;
        }
        if !is_small(piece) {
            return false;
        }
        rest = others;
    }
}

// Whether the piece is no number of 2 to the 31 or more.
fn is_small(piece: Piece) -> bool
    ensures { result ≡ are_small (piece ∷ []) }
{
    match piece {
        Piece::Number(number) => number < 1 << 31,
        Piece::Byte(_) => true,
    }
}

// Whether the order is that of equals.
fn is_equal(order: Ordering) -> bool
    ensures { IsTrue result ↔ (order ≡ Equal) }
{
    matches!(order, Ordering::Equal)
}

// Whether the piece is the end of a name.
fn is_end(piece: Piece) -> bool
    ensures { IsTrue result ↔ (piece ≡ Byte 0) }
{
    matches!(piece, Piece::Byte(0))
}

// The first piece of a name, and what follows it.
fn first_piece(bytes: &[u8]) -> (Piece, &[u8])
    ensures { StartsWith bytes.now result.0 result.1.now }
{
    match bytes {
        [] => (Piece::Byte(0), bytes),
        [first, rest @ ..] => if is_digit(*first) {
            number(u32::from(*first - b'0'), rest)
        } else {
            (Piece::Byte(*first), rest)
        },
    }
}

// The number of a run of digits whose front has this number, and what follows the run.
fn number(front: u32, bytes: &[u8]) -> (Piece, &[u8])
    ensures pieces { pieces_after (Some front) bytes.now ≡ result.0 ∷ pieces result.1.now }
    ensures shorter { length result.1.now < length bytes.now + 1 }
    ensures is_number { IsNumber result.0 }
{
    let mut value = front;
    let mut place = 0;
    while place < bytes.len() && is_digit(bytes[place]) {
        value = value
            .wrapping_mul(10)
            .wrapping_add(u32::from(bytes[place] - b'0'));
        place += 1;
    }
    (Piece::Number(value), &bytes[place..])
}

// Whether a byte is a digit.
fn is_digit(byte: u8) -> bool
    ensures { result ≡ is_digit byte }
{
    byte >= b'0' && byte <= b'9'
}

// The order of two pieces.
fn compare_pieces(one: Piece, other: Piece) -> Ordering
    ensures { result ≡ piece_order one other }
{
    match (one, other) {
        (Piece::Number(m), Piece::Number(n)) => compare_numbers(m, n),
        (Piece::Number(_), Piece::Byte(_)) => Ordering::Greater,
        (Piece::Byte(_), Piece::Number(_)) => Ordering::Less,
        (Piece::Byte(a), Piece::Byte(b)) => a.wrapping_add(128).cmp(&b.wrapping_add(128)),
    }
}

// The order of two numbers by their difference modulo 2 to the 32, as a signed number.
fn compare_numbers(m: u32, n: u32) -> Ordering
    ensures { result ≡ number_order m n }
{
    if m == n {
        Ordering::Equal
    } else if m.wrapping_sub(n) < 1 << 31 {
        Ordering::Greater
    } else {
        Ordering::Less
    }
}
