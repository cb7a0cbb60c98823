//! The elements of a list of directories.

ghost use Rattle.std.specs.Prelude.{◌≡◌, ◌+◌, ◌<◌, ◌≤◌, ◌∷◌, IfSome, false, length, option_map, slice_get};
ghost use Rattle.std.specs.Prelude.{true};
ghost use Rattle.elf_search.specs.Elements.{elements_of, first_end, is_end, pieces_left, pieces_of};

// An element of a list of directories.
#[derive(Clone, Copy, Debug)]
pub(crate) struct Element<'s> {
    pub(crate) bytes: &'s [u8],
    // Whether no element follows.
    pub(crate) is_last: bool,
}

// Whether a byte ends an element.
fn is_end(separators: &[u8], byte: u8) -> bool
    ensures { result ≡ is_end separators.now byte }
{
    separators.contains(&byte)
}

// The number of bytes before the first that ends an element.
#[tactic(auto, using(crate::proofs::ElementSteps::end_none, crate::proofs::ElementSteps::end_here, crate::proofs::ElementSteps::end_later))]
fn first_end(separators: &[u8], text: &[u8]) -> usize
    ensures value { result ≡ first_end separators.now text.now }
    ensures within { result ≤ length text.now }
{
    let mut rest = text;
    let mut count = 0;
    while let Some((byte, others)) = rest.split_first() {
        if is_end(separators, *byte) {
            return count;
        }
        count += 1;
        rest = others;
    }
    count
}

// The first piece of a text, and the text behind the byte that ends it, if one does.
#[tactic(auto, using(crate::proofs::ElementSteps::one_piece, crate::proofs::ElementSteps::more_pieces))]
pub(crate) fn split_piece<'s>(text: &'s [u8], separators: &[u8]) -> (&'s [u8], Option<&'s [u8]>)
    ensures { pieces_of separators.now text.now
        ≡ result.0.now ∷ pieces_left separators.now result.1 }
{
    let end = first_end(separators, text);
    let piece = text.split_at(end).0;
    if end == text.len() {
        return (piece, None);
    }
    (piece, Some(text.split_at(end + 1).1))
}

// The piece at an index of a text.
#[tactic(auto, using(crate::proofs::ElementSteps::at_first, crate::proofs::ElementSteps::at_none, crate::proofs::ElementSteps::at_later, crate::proofs::ElementSteps::count_one, crate::proofs::ElementSteps::count_more, crate::proofs::ElementSteps::last_true, crate::proofs::ElementSteps::last_false, crate::proofs::ElementSteps::some_bytes))]
fn piece_at<'s>(text: &'s [u8], separators: &[u8], index: usize) -> Option<Element<'s>>
    ensures bytes { option_map (λ e. e.bytes.now) result
        ≡ slice_get (pieces_of separators.now text.now) index }
    ensures last { IfSome result (λ e. e.is_last ≡ true
        → length (pieces_of separators.now text.now) ≡ index + 1) }
    ensures other { IfSome result (λ e. e.is_last ≡ false
        → index + 1 < length (pieces_of separators.now text.now)) }
    ensures below { IfSome result (λ e. e.is_last ≡ false → index < length text.now) }
{
    let mut rest = text;
    let mut left = index;
    loop {
        let end = first_end(separators, rest);
        if left == 0 {
            return Some(Element {
                bytes: rest.split_at(end).0,
                is_last: end == rest.len(),
            });
        }
        if end == rest.len() {
            return None;
        }
        left -= 1;
        rest = rest.split_at(end + 1).1;
    }
}

// The element at an index of a list. An empty list has none; otherwise each byte that ends one
// begins another.
pub(crate) fn element_at<'s>(text: &'s [u8], separators: &[u8], index: usize) -> Option<Element<'s>>
    ensures bytes { option_map (λ e. e.bytes.now) result
        ≡ slice_get (elements_of separators.now text.now) index }
    ensures last { IfSome result (λ e. e.is_last ≡ true
        → length (elements_of separators.now text.now) ≡ index + 1) }
    ensures other { IfSome result (λ e. e.is_last ≡ false
        → index + 1 < length (elements_of separators.now text.now)) }
    ensures below { IfSome result (λ e. e.is_last ≡ false → index < length text.now) }
{
    if text.is_empty() {
        return None;
    }
    piece_at(text, separators, index)
}
