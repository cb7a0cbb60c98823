//! Dynamic string tokens in names and search paths: `$ORIGIN`, `$LIB` and `$PLATFORM`, also in braces
//! (`ld.so`'s manual page, "Dynamic string tokens").

ghost use Rattle.std.specs.Prelude.{◌≡◌, ◌≤◌, ◌+◌, IfSome, IsTrue, length, option_map};
ghost use Rattle.elf_search.specs.Tokens.{begins_with_closed, begins_with_word, expanded};
ghost use Rattle.elf_search.specs.Tokens.{expanded_left, is_known, is_unknown_at, is_word, token_at};
ghost use Rattle.elf_search.specs.Tokens.{token_length, token_parts, value_of, values_of};

/// The values of the tokens for an object; `None` if a value is not known.
#[derive(Clone, Copy, Debug)]
pub struct TokenValues<'v> {
    /// The directory of the object (`$ORIGIN`).
    pub origin: Option<&'v [u8]>,
    /// The directory of libraries for the machine, as `lib64` (`$LIB`).
    pub lib: Option<&'v [u8]>,
    /// The kind of the processor, as `x86_64` (`$PLATFORM`).
    pub platform: Option<&'v [u8]>,
}

// A token behind a dollar sign.
#[derive(Clone, Copy, Debug)]
struct Token<'v> {
    // The number of its bytes, without the dollar sign.
    length: usize,
    value: Option<&'v [u8]>,
}

impl<'v> Token<'v> {
    // The value, nothing if it is not known.
    fn value_or_none(&self) -> &'v [u8]
        ensures { result.now ≡ value_of (token_parts self.now).value }
    {
        match self.value {
            Some(value) => value,
            None => &[],
        }
    }
}

// Whether a byte can be one of an identifier: a letter, a digit or an underscore.
fn is_word(byte: u8) -> bool
    ensures { result ≡ is_word byte }
{
    byte.is_ascii_alphanumeric() || byte == b'_'
}

// Whether a text begins with a name behind which no byte of an identifier follows.
fn begins_with_word(text: &[u8], name: &[u8]) -> bool
    ensures value { result ≡ begins_with_word text.now name.now }
    ensures within { IsTrue result → length name.now ≤ length text.now }
{
    text.starts_with(name) && (text.len() == name.len() || !is_word(text[name.len()]))
}

// Whether a text begins with a name and a closing brace.
fn begins_with_closed(text: &[u8], name: &[u8]) -> bool
    ensures value { result ≡ begins_with_closed text.now name.now }
    ensures within { IsTrue result → length name.now + 1 ≤ length text.now }
{
    text.starts_with(name) && text.len() > name.len() && text[name.len()] == b'}'
}

// The number of bytes of a name, in braces or not, at the front of the text behind a dollar sign; 0
// if it is not there.
fn token_length(text: &[u8], name: &[u8]) -> usize
    ensures value { result ≡ token_length text.now name.now }
    ensures within { result ≤ length text.now }
{
    let Some((first, inner)) = text.split_first() else {
        return 0;
    };
    if *first == b'{' {
        if begins_with_closed(inner, name) {
            return name.len() + 2;
        }
        return 0;
    }
    if begins_with_word(text, name) {
        return name.len();
    }
    0
}

// The token at the front of the text behind a dollar sign.
fn token_at<'v>(text: &[u8], values: &TokenValues<'v>) -> Option<Token<'v>>
    ensures value { option_map token_parts result ≡ token_at (values_of values.now) text.now }
    ensures within { IfSome result (λ token. token.length ≤ length text.now) }
{
    let length = token_length(text, b"ORIGIN");
    if length != 0 {
        return Some(Token {
            length,
            value: values.origin,
        });
    }
    let length = token_length(text, b"LIB");
    if length != 0 {
        return Some(Token {
            length,
            value: values.lib,
        });
    }
    let length = token_length(text, b"PLATFORM");
    if length != 0 {
        return Some(Token {
            length,
            value: values.platform,
        });
    }
    None
}

// Whether the text behind a dollar sign begins with a token whose value is not known.
fn is_unknown_at(text: &[u8], values: &TokenValues<'_>) -> bool
    ensures { result ≡ is_unknown_at (values_of values.now) text.now }
{
    match token_at(text, values) {
        Some(token) => token.value.is_none(),
        None => false,
    }
}

/// Whether the values of all tokens in a text are known.
#[tactic(auto, using(crate::proofs::TokenSteps::known_end, crate::proofs::TokenSteps::known_not, crate::proofs::TokenSteps::known_other, crate::proofs::TokenSteps::known_dollar))]
pub fn is_known(text: &[u8], values: &TokenValues<'_>) -> bool
    ensures { result ≡ is_known (values_of values.now) text.now }
{
    let mut rest = text;
    while let Some((byte, others)) = rest.split_first() {
        if *byte == b'$' && is_unknown_at(others, values) {
            return false;
        }
        rest = others;
    }
    true
}

/// The bytes of a text with its tokens expanded, in order.
#[derive(Clone, Copy, Debug, Drop)]
pub struct Expanded<'v> {
    // What is left of the value of a token.
    value: &'v [u8],
    // The text behind it.
    text: &'v [u8],
    values: TokenValues<'v>,
}

/// The bytes of a text with its tokens replaced by their values; none if a value is not known. A
/// dollar sign that begins no token stays.
pub fn expand<'v>(text: &'v [u8], values: &TokenValues<'v>) -> Expanded<'v>
    ensures { expanded_left result ≡ expanded (values_of values.now) text.now }
{
    let text = if is_known(text, values) { text } else { &[] };
    Expanded {
        value: &[],
        text,
        values: *values,
    }
}

impl Iterator for Expanded<'_> {
    ghost use Rattle.std.specs.Iterator.{YieldsFirst, item_count};

    type Item = u8;

    ghost next_gives = { YieldsFirst expanded_left };

    ghost remaining = { item_count expanded_left };

    #[tactic(auto, using(crate::proofs::TokenSteps::replaced_end, crate::proofs::TokenSteps::replaced_byte, crate::proofs::TokenSteps::replaced_dollar, crate::proofs::TokenSteps::replaced_token))]
    fn next(&mut self) -> Option<u8> {
        loop {
            if let Some((byte, others)) = self.value.split_first() {
                self.value = others;
                return Some(*byte);
            }
            let (byte, others) = self.text.split_first()?;
            self.text = others;
            if *byte != b'$' {
                return Some(*byte);
            }
            let Some(token) = token_at(others, &self.values) else {
                return Some(*byte);
            };
            self.text = others.split_at(token.length).1;
            self.value = token.value_or_none();
        }
    }
}
