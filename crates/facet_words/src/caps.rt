ghost use Rattle.std.specs.Prelude.{◌≡◌};
ghost use Rattle.facet_words.specs.Caps.{behind_letter, caps_of, has as has_letter, has_in_order as has_letters_in_order};

/// What a declared shape's values can do.
#[derive(Clone, Copy)]
pub struct Caps {
    /// `e`
    pub partial_eq: bool,
    /// `p`
    pub partial_cmp: bool,
    /// `o`
    pub cmp: bool,
    /// `h`
    pub hash: bool,
    /// `g`
    pub debug: bool,
    /// `d`
    pub default_in_place: bool,
    /// `c`
    pub clone_into: bool,
    /// `s`
    pub display: bool,
    /// `f`
    pub parse: bool,
}

/// The capabilities that a text is, if it is `-` for none, or their letters in the order of the members, each once.
pub fn read_caps(text: &str) -> Option<Caps>
    ensures { result ≡ caps_of text.now }
{
    if text != "-" && (text.is_empty() || !has_in_order(text, b"epohgdcsf")) {
        return None;
    }
    Some(Caps {
        partial_eq: has(text, b'e'),
        partial_cmp: has(text, b'p'),
        cmp: has(text, b'o'),
        hash: has(text, b'h'),
        debug: has(text, b'g'),
        default_in_place: has(text, b'd'),
        clone_into: has(text, b'c'),
        display: has(text, b's'),
        parse: has(text, b'f'),
    })
}

// Whether a text has some of these letters, in this order, and nothing else.
fn has_in_order(text: &str, letters: &[u8]) -> bool
    ensures { result ≡ has_letters_in_order letters.now text.now }
{
    let mut rest = text.as_bytes();
    for letter in letters {
        rest = without_first(rest, *letter);
    }
    rest.is_empty()
}

// The bytes behind a letter, where they begin with it.
fn without_first(bytes: &[u8], letter: u8) -> &[u8]
    ensures { result.now ≡ behind_letter letter bytes.now }
{
    match bytes {
        [first, rest @ ..] if *first == letter => rest,
        _ => bytes,
    }
}

// Whether a letter stands in a text.
fn has(text: &str, letter: u8) -> bool
    ensures { result ≡ has_letter letter text.now }
{
    text.bytes().any(|b| b == letter)
}
