ghost use Rattle.std.specs.Prelude.{◌≡◌};
ghost use Rattle.std.specs.List.{list_all, list_any};
ghost use Rattle.facet_words.specs.Words.{is_name as is_a_name, is_name_byte, is_newline, number_of, is_unpadded as is_unpadded_text, reference_of};

/// Whether a text is a name.
pub fn is_name(text: &str) -> bool
    ensures { result ≡ is_a_name text.now }
{
    !text.is_empty() && text.len() <= 32 && has_name_bytes(text)
}

// Whether each byte of a text may stand in a name.
fn has_name_bytes(text: &str) -> bool
    ensures { result ≡ list_all is_name_byte text.now }
{
    text.bytes().all(|b| b.is_ascii_alphanumeric() || b == b'_')
}

/// The number behind a `#`.
pub fn read_reference(text: &str) -> Option<u32>
    ensures { result ≡ reference_of text.now }
{
    match text.strip_prefix('#') {
        Some(digits) => read_number(digits),
        None => None,
    }
}

/// The number that a text of at most nine digits is, if it is one.
pub fn read_number(text: &str) -> Option<u32>
    ensures { result ≡ number_of text.now }
{
    if text.len() > 9 || text.starts_with('+') || !is_unpadded(text) {
        return None;
    }
    text.parse::<u32>().ok()
}

/// Whether a text is one byte, or several of which the first isn't a 0.
pub fn is_unpadded(text: &str) -> bool
    ensures { result ≡ is_unpadded_text text.now }
{
    match text.as_bytes() {
        [] => false,
        [_] => true,
        [first, ..] => *first != b'0',
    }
}

/// Whether a text has a newline.
pub fn has_newline(text: &str) -> bool
    ensures { result ≡ list_any is_newline text.now }
{
    text.bytes().any(|b| b == b'\n')
}
