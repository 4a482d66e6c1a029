ghost use Rattle.std.specs.Prelude.{◌≡◌, option_map};
ghost use Rattle.std.specs.Option.{option_copied};
ghost use Rattle.facet_words.specs.Options.{behind, key_in, word_of_key};

/// What an option of a declaration begins with.
#[derive(Clone, Copy)]
pub enum OptionKey {
    /// `.repr=`
    Repr,
    /// `.packed`
    Packed,
    /// `.id=`
    Id,
    /// `.mod=`
    Mod,
    /// `.param=`
    Param,
    /// `.base=`
    Base,
    /// `.dep=+`
    Covariant,
    /// `.dep=-`
    Contravariant,
    /// `.dep==`
    Invariant,
}

/// All of them.
pub const OPTION_KEYS: [OptionKey; 9] = [
    OptionKey::Repr,
    OptionKey::Packed,
    OptionKey::Id,
    OptionKey::Mod,
    OptionKey::Param,
    OptionKey::Base,
    OptionKey::Covariant,
    OptionKey::Contravariant,
    OptionKey::Invariant,
];

impl OptionKey {
    /// The beginning itself.
    pub fn word(self) -> &'static str
        ensures { result.now ≡ word_of_key self }
    {
        match self {
            OptionKey::Repr => ".repr=",
            OptionKey::Packed => ".packed",
            OptionKey::Id => ".id=",
            OptionKey::Mod => ".mod=",
            OptionKey::Param => ".param=",
            OptionKey::Base => ".base=",
            OptionKey::Covariant => ".dep=+",
            OptionKey::Contravariant => ".dep=-",
            OptionKey::Invariant => ".dep==",
        }
    }
}

/// The first of some beginnings that a text has, and what stands behind it.
pub fn find_key<'a>(keys: &[OptionKey], text: &'a str) -> Option<(OptionKey, &'a str)>
    ensures { option_map (λ found. (found.0, found.1.now)) result ≡ key_in keys.now text.now }
{
    for key in keys {
        if let Some(rest) = text_behind(text, key.word()) {
            return Some((*key, rest));
        }
    }
    None
}

// What stands behind a beginning, if a text begins so.
fn text_behind<'a>(text: &'a str, front: &str) -> Option<&'a str>
    ensures { option_copied result ≡ behind front.now text.now }
{
    text.strip_prefix(front)
}
