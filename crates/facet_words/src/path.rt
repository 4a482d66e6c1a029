ghost use Rattle.std.specs.Prelude.{◌≡◌, IfOk};
ghost use Rattle.facet_words.specs.Paths.{is_path as is_a_path, path_of};

use crate::word::is_name;
use facet_base::Text;
use std::alloc::{AllocError, Global};

/// The path that a text is, if it is one: names joined by `::`.
pub fn read_path(alloc: Global, text: &str) -> Result<Option<Text>, AllocError>
    ensures { IfOk result (λ found. found ≡ path_of text.now) }
{
    if is_path(text) {
        Ok(Some(Text::new(alloc, text)?))
    } else {
        Ok(None)
    }
}

/// Whether a text is names joined by `::`, at least one.
pub fn is_path(text: &str) -> bool
    ensures { result ≡ is_a_path text.now }
{
    let mut rest = text;
    while let Some((name, behind)) = rest.split_once(':') {
        let Some(names) = behind.strip_prefix(':') else {
            return false;
        };
        if !is_name(name) {
            return false;
        }
        rest = names;
    }
    is_name(rest)
}
