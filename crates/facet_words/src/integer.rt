ghost use Rattle.std.specs.Prelude.{◌≡◌};
ghost use Rattle.facet_words.specs.Integers.{integer_of};

use crate::word::is_unpadded;

/// The `i64` that a text is: perhaps a `-`, and digits without a leading zero. `-0` is none.
pub fn read_integer(text: &str) -> Option<i64>
    ensures { result ≡ integer_of text.now }
{
    match text.strip_prefix('-') {
        Some(digits) => {
            if digits == "0" || !is_unpadded(digits) {
                return None;
            }
            text.parse::<i64>().ok()
        }
        None => {
            if text.starts_with('+') || !is_unpadded(text) {
                return None;
            }
            text.parse::<i64>().ok()
        }
    }
}
