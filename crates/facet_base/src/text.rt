ghost use Rattle.std.specs.Prelude.{◌≡◌, bytes_eq, IfOk};
ghost use Rattle.std.specs.Str.{IsUtf8};
ghost use Rattle.facet_base.specs.Text.{tail_of};

use std::alloc::{AllocError, Global};
use std::marker::Model;

/// A text that owns its bytes. Contracts see the list of its bytes, which are UTF-8.
#[derive(Drop)]
pub struct Text {
    text: String,
    // Most unequal texts differ in this number, so they are distinguished without reading their bytes.
    tail: u64,
}

impl Model for Text {
    ghost use Rattle.std.specs.Prelude.{List, ℕ, string_bytes};
    ghost use Rattle.std.specs.Coded.{coded_list, coded_ℕ};

    ghost Value = { List ℕ };

    ghost coded = { coded_list coded_ℕ };

    ghost view = { λ t. string_bytes t.text };

    ghost use Rattle.std.specs.Prelude.{◌≡◌};
    ghost use Rattle.facet_base.specs.Text.{tail_of};

    ghost invariant = { λ t. t.tail ≡ tail_of (string_bytes t.text) };
}

impl Text {
    /// A copy of `s`, or an allocation failure.
    pub fn new(alloc: Global, s: &str) -> Result<Text, AllocError>
        ensures { IfOk result (λ text. text ≡ s.now) }
    {
        Ok(Text {
            text: String::from_str(alloc, s)?,
            tail: read_tail(s.as_bytes()),
        })
    }

    /// The text of bytes that are UTF-8, in their memory. It allocates nothing.
    pub fn from_utf8(bytes: Vec<u8>) -> Text
        requires { IsUtf8 bytes.items }
        ensures { result ≡ bytes.items }
    {
        let tail = read_tail(&bytes);
        let text = unsafe { String::from_utf8_unchecked(bytes) };
        Text { text, tail }
    }

    /// The bytes as a text.
    pub fn as_str(&self) -> &str
        ensures { result.now ≡ self.now }
    {
        self.text.as_str()
    }

    /// The bytes, in the memory of the text. It allocates nothing.
    pub fn into_bytes(self) -> Vec<u8>
        ensures { result.items ≡ self }
    {
        self.text.into_bytes()
    }

    /// Whether another text has the same bytes. Constant time where the lengths or the last eight bytes differ.
    pub fn is_same(&self, other: &Text) -> bool
        ensures { result ≡ bytes_eq self.now other.now }
    {
        if self.text.len() != other.text.len() || self.tail != other.tail {
            return false;
        }
        self.text.as_str() == other.text.as_str()
    }

    /// A text of the same bytes, or an allocation failure.
    pub fn try_clone(&self, alloc: Global) -> Result<Text, AllocError>
        ensures { IfOk result (λ text. text ≡ self.now) }
    {
        Text::new(alloc, self.as_str())
    }
}

// The last eight bytes as one number, all of them where there are fewer.
fn read_tail(bytes: &[u8]) -> u64
    ensures { result ≡ tail_of bytes.now }
{
    let start = bytes.len().saturating_sub(8);
    let mut tail: u64 = 0;
    for byte in &bytes[start..] {
        tail = tail.wrapping_mul(256).wrapping_add(u64::from(*byte));
    }
    tail
}
