//! The name of an extension, in a fixed array.

ghost use Rattle.std.specs.Prelude.{◌≡◌, ◌≤◌, length, take, bytes_eq};

use arn_ids::Text;
use std::marker::Model;
use std::str;

/// The greatest length of a name, in bytes (Extensions API: `Lambda-Extension-Name`).
const LONGEST: usize = 128;

/// A name, seen as the list of its bytes. It is stored in place, so registering an extension
/// allocates no memory.
#[derive(Drop)]
pub(crate) struct Name {
    bytes: [u8; 128],
    len: usize,
}

impl Model for Name {
    ghost use Rattle.std.specs.Prelude.{◌≡◌, true, ℕ, List, take, ◌≤◌};
    ghost use Rattle.std.specs.Str.{is_utf8};

    ghost Value = { List ℕ };

    ghost view = { λ n. take n.len n.bytes };

    ghost invariant = { λ n. (n.len ≤ 128) × (is_utf8 (take n.len n.bytes) ≡ true) };
}

/// Returns an array that begins with these bytes.
fn array_of(text: &[u8]) -> [u8; 128]
    requires { length text.now ≤ 128 }
    ensures { take (length text.now) result ≡ text.now }
{
    let mut bytes = [0; LONGEST];
    bytes[..text.len()].copy_from_slice(text);
    bytes
}

impl Name {
    /// Returns a copy of a name of at most 128 bytes.
    pub(crate) fn of(text: &Text) -> Name
        requires { length text.now ≤ 128 }
        ensures { result ≡ text.now }
    {
        let text = text.as_str().as_bytes();
        Name {
            bytes: array_of(text),
            len: text.len(),
        }
    }

    /// Returns the name.
    pub(crate) fn as_str(&self) -> &str
        ensures { result.now ≡ self.now }
    {
        match str::from_utf8(&self.bytes[..self.len]) {
            Ok(text) => text,
            Err(_) => unreachable!(),
        }
    }

    /// Whether a text is this name.
    pub(crate) fn is(&self, text: &Text) -> bool
        ensures { result ≡ bytes_eq text.now self.now }
    {
        text.as_str().as_bytes() == &self.bytes[..self.len]
    }
}
