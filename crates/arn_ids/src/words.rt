//! Which texts are names, account numbers, regions and labels.

ghost use Rattle.std.specs.Prelude.{◌≡◌, ◌&&◌, nat_le, length};
ghost use Rattle.std.specs.List.{list_all};
ghost use Rattle.arn_ids.specs.Words as words;

pub(crate) const LONGEST_NAME: usize = 64;

const LONGEST_REGION: usize = 32;

const LONGEST_LABEL: usize = 128;

const ACCOUNT_DIGITS: usize = 12;

/// Whether a text has from 1 to `most` bytes.
pub(crate) fn is_within(text: &str, most: usize) -> bool
    ensures { result ≡ (nat_le 1 (length text.now) && nat_le (length text.now) most) }
{
    1 <= text.len() && text.len() <= most
}

fn is_name_byte(b: u8) -> bool
    ensures { result ≡ words.is_name_byte b }
{
    b.is_ascii_digit() || b.is_ascii_lowercase() || b.is_ascii_uppercase() || b == b'-' || b == b'_'
}

/// Whether each byte is allowed in a function's name.
pub(crate) fn has_name_bytes(text: &str) -> bool
    ensures { result ≡ list_all words.is_name_byte text.now }
{
    text.as_bytes().iter().all(|b| is_name_byte(*b))
}

fn has_digits(text: &str) -> bool
    ensures { result ≡ list_all words.is_digit text.now }
{
    text.as_bytes().iter().all(|b| b.is_ascii_digit())
}

fn has_region_bytes(text: &str) -> bool
    ensures { result ≡ list_all words.is_region_byte text.now }
{
    text.as_bytes().iter().all(|b| b.is_ascii_digit() || b.is_ascii_lowercase() || *b == b'-')
}

fn is_printable(b: u8) -> bool
    ensures { result ≡ words.is_printable b }
{
    b' ' <= b && b <= b'~'
}

fn has_printable_bytes(bytes: &[u8]) -> bool
    ensures { result ≡ list_all words.is_printable bytes.now }
{
    bytes.iter().all(|b| is_printable(*b))
}

/// Whether there are from 1 to `most` bytes, each of them a printing ASCII character or a space.
pub fn is_printable_word(bytes: &[u8], most: usize) -> bool
    ensures { result ≡ words.is_word words.is_printable most bytes.now }
{
    1 <= bytes.len() && bytes.len() <= most && has_printable_bytes(bytes)
}

/// Whether a text is the name of a function.
pub(crate) fn is_name(text: &str) -> bool
    ensures { result ≡ words.is_name text.now }
{
    is_within(text, LONGEST_NAME) && has_name_bytes(text)
}

/// Whether a text is the number of an account.
pub(crate) fn is_account(text: &str) -> bool
    ensures { result ≡ words.is_account text.now }
{
    text.len() == ACCOUNT_DIGITS && has_digits(text)
}

/// Whether a text is a region.
pub(crate) fn is_region(text: &str) -> bool
    ensures { result ≡ words.is_region text.now }
{
    is_within(text, LONGEST_REGION) && has_region_bytes(text)
}

/// Whether a text is a handler or the name of an extension.
pub(crate) fn is_label(text: &str) -> bool
    ensures { result ≡ words.is_label text.now }
{
    is_printable_word(text.as_bytes(), LONGEST_LABEL)
}
