//! How a body stands in a text.

ghost use Rattle.std.specs.Prelude.{◌≡◌, ◌<◌, ◌++◌, OnOk};
ghost use Rattle.std.specs.Char.{digit_char};
ghost use Rattle.json.specs.Print.{escape, escape_byte, escape_letter};
ghost use Rattle.script.specs.Drafts.{coded, slice_of};

use crate::words::push_escaped;
use base64::engine::general_purpose::STANDARD;
use std::alloc::{AllocError, Global};

/// How a body stands in a text. Its text is that of its slices, one after the other, if each but the last has a
/// multiple of three bytes.
#[derive(Clone, Copy)]
pub enum Coding {
    /// As it is.
    Plain,
    /// The bytes below 0x21, `%` and the bytes above 0x7E are percent-encoded.
    Percent,
    /// As the content of a JSON string (RFC 8259, section 7).
    Json,
    /// In base64 (RFC 4648, section 4), as the content of a JSON string.
    Base64,
}

impl Coding {
    /// Returns how many bytes of a body are written at once: a multiple of three, whose text has at most
    /// 65,520 bytes.
    pub(crate) fn slice(self) -> usize
        ensures { result ≡ slice_of self }
    {
        match self {
            Coding::Plain => 65_520,
            Coding::Percent => 21_840,
            Coding::Json => 10_920,
            Coding::Base64 => 49_140,
        }
    }

    /// Returns the most bytes that the text of so many bytes has.
    pub(crate) fn most(self, length: usize) -> usize {
        match self {
            Coding::Plain => length,
            Coding::Percent => length.saturating_mul(3),
            Coding::Json => length.saturating_mul(6),
            Coding::Base64 => length.saturating_add(length / 3).saturating_add(4),
        }
    }
}

/// Returns the letter of a byte's short escape, 0 if it has none.
fn letter_of(byte: u8) -> u8
    ensures { result ≡ escape_letter byte }
{
    match byte {
        b'"' | b'\\' => byte,
        8 => b'b',
        12 => b'f',
        b'\n' => b'n',
        b'\r' => b'r',
        b'\t' => b't',
        _ => 0,
    }
}

/// Returns a hexadecimal digit.
fn hex(digit: u8) -> u8
    requires { digit < 16 }
    ensures { result ≡ digit_char digit }
{
    if digit < 10 {
        b'0' + digit
    } else {
        b'a' - 10 + digit
    }
}

/// Adds a byte as it stands in a JSON string.
#[tactic(auto, unfolding(json::specs::Print::escape_byte))]
fn push_json_byte(out: &mut Vec<u8>, byte: u8) -> Result<(), AllocError>
    ensures { OnOk result (out.new.items ≡ out.old.items ++ escape_byte byte) }
{
    let letter = letter_of(byte);
    if letter > 0 {
        return out.extend_from_slice(&[b'\\', letter]);
    }
    if byte < 0x20 {
        return out.extend_from_slice(&[b'\\', b'u', b'0', b'0', hex(byte / 16), hex(byte % 16)]);
    }
    out.extend_from_slice(&[byte])
}

/// Adds bytes as the content of a JSON string.
fn push_json(out: &mut Vec<u8>, bytes: &[u8]) -> Result<(), AllocError>
    ensures { OnOk result (out.new.items ≡ out.old.items ++ escape bytes.now) }
{
    for byte in bytes {
        push_json_byte(out, *byte)?;
    }
    Ok(())
}

/// Adds bytes in base64, as the content of a JSON string.
fn push_base64(alloc: Global, out: &mut Vec<u8>, bytes: &[u8]) -> Result<(), AllocError>
    ensures { OnOk result (out.new.items ≡ out.old.items ++ coded Coding.Base64 bytes.now) }
{
    let text = STANDARD.encode(alloc, bytes)?;
    push_json(out, text.as_bytes())
}

/// Adds bytes in a coding.
pub(crate) fn push_coded(
    alloc: Global,
    out: &mut Vec<u8>,
    coding: Coding,
    bytes: &[u8],
) -> Result<(), AllocError>
    ensures { OnOk result (out.new.items ≡ out.old.items ++ coded coding bytes.now) }
{
    match coding {
        Coding::Plain => out.extend_from_slice(bytes),
        Coding::Percent => push_escaped(out, bytes),
        Coding::Json => push_json(out, bytes),
        Coding::Base64 => push_base64(alloc, out, bytes),
    }
}
