//! Text fields: an equals sign, and bytes of which some are percent-encoded.

ghost use Rattle.std.specs.Prelude.{◌≡◌, option_map, IfOk};
ghost use Rattle.arn_ids.specs.Words.{is_word, is_printable as is_printable_byte};
ghost use Rattle.script.specs.TextFields.{text_in, text_that, body_in, name_in, trace_in};

use arn_ids::{LONGEST_BODY, LONGEST_TRACE, Text, is_printable_word};
use bytes::Bytes;
use percent_encoding::percent_decode;
use std::alloc::{AllocError, Global};

const LONGEST_NAME: usize = 128;

/// Decodes the bytes of a field.
fn decoded(alloc: Global, field: &[u8]) -> Result<Option<Vec<u8>>, AllocError>
    ensures { IfOk result (λ text. option_map (λ v. v.items) text ≡ text_in field.now) }
{
    let [b'=', rest @ ..] = field else {
        return Ok(None);
    };
    let mut bytes = Vec::new(alloc);
    percent_decode(rest).append_to(&mut bytes)?;
    Ok(Some(bytes))
}

/// Reads a text of 1 to `most` printing characters.
fn printable_text(alloc: Global, field: &[u8], most: usize) -> Result<Option<Text>, AllocError>
    ensures { IfOk result (λ text. text ≡ text_that (is_word is_printable_byte most) field.now) }
{
    let Some(bytes) = decoded(alloc, field)? else {
        return Ok(None);
    };
    if !is_printable_word(bytes.as_slice(), most) {
        return Ok(None);
    }
    match String::from_utf8(bytes) {
        Ok(text) => Ok(Some(Text::new(text))),
        Err(_) => unreachable!(),
    }
}

/// Reads a payload, an output or a report.
pub(crate) fn body(alloc: Global, field: &[u8]) -> Result<Option<Bytes>, AllocError>
    ensures { IfOk result (λ body. body ≡ body_in field.now) }
{
    let Some(bytes) = decoded(alloc, field)? else {
        return Ok(None);
    };
    if bytes.len() > LONGEST_BODY {
        return Ok(None);
    }
    Ok(Some(Bytes::from_vec(bytes)?))
}

/// Reads the name of an extension.
pub(crate) fn extension_name(alloc: Global, field: &[u8]) -> Result<Option<Text>, AllocError>
    ensures { IfOk result (λ name. name ≡ name_in field.now) }
{
    printable_text(alloc, field, LONGEST_NAME)
}

/// Reads a trace, or the dash of a call without one.
pub(crate) fn trace(alloc: Global, field: &[u8]) -> Result<Option<Option<Text>>, AllocError>
    ensures { IfOk result (λ trace. trace ≡ trace_in field.now) }
{
    if field == b"-".as_slice() {
        return Ok(Some(None));
    }
    let text = printable_text(alloc, field, LONGEST_TRACE)?;
    Ok(text.map(Some))
}
