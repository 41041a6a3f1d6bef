//! The headers of a request. If a header appears more than once, the first one counts.

ghost use Rattle.std.specs.Prelude.{◌≡◌, ◌==◌, ◌∷◌, codes, bytes_eq, option_map, IfOk, position, reverse};
ghost use Rattle.std.specs.List.{list_any};
ghost use Rattle.http.specs.HeaderMap.{keys};
ghost use Rattle.http.specs.Token.{lowercase};
ghost use Rattle.arn_ids.specs.Words.{is_word, is_printable as is_printable_byte};
ghost use Rattle.http_routes.specs.Heads as spec;
ghost use Rattle.http_routes.specs.Views.{parts_left};

use arn_ids::{LONGEST_TRACE, Text, is_printable_word};
use http::request::Parts;
use http_header::HeaderName;
use std::alloc::{AllocError, Global};

const LONGEST_EXTENSION_NAME: usize = 128;

/// Returns whether a header's name is this one.
fn is_named(key: &HeaderName, name: &str) -> bool
    ensures { result ≡ bytes_eq key.now name.now }
{
    key.as_bytes() == name.as_bytes()
}

/// Returns whether there is a header of a name. (Comparing all names costs less than finding one by
/// its hash.)
fn has_name(parts: &Parts, name: &str) -> bool
    ensures { result ≡ list_any (λ key. bytes_eq key name.now) (keys parts.now.headers) }
{
    parts.headers.keys().any(|key| is_named(key, name))
}

/// Returns the bytes of the first header of a name, which is given in lower case. Few requests have
/// one.
#[tactic(auto, using(crate::proofs::HeadLemmas::no_header))]
fn header<'p>(parts: &'p Parts, name: &str) -> Option<&'p [u8]>
    requires { lowercase name.now ≡ name.now }
    ensures { option_map (λ t. t.now) result ≡ spec.header name.now parts.now }
{
    if !has_name(parts, name) {
        return None;
    }
    let value = parts.headers.get(name)?;
    Some(value.as_bytes())
}

/// Returns the text of a header, if all of it is visible or blank.
fn header_text<'p>(parts: &'p Parts, name: &str) -> Option<&'p str>
    ensures { option_map (λ t. t.now) result ≡ spec.header_text (lowercase name.now) parts.now }
{
    match parts.headers.get(name) {
        None => None,
        Some(value) => match value.to_str() {
            Ok(text) => Some(text),
            Err(_) => None,
        },
    }
}

/// Returns the text by which an extension identifies itself (Extensions API:
/// Lambda-Extension-Identifier).
pub(crate) fn extension_identifier(parts: &Parts) -> Option<&str>
    ensures { option_map (λ t. t.now) result ≡ spec.header_text (codes "lambda-extension-identifier") parts.now }
{
    header_text(parts, "lambda-extension-identifier")
}

/// Copies a text of 1 to `most` printing characters; returns `None` if it is any other.
fn printable_text(alloc: Global, bytes: &[u8], most: usize) -> Result<Option<Text>, AllocError>
    ensures { IfOk result (λ text. text ≡ spec.that (is_word is_printable_byte most) bytes.now) }
{
    if !is_printable_word(bytes, most) {
        return Ok(None);
    }
    match String::from_utf8(Vec::from_slice(alloc, bytes)?) {
        Ok(text) => Ok(Some(Text::new(text))),
        Err(_) => unreachable!(),
    }
}

/// Returns the name under which an extension registers (Extensions API, Register).
pub(crate) fn extension_name(alloc: Global, parts: &Parts) -> Result<Option<Text>, AllocError>
    ensures { IfOk result (λ name. name ≡ spec.extension_name parts.now) }
{
    match header(parts, "lambda-extension-name") {
        Some(bytes) => printable_text(alloc, bytes, LONGEST_EXTENSION_NAME),
        None => Ok(None),
    }
}

/// Returns the trace of an invocation. A malformed one counts as absent.
pub(crate) fn trace(alloc: Global, parts: &Parts) -> Result<Option<Text>, AllocError>
    ensures { IfOk result (λ trace. trace ≡ spec.trace_of parts.now) }
{
    match header(parts, "x-amzn-trace-id") {
        Some(bytes) => printable_text(alloc, bytes, LONGEST_TRACE),
        None => Ok(None),
    }
}

/// Returns whether the type of an error is given, whatever its value (Extensions API, Init error,
/// Exit error).
pub(crate) fn has_error_type(parts: &Parts) -> bool
    ensures { result ≡ spec.has_header (codes "lambda-extension-function-error-type") parts.now }
{
    header(parts, "lambda-extension-function-error-type").is_some()
}

/// Returns the bytes without the spaces at their front.
fn past_spaces(bytes: &[u8]) -> &[u8]
    ensures { result.now ≡ spec.past_spaces bytes.now }
{
    let mut rest = bytes;
    while let Some((first, others)) = rest.split_first() {
        if *first != b' ' {
            return rest;
        }
        rest = others;
    }
    rest
}

/// Returns the bytes without the spaces at their end.
fn before_spaces(bytes: &[u8]) -> &[u8]
    ensures { result.now ≡ reverse (spec.past_spaces (reverse bytes.now)) }
{
    let mut rest = bytes;
    while let Some((last, others)) = rest.split_last() {
        if *last != b' ' {
            return rest;
        }
        rest = others;
    }
    rest
}

/// Returns whether a part is this feature, without the spaces around it.
fn is_feature(part: &[u8], feature: &[u8]) -> bool
    ensures { result ≡ bytes_eq (spec.trimmed part.now) feature.now }
{
    before_spaces(past_spaces(part)) == feature
}

/// Returns the position of the first comma.
fn comma_at(bytes: &[u8]) -> Option<usize>
    ensures { result ≡ position (λ b. b == 44) bytes.now }
{
    bytes.iter().position(|b| *b == b',')
}

/// Returns the part before the first comma, and what follows it.
fn cut(bytes: &[u8]) -> (&[u8], Option<&[u8]>)
    ensures { spec.parts bytes.now ≡ result.0.now ∷ parts_left result.1 }
{
    match comma_at(bytes) {
        Some(at) => (&bytes[..at], Some(&bytes[at + 1..])),
        None => (bytes, None),
    }
}

/// Returns whether one of the parts between the commas is this feature, without the spaces around
/// it.
fn lists(bytes: &[u8], feature: &[u8]) -> bool
    ensures { result ≡ spec.lists feature.now bytes.now }
{
    let mut rest = Some(bytes);
    while let Some(bytes) = rest {
        let (part, after) = cut(bytes);
        if is_feature(part, feature) {
            return true;
        }
        rest = after;
    }
    false
}

/// Returns whether an extension asks for the account's identifier (Extensions API, Register:
/// Lambda-Extension-Accept-Feature).
pub(crate) fn asks_for_account(parts: &Parts) -> bool
    ensures { result ≡ spec.asks_for_account parts.now }
{
    match header(parts, "lambda-extension-accept-feature") {
        Some(bytes) => lists(bytes, b"accountId"),
        None => false,
    }
}

/// Returns whether the caller waits for the invocation (Lambda API, Invoke: InvocationType).
pub(crate) fn is_synchronous(parts: &Parts) -> bool
    ensures { result ≡ spec.is_synchronous parts.now }
{
    match header(parts, "x-amz-invocation-type") {
        Some(kind) => kind == b"RequestResponse".as_slice(),
        None => true,
    }
}

/// Returns whether the caller asks for the tail of the log (Lambda API, Invoke: LogType).
pub(crate) fn asks_for_tail(parts: &Parts) -> bool
    ensures { result ≡ spec.asks_for_tail parts.now }
{
    match header(parts, "x-amz-log-type") {
        Some(kind) => kind == b"Tail".as_slice(),
        None => false,
    }
}
