//! The head of a handler's answer, as it is posted.

ghost use Rattle.std.specs.Prelude.{◌≡◌, ◌==◌, ◌-◌, ◌≤◌, codes, drop, length, position, IfOk, IfErr, Ok};
ghost use Rattle.std.specs.List.{list_all};
ghost use Rattle.std.specs.Char.{is_ascii_digit};
ghost use Rattle.http_header.specs.HeaderMap.{get_all};
ghost use Rattle.handover.specs.declared.answer_fault.AnswerFault.TheVariants.{OutOfMemory};
ghost use Rattle.handover.specs.Posted as spec;
ghost use Rattle.handover.specs.Posted.{IsReadAs, IsFault, IsHeadOf};

use crate::answer_fault::AnswerFault;
use http_header::{HeaderMap, HeaderName, HeaderNameError, HeaderValue, HeaderValueError};
use std::alloc::{AllocError, Global};

/// A field of an answer: its name and its value.
pub type Field = (HeaderName, HeaderValue);

/// The head of an answer: its status, and its fields in the order in which they were posted.
#[derive(Drop)]
pub struct AnswerHead {
    /// The status, from 200 to 599.
    pub status: u16,
    /// The fields, none of which frames the message.
    pub fields: Vec<Field>,
}

fn are_digits(text: &[u8]) -> bool
    ensures { result ≡ list_all is_ascii_digit text.now }
{
    text.iter().all(|byte| byte.is_ascii_digit())
}

/// Returns the number of a digit.
fn digit(byte: u8) -> u16
    ensures { result ≡ byte - 48 }
{
    u16::from(byte.saturating_sub(b'0'))
}

/// Returns the number of three digits.
fn number(hundreds: u8, tens: u8, ones: u8) -> u16
    ensures { result ≡ spec.number hundreds tens ones }
{
    100 * digit(hundreds) + 10 * digit(tens) + digit(ones)
}

fn in_range(status: u16) -> Result<u16, AnswerFault>
    ensures { result ≡ spec.in_range status }
{
    if status < 200 || status > 599 {
        return Err(AnswerFault::StatusOutOfRange);
    }
    Ok(status)
}

/// Reads a status: three digits, from 200 to 599.
fn read_status(text: &[u8]) -> Result<u16, AnswerFault>
    ensures { result ≡ spec.status_in text.now }
{
    if text.is_empty() || !are_digits(text) {
        return Err(AnswerFault::NotAStatus);
    }
    match text {
        [hundreds, tens, ones] => in_range(number(*hundreds, *tens, *ones)),
        _ => Err(AnswerFault::StatusOutOfRange),
    }
}

/// Finds the status among the fields of a post.
fn status_of(headers: &HeaderMap) -> Result<u16, AnswerFault>
    ensures { result ≡ spec.status_among (get_all headers.now (codes "lambda-local-status")) }
{
    let mut statuses = headers.get_all("lambda-local-status").iter();
    let Some(status) = statuses.next() else {
        return Err(AnswerFault::NoStatus);
    };
    if statuses.next().is_some() {
        return Err(AnswerFault::SeveralStatuses);
    }
    read_status(status.as_bytes())
}

/// Returns whether a field of this name frames a message or its connection, which is the service's own to do.
fn is_framing(name: &str) -> bool
    ensures { result ≡ spec.is_framing name.now }
{
    matches!(
        name,
        "connection"
            | "content-length"
            | "keep-alive"
            | "proxy-connection"
            | "te"
            | "trailer"
            | "transfer-encoding"
            | "upgrade"
    )
}

/// Reads the name of a field (RFC 9110, section 5.1).
fn read_name(alloc: Global, text: &[u8]) -> Result<HeaderName, AnswerFault>
    ensures { IsReadAs (spec.name_in text.now) result }
{
    let name = match HeaderName::from_bytes(alloc, text) {
        Ok(name) => name,
        Err(HeaderNameError::Invalid) => return Err(AnswerFault::BadName),
        Err(HeaderNameError::OutOfMemory) => return Err(AnswerFault::OutOfMemory),
    };
    if is_framing(name.as_str()) {
        return Err(AnswerFault::FramingName);
    }
    Ok(name)
}

/// Reads the value of a field (RFC 9110, section 5.5).
fn read_value(alloc: Global, text: &[u8]) -> Result<HeaderValue, AnswerFault>
    ensures { IsReadAs (spec.value_in text.now) result }
{
    match HeaderValue::from_bytes(alloc, text) {
        Ok(value) => Ok(value),
        Err(HeaderValueError::Invalid) => Err(AnswerFault::BadValue),
        Err(HeaderValueError::OutOfMemory) => Err(AnswerFault::OutOfMemory),
    }
}

/// Returns the position of the first byte that is neither a space nor a tab.
fn first_unblank(text: &[u8]) -> Option<usize>
    ensures { result ≡ position spec.is_unblank text.now }
{
    text.iter().position(|byte| *byte != b' ' && *byte != b'\t')
}

/// Returns how many spaces and tabs are at the front.
#[tactic(auto, using(crate::proofs::Fields::padding_within))]
fn padding(text: &[u8]) -> usize
    ensures value { result ≡ spec.padding text.now }
    ensures within { result ≤ length text.now }
{
    match first_unblank(text) {
        Some(at) => at,
        None => text.len(),
    }
}

/// Returns a text without the spaces and tabs that it begins with.
fn unpadded(text: &[u8]) -> &[u8]
    ensures { result.now ≡ drop (spec.padding text.now) text.now }
{
    &text[padding(text)..]
}

/// Reads a field from its name and what is behind the colon.
fn read_pair(alloc: Global, name: &[u8], value: &[u8]) -> Result<Field, AnswerFault>
    ensures { IsReadAs (spec.with_name (spec.name_in name.now) (drop (spec.padding value.now) value.now)) result }
{
    let name = match read_name(alloc, name) {
        Ok(name) => name,
        Err(fault) => return Err(fault),
    };
    match read_value(alloc, unpadded(value)) {
        Ok(value) => Ok((name, value)),
        Err(fault) => Err(fault),
    }
}

/// Returns the position of the first colon.
fn colon(line: &[u8]) -> Option<usize>
    ensures { result ≡ position (λ b. b == 58) line.now }
{
    line.iter().position(|byte| *byte == b':')
}

/// Returns a line's text before the colon and that behind it.
fn cut(line: &[u8]) -> Option<(&[u8], &[u8])>
    ensures { spec.IsCut (position (λ b. b == 58) line.now) line.now result }
{
    match colon(line) {
        Some(at) => Some((&line[..at], &line[at + 1..])),
        None => None,
    }
}

/// Reads a field: `NAME: VALUE`.
fn read_field(alloc: Global, line: &[u8]) -> Result<Field, AnswerFault>
    ensures { IsReadAs (spec.field_in line.now) result }
{
    match cut(line) {
        Some((name, value)) => read_pair(alloc, name, value),
        None => Err(AnswerFault::NoColon),
    }
}

/// Reads the fields of an answer.
fn read_fields(alloc: Global, headers: &HeaderMap) -> Result<Vec<Field>, AnswerFault>
    ensures ok { IfOk result (λ fields. spec.fields_in (get_all headers.now (codes "lambda-local-header")) ≡ Ok fields.items) }
    ensures fault { IfErr result (λ e. IsFault (spec.fields_in (get_all headers.now (codes "lambda-local-header"))) e) }
{
    let mut fields = Vec::new(alloc);
    for line in headers.get_all("lambda-local-header").iter() {
        match read_field(alloc, line.as_bytes()) {
            Ok(field) => fields.push(field)?,
            Err(fault) => return Err(fault),
        }
    }
    Ok(fields)
}

/// Reads the head of an answer from the fields of its post: the status from `Lambda-Local-Status`, and each field of
/// the answer from a `Lambda-Local-Header: NAME: VALUE`.
///
/// # Errors
/// The first fault, of the status and then of each field in turn; or if memory is refused.
pub fn read_answer(alloc: Global, headers: &HeaderMap) -> Result<AnswerHead, AnswerFault>
    ensures { IsHeadOf headers.now result }
{
    let status = match status_of(headers) {
        Ok(status) => status,
        Err(fault) => return Err(fault),
    };
    match read_fields(alloc, headers) {
        Ok(fields) => Ok(AnswerHead { status, fields }),
        Err(fault) => Err(fault),
    }
}
