//! Parts of a path and of a query.

ghost use Rattle.std.specs.Prelude.{ℕ, List, ◌≡◌, ◌==◌, ◌∷◌, ◌++◌, [], option_map, IfOk, MatchOption};
ghost use Rattle.std.specs.List.{slice_split};
ghost use Rattle.std.specs.Cow.{cow_str_bytes};
ghost use Rattle.form_urlencoded.specs.Form.{raw_pairs};
ghost use Rattle.http_routes.specs.Paths as spec;

use crate::routes::FUNCTIONS;
use form_urlencoded::{decode, raw_pairs};
use http::request::Parts;
use percent_encoding::{DecodeError, percent_decode};
use std::alloc::{AllocError, Global};
use std::borrow::CowStr;

/// Returns the part before the first slash, and what follows it.
fn cut(path: &str) -> (&str, Option<&str>)
    ensures { MatchOption result.1 (slice_split (λ b. b == 47) path.now ≡ result.0.now ∷ [])
        (λ rest. slice_split (λ b. b == 47) path.now ≡ result.0.now ∷ slice_split (λ b. b == 47) rest.now) }
{
    match path.split_once('/') {
        Some((front, rest)) => (front, Some(rest)),
        None => (path, None),
    }
}

/// Returns the part of a path after `n` slashes, not decoded.
pub(crate) fn path_part(path: &str, n: usize) -> Option<&str>
    ensures { option_map (λ t. t.now) result ≡ spec.path_part n path.now }
{
    let mut rest = path;
    for _ in 0..n {
        let (_, after) = cut(rest);
        rest = after?;
    }
    let (front, _) = cut(rest);
    Some(front)
}

/// Returns the part of a path after `n` slashes. It is found at once if the path begins with
/// `front`.
pub(crate) fn path_part_behind<'p>(path: &'p str, front: &str, n: usize) -> Option<&'p str>
    requires { (rest : List ℕ) → spec.path_part n (front.now ++ rest) ≡ spec.path_part 0 rest }
    ensures { option_map (λ t. t.now) result ≡ spec.path_part n path.now }
{
    match path.strip_prefix(front) {
        Some(rest) => path_part(rest, 0),
        None => path_part(path, n),
    }
}

/// Returns the decoded text of a part of a path, if it is UTF-8 (RFC 3986, section 2.1).
fn path_text(alloc: Global, part: &str) -> Result<Option<CowStr<'_>>, AllocError>
    ensures { IfOk result (λ text. option_map cow_str_bytes text ≡ spec.path_text part.now) }
{
    match percent_decode(part.as_bytes()).decode_utf8(alloc) {
        Ok(text) => Ok(Some(text)),
        Err(DecodeError::Utf8(_)) => Ok(None),
        Err(DecodeError::OutOfMemory) => Err(AllocError),
    }
}

/// Returns the name of a function in a path of the Lambda API.
pub(crate) fn name_of(alloc: Global, parts: &Parts) -> Result<Option<CowStr<'_>>, AllocError>
    ensures { IfOk result (λ text. option_map cow_str_bytes text ≡ spec.name_of parts.now) }
{
    match path_part_behind(parts.uri.path(), FUNCTIONS, 3) {
        Some(part) => path_text(alloc, part),
        None => Ok(None),
    }
}

/// Returns the first value of a name in a query.
fn first_named<'q>(
    alloc: Global,
    query: &'q [u8],
    name: &str,
) -> Result<Option<CowStr<'q>>, AllocError>
    ensures { IfOk result (λ text. option_map cow_str_bytes text ≡ spec.first_named name.now (raw_pairs query.now)) }
{
    let mut pairs = raw_pairs(query);
    while let Some((other, value)) = pairs.next() {
        if decode(alloc, other)?.as_str() == name {
            return Ok(Some(decode(alloc, value)?));
        }
    }
    Ok(None)
}

/// Returns the first `Qualifier` of a request (Lambda API, Invoke: URI Request Parameters).
pub(crate) fn qualifier_of(alloc: Global, parts: &Parts) -> Result<Option<CowStr<'_>>, AllocError>
    ensures { IfOk result (λ text. option_map cow_str_bytes text ≡ spec.qualifier_of parts.now) }
{
    match parts.uri.query() {
        Some(query) => first_named(alloc, query.as_bytes(), "Qualifier"),
        None => Ok(None),
    }
}

/// Returns the first value of this name in a request's query (operations of this service alone).
pub(crate) fn asked_of<'p>(
    alloc: Global,
    parts: &'p Parts,
    name: &str,
) -> Result<Option<CowStr<'p>>, AllocError>
    ensures { IfOk result (λ text. option_map cow_str_bytes text ≡ spec.asked_of name.now parts.now) }
{
    match parts.uri.query() {
        Some(query) => first_named(alloc, query.as_bytes(), name),
        None => Ok(None),
    }
}

/// Returns the first `from` of a request for the history or its trace.
pub(crate) fn from_of(alloc: Global, parts: &Parts) -> Result<Option<CowStr<'_>>, AllocError>
    ensures { IfOk result (λ text. option_map cow_str_bytes text ≡ spec.from_of parts.now) }
{
    asked_of(alloc, parts, "from")
}

/// Returns the value of a name that a query has exactly once.
fn only_named<'q>(
    alloc: Global,
    query: &'q [u8],
    name: &str,
) -> Result<Option<CowStr<'q>>, AllocError>
    ensures { IfOk result (λ text. option_map cow_str_bytes text
        ≡ spec.only (spec.all_named name.now (raw_pairs query.now))) }
{
    let mut found = None;
    let mut pairs = raw_pairs(query);
    while let Some((other, value)) = pairs.next() {
        if decode(alloc, other)?.as_str() == name {
            if found.is_some() {
                return Ok(None);
            }
            found = Some(decode(alloc, value)?);
        }
    }
    Ok(found)
}

/// Returns the value of a name that a request's query has exactly once (operations of this service
/// alone).
pub(crate) fn only_of<'p>(
    alloc: Global,
    parts: &'p Parts,
    name: &str,
) -> Result<Option<CowStr<'p>>, AllocError>
    ensures { IfOk result (λ text. option_map cow_str_bytes text ≡ spec.only_of name.now parts.now) }
{
    match parts.uri.query() {
        Some(query) => only_named(alloc, query.as_bytes(), name),
        None => Ok(None),
    }
}
