//! What a handler asks for, by the head of its request.

ghost use Rattle.std.specs.Prelude.{◌≡◌, ◌==◌, ◌+◌, drop, take, length, position, option_map, is_some, IfSome};
ghost use Rattle.handler_desk.specs.Asked as spec;
ghost use Rattle.handler_desk.specs.Asked.{IsCut};

use arn_ids::read_number;
use http::request::Parts;

/// The front of the paths of a handler's own requests.
const FRONT: &str = "/_local/requests/";

/// Returns whether a path is one of a handler's own requests. (Nearly every other path differs within its first bytes.)
pub fn is_of_handler(path: &str) -> bool
    ensures { result ≡ spec.is_of_handler path.now }
{
    path.as_bytes().starts_with(FRONT.as_bytes())
}

/// What a handler asks for.
#[derive(Clone, Copy, Debug, PartialEq, Eq)]
pub enum Asked {
    /// A request to answer (`GET /_local/requests/next`).
    Next,
    /// To answer the request with this identifier (`POST /_local/requests/{id}/response`).
    Response(u64),
    /// To let the request with this identifier fail (`POST /_local/requests/{id}/error`).
    Failure(u64),
    /// Nothing: its path, or its method, is none of these.
    Nothing,
}

/// Returns the position of the first slash.
fn slash(text: &[u8]) -> Option<usize>
    ensures { result ≡ position (λ b. b == 47) text.now }
{
    text.iter().position(|byte| *byte == b'/')
}

/// Returns what is before the first slash and what is behind it.
fn cut(text: &[u8]) -> Option<(&[u8], &[u8])>
    ensures { IsCut (position (λ b. b == 47) text.now) text.now result }
{
    match slash(text) {
        Some(at) => Some((&text[..at], &text[at + 1..])),
        None => None,
    }
}

/// Returns what is asked about the request with an identifier.
fn about(id: u64, what: &[u8]) -> Asked
    ensures { result ≡ spec.about id what.now }
{
    if what == b"response".as_slice() {
        return Asked::Response(id);
    }
    if what == b"error".as_slice() {
        return Asked::Failure(id);
    }
    Asked::Nothing
}

/// Returns what is asked about the request with the identifier in a text.
fn about_named(name: &[u8], what: &[u8]) -> Asked
    ensures { result ≡ spec.about_named name.now what.now }
{
    match read_number(name, u64::MAX) {
        Some(id) => about(id, what),
        None => Asked::Nothing,
    }
}

/// Returns what is asked by the rest of a path that has no slash.
fn whole(rest: &[u8]) -> Asked
    ensures { result ≡ spec.whole rest.now }
{
    if rest == b"next".as_slice() {
        return Asked::Next;
    }
    Asked::Nothing
}

/// Returns what is asked by what is behind the front of a path.
fn asked_behind(rest: &[u8]) -> Asked
    ensures { result ≡ spec.asked_behind (position (λ b. b == 47) rest.now) rest.now }
{
    match cut(rest) {
        Some((name, what)) => about_named(name, what),
        None => whole(rest),
    }
}

/// Returns what is asked by a path.
fn asked_in(path: &[u8]) -> Asked
    ensures { result ≡ spec.asked_in path.now }
{
    match path.strip_prefix(FRONT.as_bytes()) {
        Some(rest) => asked_behind(rest),
        None => Asked::Nothing,
    }
}

/// Returns what is asked by a path with this method.
fn with_method(asked: Asked, method: &str) -> Asked
    ensures { result ≡ spec.with_method method.now asked }
{
    match asked {
        Asked::Next if method == "GET" => asked,
        Asked::Response(_) | Asked::Failure(_) if method == "POST" => asked,
        Asked::Next | Asked::Response(_) | Asked::Failure(_) | Asked::Nothing => Asked::Nothing,
    }
}

/// Returns what a handler asks for with a request of this head.
pub fn read_asked(parts: &Parts) -> Asked
    ensures { result ≡ spec.asked parts.now }
{
    with_method(asked_in(parts.uri.path().as_bytes()), parts.method.as_str())
}
