//! What the log says of requests that are rejected.

use http_front::{Cause, Kind, Rejections, Told};
use log::{Log, info};
use std::sync::Wait;

/// How many kinds there are: 11 causes, at a callers' port or an environment's.
const KINDS: u32 = 22;

/// Returns the status of the response to a rejected request, as text.
fn status_of(cause: Cause) -> &'static str {
    match cause {
        Cause::Malformed | Cause::MalformedHost | Cause::BrokenBody | Cause::NotHttp => "400",
        Cause::Unregistered | Cause::FromPage | Cause::ForeignHost => "403",
        Cause::NotFound => "404",
        Cause::WrongMethod => "405",
        Cause::TooLong => "413",
        Cause::ForeignCoding => "501",
    }
}

/// Returns whose port requests of a kind came to.
fn port_of(kind: Kind) -> &'static str {
    if kind.is_of_environment {
        "an environment's port"
    } else {
        "a callers' port"
    }
}

/// Returns what is wrong with requests of a kind, and what to do.
fn advice_on(kind: Kind) -> &'static str {
    match (kind.cause, kind.is_of_environment) {
        (Cause::Malformed, _) => "docs/formats.md says what each route needs",
        (Cause::Unregistered, _) => {
            "no extension is registered here with this Lambda-Extension-Identifier; send the one that the response to its registration had"
        }
        (Cause::NotFound, true) => {
            "no such route of the Runtime API or the Extensions API; docs/formats.md lists them"
        }
        (Cause::NotFound, false) => {
            "no such route or function; docs/formats.md lists the routes, the configuration has the functions"
        }
        (Cause::WrongMethod, _) => {
            "this route does not have this method; the response's Allow lists those that it has"
        }
        (Cause::TooLong, true) => {
            "the body is longer than 6291456 bytes; send an error to the route /error instead"
        }
        (Cause::TooLong, false) => "the payload is longer than 6291456 bytes; send a shorter one",
        (Cause::MalformedHost, _) =>
            "the request names its host twice, or the name is not one; send one Host",
        (Cause::FromPage, _) => "web pages may not call this service; call it from a program",
        (Cause::ForeignHost, _) => {
            "the host is neither local nor listed; list its name in LAMBDA_LOCAL_HOSTS if it is yours"
        }
        (Cause::ForeignCoding, _) => {
            "the transfer coding is not supported; send the body with Content-Length, or chunked"
        }
        (Cause::BrokenBody, _) => {
            "the body ended early, or is not chunked as HTTP has it; send as many bytes as Content-Length says"
        }
        (Cause::NotHttp, _) => {
            "these bytes are not a request of HTTP/1.1; send HTTP, without TLS, with a head of at most 64 KiB"
        }
    }
}

/// Logs what is told of a kind: its first request in full, and how many came behind it.
fn tell<R: Log>(rt: &R, told: Told) {
    let Told { kind, first, count } = told;
    let status = status_of(kind.cause);
    let port = port_of(kind);
    let advice = advice_on(kind);
    let more = match first {
        Some(first) => {
            info!(rt; "{status} {}: {advice}", first.as_str());
            count.saturating_sub(1)
        }
        None => count,
    };
    if more > 0 {
        info!(rt; "{status} at {port}: {more} more since; {advice}");
    }
}

/// Logs the requests that are rejected: of the kinds of which nothing was told yet, or of all kinds.
pub fn tell_rejected<R: Log + Wait>(rt: &R, rejections: &Rejections, all: bool) {
    for _ in 0..KINDS {
        match rejections.take(rt, all) {
            None => return,
            Some(told) => tell(rt, told),
        }
    }
}
