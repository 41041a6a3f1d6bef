//! Responses of a connection, made from the answers to requests.

ghost use Rattle.std.specs.Prelude.{◌≡◌, IfOk, OnOk};
ghost use Rattle.http.specs.Response.{body_of};
ghost use Rattle.http_front.specs.Responses.{said_closing, HasHead, HasMap, IsResponseOf, IsResponseTo, IsWhole};
ghost use Rattle.lambda_wire.specs.HeaderFields.{fields};
ghost use Rattle.long_poll.specs.Views.{trace_headers};

use crate::{ResponseFault, SentBody};
use bytes::Bytes;
use http::response::Parts;
use http::{Response, StatusCode, Version};
use http_body_util::{Either, Full};
use http_header::{HeaderMap, HeaderValue};
use lambda_wire::{HeaderMaps, Headers, Reply};
use long_poll::{Outcome, history_headers};
use std::alloc::{AllocError, Global};
use usage_ledger::Ledgers;

/// Returns the header fields of a reply, in their order. Without the maps, which a request that is
/// refused does not have, each is added by itself.
fn map_of(
    alloc: Global,
    maps: Option<&HeaderMaps>,
    headers: Headers,
) -> Result<HeaderMap, AllocError>
    ensures { IfOk result (λ map. map ≡ fields headers) }
{
    match maps {
        Some(maps) => maps.map_of(alloc, headers),
        None => headers.to_map(alloc),
    }
}

/// Adds the field that says that the connection ends after the response, if it does (RFC 9112,
/// section 9.6).
fn say_closing(is_last: bool, map: &mut HeaderMap) -> Result<(), AllocError>
    ensures { OnOk result (map.new ≡ said_closing is_last map.old) }
{
    if !is_last {
        return Ok(());
    }
    match map.append("connection", HeaderValue::from_static("close")) {
        Ok(_) => Ok(()),
        Err(_) => Err(AllocError),
    }
}

/// Returns the header fields of a trace, whose lines are JSON.
fn trace_map(alloc: Global) -> Result<HeaderMap, AllocError>
    ensures { IfOk result (λ map. map ≡ fields trace_headers) }
{
    let mut map = HeaderMap::new(alloc);
    let value = HeaderValue::from_static("application/x-ndjson");
    match map.append("content-type", value) {
        Ok(_) => Ok(map),
        Err(_) => Err(AllocError),
    }
}

/// Returns the body of these bytes, in one piece.
pub(crate) fn whole<H: Drop>(bytes: Bytes) -> Either<SentBody, H>
    ensures { IsWhole bytes result }
{
    Either::Left(Either::Left(Full::new(bytes)))
}

/// Returns the response with this status, these header fields, in a map, and this body.
pub(crate) fn with_map<B: Drop>(
    is_last: bool,
    status: u16,
    map: HeaderMap,
    body: B,
) -> Result<Response<B>, ResponseFault>
    ensures head { IfOk result (HasMap is_last status map) }
    ensures body { IfOk result (λ response. body_of response ≡ body) }
{
    let Ok(status) = StatusCode::from_u16(status) else {
        return Err(ResponseFault::BadStatus);
    };
    let mut parts = Parts {
        status,
        version: Version::HTTP_11,
        headers: map,
    };
    say_closing(is_last, &mut parts.headers)?;
    Ok(Response::from_parts(parts, body))
}

/// Returns the response with this status, these header fields and this body.
fn with_head<B: Drop>(
    alloc: Global,
    maps: Option<&HeaderMaps>,
    is_last: bool,
    status: u16,
    headers: Headers,
    body: B,
) -> Result<Response<B>, ResponseFault>
    ensures head { IfOk result (HasHead is_last status headers) }
    ensures body { IfOk result (λ response. body_of response ≡ body) }
{
    with_map(is_last, status, map_of(alloc, maps, headers)?, body)
}

/// Returns the response that carries a reply; it is the connection's last or not. It has the
/// reply's status, its header fields, and its body in one piece, which is not copied.
///
/// # Errors
/// `BadStatus` if the reply's status does not have three digits, otherwise `OutOfMemory`; the reply
/// is then dropped.
pub(crate) fn reply_response<H: Drop>(
    alloc: Global,
    maps: Option<&HeaderMaps>,
    is_last: bool,
    reply: Reply,
) -> Result<Response<Either<SentBody, H>>, ResponseFault>
    ensures { IfOk result (IsResponseOf is_last reply) }
{
    let Reply {
        status,
        headers,
        body,
    } = reply;
    with_head(alloc, maps, is_last, status, headers, whole(body))
}

/// Returns the response that carries an outcome; it is the connection's last or not. It is that of
/// the reply; or, if the outcome is a history or its trace, a text or lines of JSON, which are streamed.
///
/// # Errors
/// As [`reply_response`]; the outcome is then dropped.
pub(crate) fn response_to<H: Drop, L: Ledgers>(
    alloc: Global,
    maps: &HeaderMaps,
    is_last: bool,
    outcome: Outcome<H, L>,
) -> Result<Response<Either<SentBody, H>>, ResponseFault>
    ensures { IfOk result (IsResponseTo is_last outcome) }
{
    match outcome {
        Outcome::Reply(reply, _token) => reply_response(alloc, Some(maps), is_last, reply),
        Outcome::History(body) => with_head(
            alloc,
            Some(maps),
            is_last,
            200,
            history_headers(alloc)?,
            Either::Right(body),
        ),
        Outcome::Trace(body) => with_map(is_last, 200, trace_map(alloc)?, Either::Right(body)),
    }
}
