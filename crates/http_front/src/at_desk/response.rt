//! The responses to requests that are handed over, and to handlers.

ghost use Rattle.std.specs.Prelude.{◌≡◌, ◌++◌, IfOk, OnOk};
ghost use Rattle.http_header.specs.HeaderMap.{append};
ghost use Rattle.lambda_wire.specs.HeaderFields.{fields};
ghost use Rattle.handover.specs.Heads.{line_of};
ghost use Rattle.http_front.specs.Handing as spec;

use crate::at_desk::fault::{HandedFault, HandlerFault, handed_reply, handler_reply};
use crate::at_desk::passed::PassedBody;
use crate::course::{reply_response, whole, with_map};
use crate::{ResponseFault, SentBody};
use bytes::Bytes;
use handler_desk::{PipeReceiver, Posted, Request};
use handover::{AnswerHead, Field};
use http::Response;
use http_body_util::Either;
use http_header::{HeaderMap, HeaderName, HeaderValue};
use long_poll::OpenPoll;
use std::alloc::{AllocError, Global};
use std::sync::Arc;

/// What a handler's own request has come to.
#[derive(Drop)]
pub(crate) enum Done {
    /// It has a request, with its identifier.
    Request(u64, Request),
    /// What it posted is given to the requester.
    Accepted,
}

/// Adds a field to those of an answer.
fn add(map: &mut HeaderMap, name: HeaderName, value: HeaderValue) -> Result<(), AllocError>
    ensures { OnOk result (map.new ≡ append map.old name value) }
{
    match map.append(name, value) {
        Ok(_) => Ok(()),
        Err(_) => Err(AllocError),
    }
}

/// Returns the fields of an answer as a map, in their order.
fn map_of(alloc: Global, posted: Vec<Field>) -> Result<HeaderMap, AllocError>
    ensures { IfOk result (λ map. map ≡ fields posted.items) }
{
    let mut map = HeaderMap::new(alloc);
    for (name, value) in posted {
        add(&mut map, name, value)?;
    }
    Ok(map)
}

/// Returns the head of an answer, and where its body is taken out.
fn apart(posted: Posted) -> (AnswerHead, PipeReceiver)
    ensures { (result.0 ≡ posted.head) × (result.1 ≡ posted.body) }
{
    let Posted { head, body, .. } = posted;
    (head, body)
}

/// Makes the response that a handler posts, whose body is passed on while it comes; it is the connection's last or not.
/// What notes that more is awaited is the connection's.
fn posted_response<H: Drop>(
    alloc: Global,
    open: &Arc<OpenPoll>,
    is_last: bool,
    posted: Posted,
) -> Result<Response<Either<SentBody, H>>, ResponseFault>
    ensures { IfOk result (spec.IsPosted is_last posted) }
{
    let (head, receiver) = apart(posted);
    let map = map_of(alloc, head.fields)?;
    let body = PassedBody::new(receiver, Arc::try_clone(open)?);
    with_map(is_last, head.status, map, Either::Left(Either::Right(body)))
}

/// Makes the response to a request that was to be handed over; it is the connection's last or not.
pub(crate) fn handed_response<H: Drop>(
    alloc: Global,
    open: &Arc<OpenPoll>,
    is_last: bool,
    outcome: Result<Posted, HandedFault>,
) -> Result<Response<Either<SentBody, H>>, ResponseFault>
    ensures { IfOk result (spec.IsHandedResponse is_last outcome) }
{
    match outcome {
        Ok(posted) => posted_response(alloc, open, is_last, posted),
        Err(fault) => reply_response(alloc, None, is_last, handed_reply(alloc, fault)?),
    }
}

/// Returns the header fields of a request that a handler gets.
fn octets_map(alloc: Global) -> Result<HeaderMap, AllocError>
    ensures { IfOk result (λ map. map ≡ fields spec.octets_headers) }
{
    let mut map = HeaderMap::new(alloc);
    let value = HeaderValue::from_static("application/octet-stream");
    match map.append("content-type", value) {
        Ok(_) => Ok(map),
        Err(_) => Err(AllocError),
    }
}

/// Returns the bytes with which a handler gets a request: the line of its head, and its body.
fn text_of(alloc: Global, id: u64, request: &Request) -> Result<Bytes, AllocError>
    ensures { IfOk result (λ text. text ≡ line_of id request.now.head.items ++ request.now.body) }
{
    let mut text = request.line(alloc, id)?;
    text.extend_from_slice(&request.body)?;
    Ok(Bytes::from_vec(text)?)
}

/// Makes the response to a handler's own request; it is the connection's last or not.
pub(crate) fn handler_response<H: Drop>(
    alloc: Global,
    is_last: bool,
    outcome: Result<Done, HandlerFault>,
) -> Result<Response<Either<SentBody, H>>, ResponseFault>
    ensures { IfOk result (spec.IsHandlerResponse is_last outcome) }
{
    match outcome {
        Ok(Done::Request(id, request)) => {
            let text = text_of(alloc, id, &request)?;
            let map = octets_map(alloc)?;
            with_map(is_last, 200, map, whole(text))
        }
        Ok(Done::Accepted) => with_map(is_last, 202, HeaderMap::new(alloc), whole(Bytes::new())),
        Err(fault) => reply_response(alloc, None, is_last, handler_reply(alloc, fault)?),
    }
}
