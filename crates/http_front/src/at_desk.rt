//! What a connection needs to hand its requests over to handlers, and to serve one.

mod fault;
mod flowing;
mod handed;
mod of_handler;
mod passed;
mod response;

ghost use Rattle.std.specs.Prelude.{◌≡◌, true, nat_lt, length, Err, IfOk};
ghost use Rattle.arn_ids.specs.Limits.{longest_body};
ghost use Rattle.std.specs.Arc.{arc_value};
ghost use Rattle.http_header.specs.HeaderMap.{pairs};
ghost use Rattle.json.specs.Print.{print};
ghost use Rattle.handler_desk.specs.Desks.{IsPutAt};
ghost use Rattle.handover.specs.Heads.{head_tokens};
ghost use Rattle.http_front.specs.Handing as spec;
ghost use Rattle.http_front.specs.Ports.{number_of};

use crate::Side;
use arn_ids::LONGEST_BODY;
use bytes::Bytes;
use fault::HandedFault;
pub use handed::Handed;
use handler_desk::{Asked, Desk, Put, Request, read_asked};
use handover::write_head;
use http::request::Parts;
use long_poll::{Kind, OpenPoll, Rejections};
pub use of_handler::OfHandler;
pub use passed::{PassedBody, PassedFault};
use std::alloc::{AllocError, Global};
use std::sync::{Arc, Wait};
use std::time;

/// Who answers a request.
#[derive(Clone, Copy, Debug, PartialEq, Eq)]
pub(crate) enum Way {
    /// The service itself.
    Own,
    /// A handler.
    Handed,
    /// The desk: it is a handler's own request.
    OfHandler,
}

/// What a connection needs to hand its requests over to handlers, and to serve one: the desk, and its number there; the
/// port at which it came; where it is noted that a handler is awaited; and where the requests are counted that are
/// rejected.
#[derive(Drop)]
pub struct AtDesk {
    pub(crate) alloc: Global,
    pub(crate) desk: Arc<Desk>,
    pub(crate) open: Arc<OpenPoll>,
    pub(crate) side: Arc<Side>,
    // What the log tells of the requests that are rejected.
    pub(crate) rejections: Arc<Rejections>,
    // The number of the port, as handlers get it.
    pub(crate) number: u16,
    // The number of the connection, by which it is known if it is a handler's.
    pub(crate) connection: u64,
    ghost numbered: { number ≡ number_of (arc_value side).config (arc_value side).port },
}

/// Returns the target of a request: its path and its query.
fn target_of(parts: &Parts) -> &str
    ensures { result.now ≡ spec.target_of parts.now }
{
    match parts.uri.path_and_query() {
        Some(target) => target.as_str(),
        None => "",
    }
}

/// Makes what a handler gets of a request with this head and this body, which came to the port of this number.
///
/// # Errors
/// If memory is refused.
fn request_of(alloc: Global, number: u16, parts: &Parts, body: Bytes) -> Result<Request, AllocError>
    ensures head { IfOk result (λ request. request.head.items
        ≡ print (head_tokens number parts.now.method (spec.target_of parts.now) (pairs parts.now.headers))) }
    ensures body { IfOk result (λ request. request.body ≡ body) }
{
    let method = parts.method.as_str();
    let head = write_head(alloc, number, method, target_of(parts), &parts.headers)?;
    Ok(Request { head, body })
}

/// Returns whether a handler asks for something with a request of this head.
fn asks(parts: &Parts) -> bool
    ensures { result ≡ spec.asks parts.now }
{
    match read_asked(parts) {
        Asked::Next | Asked::Response(_) | Asked::Failure(_) => true,
        Asked::Nothing => false,
    }
}

impl AtDesk {
    /// Returns who answers a request with this head. While no handler may be here, that takes no lock.
    ///
    /// # Errors
    /// If memory is refused. That is never so while no handler may be here.
    pub(crate) fn way_of<R: Wait + time::Clock>(
        &self,
        rt: &R,
        parts: &Parts,
    ) -> Result<Way, AllocError>
        ensures { IfOk result (spec.IsWayOf (arc_value self.now.side) parts.now) }
    {
        if self.side.is_own(parts) {
            if asks(parts) {
                return Ok(Way::OfHandler);
            }
            return Ok(Way::Own);
        }
        if self.desk.may_be_attended()
            && self.side.hands_over(self.alloc, parts)?
            && self.desk.is_attended(rt)
        {
            return Ok(Way::Handed);
        }
        Ok(Way::Own)
    }

    /// Makes what a handler gets of a request with this head and this body: its head has the number of this port.
    ///
    /// # Errors
    /// If memory is refused.
    fn request(&self, parts: &Parts, body: Bytes) -> Result<Request, AllocError>
        ensures head { IfOk result (λ request. request.head.items ≡ print (head_tokens
            (number_of (arc_value self.now.side).config (arc_value self.now.side).port)
            parts.now.method (spec.target_of parts.now) (pairs parts.now.headers))) }
        ensures body { IfOk result (λ request. request.body ≡ body) }
    {
        request_of(self.alloc, self.number, parts, body)
    }

    /// Lets a request with this head and this body wait for a handler.
    ///
    /// # Errors
    /// If its body is too long, or as `Desk::put`.
    pub(crate) fn hand_over<R: Wait + time::Clock>(
        &self,
        rt: &R,
        parts: &Parts,
        body: Bytes,
    ) -> Result<Put, HandedFault>
        ensures too_long { nat_lt longest_body (length body) ≡ true → result ≡ Err HandedFault.TooLong }
        ensures own { IfOk result (IsPutAt (arc_value self.now.desk)) }
    {
        if body.len() > LONGEST_BODY {
            return Err(HandedFault::TooLong);
        }
        let Ok(request) = self.request(parts, body) else {
            return Err(HandedFault::OutOfMemory);
        };
        match self.desk.put(rt, request) {
            Ok(put) => Ok(put),
            Err(fault) => Err(HandedFault::of_put(fault)),
        }
    }

    /// Counts a request with this head, for the log, that is not handed over because of its body.
    pub(crate) fn note_refused(&self, rt: &impl Wait, parts: &Parts, fault: HandedFault) {
        let Some(cause) = fault.cause() else {
            return;
        };
        let kind = Kind {
            cause,
            is_of_environment: false,
        };
        self.rejections
            .note(rt, kind, self.number, Some(parts), None);
    }
}
