//! The response to a handler's own request, as a future.

ghost use Rattle.std.specs.Prelude.{◌≡◌, true, nat_lt, length, Ok, Err, MatchResult};
ghost use Rattle.arn_ids.specs.Limits.{longest_body};
ghost use Rattle.futures.specs.Poll.{IfReady, OnPending};
ghost use Rattle.futures.specs.Task.{Covers, Keeps};
ghost use Rattle.handler_desk.specs.Asked.{asked};
ghost use Rattle.handler_desk.specs.declared.asked.Asked.TheVariants as asks_for;
ghost use Rattle.http_front.specs.DeskFaults.{refusal_behind};
ghost use Rattle.http_front.specs.HandedStages.{AwaitsFlow, CanServe};
ghost use Rattle.http_front.specs.Handing.{has_a_request};

use crate::at_desk::fault::HandlerFault;
use crate::at_desk::flowing::Flowing;
use crate::at_desk::response::{Done, handler_response};
use crate::{AtDesk, ResponseFault, SentBody};
use arn_ids::LONGEST_BODY;
use bytes::Bytes;
use futures::channel::oneshot::Receiver;
use futures::future::Future;
use futures::ready;
use futures::task::{Context, Poll};
use handler_desk::{Asked, NotTaken, Posted, Taken, open_pipe, read_asked};
use http::Response;
use http::request::Parts;
use http_body::Body;
use http_body_util::Either;
use long_poll::{BodyFault, Collecting};
use std::alloc::{AllocError, Global};
use std::marker::PhantomData;
use std::sync::{Arc, Wait};
use std::time;

/// How far a handler's own request has come.
#[derive(Drop)]
pub(crate) enum OwnStage<B> {
    /// It asks for a request.
    Asking,
    /// It waits for one.
    Hearing(Receiver<()>),
    /// It posts an answer, whose body is passed on while it comes: to the requester, once that has the head.
    Posting {
        posted: Option<Posted>,
        flowing: Flowing<B>,
    },
    /// It says that the request with this identifier has failed, and its body is being collected.
    Failing {
        id: u64,
        body: Collecting<B>,
    },
    /// It is refused, and its body is being collected.
    Refused {
        fault: HandlerFault,
        body: Collecting<B>,
    },
}

/// The response to a handler's own request: it waits for a request; or what it posts is given to the requester. If its
/// head declares that the body is too long, none of it is read.
#[derive(Drop)]
pub struct OfHandler<R, B, H> {
    rt: R,
    at_desk: Arc<AtDesk>,
    // Whether the body is left unread, so that the connection ends.
    is_unread: bool,
    stage: OwnStage<B>,
    of: PhantomData<H>,
}

/// Refuses a post whose body can be polled. Its body is collected first, so that the connection can go on.
fn refused<B: Body>(alloc: Global, fault: HandlerFault, body: B) -> OwnStage<B>
    requires { B.can_poll body }
    ensures { CanServe B.can_poll result }
{
    let body = Collecting::new(alloc, body);
    OwnStage::Refused { fault, body }
}

/// Begins to pass on what is posted for the request with the identifier in this head, unless the head of the answer
/// cannot be read. It takes the memory of a pipe.
fn posting<B: Body>(alloc: Global, parts: Parts, id: u64, body: B) -> OwnStage<B>
    requires asked { asked parts ≡ asks_for.Response id }
    requires body { B.can_poll body }
    ensures { CanServe B.can_poll result }
{
    let Ok((sender, receiver)) = open_pipe(alloc, body.size_hint().exact()) else {
        return refused(alloc, HandlerFault::OutOfMemory, body);
    };
    match Posted::read(alloc, parts, id, receiver) {
        Ok(posted) => OwnStage::Posting {
            posted: Some(posted),
            flowing: Flowing::new(body, sender),
        },
        Err(fault) => refused(alloc, HandlerFault::of_head(fault), body),
    }
}

/// Returns what a post has come to.
fn done(given: Result<(), NotTaken>) -> Result<Done, HandlerFault>
    ensures { MatchResult given (λ _. result ≡ Ok Done.Accepted) (λ fault. result ≡ Err (HandlerFault.NotTaken fault)) }
{
    match given {
        Ok(()) => Ok(Done::Accepted),
        Err(fault) => Err(HandlerFault::NotTaken(fault)),
    }
}

/// Returns why a post is refused whose body was collected: that it is too long, or else what is said of the post.
fn unless_too_long(body: &Bytes, said: HandlerFault) -> HandlerFault
    ensures { result ≡ refusal_behind body.now said }
{
    if body.len() > LONGEST_BODY {
        return HandlerFault::TooLong;
    }
    said
}

impl AtDesk {
    /// Returns the first stage of a handler's own request with this head.
    fn first_stage<B: Body>(&self, rt: &impl Wait, parts: Parts, body: B) -> OwnStage<B>
        requires { B.can_poll body }
        ensures { CanServe B.can_poll result }
    {
        match read_asked(&parts) {
            Asked::Next => OwnStage::Asking,
            Asked::Response(id) => match self.desk.denial(rt, self.connection, id) {
                None => posting(self.alloc, parts, id, body),
                Some(fault) => refused(self.alloc, HandlerFault::NotTaken(fault), body),
            },
            Asked::Failure(id) => OwnStage::Failing {
                id,
                body: Collecting::new(self.alloc, body),
            },
            Asked::Nothing => refused(self.alloc, HandlerFault::NotTaken(NotTaken::NotGiven), body),
        }
    }

    /// Gives what a handler posts to the requester, unless that has it.
    fn give(&self, rt: &impl Wait, posted: &mut Option<Posted>) -> Result<(), NotTaken> {
        match posted.take() {
            Some(posted) => self.desk.answer(rt, self.connection, posted),
            None => Ok(()),
        }
    }

    /// Lets a request fail, once the body of the post is collected.
    fn fail(&self, rt: &impl Wait, id: u64, body: &Bytes) -> Result<Done, HandlerFault>
        ensures { nat_lt longest_body (length body.now) ≡ true → result ≡ Err HandlerFault.TooLong }
    {
        if body.len() > LONGEST_BODY {
            return Err(HandlerFault::TooLong);
        }
        done(self.desk.fail(rt, self.connection, id))
    }

    /// Passes on what is posted: the body as far as it has come, then the head, and then the rest of the body.
    fn poll_posting<B: Body>(
        &self,
        rt: &impl Wait,
        cx: &mut Context<'_>,
        posted: &mut Option<Posted>,
        flowing: &mut Flowing<B>,
    ) -> Poll<Result<Done, HandlerFault>>
    where
        B::Data: Into<Bytes>,
        B::Error: BodyFault,
        requires { B.can_poll flowing.old.body }
        ensures again { OnPending result (B.can_poll flowing.new.body) }
        ensures registered { OnPending result (Covers cx.new (AwaitsFlow B.needs flowing.new)) }
        ensures kept { Keeps cx.old cx.new }
    {
        match flowing.poll_flow(cx) {
            Poll::Ready(Ok(())) => Poll::Ready(done(self.give(rt, posted))),
            Poll::Ready(Err(fault)) => Poll::Ready(Err(HandlerFault::of_flow(fault))),
            Poll::Pending => match self.give(rt, posted) {
                Ok(()) => {
                    self.open.note_awaited(flowing.awaits_body());
                    Poll::Pending
                }
                Err(fault) => Poll::Ready(Err(HandlerFault::NotTaken(fault))),
            },
        }
    }
}

impl<R: Wait + time::Clock + Drop, B: Body, H> OfHandler<R, B, H> {
    /// Returns the response to a handler's request with this head and this body, of which the head declares that it is
    /// too long, or not. The body of a request for a request is left unread.
    pub(crate) fn new(
        rt: R,
        at_desk: Arc<AtDesk>,
        parts: Parts,
        body: B,
        is_unread: bool,
    ) -> OfHandler<R, B, H>
        requires { B.can_poll body }
        ensures at_desk { result.at_desk ≡ at_desk }
        ensures unread { result.is_unread ≡ is_unread }
        ensures can_poll { CanServe B.can_poll result.stage }
    {
        let stage = at_desk.first_stage(&rt, parts, body);
        at_desk.open.note_awaited(false);
        OfHandler {
            rt,
            at_desk,
            is_unread,
            stage,
            of: PhantomData,
        }
    }
}

impl<R: Wait + time::Clock + Drop, B: Body, H: Drop> OfHandler<R, B, H>
where
    B::Data: Into<Bytes>,
    B::Error: BodyFault,
{
    ghost use Rattle.http_front.specs.HandedStages.{WaitsAt};

    /// Takes a request, or begins to wait for one.
    fn take(&mut self, cx: &mut Context<'_>) -> Poll<Result<Done, HandlerFault>>
        ensures again { OnPending result (CanServe B.can_poll self.new.stage) }
        ensures registered { OnPending result (Covers cx.new (WaitsAt B.needs self.new.stage)) }
        ensures kept { Keeps cx.old cx.new }
        ensures unread { self.new.is_unread ≡ self.old.is_unread }
    {
        match self.at_desk.desk.take(&self.rt, self.at_desk.connection) {
            Ok(Taken::Request(id, request)) => Poll::Ready(Ok(Done::Request(id, request))),
            Ok(Taken::Over) => Poll::Ready(Err(HandlerFault::ServiceEnded)),
            Ok(Taken::Heard(heard)) => {
                self.at_desk.open.note_awaited(true);
                self.stage = OwnStage::Hearing(heard);
                cx.yield_now()
            }
            Err(AllocError) => Poll::Ready(Err(HandlerFault::OutOfMemory)),
        }
    }

    /// Waits for a request; or passes on what is posted; or collects the body of another post.
    fn poll_outcome(&mut self, cx: &mut Context<'_>) -> Poll<Result<Done, HandlerFault>>
        requires { CanServe B.can_poll self.old.stage }
        ensures again { OnPending result (CanServe B.can_poll self.new.stage) }
        ensures registered { OnPending result (Covers cx.new (WaitsAt B.needs self.new.stage)) }
        ensures kept { Keeps cx.old cx.new }
        ensures unread { self.new.is_unread ≡ self.old.is_unread }
    {
        if self.is_unread {
            return Poll::Ready(Err(HandlerFault::TooLong));
        }
        match &mut self.stage {
            OwnStage::Asking => self.take(cx),
            OwnStage::Hearing(heard) => match heard.poll(cx) {
                Poll::Pending => Poll::Pending,
                Poll::Ready(_) => self.take(cx),
            },
            OwnStage::Posting { posted, flowing } => {
                self.at_desk.poll_posting(&self.rt, cx, posted, flowing)
            }
            OwnStage::Failing { id, body } => match body.poll(cx) {
                Poll::Pending => Poll::Pending,
                Poll::Ready(Err(fault)) => Poll::Ready(Err(HandlerFault::of_body(fault))),
                Poll::Ready(Ok(bytes)) => Poll::Ready(self.at_desk.fail(&self.rt, *id, &bytes)),
            },
            OwnStage::Refused { fault, body } => match body.poll(cx) {
                Poll::Pending => Poll::Pending,
                Poll::Ready(Err(fault)) => Poll::Ready(Err(HandlerFault::of_body(fault))),
                Poll::Ready(Ok(bytes)) => Poll::Ready(Err(unless_too_long(&bytes, *fault))),
            },
        }
    }
}

/// Returns whether a handler has a request now, which it has not answered yet.
fn has_request(outcome: &Result<Done, HandlerFault>) -> bool
    ensures { result ≡ has_a_request outcome.now }
{
    matches!(outcome, Ok(Done::Request(..)))
}

impl<R: Wait + time::Clock + Drop, B: Body, H: Drop> Future for OfHandler<R, B, H>
where
    B::Data: Into<Bytes>,
    B::Error: BodyFault,
{
    ghost use Rattle.std.specs.Prelude.{IfOk};
    ghost use Rattle.http_front.specs.Handing.{IsHandlerAnswer};
    ghost use Rattle.http_front.specs.HandedStages.{WaitsAt};

    type Output = Result<Response<Either<SentBody, H>>, ResponseFault>;

    ghost can_poll = { λ own. CanServe B.can_poll own.stage };

    ghost needs = { λ own. WaitsAt B.needs own.stage };

    ghost gives = { λ own answer. IfOk answer (IsHandlerAnswer own.is_unread) };

    fn poll(&mut self, cx: &mut Context<'_>) -> Poll<Self::Output> {
        let outcome = ready!(self.poll_outcome(cx));
        self.at_desk.open.note_awaited(has_request(&outcome));
        Poll::Ready(handler_response(self.at_desk.alloc, self.is_unread, outcome))
    }
}
