//! The response to a request that is handed over, as a future.

ghost use Rattle.std.specs.Prelude.{◌≡◌, Ok, IfOk};
ghost use Rattle.std.specs.Arc.{arc_value};
ghost use Rattle.std.specs.Option.{ForSome};
ghost use Rattle.futures.specs.Channel.{completed_source};
ghost use Rattle.futures.specs.Poll.{IfReady, OnPending};
ghost use Rattle.futures.specs.Task.{Covers, Keeps};
ghost use Rattle.handler_desk.specs.Desks.{desk_of, IsPutAt};
ghost use Rattle.http_front.specs.HandedStages.{CanGoOn, Gave, Follows, put_of};

use crate::at_desk::fault::HandedFault;
use crate::at_desk::response::handed_response;
use crate::{AtDesk, ResponseFault, SentBody};
use bytes::Bytes;
use futures::channel::oneshot::Canceled;
use futures::future::Future;
use futures::ready;
use futures::task::{Context, Poll};
use handler_desk::{Given, Posted, Put};
use http::Response;
use http::request::Parts;
use http_body::Body;
use http_body_util::Either;
use long_poll::{BodyFault, Collecting};
use std::marker::PhantomData;
use std::sync::{Arc, Wait};
use std::time;

/// How far a request that is handed over has come.
#[derive(Drop)]
pub(crate) enum HandedStage<B> {
    /// Its body is being collected.
    Collecting { parts: Parts, body: Collecting<B> },
    /// It waits for a handler, or one has taken it.
    Waiting(Put),
}

/// The response to a request that is handed over: its body is collected, and then it waits for what a handler gives. If
/// its head declares that the body is too long, none of it is read.
#[derive(Drop)]
pub struct Handed<R, B, H> {
    rt: R,
    at_desk: Arc<AtDesk>,
    // Whether the body is left unread, so that the connection ends.
    is_unread: bool,
    stage: HandedStage<B>,
    of: PhantomData<H>,
    ghost own: { ForSome (put_of stage) (IsPutAt (arc_value (arc_value at_desk).desk)) },
}

/// Returns what was given for a request, only if a handler posted that for its identifier.
fn posted_for(id: u64, given: Result<Given, Canceled>) -> Result<Posted, HandedFault>
    ensures { IfOk result (λ posted. (given ≡ Ok (Given.Posted posted)) × (posted.id ≡ id)) }
{
    match given {
        Ok(Given::Posted(posted)) => {
            if posted.id == id {
                return Ok(posted);
            }
            Err(HandedFault::Failed)
        }
        Ok(Given::Failed) | Err(Canceled) => Err(HandedFault::Failed),
    }
}

/// Waits for what a handler posts for a request that waits for one.
fn poll_given(cx: &mut Context<'_>, put: &mut Put) -> Poll<Result<Posted, HandedFault>>
    ensures posted { IfReady result (λ given. IfOk given (λ posted. posted.id ≡ put.old.id)) }
    ensures same { (put.new.id ≡ put.old.id) × (desk_of put.new ≡ desk_of put.old) }
    ensures registered { OnPending result (Covers cx.new (λ source. source ≡ completed_source put.new.given)) }
    ensures kept { Keeps cx.old cx.new }
{
    match put.given.poll(cx) {
        Poll::Pending => Poll::Pending,
        Poll::Ready(given) => Poll::Ready(posted_for(put.id, given)),
    }
}

impl AtDesk {
    /// Lets a request wait for a handler, once its body is collected.
    fn poll_put<R: Wait + time::Clock, B: Body>(
        &self,
        rt: &R,
        cx: &mut Context<'_>,
        parts: &Parts,
        body: &mut Collecting<B>,
    ) -> Poll<Result<Put, HandedFault>>
    where
        B::Data: Into<Bytes>,
        B::Error: BodyFault,
        requires { B.can_poll body.old.body }
        ensures own { IfReady result (λ put. IfOk put (IsPutAt (arc_value self.now.desk))) }
        ensures again { OnPending result (B.can_poll body.new.body) }
        ensures registered { OnPending result (Covers cx.new (B.needs body.new.body)) }
        ensures kept { Keeps cx.old cx.new }
    {
        match body.poll(cx) {
            Poll::Pending => Poll::Pending,
            Poll::Ready(Err(fault)) => Poll::Ready(Err(HandedFault::of_body(fault))),
            Poll::Ready(Ok(bytes)) => Poll::Ready(self.hand_over(rt, parts, bytes)),
        }
    }
}

impl<R: Wait + time::Clock + Drop, B: Body, H> Handed<R, B, H> {
    /// Returns the response to a request with this head and this body, of which the head declares that it is too long, or
    /// not. It takes no memory.
    pub(crate) fn new(
        rt: R,
        at_desk: Arc<AtDesk>,
        parts: Parts,
        body: B,
        is_unread: bool,
    ) -> Handed<R, B, H>
        requires { B.can_poll body }
        ensures at_desk { result.at_desk ≡ at_desk }
        ensures unread { result.is_unread ≡ is_unread }
        ensures can_poll { CanGoOn B.can_poll result.stage }
    {
        let body = Collecting::new(at_desk.alloc, body);
        Handed {
            rt,
            at_desk,
            is_unread,
            stage: HandedStage::Collecting { parts, body },
            of: PhantomData,
        }
    }
}

impl<R: Wait + time::Clock + Drop, B: Body, H: Drop> Handed<R, B, H>
where
    B::Data: Into<Bytes>,
    B::Error: BodyFault,
{
    ghost use Rattle.http_front.specs.HandedStages.{WaitsFor};

    /// Begins to wait for what a handler gives.
    fn await_given(&mut self, cx: &mut Context<'_>, put: Put) -> Poll<Result<Posted, HandedFault>>
        requires { IsPutAt (arc_value (arc_value self.old.at_desk).desk) put }
        ensures gave { IfReady result (Gave self.new.stage) }
        ensures again { OnPending result (CanGoOn B.can_poll self.new.stage) }
        ensures registered { OnPending result (Covers cx.new (WaitsFor B.needs self.new.stage)) }
        ensures kept { Keeps cx.old cx.new }
        ensures unread { self.new.is_unread ≡ self.old.is_unread }
    {
        self.at_desk.open.note_awaited(true);
        let mut put = put;
        let given = poll_given(cx, &mut put);
        self.stage = HandedStage::Waiting(put);
        given
    }

    /// Lets the request wait, and then waits for what a handler gives.
    fn poll_outcome(&mut self, cx: &mut Context<'_>) -> Poll<Result<Posted, HandedFault>>
        requires { CanGoOn B.can_poll self.old.stage }
        ensures gave { IfReady result (Gave self.new.stage) }
        ensures follows { Follows self.old.stage self.new.stage }
        ensures again { OnPending result (CanGoOn B.can_poll self.new.stage) }
        ensures registered { OnPending result (Covers cx.new (WaitsFor B.needs self.new.stage)) }
        ensures kept { Keeps cx.old cx.new }
        ensures unread { self.new.is_unread ≡ self.old.is_unread }
    {
        if self.is_unread {
            return Poll::Ready(Err(HandedFault::TooLong));
        }
        match &mut self.stage {
            HandedStage::Waiting(put) => poll_given(cx, put),
            HandedStage::Collecting { parts, body } => {
                match ready!(self.at_desk.poll_put(&self.rt, cx, parts, body)) {
                    Ok(put) => self.await_given(cx, put),
                    Err(fault) => Poll::Ready(Err(fault)),
                }
            }
        }
    }
}

impl<R: Wait + time::Clock + Drop, B: Body, H: Drop> Future for Handed<R, B, H>
where
    B::Data: Into<Bytes>,
    B::Error: BodyFault,
{
    ghost use Rattle.std.specs.Prelude.{IfOk};
    ghost use Rattle.http_front.specs.Handing.{IsHandedAnswer};
    ghost use Rattle.http_front.specs.HandedStages.{WaitsFor};

    type Output = Result<Response<Either<SentBody, H>>, ResponseFault>;

    ghost can_poll = { λ handed. CanGoOn B.can_poll handed.stage };

    ghost needs = { λ handed. WaitsFor B.needs handed.stage };

    ghost gives = { λ handed answer. IfOk answer (IsHandedAnswer handed.is_unread) };

    fn poll(&mut self, cx: &mut Context<'_>) -> Poll<Self::Output> {
        let outcome = ready!(self.poll_outcome(cx));
        self.at_desk.open.note_awaited(false);
        if let (HandedStage::Collecting { parts, .. }, Err(fault)) = (&self.stage, &outcome) {
            self.at_desk.note_refused(&self.rt, parts, *fault);
        }
        Poll::Ready(handed_response(
            self.at_desk.alloc,
            &self.at_desk.open,
            self.is_unread,
            outcome,
        ))
    }
}
