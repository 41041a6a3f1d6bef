//! The body of a handler's post, as it is passed on to a requester.

ghost use Rattle.std.specs.Prelude.{◌≡◌, None, is_none, false, IfOk, OnOk};
ghost use Rattle.futures.specs.Poll.{IfReady, OnPending};
ghost use Rattle.futures.specs.Task.{Covers, Keeps};
ghost use Rattle.http_front.specs.DeskFaults as spec;

use bytes::Bytes;
use futures::ready;
use futures::task::{Context, Poll};
use handler_desk::{PipeFault, PipeSender};
use http_body::Body;
use long_poll::{BodyFault, PieceFault, poll_piece};

/// Why the body of a post is not passed on to its end.
#[derive(Clone, Copy, Debug, PartialEq, Eq)]
pub(crate) enum FlowFault {
    /// Its requester has gone away.
    Gone,
    /// It failed before its end.
    BodyFailed,
    /// An allocation failed.
    OutOfMemory,
}

/// The body of a post. No more of it is read before what has come is passed on.
#[derive(Drop)]
pub(crate) struct Flowing<B> {
    pub(crate) body: B,
    sender: PipeSender,
    // What has come and is not passed on yet.
    rest: Option<Bytes>,
}

/// Returns why bytes that have come are not passed on.
fn of_put(fault: PipeFault) -> FlowFault
    ensures { result ≡ spec.of_pipe fault }
{
    match fault {
        PipeFault::Gone => FlowFault::Gone,
        PipeFault::OutOfMemory => FlowFault::OutOfMemory,
    }
}

/// Returns why a body is not passed on of which no further piece can be read.
fn of_piece(fault: PieceFault) -> FlowFault
    ensures { result ≡ spec.of_piece fault }
{
    match fault {
        PieceFault::BodyFailed => FlowFault::BodyFailed,
        PieceFault::OutOfMemory => FlowFault::OutOfMemory,
    }
}

impl<B> Flowing<B> {
    /// Passes on a body of which nothing was read.
    pub(crate) fn new(body: B, sender: PipeSender) -> Flowing<B>
        ensures { (result.body ≡ body) × (result.rest ≡ None) }
    {
        Flowing {
            body,
            sender,
            rest: None,
        }
    }

    /// Returns whether more of the body is awaited, and not its requester.
    pub(crate) fn awaits_body(&self) -> bool
        ensures { result ≡ is_none self.now.rest }
    {
        self.rest.is_none()
    }
}

impl<B: Body> Flowing<B>
where
    B::Data: Into<Bytes>,
    B::Error: BodyFault,
{
    ghost use Rattle.handler_desk.specs.Piped.{IsBehind};
    ghost use Rattle.handover.specs.Pipes.{bytes_in};
    ghost use Rattle.http_front.specs.HandedStages.{AwaitsFlow};
    ghost use Rattle.http_front.specs.Passed.{came};
    ghost use Rattle.long_poll.specs.Bodies.{IsNextPiece};

    /// Passes on what has come.
    fn poll_rest(&mut self, cx: &mut Context<'_>) -> Poll<Result<(), FlowFault>>
        ensures body { self.new.body ≡ self.old.body }
        ensures behind { IsBehind (bytes_in self.old.rest) (bytes_in self.new.rest) }
        ensures none { IfReady result (λ put. OnOk put (self.new.rest ≡ None)) }
        ensures registered { OnPending result (Covers cx.new (AwaitsFlow B.needs self.new)) }
        ensures kept { Keeps cx.old cx.new }
    {
        match &mut self.rest {
            None => Poll::Ready(Ok(())),
            Some(rest) => match self.sender.poll_put(cx, rest) {
                Poll::Pending => Poll::Pending,
                Poll::Ready(Err(fault)) => Poll::Ready(Err(of_put(fault))),
                Poll::Ready(Ok(())) => {
                    self.rest = None;
                    Poll::Ready(Ok(()))
                }
            },
        }
    }

    /// Returns whether the body is known to be at its end, and then says so to its requester.
    fn is_over(&self) -> bool {
        let is_over = self.body.is_end_stream();
        if is_over {
            self.sender.finish();
        }
        is_over
    }

    /// Reads on, once what has come is passed on. Returns whether the body has come to its end.
    fn poll_more(&mut self, cx: &mut Context<'_>) -> Poll<Result<bool, FlowFault>>
        requires can_poll { B.can_poll self.old.body }
        requires none { self.old.rest ≡ None }
        ensures again { OnPending result (B.can_poll self.new.body) }
        ensures next { IfReady result (λ more. IfOk more (λ is_over. IsNextPiece B.Data.converts
            (B.yields self.old.body) (B.yields self.new.body) (came is_over (bytes_in self.new.rest)))) }
        ensures goes { IfReady result (λ more. IfOk more (λ is_over. is_over ≡ false → B.can_poll self.new.body)) }
        ensures registered { OnPending result (Covers cx.new (AwaitsFlow B.needs self.new)) }
        ensures kept { Keeps cx.old cx.new }
    {
        match poll_piece(&mut self.body, cx) {
            Poll::Pending => match self.sender.poll_gone(cx) {
                Poll::Pending => Poll::Pending,
                Poll::Ready(()) => Poll::Ready(Err(FlowFault::Gone)),
            },
            Poll::Ready(None) => {
                self.sender.finish();
                Poll::Ready(Ok(true))
            }
            Poll::Ready(Some(Err(fault))) => Poll::Ready(Err(of_piece(fault))),
            Poll::Ready(Some(Ok(piece))) => {
                self.rest = Some(piece);
                Poll::Ready(Ok(false))
            }
        }
    }

    /// Passes the body on to its end.
    pub(crate) fn poll_flow(&mut self, cx: &mut Context<'_>) -> Poll<Result<(), FlowFault>>
        requires { B.can_poll self.old.body }
        ensures again { OnPending result (B.can_poll self.new.body) }
        ensures registered { OnPending result (Covers cx.new (AwaitsFlow B.needs self.new)) }
        ensures kept { Keeps cx.old cx.new }
    {
        if let Err(fault) = ready!(self.poll_rest(cx)) {
            return Poll::Ready(Err(fault));
        }
        if self.is_over() {
            return Poll::Ready(Ok(()));
        }
        match ready!(self.poll_more(cx)) {
            Err(fault) => return Poll::Ready(Err(fault)),
            Ok(true) => return Poll::Ready(Ok(())),
            Ok(false) => {}
        }
        if let Err(fault) = ready!(self.poll_rest(cx)) {
            return Poll::Ready(Err(fault));
        }
        if self.is_over() {
            return Poll::Ready(Ok(()));
        }
        cx.yield_now()
    }
}
