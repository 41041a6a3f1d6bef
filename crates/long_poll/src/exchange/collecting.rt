//! A future for the first bytes of a request's body.

ghost use Rattle.std.specs.Prelude.{◌≡◌, ◌==◌, ◌≤◌, ◌++◌, [], length, take, IfOk, MatchResult, OnOk};
ghost use Rattle.long_poll.specs.Bodies.{Collects, most_bytes};

use super::first_bytes::FirstBytes;
use crate::{BodyFault, ExchangeFault, PieceFault, poll_piece};
use bytes::Bytes;
use futures::future::Future;
use futures::ready;
use futures::task::{Context, Poll};
use http_body::Body;
use std::alloc::{AllocError, Global};

/// The most pieces that one poll takes, so that a long body does not keep other futures waiting.
const PIECES_PER_POLL: u32 = 128;

/// Collects the first bytes of a body: those that a body may have, and one more.
#[derive(Drop)]
pub struct Collecting<B> {
    alloc: Global,
    body: B,
    held: FirstBytes,
}

impl<B: Body> Collecting<B> {
    /// Collects this body, of which nothing was read. It takes no memory.
    pub fn new(alloc: Global, body: B) -> Collecting<B>
        ensures { (result.body ≡ body) × (result.held ≡ []) }
    {
        Collecting {
            alloc,
            body,
            held: FirstBytes::none(alloc),
        }
    }

    /// Takes a piece of the body. Returns whether no more is read.
    fn take_piece(&mut self, piece: Bytes) -> Result<bool, AllocError>
        ensures taken { OnOk result (self.new.held ≡ take most_bytes (self.old.held ++ piece)) }
        ensures full { IfOk result (λ full. full ≡ (length self.new.held == most_bytes)) }
        ensures body { self.new.body ≡ self.old.body }
    {
        let expected = self.body.size_hint().lower();
        self.held.add(piece, expected)?;
        Ok(self.held.is_full())
    }

    /// Takes out what was collected.
    fn collected(&mut self) -> Result<Bytes, ExchangeFault>
        ensures held { MatchResult result (λ bytes. bytes ≡ self.old.held)
            (λ fault. fault ≡ ExchangeFault.OutOfMemory) }
        ensures few { length self.old.held ≤ most_bytes }
    {
        match self.held.taken(self.alloc) {
            Ok(bytes) => Ok(bytes),
            Err(AllocError) => Err(ExchangeFault::OutOfMemory),
        }
    }
}

impl<B: Body> Future for Collecting<B>
where
    B::Data: Into<Bytes>,
    B::Error: BodyFault,
{
    type Output = Result<Bytes, ExchangeFault>;

    ghost can_poll = { λ collecting. B.can_poll collecting.body };

    ghost needs = { λ collecting. B.needs collecting.body };

    ghost gives = { λ collecting. Collects B.Data.converts (B.yields collecting.body) collecting.held };

    fn poll(&mut self, cx: &mut Context<'_>) -> Poll<Result<Bytes, ExchangeFault>> {
        for _ in 0..PIECES_PER_POLL {
            let piece = match ready!(poll_piece(&mut self.body, cx)) {
                None => return Poll::Ready(self.collected()),
                Some(Err(PieceFault::OutOfMemory)) => {
                    return Poll::Ready(Err(ExchangeFault::OutOfMemory));
                }
                Some(Err(PieceFault::BodyFailed)) => {
                    return Poll::Ready(Err(ExchangeFault::BodyFailed));
                }
                Some(Ok(piece)) => piece,
            };
            match self.take_piece(piece) {
                Err(AllocError) => return Poll::Ready(Err(ExchangeFault::OutOfMemory)),
                Ok(true) => return Poll::Ready(self.collected()),
                Ok(false) => {}
            }
        }
        cx.yield_now()
    }
}
