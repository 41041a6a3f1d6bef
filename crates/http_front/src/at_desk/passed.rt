//! The body of a handler's answer, as its requester gets it while it comes.

ghost use Rattle.std.specs.Prelude.{◌≡◌, false};
ghost use Rattle.http_front.specs.Passed as spec;

use bytes::Bytes;
use futures::task::{Context, Poll};
use handler_desk::PipeReceiver;
use handover::Taken;
use http_body::{Body, Frame, SizeHint};
use long_poll::OpenPoll;
use std::sync::Arc;
use thiserror::Error;

/// Why a body has no end.
#[derive(Clone, Copy, Debug, PartialEq, Eq, Error)]
pub enum PassedFault {
    /// Its handler has gone away before all of it had come.
    #[error("the handler's answer has broken off")]
    BrokenOff,
}

/// The body of a handler's answer: each frame is what has come since the last one, at most 64 KiB. If the handler goes
/// away before the end, the body ends with an error, so that the connection is cut off.
#[derive(Drop)]
pub struct PassedBody {
    receiver: PipeReceiver,
    // Where it is noted that more of it is awaited.
    open: Arc<OpenPoll>,
    is_ended: bool,
}

/// Returns what a body shows of what was taken out of its pipe.
fn shown(taken: Taken) -> Option<Result<Frame<Bytes>, PassedFault>>
    ensures { result ≡ spec.shown taken }
{
    match taken {
        Taken::Piece(piece) => Some(Ok(Frame::data(piece))),
        Taken::Whole => None,
        Taken::Nothing | Taken::Broken => Some(Err(PassedFault::BrokenOff)),
    }
}

/// Returns whether nothing more can be taken out.
fn is_last(taken: &Taken) -> bool
    ensures { result ≡ spec.is_last taken.now }
{
    !matches!(taken, Taken::Piece(_))
}

impl PassedBody {
    /// Passes on what comes out of a pipe.
    pub(crate) fn new(receiver: PipeReceiver, open: Arc<OpenPoll>) -> PassedBody
        ensures { (result.receiver ≡ receiver) × (result.is_ended ≡ false) }
    {
        PassedBody {
            receiver,
            open,
            is_ended: false,
        }
    }
}

impl Body for PassedBody {
    ghost use Rattle.handler_desk.specs.Piped.{filled_source};
    ghost use Rattle.http_front.specs.Passed.{Passes};

    type Data = Bytes;

    type Error = PassedFault;

    ghost needs = { λ body source. source ≡ filled_source body.receiver };

    ghost yields = { λ body. Passes body.is_ended };

    fn poll_frame(
        &mut self,
        cx: &mut Context<'_>,
    ) -> Poll<Option<Result<Frame<Bytes>, PassedFault>>> {
        if self.is_ended {
            return Poll::Ready(None);
        }
        match self.receiver.poll_taken(cx) {
            Poll::Pending => {
                self.open.note_awaited(true);
                Poll::Pending
            }
            Poll::Ready(taken) => {
                self.open.note_awaited(false);
                self.is_ended = is_last(&taken);
                Poll::Ready(shown(taken))
            }
        }
    }

    fn size_hint(&self) -> SizeHint {
        match self.receiver.left() {
            Some(left) => SizeHint::with_exact(left),
            None => SizeHint::new(),
        }
    }
}
