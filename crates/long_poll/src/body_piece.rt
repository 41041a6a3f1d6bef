//! What is read of a body at a time.

ghost use Rattle.std.specs.Prelude.{◌≡◌, OnSome};
ghost use Rattle.futures.specs.Poll.{IfReady, OnPending};
ghost use Rattle.futures.specs.Runs.{Within};
ghost use Rattle.futures.specs.Task.{Covers, Keeps};
ghost use Rattle.long_poll.specs.Bodies.{IsDataOf, IsNextPiece};

use crate::BodyFault;
use bytes::Bytes;
use futures::task::{Context, Poll};
use http_body::{Body, Frame};

/// Why there is no further piece of a body.
#[derive(Clone, Copy, Debug, Drop, PartialEq, Eq)]
pub enum PieceFault {
    /// The body failed before its end.
    BodyFailed,
    /// An allocation failed.
    OutOfMemory,
}

/// Returns the bytes of a frame's data; trailers have none.
fn data_in<D: Into<Bytes> + Drop>(frame: Frame<D>) -> Bytes
    ensures { IsDataOf D.converts frame result }
{
    match frame.into_data() {
        Ok(piece) => piece.into(),
        Err(_) => Bytes::new(),
    }
}

/// Returns why there is no further piece of a body that has failed.
fn fault_of<E: BodyFault + Drop>(fault: E) -> PieceFault {
    if fault.is_out_of_memory() {
        return PieceFault::OutOfMemory;
    }
    PieceFault::BodyFailed
}

/// Polls a body for its next frame. Returns the bytes of the frame's data, of which trailers have none; `None` at the
/// end of the body. Whoever reads a body calls this, so that a program has one copy of what reads it.
///
/// # Errors
/// If the body fails. It cannot be polled any more then.
#[inline(never)]
pub fn poll_piece<B: Body>(
    body: &mut B,
    cx: &mut Context<'_>,
) -> Poll<Option<Result<Bytes, PieceFault>>>
where
    B::Data: Into<Bytes>,
    B::Error: BodyFault,
    requires { B.can_poll body.old }
    ensures value { IfReady result (IsNextPiece B.Data.converts (B.yields body.old) (B.yields body.new)) }
    ensures goes { IfReady result (λ piece. OnSome piece (B.can_poll body.new)) }
    ensures again { OnPending result (B.can_poll body.new) }
    ensures same { OnPending result (Within (B.yields body.old) (B.yields body.new)) }
    ensures registered { OnPending result (Covers cx.new (B.needs body.new)) }
    ensures kept { Keeps cx.old cx.new }
{
    match body.poll_frame(cx) {
        Poll::Pending => Poll::Pending,
        Poll::Ready(None) => Poll::Ready(None),
        Poll::Ready(Some(Err(fault))) => Poll::Ready(Some(Err(fault_of(fault)))),
        Poll::Ready(Some(Ok(frame))) => Poll::Ready(Some(Ok(data_in(frame)))),
    }
}
