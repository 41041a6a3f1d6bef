//! What is streamed of an account.

mod history_body;
mod piece;
mod trace_body;

use crate::Service;
use bytes::Bytes;
use futures::task::{Context, Poll};
pub use history_body::HistoryBody;
use http_body::{Body, Frame};
use std::alloc::AllocError;
use std::sync::Wait;
pub use trace_body::TraceBody;
use usage_ledger::{Keep, Ledgers};

/// What is streamed of an account: its history, or its trace. (Both are on the heap: each response has the size of the
/// largest body, and is moved several times.)
#[derive(Drop)]
pub enum StreamedBody<R, S, T, K: Keep, L: Ledgers> {
    /// The text of the history.
    History(Box<HistoryBody<R, S, K, L>>),
    /// The trace of the history.
    Trace(Box<TraceBody<R, S, T, K, L>>),
}

impl<R: Wait + Drop, S: Service<K, Ledgers = L, Trail = T>, T: Drop, K: Keep, L: Ledgers> Body
    for StreamedBody<R, S, T, K, L> {
    ghost use Rattle.long_poll.specs.declared.streamed_body.StreamedBody.TheVariants.{History, Trace};

    type Data = Bytes;

    type Error = AllocError;

    ghost needs = { elim [
      | History body ↦ ⟦<HistoryBody<R, S, K, L> as Body>⟧.needs body.value
      | Trace body ↦ ⟦<TraceBody<R, S, T, K, L> as Body>⟧.needs body.value
    ] };

    ghost yields = { elim [
      | History body ↦ ⟦<HistoryBody<R, S, K, L> as Body>⟧.yields body.value
      | Trace body ↦ ⟦<TraceBody<R, S, T, K, L> as Body>⟧.yields body.value
    ] };

    fn poll_frame(
        &mut self,
        cx: &mut Context<'_>,
    ) -> Poll<Option<Result<Frame<Bytes>, AllocError>>> {
        match self {
            StreamedBody::History(body) => body.poll_frame(cx),
            StreamedBody::Trace(body) => body.poll_frame(cx),
        }
    }
}
