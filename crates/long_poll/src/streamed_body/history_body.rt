//! The text of a history as the body of a response.

ghost use Rattle.std.specs.Prelude.{◌≡◌, IfSome, Some, None};
ghost use Rattle.std.specs.Arc.{arc_value};
ghost use Rattle.long_poll.specs.HistoryFrames.{Answers, behind, answer_of, first_stage};

use super::piece::{first_piece, frame_of};
use crate::Service;
use bytes::Bytes;
use call_model::Ticket;
use futures::task::{Context, Poll};
use http_body::{Body, Frame};
use script::Draft;
use std::alloc::AllocError;
use std::marker::PhantomData;
use std::sync::{Arc, Wait};
use usage_ledger::{Keep, Ledgers, Tally, Token};

/// The text that comes next.
#[derive(Clone, Copy)]
enum Stage {
    /// The text before the first entry.
    Opening,
    /// The text of the entry with a ticket.
    Entry(Ticket),
    /// No text: the history has ended, or an allocation failed.
    Ended,
}

/// Returns the stage at which a body begins that shows the history, whole or from a ticket on.
fn stage_from(from: Option<Ticket>) -> Stage
    ensures { result ≡ first_stage from }
{
    match from {
        None => Stage::Opening,
        Some(ticket) => Stage::Entry(ticket),
    }
}

/// The text of a history, streamed: its opening, then the text of each entry, from ticket 0 to the last;
/// or, from a ticket on, the texts of those entries alone. All are of one history. Each frame is a piece of a
/// text, and no more than one is in memory: what is left of a text shares its bodies with the history. If an
/// allocation fails, the body ends with an error.
#[derive(Drop)]
pub struct HistoryBody<R, S, K: Keep, L: Ledgers> {
    rt: R,
    service: Arc<S>,
    stage: Stage,
    // What is left of a text whose first pieces were shown.
    rest: Option<Draft>,
    token: Token<L>,
    of: PhantomData<Tally<K, L>>,
}

impl<R: Wait + Drop, S: Service<K, Ledgers = L>, K: Keep, L: Ledgers> HistoryBody<R, S, K, L> {
    /// Streams the history of a service, as a token sees it, from the entry of a ticket on, or whole if `from` is
    /// `None`. From a ticket past the last entry the body is empty. It takes no memory.
    pub fn new(
        rt: R,
        service: Arc<S>,
        token: Token<L>,
        from: Option<Ticket>,
    ) -> HistoryBody<R, S, K, L>
        ensures stands { (result.service ≡ service) × (result.stage ≡ first_stage from) × (result.rest ≡ None) }
        ensures seen { result.token ≡ token }
    {
        HistoryBody {
            rt,
            service,
            stage: stage_from(from),
            rest: None,
            token,
            of: PhantomData,
        }
    }

    /// Returns the text before the first entry, which is one piece.
    fn opening(&mut self) -> Result<Frame<Bytes>, AllocError>
        requires { self.old.rest ≡ None }
        ensures value { Answers S.Service (arc_value self.old.service) self.old.token None
            Stage.Opening (Some result) self.new.token self.new.rest }
        ensures stage { self.new.stage ≡ behind None Stage.Opening result }
        ensures same { self.new.service ≡ self.old.service }
    {
        self.stage = Stage::Ended;
        let frame = frame_of(self.service.opening(&self.rt)?)?;
        self.stage = Stage::Entry(0);
        Ok(frame)
    }

    /// Returns the first piece of the text of an entry, `None` past the last.
    fn entry(&mut self, ticket: Ticket) -> Result<Option<Frame<Bytes>>, AllocError>
        requires { self.old.rest ≡ None }
        ensures value { Answers S.Service (arc_value self.old.service) self.old.token None
            (Stage.Entry ticket) (answer_of result) self.new.token self.new.rest }
        ensures stage { IfSome (answer_of result)
            (λ answer. self.new.stage ≡ behind None (Stage.Entry ticket) answer) }
        ensures same { self.new.service ≡ self.old.service }
    {
        self.stage = Stage::Ended;
        let Some(text) = self.service.history(&self.rt, &mut self.token, ticket)? else {
            return Ok(None);
        };
        let Some(next) = ticket.checked_add(1) else {
            return Err(AllocError);
        };
        let (frame, rest) = first_piece(text)?;
        self.rest = rest;
        self.stage = Stage::Entry(next);
        Ok(Some(frame))
    }

    /// Returns the next piece of a text, before the one that begins at its stage.
    fn go_on(&mut self, text: Draft) -> Result<Frame<Bytes>, AllocError>
        requires { self.old.rest ≡ None }
        ensures value { Answers S.Service (arc_value self.old.service) self.old.token (Some text)
            self.old.stage (Some result) self.new.token self.new.rest }
        ensures stage { self.new.stage ≡ behind (Some text) self.old.stage result }
        ensures same { self.new.service ≡ self.old.service }
    {
        let stage = self.stage;
        self.stage = Stage::Ended;
        let (frame, rest) = first_piece(text)?;
        self.rest = rest;
        self.stage = stage;
        Ok(frame)
    }
}

impl<R: Wait + Drop, S: Service<K, Ledgers = L>, K: Keep, L: Ledgers> Body
    for HistoryBody<R, S, K, L> {
    ghost use Rattle.std.specs.Arc.{arc_value};
    ghost use Rattle.long_poll.specs.HistoryFrames.{Frames};

    type Data = Bytes;

    type Error = AllocError;

    ghost yields = { λ b. Frames S.Service (arc_value b.service) b.token b.rest b.stage };

    fn poll_frame(
        &mut self,
        _cx: &mut Context<'_>,
    ) -> Poll<Option<Result<Frame<Bytes>, AllocError>>> {
        if let Some(text) = self.rest.take() {
            return Poll::Ready(Some(self.go_on(text)));
        }
        match self.stage {
            Stage::Opening => Poll::Ready(Some(self.opening())),
            Stage::Entry(ticket) => Poll::Ready(self.entry(ticket).transpose()),
            Stage::Ended => Poll::Ready(None),
        }
    }
}
