//! The trace of a history as the body of a response.

ghost use Rattle.std.specs.Prelude.{◌≡◌, ◌≢◌, ◌==◌, ◌+◌, ◌/◌, ◌%◌, min, true, None, IfOk};
ghost use Rattle.std.specs.Arc.{arc_value};
ghost use Rattle.futures.specs.Poll.{IfReady, OnPending};
ghost use Rattle.futures.specs.Task.{Covers, Keeps};
ghost use Rattle.long_poll.specs.TraceFrames.{Asks, Finds, IsPieceFound, IsTraceFrom, Stops, Waits};

use super::piece::first_piece;
use crate::beat::FollowerPlace;
use crate::{Beat, Heard, OpenPoll, Service};
use bytes::Bytes;
use call_model::Ticket;
use decisions::TraceQuery;
use futures::future::Future;
use futures::task::{Context, Poll};
use http_body::{Body, Frame};
use script::Draft;
use std::alloc::{AllocError, Global};
use std::marker::PhantomData;
use std::sync::{Arc, Wait};
use std::thread::Parker;
use std::time::Duration;
use usage_ledger::{Keep, Ledgers, Tally, Token};

/// How many entries one poll passes at most, so that a long history does not keep other futures waiting.
const PASSED_PER_POLL: u32 = 128;

/// For how long a follower rests after a step before it looks, if little was shown since it rested last.
const REST_MS: u64 = 1;

/// For so many pieces of lines that were shown since it rested last, it rests a millisecond longer.
const PIECES_PER_MS: u64 = 8;

/// For how long it rests at most.
const LONGEST_REST_MS: u64 = 10;

/// Returns for how many milliseconds a follower rests that has shown so many pieces since it rested last: where much
/// happens, it is woken less often, and shows more at once.
fn rest_ms(shown: u64) -> u64
    ensures { result ≡ min (1 + shown / 8) 10 }
{
    (REST_MS + shown / PIECES_PER_MS).min(LONGEST_REST_MS)
}

/// How many pieces a follower shows in a row before it gives way: each line of an entry takes the account's lock.
const PIECES_IN_A_ROW: u64 = 16;

/// For how many microseconds it gives way at least, so that a call that waits for the account gets it.
const WAY_US: u64 = 50;

/// Returns whether a follower gives way that has shown so many pieces since it rested last.
fn gives_way(shown: u64) -> bool
    ensures { result ≡ (shown % 16 == 0) }
{
    shown % PIECES_IN_A_ROW == 0
}

/// How far a trace has come.
#[derive(Drop)]
pub(crate) struct Course<T> {
    // What was read of the history.
    trail: T,
    // How many entries are still to be passed before the first line.
    left: Ticket,
    // What is left of a line whose first pieces were shown.
    rest: Option<Draft>,
    // Whether it goes on at the end of the history.
    follow: bool,
}

/// What a look found.
#[derive(Drop)]
enum Found {
    /// A piece of the line of an entry.
    Piece(Frame<Bytes>),
    /// Entries to be passed, and there may be more of them.
    Passed,
    /// No further entry.
    Nothing,
}

/// The trace of a history, streamed: the line of each entry, from that of a ticket on to that of the last one.
/// Each frame is a piece of a line, and no more than one is in memory: what is left of a line shares its bodies with
/// the history. If it follows the history, it then waits for
/// each further entry, and ends only once the service is off. If an allocation fails, the body ends with an error.
#[derive(Drop)]
pub struct TraceBody<R, S, T, K: Keep, L: Ledgers> {
    rt: R,
    service: Arc<S>,
    // Where it is noted that an entry is awaited.
    open: Arc<OpenPoll>,
    // Where it waits for the next step.
    beat: Arc<Beat>,
    bodies: bool,
    course: Course<T>,
    // Its place among those who follow the history.
    place: Option<FollowerPlace>,
    // What hears the next step after a look that found nothing.
    heard: Option<Heard>,
    // Where its thread rests after a step, and how many pieces it has shown since.
    parker: Parker,
    shown: u64,
    is_ended: bool,
    of: PhantomData<Tally<K, L>>,
}

impl<R: Wait + Drop, S: Service<K, Ledgers = L, Trail = T>, T: Drop, K: Keep, L: Ledgers> TraceBody<
    R,
    S,
    T,
    K,
    L,
> {
    /// Streams the trace of a service's history that is asked for. If it does not follow the history, the body is
    /// empty from a ticket past the last entry.
    ///
    /// # Errors
    /// If an allocation fails.
    pub(crate) fn new(
        rt: R,
        alloc: Global,
        service: Arc<S>,
        mut token: Token<L>,
        open: Arc<OpenPoll>,
        beat: Arc<Beat>,
        place: Option<FollowerPlace>,
        query: TraceQuery,
    ) -> Result<TraceBody<R, S, T, K, L>, AllocError>
        ensures { IfOk result (IsTraceFrom S.Service (arc_value service) token query) }
    {
        let trail = service.trail(&rt, alloc, &mut token)?;
        Ok(TraceBody {
            rt,
            service,
            open,
            beat,
            bodies: query.bodies,
            course: Course {
                trail,
                left: query.from,
                rest: None,
                follow: query.follow,
            },
            place,
            heard: None,
            parker: Parker::new(),
            shown: 0,
            is_ended: false,
            of: PhantomData,
        })
    }

    /// Passes an entry that comes before the first line, if there is one.
    fn pass(&mut self) -> Found
        requires before { self.old.course.left ≢ 0 }
        requires none { self.old.course.rest ≡ None }
        ensures found { Finds S.Service (arc_value self.old.service) self.old.bodies
            self.old.course result self.new.course }
        ensures same { (self.new.service ≡ self.old.service) × (self.new.bodies ≡ self.old.bodies)
            × (self.new.is_ended ≡ self.old.is_ended) }
    {
        if !self.service.pass(&self.rt, &mut self.course.trail) {
            return Found::Nothing;
        }
        self.course.left -= 1;
        Found::Passed
    }

    /// Shows the first piece of a line.
    fn show(&mut self, line: Draft) -> Result<Found, AllocError>
        requires { self.old.course.rest ≡ None }
        ensures found { IfOk result (IsPieceFound line self.new.course.rest) }
        ensures course { self.new.course ≡ record self.old.course { rest = self.new.course.rest } }
        ensures same { (self.new.service ≡ self.old.service) × (self.new.bodies ≡ self.old.bodies)
            × (self.new.is_ended ≡ self.old.is_ended) }
    {
        let (frame, rest) = first_piece(line)?;
        self.course.rest = rest;
        Ok(Found::Piece(frame))
    }

    /// Looks for the entry that comes next.
    fn look_on(&mut self) -> Result<Found, AllocError>
        requires { self.old.course.rest ≡ None }
        ensures found { IfOk result (λ found. Finds S.Service (arc_value self.old.service) self.old.bodies
            self.old.course found self.new.course) }
        ensures same { (self.new.service ≡ self.old.service) × (self.new.bodies ≡ self.old.bodies)
            × (self.new.is_ended ≡ self.old.is_ended) }
    {
        if self.course.left > 0 {
            return Ok(self.pass());
        }
        match self
            .service
            .trace(&self.rt, &mut self.course.trail, self.bodies)?
        {
            None => Ok(Found::Nothing),
            Some(line) => self.show(line),
        }
    }

    /// Looks for the next piece: of what is left of a line, or of the entry that comes next.
    fn look(&mut self) -> Result<Found, AllocError>
        ensures found { IfOk result (λ found. Finds S.Service (arc_value self.old.service) self.old.bodies
            self.old.course found self.new.course) }
        ensures same { (self.new.service ≡ self.old.service) × (self.new.bodies ≡ self.old.bodies)
            × (self.new.is_ended ≡ self.old.is_ended) }
    {
        if let Some(rest) = self.course.rest.take() {
            return self.show(rest);
        }
        self.look_on()
    }

    /// Asks whether the service is off, after which the history is not followed any more.
    fn ask(&mut self) -> bool
        requires { self.old.course.follow ≡ true }
        ensures asked { Asks S.Service (arc_value self.old.service) self.old.course self.new.course }
        ensures same { (self.new.service ≡ self.old.service) × (self.new.bodies ≡ self.old.bodies)
            × (self.new.is_ended ≡ self.old.is_ended) }
    {
        let is_off = self.service.is_off(&self.rt, &mut self.course.trail);
        self.course.follow = !is_off;
        is_off
    }

    /// Waits for the next step: until its bell rings, and then for a rest, in which further steps wake no one; or it
    /// first gives a bell. Then it looks again.
    fn poll_step(&mut self, cx: &mut Context<'_>) -> Poll<AllocError>
        ensures same { (self.new.service ≡ self.old.service) × (self.new.bodies ≡ self.old.bodies)
            × (self.new.course ≡ self.old.course) × (self.new.is_ended ≡ self.old.is_ended) }
        ensures registered { OnPending result (Covers cx.new (Waits self.new.heard)) }
        ensures kept { Keeps cx.old cx.new }
    {
        let Some(heard) = &mut self.heard else {
            return match self.beat.followers.listen(&self.rt) {
                Err(refused) => Poll::Ready(refused),
                Ok(heard) => {
                    self.heard = Some(heard);
                    cx.yield_now()
                }
            };
        };
        match heard.poll(cx) {
            Poll::Pending => {
                self.open.note_awaited(true);
                Poll::Pending
            }
            Poll::Ready(()) => {
                self.heard = None;
                let rest = Duration::from_millis(rest_ms(self.shown));
                self.shown = 0;
                self.parker.park_timeout(&self.rt, rest);
                cx.yield_now()
            }
        }
    }

    /// Gives way to calls if it follows the history and has shown many pieces in a row.
    fn give_way(&self) {
        if self.course.follow && gives_way(self.shown) {
            self.parker
                .park_timeout(&self.rt, Duration::from_micros(WAY_US));
        }
    }

    /// Goes on where there is no further entry: ends, or waits for the next step.
    fn poll_on(&mut self, cx: &mut Context<'_>) -> Poll<Option<Result<Frame<Bytes>, AllocError>>>
        ensures value { IfReady result (Stops self.old.course) }
        ensures ended { IfReady result (λ _. self.new.is_ended ≡ true) }
        ensures asked { OnPending result (Asks S.Service (arc_value self.old.service) self.old.course self.new.course) }
        ensures same { OnPending result ((self.new.service ≡ self.old.service) × (self.new.bodies ≡ self.old.bodies)
            × (self.new.is_ended ≡ self.old.is_ended)) }
        ensures registered { OnPending result (Covers cx.new (Waits self.new.heard)) }
        ensures kept { Keeps cx.old cx.new }
    {
        if !self.course.follow {
            self.is_ended = true;
            return Poll::Ready(None);
        }
        if self.ask() {
            return cx.yield_now();
        }
        match self.poll_step(cx) {
            Poll::Pending => Poll::Pending,
            Poll::Ready(refused) => {
                self.is_ended = true;
                Poll::Ready(Some(Err(refused)))
            }
        }
    }
}

impl<R: Wait + Drop, S: Service<K, Ledgers = L, Trail = T>, T: Drop, K: Keep, L: Ledgers> Body
    for TraceBody<R, S, T, K, L> {
    ghost use Rattle.long_poll.specs.TraceFrames.{Yields, Waits};

    type Data = Bytes;

    type Error = AllocError;

    ghost needs = { λ b. Waits b.heard };

    ghost yields = { Yields S.Service };

    fn poll_frame(
        &mut self,
        cx: &mut Context<'_>,
    ) -> Poll<Option<Result<Frame<Bytes>, AllocError>>> {
        if self.is_ended {
            return Poll::Ready(None);
        }
        self.open.note_awaited(false);
        for _ in 0..PASSED_PER_POLL {
            match self.look() {
                Err(refused) => {
                    self.is_ended = true;
                    return Poll::Ready(Some(Err(refused)));
                }
                Ok(Found::Piece(piece)) => {
                    self.shown = self.shown.saturating_add(1);
                    self.give_way();
                    return Poll::Ready(Some(Ok(piece)));
                }
                Ok(Found::Nothing) => return self.poll_on(cx),
                Ok(Found::Passed) => {}
            }
        }
        cx.yield_now()
    }
}
