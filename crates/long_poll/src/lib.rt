//! From a request to its reply: what is done with it, who decides it, and the futures that collect
//! its body, submit its call to an account, and wait for the answer.
//!
//! The groups of modules stand in the order in which to read them.
#![tactic(auto)]

// What an exchange asks of an account, and of a clock. A *service* is the account that connections share (`Account` is
// one). Each submit and each reading takes a token, and shows it the history. A call comes with a bell, which rings once
// its ticket is answered.
mod service;

// What is read of a body at a time, of a request's that is collected as of an answer's that is passed on.
mod body_piece;

// The exchange of one request: its body is collected, it is decided, its call is submitted, and its answer awaited and
// rendered. A `Connection` is what the exchanges of one connection have, `Shared` what all connections of a service
// share; a `Poll` waits for one ticket, without a request.
mod exchange;
mod poll;
mod shared;

// Who is woken by a step. The *beat* tells the ticker, which rests while nothing happens, and the followers, who wait
// for the next entry of the history; an alarm ends the sleep of a thread. What a connection waits for without a limit
// is noted, so that its peer's end is noticed. The bells of its steps ring after its turn.
mod beat;
mod late_bells;
mod open_poll;

// What the log tells of the requests that are rejected before they are calls: the board has the counts of each kind.
mod rejections;

// Patience: a premature call is held back. Its thread sleeps in its seat, at its place in the line of all callers that
// are held back, from which a Next calls the next one; the queue is the order of the line.
mod line;

// The bodies that are streamed, piece by piece: the history, and its trace, which may follow the history.
mod streamed_body;

// What follows for the replies over one account.
pub mod laws;

pub use beat::{Alarm, Beat};
pub use body_piece::{PieceFault, poll_piece};
pub use exchange::{
    BodyFault, Collecting, Connection, Exchange, ExchangeFault, Outcome, VERSION, clock_reply,
    declares_too_long, environments_reply, history_headers, reservation_reply, stats_reply,
    version_reply,
};
pub use late_bells::LateBells;
pub use line::Line;
pub use open_poll::OpenPoll;
pub use poll::{BellLost, Poll};
pub use rejections::{Cause, Kind, Rejections, Told};
pub use service::{Clock, ClockFace, Heard, MOST_LAG_MS, OneShotBell, Service, moment};
pub use shared::Shared;
pub use streamed_body::{HistoryBody, StreamedBody, TraceBody};
