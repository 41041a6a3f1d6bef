//! Calls, and the entries of a history.

ghost use Rattle.std.specs.Prelude.{◌≡◌, [], ◌∷◌};

use crate::Answer;
use arn_ids::{EnvNo, FnNo, Text};
use bytes::Bytes;
use std::marker::Model;
use std::slice;

/// The index of a call in the history, from 0.
pub type Ticket = u64;

/// One call of a client, of an operator or of the clock. Its function and its environment are
/// numbers of the configuration, from 1.
#[derive(Debug, Drop)]
pub enum Call {
    /// A caller invokes a function (Lambda API, Invoke).
    Invoke {
        function: FnNo,
        /// Whether the caller named the version `$LATEST`.
        qualified: bool,
        /// The caller's `X-Amzn-Trace-Id`.
        trace: Option<Text>,
        /// The payload.
        body: Bytes,
    },
    /// A runtime asks for its next invocation (Runtime API, Next invocation).
    RuntimeNext {
        env: EnvNo,
    },
    /// A runtime reports an output (Runtime API, Invocation response).
    Response {
        env: EnvNo,
        /// The count in the request identifier that it names, at most 2^48 - 1.
        id: u64,
        body: Bytes,
    },
    /// A runtime reports an output above 6,291,456 bytes, which is not kept.
    ResponseTooLarge {
        env: EnvNo,
        /// The count in the request identifier that it names.
        id: u64,
    },
    /// A runtime reports that the invocation failed (Runtime API, Invocation error).
    Failure {
        env: EnvNo,
        /// The count in the request identifier that it names.
        id: u64,
        body: Bytes,
    },
    /// A runtime reports that its Init failed (Runtime API, Initialization error).
    InitFailure {
        env: EnvNo,
        body: Bytes,
    },
    /// An extension registers (Extensions API, Register).
    Register {
        env: EnvNo,
        /// `Lambda-Extension-Name`.
        name: Text,
        /// Whether it is notified of each invocation (event INVOKE).
        invoke: bool,
        /// Whether it is notified of the end of its environment (event SHUTDOWN).
        shutdown: bool,
        /// Whether it asks for the account's number in the reply (feature `accountId`).
        account: bool,
    },
    /// An extension asks for its next event (Extensions API, Next).
    ExtNext {
        env: EnvNo,
        /// The count in its identifier, at most 2^48 - 1.
        ext: u64,
    },
    /// An extension reports that its Init failed (Extensions API, Init error).
    ExtInitFailure {
        env: EnvNo,
        /// The count in its identifier.
        ext: u64,
        body: Bytes,
    },
    /// An extension reports that it exits (Extensions API, Exit error).
    ExtExitFailure {
        env: EnvNo,
        /// The count in its identifier.
        ext: u64,
        body: Bytes,
    },
    /// The clock ticks: only the moment counts.
    Tick,
    /// A connection with a parked Next ended.
    Withdraw {
        /// The ticket of that Next.
        ticket: Ticket,
    },
    /// An operator takes an idle environment down.
    Spindown {
        env: EnvNo,
    },
    /// An operator stops the service.
    Stop,
    /// The deadline of an environment's phase has passed. It isn't a call: the service itself makes
    /// this entry.
    Expire {
        env: EnvNo,
    },
    /// An operator sets or removes a function's reservation (Lambda API, PutFunctionConcurrency and
    /// DeleteFunctionConcurrency).
    Reserve {
        function: FnNo,
        /// How many concurrent invocations to reserve; `None` removes the reservation.
        count: Option<u32>,
    },
}

/// The answers that an entry gave, each with the ticket that got it, in rising ticket order. A single one, as most
/// entries give, is held without memory of its own.
#[derive(Drop)]
pub struct Answers {
    held: Held,
}

#[derive(Drop)]
enum Held {
    One((Ticket, Answer)),
    Listed(Vec<(Ticket, Answer)>),
}

impl Model for Answers {
    ghost use Rattle.std.specs.Prelude.{ℕ, List};
    ghost use Rattle.call_types.specs.declared.answer.Answer.{Answer};
    ghost use Rattle.call_types.specs.Pairs.{pairs};

    ghost Value = { List (ℕ × Answer) };

    ghost view = { λ a. pairs a.held };
}

impl Answers {
    /// Wraps the pairs, whose memory it takes over.
    pub fn new(answers: Vec<(Ticket, Answer)>) -> Answers
        ensures { result ≡ answers.items }
    {
        let held = Held::Listed(answers);
        Answers { held }
    }

    /// Holds one pair. It allocates nothing.
    pub fn one(pair: (Ticket, Answer)) -> Answers
        ensures { result ≡ pair ∷ [] }
    {
        let held = Held::One(pair);
        Answers { held }
    }

    /// Returns the pairs.
    pub fn as_slice(&self) -> &[(Ticket, Answer)]
        ensures { result.now ≡ self.now }
    {
        match &self.held {
            Held::One(pair) => slice::from_ref(pair),
            Held::Listed(answers) => answers,
        }
    }
}

/// One call of the history with what it caused.
#[derive(Drop)]
pub struct Entry {
    /// When it was taken, in milliseconds, at most 2^53 - 1 and never earlier than its predecessor.
    pub moment: u64,
    /// The call, or an expiry.
    pub call: Call,
    /// The answers that it gave, to its own ticket and to older ones that waited.
    pub answers: Answers,
    /// The environment where its Invoke was placed, if it was admitted.
    pub place: Option<EnvNo>,
}
