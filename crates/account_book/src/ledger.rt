//! The entries of an account, with what is derived from them.

ghost use Rattle.std.specs.Prelude.{◌≡◌, ◌+◌, ◌-◌, ◌∷◌, ◌<◌, ◌≤◌, ◌^◌, ◌||◌, [], ℕ, length, reverse, None, All, OnOk};
ghost use Rattle.call_model.specs.History.{answer_of, is_stop, stopped};
ghost use Rattle.call_model.specs.CallCounts.{call_counts, request_count};
ghost use Rattle.account_book.specs.Indexes.{noted};
ghost use Rattle.account_book.specs.Ledgers.{answer_limit, totals};

use crate::totals::Counters;
use arn_ids::EnvNo;
use call_model::{Answer, Answers, Call, Entry, Ticket};
use entry_blocks::Blocks;
use std::alloc::{AllocError, Global};
use std::marker::Model;

/// The entries, the oldest first, with what is derived from them. Room for an entry is made beforehand.
#[derive(Drop)]
pub struct Ledger {
    entries: Blocks<Entry>,
    /// For each entry, the count in its request identifier: 0 unless its call is an Invoke.
    counts: Blocks<u64>,
    /// For each ticket, its answer, if it was answered.
    given: Blocks<Option<Answer>>,
    totals: Counters,
    /// Whether an entry is a Stop.
    stopped: bool,
}

impl Model for Ledger {
    ghost use Rattle.account_book.specs.Shelf.{Shelf};
    ghost use Rattle.account_book.specs.Ledgers.{shelf, IsLedger};

    ghost Value = { Shelf };

    ghost view = { shelf };

    ghost invariant = { IsLedger };
}

/// Notes the answers of an entry.
fn note(given: &mut Blocks<Option<Answer>>, answers: &[(Ticket, Answer)])
    requires { All (λ a. a.0 < length given.old.0) answers.now }
    ensures { given.new ≡ (noted answers.now given.old.0, given.old.1) }
{
    let mut index = answers.len();
    while index > 0 {
        index -= 1;
        let (ticket, answer) = answers[index];
        given.set(ticket as usize, Some(answer));
    }
}

/// Whether the service is stopped after a call; `stopped` says whether it was before.
fn stops(stopped: bool, call: &Call) -> bool
    ensures { result ≡ (is_stop call.now || stopped) }
{
    matches!(call, Call::Stop) || stopped
}

/// Makes room for `room` more items in each of the lists.
fn make_rooms(
    entries: &mut Blocks<Entry>,
    counts: &mut Blocks<u64>,
    given: &mut Blocks<Option<Answer>>,
    room: usize,
) -> Result<(), AllocError>
    ensures values { (entries.new.0 ≡ entries.old.0) × (counts.new.0 ≡ counts.old.0) × (given.new.0 ≡ given.old.0) }
    ensures made { OnOk result ((entries.new.1 ≡ room) × (counts.new.1 ≡ room) × (given.new.1 ≡ room)) }
{
    entries.reserve(room)?;
    counts.reserve(room)?;
    given.reserve(room)
}

impl Ledger {
    /// A ledger with no entries and no room.
    pub fn new(alloc: Global) -> Ledger
        ensures { result ≡ record { history = []; room = 0 } }
    {
        Ledger {
            entries: Blocks::open(alloc),
            counts: Blocks::open(alloc),
            given: Blocks::open(alloc),
            totals: Counters::new(),
            stopped: false,
        }
    }

    /// Makes room for this many entries. If it fails, the entries are unchanged.
    pub fn make_room(&mut self, entries: usize) -> Result<(), AllocError>
        requires { length self.old.history + entries ≤ 2 ^ 32 }
        ensures same { self.new.history ≡ self.old.history }
        ensures made { OnOk result (self.new.room ≡ entries) }
    {
        let made = make_rooms(
            &mut self.entries,
            &mut self.counts,
            &mut self.given,
            entries,
        );
        if made.is_err() {
            self.entries.give_up_room();
            self.counts.give_up_room();
            self.given.give_up_room();
        }
        made
    }

    /// Adds an entry. `count` is the count in its call's request identifier.
    pub fn add(
        &mut self,
        moment: u64,
        call: Call,
        answers: Answers,
        place: Option<EnvNo>,
        count: u64,
    )
        requires room { 0 < self.old.room }
        requires count { count
            ≡ request_count (record { moment = moment; call = call; answers = answers; place = place }
            ∷ self.old.history) call }
        requires tickets { All (λ a. a.0 ≤ length self.old.history) answers }
        requires few { length answers ≤ answer_limit }
        requires fresh { answer_of self.old.history (length self.old.history) ≡ None }
        ensures { self.new
            ≡ record {
              history = record { moment = moment; call = call; answers = answers; place = place }
                  ∷ self.old.history;
              room = self.old.room - 1;
            } }
    {
        self.given.push(None);
        note(&mut self.given, answers.as_slice());
        self.totals.count(place, answers.as_slice());
        self.stopped = stops(self.stopped, &call);
        self.counts.push(count);
        self.entries.push(Entry {
            moment,
            call,
            answers,
            place,
        });
    }

    /// The entries, the oldest first.
    pub fn entries(&self) -> &Blocks<Entry>
        ensures value { result.now.0 ≡ reverse self.now.history }
        ensures few { length self.now.history ≤ 2 ^ 32 }
        ensures room { length self.now.history + self.now.room ≤ 2 ^ 32 }
    {
        &self.entries
    }

    /// For each entry, the count in its request identifier: 0 unless its call is an Invoke.
    pub fn counts(&self) -> &Blocks<u64>
        ensures { reverse result.now.0 ≡ call_counts self.now.history }
    {
        &self.counts
    }

    /// The answer to a ticket, if it was answered.
    #[tactic(auto, using(crate::proofs::Indexed::given_some, crate::proofs::Indexed::given_none))]
    pub fn answer(&self, ticket: Ticket) -> Option<Answer>
        requires { (t : ℕ) → length self.now.history ≤ t → answer_of self.now.history t ≡ None }
        ensures { result ≡ answer_of self.now.history ticket }
    {
        match self.given.get(ticket as usize) {
            None => None,
            Some(answer) => *answer,
        }
    }

    /// How many invocations were admitted, throttled and failed.
    pub fn totals(&self) -> Counters
        ensures { result ≡ totals self.now.history }
    {
        self.totals
    }

    /// Whether the service was stopped.
    pub fn is_stopped(&self) -> bool
        ensures { result ≡ stopped self.now.history }
    {
        self.stopped
    }
}
