//! The desk: the book, the bells of the callers that wait, and the totals of its ledgers.

mod bells;
mod resting;
mod ringer;
mod rings;
mod rises;
mod room;
mod serving;
mod unless_premature;

ghost use Rattle.std.specs.Prelude.{◌≡◌, ◌<◌, ◌^◌, [], true, false, IfOk, IfErr, OnErr};
ghost use Rattle.call_types.specs.Within.{IsWithin};
ghost use Rattle.account_book.specs.Reached.{IsBooked, IsReached};
ghost use Rattle.usage_ledger.specs.Counts.{no_counts};
ghost use Rattle.account_lock.specs.Looks.{look_of};
ghost use Rattle.account_lock.specs.Desks.{IsDesk, opened};
ghost use Rattle.account_lock.specs.Steps.{IsRefusal, IsStep};

use account_book::{Book, Refusal};
pub use bells::Bell;
use bells::store;
use call_model::{Answer, Call, Ticket};
pub use ringer::{AtOnce, Ringer};
pub use rings::Rings;
use room::{make_room, most_given};
use serving::serve_step;
use std::alloc::Global;
use std::marker::Model;
pub use unless_premature::NotTaken;
use usage_ledger::{Keep, Ledgers, Tally, Totals};

/// What is known of a ticket.
#[derive(Clone, Copy, Debug, PartialEq, Eq)]
pub enum Look {
    /// The ticket has this answer.
    Given(Answer),
    /// The ticket has no answer yet, or is past the end of the history.
    Waiting,
}

impl Look {
    /// Returns what is known of a ticket with this answer, or without one.
    pub fn of(answer: Option<Answer>) -> Look
        ensures { result ≡ look_of answer }
    {
        match answer {
            Some(answer) => Look::Given(answer),
            None => Look::Waiting,
        }
    }
}

/// One step: the ticket of its call, and the bells of the tickets that it answered.
#[derive(Drop)]
pub struct Step<B> {
    /// The ticket of the call.
    pub ticket: Ticket,
    /// The bells of the tickets that were answered, in the order of the answers.
    pub rings: Rings<B>,
}

/// Why a call was refused, with its caller's bell.
#[derive(Drop)]
pub struct Refused<B> {
    /// Why it was refused.
    pub refusal: Refusal,
    /// The caller's bell.
    pub bell: Option<B>,
}

/// The book of one account, the bells of the callers that wait for an answer, and the totals of its four
/// ledgers. Its type guarantees that the history is legal, that each bell belongs to a ticket that waits,
/// and that the totals are what the history counts.
#[derive(Drop)]
pub struct Desk<B, L: Ledgers> {
    pub(crate) alloc: Global,
    pub(crate) book: Book,
    pub(crate) bells: Vec<(Ticket, B)>,
    /// Where a step collects the bells that it hands out. Empty between steps; its memory stays.
    pub(crate) rings: Vec<B>,
    pub(crate) totals: Totals<L>,
}

impl<B, L: Ledgers> Model for Desk<B, L> {
    ghost use Rattle.std.specs.Prelude.{◌≡◌, []};
    ghost use Rattle.account_lock.specs.Desks.{Opened, IsDesk, opened};

    ghost Value = { Opened B };

    ghost view = { λ d. opened d.book d.bells.items d.totals };

    ghost invariant = { λ d. IsDesk (opened d.book d.bells.items d.totals) × (d.rings.items ≡ []) };
}

impl<B: Bell, L: Ledgers> Desk<B, L> {
    /// Opens the desk of an empty book, before anything is counted.
    pub fn open(alloc: Global, book: Book, totals: Totals<L>) -> Desk<B, L>
        requires empty { book.history ≡ [] }
        requires none { totals ≡ no_counts }
        ensures { result ≡ opened book [] no_counts }
    {
        book.facts();
        Desk {
            alloc,
            book,
            bells: Vec::new(alloc),
            rings: Vec::new(alloc),
            totals,
        }
    }

    /// Takes a call at a moment in milliseconds, below 2^53, with the bell of the caller that waits for
    /// its answer. The caller's tally counts what the step counts, and notes the answers that were given,
    /// in order, and then the call's head.
    ///
    /// # Errors
    /// `JournalFull` if the book has no room for the call, otherwise `OutOfMemory`. Desk and tally are
    /// unchanged, and the bell is returned.
    pub fn apply<K: Keep>(
        &mut self,
        tally: &mut Tally<K, L>,
        now: u64,
        call: Call,
        bell: Option<B>,
    ) -> Result<Step<B>, Refused<B>>
        requires moment { now < 2 ^ 53 }
        requires within { IsWithin self.old.book.config call }
        ensures taken { IfOk result (λ step. IsStep K.notes K.makes
            self.old tally.old.held now call bell step self.new tally.new.held) }
        ensures refused { IfErr result (λ back. IsRefusal self.old call bell back) }
        ensures same { OnErr result ((self.new ≡ self.old) × (tally.new.held ≡ tally.old.held)) }
    {
        if self.book.full(&call) {
            return Err(Refused {
                refusal: Refusal::JournalFull,
                bell,
            });
        }
        // One count of the environments that are due serves for the room for bells and the book's own
        // room.
        let expiries = self.book.count_due(now);
        let most = most_given(&self.book, expiries, &call);
        let Ok(()) = make_room(&mut self.bells, &mut self.rings, tally, most) else {
            return Err(Refused {
                refusal: Refusal::OutOfMemory,
                bell,
            });
        };
        let head = call.head();
        // The counts are kept: reading them before and after the step costs a copy of five numbers.
        let before = self.book.stats();
        let start = self.book.len();
        let Desk {
            book,
            bells,
            rings,
            totals,
            ..
        } = self;
        let Ok(ticket) = book.take(now, call, expiries) else {
            return Err(Refused {
                refusal: Refusal::OutOfMemory,
                bell,
            });
        };
        store(bells, ticket, bell);
        serve_step(book, start, before, bells, rings, totals, tally);
        tally.made(ticket, head);
        Ok(Step {
            ticket,
            rings: Rings::take_all(rings),
        })
    }

    /// Returns the book, whose methods read the account.
    pub fn book(&self) -> &Book
        ensures { result.now ≡ self.now.book }
    {
        &self.book
    }

    /// States what its type guarantees: a book can have its configuration, salt and limit of entries; its
    /// history is one that calls led to, each of which a book takes, so that `account_book::laws::replays`
    /// applies to it; its bells belong to tickets that wait; and its totals are what the history counts.
    pub fn facts(&self)
        ensures desk { IsDesk self.now }
        ensures booked { IsBooked self.now.book.config self.now.book.salt self.now.book.max_entries }
        ensures reached { IsReached self.now.book.config self.now.book.max_entries self.now.book.history }
    {
        let _bells = &self.bells;
        self.book.facts();
    }
}
