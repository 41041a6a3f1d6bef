//! A trail: how far a reader of the trace has come.

ghost use Rattle.std.specs.Prelude.{◌≡◌, ◌+◌, ◌<◌, ◌≤◌, length, reverse, slice_index_or, IfOk};
ghost use Rattle.call_types.specs.declared.call.Entry.{Entry};
ghost use Rattle.shared_history.specs.Sharing.{Extends};
ghost use Rattle.fleet.specs.Reaches.{before};
ghost use Rattle.trace.specs.Object.{object_tokens};
ghost use Rattle.account_lock.specs.Trails.{GoesOn};

use crate::Identity;
use account_book::Book;
use arn_ids::Checked;
use call_model::Ticket;
use std::alloc::{AllocError, Global};
use std::marker::Model;
use trace::{Draft, Follower};
use usage_ledger::{Pen, Spine, Token};

/// A reader of an account's trace: what it has seen of the history, the environments after the entries that
/// it has followed, and the ticket of the entry that comes next. Contracts see the history that it has seen,
/// and the ticket.
#[derive(Drop)]
pub struct Trail<S: Identity> {
    token: Token<S>,
    follower: Follower,
    next: Ticket,
}

impl<S: Identity> Model for Trail<S> {
    ghost use Rattle.std.specs.Prelude.{◌≡◌, ◌≤◌, length};
    ghost use Rattle.fleet.specs.Reaches.{before};
    ghost use Rattle.trace.specs.Sites.{sites};
    ghost use Rattle.account_lock.specs.Trails.{Trailed};

    ghost Value = { Trailed };

    ghost view = { λ t. record { seen = t.token; next = t.next } };

    ghost invariant = { λ t. (t.follower ≡ sites S.config (before t.token t.next)) × (t.next ≤ length t.token) };
}

impl<S: Identity> Trail<S> {
    /// Returns a trail that has followed no entry of the history that the token has seen.
    ///
    /// # Errors
    /// Only if memory is refused.
    pub(crate) fn open(
        alloc: Global,
        config: &Checked,
        token: Token<S>,
    ) -> Result<Trail<S>, AllocError>
        requires { config.now ≡ S.config }
        ensures { IfOk result (λ trail. (trail.seen ≡ token) × (trail.next ≡ 0)) }
    {
        Ok(Trail {
            token,
            follower: Follower::open(alloc, config)?,
            next: 0,
        })
    }

    /// Returns the ticket of the entry that comes next.
    pub fn next(&self) -> Ticket
        ensures { result ≡ self.now.next }
    {
        self.next
    }

    /// Shows the trail the whole history.
    pub(crate) fn see(&mut self, spine: &Spine<S>, pen: &mut Pen<S>)
        ensures all { self.new.seen ≡ pen.old }
        ensures longer { Extends self.old.seen pen.old }
        ensures next { self.new.next ≡ self.old.next }
        ensures same { pen.new ≡ pen.old }
    {
        pen.show(spine, &mut self.token);
    }

    /// Follows the entry that comes next; returns whether there is one.
    pub(crate) fn follow(&mut self, book: &Book) -> bool
        requires configured { book.now.config ≡ S.config }
        requires whole { book.now.history ≡ self.old.seen }
        ensures seen { self.new.seen ≡ self.old.seen }
        ensures next { GoesOn result self.old self.new }
    {
        book.facts();
        if self.next >= book.len() {
            return false;
        }
        self.follower.follow(&book.past(), self.next);
        self.next += 1;
        true
    }

    /// Returns the object of the entry with a ticket, which it has followed last.
    ///
    /// # Errors
    /// Only if memory is refused.
    pub(crate) fn draft(
        &self,
        book: &Book,
        bodies: bool,
        ticket: Ticket,
    ) -> Result<Draft, AllocError>
        requires configured { book.now.config ≡ S.config }
        requires whole { book.now.history ≡ self.now.seen }
        requires last { self.now.next ≡ ticket + 1 }
        ensures { let h = self.now.seen in IfOk result (λ draft. (d : Entry) → draft
            ≡ object_tokens bodies S.config book.now.salt h (before h ticket)
            (slice_index_or (reverse h) ticket d)) }
    {
        self.follower.draft(&book.past(), bodies, ticket)
    }
}
