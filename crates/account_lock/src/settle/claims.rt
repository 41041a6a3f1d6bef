//! Comparing what tallies keep of tickets with the history: answers that were given, or heads of calls.

ghost use Rattle.std.specs.Prelude.{◌≡◌, ◌≢◌, ℕ, ◌<◌, ◌≤◌, List, Option, Some, true, false, is_some, length};
ghost use Rattle.std.specs.Prelude.{min, vec_len};
ghost use Rattle.call_types.specs.declared.call.Entry.{Entry};
ghost use Rattle.usage_ledger.specs.Keeping.{Kept};
ghost use Rattle.account_lock.specs.Failing.{FirstFailure};
ghost use Rattle.account_lock.specs.Gathered.{occurrences_in};
ghost use Rattle.account_lock.specs.Marking.{marked, HasMark};
ghost use Rattle.account_lock.specs.Settlement.{Agree, AllAgree};

use super::least::lesser;
use super::marks::mark_pairs;
use account_book::Book;
use call_model::Ticket;
use usage_ledger::{Keep, Ledgers, Tally};

/// Something that a tally may keep of a ticket, and that the history has there.
pub(crate) trait Claim {
    /// What a history has at a ticket.
    ghost wanted: { List Entry → ℕ → Option Self };

    /// The part of what is kept.
    ghost part: { Kept → List (ℕ × Self) };

    /// Returns whether the history has this at a ticket.
    fn stands(&self, book: &Book, ticket: Ticket) -> bool
        ensures yes { result ≡ true → wanted book.now.history ticket ≡ Some self.now }
        ensures no { result ≡ false → wanted book.now.history ticket ≢ Some self.now };

    /// Returns whether the history has anything there.
    fn is_wanted(book: &Book, ticket: Ticket) -> bool
        ensures { result ≡ is_some (wanted book.now.history ticket) };

    /// Returns what a tally keeps, each item with its ticket.
    fn kept<K: Keep, L: Ledgers>(tally: &Tally<K, L>) -> &[(Ticket, Self)]
        ensures { result.now ≡ part tally.now.held.kept };
}

/// Returns the pair's ticket if the history has something else there.
fn unless_stands<C: Claim>(book: &Book, ticket: Ticket, claim: &C) -> Option<Ticket>
    ensures { FirstFailure (λ t. ticket ≡ t → C.wanted book.now.history t ≡ Some claim.now) result }
{
    if claim.stands(book, ticket) {
        None
    } else {
        Some(ticket)
    }
}

/// Returns the least ticket of the pairs at which the history has something else.
fn wrong_pair<C: Claim>(book: &Book, pairs: &[(Ticket, C)]) -> Option<Ticket>
    ensures { FirstFailure (Agree (C.wanted book.now.history) pairs.now) result }
{
    let mut wrong = None;
    for pair in pairs {
        wrong = lesser(wrong, unless_stands(book, pair.0, &pair.1));
    }
    wrong
}

/// Returns the same of what all tallies keep.
pub(crate) fn wrong_claim<C: Claim, K: Keep, L: Ledgers>(
    book: &Book,
    tallies: &[Tally<K, L>],
) -> Option<Ticket>
    ensures { FirstFailure (AllAgree (C.wanted book.now.history) C.part tallies.now) result }
{
    let mut wrong = None;
    for tally in tallies {
        wrong = lesser(wrong, wrong_pair(book, C::kept(tally)));
    }
    wrong
}

/// Marks the tickets of all that is kept, in blank marks, and returns the least ticket that occurs twice.
pub(crate) fn mark_claims<C: Claim, K: Keep, L: Ledgers>(
    marks: &mut Vec<bool>,
    tallies: &[Tally<K, L>],
) -> Option<Ticket>
    requires { (t : ℕ) → marked t marks.old.items ≡ 0 }
    ensures len { vec_len marks.new ≡ vec_len marks.old }
    ensures marks { (t : ℕ) → t < vec_len marks.old →
        marked t marks.new.items ≡ min 1 (occurrences_in C.part t tallies.now) }
    ensures twice { FirstFailure (λ t. t < vec_len marks.old → occurrences_in C.part t tallies.now ≤ 1) result }
{
    let mut twice = None;
    for tally in tallies {
        twice = lesser(twice, mark_pairs(marks, C::kept(tally)));
    }
    twice
}

/// Returns the least ticket at which the history has something, and that has no mark.
pub(crate) fn unmarked<C: Claim>(book: &Book, marks: &[bool]) -> Option<Ticket>
    requires { length marks.now ≡ length book.now.history }
    ensures { FirstFailure (HasMark (C.wanted book.now.history) (length book.now.history) marks.now) result }
{
    for ticket in 0..book.len() {
        if C::is_wanted(book, ticket) && !marks[ticket as usize] {
            return Some(ticket);
        }
    }
    None
}
