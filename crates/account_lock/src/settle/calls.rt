//! The calls of tallies, which must be the heads of the history's entries, each once and in order.

ghost use Rattle.std.specs.Prelude.{◌≡◌, ℕ, ◌≤◌, true, length, vec_len};
ghost use Rattle.account_lock.specs.Failing.{FirstFailure};
ghost use Rattle.account_lock.specs.Marking.{marked, HasMark};
ghost use Rattle.account_lock.specs.Settlement.{made, head_at, Rises, RisesUnjoined, AllRise, CallsAgree};

use super::claims::{Claim, mark_claims, unmarked, wrong_claim};
use super::least::lesser;
use account_book::Book;
use call_model::{Call, Head, Ticket};
use usage_ledger::{Keep, Ledgers, Tally};

/// Returns the head of a call; an expiry has none.
fn made(call: &Call) -> Option<Head>
    ensures { result ≡ made call.now }
{
    if matches!(call, Call::Expire { .. }) {
        None
    } else {
        Some(call.head())
    }
}

/// Returns the head of the call with a ticket; there is none past the end, and an expiry has none.
fn head_of_entry(book: &Book, ticket: Ticket) -> Option<Head>
    ensures { result ≡ head_at book.now.history ticket }
{
    match book.entry(ticket) {
        Some(entry) => made(&entry.call),
        None => None,
    }
}

impl Claim for Head {
    ghost use Rattle.account_lock.specs.Settlement.{head_at};

    ghost wanted = { head_at };

    ghost part = { λ kept. kept.calls };

    fn stands(&self, book: &Book, ticket: Ticket) -> bool {
        match head_of_entry(book, ticket) {
            Some(made) => made == *self,
            None => false,
        }
    }

    fn is_wanted(book: &Book, ticket: Ticket) -> bool {
        head_of_entry(book, ticket).is_some()
    }

    fn kept<K: Keep, L: Ledgers>(tally: &Tally<K, L>) -> &[(Ticket, Head)] {
        tally.calls()
    }
}

/// Returns the ticket if it is below the highest before it.
fn falls(highest: Ticket, ticket: Ticket) -> Option<Ticket>
    ensures { FirstFailure (λ t. ticket ≡ t → highest ≤ t) result }
{
    if ticket < highest { Some(ticket) } else { None }
}

/// Returns the least ticket that follows a greater one.
fn fallen(calls: &[(Ticket, Head)]) -> Option<Ticket>
    ensures { FirstFailure (Rises calls.now) result }
{
    let mut least = None;
    let mut highest = 0;
    for call in calls {
        least = lesser(least, falls(highest, call.0));
        highest = highest.max(call.0);
    }
    least
}

/// Returns the same of a tally that no join made, and `None` of any other.
fn fallen_in<K: Keep, L: Ledgers>(tally: &Tally<K, L>) -> Option<Ticket>
    ensures { FirstFailure (RisesUnjoined tally.now) result }
{
    if tally.joined() {
        None
    } else {
        fallen(tally.calls())
    }
}

/// Returns the same of all tallies.
fn order_differs<K: Keep, L: Ledgers>(tallies: &[Tally<K, L>]) -> Option<Ticket>
    ensures { FirstFailure (AllRise tallies.now) result }
{
    let mut least = None;
    for tally in tallies {
        least = lesser(least, fallen_in(tally));
    }
    least
}

/// Returns the least ticket of a call, expiries aside, that has no mark, if all calls should be kept.
fn call_missing(book: &Book, marks: &[bool], all: bool) -> Option<Ticket>
    requires { length marks.now ≡ length book.now.history }
    ensures { FirstFailure (λ t. all ≡ true →
        HasMark (head_at book.now.history) (length book.now.history) marks.now t) result }
{
    if all {
        unmarked::<Head>(book, marks)
    } else {
        None
    }
}

/// Returns the least ticket at which what the tallies keep of its call is wrong, or missing if all calls
/// should be kept. The marks are blank.
pub(crate) fn call_differs<K: Keep, L: Ledgers>(
    book: &Book,
    marks: Vec<bool>,
    tallies: &[Tally<K, L>],
    all: bool,
) -> Option<Ticket>
    requires len { vec_len marks ≡ length book.now.history }
    requires blank { (t : ℕ) → marked t marks.items ≡ 0 }
    ensures { FirstFailure (CallsAgree all book.now.history tallies.now) result }
{
    let mut marks = marks;
    let wrong = wrong_claim::<Head, K, L>(book, tallies);
    let twice = mark_claims::<Head, K, L>(&mut marks, tallies);
    let fallen = order_differs(tallies);
    let missing = call_missing(book, &marks, all);
    lesser(lesser(wrong, twice), lesser(fallen, missing))
}
