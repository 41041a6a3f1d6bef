//! Serving the answers of a step's entries: their bells are taken, and the tally notes them.

ghost use Rattle.std.specs.Prelude.{◌≡◌, ◌+◌, ◌-◌, ◌≤◌, ◌++◌, true, drop, reverse, length, vec_len};
ghost use Rattle.std.specs.Prelude.{vec_capacity};
ghost use Rattle.call_model.specs.Counts.{admitted, throttled, failed};
ghost use Rattle.usage_ledger.specs.Counts.{counts, plus};
ghost use Rattle.usage_ledger.specs.Keeping.{Steps};
ghost use Rattle.account_lock.specs.Bells.{are_rising, rings_of, bells_after, answers_of};

use super::bells::take_bell;
use super::rises::rises;
use account_book::Book;
use call_model::{Answer, Entry, Stats, Ticket};
use entry_blocks::Blocks;
use usage_ledger::{Keep, Ledgers, Tally, Totals};

/// Takes the bells of answered tickets, and notes each answer.
fn serve_answers<B, K: Keep, L: Ledgers>(
    answers: &[(Ticket, Answer)],
    bells: &mut Vec<(Ticket, B)>,
    rings: &mut Vec<B>,
    tally: &mut Tally<K, L>,
)
    requires rising { are_rising bells.old.items ≡ true }
    requires room { vec_len rings.old + length answers.now ≤ vec_capacity rings.old }
    requires notes { length answers.now ≤ tally.old.spare_notes }
    ensures rings { rings.new.items ≡ rings.old.items ++ rings_of answers.now bells.old.items }
    ensures bells { bells.new.items ≡ bells_after answers.now bells.old.items }
    ensures kept { Steps K.notes tally.old.held.kept answers.now tally.new.held.kept }
    ensures same { tally.new.held ≡ record tally.old.held { kept = tally.new.held.kept } }
    ensures calls { tally.old.spare_calls ≤ tally.new.spare_calls }
    ensures notes { tally.old.spare_notes ≤ tally.new.spare_notes + length answers.now }
    ensures rising { are_rising bells.new.items ≡ true }
    ensures room { (vec_len rings.new ≤ vec_len rings.old + length answers.now)
        × (vec_capacity rings.new ≡ vec_capacity rings.old) }
{
    for pair in answers {
        take_bell(bells, pair.0, rings);
        tally.note(pair.0, pair.1);
    }
}

/// Does the same for the answers of the entries from `start` on, the oldest first.
pub(crate) fn serve_entries<B, K: Keep, L: Ledgers>(
    entries: &Blocks<Entry>,
    start: usize,
    bells: &mut Vec<(Ticket, B)>,
    rings: &mut Vec<B>,
    tally: &mut Tally<K, L>,
)
    requires start { start ≤ length entries.now.0 }
    requires rising { are_rising bells.old.items ≡ true }
    requires room { vec_len rings.old + length (answers_of (drop start entries.now.0))
        ≤ vec_capacity rings.old }
    requires notes { length (answers_of (drop start entries.now.0)) ≤ tally.old.spare_notes }
    ensures rings { rings.new.items
        ≡ rings.old.items ++ rings_of (answers_of (drop start entries.now.0)) bells.old.items }
    ensures bells { bells.new.items ≡ bells_after (answers_of (drop start entries.now.0)) bells.old.items }
    ensures kept { Steps K.notes tally.old.held.kept
        (answers_of (drop start entries.now.0)) tally.new.held.kept }
    ensures same { tally.new.held ≡ record tally.old.held { kept = tally.new.held.kept } }
    ensures calls { tally.old.spare_calls ≤ tally.new.spare_calls }
{
    for number in start..entries.len() {
        serve_answers(entries.at(number).answers.as_slice(), bells, rings, tally);
    }
}

/// Counts and notes what a call has added, the entries from `start` on, and takes the bells of its answers.
/// `before` is what the account counted before the call.
pub(crate) fn serve_step<B, K: Keep, L: Ledgers>(
    book: &Book,
    start: u64,
    before: Stats,
    bells: &mut Vec<(Ticket, B)>,
    rings: &mut Vec<B>,
    totals: &mut Totals<L>,
    tally: &mut Tally<K, L>,
)
    requires start { start ≤ length book.now.history }
    requires rising { are_rising bells.old.items ≡ true }
    requires room { vec_len rings.old + length (answers_of (drop start (reverse book.now.history)))
        ≤ vec_capacity rings.old }
    requires notes { length (answers_of (drop start (reverse book.now.history))) ≤ tally.old.spare_notes }
    requires risen { (before.admitted ≤ admitted book.now.history)
        × (before.throttled ≤ throttled book.now.history) × (before.failed ≤ failed book.now.history) }
    ensures rings { rings.new.items
        ≡ rings.old.items ++ rings_of (answers_of (drop start (reverse book.now.history))) bells.old.items }
    ensures bells { bells.new.items
        ≡ bells_after (answers_of (drop start (reverse book.now.history))) bells.old.items }
    ensures kept { Steps K.notes tally.old.held.kept
        (answers_of (drop start (reverse book.now.history))) tally.new.held.kept }
    ensures totals { totals.new ≡ plus totals.old
        (counts 1 (admitted book.now.history - before.admitted)
        (throttled book.now.history - before.throttled) (failed book.now.history - before.failed)) }
    ensures held { tally.new.held ≡ record tally.old.held {
      counts = plus tally.old.held.counts
          (counts 1 (admitted book.now.history - before.admitted)
          (throttled book.now.history - before.throttled)
          (failed book.now.history - before.failed));
      kept = tally.new.held.kept;
    } }
    ensures calls { tally.old.spare_calls ≤ tally.new.spare_calls }
{
    serve_entries(book.entries(), start as usize, bells, rings, tally);
    totals.count(tally, rises(before, book.stats()));
}
