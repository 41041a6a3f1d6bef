//! Settling an account: comparing its tallies with its book.

mod calls;
mod claims;
mod fault;
mod least;
mod marks;
mod receipts;

ghost use Rattle.std.specs.Prelude.{◌≡◌, ◌≢◌, ◌==◌, ◌^◌, ℕ, true, false, None, length, vec_len, IfOk, IfErr};
ghost use Rattle.std.specs.Prelude.{IfSome, IfNone};
ghost use Rattle.std.specs.List.{list_all};
ghost use Rattle.call_model.specs.Counts.{stats};
ghost use Rattle.account_lock.specs.Counting.{counts_of};
ghost use Rattle.account_lock.specs.Gathered.{parts_in, counts_in, keeps_nothing};
ghost use Rattle.account_lock.specs.Marking.{marked};
ghost use Rattle.account_lock.specs.Settlement.{IsKept, IsSettled, IsFault};
ghost use Rattle.account_lock.specs.declared.settle.fault.SettleFault.TheVariants.{TallyMissing};

use crate::{Bell, Desk};
use account_book::Book;
use call_model::{Answer, Stats};
use calls::call_differs;
use claims::wrong_claim;
pub use fault::SettleFault;
use marks::blank_marks;
use receipts::receipt_missing;
use std::alloc::Global;
use usage_ledger::{Keep, Ledgers, Tally, Token, Totals};

/// A settled account: its tallies have counted what its book counts.
#[derive(Drop)]
pub struct Settled<K: Keep, L: Ledgers> {
    /// The book, with its history.
    pub book: Book,
    /// The counts of the book.
    pub stats: Stats,
    /// One tally with the shares of all, which has all parts.
    pub tally: Tally<K, L>,
}

/// Why an account was not settled, and a token that has seen its history to the end.
#[derive(Drop)]
pub struct Unsettled<L: Ledgers> {
    /// The first fault that holds.
    pub fault: SettleFault,
    /// A token that has seen the history in which the fault is found.
    pub token: Token<L>,
}

/// Returns whether the tallies have all parts.
fn all_parts<K: Keep, L: Ledgers>(tallies: &[Tally<K, L>]) -> bool
    ensures { result ≡ (parts_in tallies.now == 2 ^ 32) }
{
    let mut sum: u64 = 0;
    for tally in tallies {
        sum = sum.saturating_add(tally.parts());
    }
    sum == 1 << 32
}

/// Joins all shares in one tally; returns `None` if there is no tally.
fn gather<K: Keep, L: Ledgers>(tallies: Vec<Tally<K, L>>) -> Option<Tally<K, L>>
    ensures some { IfSome result (λ tally. (tally.held.parts ≡ parts_in tallies.items)
        × (tally.held.counts ≡ counts_in tallies.items)) }
    ensures none { IfNone result (parts_in tallies.items ≡ 0) }
{
    let mut tallies = tallies;
    let mut all = tallies.pop()?;
    while let Some(tally) = tallies.pop() {
        all.absorb(tally);
    }
    Some(all)
}

/// Joins all shares in one tally, which shows that the tallies counted what the totals say.
fn audit<K: Keep, L: Ledgers>(totals: Totals<L>, tallies: Vec<Tally<K, L>>) -> Tally<K, L>
    requires parts { parts_in tallies.items ≡ 2 ^ 32 }
    ensures counted { counts_in tallies.items ≡ totals }
    ensures all { (result.held.parts ≡ 2 ^ 32) × (result.held.counts ≡ totals) }
{
    let Some(mut all) = gather(tallies) else {
        unreachable!();
    };
    let mut totals = totals;
    totals.audit(&mut all);
    all
}

/// Returns the first fault of the receipts and calls, in the order in which the faults are declared. All
/// marks are blank.
fn compare<K: Keep, L: Ledgers>(
    book: &Book,
    tallies: &[Tally<K, L>],
    receipts: Vec<bool>,
    calls: Vec<bool>,
) -> Option<SettleFault>
    requires parts { parts_in tallies.now ≡ 2 ^ 32 }
    requires receipts { (vec_len receipts ≡ length book.now.history)
        × ((t : ℕ) → marked t receipts.items ≡ 0) }
    requires calls { (vec_len calls ≡ length book.now.history) × ((t : ℕ) → marked t calls.items ≡ 0) }
    ensures none { IfNone result (IsKept K.ALL book.now.history tallies.now) }
    ensures some { IfSome result (λ fault. IsFault K.ALL fault book.now.history tallies.now) }
{
    if let Some(ticket) = wrong_claim::<Answer, K, L>(book, tallies) {
        return Some(SettleFault::ReceiptDiffers { ticket });
    }
    if let Some(ticket) = receipt_missing(book, receipts, tallies, K::ALL) {
        return Some(SettleFault::ReceiptMissing { ticket });
    }
    if let Some(ticket) = call_differs(book, calls, tallies, K::ALL) {
        return Some(SettleFault::CallDiffers { ticket });
    }
    None
}

/// Returns whether a tally keeps neither receipts nor calls.
fn keeps_nothing<K: Keep, L: Ledgers>(tally: &Tally<K, L>) -> bool
    ensures { result ≡ keeps_nothing tally.now }
{
    tally.kept().is_empty() && tally.calls().is_empty()
}

/// Returns whether no tally keeps any.
fn keep_nothing<K: Keep, L: Ledgers>(tallies: &[Tally<K, L>]) -> bool
    ensures { result ≡ list_all keeps_nothing tallies.now }
{
    tallies.iter().all(|tally| keeps_nothing(tally))
}

/// Returns the first fault of what the tallies keep, given that they have all parts. Everything is allocated
/// before the first comparison; if nothing is kept, and nothing has to be, nothing is allocated.
fn fault_of_keeping<K: Keep, L: Ledgers>(
    alloc: Global,
    book: &Book,
    tallies: &[Tally<K, L>],
) -> Option<SettleFault>
    requires parts { parts_in tallies.now ≡ 2 ^ 32 }
    ensures none { IfNone result (IsKept K.ALL book.now.history tallies.now) }
    ensures some { IfSome result (λ fault. IsFault K.ALL fault book.now.history tallies.now) }
    ensures nothing { K.ALL ≡ false → list_all keeps_nothing tallies.now ≡ true → result ≡ None }
{
    if !K::ALL && keep_nothing(tallies) {
        return None;
    }
    let entries = book.len() as usize;
    let Ok(receipts) = blank_marks(alloc, entries) else {
        return Some(SettleFault::OutOfMemory);
    };
    let Ok(calls) = blank_marks(alloc, entries) else {
        return Some(SettleFault::OutOfMemory);
    };
    compare(book, tallies, receipts, calls)
}

impl<B: Bell, L: Ledgers> Desk<B, L> {
    /// Returns the book, and one tally with all shares, which show that the tallies counted what it counts.
    fn audited<K: Keep>(self, tallies: Vec<Tally<K, L>>) -> (Book, Tally<K, L>)
        requires parts { parts_in tallies.items ≡ 2 ^ 32 }
        ensures book { result.0 ≡ self.book }
        ensures counted { counts_in tallies.items ≡ counts_of self.book.history }
        ensures all { (result.1.held.parts ≡ 2 ^ 32) × (result.1.held.counts ≡ counts_of self.book.history) }
    {
        let Desk { book, totals, .. } = self;
        let tally = audit(totals, tallies);
        (book, tally)
    }

    /// Adds up the shares of all tallies, and compares what they keep with the history, in time linear in
    /// the number of receipts, calls and entries.
    ///
    /// # Errors
    /// The first `SettleFault` that holds, in the order in which they are declared; desk and tallies are
    /// consumed. If no tally was missing, they have counted what the history counts. If nothing is kept, and
    /// nothing has to be, nothing is allocated, and a missing tally is the only fault.
    pub fn settle<K: Keep>(self, tallies: Vec<Tally<K, L>>) -> Result<Settled<K, L>, SettleFault>
        ensures book { IfOk result (λ settled. (settled.book ≡ self.book)
            × (settled.stats ≡ stats self.book.config self.book.history)) }
        ensures settled { IfOk result (λ settled. IsSettled K.ALL self.book.history tallies.items) }
        ensures tally { IfOk result (λ settled. (settled.tally.held.parts ≡ 2 ^ 32)
            × (settled.tally.held.counts ≡ counts_of self.book.history)) }
        ensures fault { IfErr result (λ fault. IsFault K.ALL fault self.book.history tallies.items) }
        ensures counted { IfErr result
            (λ fault. fault ≢ TallyMissing → counts_in tallies.items ≡ counts_of self.book.history) }
        ensures nothing { IfErr result
            (λ fault. K.ALL ≡ false → list_all keeps_nothing tallies.items ≡ true → fault ≡ TallyMissing) }
    {
        if !all_parts(&tallies) {
            return Err(SettleFault::TallyMissing);
        }
        let fault = fault_of_keeping(self.alloc, &self.book, &tallies);
        let (book, tally) = self.audited(tallies);
        match fault {
            Some(fault) => Err(fault),
            None => {
                let stats = book.stats();
                Ok(Settled { book, stats, tally })
            }
        }
    }
}
