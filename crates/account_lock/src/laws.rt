//! Laws of settling an account and of seeing a call that was taken. The functions do nothing; their
//! clauses are the laws.

ghost use Rattle.std.specs.Prelude.{◌≡◌, ◌<◌, ◌≤◌, ◌^◌, ℕ, Bool, List, [], ◌∷◌, length};
ghost use Rattle.arn_ids.specs.declared.config.Config.{Config};
ghost use Rattle.call_types.specs.declared.call.Call.{Call};
ghost use Rattle.call_types.specs.declared.call.Entry.{Entry};
ghost use Rattle.call_model.specs.History.{call_of};
ghost use Rattle.usage_ledger.specs.Counts.{no_counts};
ghost use Rattle.usage_ledger.specs.Tallies.{Tallied, fresh};
ghost use Rattle.account_book.specs.Reached.{IsReached};
ghost use Rattle.shared_history.specs.Sharing.{Extends};
ghost use Rattle.account_lock.specs.Counting.{counts_of};
ghost use Rattle.account_lock.specs.Gathered.{counts_in};
ghost use Rattle.account_lock.specs.declared.settle.fault.SettleFault.{SettleFault};
ghost use Rattle.account_lock.specs.declared.settle.fault.SettleFault.TheVariants.{OutOfMemory};
ghost use Rattle.account_lock.specs.Settlement.{IsSettled, IsFault};
ghost use Rattle.account_lock.specs.Shown.{IsTaken, Sees};

/// A settled account has no fault. An account settles exactly if none of the faults holds, apart from an
/// allocation that fails.
pub fn settled_without_fault()
    ensures { (all : Bool) (h : List Entry) (tallies : List Tallied) (fault : SettleFault) →
        IsSettled all h tallies → IsFault all fault h tallies → fault ≡ OutOfMemory }
{}

/// An account whose tallies have counted nothing has an empty history. So a new account has one: its one
/// tally has all parts and has counted nothing (`Account::open`), and settling it finds what the history
/// counts (`Account::settle`).
pub fn counted_nothing()
    ensures empty { (config : Config) (most : ℕ) (h : List Entry) →
        IsReached config most h → counts_of h ≡ no_counts → h ≡ [] }
    ensures opened { (config : Config) (most : ℕ) (h : List Entry) (tally : Tallied) →
        IsReached config most h → tally.held ≡ fresh (2 ^ 32) → counts_in (tally ∷ []) ≡ counts_of h → h ≡ [] }
{}

/// A caller that submitted a call and then sees the history finds the call there, at its ticket. The history that the
/// call made continues the one that the caller had seen, and the ticket is not in that one.
pub fn stands_where_it_was_taken()
    ensures there { (config : Config) (most : ℕ) (had : List Entry) (now : ℕ) (call : Call) (ticket : ℕ)
        (seen then : List Entry) →
        IsTaken config most had now call ticket seen → Sees config most seen then → ticket < length then }
    ensures same { (config : Config) (most : ℕ) (had : List Entry) (now : ℕ) (call : Call) (ticket : ℕ)
        (seen then : List Entry) →
        IsTaken config most had now call ticket seen → Sees config most seen then → call_of then ticket ≡ call }
    ensures later { (config : Config) (most : ℕ) (had : List Entry) (now : ℕ) (call : Call) (ticket : ℕ)
        (seen : List Entry) → IsTaken config most had now call ticket seen → Extends had seen }
    ensures fresh { (config : Config) (most : ℕ) (had : List Entry) (now : ℕ) (call : Call) (ticket : ℕ)
        (seen : List Entry) → IsTaken config most had now call ticket seen → length had ≤ ticket }
{}
