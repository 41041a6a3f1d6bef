//! The laws: what holds for every legal history. Each function does nothing; its clauses are the laws.

ghost use Rattle.std.specs.Prelude.{◌≡◌, ◌<◌, ◌≤◌, ℕ, true, false, cond, List, [], ◌∷◌, ◌++◌, length, reverse};
ghost use Rattle.std.specs.Prelude.{slice_index, Some, None, count_by, is_some, ◌+◌, ◌&&◌, ◌==◌};
ghost use Rattle.call_types.specs.declared.call.Call.{Call};
ghost use Rattle.call_types.specs.declared.call.Entry.{Entry};
ghost use Rattle.call_types.specs.declared.answer.Answer.{Answer};
ghost use Rattle.arn_ids.specs.declared.config.Config.{Config};
ghost use Rattle.arn_ids.specs.Environments.{function_of, environments};
ghost use Rattle.call_model.specs.History.{pending, place_of, call_of, answer_in, answer_of, is_expiry, is_invoke_of};
ghost use Rattle.call_model.specs.History.{requests, upto, poll_env};
ghost use Rattle.call_model.specs.CallCounts.{call_counts};
ghost use Rattle.call_model.specs.Generation.{Actor, asks};
ghost use Rattle.call_model.specs.Life.{phase, stand};
ghost use Rattle.call_model.specs.Stand.{bound_of};
ghost use Rattle.call_model.specs.Own.{own, own_ticket};
ghost use Rattle.call_model.specs.Isolation.{named};
ghost use Rattle.call_model.specs.Limits.{reservation, remainder, in_flight, unreserved_in_flight};
ghost use Rattle.call_model.specs.Laws.{lives, times, deliveries, is_outcome, is_open, admits, re_reserved};
ghost use Rattle.call_model.specs.Laws.{charged_in, is_taken, is_due, deadlines_of, are_in_order, ended_by};
ghost use Rattle.call_model.specs.Next.{IsLegal, next, due, last_moment, expiries_at};

/// Safety: where an invocation waits, how often it is answered and delivered, and where a Next is parked.
pub fn safe()
    // If a history is legal, it is legal after the next call. So every history that calls lead to is legal.
    ensures next_is_legal { (config : Config) (h : List Entry) (now : ℕ) (call : Call) → IsLegal config h
        → is_expiry call ≡ false → IsLegal config (next config h now call) }
    // An admitted invocation whose caller waits is in the environment where it was placed.
    ensures lives_in_its_place { (config : Config) (h : List Entry) (p e : ℕ) → IsLegal config h → place_of h p ≡ Some e
        → pending h p ≡ true → lives config h p e ≡ true }
    // It is in no other environment.
    ensures lives_nowhere_else { (config : Config) (h : List Entry) (p e : ℕ) → IsLegal config h
        → lives config h p e ≡ true → place_of h p ≡ Some e }
    // Of the invocations that were placed in an environment, at most one waits at a time (life cycle: one invocation
    // per execution environment).
    ensures waits_alone { (config : Config) (h : List Entry) (p q e : ℕ) → IsLegal config h → place_of h p ≡ Some e
        → pending h p ≡ true → place_of h q ≡ Some e → pending h q ≡ true → q ≡ p }
    // An invocation that was answered is not bound to any environment, so it will not be delivered again.
    ensures answered_bound_nowhere { (config : Config) (h : List Entry) (p e : ℕ) → IsLegal config h
        → pending h p ≡ false → bound_of (phase config h e) ≡ Some p → ⊥ }
    // No ticket is answered twice.
    ensures answered_once { (config : Config) (h : List Entry) (t : ℕ) → IsLegal config h → times h t ≤ 1 }
    // No ticket is answered before its own entry.
    ensures answered_late { (config : Config) (h : List Entry) (t : ℕ) → IsLegal config h → length h ≤ t
        → answer_of h t ≡ None }
    // An invocation is delivered at most once (Runtime API: Next invocation).
    ensures delivered_once { (config : Config) (h : List Entry) (p : ℕ) → IsLegal config h → deliveries h p ≤ 1 }
    // If an invocation is answered with an output, an output that is too large or a timeout, it was delivered in an
    // earlier entry.
    ensures delivered_before { (config : Config) (h : List Entry) (entry : Entry) (p : ℕ) (a : Answer)
        → IsLegal config (entry ∷ h) → answer_in entry.answers p ≡ Some a → is_outcome a ≡ true → 1 ≤ deliveries h p }
    // A Next is parked only at an environment that is Starting, Idle or Busy.
    ensures next_stands_open { (config : Config) (h : List Entry) (e t : ℕ) → IsLegal config h
        → poll_env (call_of h t) ≡ Some e → pending h t ≡ true → is_open (phase config h e) ≡ true }
    // At an environment, the runtime and each extension have at most one parked Next each.
    ensures next_stands_alone { (config : Config) (h : List Entry) (e t u : ℕ) (actor : Actor) → IsLegal config h
        → poll_env (call_of h t) ≡ Some e → asks actor (call_of h t) ≡ true → pending h t ≡ true
        → poll_env (call_of h u) ≡ Some e → asks actor (call_of h u) ≡ true → pending h u ≡ true → t ≡ u }
{}

/// What is due: the environments whose deadline has come, in the order in which they expire.
pub fn expiring()
    // The list has exactly these environments, each of them once.
    ensures listed { (config : Config) (h : List Entry) (m e : ℕ)
        → count_by (λ d. e == d) (due config h m) ≡ cond (is_due config h m e) 1 0 }
    // The earliest deadline comes first, and of equal deadlines the environment with the lowest number.
    ensures ordered { (config : Config) (h : List Entry) (m : ℕ)
        → are_in_order (deadlines_of config h (due config h m)) ≡ true }
    // After they have expired, one after the other, nothing is due.
    ensures done { (config : Config) (h : List Entry) (m : ℕ) → IsLegal config h → last_moment h ≤ m
        → due config (expiries_at config h m ++ h) m ≡ [] }
{}

/// What is in flight: how the limits bound it, and in which environments it is (reserved concurrency).
pub fn counted()
    // After an entry that admits an Invoke of a reserved function, the function has no more invocations in flight than
    // its reservation.
    ensures reserved { (config : Config) (h : List Entry) (entry : Entry) (f limit : ℕ) → IsLegal config (entry ∷ h)
        → admits f entry ≡ true → reservation config (entry ∷ h) f ≡ Some limit
        → in_flight config (entry ∷ h) f ≤ limit }
    // After an entry that admits an Invoke of an unreserved function, the unreserved functions together have no more
    // in flight than the remainder.
    ensures unreserved { (config : Config) (h : List Entry) (entry : Entry) (f : ℕ) → IsLegal config (entry ∷ h)
        → admits f entry ≡ true → reservation config (entry ∷ h) f ≡ None
        → unreserved_in_flight config (entry ∷ h) ≤ remainder config (entry ∷ h) }
    // As long as no reservation is changed, both hold after every entry. (A reservation that is lowered may be less
    // than what is in flight.)
    ensures always_reserved { (config : Config) (h : List Entry) (f limit : ℕ) → IsLegal config h
        → re_reserved h ≡ false → reservation config h f ≡ Some limit → in_flight config h f ≤ limit }
    ensures always_unreserved { (config : Config) (h : List Entry) → IsLegal config h → re_reserved h ≡ false
        → unreserved_in_flight config h ≤ remainder config h }
    // An environment that is Busy or has an invocation bound has exactly one charged invocation, and any other
    // environment has none.
    ensures taken { (config : Config) (h : List Entry) (e : ℕ) → IsLegal config h
        → charged_in config h e ≡ cond (is_taken (phase config h e)) 1 0 }
    // So a function has as many invocations in flight as environments that are Busy or have an invocation bound.
    ensures flight { (config : Config) (h : List Entry) (f : ℕ) → IsLegal config h
        → in_flight config h f
        ≡ count_by (λ e. (function_of config e == f) && is_taken (phase config h e)) (environments config) }
    // An entry adds the Invoke that it admits to those in flight, and removes the invocations whose charge it ends.
    ensures flight_moves { (config : Config) (h : List Entry) (entry : Entry) (f : ℕ) → IsLegal config (entry ∷ h)
        → in_flight config (entry ∷ h) f
        + count_by (λ e. (function_of config e == f)
        && is_some (ended_by (phase config h e) (phase config (entry ∷ h) e))) (environments config)
        ≡ in_flight config h f + cond (admits f entry) 1 0 }
{}

/// What is a function's own, in every legal history, with or without a reservation.
pub fn isolated()
    // An answer to one of its tickets never names a ticket of another function.
    ensures names { (config : Config) (h : List Entry) (f t p : ℕ) (a : Answer) → IsLegal config h
        → own_ticket config h f t ≡ true → answer_of h t ≡ Some a → named a ≡ Some p → own_ticket config h f p ≡ true }
    // In its own history, each of its environments has the same state as in the whole history.
    ensures stands { (config : Config) (h : List Entry) (f e : ℕ) → IsLegal config h → function_of config e ≡ f
        → stand config (own config h f) e ≡ stand config h e }
{}

/// The count at the ticket of an Invoke is the number of Invokes of its function up to and including that one: the
/// count in its request identifier.
pub fn counts_are_requests()
    ensures { (h : List Entry) (t f : ℕ) → t < length h → is_invoke_of f (call_of h t) ≡ true
        → slice_index (reverse (call_counts h)) t ≡ requests (upto h t) f }
{}
